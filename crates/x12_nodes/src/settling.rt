//! What is checked of the nodes of a network when it ends.

ghost use Rattle.std.specs.Prelude.{◌≡◌, IfErr, IfOk, IsTrue, List, OnOk};
ghost use Rattle.x12_nodes.specs.Check.{is_replay, parties_opened, stamps_logged};
ghost use Rattle.x12_nodes.specs.declared.settling.SettleFault.TheVariants.{Memory};
ghost use Rattle.x12_nodes.specs.Settlement.{AreSettled};
ghost use Rattle.x12_nodes.specs.Settling.{all_cells_answer, AreOneRun, FindNothing};
ghost use Rattle.x12_nodes.specs.Settling.{IsInconsistent};
ghost use Rattle.x12_nodes.specs.View.{Receipt};

use crate::cell::NodeCell;
use crate::checking::{
    all_are_for_nodes, all_come_rightly, are_replayed, parties_of_cells, stamps_of_logs,
};
use crate::founding::{have_numbers, make_network};
use crate::law::merge_is_run;
use crate::merging::rise;
use crate::pass::Pass;
use crate::receiving::{all_stand, stamps_of_passes};
use std::alloc::{AllocError, Global};
use thiserror::Error;
use x12_envelopes::Party;
use x12_hub::HubRecords;
use x12_station::Records;

/// What is checked of logs, and of passes, in this order.
#[derive(Clone, Copy, Debug, PartialEq, Eq, Error)]
pub enum Check {
    /// No stamp stands twice.
    #[error("a stamp stands twice")]
    Stamp,
    /// A packet that came was sent before, to that node and under that name, and bytes from outside
    /// name no node as their sender.
    #[error("a packet came that was never sent, or bytes from outside name a node as their sender")]
    Packet,
    /// The nodes began as a new network, and a hub was asked for mailboxes of nodes alone.
    #[error("the nodes were no new network, or a hub was asked for a mailbox of no node")]
    Replay,
    /// Each receipt of a pass is of a call in the log of its node, with the same ask and answer; none
    /// stands twice or out of order.
    #[error("a receipt is of no call that its node took, stands twice or is out of order")]
    Receipt,
    /// No call stands in a log and in no pass.
    #[error("a call stands in no pass")]
    Stranger,
}

/// Why the nodes of a network aren't settled.
#[derive(Clone, Copy, Debug, PartialEq, Eq, Error)]
pub enum SettleFault {
    /// Memory was missing.
    #[error("memory was missing")]
    Memory,
    /// This is not so.
    #[error("{0}")]
    Inconsistent(Check),
}

impl From<AllocError> for SettleFault {
    ghost from_gives = { λ _ e. e ≡ Memory };

    fn from(_: AllocError) -> SettleFault {
        SettleFault::Memory
    }
}

/// Whether the nodes began as a new network, and a hub was asked for mailboxes of nodes alone.
fn replay<R: Records, H: HubRecords>(cells: &[NodeCell<R, H>], parties: &[Party]) -> bool
    requires parties { parties.now ≡ parties_opened cells.now }
    ensures { result ≡ is_replay cells.now }
{
    make_network(cells, parties) && have_numbers(cells) && all_are_for_nodes(cells)
}

/// What is checked of the cells of a network: `Memory`, else the first check that finds something
/// wrong. The stamps of all logs, merged.
fn look_over<R: Records, H: HubRecords>(
    alloc: Global,
    cells: &[NodeCell<R, H>],
) -> Result<Vec<u64>, SettleFault>
    ensures stamps { IfOk result (λ v. v.items ≡ stamps_logged cells.now) }
    ensures nothing { OnOk result (FindNothing cells.now) }
    ensures inconsistent { IfErr result (λ fault.
        (passes : List (List Receipt)) → IsInconsistent cells.now passes fault) }
{
    let stamps = stamps_of_logs(alloc, cells)?;
    if !rise(&stamps) {
        return Err(SettleFault::Inconsistent(Check::Stamp));
    }
    let parties = parties_of_cells(alloc, cells)?;
    if !all_come_rightly(cells, &parties) {
        return Err(SettleFault::Inconsistent(Check::Packet));
    }
    if !replay(cells, &parties) {
        return Err(SettleFault::Inconsistent(Check::Replay));
    }
    Ok(stamps)
}

/// Checks the cells of a network, in the order of their numbers: where nothing is wrong, their logs,
/// merged by their stamps, are one run of the network, which ends with what the nodes are now. That is
/// said where the records of all nodes answer.
///
/// `Memory`; else the first check that finds something wrong.
pub fn check_logs<R: Records, H: HubRecords>(
    alloc: Global,
    cells: &[NodeCell<R, H>],
) -> Result<(), SettleFault>
    ensures run { IsTrue (all_cells_answer cells.now) → OnOk result (AreOneRun cells.now) }
    ensures inconsistent { IfErr result (λ fault.
        (passes : List (List Receipt)) → IsInconsistent cells.now passes fault) }
{
    // laws: logs that are checked so are one run, and each node is what its log made of what it was
    merge_is_run();
    are_replayed(cells);
    look_over(alloc, cells)?;
    Ok(())
}

/// Checks the cells of a network, in the order of their numbers, and the passes of its callers: where
/// nothing is wrong, the logs are one run, as `check_logs` says, and the passes have a receipt of each
/// call in it, each once and in its order, and no other.
///
/// `Memory`; else the first check that finds something wrong.
pub fn check_network<R: Records, H: HubRecords>(
    alloc: Global,
    cells: &[NodeCell<R, H>],
    passes: &[Pass],
) -> Result<(), SettleFault>
    ensures settled { IsTrue (all_cells_answer cells.now) →
        OnOk result (AreSettled cells.now passes.now) }
    ensures inconsistent { IfErr result (IsInconsistent cells.now passes.now) }
{
    // laws: logs that are checked so are one run, and each node is what its log made of what it was
    merge_is_run();
    are_replayed(cells);
    let stamps = look_over(alloc, cells)?;
    let received = stamps_of_passes(alloc, passes)?;
    if !all_stand(cells, passes) {
        return Err(SettleFault::Inconsistent(Check::Receipt));
    }
    if !rise(&received) {
        return Err(SettleFault::Inconsistent(Check::Receipt));
    }
    if received != stamps {
        return Err(SettleFault::Inconsistent(Check::Stranger));
    }
    Ok(())
}
