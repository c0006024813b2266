//! One turn: each file that came is taken, and removed once all that it caused was put.

ghost use Rattle.std.specs.Prelude.{[], IfOk, OnOk, OnErr, map};
ghost use Rattle.x12_envelopes.specs.Writing.{texts};
ghost use Rattle.x12_spool.specs.Deed.{AddsDeeds, file_view};
ghost use Rattle.x12_spool.specs.Turn.{Does, TakesOne, MayTakeOne, TakesAll, TakesSome, TakesRead, StopsRead};
ghost use Rattle.x12_spool.specs.Turn.{TakesFile, StopsIn, TakesFiles, StopsInFiles, TakesListed, StopsInListed};
ghost use Rattle.x12_spool.specs.Turn.{word_for_hub};

use crate::node::{Answer, Node, NodeFault};
use crate::spool::{Spool, SpoolFault, Waiting, Word};
use std::alloc::{AllocError, Global};
use x12_envelopes::split_transmission;

/// Why a turn stopped. What was done before stands.
#[derive(Clone, Copy)]
pub enum TurnFault {
    /// The node did nothing.
    Node(NodeFault),
    /// A file or a folder refused, or memory was missing.
    Spool(SpoolFault),
}

impl From<SpoolFault> for TurnFault {
    ghost from_gives = { λ _ _. Unit {0} };

    fn from(fault: SpoolFault) -> TurnFault {
        TurnFault::Spool(fault)
    }
}

impl From<NodeFault> for TurnFault {
    ghost from_gives = { λ _ _. Unit {0} };

    fn from(fault: NodeFault) -> TurnFault {
        TurnFault::Node(fault)
    }
}

impl From<AllocError> for TurnFault {
    ghost from_gives = { λ _ _. Unit {0} };

    fn from(_: AllocError) -> TurnFault {
        TurnFault::Spool(SpoolFault::Memory)
    }
}

/// Takes one interchange of a file, and puts what the node sends where it is taken on; or sets it aside.
/// It answers whether it was taken.
fn take_one<N: Node, P: Spool>(
    node: &mut N,
    spool: &mut P,
    name: &[u8],
    bytes: &[u8],
) -> Result<bool, TurnFault>
    ensures took { IfOk result (λ one. Does (P.done spool.old) (P.done spool.new)
        (TakesOne N.Node name.now bytes.now node.old node.new one)) }
    ensures stopped { OnErr result (MayTakeOne N.Node bytes.now node.old node.new) }
    ensures undone { OnErr result (AddsDeeds (P.done spool.old) (P.done spool.new) []) }
{
    match node.take(bytes) {
        Ok(Answer::Sends(None)) => Ok(true),
        Ok(Answer::Sends(Some(reply))) => {
            spool.send(reply.bytes())?;
            Ok(true)
        }
        Ok(Answer::Refused(reason)) => {
            spool.set_aside(name, bytes, reason)?;
            Ok(false)
        }
        Err(fault) => Err(fault.into()),
    }
}

/// Takes the interchanges of a file in turn, and answers whether any was taken.
fn take_all<N: Node, P: Spool>(
    node: &mut N,
    spool: &mut P,
    name: &[u8],
    interchanges: &[&[u8]],
) -> Result<bool, TurnFault>
    ensures took { IfOk result (λ any. Does (P.done spool.old) (P.done spool.new)
        (TakesAll N.Node name.now (texts interchanges.now) node.old node.new any)) }
    ensures stopped { OnErr result (Does (P.done spool.old) (P.done spool.new)
        (TakesSome N.Node name.now (texts interchanges.now) node.old node.new)) }
{
    let mut any = false;
    for bytes in interchanges {
        any |= take_one(node, spool, name, bytes)?;
    }
    Ok(any)
}

/// Confirms the item that a file holds, if it holds one and any interchange of it was taken.
fn confirm_taken<P: Spool>(spool: &mut P, word: Word, any: bool) -> Result<(), TurnFault>
    ensures sent { OnOk result (AddsDeeds (P.done spool.old) (P.done spool.new) (word_for_hub word any)) }
    ensures unsent { OnErr result (AddsDeeds (P.done spool.old) (P.done spool.new) []) }
{
    match word {
        Word::Item(item) => {
            if any {
                Ok(spool.confirm(item)?)
            } else {
                Ok(())
            }
        }
        _ => Ok(()),
    }
}

/// A file that was read: its interchanges are taken, the item that it holds is confirmed, where any was
/// taken, and then the file is removed.
fn take_read<N: Node, P: Spool>(
    alloc: Global,
    node: &mut N,
    spool: &mut P,
    file: &Waiting,
    bytes: &[u8],
) -> Result<(), TurnFault>
    ensures took { OnOk result (Does (P.done spool.old) (P.done spool.new)
        (TakesRead N.Node (file_view file.now) bytes.now node.old node.new)) }
    ensures stopped { OnErr result (Does (P.done spool.old) (P.done spool.new)
        (StopsRead N.Node (file_view file.now) bytes.now node.old node.new)) }
{
    let interchanges = split_transmission(alloc, bytes)?;
    let any = take_all(node, spool, &file.name, &interchanges)?;
    confirm_taken(spool, file.word, any)?;
    Ok(spool.remove(&file.name)?)
}

/// A file that came: what its name says is heard, or its interchanges are taken. One that can't be
/// read is passed over.
fn take_file<N: Node, P: Spool>(
    alloc: Global,
    node: &mut N,
    spool: &mut P,
    file: &Waiting,
) -> Result<(), TurnFault>
    ensures took { OnOk result (Does (P.done spool.old) (P.done spool.new)
        (TakesFile N.Node (file_view file.now) node.old node.new)) }
    ensures stopped { OnErr result (Does (P.done spool.old) (P.done spool.new)
        (StopsIn N.Node (file_view file.now) node.old node.new)) }
{
    if let Word::Taken(item) = file.word {
        node.free(item)?;
        return Ok(spool.remove(&file.name)?);
    }
    match spool.read(&file.name)? {
        Some(bytes) => take_read(alloc, node, spool, file, &bytes),
        None => Ok(()),
    }
}

/// These files, in their order.
fn take_files<N: Node, P: Spool>(
    alloc: Global,
    node: &mut N,
    spool: &mut P,
    files: &[Waiting],
) -> Result<(), TurnFault>
    ensures took { OnOk result (Does (P.done spool.old) (P.done spool.new)
        (TakesFiles N.Node (map file_view files.now) node.old node.new)) }
    ensures stopped { OnErr result (Does (P.done spool.old) (P.done spool.new)
        (StopsInFiles N.Node (map file_view files.now) node.old node.new)) }
{
    for file in files {
        take_file(alloc, node, spool, file)?;
    }
    Ok(())
}

/// A turn: each file that came, in the order in which the spool lists them. It stops at the first that
/// the node or the spool can't go on with; what it did before stands, and the next turn does the rest.
pub fn run_turn<N: Node, P: Spool>(
    alloc: Global,
    node: &mut N,
    spool: &mut P,
) -> Result<(), TurnFault>
    ensures took { OnOk result (Does (P.done spool.old) (P.done spool.new)
        (TakesListed N.Node node.old node.new)) }
    ensures stopped { OnErr result (Does (P.done spool.old) (P.done spool.new)
        (StopsInListed N.Node node.old node.new)) }
{
    let files = spool.waiting()?;
    take_files(alloc, node, spool, &files)
}
