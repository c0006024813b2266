//! What a cell does before it writes: room for a call, and the step of its core.

ghost use Rattle.std.specs.Prelude.{◌≡◌, ◌<◌, true, vec_capacity, vec_len};
ghost use Rattle.std.specs.Prelude.{IfErr, IfOk, IsTrue, OnErr, OnOk};
ghost use Rattle.x12_core.specs.Ask.{suits};
ghost use Rattle.x12_core.specs.Bound.{core_bound, SendsAtMost};
ghost use Rattle.x12_core.specs.Core.{core_answers, core_failures, node_of, Did};
ghost use Rattle.x12_core.specs.View.{ask_view};
ghost use Rattle.x12_nodes.specs.Cell.{stamp_may_follow, CellWasCounted, IsStepRefusal, IsUnready};
ghost use Rattle.x12_nodes.specs.Writing.{HasRoomFor};

use crate::fault::CellFault;
use crate::log::LogEntry;
use crate::writing::{Room, make_room};
use std::alloc::{AllocError, Global};
use x12_core::{Answer, Ask, Core, Site};
use x12_hub::HubRecords;
use x12_station::Records;

/// Room for a call: in the log for its entry, and for what is kept and told of it. L7 and L4.
pub(crate) fn ready<R: Records, H: HubRecords>(
    alloc: Global,
    node: u16,
    core: &Core<R, H>,
    log: &mut Vec<LogEntry>,
    ask: &Ask,
) -> Result<Room, CellFault>
    ensures suits { OnOk result (suits node (ask_view ask.now) (node_of core.now) ≡ true) }
    ensures refused { IfErr result
        (IsUnready (suits node (ask_view ask.now) (node_of core.now))) }
    ensures log { (log.new.items ≡ log.old.items)
        × OnOk result (vec_len log.new < vec_capacity log.new) }
    ensures count { IfOk result (λ r. r.count ≡ core_bound (ask_view ask.now) core.now) }
    ensures packets { IfOk result (λ r. HasRoomFor r.count r.packets) }
    ensures told { IfOk result (λ r. HasRoomFor r.count r.told) }
    ensures again { IfOk result (λ r. HasRoomFor r.count r.again) }
    ensures event { IfOk result (λ r. ask_view r.event ≡ ask_view ask.now) }
{
    if !core.suits(node, ask) {
        return Err(CellFault::WrongKind);
    }
    match log.reserve(1) {
        Ok(()) => Ok(make_room(alloc, ask, core.bound(ask))?),
        Err(AllocError) => Err(CellFault::Memory),
    }
}

/// Whether a stamp may follow the last one.
fn may_follow(last: u64, stamp: u64) -> bool
    ensures { result ≡ stamp_may_follow last stamp }
{
    last < stamp && stamp < u64::MAX
}

/// Asks the core, under a stamp that has to follow the last one. L2 and L3.
pub(crate) fn step<R: Records, H: HubRecords>(
    alloc: Global,
    site: Site,
    core: &mut Core<R, H>,
    last: u64,
    stamp: u64,
    ask: &Ask,
) -> Result<Answer, CellFault>
    ensures never_won_back { IsTrue (core_answers core.new) → IsTrue (core_answers core.old) }
    ensures did { IsTrue (core_answers core.new) → IfOk result
        (Did site (ask_view ask.now) (node_of core.old) (node_of core.new)) }
    ensures follows { OnOk result (stamp_may_follow last stamp ≡ true) }
    ensures bounded { IfOk result (SendsAtMost (core_bound (ask_view ask.now) core.old)) }
    ensures refused { IsTrue (core_answers core.new) → IfErr result (IsStepRefusal
        site.node (stamp_may_follow last stamp) (ask_view ask.now) (node_of core.old)) }
    ensures unchanged { IsTrue (core_answers core.new) →
        OnErr result (node_of core.new ≡ node_of core.old) }
    ensures store { IfErr result (λ f.
        CellWasCounted f (core_failures core.old) (core_failures core.new)) }
{
    if !may_follow(last, stamp) {
        return Err(CellFault::WentBack);
    }
    match core.apply(alloc, site, ask) {
        Ok(did) => Ok(did),
        Err(fault) => Err(CellFault::from(fault)),
    }
}
