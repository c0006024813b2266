//! The nodes of a settled network without their locks and logs, and what they submitted.

ghost use Rattle.std.specs.Prelude.{◌≡◌, ◌≤◌, ◌<◌, ◌+◌, ◌++◌, IsTrue, IfErr, IfOk, OnOk, map};
ghost use Rattle.std.specs.Prelude.{vec_len, vec_capacity};
ghost use Rattle.x12_core.specs.Core.{node_of};
ghost use Rattle.x12_nodes.specs.Settling.{all_cells_answer, AreOneRun};
ghost use Rattle.x12_nodes.specs.Unlocking.{hub_of_node, hubs_of_cells, listed_as, listed_in};
ghost use Rattle.x12_nodes.specs.Unlocking.{listed_in_logs, number_told, states_in};
ghost use Rattle.x12_nodes.specs.View.{answer_kept, log_entry_view};
ghost use Rattle.x12_nodes.specs.Writing.{HasRoomFor};
ghost use Rattle.x12_world.specs.Asking.{states_of};
ghost use Rattle.x12_world.specs.Audit.{station_in};
ghost use Rattle.x12_world.specs.Audits.{HasStations};

use crate::cell::NodeCell;
use crate::checking::are_replayed;
use crate::log::{Kept, LogEntry};
use crate::pass::Pass;
use crate::settlement::Settlement;
use crate::wire::Wire;
use std::alloc::{AllocError, Global};
use x12_core::{Core, Listed};
use x12_hub::{Hub, HubRecords};
use x12_station::{Records, Station};

/// What a settled network was made of, without locks and logs.
pub struct Unlocked<R: Records, H: HubRecords> {
    /// The hubs, one or two, in the order of their numbers.
    pub hubs: Vec<Hub<H>>,
    /// The stations, in the order of their numbers.
    pub stations: Vec<Station<R>>,
    /// What the stations submitted, of each in its order.
    pub submitted: Vec<Listed>,
    /// The wire.
    pub wire: Wire,
    /// The passes.
    pub passes: Vec<Pass>,
}

/// The number of what was submitted, if that is kept.
fn number_kept(kept: &Kept) -> Option<u32>
    ensures { result ≡ number_told (answer_kept kept.now) }
{
    match kept {
        Kept::Sent { icn, .. } => *icn,
        Kept::Fate(_) => None,
    }
}

/// Lists what a node submitted under a number, if it did.
fn list_one(submitted: &mut Vec<Listed>, node: u16, icn: Option<u32>) -> Result<(), AllocError>
    ensures { OnOk result (submitted.new.items ≡ submitted.old.items ++ listed_as node icn) }
{
    match icn {
        Some(icn) => Ok(submitted.push(Listed { node, icn })?),
        None => Ok(()),
    }
}

/// Lists what the log of the node of this number submitted.
fn list_log(submitted: &mut Vec<Listed>, node: u16, log: &[LogEntry]) -> Result<(), AllocError>
    ensures { OnOk result (submitted.new.items
        ≡ submitted.old.items ++ listed_in node (map log_entry_view log.now)) }
{
    for entry in log {
        list_one(submitted, node, number_kept(&entry.kept))?;
    }
    Ok(())
}

/// What the logs submitted, node by node.
fn list_logs<R: Records, H: HubRecords>(
    alloc: Global,
    cells: &[NodeCell<R, H>],
) -> Result<Vec<Listed>, AllocError>
    ensures { IfOk result (λ v. v.items ≡ listed_in_logs cells.now) }
{
    let mut submitted = Vec::new(alloc);
    for cell in cells {
        list_log(&mut submitted, cell.node(), cell.log())?;
    }
    Ok(submitted)
}

/// Room for so many of each.
fn room_for<A, B>(alloc: Global, count: usize) -> Result<(Vec<A>, Vec<B>), AllocError>
    ensures first { IfOk result (λ r. HasRoomFor count r.0) }
    ensures second { IfOk result (λ r. HasRoomFor count r.1) }
{
    let first = Vec::with_capacity(alloc, count)?;
    match Vec::with_capacity(alloc, count) {
        Ok(second) => Ok((first, second)),
        Err(AllocError) => {
            first.destroy_empty();
            Err(AllocError)
        }
    }
}

/// Puts a core to those of its kind.
fn put<R: Records, H: HubRecords>(
    core: Core<R, H>,
    hubs: &mut Vec<Hub<H>>,
    stations: &mut Vec<Station<R>>,
)
    requires hubs { vec_len hubs.old < vec_capacity hubs.old }
    requires stations { vec_len stations.old < vec_capacity stations.old }
    ensures put { map (λ h. h.hub) hubs.new.items
        ≡ map (λ h. h.hub) hubs.old.items ++ hub_of_node (node_of core) }
    ensures states { states_of stations.new.items
        ≡ states_of stations.old.items ++ station_in (node_of core) }
    ensures hubs { (vec_len hubs.new ≤ vec_len hubs.old + 1)
        × (vec_capacity hubs.new ≡ vec_capacity hubs.old) }
    ensures stations { (vec_len stations.new ≤ vec_len stations.old + 1)
        × (vec_capacity stations.new ≡ vec_capacity stations.old) }
{
    match core {
        Core::Hub(hub) => hubs.push_reserved(hub),
        Core::Station(station) => stations.push_reserved(station),
    }
}

/// Puts the cores of cells to those of their kinds.
fn part<R: Records, H: HubRecords>(
    cells: Vec<NodeCell<R, H>>,
    hubs: &mut Vec<Hub<H>>,
    stations: &mut Vec<Station<R>>,
)
    requires hubs { vec_len cells + vec_len hubs.old ≤ vec_capacity hubs.old }
    requires stations { vec_len cells + vec_len stations.old ≤ vec_capacity stations.old }
    ensures hubs { map (λ h. h.hub) hubs.new.items
        ≡ map (λ h. h.hub) hubs.old.items ++ hubs_of_cells cells.items }
    ensures states { states_of stations.new.items
        ≡ states_of stations.old.items ++ states_in cells.items }
{
    let mut left = cells.into_iter();
    while let Some(cell) = left.next() {
        put(cell.end(), hubs, stations);
    }
    left.destroy_empty();
}

impl<R: Records, H: HubRecords> Settlement<R, H> {
    /// Ends the settlement, and its nodes' locks and logs: what the nodes are comes back, with the
    /// list of what they submitted, by which `x12_world::audit_all` tells the audit of each.
    ///
    /// Where memory for that is missing, the settlement as it was.
    pub fn unlock(self) -> Result<Unlocked<R, H>, Settlement<R, H>>
        ensures hubs { IfOk result (λ u. map (λ h. h.hub) u.hubs.items ≡ hubs_of_cells self.cells) }
        ensures states { IfOk result (λ u. states_of u.stations.items ≡ states_in self.cells) }
        ensures world { IfOk result (λ u. IsTrue (all_cells_answer self.cells) →
            (one : AreOneRun self.cells) →
            HasStations one.is_run.world (states_of u.stations.items) u.submitted.items) }
        ensures parts { IfOk result (λ u. (u.passes.items ≡ self.passes) × (u.wire ≡ self.wire)) }
        ensures back { IfErr result (λ s. s ≡ self) }
    {
        // laws: what holds of each world that a network can reach, and each node is what its log made
        x12_world::x12::reached();
        are_replayed(&self.cells);
        let Ok(submitted) = list_logs(self.alloc, &self.cells) else {
            return Err(self);
        };
        let Ok((hubs, stations)) = room_for(self.alloc, self.cells.len()) else {
            return Err(self);
        };
        let Settlement {
            alloc: _,
            cells,
            wire,
            passes,
        } = self;
        let (mut hubs, mut stations) = (hubs, stations);
        part(cells, &mut hubs, &mut stations);
        Ok(Unlocked {
            hubs,
            stations,
            submitted,
            wire,
            passes,
        })
    }
}
