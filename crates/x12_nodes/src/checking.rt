//! What is checked of the cells of a network.

ghost use Rattle.std.specs.Prelude.{◌≡◌, All, map, IfOk};
ghost use Rattle.std.specs.List.{list_all};
ghost use Rattle.x12_core.specs.View.{ask_view, load_view, name_view};
ghost use Rattle.x12_nodes.specs.Cell.{IsReplayed};
ghost use Rattle.x12_nodes.specs.Check.{all_ask_for_nodes, all_came_rightly};
ghost use Rattle.x12_nodes.specs.Check.{asks_for_node, came_rightly, packet_from, packet_is};
ghost use Rattle.x12_nodes.specs.Check.{parties_opened, stamps_logged};
ghost use Rattle.x12_nodes.specs.View.{log_entry_view};

use crate::cell::NodeCell;
use crate::cells::cell_of;
use crate::log::LogEntry;
use crate::merging::merge_all;
use crate::naming::name_one;
use std::alloc::{AllocError, Global};
use x12_core::{Ask, Load, PacketName};
use x12_envelopes::Party;
use x12_hub::HubRecords;
use x12_station::Records;

/// A law: each node is what its log made of what it was, and its stamps rise.
pub(crate) fn are_replayed<R: Records, H: HubRecords>(cells: &[NodeCell<R, H>])
    ensures { All IsReplayed cells.now }
{
    for cell in cells {
        let _log = cell.log();
    }
}

/// The stamps of all logs, merged.
pub(crate) fn stamps_of_logs<R: Records, H: HubRecords>(
    alloc: Global,
    cells: &[NodeCell<R, H>],
) -> Result<Vec<u64>, AllocError>
    ensures { IfOk result (λ v. v.items ≡ stamps_logged cells.now) }
{
    let mut lists = Vec::with_capacity(alloc, cells.len())?;
    for cell in cells {
        lists.push(cell.stamps(alloc)?)?;
    }
    merge_all(alloc, &lists)
}

/// The parties of the nodes.
pub(crate) fn parties_of_cells<R: Records, H: HubRecords>(
    alloc: Global,
    cells: &[NodeCell<R, H>],
) -> Result<Vec<Party>, AllocError>
    ensures { IfOk result (λ v. v.items ≡ parties_opened cells.now) }
{
    let mut parties = Vec::with_capacity(alloc, cells.len())?;
    for cell in cells {
        parties.push(cell.party())?;
    }
    Ok(parties)
}

/// Whether a node sent such a packet.
fn has_sent<R: Records, H: HubRecords>(
    cells: &[NodeCell<R, H>],
    name: &PacketName,
    from: u16,
    to: u16,
    load: &Load,
) -> bool
    ensures { result ≡ packet_is (record { from = from; to = to; load = load_view load.now })
        (packet_from cells.now from (name_view name.now)) }
{
    match cell_of(cells, from) {
        Some(sender) => sender.has_sent(name, from, to, load),
        None => false,
    }
}

/// Whether what an entry of a node brought came rightly.
fn comes_rightly<R: Records, H: HubRecords>(
    cells: &[NodeCell<R, H>],
    parties: &[Party],
    node: u16,
    entry: &LogEntry,
) -> bool
    requires parties { parties.now ≡ parties_opened cells.now }
    ensures { result ≡ came_rightly cells.now node entry.now.stamp (ask_view entry.now.ask) }
{
    match &entry.ask {
        Ask::Deliver {
            packet,
            from,
            load,
            ..
        } => packet.event < entry.stamp && has_sent(cells, packet, *from, node, load),
        Ask::Outside { bytes, .. } => !name_one(parties, bytes),
        _ => true,
    }
}

/// Whether what the entries of a node brought came rightly.
fn log_comes_rightly<R: Records, H: HubRecords>(
    cells: &[NodeCell<R, H>],
    parties: &[Party],
    node: u16,
    log: &[LogEntry],
) -> bool
    requires parties { parties.now ≡ parties_opened cells.now }
    ensures { result ≡ list_all (λ e. came_rightly cells.now node e.stamp e.ask)
        (map log_entry_view log.now) }
{
    for entry in log {
        if !comes_rightly(cells, parties, node, entry) {
            return false;
        }
    }
    true
}

/// Whether whatever came to a node came rightly: what a packet brought was sent before, and what came
/// from outside names no node.
pub(crate) fn all_come_rightly<R: Records, H: HubRecords>(
    cells: &[NodeCell<R, H>],
    parties: &[Party],
) -> bool
    requires parties { parties.now ≡ parties_opened cells.now }
    ensures { result ≡ all_came_rightly cells.now cells.now }
{
    for cell in cells {
        if !log_comes_rightly(cells, parties, cell.node(), cell.log()) {
            return false;
        }
    }
    true
}

/// Whether a mailbox that the hub of this number is asked for is that of another node.
fn is_for_node<R: Records, H: HubRecords>(cells: &[NodeCell<R, H>], hub: u16, ask: &Ask) -> bool
    ensures { result ≡ asks_for_node cells.now hub (ask_view ask.now) }
{
    match ask.node_meant() {
        Some(node) => cell_of(cells, node).is_some() && hub != node,
        None => true,
    }
}

/// Whether each mailbox that the hub of this number was asked for is that of another node.
fn log_is_for_nodes<R: Records, H: HubRecords>(
    cells: &[NodeCell<R, H>],
    hub: u16,
    log: &[LogEntry],
) -> bool
    ensures { result ≡ list_all (λ e. asks_for_node cells.now hub e.ask)
        (map log_entry_view log.now) }
{
    for entry in log {
        if !is_for_node(cells, hub, &entry.ask) {
            return false;
        }
    }
    true
}

/// Whether each mailbox that any hub was asked for is that of another node.
pub(crate) fn all_are_for_nodes<R: Records, H: HubRecords>(cells: &[NodeCell<R, H>]) -> bool
    ensures { result ≡ all_ask_for_nodes cells.now cells.now }
{
    for cell in cells {
        if !log_is_for_nodes(cells, cell.node(), cell.log()) {
            return false;
        }
    }
    true
}
