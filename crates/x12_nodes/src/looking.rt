//! What a cell tells of itself.

ghost use Rattle.std.specs.Prelude.{◌≡◌, Some, map, IfOk};
ghost use Rattle.x12_core.specs.View.{load_view, name_view, packet_view};
ghost use Rattle.x12_nodes.specs.Cell.{IsReplayed};
ghost use Rattle.x12_nodes.specs.Check.{packet_is, party_opened, stamps_of};
ghost use Rattle.x12_nodes.specs.Finding.{entry_at, packet_sent};
ghost use Rattle.x12_nodes.specs.Receiving.{receipt_is};
ghost use Rattle.x12_nodes.specs.View.{log_entry_view, receipt_view};

use crate::cell::NodeCell;
use crate::comparing::{is_answer, is_ask};
use crate::finding::{find_entry, find_packet, is_same_load};
use crate::log::{LogEntry, Receipt};
use crate::opening::Opening;
use std::alloc::{AllocError, Global};
use x12_core::{Load, Packet, PacketName};
use x12_envelopes::Party;
use x12_hub::HubRecords;
use x12_station::Records;

/// Whether a packet is this one.
fn is_packet(packet: &Packet, from: u16, to: u16, load: &Load) -> bool
    ensures { result ≡ packet_is (record { from = from; to = to; load = load_view load.now })
        (Some (packet_view packet.now)) }
{
    packet.from == from && packet.to == to && is_same_load(&packet.load, load)
}

/// Whether a receipt is of an entry: it has its ask and its answer.
fn is_receipt_of(entry: &LogEntry, receipt: &Receipt) -> bool
    ensures { result ≡ receipt_is (receipt_view receipt.now) (Some (log_entry_view entry.now)) }
{
    is_ask(&entry.ask, &receipt.event) && is_answer(&entry.kept, &receipt.answer)
}

/// The stamps of a log.
fn stamps(alloc: Global, log: &[LogEntry]) -> Result<Vec<u64>, AllocError>
    ensures { IfOk result (λ v. v.items ≡ stamps_of (map log_entry_view log.now)) }
{
    let mut stamps = Vec::with_capacity(alloc, log.len())?;
    for entry in log {
        stamps.push(entry.stamp)?;
    }
    Ok(stamps)
}

impl<R: Records, H: HubRecords> NodeCell<R, H> {
    /// The node's number.
    pub(crate) fn node(&self) -> u16
        ensures { result ≡ self.now.site.node }
    {
        self.site.node
    }

    /// The number of the node's hub; of a hub its own.
    pub(crate) fn hub(&self) -> u16
        ensures { result ≡ self.now.site.hub }
    {
        self.site.hub
    }

    /// What the node was when the cell was made.
    pub(crate) fn opening(&self) -> Opening
        ensures { result ≡ self.now.opening }
    {
        self.opening
    }

    /// The node's party.
    pub(crate) fn party(&self) -> Party
        ensures { result ≡ party_opened self.now.opening }
    {
        match self.opening {
            Opening::Hub(me) => me,
            Opening::Station(me, _, _) => me,
        }
    }

    /// The log, which made the node what it is.
    pub(crate) fn log(&self) -> &[LogEntry]
        ensures log { map log_entry_view result.now ≡ self.now.log }
        ensures replayed { IsReplayed self.now }
    {
        &self.log
    }

    /// The stamps of the log.
    pub(crate) fn stamps(&self, alloc: Global) -> Result<Vec<u64>, AllocError>
        ensures { IfOk result (λ v. v.items ≡ stamps_of self.now.log) }
    {
        stamps(alloc, &self.log)
    }

    /// Whether the node sent such a packet under this name.
    pub(crate) fn has_sent(&self, name: &PacketName, from: u16, to: u16, load: &Load) -> bool
        ensures { result ≡ packet_is (record { from = from; to = to; load = load_view load.now })
            (packet_sent self.now.log (name_view name.now)) }
    {
        match find_packet(&self.log, name) {
            Some(packet) => is_packet(packet, from, to, load),
            None => false,
        }
    }

    /// Whether a receipt is of the entry with its stamp.
    pub(crate) fn has_taken(&self, receipt: &Receipt) -> bool
        ensures { result ≡ receipt_is (receipt_view receipt.now)
            (entry_at self.now.log receipt.now.stamp) }
    {
        match find_entry(&self.log, receipt.stamp) {
            Some(entry) => is_receipt_of(entry, receipt),
            None => false,
        }
    }
}
