//! What is found in a log by a stamp, or by the name of a packet.

ghost use Rattle.std.specs.Prelude.{◌≡◌, ◌<◌, length, map, slice_get, option_map};
ghost use Rattle.std.specs.Prelude.{IfNone, IfSome, None, Some};
ghost use Rattle.std.specs.Option.{option_copied};
ghost use Rattle.x12_core.specs.View.{load_view, name_view, packet_view};
ghost use Rattle.x12_nodes.specs.Check.{load_is};
ghost use Rattle.x12_nodes.specs.Finding.{entry_at, packet_at_place, packet_sent};
ghost use Rattle.x12_nodes.specs.Log.{LogEntry, StampsRise};
ghost use Rattle.x12_nodes.specs.View.{log_entry_view, packets_kept};

use crate::log::{Kept, LogEntry};
use x12_core::{Load, Packet, PacketName};

/// The index of the entry with this stamp.
fn find_index(log: &[LogEntry], stamp: u64) -> Option<usize>
    requires rises { StampsRise 0 (map log_entry_view log.now) }
    ensures found { IfSome result (λ i. (i < length log.now)
        × (entry_at (map log_entry_view log.now) stamp
        ≡ slice_get (map log_entry_view log.now) i)) }
    ensures none { IfNone result (entry_at (map log_entry_view log.now) stamp ≡ None) }
{
    log.binary_search_by_key(&stamp, |entry| entry.stamp).ok()
}

/// The entry with this stamp.
pub(crate) fn find_entry(log: &[LogEntry], stamp: u64) -> Option<&LogEntry>
    requires rises { StampsRise 0 (map log_entry_view log.now) }
    ensures { option_map log_entry_view (option_copied result)
        ≡ entry_at (map log_entry_view log.now) stamp }
{
    match find_index(log, stamp) {
        Some(index) => Some(&log[index]),
        None => None,
    }
}

/// The packet at this place, from 1.
fn at_place(packets: &[Packet], place: u32) -> Option<&Packet>
    ensures { option_map packet_view (option_copied result)
        ≡ packet_at_place place (map packet_view packets.now) }
{
    if place == 0 {
        return None;
    }
    packets.get(place as usize - 1)
}

/// The packet at this place of what a call sent.
fn kept_at_place(kept: &Kept, place: u32) -> Option<&Packet>
    ensures { option_map packet_view (option_copied result)
        ≡ packet_at_place place (packets_kept kept.now) }
{
    match kept {
        Kept::Sent { packets, .. } => at_place(packets, place),
        Kept::Fate(_) => None,
    }
}

/// The packet of this name that the node of a log sent.
pub(crate) fn find_packet<'a>(log: &'a [LogEntry], name: &PacketName) -> Option<&'a Packet>
    requires rises { StampsRise 0 (map log_entry_view log.now) }
    ensures { option_map packet_view (option_copied result)
        ≡ packet_sent (map log_entry_view log.now) (name_view name.now) }
{
    match find_entry(log, name.event) {
        Some(entry) => kept_at_place(&entry.kept, name.place),
        None => None,
    }
}

/// Whether two loads are the same: of the same kind, with the same item and the same bytes.
pub(crate) fn is_same_load(one: &Load, other: &Load) -> bool
    ensures { result ≡ load_is (load_view one.now) (load_view other.now) }
{
    match (one, other) {
        (Load::Deposit(a), Load::Deposit(b)) => a.bytes() == b.bytes(),
        (Load::Item(i, a), Load::Item(j, b)) => i == j && a == b,
        (Load::Refusal(a), Load::Refusal(b)) => a == b,
        (Load::Taken(i), Load::Taken(j)) => i == j,
        _ => false,
    }
}
