//! What is kept of what a core did, and what is told of it, in room that was made before.

ghost use Rattle.std.specs.Prelude.{◌≡◌, ◌≤◌, ◌+◌, ◌++◌, length, map, vec_len, vec_capacity};
ghost use Rattle.std.specs.Arc.{arc_slice_items};
ghost use Rattle.x12_core.specs.Effect.{deposits, items_to};
ghost use Rattle.x12_core.specs.Sends.{sends_view};
ghost use Rattle.x12_core.specs.View.{ask_view, packet_view};
ghost use Rattle.x12_hub.specs.Mailbox.{item_view};
ghost use Rattle.x12_nodes.specs.Log.{number_in_first, number_submitted, told_of_packets};
ghost use Rattle.x12_nodes.specs.View.{told_kind_view};
ghost use Rattle.x12_profile.specs.X12.{x12};

use std::sync::ArcSlice;
use x12_core::{Ask, Kind, Load, Packet, Sends, Site, deposit};
use x12_envelopes::read_header;
use x12_station::Outgoing;

/// Interchanges that a station submitted, as packets for its hub.
fn pour_deposits(packets: &mut Vec<Packet>, at: Site, sent: Vec<ArcSlice<u8>>)
    requires room { vec_len sent + vec_len packets.old ≤ vec_capacity packets.old }
    ensures { map packet_view packets.new.items
        ≡ map packet_view packets.old.items ++ deposits at (map arc_slice_items sent.items) }
{
    for bytes in sent {
        packets.push_reserved(deposit(at, Outgoing::Shared(bytes)));
    }
}

/// Items of a hub, as packets for the node of their mailbox.
fn pour_items(packets: &mut Vec<Packet>, hub: u16, to: u16, sent: Vec<(u32, Vec<u8>)>)
    requires room { vec_len sent + vec_len packets.old ≤ vec_capacity packets.old }
    ensures { map packet_view packets.new.items
        ≡ map packet_view packets.old.items ++ items_to x12 hub to (map item_view sent.items) }
{
    for (item, bytes) in sent {
        packets.push_reserved(Packet {
            from: hub,
            to,
            load: Load::Item(item, bytes),
        });
    }
}

/// What a core sends, as packets.
pub(crate) fn pour(sends: Sends, packets: &mut Vec<Packet>)
    requires room { length (sends_view sends) + vec_len packets.old ≤ vec_capacity packets.old }
    ensures { map packet_view packets.new.items
        ≡ map packet_view packets.old.items ++ sends_view sends }
{
    match sends {
        Sends::Nothing => {}
        Sends::One(packet) => packets.push_reserved(packet),
        Sends::Submitted(at, _, bytes) => {
            packets.push_reserved(deposit(at, Outgoing::Shared(bytes)));
        }
        Sends::Two(first, second) => {
            packets.push_reserved(first);
            packets.push_reserved(second);
        }
        Sends::Deposits(at, sent) => pour_deposits(packets, at, sent),
        Sends::Items(hub, to, sent) => pour_items(packets, hub, to, sent),
    }
}

/// The receiver and the kind of each packet.
pub(crate) fn tell(packets: &[Packet], told: &mut Vec<(u16, Kind)>)
    requires room { length packets.now + vec_len told.old ≤ vec_capacity told.old }
    ensures { map told_kind_view told.new.items
        ≡ map told_kind_view told.old.items ++ told_of_packets (map packet_view packets.now) }
{
    for packet in packets {
        told.push_reserved((packet.to, packet.load.kind()));
    }
}

/// The number (ISA13) of an interchange; 0 where it has no header.
fn number_of(bytes: &[u8]) -> u32
    ensures { result ≡ x12.number bytes.now }
{
    match read_header(bytes) {
        Ok(header) => header.icn,
        Err(_) => 0,
    }
}

/// The number of the interchange in the first packet.
fn first_number(packets: &[Packet]) -> Option<u32>
    ensures { result ≡ number_in_first (map packet_view packets.now) }
{
    let Some(packet) = packets.first() else {
        return None;
    };
    match &packet.load {
        Load::Deposit(sent) => Some(number_of(sent.bytes())),
        Load::Item(_, bytes) => Some(number_of(bytes)),
        Load::Refusal(bytes) => Some(number_of(bytes)),
        Load::Taken(_) => None,
    }
}

/// The number of what was submitted, by what was sent; `None` of any other event.
pub(crate) fn submitted(ask: &Ask, packets: &[Packet]) -> Option<u32>
    ensures { result ≡ number_submitted (ask_view ask.now) (map packet_view packets.now) }
{
    match ask {
        Ask::Do(action) => {
            if action.submits() {
                return first_number(packets);
            }
            None
        }
        _ => None,
    }
}
