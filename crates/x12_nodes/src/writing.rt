//! The entry and the receipt of a call, in room that was made before the core was asked.

ghost use Rattle.std.specs.Prelude.{◌≡◌, ◌≤◌, length, map, IfOk};
ghost use Rattle.x12_core.specs.Sends.{sends_view};
ghost use Rattle.x12_core.specs.View.{ask_view, packet_view};
ghost use Rattle.x12_nodes.specs.Log.{answer_to_sends, told_of_packets, Sent};
ghost use Rattle.x12_nodes.specs.View.{answer_kept, node_answer_view, log_entry_view, packets_kept};
ghost use Rattle.x12_nodes.specs.View.{receipt_view, told_kind_view};
ghost use Rattle.x12_nodes.specs.Writing.{answer_of_core, entry_of, sends_of_core};
ghost use Rattle.x12_nodes.specs.Writing.{HasRoomFor, IsEnoughFor};

use crate::copying::copied_ask;
use crate::log::{Answer, Kept, LogEntry, Receipt};
use crate::telling::{pour, submitted, tell};
use std::alloc::{AllocError, Global};
use x12_core::{Answer as CoreAnswer, Ask, Kind, Packet, Sends};

/// Room for what is kept of a call, and for what is told of it twice.
#[derive(Drop)]
pub(crate) struct Room {
    count: usize,
    packets: Vec<Packet>,
    told: Vec<(u16, Kind)>,
    again: Vec<(u16, Kind)>,
    event: Ask,
}

/// Room for so many packets, and a copy of what is asked.
pub(crate) fn make_room(alloc: Global, ask: &Ask, count: usize) -> Result<Room, AllocError>
    ensures count { IfOk result (λ r. r.count ≡ count) }
    ensures packets { IfOk result (λ r. HasRoomFor r.count r.packets) }
    ensures told { IfOk result (λ r. HasRoomFor r.count r.told) }
    ensures again { IfOk result (λ r. HasRoomFor r.count r.again) }
    ensures event { IfOk result (λ r. ask_view r.event ≡ ask_view ask.now) }
{
    Ok(Room {
        count,
        packets: Vec::with_capacity(alloc, count)?,
        told: Vec::with_capacity(alloc, count)?,
        again: Vec::with_capacity(alloc, count)?,
        event: copied_ask(alloc, ask)?,
    })
}

/// What is kept of packets that were sent, and what is told of them twice, as the answer.
fn as_sent(
    icn: Option<u32>,
    packets: Vec<Packet>,
    told: Vec<(u16, Kind)>,
    again: Vec<(u16, Kind)>,
) -> (Kept, Answer, Answer)
    ensures packets { packets_kept result.0 ≡ map packet_view packets.items }
    ensures kept { answer_kept result.0
        ≡ Sent icn (told_of_packets (map packet_view packets.items)) }
    ensures told { node_answer_view result.1 ≡ Sent icn (map told_kind_view told.items) }
    ensures again { node_answer_view result.2 ≡ Sent icn (map told_kind_view again.items) }
{
    (
        Kept::Sent { icn, packets },
        Answer::Sent { icn, packets: told },
        Answer::Sent {
            icn,
            packets: again,
        },
    )
}

/// What is kept of what was sent, and the answer twice; of more packets than there is room for,
/// nothing.
fn sent(
    ask: &Ask,
    sends: Sends,
    count: usize,
    packets: Vec<Packet>,
    told: Vec<(u16, Kind)>,
    again: Vec<(u16, Kind)>,
) -> (Kept, Answer, Answer)
    requires packets { HasRoomFor count packets }
    requires told { HasRoomFor count told }
    requires again { HasRoomFor count again }
    ensures packets { length (sends_view sends) ≤ count → packets_kept result.0 ≡ sends_view sends }
    ensures kept { length (sends_view sends) ≤ count →
        answer_kept result.0 ≡ answer_to_sends (ask_view ask.now) (sends_view sends) }
    ensures told { node_answer_view result.1 ≡ answer_kept result.0 }
    ensures again { node_answer_view result.2 ≡ answer_kept result.0 }
{
    let (mut packets, mut told, mut again) = (packets, told, again);
    if sends.count() > count {
        drop(sends);
        return as_sent(None, packets, told, again);
    }
    pour(sends, &mut packets);
    tell(&packets, &mut told);
    tell(&packets, &mut again);
    let icn = submitted(ask, &packets);
    as_sent(icn, packets, told, again)
}

/// What is kept of what a core did, and the answer twice.
fn divided(
    ask: &Ask,
    did: CoreAnswer,
    count: usize,
    packets: Vec<Packet>,
    told: Vec<(u16, Kind)>,
    again: Vec<(u16, Kind)>,
) -> (Kept, Answer, Answer)
    requires packets { HasRoomFor count packets }
    requires told { HasRoomFor count told }
    requires again { HasRoomFor count again }
    ensures packets { IsEnoughFor count did → packets_kept result.0 ≡ sends_of_core did }
    ensures kept { IsEnoughFor count did →
        answer_kept result.0 ≡ answer_of_core (ask_view ask.now) did }
    ensures told { node_answer_view result.1 ≡ answer_kept result.0 }
    ensures again { node_answer_view result.2 ≡ answer_kept result.0 }
{
    match did {
        CoreAnswer::Sent(sends) => sent(ask, sends, count, packets, told, again),
        CoreAnswer::Fate(fate) => (Kept::Fate(fate), Answer::Fate(fate), Answer::Fate(fate)),
    }
}

/// The entry, the receipt and the answer of a call that this node took.
pub(crate) fn written(
    node: u16,
    stamp: u64,
    ask: Ask,
    did: CoreAnswer,
    room: Room,
) -> (LogEntry, Receipt, Answer)
    requires packets { HasRoomFor room.count room.packets }
    requires told { HasRoomFor room.count room.told }
    requires again { HasRoomFor room.count room.again }
    requires event { ask_view room.event ≡ ask_view ask }
    ensures entry { IsEnoughFor room.count did →
        log_entry_view result.0 ≡ entry_of stamp (ask_view ask) did }
    ensures stamp { result.0.stamp ≡ stamp }
    ensures told { node_answer_view result.2 ≡ (log_entry_view result.0).answer }
    ensures receipt { receipt_view result.1 ≡ record {
      node = node;
      stamp = stamp;
      ask = ask_view ask;
      answer = node_answer_view result.2;
    } }
{
    let Room {
        count,
        packets,
        told,
        again,
        event,
    } = room;
    let (kept, told, again) = divided(&ask, did, count, packets, told, again);
    let entry = LogEntry { stamp, ask, kept };
    (
        entry,
        Receipt {
            node,
            stamp,
            event,
            answer: told,
        },
        again,
    )
}
