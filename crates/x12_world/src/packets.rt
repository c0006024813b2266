//! The packets that are held, by their names.

ghost use Rattle.std.specs.Prelude.{◌≡◌, ◌+◌, ◌<◌, ◌++◌, IfOk, map};
ghost use Rattle.std.specs.Prelude.{option_map, vec_len, vec_capacity};
ghost use Rattle.std.specs.Option.{option_copied};
ghost use Rattle.x12_world.specs.Outcome.{told_packet};
ghost use Rattle.x12_world.specs.Packet.{named, packet_of};
ghost use Rattle.x12_core.specs.View.{name_view, packet_view};
ghost use Rattle.x12_world.specs.View.{held_view, told_view};

use crate::outcome::ToldPacket;
use std::alloc::{AllocError, Global};
use x12_core::{Packet, PacketName};

/// The packets that each event sent, the first event's first.
pub(crate) type Held = Vec<Vec<Packet>>;

/// The packet of this name, if it is held: by the number of its event, and then by its place.
pub(crate) fn find<'a>(held: &'a Held, name: &PacketName) -> Option<&'a Packet>
    ensures { option_map packet_view (option_copied result)
        ≡ packet_of (held_view held.now.items) (name_view name.now) }
{
    if name.event == 0 {
        return None;
    }
    if name.place == 0 {
        return None;
    }
    match held.get(name.event as usize - 1) {
        Some(packets) => packets.get(name.place as usize - 1),
        None => None,
    }
}

/// What is told of the packets of an event. `Err` where memory is missing, or where there are more
/// than can be named.
pub(crate) fn told(
    alloc: Global,
    event: u64,
    packets: &[Packet],
) -> Result<Vec<ToldPacket>, AllocError>
    ensures { IfOk result (λ v. map told_view v.items
        ≡ map told_packet (named event 1 (map packet_view packets.now))) }
{
    let mut told = Vec::with_capacity(alloc, packets.len())?;
    let mut place = 0u32;
    for packet in packets {
        place = place.checked_add(1).ok_or(AllocError)?;
        told.push(ToldPacket {
            name: PacketName { event, place },
            to: packet.to,
            kind: packet.load.kind(),
        })?;
    }
    Ok(told)
}

/// Holds the packets of the next event.
pub(crate) fn hold(held: &mut Held, packets: Vec<Packet>)
    requires { vec_len held.old < vec_capacity held.old }
    ensures held { held_view held.new.items ≡ held_view held.old.items
        ++ named (vec_len held.old + 1) 1 (map packet_view packets.items) }
    ensures len { vec_len held.new ≡ vec_len held.old + 1 }
{
    held.push_reserved(packets);
}
