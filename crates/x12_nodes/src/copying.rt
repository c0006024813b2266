//! Copies of asks and of packets.

ghost use Rattle.std.specs.Prelude.{◌≡◌, IfOk, map};
ghost use Rattle.x12_core.specs.View.{ask_view, load_view, packet_view};

use crate::actions::copied_action;
use std::alloc::{AllocError, Global};
use x12_core::{Ask, Load, Packet};

/// A copy of what a packet carries.
fn copied_load(alloc: Global, load: &Load) -> Result<Load, AllocError>
    ensures { IfOk result (λ l. load_view l ≡ load_view load.now) }
{
    match load {
        Load::Deposit(sent) => Ok(Load::Deposit(sent.copied(alloc)?)),
        Load::Item(item, bytes) => Ok(Load::Item(*item, Vec::from_slice(alloc, bytes)?)),
        Load::Refusal(bytes) => Ok(Load::Refusal(Vec::from_slice(alloc, bytes)?)),
        Load::Taken(item) => Ok(Load::Taken(*item)),
    }
}

/// A copy of a packet.
pub(crate) fn copied_packet(alloc: Global, packet: &Packet) -> Result<Packet, AllocError>
    ensures { IfOk result (λ p. packet_view p ≡ packet_view packet.now) }
{
    Ok(Packet {
        from: packet.from,
        to: packet.to,
        load: copied_load(alloc, &packet.load)?,
    })
}

/// Copies of packets.
pub(crate) fn copied_packets(alloc: Global, packets: &[Packet]) -> Result<Vec<Packet>, AllocError>
    ensures { IfOk result (λ v. map packet_view v.items ≡ map packet_view packets.now) }
{
    let mut copies = Vec::with_capacity(alloc, packets.len())?;
    for packet in packets {
        copies.push(copied_packet(alloc, packet)?)?;
    }
    Ok(copies)
}

/// A copy of what is asked.
pub(crate) fn copied_ask(alloc: Global, ask: &Ask) -> Result<Ask, AllocError>
    ensures { IfOk result (λ a. ask_view a ≡ ask_view ask.now) }
{
    Ok(match ask {
        Ask::Do(action) => Ask::Do(copied_action(alloc, action)?),
        Ask::Deliver {
            packet,
            from,
            load,
            at,
        } => Ask::Deliver {
            packet: *packet,
            from: *from,
            load: copied_load(alloc, load)?,
            at: *at,
        },
        Ask::Outside { bytes, at } => Ask::Outside {
            bytes: Vec::from_slice(alloc, bytes)?,
            at: *at,
        },
        Ask::Fate { key } => Ask::Fate { key: *key },
    })
}
