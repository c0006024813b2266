//! The wire: stamps, and every packet that was sent, as it was put there.

ghost use Rattle.std.specs.Prelude.{◌≡◌, IfOk, IfSome, IsTrue};
ghost use Rattle.x12_core.specs.View.{name_view};
ghost use Rattle.x12_nodes.specs.Wire.{name_is_above};

use crate::copying::copied_packet;
use crate::fault::CallFault;
use crate::finding::is_same_load;
use crate::naming::name_one;
use std::alloc::{AllocError, Global};
use std::marker::Model;
use std::sync::{Mutex, Wait};
use x12_core::{Ask, Load, Packet, PacketName, SECOND_HUB_NODE};
use x12_envelopes::Party;

/// A packet under its name, whose event is the stamp of the call that sent it.
#[derive(Drop)]
struct Posted {
    name: PacketName,
    packet: Packet,
}

/// What stands behind the wire's lock: the last stamp, and of each node what it sent to each, by rising
/// name.
#[derive(Drop)]
struct Lines {
    stamp: u64,
    second: bool,
    sent: Vec<Vec<Vec<Posted>>>,
}

/// The line of a node: those of the first hub and the stations are in the order of their numbers, and
/// that of the second hub is behind them. `None`: there is no such node, of so many with a second hub.
fn line_of(node: u16, count: usize, second: bool) -> Option<usize> {
    if !second {
        return Some(node as usize);
    }
    if node == SECOND_HUB_NODE {
        return count.checked_sub(1);
    }
    if (node as usize) + 1 >= count {
        return None;
    }
    Some(node as usize)
}

/// What one node sent to another. None: there is no such node.
fn sent_to(lines: &Lines, from: u16, to: u16) -> Option<&Vec<Posted>> {
    let count = lines.sent.len();
    let sent = lines.sent.get(line_of(from, count, lines.second)?)?;
    sent.get(line_of(to, count, lines.second)?)
}

/// The wire between nodes: it gives out the stamps, and keeps each packet that was put on it, so that
/// it can be delivered any number of times.
#[derive(Drop)]
pub struct Wire {
    alloc: Global,
    parties: Vec<Party>,
    second: bool,
    lines: Mutex<Lines>,
}

impl Model for Wire {
    ghost use Rattle.std.specs.Prelude.{List};
    ghost use Rattle.x12_envelopes.specs.declared.party.Party.{Party};

    ghost Value = { List Party };

    ghost view = { λ w. w.parties.items };
}

/// Whether a name is above another one.
fn is_above(name: &PacketName, after: &PacketName) -> bool
    ensures { result ≡ name_is_above (name_view after.now) (name_view name.now) }
{
    after.event < name.event || (after.event == name.event && after.place < name.place)
}

/// Whether such a packet was put on the wire.
fn is_posted(lines: &Lines, name: &PacketName, from: u16, to: u16, load: &Load) -> bool {
    let Some(sent) = sent_to(lines, from, to) else {
        return false;
    };
    let first = sent.partition_point(|posted| is_above(name, &posted.name));
    let Some(posted) = sent.get(first) else {
        return false;
    };
    posted.name == *name && posted.packet.to == to && is_same_load(&posted.packet.load, load)
}

/// The next packet of a link by its name.
fn find_next<'a>(lines: &'a Lines, from: u16, to: u16, after: &PacketName) -> Option<&'a Posted>
    ensures link { IfSome result (λ p. (p.now.packet.from ≡ from) × (p.now.packet.to ≡ to)) }
    ensures above { IfSome result (λ p.
        IsTrue (name_is_above (name_view after.now) (name_view p.now.name))) }
{
    let sent = sent_to(lines, from, to)?;
    let first = sent.partition_point(|posted| !is_above(&posted.name, after));
    let (_, rest) = sent.split_at(first);
    for posted in rest {
        if is_of_link(posted, from, to) && is_above(&posted.name, after) {
            return Some(posted);
        }
    }
    None
}

/// Whether a packet goes over this link.
fn is_of_link(posted: &Posted, from: u16, to: u16) -> bool
    ensures { IsTrue result → (posted.now.packet.from ≡ from) × (posted.now.packet.to ≡ to) }
{
    posted.packet.from == from && posted.packet.to == to
}

/// Puts what a node sent under a stamp to what it sent before, by the nodes that it goes to; what memory
/// is missing for is lost.
fn post(sent: &mut Vec<Vec<Posted>>, second: bool, stamp: u64, packets: Vec<Packet>) {
    let count = sent.len();
    let mut place: u32 = 0;
    for packet in packets {
        place = place.saturating_add(1);
        let name = PacketName {
            event: stamp,
            place,
        };
        let Some(to) = line_of(packet.to, count, second) else {
            drop(packet);
            continue;
        };
        let Some(line) = sent.get_mut(to) else {
            drop(packet);
            continue;
        };
        if let Err(_) = line.push(Posted { name, packet }) {
            return;
        }
    }
}

/// Nothing was sent yet to so many nodes.
fn nothing_sent(alloc: Global, nodes: usize) -> Result<Vec<Vec<Posted>>, AllocError> {
    let mut sent = Vec::with_capacity(alloc, nodes)?;
    for _ in 0..nodes {
        sent.push(Vec::new(alloc))?;
    }
    Ok(sent)
}

impl Wire {
    /// The wire of the nodes with these parties, in the order of their numbers: the last is that of a
    /// second hub, if there is one. `Err` where memory is missing.
    pub fn new(alloc: Global, parties: &[Party], second: bool) -> Result<Wire, AllocError>
        ensures { IfOk result (λ w. w ≡ parties.now) }
    {
        let mut sent = Vec::with_capacity(alloc, parties.len())?;
        for _ in parties {
            sent.push(nothing_sent(alloc, parties.len())?)?;
        }
        let parties = Vec::from_slice(alloc, parties)?;
        let lines = Mutex::new(Lines {
            stamp: 0,
            second,
            sent,
        });
        Ok(Wire {
            alloc,
            parties,
            second,
            lines,
        })
    }

    /// The next packet from one node to another whose name is above this one, if there is one by now:
    /// the packets of a link come by rising name. `Err` where memory for a copy is missing.
    pub fn next<W: Wait>(
        &self,
        rt: &W,
        from: u16,
        to: u16,
        after: &PacketName,
    ) -> Result<Option<(PacketName, Packet)>, AllocError>
        ensures link { IfOk result (λ o. IfSome o (λ p. (p.1.from ≡ from) × (p.1.to ≡ to))) }
        ensures above { IfOk result (λ o. IfSome o (λ p.
            IsTrue (name_is_above (name_view after.now) (name_view p.0)))) }
    {
        let lines = self.lines.lock(rt);
        match find_next(&lines, from, to, after) {
            Some(posted) => {
                let packet = copied_packet(self.alloc, &posted.packet)?;
                Ok(Some((posted.name, packet)))
            }
            None => Ok(None),
        }
    }

    /// A new stamp. L1.
    pub(crate) fn stamp<W: Wait>(&self, rt: &W) -> Result<u64, CallFault> {
        let mut lines = self.lines.lock(rt);
        if lines.stamp >= u64::MAX - 1 {
            return Err(CallFault::StampsExhausted);
        }
        lines.stamp += 1;
        Ok(lines.stamp)
    }

    /// Whether there is a node of this number.
    fn has_node(&self, node: u16) -> bool {
        match line_of(node, self.parties.len(), self.second) {
            Some(line) => line < self.parties.len(),
            None => false,
        }
    }

    /// Whether a hub is asked so for a mailbox that a node has.
    pub(crate) fn has_mailbox(&self, ask: &Ask) -> bool {
        match ask.node_meant() {
            Some(node) => self.has_node(node),
            None => true,
        }
    }

    /// Admits what comes to a node: a packet that was put on the wire for it, and bytes from outside
    /// that name no node. L5 and L6.
    pub(crate) fn admit<W: Wait>(&self, rt: &W, to: u16, ask: &Ask) -> Result<(), CallFault> {
        match ask {
            Ask::Deliver {
                packet,
                from,
                load,
                ..
            } => {
                let lines = self.lines.lock(rt);
                if is_posted(&lines, packet, *from, to, load) {
                    return Ok(());
                }
                Err(CallFault::NoSuchPacket)
            }
            Ask::Outside { bytes, .. } => {
                if name_one(&self.parties, bytes) {
                    return Err(CallFault::SpokenFor);
                }
                Ok(())
            }
            _ => Ok(()),
        }
    }

    /// Puts what a node sent under a stamp on the wire.
    pub(crate) fn put<W: Wait>(&self, rt: &W, from: u16, stamp: u64, packets: Vec<Packet>) {
        let mut lines = self.lines.lock(rt);
        let Some(line) = line_of(from, lines.sent.len(), self.second) else {
            return;
        };
        match lines.sent.get_mut(line) {
            Some(sent) => post(sent, self.second, stamp, packets),
            None => {}
        }
    }
}
