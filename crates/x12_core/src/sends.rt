//! What a node sends at an event, before memory is found for its packets.

ghost use Rattle.std.specs.Prelude.{◌≡◌, [], ◌∷◌, IfOk, length, map};
ghost use Rattle.std.specs.Arc.{arc_slice_items};
ghost use Rattle.x12_hub.specs.Mailbox.{item_view};
ghost use Rattle.x12_profile.specs.X12.{x12};
ghost use Rattle.x12_station.specs.Outgoing.{outgoing_bytes};
ghost use Rattle.x12_core.specs.Effect.{deposits, items_to, reports_taken};
ghost use Rattle.x12_core.specs.View.{packet_view};
ghost use Rattle.x12_core.specs.Sends.{sends_view};

use crate::packet::{Load, Packet, Site};
use std::alloc::{AllocError, Global};
use std::sync::ArcSlice;
use x12_station::Outgoing;

/// What a node sends at an event.
#[derive(Debug, Drop)]
pub enum Sends {
    /// Nothing.
    Nothing,
    /// A packet.
    One(Packet),
    /// An interchange of this number that the station of this site submitted, for its hub.
    Submitted(Site, u32, ArcSlice<u8>),
    /// Two packets, in this order.
    Two(Packet, Packet),
    /// Interchanges that the station of this site submitted, again, for its hub.
    Deposits(Site, Vec<ArcSlice<u8>>),
    /// Items of the first node, a hub, in the mailbox of the second, for that one.
    Items(u16, u16, Vec<(u32, Vec<u8>)>),
}

/// A station's interchange, for its hub.
pub fn deposit(at: Site, sent: Outgoing) -> Packet
    ensures { map packet_view (result ∷ []) ≡ deposits at (outgoing_bytes sent ∷ []) }
{
    Packet {
        from: at.node,
        to: at.hub,
        load: Load::Deposit(sent),
    }
}

/// An item's report as taken, for the hub that sent it.
pub(crate) fn report(from: u16, to: u16, item: u32) -> Packet
    ensures { packet_view result ≡ reports_taken from to item }
{
    Packet {
        from,
        to,
        load: Load::Taken(item),
    }
}

/// Interchanges that a station submitted, as packets for its hub.
fn deposits(alloc: Global, at: Site, sent: Vec<ArcSlice<u8>>) -> Result<Vec<Packet>, AllocError>
    ensures { IfOk result (λ v.
        map packet_view v.items ≡ deposits at (map arc_slice_items sent.items)) }
{
    let mut packets = Vec::with_capacity(alloc, sent.len())?;
    for bytes in sent {
        packets.push(deposit(at, Outgoing::Shared(bytes)))?;
    }
    Ok(packets)
}

/// Items of a hub, as packets for the node of their mailbox.
fn items(
    alloc: Global,
    hub: u16,
    to: u16,
    sent: Vec<(u32, Vec<u8>)>,
) -> Result<Vec<Packet>, AllocError>
    ensures { IfOk result (λ v.
        map packet_view v.items ≡ items_to x12 hub to (map item_view sent.items)) }
{
    let mut packets = Vec::with_capacity(alloc, sent.len())?;
    for (item, bytes) in sent {
        packets.push(Packet {
            from: hub,
            to,
            load: Load::Item(item, bytes),
        })?;
    }
    Ok(packets)
}

impl Sends {
    /// How many packets it sends.
    pub fn count(&self) -> usize
        ensures { result ≡ length (sends_view self.now) }
    {
        match self {
            Sends::Nothing => 0,
            Sends::One(_) => 1,
            Sends::Submitted(_, _, _) => 1,
            Sends::Two(_, _) => 2,
            Sends::Deposits(_, sent) => sent.len(),
            Sends::Items(_, _, sent) => sent.len(),
        }
    }

    /// Its packets. `Err` where memory is missing.
    pub fn into_packets(self, alloc: Global) -> Result<Vec<Packet>, AllocError>
        ensures { IfOk result (λ v. map packet_view v.items ≡ sends_view self) }
    {
        match self {
            Sends::Nothing => Ok(Vec::new(alloc)),
            Sends::One(packet) => Ok(vec![in alloc; packet]?),
            Sends::Submitted(at, _, bytes) => {
                Ok(vec![in alloc; deposit(at, Outgoing::Shared(bytes))]?)
            }
            Sends::Two(first, second) => Ok(vec![in alloc; first, second]?),
            Sends::Deposits(at, sent) => deposits(alloc, at, sent),
            Sends::Items(hub, to, sent) => items(alloc, hub, to, sent),
        }
    }
}
