//! A line of a script, as it is read.

use crate::script_action::ActionLine;
use crate::script_name::{Member, Name};
use x12_envelopes::Moment;
use x12_world::PacketName;

/// A line of a script. Nodes are named by their parties.
#[derive(Clone, Copy)]
pub(crate) enum Line<'a> {
    /// The moment of later events.
    Clock(Moment),
    /// There is a second hub.
    SecondHub,
    /// The next node is this station.
    Station(Member),
    /// Something happens.
    Event(EventLine<'a>),
    /// What does a packet carry?
    Show(PacketName),
    /// How does a transaction set fare?
    Fate(SetPlace),
    /// What did the evidence of its arrivals do at a station?
    Counts(Name),
    /// How many postings has a station?
    Postings(Name),
    /// How do all transaction sets fare?
    Report,
    /// Nothing but a comment.
    Comment,
}

/// A transaction set by its places.
#[derive(Clone, Copy)]
pub(crate) struct SetPlace {
    /// The station that submitted it.
    pub(crate) node: Name,
    /// The number of its interchange.
    pub(crate) icn: u32,
    /// The place of its group.
    pub(crate) group: u16,
    /// Its place in the group.
    pub(crate) set: u16,
}

/// What happens.
#[derive(Clone, Copy)]
pub(crate) enum EventLine<'a> {
    /// A node does something of itself.
    At(ActionLine<'a>),
    /// A packet comes to its node.
    Deliver(PacketName),
    /// These bytes come to a node from outside.
    Outside { node: Name, bytes: &'a [u8] },
}
