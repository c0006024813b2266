//! What a node answers, what its caller has of a call, and what the node's log keeps of it.

use x12_core::{Ask, Kind, Packet};
use x12_outbound::Fate;

/// What a node answers where it took a call.
#[derive(Debug, Drop)]
pub enum Answer {
    /// This happened.
    Sent {
        /// The interchange control number (ISA13) of what was submitted; `None` of any other event.
        icn: Option<u32>,
        /// Of each packet that it sent, by its place, the node that it goes to, and its kind.
        packets: Vec<(u16, Kind)>,
    },
    /// The transaction set fares so; `None` of one that this station never submitted.
    Fate(Option<Fate>),
}

/// A call that a node took, as its caller has it.
#[derive(Drop)]
pub struct Receipt {
    /// The node: 0 is the hub, 1 to 16 are the stations.
    pub node: u16,
    /// The stamp of the call: 1 to 18446744073709551614.
    pub stamp: u64,
    /// What was asked.
    pub event: Ask,
    /// What was answered.
    pub answer: Answer,
}

/// What the log keeps of an answer.
#[derive(Debug, Drop)]
pub(crate) enum Kept {
    /// This happened: the number of what was submitted, and the packets.
    Sent {
        icn: Option<u32>,
        packets: Vec<Packet>,
    },
    /// A fate was told.
    Fate(Option<Fate>),
}

/// A call that a node took, as its log keeps it.
#[derive(Drop)]
pub(crate) struct LogEntry {
    pub(crate) stamp: u64,
    pub(crate) ask: Ask,
    pub(crate) kept: Kept,
}
