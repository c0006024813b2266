//! What is said of an event that was taken.

use x12_core::{Kind, PacketName};

/// A packet as it is told of: without what it carries.
#[derive(Clone, Copy, PartialEq, Eq)]
pub struct ToldPacket {
    /// Its name.
    pub name: PacketName,
    /// The node that gets it.
    pub to: u16,
    /// What it is.
    pub kind: Kind,
}

/// What became of an event that was taken.
#[derive(Drop)]
pub struct Outcome {
    /// The number of the event, from 1.
    pub event: u64,
    /// The packets that it sent, in their order; none where they were lost.
    pub packets: Vec<ToldPacket>,
    /// Whether memory was missing for its packets: none of them is held, and nobody can deliver them.
    pub lost: bool,
}
