//! What can happen in a network.

use x12_core::{Action, PacketName};
use x12_envelopes::Moment;

/// What happens, and at which node: 0 and 17 are hubs, 1 to 16 are stations. What writes carries its
/// moment.
#[derive(Drop)]
pub enum Event {
    /// A node does something of itself.
    At {
        /// The node.
        node: u16,
        /// What it does.
        action: Action,
    },
    /// A packet comes to its node, for the first time or again.
    Deliver {
        /// The packet.
        packet: PacketName,
        /// When.
        at: Moment,
    },
    /// Bytes come from outside the network.
    Outside {
        /// The node that they come to.
        node: u16,
        /// The bytes.
        bytes: Vec<u8>,
        /// When.
        at: Moment,
    },
}
