//! What one node does where it is asked: a core is a station or a hub, and each step of a network
//! is one step of a core.
#![tactic(auto)]

mod action;
mod ask;
mod fault;
mod hub_ask;
mod node_core;
mod packet;
mod sends;
mod station_ask;
mod submission;

pub use action::Action;
pub use ask::{Ask, AskRef};
pub use fault::{CoreFault, NodeFault};
pub use hub_ask::ask_hub;
pub use node_core::{Answer, Core};
pub use packet::{HUB_NODE, Kind, Load, Packet, PacketName, SECOND_HUB_NODE, Site};
pub use sends::{Sends, deposit};
pub use station_ask::ask_station;
pub use submission::Listed;
