//! The network of stations and one hub or two: as definitions, with its headline as a law over every run, and
//! as code that runs so.
#![tactic(auto)]

mod acting;
mod admitting;
mod applying;
mod asked;
mod asking;
mod at_hub;
mod at_station;
mod auditing;
mod audits;
mod event;
mod founding;
mod hubs;
mod in_memory;
mod laws;
mod listing;
mod network_audits;
mod outcome;
mod packets;
mod placing;
mod posted;
mod refused;
mod running;
mod submission;
mod world;
pub mod x12;

pub use audits::audit_all;
pub use event::Event;
pub use in_memory::{MemoryWorld, run_in_memory};
pub use laws::{
    decisions, headline, keys, losses, no_conflict, numbers, outsiders, premise, reached,
    refinement, refusals, traffic,
};
pub use outcome::{Outcome, ToldPacket};
pub use refused::Refused;
pub use world::World;
pub use x12_core::{Action, HUB_NODE, Kind, Load, NodeFault, Packet, PacketName, SECOND_HUB_NODE};
