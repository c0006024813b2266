//! One turn of a node over its folders: each file that came is taken, what it causes is put where it
//! is taken on, and only then is the file removed.
#![tactic(auto)]

mod depositor;
mod folder;
mod handed;
mod handing;
mod hub;
mod memory;
mod node;
mod numbering;
mod offering;
mod power;
mod spool;
mod station;
mod submitting;
mod turn;
mod whole;

pub use depositor::Depositor;
pub use folder::Folder;
pub use handed::{Handed, MemoryHandOver};
pub use handing::{HandOver, hand_over};
pub use hub::HubAt;
pub use memory::{Done, MemorySpool, Stored};
pub use node::{Answer, Node, NodeFault, Offer, Reason};
pub use numbering::next_node;
pub use offering::put_offers;
pub use power::{what_is_marked_stands, what_is_put_stands};
pub use spool::{Spool, SpoolFault, Waiting, Word};
pub use station::StationAt;
pub use submitting::{Submitting, submit_turn};
pub use turn::{TurnFault, run_turn};
pub use whole::{Disk, put_whole};
