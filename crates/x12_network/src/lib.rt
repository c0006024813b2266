//! A network that runs with threads: one hub or two and their stations, each called by a worker of its
//! own, and links between them that lose, double and hold packets by a plan.
#![tactic(auto)]

mod caller;
mod fault;
mod line;
mod network;
mod patience;
mod senders;
mod tally;

pub use fault::NetFault;
pub use network::{Network, RunPlan, run_network};
pub use tally::Tally;
