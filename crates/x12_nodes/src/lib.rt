//! Nodes of the network, each behind a lock, and the logs that they keep: merged by their stamps, the
//! logs are one run of the network.
#![tactic(auto)]

mod actions;
mod asking;
mod cell;
mod cells;
mod checking;
mod comparing;
mod copying;
mod fault;
mod finding;
mod founding;
mod gate;
mod law;
mod log;
mod looking;
mod merging;
mod naming;
mod node;
mod opening;
mod pass;
mod receiving;
mod settlement;
mod settling;
mod telling;
mod unlocking;
mod wire;
mod writing;

pub use cell::NodeCell;
pub use fault::{CallFault, CellFault};
pub use gate::{Gate, GateCall, GateFault};
pub use law::{merge_is_run, submitted_fate_is_told};
pub use log::{Answer, Receipt};
pub use node::Node;
pub use pass::Pass;
pub use settlement::{Parts, Settlement, settle};
pub use settling::{Check, SettleFault, check_logs, check_network};
pub use unlocking::Unlocked;
pub use wire::Wire;
