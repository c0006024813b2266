//! Links between the nodes of a network, as threads: each takes the parcels of one way by the names
//! that they have on the wire, loses, doubles and holds some of them by a plan, and puts the others
//! into an inbox, out of which a worker delivers them to its node.
#![tactic(auto)]

mod calm;
mod course;
mod inbox;
mod laws;
mod line;
mod link;
mod net;
mod plan;
mod route;
mod worker;

pub use calm::Looks;
pub use course::Halt;
pub use laws::{longer_lists_go_on, plans_do_as_shown};
pub use link::{Way, Wire};
pub use net::{Endpoint, run_net};
pub use plan::{FaultPlan, Handling};
pub use worker::{Delivery, Progress, Recipient};
