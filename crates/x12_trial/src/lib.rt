//! Trial networks: stations that order of each other over links that lose, double and hold packets,
//! all at once, and the report of what everybody holds at the end.
#![tactic(auto)]

mod ending;
mod fault;
mod founder;
mod founding;
mod jobs;
mod pace;
mod plan;
mod trial;
mod watching;
mod words;

pub use ending::{audits_of, end_parts};
pub use fault::TrialFault;
pub use founder::{Founder, InMemory};
pub use founding::{found, parties, sites};
pub use jobs::jobs_of_nodes;
pub use plan::TrialPlan;
pub use trial::{TrialStatus, moment, run_trial};
pub use watching::{Standing, Watch};
pub use words::{PlanFault, PlanWords, read_plan};
