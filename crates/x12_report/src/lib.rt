//! What an audit tells of a submitted transaction set, and the operator's report: a line for each audit.
#![tactic(auto)]

mod audit;
mod reporting;

pub use audit::Audit;
pub use reporting::{is_bad, report};
