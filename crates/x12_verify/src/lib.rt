//! Whether a station's records are what the station that they name wrote: its fates, its postings and
//! its replies are told again from what was submitted and what came, and held against the records.
#![tactic(auto)]

mod again;
mod arrived;
mod comparing;
mod difference;
mod due;
mod entries;
mod fates;
mod posted;
mod telling;
mod verifying;

pub use difference::{Difference, Outcome, Sound};
pub use verifying::verify;
