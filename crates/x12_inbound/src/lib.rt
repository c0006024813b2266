//! The duplicate register of a receiver: each interchange that arrived (X12.5), filed once under
//! its sender and number with the reply that was kept, and the postings, which are its accepted
//! transaction sets.
#![tactic(auto)]

mod arrival;
mod filing;
mod laws;
mod order;
mod place;
mod posting;
mod register;
mod sighting;

pub use arrival::{Arrived, Judged, Kept};
pub use filing::{Filed, FiledRow};
pub use laws::what_is_posted_was_accepted;
pub use posting::Posting;
pub use register::Register;
pub use sighting::{Seen, look};
pub use x12_acks::SetKey;
