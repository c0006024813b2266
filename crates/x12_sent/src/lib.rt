//! What a sender submitted, beside which acknowledgments are explained: what may be submitted of a
//! file, and what answers close in its sender's ledger.
#![tactic(auto)]

mod closing;
mod sender;
mod sent;
mod submitter;

pub use closing::Meaning;
pub use sender::Sender;
pub use sent::{SentFile, SentSet};
pub use submitter::Refusals;
