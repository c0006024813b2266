//! What a station may submit, and its outbound ledger: its submitted interchanges (X12.5), the fate
//! of each of their transaction sets as acknowledgments tell it, and the schedule of sendings.
#![tactic(auto)]

mod entry;
mod evidence;
mod fate;
mod finding;
mod group;
mod hubs;
mod laws;
mod ledger;
mod matches;
mod open_set;
mod planning;
mod row;
mod schedule;
mod settling;
mod statement;
mod submitting;

pub use entry::{Entry, EntryGroup, EntrySet};
pub use evidence::{Counts, Evidence};
pub use fate::Fate;
pub use group::last_number;
pub use hubs::Hubs;
pub use laws::{counts_add_up, the_first_evidence_settles};
pub use ledger::Ledger;
pub use open_set::{ClosedSet, OpenSet};
pub use row::{group_at, set_at};
pub use settling::Settling;
pub use submitting::{SubmitFault, Submittable};
pub use x12_acks::SetKey;
