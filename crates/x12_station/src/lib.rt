//! The core of a station: what it submits is never forgotten; each arrival is judged once, posted
//! once, and answered the same way for good.
#![tactic(auto)]

mod agreeing;
mod answering;
mod arrivals;
mod arriving;
mod asking;
mod cached;
mod closed;
mod entering;
mod failing;
mod fault;
mod filing;
mod finding;
mod heading;
mod hearing;
mod history;
mod laws;
mod loading;
mod look_up;
mod memory;
mod noting;
mod older;
mod opening;
mod ordered;
mod ordering;
mod orders;
mod outgoing;
mod plan;
mod planning;
mod prepared;
mod records;
mod replying;
mod station;
mod submissions;
mod submitted;
mod submitting;
mod submitting_orders;
mod ticking;
mod writing;

pub use arriving::{Arrival, ArrivalKind};
pub use failing::Failing;
pub use fault::StationFault;
pub use laws::tables_name_the_definitions_rows;
pub use look_up::has_group;
pub use memory::MemoryRecords;
pub use ordering::Body;
pub use outgoing::Outgoing;
pub use plan::{Change, Committed, PlanView, Planned};
pub use records::{Item, Loaded, Owner, Records, StoreFault};
pub use station::Station;
pub use submitting::Sent;
