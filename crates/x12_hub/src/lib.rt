//! The core of a mailbox hub: it decides once on distinct bytes, by the directory of that moment, and
//! keeps the decision for good.
#![tactic(auto)]

mod cached;
mod decision;
mod deposit;
mod directory;
mod enrolment;
mod failing;
mod fault;
mod hub;
mod laws;
mod mailbox;
mod memory;
mod plan;
mod records;
mod writing;

pub use decision::Decision;
pub use failing::Failing;
pub use fault::HubFault;
pub use hub::Hub;
pub use laws::{a_hub_decides_once, a_hub_refuses_by_its_table};
pub use memory::MemoryHubRecords;
pub use plan::{HubChange, HubCommitted, HubPlan, HubPlanView};
pub use records::{HubLoaded, HubRecords, HubStoreFault};
