//! Records of a hub that survive: SQLite tables.
#![tactic(auto)]

mod adopting;
mod committing;
mod creating;
mod decisions;
mod directory;
mod hub_numbers;
mod mailboxes;
mod records;
mod schema;
mod telling;

pub use records::SqliteHubRecords;
