//! Records of a station that survive: SQLite tables.
#![tactic(auto)]

mod schema;
mod station_adopting;
mod station_agreements;
mod station_committing;
mod station_creating;
mod station_groups;
mod station_inbound;
mod station_loading;
mod station_migrating;
mod station_numbers;
mod station_outbound;
mod station_outset;
mod station_owner;
mod station_postings;
mod station_records;
mod telling;
mod values;

pub use station_numbers::STATION_VERSION;
pub use station_records::SqliteRecords;
