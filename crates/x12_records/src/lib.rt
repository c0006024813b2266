//! Records in SQLite tables: of a hub and of a station, over database files, and of a network.
#![tactic(auto)]

mod migrating;
mod network;
mod opening;

pub use migrating::{migrate_station, migrate_station_file, migrate_station_over};
pub use network::{SqliteWorld, run};
pub use opening::{
    FilesFrom, OpenFault, leave_station, open_hub, open_hub_over, open_station, open_station_file,
    open_station_over,
};
pub use x12_hub_records::SqliteHubRecords;
pub use x12_station_records::{STATION_VERSION, SqliteRecords};
pub use x12_tables::RecordsFault;
