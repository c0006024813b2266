//! Records in databases, and databases in files.

ghost use Rattle.std.specs.Prelude.{IsTrue};
ghost use Rattle.x12_envelopes.specs.Party.{is_plain_party};

use clap::ArgMatches;
use sqlite::{Alter, Connection, Error, ErrorCode, Wary};
use std::alloc::{AllocError, Global};
use std::process::ExitCode;
use x12_envelopes::Party;
use x12_hub::Hub;
use x12_mailbox::{Command, Migration, OpensRecords, Stop, status_of};
use x12_records::{
    FilesFrom, OpenFault, RecordsFault, STATION_VERSION, SqliteHubRecords, SqliteRecords,
    migrate_station_file, open_hub, open_station_file,
};
use x12_station::Station;

/// Who opens databases, and nodes over what they left there.
trait Databases {
    /// Where a database is.
    type Store: Alter + Drop;

    /// The database at a path, which is made where there is none.
    fn database(&self, rt: &HostRuntime, path: &str) -> Result<Connection<Self::Store>, OpenFault>;

    /// The station of this party at this hub, which may be connected to another one.
    fn station(
        &self,
        rt: &HostRuntime,
        path: &str,
        me: Party,
        hub: Party,
        other: Option<Party>,
    ) -> Result<Station<SqliteRecords<Self::Store>>, OpenFault>
        requires { IsTrue (is_plain_party me) };

    /// Brings the records of the station of this party at this hub to the newest version; which version they
    /// were of.
    fn migrate(
        &self,
        rt: &HostRuntime,
        path: &str,
        me: Party,
        hub: Party,
        other: Option<Party>,
    ) -> Result<u32, OpenFault>
        requires { IsTrue (is_plain_party me) };

    /// The hub of this party.
    fn hub(
        &self,
        rt: &HostRuntime,
        path: &str,
        me: Party,
    ) -> Result<Hub<SqliteHubRecords<Self::Store>>, OpenFault>
        requires { IsTrue (is_plain_party me) };
}

/// Database files, of which nothing is supposed.
#[derive(Drop)]
struct Files;

impl Databases for Files {
    type Store = FilesFrom<Wary>;

    fn database(
        &self,
        rt: &HostRuntime,
        path: &str,
    ) -> Result<Connection<FilesFrom<Wary>>, OpenFault> {
        match Connection::open_from(rt, path, false, Wary) {
            Ok(conn) => Ok(conn),
            Err((error, _)) => Err(OpenFault::Database(error)),
        }
    }

    fn station(
        &self,
        rt: &HostRuntime,
        path: &str,
        me: Party,
        hub: Party,
        other: Option<Party>,
    ) -> Result<Station<SqliteRecords<FilesFrom<Wary>>>, OpenFault> {
        open_station_file(rt, path, me, hub, other)
    }

    fn migrate(
        &self,
        rt: &HostRuntime,
        path: &str,
        me: Party,
        hub: Party,
        other: Option<Party>,
    ) -> Result<u32, OpenFault> {
        migrate_station_file(rt, path, me, hub, other)
    }

    fn hub(
        &self,
        rt: &HostRuntime,
        path: &str,
        me: Party,
    ) -> Result<Hub<SqliteHubRecords<FilesFrom<Wary>>>, OpenFault> {
        open_hub(rt, path, me, Wary)
    }
}

/// Records in databases.
#[derive(Drop)]
struct InDatabases<'d, D> {
    databases: &'d D,
}

/// Whether records were made, by the fault where they weren't: some that are there already stay.
fn made(fault: RecordsFault) -> Result<bool, OpenFault> {
    match fault {
        RecordsFault::NotOurs => Ok(false),
        _ => Err(OpenFault::Records(fault)),
    }
}

impl<D: Databases> OpensRecords for InDatabases<'_, D> {
    type Station = SqliteRecords<D::Store>;

    type Hub = SqliteHubRecords<D::Store>;

    type Fault = OpenFault;

    fn station(
        &self,
        rt: &HostRuntime,
        path: &str,
        me: Party,
        hub: Party,
        other: Option<Party>,
    ) -> Result<Station<SqliteRecords<D::Store>>, OpenFault> {
        self.databases.station(rt, path, me, hub, other)
    }

    fn hub(
        &self,
        rt: &HostRuntime,
        path: &str,
        me: Party,
    ) -> Result<Hub<SqliteHubRecords<D::Store>>, OpenFault> {
        self.databases.hub(rt, path, me)
    }

    fn migrate_station(
        &self,
        rt: &HostRuntime,
        path: &str,
        me: Party,
        hub: Party,
        other: Option<Party>,
    ) -> Result<Migration, OpenFault> {
        let was = self.databases.migrate(rt, path, me, hub, other)?;
        Ok(Migration {
            was,
            is: STATION_VERSION,
        })
    }

    fn make_station(
        &self,
        rt: &HostRuntime,
        path: &str,
        me: Party,
        hub: Party,
        other: Option<Party>,
    ) -> Result<bool, OpenFault> {
        let conn = self.databases.database(rt, path)?;
        match SqliteRecords::create(conn, me, hub, other) {
            Ok(_) => Ok(true),
            Err((_, fault)) => made(fault),
        }
    }

    fn make_hub(&self, rt: &HostRuntime, path: &str, me: Party) -> Result<bool, OpenFault> {
        let conn = self.databases.database(rt, path)?;
        match SqliteHubRecords::create(conn, me) {
            Ok(_) => Ok(true),
            Err((_, fault)) => made(fault),
        }
    }

    fn are_in_use(&self, fault: &OpenFault) -> bool {
        matches!(
            fault,
            OpenFault::Database(Error::SqliteFailure(ErrorCode::DatabaseBusy))
        )
    }

    fn why(&self, alloc: Global, fault: OpenFault) -> Result<String, AllocError> {
        format!(in alloc; "{fault}")
    }
}

/// Runs a command over records in databases.
fn run_over<D: Databases>(
    rt: &HostRuntime,
    databases: &D,
    command: Command,
    found: &ArgMatches<'_>,
) -> Result<u8, Stop> {
    command.run(rt, &InDatabases { databases }, found)
}

/// Runs a command of mailboxes over records in database files, and gives its exit status.
pub fn run(rt: &HostRuntime, command: Command, found: &ArgMatches<'_>) -> ExitCode {
    match run_over(rt, &Files, command, found) {
        Ok(status) => ExitCode::from(status),
        Err(stop) => ExitCode::from(status_of(rt, stop)),
    }
}
