//! A station and a hub over the records in a database file.

ghost use Rattle.std.specs.Prelude.{◌≡◌, ◌∷◌, IsTrue, IfOk, Ok, option_to_list};
ghost use Rattle.sqlite.specs.Files.{file_state, image_of};
ghost use Rattle.sqlite.specs.Held.{AreDatabases, state};
ghost use Rattle.sqlite.specs.State.{HasCleanDisk, Opens};
ghost use Rattle.sqlite_trees.specs.Tree.{Trees};
ghost use Rattle.sqlite_trees.specs.View.{IsClean};
ghost use Rattle.sqlite_wal.specs.Files.{image_at, outcomes};
ghost use Rattle.sqlite_wal.specs.Reads.{AreClean};
ghost use Rattle.sqlite_wal.specs.Recovery.{Image};
ghost use Rattle.x12_envelopes.specs.Party.{is_plain_party};
ghost use Rattle.x12_hub.specs.Stored.{hub_of};
ghost use Rattle.x12_station.specs.Opened.{opened};
ghost use Rattle.x12_hub_records.specs.HubContent.{hub_content_of};
ghost use Rattle.x12_station_records.specs.StationContent.{content_of};
ghost use Rattle.x12_records.specs.Left.{IsFoundIn, IsStations, AreLeft, LeavesStation};

use sqlite::{Alter, Connection, Files, Options};
use sqlite_disk::{Disk, Start, Wary};
use sqlite_std_file::FileFrom;
use sqlite_store::FileStore;
use std::alloc::Global;
use thiserror::Error;
use x12_envelopes::Party;
use x12_hub::{Hub, HubFault};
use x12_hub_records::SqliteHubRecords;
use x12_station::{Records, Station, StationFault};
use x12_station_records::SqliteRecords;
use x12_tables::RecordsFault;

/// A database in files that held what `S` names.
pub type FilesFrom<S> = FileStore<FileFrom<S>>;

/// Why a station or a hub isn't opened over a database file.
#[derive(Clone, Copy, Debug, PartialEq, Eq, Error)]
pub enum OpenFault {
    /// The database isn't opened, for this reason: `DatabaseBusy` where another program has it open.
    #[error("the database is not opened: {0:?}")]
    Database(sqlite::Error),
    /// The records in it aren't taken over.
    #[error("{0}")]
    Records(RecordsFault),
    /// The station doesn't load them: S13 or S14.
    #[error("{0}")]
    Station(StationFault),
    /// The hub doesn't load them: B3 or B4.
    #[error("{0}")]
    Hub(HubFault),
}

/// Opens a station over the records in a database, which the station wrote that they name.
fn station_over<S: Alter + Drop>(
    alloc: Global,
    conn: Connection<S>,
    me: Party,
    hub: Party,
    other: Option<Party>,
) -> Result<Station<SqliteRecords<S>>, OpenFault>
    requires plain { IsTrue (is_plain_party me) }
    requires live { HasCleanDisk (state S.Store conn) → Opens (state S.Store conn) }
    requires left { HasCleanDisk (state S.Store conn) →
        IsStations (state S.Store conn).committed.trees }
    ensures opened { IfOk result (λ s. IsTrue s.answers → HasCleanDisk (state S.Store conn)
        × (s.state ≡ opened me (hub ∷ option_to_list other)
        (content_of (state S.Store conn).committed.trees))) }
{
    let records = match SqliteRecords::adopt(conn, me, hub, other) {
        Ok(records) => records,
        Err((_, fault)) => return Err(OpenFault::Records(fault)),
    };
    match Station::open(alloc, me, hub, other, records) {
        Ok(station) => Ok(station),
        Err((_, fault)) => Err(OpenFault::Station(fault)),
    }
}

/// Opens a station over the records in the database that was found in files, if it was opened.
fn station_in<D: Disk + Drop, L: Drop>(
    alloc: Global,
    found: Result<Connection<FileStore<D>>, (sqlite::Error, L)>,
    me: Party,
    hub: Party,
    other: Option<Party>,
) -> Result<Station<SqliteRecords<FileStore<D>>>, OpenFault>
    requires plain { IsTrue (is_plain_party me) }
    requires live { IfOk found (λ c. HasCleanDisk (file_state c) → Opens (file_state c)) }
    requires left { IfOk found (λ c. HasCleanDisk (file_state c) →
        IsStations (file_state c).committed.trees) }
    ensures opened { IfOk result (λ s. IsTrue s.answers → (conn : _) × (found ≡ Ok conn)
        × HasCleanDisk (file_state conn) × (s.state ≡ opened me (hub ∷ option_to_list other)
        (content_of (file_state conn).committed.trees))) }
{
    match found {
        Ok(conn) => station_over(alloc, conn, me, hub, other),
        Err((error, _)) => Err(OpenFault::Database(error)),
    }
}

/// Opens the station of this party at this hub, which may be connected to another one, over the
/// database at this path and the log beside it, which the station wrote that the database names. A
/// missing file is made, and refused as one without tables.
pub fn open_station<S: Start>(
    rt: &HostRuntime,
    path: &str,
    me: Party,
    hub: Party,
    other: Option<Party>,
    start: S,
) -> Result<Station<SqliteRecords<FilesFrom<S>>>, OpenFault>
    requires plain { IsTrue (is_plain_party me) }
    requires left { AreLeft (image_at S.Start) }
    ensures opened { IfOk result (λ s. IsTrue s.answers → (db : Trees)
        × IsFoundIn (image_at S.Start) db
        × (s.state ≡ opened me (hub ∷ option_to_list other) (content_of db))) }
{
    let found = Connection::open_from(rt, path, false, start);
    station_in(rt.alloc(), found, me, hub, other)
}

/// The same of what the files hold: a program's own call, which owes nothing of them. At the type `Wary`
/// they held nothing.
pub fn open_station_file(
    rt: &HostRuntime,
    path: &str,
    me: Party,
    hub: Party,
    other: Option<Party>,
) -> Result<Station<SqliteRecords<FilesFrom<Wary>>>, OpenFault>
    requires { IsTrue (is_plain_party me) }
    ensures opened { IfOk result (λ s. IsTrue s.answers → (db : Trees)
        × IsFoundIn (image_at ⟦<Wary as Start>⟧) db
        × (s.state ≡ opened me (hub ∷ option_to_list other) (content_of db))) }
{
    open_station(rt, path, me, hub, other, Wary)
}

/// Opens the station of this party at this hub, which may be connected to another one, over a log
/// and its database file that a program holds, as one in memory that is to stop; with so much kept
/// in memory, and a log of that length.
pub fn open_station_over<D: Disk + Drop>(
    alloc: Global,
    files: Files<D>,
    options: Options,
    me: Party,
    hub: Party,
    other: Option<Party>,
) -> Result<Station<SqliteRecords<FileStore<D>>>, OpenFault>
    requires plain { IsTrue (is_plain_party me) }
    requires log { IsTrue (D.Disk.is_usable files.log) }
    requires db { IsTrue (D.Disk.is_usable files.db) }
    requires left { AreClean D.Disk files.log files.db → AreLeft (image_of D.Disk files) }
    ensures opened { IfOk result (λ s. IsTrue s.answers → (db : Trees)
        × IsFoundIn (image_of D.Disk files) db
        × (s.state ≡ opened me (hub ∷ option_to_list other) (content_of db))) }
{
    let found = Connection::open_files(alloc, files, options);
    station_in(alloc, found, me, hub, other)
}

/// Ends a station, and gives back the store of its database: whatever is recovered of it, the station
/// that its records name wrote.
fn end_station<S: Alter + Drop>(station: Station<SqliteRecords<S>>) -> S
    ensures numbered { IsClean (S.Store.view result) → IsTrue (S.Store.view result).is_numbered }
    ensures sound { IsClean (S.Store.view result) → AreDatabases (S.Store.recovers result) }
    ensures left { LeavesStation S.Store result }
{
    station.close().into_connection().into_store()
}

/// Ends a station, and gives its log and database file back as they stand: over whatever a stop leaves
/// of them, at once or before all is synced, its station may be opened.
pub fn leave_station<D: Disk + Drop>(station: Station<SqliteRecords<FileStore<D>>>) -> Files<D>
    ensures left { AreClean D.Disk result.log result.db → (image : Image) →
        outcomes D.Disk result.log result.db image → AreLeft image }
{
    end_station(station).close()
}

/// Opens a hub over the records in a database.
fn hub_over<S: Alter + Drop>(
    alloc: Global,
    conn: Connection<S>,
    me: Party,
) -> Result<Hub<SqliteHubRecords<S>>, OpenFault>
    requires plain { IsTrue (is_plain_party me) }
    requires live { HasCleanDisk (state S.Store conn) → Opens (state S.Store conn) }
    ensures opened { IfOk result (λ h. IsTrue h.answers → HasCleanDisk (state S.Store conn)
        × (h.hub ≡ hub_of me (hub_content_of (state S.Store conn).committed.trees))) }
{
    let records = match SqliteHubRecords::adopt(conn, me) {
        Ok(records) => records,
        Err((_, fault)) => return Err(OpenFault::Records(fault)),
    };
    match Hub::open(alloc, me, records) {
        Ok(hub) => Ok(hub),
        Err((_, fault)) => Err(OpenFault::Hub(fault)),
    }
}

/// Opens a hub over the records in the database that was found in files, if it was opened.
fn hub_in<D: Disk + Drop, L: Drop>(
    alloc: Global,
    found: Result<Connection<FileStore<D>>, (sqlite::Error, L)>,
    me: Party,
) -> Result<Hub<SqliteHubRecords<FileStore<D>>>, OpenFault>
    requires plain { IsTrue (is_plain_party me) }
    requires live { IfOk found (λ c. HasCleanDisk (file_state c) → Opens (file_state c)) }
    ensures opened { IfOk result (λ h. IsTrue h.answers → (conn : _) × (found ≡ Ok conn)
        × HasCleanDisk (file_state conn)
        × (h.hub ≡ hub_of me (hub_content_of (file_state conn).committed.trees))) }
{
    match found {
        Ok(conn) => hub_over(alloc, conn, me),
        Err((error, _)) => Err(OpenFault::Database(error)),
    }
}

/// Opens the hub of this party over the database at this path and the log beside it. What is in the
/// files is tested as a whole, so nothing is supposed of it. A missing file is made, and refused as one
/// without tables.
pub fn open_hub<S: Start>(
    rt: &HostRuntime,
    path: &str,
    me: Party,
    start: S,
) -> Result<Hub<SqliteHubRecords<FilesFrom<S>>>, OpenFault>
    requires plain { IsTrue (is_plain_party me) }
    ensures opened { IfOk result (λ h. IsTrue h.answers → (db : Trees)
        × IsFoundIn (image_at S.Start) db × (h.hub ≡ hub_of me (hub_content_of db))) }
{
    let found = Connection::open_from(rt, path, false, start);
    hub_in(rt.alloc(), found, me)
}

/// Opens the hub of this party over a log and its database file that a program holds, as one in memory
/// that is to stop; with so much kept in memory, and a log of that length. What they hold is tested as
/// a whole, so nothing is supposed of it.
pub fn open_hub_over<D: Disk + Drop>(
    alloc: Global,
    files: Files<D>,
    options: Options,
    me: Party,
) -> Result<Hub<SqliteHubRecords<FileStore<D>>>, OpenFault>
    requires plain { IsTrue (is_plain_party me) }
    requires log { IsTrue (D.Disk.is_usable files.log) }
    requires db { IsTrue (D.Disk.is_usable files.db) }
    ensures opened { IfOk result (λ h. IsTrue h.answers → (db : Trees)
        × IsFoundIn (image_of D.Disk files) db × (h.hub ≡ hub_of me (hub_content_of db))) }
{
    let found = Connection::open_files(alloc, files, options);
    hub_in(alloc, found, me)
}
