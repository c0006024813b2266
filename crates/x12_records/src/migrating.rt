//! A station's records of an older version, brought to the newest in a database file.

ghost use Rattle.std.specs.Prelude.{◌≡◌, ◌∷◌, IsTrue, IfOk, Ok, option_to_list};
ghost use Rattle.sqlite.specs.Files.{file_state, image_of};
ghost use Rattle.sqlite.specs.Held.{state};
ghost use Rattle.sqlite.specs.State.{HasCleanDisk, Opens};
ghost use Rattle.sqlite_trees.specs.Tree.{Trees};
ghost use Rattle.sqlite_wal.specs.Files.{image_at};
ghost use Rattle.sqlite_wal.specs.Reads.{AreClean};
ghost use Rattle.x12_envelopes.specs.Party.{is_plain_party};
ghost use Rattle.x12_station.specs.Opened.{opened};
ghost use Rattle.x12_station_records.specs.StationContent.{content_of};
ghost use Rattle.x12_records.specs.Left.{IsFoundIn, IsStations, AreLeft};

use crate::opening::{FilesFrom, OpenFault};
use sqlite::{Alter, Connection, Files, Options};
use sqlite_disk::{Disk, Start, Wary};
use sqlite_store::FileStore;
use std::alloc::Global;
use x12_envelopes::Party;
use x12_station::Station;
use x12_station_records::SqliteRecords;

/// Brings the records in a database to the newest version, which the station wrote that they name, and
/// opens it over them; it, and which version they were of.
fn migrated_over<S: Alter + Drop>(
    alloc: Global,
    conn: Connection<S>,
    me: Party,
    hub: Party,
    other: Option<Party>,
) -> Result<(Station<SqliteRecords<S>>, u32), OpenFault>
    requires plain { IsTrue (is_plain_party me) }
    requires live { HasCleanDisk (state S.Store conn) → Opens (state S.Store conn) }
    requires left { HasCleanDisk (state S.Store conn) →
        IsStations (state S.Store conn).committed.trees }
    ensures opened { IfOk result (λ x. IsTrue x.0.answers → HasCleanDisk (state S.Store conn)
        × (x.0.state ≡ opened me (hub ∷ option_to_list other)
        (content_of (state S.Store conn).committed.trees))) }
{
    let (records, was) = match SqliteRecords::migrate(conn, me, hub, other) {
        Ok((records, was)) => (records, was),
        Err((_, fault)) => return Err(OpenFault::Records(fault)),
    };
    match Station::open(alloc, me, hub, other, records) {
        Ok(station) => Ok((station, was)),
        Err((_, fault)) => Err(OpenFault::Station(fault)),
    }
}

/// The same in the database that was found in files, if it was opened.
fn migrated_in<D: Disk + Drop, L: Drop>(
    alloc: Global,
    found: Result<Connection<FileStore<D>>, (sqlite::Error, L)>,
    me: Party,
    hub: Party,
    other: Option<Party>,
) -> Result<(Station<SqliteRecords<FileStore<D>>>, u32), OpenFault>
    requires plain { IsTrue (is_plain_party me) }
    requires live { IfOk found (λ c. HasCleanDisk (file_state c) → Opens (file_state c)) }
    requires left { IfOk found (λ c. HasCleanDisk (file_state c) →
        IsStations (file_state c).committed.trees) }
    ensures opened { IfOk result (λ x. IsTrue x.0.answers → (conn : _) × (found ≡ Ok conn)
        × HasCleanDisk (file_state conn) × (x.0.state ≡ opened me (hub ∷ option_to_list other)
        (content_of (file_state conn).committed.trees))) }
{
    match found {
        Ok(conn) => migrated_over(alloc, conn, me, hub, other),
        Err((error, _)) => Err(OpenFault::Database(error)),
    }
}

/// Opens a station as `open_station` does, over records of any version up to the newest: those of an older
/// one are brought to it. They stand for what they stood for. Answers which version they were of: where
/// that was the newest, nothing is written. What `leave_station` gives back then, a station may be opened
/// over.
///
/// Copy both files first: the program of the older version refuses what is left.
pub fn migrate_station<S: Start>(
    rt: &HostRuntime,
    path: &str,
    me: Party,
    hub: Party,
    other: Option<Party>,
    start: S,
) -> Result<(Station<SqliteRecords<FilesFrom<S>>>, u32), OpenFault>
    requires plain { IsTrue (is_plain_party me) }
    requires left { AreLeft (image_at S.Start) }
    ensures opened { IfOk result (λ x. IsTrue x.0.answers → (db : Trees)
        × IsFoundIn (image_at S.Start) db
        × (x.0.state ≡ opened me (hub ∷ option_to_list other) (content_of db))) }
{
    let found = Connection::open_from(rt, path, false, start);
    migrated_in(rt.alloc(), found, me, hub, other)
}

/// Brings the records in a file to the newest version, and leaves them; which version they were of. It is a
/// program's own call, which owes nothing of what the files hold.
pub fn migrate_station_file(
    rt: &HostRuntime,
    path: &str,
    me: Party,
    hub: Party,
    other: Option<Party>,
) -> Result<u32, OpenFault>
    requires { IsTrue (is_plain_party me) }
{
    let (station, was) = migrate_station(rt, path, me, hub, other, Wary)?;
    drop(station.close());
    Ok(was)
}

/// Opens a station as `open_station_over` does, over records of any version up to the newest, as
/// `migrate_station` does.
pub fn migrate_station_over<D: Disk + Drop>(
    alloc: Global,
    files: Files<D>,
    options: Options,
    me: Party,
    hub: Party,
    other: Option<Party>,
) -> Result<(Station<SqliteRecords<FileStore<D>>>, u32), OpenFault>
    requires plain { IsTrue (is_plain_party me) }
    requires log { IsTrue (D.Disk.is_usable files.log) }
    requires db { IsTrue (D.Disk.is_usable files.db) }
    requires left { AreClean D.Disk files.log files.db → AreLeft (image_of D.Disk files) }
    ensures opened { IfOk result (λ x. IsTrue x.0.answers → (db : Trees)
        × IsFoundIn (image_of D.Disk files) db
        × (x.0.state ≡ opened me (hub ∷ option_to_list other) (content_of db))) }
{
    let found = Connection::open_files(alloc, files, options);
    migrated_in(alloc, found, me, hub, other)
}
