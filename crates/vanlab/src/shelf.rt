//! The records of a trial's nodes in a folder, a database file a node.
ghost use Rattle.std.specs.Prelude.{IsTrue};
ghost use Rattle.x12_envelopes.specs.Party.{is_plain_party};

use sqlite::{Alter, Connection, Wary};
use std::alloc::{AllocError, Global};
use std::{fs, io, str};
use thiserror::Error;
use x12_envelopes::Party;
use x12_hub::Hub;
use x12_records::{FilesFrom, OpenFault, SqliteHubRecords, SqliteRecords};
use x12_station::Station;
use x12_trial::Founder;

/// Why a folder doesn't take the records of a trial.
#[derive(Debug, Drop, Error)]
pub(crate) enum ShelfFault {
    /// It holds something.
    #[error("it isn't empty, and may hold records: a network begins with none")]
    Filled,
    /// The folder can't be made or listed.
    #[error("it can't be used as a folder: {0}")]
    Folder(io::Error),
    /// A node's records can't be made.
    #[error("{0}")]
    Open(OpenFault),
    /// Memory was missing.
    #[error("memory was missing")]
    Memory,
}

impl From<AllocError> for ShelfFault {
    ghost from_gives = { λ _ _. Unit {0} };

    fn from(_: AllocError) -> ShelfFault {
        ShelfFault::Memory
    }
}

impl From<OpenFault> for ShelfFault {
    ghost from_gives = { λ _ _. Unit {0} };

    fn from(fault: OpenFault) -> ShelfFault {
        ShelfFault::Open(fault)
    }
}

impl From<io::Error> for ShelfFault {
    ghost from_gives = { λ _ _. Unit {0} };

    fn from(error: io::Error) -> ShelfFault {
        ShelfFault::Folder(error)
    }
}

/// Who makes the database of a node.
pub(crate) trait Databases {
    /// Where it is.
    type Store: Alter + Send + Drop;

    /// The database of a party, which holds nothing.
    fn open(&self, me: &Party) -> Result<Connection<Self::Store>, ShelfFault>;
}

/// A folder, where each database is a file.
#[derive(Drop)]
pub(crate) struct Folder<'a> {
    rt: &'a HostRuntime,
    path: &'a str,
}

/// Sees that a folder is empty, which is made where there is none.
fn make_empty(rt: &HostRuntime, path: &str) -> Result<(), ShelfFault> {
    fs::create_dir_all(rt, path)?;
    for entry in fs::read_dir(rt, path)? {
        drop(entry?);
        return Err(ShelfFault::Filled);
    }
    Ok(())
}

impl<'a> Folder<'a> {
    /// That at this path, which is made where there is none, and is empty.
    pub fn new(rt: &'a HostRuntime, path: &'a str) -> Result<Folder<'a>, ShelfFault> {
        make_empty(rt, path)?;
        Ok(Folder { rt, path })
    }
}

impl Databases for Folder<'_> {
    type Store = FilesFrom<Wary>;

    fn open(&self, me: &Party) -> Result<Connection<FilesFrom<Wary>>, ShelfFault> {
        let name = str::from_utf8(me.identifier()).unwrap_or("");
        let path = format!(in self.rt.alloc(); "{}/{name}.db", self.path)?;
        match Connection::open_from(self.rt, path.as_str(), false, Wary) {
            Ok(conn) => Ok(conn),
            Err((error, _)) => Err(ShelfFault::Open(OpenFault::Database(error))),
        }
    }
}

/// Founds nodes over databases.
#[derive(Drop)]
pub(crate) struct Shelf<'d, D> {
    /// Where the memory is from.
    pub alloc: Global,
    /// Who makes them.
    pub databases: &'d D,
}

/// A new hub over a database that holds nothing.
#[tactic(auto, using(crate::proofs::ShelfLemmas::party_of_nothing))]
fn new_hub<S: Alter + Drop>(
    alloc: Global,
    conn: Connection<S>,
    me: Party,
) -> Result<Hub<SqliteHubRecords<S>>, OpenFault>
    requires { IsTrue (is_plain_party me) }
{
    let records = match SqliteHubRecords::create(conn, me) {
        Ok(records) => records,
        Err((_, fault)) => return Err(OpenFault::Records(fault)),
    };
    match Hub::open(alloc, me, records) {
        Ok(hub) => Ok(hub),
        Err((_, fault)) => Err(OpenFault::Hub(fault)),
    }
}

/// A new station over a database that holds nothing.
fn new_station<S: Alter + Drop>(
    alloc: Global,
    conn: Connection<S>,
    me: Party,
    hub: Party,
    other: Option<Party>,
) -> Result<Station<SqliteRecords<S>>, OpenFault>
    requires { IsTrue (is_plain_party me) }
{
    let records = match SqliteRecords::create(conn, me, hub, other) {
        Ok(records) => records,
        Err((_, fault)) => return Err(OpenFault::Records(fault)),
    };
    match Station::open(alloc, me, hub, other, records) {
        Ok(station) => Ok(station),
        Err((_, fault)) => Err(OpenFault::Station(fault)),
    }
}

impl<D: Databases> Founder for Shelf<'_, D> {
    type Station = SqliteRecords<D::Store>;

    type Hub = SqliteHubRecords<D::Store>;

    type Fault = ShelfFault;

    fn hub(&mut self, me: Party) -> Result<Hub<SqliteHubRecords<D::Store>>, ShelfFault> {
        Ok(new_hub(self.alloc, self.databases.open(&me)?, me)?)
    }

    fn station(
        &mut self,
        me: Party,
        hub: Party,
        other: Option<Party>,
    ) -> Result<Station<SqliteRecords<D::Store>>, ShelfFault> {
        let conn = self.databases.open(&me)?;
        Ok(new_station(self.alloc, conn, me, hub, other)?)
    }
}
