//! Files that stop: a log and a database file in memory, each of which passes so many calls and then
//! none; and what is left of them, where a program is killed there or a machine loses its power.

ghost use Rattle.std.specs.Prelude.{◌≡◌, IsTrue, IfOk, List, ℕ};
ghost use Rattle.sqlite.specs.Files.{image_of};
ghost use Rattle.sqlite_disk.specs.Memory.{memory_bytes, memory_is_usable};
ghost use Rattle.sqlite_wal.specs.Files.{outcomes};
ghost use Rattle.sqlite_wal.specs.Reads.{AreClean};
ghost use Rattle.sqlite_wal.specs.Recovery.{Image};

use sqlite::{Connection, FileStore, Files, Options};
use sqlite_disk::{Crash, Disk, Fuse, Memory};
use std::alloc::Global;
use std::test::Fail;

/// A file of which a stop leaves another one.
pub(crate) trait Stops: Disk {
    /// The file as a killed program leaves it: with all that was written. It passes so many calls.
    fn killed(&self, alloc: Global, calls: u64) -> Result<Self, Fail>
        ensures left { IfOk result (λ f. Self.Disk.may_leave self.now (Self.Disk.seen f)) }
        ensures usable { IfOk result (λ f. IsTrue (Self.Disk.is_usable f)) }
        ensures clean { IfOk result (λ f.
            IsTrue (Self.Disk.is_clean f) → IsTrue (Self.Disk.is_clean self.now)) };

    /// The file as a machine leaves it that loses its power: with what was synced.
    fn lose(&mut self)
        ensures left { Self.Disk.may_leave self.old (Self.Disk.seen self.new) }
        ensures usable { IsTrue (Self.Disk.is_usable self.new) }
        ensures clean { IsTrue (Self.Disk.is_clean self.new) → IsTrue (Self.Disk.is_clean self.old) };
}

/// A file in memory that passes so many calls.
pub(crate) type Stopping = Fuse<Memory>;

/// A new file in memory with these bytes.
fn written(alloc: Global, bytes: &[u8]) -> Result<Memory, Fail>
    ensures bytes { IfOk result (λ m. memory_bytes m ≡ bytes.now) }
    ensures usable { IfOk result (λ m. IsTrue (memory_is_usable m)) }
{
    let mut file = Memory::new(alloc);
    Disk::write_at(&mut file, 0, bytes)?;
    Ok(file)
}

impl Stops for Stopping {
    fn killed(&self, alloc: Global, calls: u64) -> Result<Stopping, Fail> {
        Ok(Fuse::new(written(alloc, self.inner().bytes())?, calls))
    }

    fn lose(&mut self) {
        Crash::crash(self);
    }
}

/// When both files stop: after so many calls of each.
#[derive(Clone, Copy)]
pub(crate) struct Stop {
    /// Of the log.
    pub(crate) log: u64,
    /// Of the database file.
    pub(crate) db: u64,
}

/// Neither stops.
pub(crate) const NEVER: Stop = Stop {
    log: u64::MAX,
    db: u64::MAX,
};

/// By how much a number of calls is raised in search of the least one that suffices: 512 at most.
pub(crate) const STEPS: [u64; 9] = [256, 128, 64, 32, 16, 8, 4, 2, 1];

/// Whether a file passes no more calls.
fn has_stopped<D: Disk>(file: &mut D) -> bool
    ensures clean { IsTrue (D.Disk.is_clean file.new) → IsTrue (D.Disk.is_clean file.old) }
    ensures crash { (c : List ℕ) → D.Disk.may_leave file.new c → D.Disk.may_leave file.old c }
{
    if !file.may_be_used() {
        return true;
    }
    file.len().is_err()
}

impl Stop {
    /// The next moment at which both may stop, by what became of files that stopped at this one: the
    /// log passes a call more; and where it would have passed more than it was asked for, the database
    /// file does.
    pub(crate) fn next<D: Disk + Drop>(self, files: &mut Files<D>) -> Stop
        ensures { AreClean D.Disk files.new.log files.new.db →
            AreClean D.Disk files.old.log files.old.db × ((image : Image) →
            outcomes D.Disk files.new.log files.new.db image →
            outcomes D.Disk files.old.log files.old.db image) }
    {
        if has_stopped(&mut files.log) {
            return Stop {
                log: self.log.saturating_add(1),
                db: self.db,
            };
        }
        Stop {
            log: self.log.saturating_sub(1),
            db: self.db.saturating_add(1),
        }
    }
}

/// What a killed program leaves of files, which stop at this moment.
pub(crate) fn killed<D: Stops + Drop>(
    alloc: Global,
    files: &Files<D>,
    stop: Stop,
) -> Result<Files<D>, Fail>
    ensures left { IfOk result (λ f.
        outcomes D.Disk files.now.log files.now.db (image_of D.Disk f)) }
    ensures log { IfOk result (λ f. IsTrue (D.Disk.is_usable f.log)) }
    ensures db { IfOk result (λ f. IsTrue (D.Disk.is_usable f.db)) }
    ensures clean { IfOk result (λ f.
        AreClean D.Disk f.log f.db → AreClean D.Disk files.now.log files.now.db) }
{
    Ok(Files {
        log: files.log.killed(alloc, stop.log)?,
        db: files.db.killed(alloc, stop.db)?,
    })
}

/// What a machine that loses its power leaves of files.
pub(crate) fn lost<D: Stops + Drop>(files: Files<D>) -> Files<D>
    ensures left { outcomes D.Disk files.log files.db (image_of D.Disk result) }
    ensures log { IsTrue (D.Disk.is_usable result.log) }
    ensures db { IsTrue (D.Disk.is_usable result.db) }
    ensures clean { AreClean D.Disk result.log result.db → AreClean D.Disk files.log files.db }
{
    let Files { mut log, mut db } = files;
    log.lose();
    db.lose();
    Files { log, db }
}

/// Files in memory that hold nothing, and pass each call.
pub(crate) fn empty(alloc: Global) -> Files<Stopping> {
    Files {
        log: Fuse::new(Memory::new(alloc), NEVER.log),
        db: Fuse::new(Memory::new(alloc), NEVER.db),
    }
}

/// Of a program that is to stop: few pages stay in memory, and each commit copies the log into the
/// database file first. So a call reads and writes both files.
pub(crate) fn small() -> Options {
    Options {
        cache_pages: 2,
        checkpoint_frames: 1,
        ..Options::new(1)
    }
}

/// Of a program that goes on: its pages stay in memory, and a commit writes the log alone.
pub(crate) fn large() -> Options {
    Options {
        cache_pages: 32,
        ..Options::new(1)
    }
}

/// The database in these files, or nothing where it isn't opened.
pub(crate) fn opened<D: Disk + Drop>(
    alloc: Global,
    files: Files<D>,
) -> Option<Connection<FileStore<D>>> {
    if !files.may_be_used() {
        return None;
    }
    match Connection::open_files(alloc, files, small()) {
        Ok(conn) => Some(conn),
        Err(_) => None,
    }
}

/// The files of a database, which it leaves.
pub(crate) fn left<D: Disk + Drop>(conn: Connection<FileStore<D>>) -> Files<D> {
    conn.into_store().close()
}
