//! Why records aren't made in a database, or not taken over from one.

ghost use Rattle.std.specs.Prelude.{◌≡◌};
ghost use Rattle.x12_tables.specs.Fault.{fault_of_error, fault_of_table, table_fault_of};
ghost use Rattle.x12_tables.specs.Fault.{error_of_table, records_fault_number};
ghost use Rattle.x12_tables.specs.declared.fault.TableFault.TheVariants.{Memory};

use sqlite::{Error, ErrorCode};
use std::alloc::AllocFailed;
use std::fmt;
use std::fmt::Write;
use thiserror::Error;
use x12_envelopes::Party;

/// Why records weren't made in a database, or weren't taken over from one.
#[derive(Clone, Copy, Debug, PartialEq, Eq, Error)]
pub enum RecordsFault {
    /// Q1. The database isn't one for these records. Where records are made: it has a table, an index
    /// or a view. Where they are taken over: its tables aren't these records' tables, or the row of
    /// their version is missing, or has the number of no version up to this one.
    #[error("the database has other tables than these records: name another one")]
    NotOurs,
    /// Q4. The records are of this version, which is older than the newest. Nothing is wrong with them, and
    /// `migrate` brings them to the newest.
    #[error("its records are of version {0}: copy the folder, then run `van migrate DIR`")]
    OldVersion(u32),
    /// Q2. The database did not do what it was asked, a transaction was open, or a row is out of the
    /// form or the order of its table.
    #[error("the database failed, or holds a row out of form: see to the device, then try again")]
    Store,
    /// Q5. The records are another's: they name another station or hub than was asked for. Nothing is
    /// wrong with them.
    #[error("the records are of {}, not of {}: name the database of the second", Named(.found), Named(.wanted))]
    OtherParty {
        /// Whose they are: the station's or hub's party, or, where that is the one that was asked for,
        /// the party of the station's hub.
        found: Party,
        /// The party that was asked for in its place.
        wanted: Party,
    },
    /// Q3. Memory was missing.
    #[error("memory was missing for the records: make the call again")]
    Memory,
}

impl RecordsFault {
    /// The fault's number: `Q1` to `Q5`.
    pub fn number(&self) -> &'static str
        ensures { result.now ≡ records_fault_number self.now }
    {
        match self {
            RecordsFault::NotOurs => "Q1",
            RecordsFault::Store => "Q2",
            RecordsFault::Memory => "Q3",
            RecordsFault::OldVersion(_) => "Q4",
            RecordsFault::OtherParty { .. } => "Q5",
        }
    }
}

impl From<Error> for RecordsFault {
    ghost from_gives = { λ error fault. fault ≡ fault_of_error error };

    fn from(error: Error) -> RecordsFault {
        match error {
            Error::SqliteFailure(ErrorCode::OutOfMemory) => RecordsFault::Memory,
            _ => RecordsFault::Store,
        }
    }
}

/// Why tables aren't read as those of records, whosoever they are.
#[derive(Clone, Copy)]
pub enum TableFault {
    /// Other tables than those of the records, or no row of their version.
    NotOurs,
    /// The tables of this older version.
    OldVersion(u32),
    /// The database failed, or a row is out of form or order.
    Store,
    /// Memory was missing.
    Memory,
}

impl From<Error> for TableFault {
    ghost from_gives = { λ error fault. fault ≡ table_fault_of error };

    fn from(error: Error) -> TableFault {
        match error {
            Error::SqliteFailure(ErrorCode::OutOfMemory) => TableFault::Memory,
            _ => TableFault::Store,
        }
    }
}

impl<T: Drop> From<AllocFailed<T>> for TableFault {
    ghost from_gives = { λ _ fault. fault ≡ Memory };

    fn from(_: AllocFailed<T>) -> TableFault {
        TableFault::Memory
    }
}

impl From<TableFault> for RecordsFault {
    ghost from_gives = { λ error fault. fault ≡ fault_of_table error };

    fn from(fault: TableFault) -> RecordsFault {
        match fault {
            TableFault::NotOurs => RecordsFault::NotOurs,
            TableFault::OldVersion(version) => RecordsFault::OldVersion(version),
            TableFault::Store => RecordsFault::Store,
            TableFault::Memory => RecordsFault::Memory,
        }
    }
}

impl From<TableFault> for Error {
    ghost from_gives = { λ fault error. error ≡ error_of_table fault };

    fn from(fault: TableFault) -> Error {
        match fault {
            TableFault::Memory => Error::SqliteFailure(ErrorCode::OutOfMemory),
            _ => Error::IntegralValueOutOfRange(0),
        }
    }
}

/// A party as qualifier and identifier, as `ZZ/ALPHA`; a byte that isn't a printable character of
/// ASCII as its two hexadecimal digits, as `<0D>`.
#[derive(Clone, Copy)]
struct Named<'a>(&'a Party);

fn write_text<W: fmt::Write>(f: &mut fmt::Formatter<W>, text: &[u8]) -> fmt::Result {
    for b in text {
        if b.is_ascii_graphic() || *b == b' ' {
            f.write_char(char::from(*b))?;
        } else {
            write!(f, "<{b:02X}>")?;
        }
    }
    Ok(())
}

impl fmt::Display for Named<'_> {
    fn fmt<W: fmt::Write>(&self, f: &mut fmt::Formatter<W>) -> fmt::Result {
        write_text(f, &self.0.qualifier)?;
        f.write_char('/')?;
        write_text(f, self.0.identifier())
    }
}
