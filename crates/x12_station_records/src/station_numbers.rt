//! The row of a station's numbers.

ghost use Rattle.std.specs.Prelude.{◌≡◌, ◌≢◌, ◌≤◌, ◌-◌, ◌^◌, ℕ, pos, Err, IfOk, IsErrAnd};
ghost use Rattle.sqlite.specs.Held.{state};
ghost use Rattle.sqlite.specs.Order.{column};
ghost use Rattle.sqlite.specs.declared.error.Error.TheVariants.{SqliteFailure};
ghost use Rattle.sqlite.specs.declared.error.ErrorCode.TheVariants.{OutOfMemory};
ghost use Rattle.sqlite.specs.declared.types.Value.TheVariants.{Int, Blob};
ghost use Rattle.sql_rows.specs.Kept.{IsPart};
ghost use Rattle.sql_rows.specs.Keyed.{with_id};
ghost use Rattle.x12_station.specs.Record.{owner_view};
ghost use Rattle.x12_tables.specs.Adopt.{TakesRows};
ghost use Rattle.x12_tables.specs.Change.{Always};
ghost use Rattle.x12_tables.specs.Fault.{IsOldVersion};
ghost use Rattle.x12_tables.specs.OneRow.{AreColumns, IsOfOlder, whole};
ghost use Rattle.x12_tables.specs.Party.{bytes_of_party};
ghost use Rattle.x12_tables.specs.declared.fault.TableFault.TheVariants.{Memory, OldVersion};
ghost use Rattle.x12_station_records.specs.StationAdopt.{AreLastNumbers};
ghost use Rattle.x12_station_records.specs.StationChange.{Turns, with_last_numbers};
ghost use Rattle.x12_station_records.specs.StationNumbers.{newest_version, numbers_kept_of, numbers_view};
ghost use Rattle.x12_station_records.specs.StationRead.{StationAnswers};
ghost use Rattle.x12_station_records.specs.StationTables.{AreWideParties, CanBeUsed, other_value};
ghost use Rattle.x12_station_records.specs.StationTables.{numbers_row};
ghost use Rattle.x12_station_records.specs.StationTaken.{TellsOwner, IsControlNumber};
ghost use Rattle.x12_station_records.specs.StationTaken.{IsOneNumbersRow, IsNumbersRow};

use crate::values::other_in_row;
use sql_rows::run;
use sqlite::types::ValueRef;
use sqlite::{Alter, Connection, Error, Row, Transaction};
use x12_numbers::Book;
use x12_station::Owner;
use x12_tables::{TableFault, integer, long_in, number_in, party_in_row, read, row_of_versions};

/// What the row says: the version of the tables, whose the records are, with the row's own marks, the last
/// control numbers, the last number of a submission or first arrival, and how many postings were handed
/// over.
#[derive(Clone, Copy)]
pub(crate) struct NumbersRow {
    pub(crate) version: u32,
    pub(crate) owner: Owner,
    pub(crate) book: Book,
    pub(crate) seq: u64,
    pub(crate) handed: u64,
}

/// The newest version of a station's tables.
pub const STATION_VERSION: u32 = 3;

/// The oldest version that is known, in which each arrival is read as before acknowledgments were noted.
pub(crate) const FIRST_VERSION: u32 = 1;

/// All columns of the row.
pub(crate) const NUMBERS: &str =
    "SELECT one, version, party, hub, other, icn, gcn, seq, handed, noted, era FROM numbers";

/// Writes the last control numbers, and the last number of a submission or first arrival.
pub(crate) fn count<S: Alter>(
    tx: &mut Transaction<'_, S>,
    book: Book,
    seq: u64,
) -> Result<(), Error>
    ensures same_reference { tx.new.conn.ghost_name ≡ tx.old.conn.ghost_name }
    ensures part { IsPart (Turns (with_last_numbers book seq) Always) result
        (state S.Store tx.old.conn.now) (state S.Store tx.new.conn.now) }
{
    let seq = integer(seq)?;
    run(
        tx,
        "UPDATE numbers SET icn = ?1, gcn = ?2, seq = ?3",
        &[
            ValueRef::Int(i64::from(book.interchange())),
            ValueRef::Int(i64::from(book.group())),
            ValueRef::Int(seq),
        ],
    )
}

/// Whose a row of all columns says that the records are.
fn owner_in_row(row: &Row) -> Result<Owner, Error>
    ensures party { IfOk result (λ o. column row.now 2 ≡ Blob (bytes_of_party o.party)) }
    ensures hub { IfOk result (λ o. column row.now 3 ≡ Blob (bytes_of_party o.hub)) }
    ensures other { IfOk result (λ o. column row.now 4 ≡ other_value o.other) }
    ensures noted { IfOk result (λ o. column row.now 9 ≡ Int (pos o.noted)) }
    ensures era { IfOk result (λ o. column row.now 10 ≡ Int (pos o.era)) }
    ensures wide { IfOk result (λ o. AreWideParties o) }
    ensures taken { TakesRows (TellsOwner row.now) (SqliteFailure OutOfMemory) result }
{
    let party = party_in_row(row, 2)?;
    let hub = party_in_row(row, 3)?;
    let other = other_in_row(row, 4)?;
    let noted = long_in(row, 9)?;
    let era = long_in(row, 10)?;
    Ok(Owner {
        party,
        hub,
        other,
        noted,
        era,
    })
}

/// The last control numbers in a row of all columns.
fn book_in_row(row: &Row) -> Result<Book, Error>
    ensures icn { IfOk result (λ book. column row.now 5 ≡ Int (pos book.interchange)) }
    ensures gcn { IfOk result (λ book. column row.now 6 ≡ Int (pos book.group)) }
    ensures used { IfOk result (λ book. CanBeUsed book) }
    ensures taken { TakesRows (IsControlNumber (column row.now 5)
        × IsControlNumber (column row.now 6)) (SqliteFailure OutOfMemory) result }
{
    let icn = number_in(row, 5)?;
    let gcn = number_in(row, 6)?;
    match Book::at(icn, gcn) {
        Some(book) => Ok(book),
        None => Err(Error::IntegralValueOutOfRange(5)),
    }
}

/// What a row of all columns says, which is of this version.
fn numbers_in_row(row: &Row, version: u32) -> Result<NumbersRow, TableFault>
    requires { (column row.now 0 ≡ Int (pos 1)) × (column row.now 1 ≡ Int (pos version)) }
    ensures row { IfOk result (λ n. AreColumns row.now 0 (whole (with_id numbers_row (1, n)))) }
    ensures version { IfOk result (λ n. n.version ≡ version) }
    ensures few { IfOk result (λ n. n.seq ≤ 2 ^ 63 - 1) }
    ensures parties { IfOk result (λ n. AreWideParties n.owner) }
    ensures book { IfOk result (λ n. CanBeUsed n.book) }
    ensures taken { TakesRows (IsNumbersRow row.now) Memory result }
    ensures known { (was : ℕ) → result ≢ Err (OldVersion was) }
{
    let owner = owner_in_row(row)?;
    let book = book_in_row(row)?;
    let seq = long_in(row, 7)?;
    let handed = long_in(row, 8)?;
    integer(seq)?;
    Ok(NumbersRow {
        version,
        owner,
        book,
        seq,
        handed,
    })
}

/// What the one row says, of a version from this one to the newest; [`TableFault::OldVersion`] with
/// its own where it is of an older one, whatever else is in it.
pub(crate) fn numbers_in_rows(rows: &[Row], oldest: u32) -> Result<NumbersRow, TableFault>
    ensures are { IfOk result (λ n. AreLastNumbers oldest n rows.now) }
    ensures taken { TakesRows (IsOneNumbersRow oldest rows.now) Memory result }
    ensures older { (was : ℕ) → IsOfOlder oldest was rows.now → IsErrAnd result (IsOldVersion was) }
    ensures only { (was : ℕ) → result ≡ Err (OldVersion was) → IsOfOlder oldest was rows.now }
{
    let (version, row) = row_of_versions(rows, oldest, STATION_VERSION)?;
    numbers_in_row(row, version)
}

/// Up to which number arrivals are read as before acknowledgments were noted.
pub(crate) fn noted_in(numbers: &NumbersRow) -> u64
    ensures { result ≡ (numbers_view numbers.now).origin.noted }
{
    if numbers.version == 1 {
        return numbers.seq;
    }
    numbers.owner.noted
}

/// Up to which number arrivals are judged as before the edition changed.
pub(crate) fn era_in(numbers: &NumbersRow) -> u64
    ensures { result ≡ (numbers_view numbers.now).origin.era }
{
    if numbers.version < 3 {
        return numbers.seq;
    }
    numbers.owner.era
}

/// What the row of tables of the newest version says. Numbers out of range are a failure of the device.
pub(crate) fn load_numbers<S: Alter>(conn: &mut Connection<S>) -> Result<NumbersRow, Error>
    ensures answers { StationAnswers (λ s n. numbers_view n ≡ numbers_kept_of s) result
        (state S.Store conn.old) (state S.Store conn.new) }
    ensures newest { IfOk result (λ n. n.version ≡ newest_version) }
    ensures few { IfOk result (λ n. n.seq ≤ 2 ^ 63 - 1) }
{
    let rows = read(conn, NUMBERS, &[])?;
    Ok(numbers_in_rows(&rows, STATION_VERSION)?)
}

/// Whose the records are.
pub(crate) fn find_owner<S: Alter>(conn: &mut Connection<S>) -> Result<Owner, Error>
    ensures { StationAnswers (λ s o. owner_view o ≡ s.origin) result
        (state S.Store conn.old) (state S.Store conn.new) }
{
    Ok(load_numbers(conn)?.owner)
}
