//! Values in rows.

ghost use Rattle.std.specs.Prelude.{◌≡◌, ◌<◌, ◌≤◌, ◌^◌, ℕ, pos, IfOk, [], ◌∷◌, OnOk, IsOk, Err, IsErrAnd};
ghost use Rattle.sqlite.specs.Order.{column};
ghost use Rattle.sqlite.specs.declared.error.Error.TheVariants.{SqliteFailure};
ghost use Rattle.sqlite.specs.declared.error.ErrorCode.TheVariants.{OutOfMemory};
ghost use Rattle.sqlite.specs.declared.types.Value.TheVariants.{Int};
ghost use Rattle.sql_rows.specs.Keyed.{number_in};
ghost use Rattle.x12_tables.specs.Adopt.{TakesRows, IsNarrow, IsLong, IsNodeNumber};
ghost use Rattle.x12_tables.specs.Fault.{IsOldVersion};
ghost use Rattle.x12_tables.specs.First.{IsInFirstRow};
ghost use Rattle.x12_tables.specs.OneRow.{IsOfVersions, IsOfOlder};
ghost use Rattle.x12_tables.specs.declared.fault.TableFault.TheVariants.{Memory, OldVersion};

use crate::fault::TableFault;
use sqlite::types::FromSql;
use sqlite::{Error, ErrorCode, Row};

/// The fault of a row that doesn't stand where it has to.
pub fn misplaced() -> Error {
    Error::IntegralValueOutOfRange(0)
}

/// The number of 32 bits in a column, counted from 0; an error where it holds anything else.
pub fn number_in(row: &Row, at: usize) -> Result<u32, Error>
    ensures is { IfOk result (λ n. column row.now at ≡ Int (pos n)) }
    ensures narrow { IfOk result (λ n. n < 2 ^ 32) }
    ensures taken { TakesRows (IsNarrow (column row.now at)) (SqliteFailure OutOfMemory) result }
{
    row.get(at)
}

/// The number of 64 bits in a column, counted from 0; an error where it holds anything else. SQLite's
/// integers end at 9223372036854775807.
pub fn long_in(row: &Row, at: usize) -> Result<u64, Error>
    ensures is { IfOk result (λ n. column row.now at ≡ Int (pos n)) }
    ensures taken { TakesRows (IsLong (column row.now at)) (SqliteFailure OutOfMemory) result }
{
    row.get(at)
}

/// The node in a column, counted from 0: a number of 16 bits; an error where it holds anything else.
pub fn node_in(row: &Row, at: usize) -> Result<u16, Error>
    ensures is { IfOk result (λ node. column row.now at ≡ Int (pos node)) }
    ensures narrow { IfOk result (λ node. node < 2 ^ 16) }
    ensures taken { TakesRows (IsNodeNumber (column row.now at)) (SqliteFailure OutOfMemory) result }
{
    let number = number_in(row, at)?;
    match u16::try_from(number) {
        Ok(node) => Ok(node),
        Err(_) => Err(Error::IntegralValueOutOfRange(at)),
    }
}

/// The value in the first column of the first row, if there is a row; an error where it is of another
/// type.
pub fn first_value<T: FromSql>(rows: &[Row]) -> Result<Option<T>, Error>
    ensures { IfOk result (IsInFirstRow T.FromSql.reads_as rows.now) }
{
    match rows.first() {
        Some(row) => Ok(Some(row.get(0)?)),
        None => Ok(None),
    }
}

/// Tests the version in the second column, which has to be one from the oldest to the newest, and then
/// the key in the first; the version.
fn test_version(row: &Row, oldest: u32, newest: u32) -> Result<u32, TableFault>
    ensures key { OnOk result (column row.now 0 ≡ Int (pos 1)) }
    ensures version { IfOk result (λ n. column row.now 1 ≡ Int (pos n)) }
    ensures within { IfOk result (λ n. (oldest ≤ n) × (n ≤ newest)) }
    ensures taken { TakesRows (IsOfVersions oldest newest (row.now ∷ [])) Memory result }
    ensures older { (was : ℕ) → IsOfOlder oldest was (row.now ∷ []) →
        IsErrAnd result (IsOldVersion was) }
    ensures only { (was : ℕ) → result ≡ Err (OldVersion was) → IsOfOlder oldest was (row.now ∷ []) }
{
    let version = number_in(row, 1)?;
    if 0 < version && version < oldest {
        return Err(TableFault::OldVersion(version));
    }
    if version < oldest {
        return Err(TableFault::NotOurs);
    }
    if newest < version {
        return Err(TableFault::NotOurs);
    }
    let key = number_in(row, 0)?;
    if key != 1 {
        return Err(TableFault::Store);
    }
    Ok(version)
}

/// The version and the one row of a table that says it, where that is one from the oldest to the newest.
/// It is tested before all else: [`TableFault::OldVersion`] with it where it is older, from 1 on;
/// [`TableFault::NotOurs`] where there is no row, or one of any other version; [`TableFault::Store`]
/// where there are several rows, or the key isn't 1.
pub fn row_of_versions(rows: &[Row], oldest: u32, newest: u32) -> Result<(u32, &Row), TableFault>
    ensures one { IfOk result (λ x. rows.now ≡ x.1.now ∷ []) }
    ensures key { IfOk result (λ x. column x.1.now 0 ≡ Int (pos 1)) }
    ensures version { IfOk result (λ x. column x.1.now 1 ≡ Int (pos x.0)) }
    ensures within { IfOk result (λ x. (oldest ≤ x.0) × (x.0 ≤ newest)) }
    ensures taken { TakesRows (IsOfVersions oldest newest rows.now) Memory result }
    ensures older { (was : ℕ) → IsOfOlder oldest was rows.now → IsErrAnd result (IsOldVersion was) }
    ensures only { (was : ℕ) → result ≡ Err (OldVersion was) → IsOfOlder oldest was rows.now }
{
    if rows.is_empty() {
        return Err(TableFault::NotOurs);
    }
    let [row] = rows else {
        return Err(TableFault::Store);
    };
    let version = test_version(row, oldest, newest)?;
    Ok((version, row))
}

/// The one row of a table that says its version, which is the wanted one; the faults are those of
/// [`row_of_versions`].
pub fn one_row(rows: &[Row], wanted: u32) -> Result<&Row, TableFault>
    ensures one { IfOk result (λ row. rows.now ≡ row.now ∷ []) }
    ensures key { IfOk result (λ row. column row.now 0 ≡ Int (pos 1)) }
    ensures version { IfOk result (λ row. column row.now 1 ≡ Int (pos wanted)) }
    ensures taken { TakesRows (IsOfVersions wanted wanted rows.now) Memory result }
{
    let (_, row) = row_of_versions(rows, wanted, wanted)?;
    Ok(row)
}

/// A number as SQLite has it, whose integers end at 9223372036854775807; `NoRowid` for one above that.
pub fn integer(n: u64) -> Result<i64, Error>
    ensures ok { IfOk result (λ i. i ≡ pos n) }
    ensures few { OnOk result (n < 2 ^ 63) }
    ensures taken { n < 2 ^ 63 → IsOk result }
{
    i64::try_from(n).map_err(|_| Error::SqliteFailure(ErrorCode::NoRowid))
}
