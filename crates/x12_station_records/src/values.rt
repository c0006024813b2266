//! Values in rows of a station's tables.

ghost use Rattle.std.specs.Prelude.{◌≡◌, ◌<◌, pos, IfOk, [], ◌∷◌, OnOk, IfSome, option_to_list};
ghost use Rattle.std.specs.Prelude.{◌⊎◌, length, IsOk};
ghost use Rattle.std.specs.List.{AllByRecursion};
ghost use Rattle.sqlite.specs.Order.{column};
ghost use Rattle.sqlite.specs.declared.error.Error.TheVariants.{SqliteFailure};
ghost use Rattle.sqlite.specs.declared.error.ErrorCode.TheVariants.{OutOfMemory};
ghost use Rattle.sqlite.specs.declared.types.Value.TheVariants.{Int, Blob, Null};
ghost use Rattle.sqlite.specs.Values.{bound};
ghost use Rattle.sql_rows.specs.Keyed.{number_in};
ghost use Rattle.x12_envelopes.specs.Shape.{bytes_of_set_no};
ghost use Rattle.x12_tables.specs.Adopt.{TakesRows};
ghost use Rattle.x12_tables.specs.Party.{bytes_in, IsWideParty, IsParty};
ghost use Rattle.x12_tables.specs.declared.fault.TableFault.TheVariants.{Memory};
ghost use Rattle.x12_station_records.specs.StationAdopt.{IsFate, IsKeptPlace, IsSetNumber, IsLenient};
ghost use Rattle.x12_station_records.specs.StationAdopt.{IsNumber};
ghost use Rattle.x12_station_records.specs.StationContent.{fate_numbered, lenient_numbered};
ghost use Rattle.x12_station_records.specs.StationFinds.{asked_as};
ghost use Rattle.x12_station_records.specs.StationTables.{other_value, reply_value, fate_number};
ghost use Rattle.x12_station_records.specs.StationTables.{lenient_number};

use sqlite::types::ValueRef;
use sqlite::{Error, ErrorCode, Row};
use x12_envelopes::{Party, SetNo};
use x12_outbound::Fate;
use x12_tables::{TableFault, long_in, number_in, party_bytes, party_in_row};

/// The 17 bytes of a party, if there is one.
pub(crate) fn other_bytes(other: &Option<Party>) -> Option<[u8; 17]>
    ensures bytes { reply_value result ≡ other_value other.now }
    ensures wide { AllByRecursion IsWideParty (option_to_list other.now) }
{
    match other {
        Some(party) => Some(party_bytes(party)),
        None => None,
    }
}

/// These bytes as a table has them; NULL where there are none.
pub(crate) fn other_ref(bytes: &Option<[u8; 17]>) -> ValueRef<'_>
    ensures { bound (result ∷ []) ≡ reply_value bytes.now ∷ [] }
{
    match bytes {
        Some(bytes) => ValueRef::Blob(bytes),
        None => ValueRef::Null,
    }
}

/// The party in a column, if it isn't NULL.
pub(crate) fn other_in_row(row: &Row, at: usize) -> Result<Option<Party>, Error>
    ensures is { IfOk result (λ other. column row.now at ≡ other_value other) }
    ensures wide { IfOk result (λ other. IfSome other (λ party. IsWideParty party)) }
    ensures taken { at < length row.now → TakesRows ((column row.now at ≡ Null)
        ⊎ IsParty (column row.now at)) (SqliteFailure OutOfMemory) result }
{
    if let ValueRef::Null = row.get_ref(at)? {
        return Ok(None);
    }
    Ok(Some(party_in_row(row, at)?))
}

/// A control number as a table has it: one that was used, so not 0.
pub(crate) fn control_number(n: u32) -> Result<i64, Error>
    ensures ok { IfOk result (λ i. i ≡ pos n) }
    ensures used { OnOk result (0 < n) }
{
    if n == 0 {
        return Err(Error::SqliteFailure(ErrorCode::NoRowid));
    }
    Ok(i64::from(n))
}

/// The key by which a number is asked for: 0, which no row has, where SQLite has no such integer.
pub(crate) fn key_asked(n: u64) -> i64
    ensures { result ≡ pos (asked_as n) }
{
    match i64::try_from(n) {
        Ok(key) => key,
        Err(_) => 0,
    }
}

/// A fate: 0 pending, 1 accepted, 2 rejected, 3 noted.
pub(crate) fn fate_value(fate: Fate) -> i64
    ensures { result ≡ pos (fate_number fate) }
{
    match fate {
        Fate::Pending => 0,
        Fate::Accepted => 1,
        Fate::Rejected => 2,
        Fate::Noted => 3,
    }
}

/// The fate that a number stands for.
pub(crate) fn fate_of(number: u64) -> Result<Fate, Error>
    ensures number { IfOk result (λ fate. fate_number fate ≡ number) }
    ensures fate { IfOk result (λ fate. fate ≡ fate_numbered number) }
    ensures taken { number ≡ fate_number (fate_numbered number) → IsOk result }
{
    match number {
        0 => Ok(Fate::Pending),
        1 => Ok(Fate::Accepted),
        2 => Ok(Fate::Rejected),
        3 => Ok(Fate::Noted),
        _ => Err(Error::IntegralValueOutOfRange(0)),
    }
}

/// Whether an agreement is lenient: 1 where it is, else 0.
pub(crate) fn lenient_value(lenient: bool) -> i64
    ensures { result ≡ pos (lenient_number lenient) }
{
    if lenient { 1 } else { 0 }
}

/// Whether an agreement is lenient, by a column.
pub(crate) fn lenient_in_row(row: &Row, at: usize) -> Result<bool, Error>
    ensures is { IfOk result (λ lenient. lenient ≡ lenient_numbered (number_in (column row.now at))) }
    ensures form { OnOk result (IsLenient (column row.now at)) }
    ensures taken { TakesRows (IsLenient (column row.now at)) (SqliteFailure OutOfMemory) result }
{
    match long_in(row, at)? {
        0 => Ok(false),
        1 => Ok(true),
        _ => Err(Error::IntegralValueOutOfRange(at)),
    }
}

/// The code of N bytes in a column.
pub(crate) fn code_in<const N: usize>(row: &Row, at: usize) -> Result<[u8; N], Error>
    ensures is { IfOk result (λ code. code ≡ bytes_in (column row.now at)) }
    ensures taken { TakesRows ((0 < N) × (length (bytes_in (column row.now at)) ≡ N))
        (SqliteFailure OutOfMemory) result }
{
    let ValueRef::Blob(bytes) = row.get_ref(at)? else {
        return Err(Error::IntegralValueOutOfRange(at));
    };
    match <[u8; N]>::try_from(bytes) {
        Ok(code) => Ok(code),
        Err(_) => Err(Error::IntegralValueOutOfRange(at)),
    }
}

/// The number of a transaction set (ST02) in a column.
pub(crate) fn set_number_in(row: &Row, at: usize) -> Result<SetNo, Error>
    ensures is { IfOk result (λ number. bytes_of_set_no number ≡ bytes_in (column row.now at)) }
    ensures form { OnOk result (IsSetNumber (column row.now at)) }
    ensures taken { TakesRows (IsSetNumber (column row.now at))
        (SqliteFailure OutOfMemory) result }
{
    let ValueRef::Blob(bytes) = row.get_ref(at)? else {
        return Err(Error::IntegralValueOutOfRange(at));
    };
    match SetNo::new(bytes) {
        Some(number) => Ok(number),
        None => Err(Error::IntegralValueOutOfRange(at)),
    }
}

/// The place of a group or of a transaction set in a column.
pub(crate) fn place_in(row: &Row, at: usize) -> Result<u16, Error>
    ensures place { IfOk result (λ place. place ≡ number_in (column row.now at)) }
    ensures is { OnOk result (IsKeptPlace (column row.now at)) }
    ensures taken { TakesRows (IsKeptPlace (column row.now at)) (SqliteFailure OutOfMemory) result }
{
    let place = number_in(row, at)?;
    match u16::try_from(place) {
        Ok(place) => Ok(place),
        Err(_) => Err(Error::IntegralValueOutOfRange(at)),
    }
}

/// The fate in a column.
pub(crate) fn fate_in_row(row: &Row, at: usize) -> Result<Fate, Error>
    ensures is { IfOk result (λ fate. fate ≡ fate_numbered (number_in (column row.now at))) }
    ensures taken { TakesRows (IsFate (column row.now at)) (SqliteFailure OutOfMemory) result }
{
    fate_of(long_in(row, at)?)
}

/// Tests that a column has the 17 bytes of a party.
pub(crate) fn test_party(row: &Row, at: usize) -> Result<(), TableFault>
    ensures is { OnOk result (IsParty (column row.now at)) }
    ensures taken { TakesRows (IsParty (column row.now at)) Memory result }
{
    let ValueRef::Blob(party) = row.get_ref(at)? else {
        return Err(TableFault::Store);
    };
    if party.len() != 17 {
        return Err(TableFault::Store);
    }
    Ok(())
}

/// Tests that a column has a number.
pub(crate) fn test_number(row: &Row, at: usize) -> Result<(), TableFault>
    ensures is { OnOk result (IsNumber (column row.now at)) }
    ensures taken { TakesRows (IsNumber (column row.now at)) Memory result }
{
    let _number = number_in(row, at)?;
    Ok(())
}

/// Tests that a column has this number.
pub(crate) fn test_place(row: &Row, at: usize, place: u64) -> Result<(), TableFault>
    ensures is { OnOk result (column row.now at ≡ Int (pos place)) }
    ensures taken { TakesRows (column row.now at ≡ Int (pos place)) Memory result }
{
    let found = long_in(row, at)?;
    if found != place {
        return Err(TableFault::Store);
    }
    Ok(())
}
