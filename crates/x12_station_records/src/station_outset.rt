//! The table of a station's submitted transaction sets.

ghost use Rattle.std.specs.Prelude.{◌≡◌, ◌<◌, ◌^◌, OnOk, map, IfOk, option_map, ℕ};
ghost use Rattle.std.specs.Option.{option_to_list};
ghost use Rattle.sqlite.specs.Held.{state};
ghost use Rattle.sqlite.specs.Order.{column};
ghost use Rattle.sql_rows.specs.Kept.{IsPart};
ghost use Rattle.x12_outbound.specs.Entry.{entry_row, group_row, set_row};
ghost use Rattle.x12_station.specs.Stored.{rows_of_entry, rows_of_group, stored_fate, sets_under};
ghost use Rattle.x12_outbound.specs.Settling.{target_view};
ghost use Rattle.x12_acks.specs.Key.{key_view};
ghost use Rattle.x12_tables.specs.Adopt.{TakesRows};
ghost use Rattle.x12_tables.specs.declared.fault.TableFault.TheVariants.{Memory};
ghost use Rattle.x12_station_records.specs.StationAdopt.{IsFate, IsSetRow, AreSetRows};
ghost use Rattle.x12_station_records.specs.StationChange.{Turns, with_stored_set, HasNextSet};
ghost use Rattle.x12_station_records.specs.StationChange.{set_of, with_stored_fate, with_fates};
ghost use Rattle.x12_station_records.specs.StationChange.{SetsOnce};
ghost use Rattle.x12_station_records.specs.StationClosed.{number_of_group};
ghost use Rattle.x12_station_records.specs.StationFinds.{fate_shown};
ghost use Rattle.x12_station_records.specs.StationGroups.{rows_of_groups, AreWhole};
ghost use Rattle.x12_station_records.specs.StationOpen.{number_shown, open_numbers};
ghost use Rattle.x12_station_records.specs.StationPart.{PartGoesOn, AddsSets};
ghost use Rattle.x12_station_records.specs.StationRead.{StationAnswers};

use crate::station_groups::groups_in_rows;
use crate::values::{code_in, fate_of, fate_value, set_number_in, test_number, test_place};
use sql_rows::run;
use sqlite::types::ValueRef;
use sqlite::{Alter, Connection, Error, Row, Transaction};
use std::alloc::Global;
use x12_acks::SetKey;
use x12_outbound::{Entry, EntryGroup, EntrySet, Fate};
use x12_tables::{TableFault, first_value, integer, long_in, read};

/// Where a transaction set stands: the number of its interchange, and the places of its group and
/// its own, from 1.
#[derive(Clone, Copy)]
struct Place {
    icn: u32,
    group: u64,
    set: u64,
}

/// Adds a transaction set of a group, as the row of this number.
fn add_set<'a, S: Alter>(
    tx: &mut Transaction<'_, S>,
    at: u64,
    place: Place,
    group: &'a EntryGroup,
    set: &'a EntrySet,
) -> Result<(), Error>
    ensures same_reference { tx.new.conn.ghost_name ≡ tx.old.conn.ghost_name }
    ensures part { IsPart (Turns (with_stored_set (set_of place.icn (place.group, group_row group.now)
        (place.set, set_row set.now))) (HasNextSet at)) result
        (state S.Store tx.old.conn.now) (state S.Store tx.new.conn.now) }
    ensures few { OnOk result (at < 2 ^ 63) }
{
    let at = integer(at)?;
    let group_place = integer(place.group)?;
    let set_place = integer(place.set)?;
    let fate = fate_value(set.fate);
    run(
        tx,
        "INSERT INTO outset (at, icn, grp, place, gcn, fate, functional, number) VALUES (?1, ?2, ?3, ?4, ?5, ?6, ?7, ?8)",
        &[
            ValueRef::Int(at),
            ValueRef::Int(i64::from(place.icn)),
            ValueRef::Int(group_place),
            ValueRef::Int(set_place),
            ValueRef::Int(i64::from(group.gcn)),
            ValueRef::Int(fate),
            ValueRef::Blob(&group.functional),
            ValueRef::Blob(set.number.as_bytes()),
        ],
    )
}

/// Adds the transaction sets of the group at this place, as rows from this number on; the next
/// number.
fn add_sets<S: Alter>(
    tx: &mut Transaction<'_, S>,
    at: u64,
    icn: u32,
    place: u64,
    group: &EntryGroup,
) -> Result<u64, Error>
    ensures same_reference { tx.new.conn.ghost_name ≡ tx.old.conn.ghost_name }
    ensures part { PartGoesOn (λ to. AddsSets at (rows_of_group icn (place, group_row group.now)) to)
        result (state S.Store tx.old.conn.now) (state S.Store tx.new.conn.now) }
{
    let mut next = at;
    for (i, set) in group.sets.iter().enumerate() {
        let place = Place {
            icn,
            group: place,
            set: i as u64 + 1,
        };
        add_set(tx, next, place, group, set)?;
        next += 1;
    }
    Ok(next)
}

/// Adds the transaction sets of a submission, as rows from this number on; the next number.
#[tactic(auto, unfolding(x12_station::specs::Stored::rows_of_entry))]
pub(crate) fn add_groups<S: Alter>(
    tx: &mut Transaction<'_, S>,
    at: u64,
    entry: &Entry,
) -> Result<u64, Error>
    ensures same_reference { tx.new.conn.ghost_name ≡ tx.old.conn.ghost_name }
    ensures part { PartGoesOn (λ to. AddsSets at (rows_of_entry (entry_row entry.now)) to) result
        (state S.Store tx.old.conn.now) (state S.Store tx.new.conn.now) }
{
    let mut next = at;
    for (i, group) in entry.groups.iter().enumerate() {
        next = add_sets(tx, next, entry.icn, i as u64 + 1, group)?;
    }
    Ok(next)
}

/// Gives a transaction set this fate.
fn settle_set<S: Alter>(tx: &mut Transaction<'_, S>, key: &SetKey, fate: Fate) -> Result<(), Error>
    ensures same_reference { tx.new.conn.ghost_name ≡ tx.old.conn.ghost_name }
    ensures part { IsPart (Turns (with_stored_fate (key_view key.now) fate) SetsOnce) result
        (state S.Store tx.old.conn.now) (state S.Store tx.new.conn.now) }
{
    run(
        tx,
        "UPDATE outset SET fate = ?4 WHERE icn = ?1 AND grp = ?2 AND place = ?3",
        &[
            ValueRef::Int(i64::from(key.icn)),
            ValueRef::Int(i64::from(key.group)),
            ValueRef::Int(i64::from(key.set)),
            ValueRef::Int(fate_value(fate)),
        ],
    )
}

/// Gives transaction sets these fates, one after the other.
pub(crate) fn settle<S: Alter>(
    tx: &mut Transaction<'_, S>,
    settled: &[(SetKey, Fate)],
) -> Result<(), Error>
    ensures same_reference { tx.new.conn.ghost_name ≡ tx.old.conn.ghost_name }
    ensures part { PartGoesOn (λ u. Turns (with_fates (map target_view settled.now)) SetsOnce) result
        (state S.Store tx.old.conn.now) (state S.Store tx.new.conn.now) }
{
    for (key, fate) in settled {
        settle_set(tx, key, *fate)?;
    }
    Ok(())
}

/// The fate in an answer of at most one row.
fn fate_in(rows: &[Row]) -> Result<Option<Fate>, Error>
    ensures { IfOk result (λ o. (f : _) →
        rows.now ≡ option_to_list (option_map fate_shown f) → o ≡ f) }
{
    match rows.first() {
        Some(row) => Ok(Some(fate_of(row.get(0)?)?)),
        None => Ok(None),
    }
}

/// How the submitted set at this place fares; `None` where no such set was submitted.
pub(crate) fn find_fate<S: Alter>(
    conn: &mut Connection<S>,
    key: &SetKey,
) -> Result<Option<Fate>, Error>
    ensures { StationAnswers (λ s o. o ≡ stored_fate s.sets (key_view key.now)) result
        (state S.Store conn.old) (state S.Store conn.new) }
{
    let rows = read(
        conn,
        "SELECT fate FROM outset WHERE icn = ?1 AND grp = ?2 AND place = ?3",
        &[
            ValueRef::Int(i64::from(key.icn)),
            ValueRef::Int(i64::from(key.group)),
            ValueRef::Int(i64::from(key.set)),
        ],
    )?;
    fate_in(&rows)
}

/// The groups of the submission of this number. Transaction sets out of order are a failure of the
/// device.
pub(crate) fn load_groups<S: Alter>(
    conn: &mut Connection<S>,
    icn: u32,
) -> Result<Vec<EntryGroup>, Error>
    ensures answers { StationAnswers (λ s v. rows_of_groups icn (map group_row v.items) ≡ sets_under
        icn s.sets) result (state S.Store conn.old) (state S.Store conn.new) }
    ensures whole { IfOk result (λ v. AreWhole (map group_row v.items)) }
{
    let rows = read(
        conn,
        "SELECT grp, place, functional, gcn, number, fate FROM outset WHERE icn = ?1 ORDER BY at",
        &[ValueRef::Int(i64::from(icn))],
    )?;
    groups_in_rows(*rows.allocator(), &rows)
}

/// The number of the submission that has a transaction set in a group of this number.
pub(crate) fn find_number<S: Alter>(
    conn: &mut Connection<S>,
    gcn: u32,
) -> Result<Option<u32>, Error>
    ensures { StationAnswers (λ s o. o ≡ number_of_group s.sets gcn) result
        (state S.Store conn.old) (state S.Store conn.new) }
{
    let rows = read(
        conn,
        "SELECT icn FROM outset WHERE gcn = ?1 ORDER BY at",
        &[ValueRef::Int(i64::from(gcn))],
    )?;
    first_value(&rows)
}

/// The numbers in rows.
pub(crate) fn numbers_in_rows(alloc: Global, rows: &[Row]) -> Result<Vec<u32>, Error>
    ensures { IfOk result (λ v. v.items ≡ map number_shown rows.now) }
{
    let mut numbers = Vec::new(alloc);
    for row in rows {
        let number: u32 = row.get(0)?;
        numbers.push(number)?;
    }
    Ok(numbers)
}

/// The numbers of the submissions of pending sets, one for each set, in the order of the sets.
pub(crate) fn load_open_numbers<S: Alter>(conn: &mut Connection<S>) -> Result<Vec<u32>, Error>
    ensures { StationAnswers (λ s v. v.items ≡ open_numbers s.sets) result
        (state S.Store conn.old) (state S.Store conn.new) }
{
    let rows = read(
        conn,
        "SELECT icn FROM outset WHERE fate = ?1 ORDER BY at",
        &[ValueRef::Int(0)],
    )?;
    numbers_in_rows(*rows.allocator(), &rows)
}

/// Tests that a column has the number of a fate.
fn test_fate(row: &Row, at: usize) -> Result<(), TableFault>
    ensures is { OnOk result (IsFate (column row.now at)) }
    ensures taken { TakesRows (IsFate (column row.now at)) Memory result }
{
    let number = long_in(row, at)?;
    let _fate = fate_of(number)?;
    Ok(())
}

/// Tests the numbers and codes of a transaction set, which has this place.
fn test_set(row: &Row, at: u64) -> Result<(), TableFault>
    ensures is { OnOk result (IsSetRow at row.now) }
    ensures taken { TakesRows (IsSetRow at row.now) Memory result }
{
    test_number(row, 0)?;
    test_number(row, 1)?;
    let _functional: [u8; 2] = code_in(row, 2)?;
    test_number(row, 3)?;
    let _number = set_number_in(row, 4)?;
    test_fate(row, 5)?;
    test_number(row, 6)?;
    test_place(row, 7, at)
}

/// The place of the next transaction set; the places count from 1.
pub(crate) fn next_set(rows: &[Row]) -> Result<u64, TableFault>
    ensures are { IfOk result (λ next. AreSetRows 1 next rows.now) }
    ensures taken { TakesRows ((next : ℕ) × AreSetRows 1 next rows.now) Memory result }
{
    let mut next = 1;
    for row in rows {
        test_set(row, next)?;
        next += 1;
    }
    Ok(next)
}
