//! The functional groups of a submission, from the rows of its transaction sets.

ghost use Rattle.std.specs.Prelude.{◌≡◌, ◌++◌, ◌+◌, ◌-◌, [], ◌∷◌, ℕ, ◌^◌, min, length, map, false};
ghost use Rattle.std.specs.Prelude.{IsTrue, IfOk, OnOk, ◌≤◌, take, drop};
ghost use Rattle.std.specs.List.{sum_by, AllByRecursion};
ghost use Rattle.sqlite.specs.declared.error.Error.TheVariants.{SqliteFailure};
ghost use Rattle.sqlite.specs.declared.error.ErrorCode.TheVariants.{OutOfMemory};
ghost use Rattle.sqlite.specs.Order.{column};
ghost use Rattle.sql_rows.specs.Keyed.{number_in};
ghost use Rattle.x12_outbound.specs.Entry.{group_row, set_row};
ghost use Rattle.x12_tables.specs.Adopt.{TakesRows};
ghost use Rattle.x12_tables.specs.declared.fault.TableFault.TheVariants.{Memory};
ghost use Rattle.x12_station_records.specs.StationAdopt.{AreSetRows, set_read, AreOfOne, AreOfAll};
ghost use Rattle.x12_station_records.specs.StationGroups.{EndsGroups, JoinsLast, StandsNext};
ghost use Rattle.x12_station_records.specs.StationGroups.{set_shown, placed_set_view};
ghost use Rattle.x12_station_records.specs.StationGroups.{set_row_shown, rows_of_groups};
ghost use Rattle.x12_station_records.specs.StationGroups.{are_rising, AreWhole, AreSendable};
ghost use Rattle.x12_station_records.specs.StationTaken.{HasSetRow, AreGroupRows, IsOther};
ghost use Rattle.x12_station_records.specs.StationTaken.{BeginWithOne, AreRowsOfOne, AreRowsOfAll};

use crate::station_loading::{above, are_within};
use crate::station_outset::next_set;
use crate::values::{code_in, fate_in_row, set_number_in};
use sqlite::{Error, Row};
use std::alloc::Global;
use x12_numbers::Book;
use x12_outbound::{EntryGroup, EntrySet};
use x12_tables::{TableFault, long_in, misplaced, number_in};

/// A transaction set of a submission, and where it stands.
#[derive(Clone, Copy)]
struct PlacedSet {
    /// The place of its group, from 1.
    group: u64,
    /// Its own place in the group, from 1.
    place: u64,
    /// GS01 of the group.
    functional: [u8; 2],
    /// GS06 of the group.
    gcn: u32,
    set: EntrySet,
}

/// The set in a row of all that is kept of it, as an entry has it.
fn set_in_row(row: &Row) -> Result<EntrySet, Error>
    ensures is { IfOk result (λ set. set_row set ≡ set_row_shown row.now) }
    ensures taken { TakesRows (HasSetRow row.now) (SqliteFailure OutOfMemory) result }
{
    Ok(EntrySet::new(set_number_in(row, 4)?, fate_in_row(row, 5)?))
}

/// The transaction set in a row, and where it stands.
fn placed_in_row(row: &Row) -> Result<PlacedSet, Error>
    ensures shown { IfOk result (λ p. (icn : ℕ) → placed_set_view icn p ≡ set_shown icn row.now) }
    ensures laid { IfOk result (λ p. (set_row p.set).is_out ≡ false) }
    ensures taken { TakesRows (HasSetRow row.now) (SqliteFailure OutOfMemory) result }
{
    Ok(PlacedSet {
        group: long_in(row, 0)?,
        place: long_in(row, 1)?,
        functional: code_in(row, 2)?,
        gcn: number_in(row, 3)?,
        set: set_in_row(row)?,
    })
}

/// Puts the first transaction set of a group behind those of the groups before it.
fn start_group(groups: &mut Vec<EntryGroup>, alloc: Global, placed: PlacedSet) -> Result<(), Error>
    requires first { placed.place ≡ 1 }
    requires laid { (set_row placed.set).is_out ≡ false }
    requires whole { AreWhole (map group_row groups.old.items) }
    ensures placed { OnOk result ((icn : ℕ) → rows_of_groups icn (map group_row groups.new.items)
        ≡ rows_of_groups icn (map group_row groups.old.items) ++ placed_set_view icn placed ∷ []) }
    ensures whole { OnOk result (AreWhole (map group_row groups.new.items)) }
    ensures ends { OnOk result (EndsGroups (map group_row groups.new.items)
        (placed_set_view 0 placed)) }
    ensures taken { TakesRows (placed.group ≡ length groups.old.items + 1)
        (SqliteFailure OutOfMemory) result }
{
    if placed.group != groups.len() as u64 + 1 {
        return Err(misplaced());
    }
    let mut sets = Vec::new(alloc);
    sets.push(placed.set)?;
    let functional = placed.functional;
    let gcn = placed.gcn;
    groups.push(EntryGroup {
        functional,
        gcn,
        sets,
    })?;
    Ok(())
}

/// Whether a transaction set is one of a group with these codes.
fn is_of(placed: &PlacedSet, group: &EntryGroup) -> bool
    ensures functional { IsTrue result → placed.now.functional ≡ group.now.functional }
    ensures gcn { IsTrue result → placed.now.gcn ≡ group.now.gcn }
    ensures met { placed.now.functional ≡ group.now.functional →
        placed.now.gcn ≡ group.now.gcn → IsTrue result }
{
    placed.functional == group.functional && placed.gcn == group.gcn
}

/// Whether a transaction set stands behind those of a group, which is at this place.
fn is_behind(placed: &PlacedSet, place: usize, group: &EntryGroup) -> bool
    ensures group { IsTrue result → placed.now.group ≡ place }
    ensures set { IsTrue result → placed.now.place ≡ length (group_row group.now).sets + 1 }
    ensures functional { IsTrue result → placed.now.functional ≡ group.now.functional }
    ensures gcn { IsTrue result → placed.now.gcn ≡ group.now.gcn }
    ensures met { placed.now.group ≡ place →
        placed.now.place ≡ length (group_row group.now).sets + 1 →
        placed.now.functional ≡ group.now.functional → placed.now.gcn ≡ group.now.gcn →
        IsTrue result }
{
    placed.group == place as u64
        && placed.place == group.sets.len() as u64 + 1
        && is_of(placed, group)
}

/// Puts a transaction set behind the others of the last group.
fn join_group(groups: &mut Vec<EntryGroup>, placed: PlacedSet) -> Result<(), Error>
    requires laid { (set_row placed.set).is_out ≡ false }
    requires whole { AreWhole (map group_row groups.old.items) }
    ensures placed { OnOk result ((icn : ℕ) → rows_of_groups icn (map group_row groups.new.items)
        ≡ rows_of_groups icn (map group_row groups.old.items) ++ placed_set_view icn placed ∷ []) }
    ensures whole { OnOk result (AreWhole (map group_row groups.new.items)) }
    ensures ends { OnOk result (EndsGroups (map group_row groups.new.items)
        (placed_set_view 0 placed)) }
    ensures taken { TakesRows ((front : _) × (g : _) × JoinsLast
        (map group_row groups.old.items) front g (placed_set_view 0 placed))
        (SqliteFailure OutOfMemory) result }
{
    let place = groups.len();
    let Some(mut group) = groups.pop() else {
        return Err(misplaced());
    };
    if !is_behind(&placed, place, &group) {
        return Err(misplaced());
    }
    group.sets.push(placed.set)?;
    groups.push(group)?;
    Ok(())
}

/// Puts a transaction set behind the others: into the last group, or into a new one.
fn put_set(groups: &mut Vec<EntryGroup>, alloc: Global, placed: PlacedSet) -> Result<(), Error>
    requires laid { (set_row placed.set).is_out ≡ false }
    requires whole { AreWhole (map group_row groups.old.items) }
    ensures placed { OnOk result ((icn : ℕ) → rows_of_groups icn (map group_row groups.new.items)
        ≡ rows_of_groups icn (map group_row groups.old.items) ++ placed_set_view icn placed ∷ []) }
    ensures whole { OnOk result (AreWhole (map group_row groups.new.items)) }
    ensures ends { OnOk result (EndsGroups (map group_row groups.new.items)
        (placed_set_view 0 placed)) }
    ensures taken { TakesRows ((last : _) × EndsGroups (map group_row groups.old.items) last
        × StandsNext last (placed_set_view 0 placed)) (SqliteFailure OutOfMemory) result }
{
    if placed.place == 1 {
        return start_group(groups, alloc, placed);
    }
    join_group(groups, placed)
}

/// The groups of a submission, from the rows of its transaction sets in their order.
pub(crate) fn groups_in_rows(alloc: Global, rows: &[Row]) -> Result<Vec<EntryGroup>, Error>
    ensures groups { IfOk result (λ v. (icn : ℕ) → rows_of_groups icn (map group_row v.items)
        ≡ map (set_shown icn) rows.now) }
    ensures whole { IfOk result (λ v. AreWhole (map group_row v.items)) }
    ensures taken { TakesRows (AreGroupRows rows.now) (SqliteFailure OutOfMemory) result }
{
    let mut groups = Vec::new(alloc);
    for row in rows {
        put_set(&mut groups, alloc, placed_in_row(row)?)?;
    }
    Ok(groups)
}

/// How many transaction sets groups have, up to 18446744073709551615.
fn set_count(groups: &[EntryGroup]) -> usize
    ensures { result
        ≡ min (sum_by (λ g. length g.sets) (map group_row groups.now)) (2 ^ 64 - 1) }
{
    let mut count = 0usize;
    for group in groups {
        count = count.saturating_add(group.sets.len());
    }
    count
}

/// Whether the numbers of groups rise, the first from this one on.
fn do_rise(from: u64, groups: &[EntryGroup]) -> bool
    ensures { result ≡ are_rising from (map group_row groups.now) }
{
    let mut least = from;
    for group in groups {
        if u64::from(group.gcn) < least {
            return false;
        }
        least = u64::from(group.gcn) + 1;
    }
    true
}

/// Whether a submission with these groups can be sent.
pub(crate) fn are_sendable(groups: &[EntryGroup]) -> bool
    ensures is { IsTrue result → AreSendable (map group_row groups.now) }
    ensures met { AreSendable (map group_row groups.now) → IsTrue result }
{
    if groups.is_empty() || groups.len() > 32 {
        return false;
    }
    if set_count(groups) > 400 {
        return false;
    }
    do_rise(0, groups)
}

/// How many rows at the front are those of transaction sets of this submission.
fn count_of(rows: &[Row], icn: u32) -> Result<usize, TableFault>
    ensures own { IfOk result (λ n.
        AllByRecursion (λ r. number_in (column r 6) ≡ icn) (take n rows.now)) }
    ensures other { IfOk result (λ n. IsOther icn (drop n rows.now)) }
    ensures within { IfOk result (λ n. n ≤ length rows.now) }
    ensures taken { TakesRows (AllByRecursion HasSetRow rows.now) Memory result }
{
    let mut count = 0;
    for row in rows {
        let own = number_in(row, 6)?;
        if own != icn {
            return Ok(count);
        }
        count += 1;
    }
    Ok(count)
}

/// Tests the transaction sets of one submission; the least number of a group of the next one.
fn least_behind(
    alloc: Global,
    rows: &[Row],
    icn: u32,
    book: Book,
    least: u64,
) -> Result<u64, TableFault>
    requires { AllByRecursion (λ r. number_in (column r 6) ≡ icn) rows.now }
    ensures one { IfOk result (λ next. AreOfOne book icn least next (map set_read rows.now)) }
    ensures taken { TakesRows (AreRowsOfOne book icn least rows.now) Memory result }
{
    let groups = groups_in_rows(alloc, rows)?;
    if !are_sendable(&groups) {
        return Err(TableFault::Store);
    }
    if !are_within(&groups, least, book.group()) {
        return Err(TableFault::Store);
    }
    Ok(above(least, &groups))
}

/// Tests the transaction sets of the first submission; the least number of a group of the next one,
/// and the rows behind.
fn rows_behind<'a>(
    alloc: Global,
    rows: &'a [Row],
    icn: u32,
    book: Book,
    least: u64,
) -> Result<(u64, &'a [Row]), TableFault>
    ensures is { IfOk result (λ x. (n : ℕ) × (x.1.now ≡ drop n rows.now)
        × BeginWithOne book icn least n x.0 rows.now) }
    ensures taken { TakesRows ((n next : ℕ) × BeginWithOne book icn least n next rows.now
        × AllByRecursion HasSetRow rows.now) Memory result }
{
    let count = count_of(rows, icn)?;
    let Some((own, behind)) = rows.split_at_checked(count) else {
        return Err(TableFault::Store);
    };
    let next = least_behind(alloc, own, icn, book, least)?;
    Ok((next, behind))
}

/// Tests that the transaction sets are those of these submissions, one submission after the other.
fn test_sent(alloc: Global, rows: &[Row], sent: &[(u32, u64)], book: Book) -> Result<(), TableFault>
    ensures are { OnOk result
        (AreOfAll book 0 (map (λ x. x.0) sent.now) (map set_read rows.now)) }
    ensures taken { TakesRows (AreRowsOfAll book (map (λ x. x.0) sent.now) rows.now)
        Memory result }
{
    let mut rest = rows;
    let mut least = 0;
    for submission in sent {
        let (next, behind) = rows_behind(alloc, rest, submission.0, book, least)?;
        rest = behind;
        least = next;
    }
    if !rest.is_empty() {
        return Err(TableFault::Store);
    }
    Ok(())
}

/// Tests the transaction sets of these submissions; the place of the next one.
pub(crate) fn next_set_of(
    alloc: Global,
    rows: &[Row],
    sent: &[(u32, u64)],
    book: Book,
) -> Result<u64, TableFault>
    ensures sets { IfOk result (λ next. AreSetRows 1 next rows.now) }
    ensures sent { OnOk result
        (AreOfAll book 0 (map (λ x. x.0) sent.now) (map set_read rows.now)) }
    ensures taken { TakesRows ((next : ℕ) × AreSetRows 1 next rows.now
        × AreRowsOfAll book (map (λ x. x.0) sent.now) rows.now) Memory result }
{
    test_sent(alloc, rows, sent, book)?;
    next_set(rows)
}
