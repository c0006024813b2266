//! What is looked up among submissions in memory.

ghost use Rattle.std.specs.Prelude.{◌≡◌, ◌≢◌, ◌==◌, ◌&&◌, ◌<◌, ℕ, not, find, filter, map, length};
ghost use Rattle.std.specs.Prelude.{IfOk, false, option_map, option_and_then, slice_index_or};
ghost use Rattle.std.specs.List.{list_any};
ghost use Rattle.x12_outbound.specs.Entry.{set_row, group_row, entry_row, set_row_at, row_is_open};
ghost use Rattle.x12_station.specs.Stored.{is_group_named};
ghost use Rattle.x12_station.specs.Memory.{numbered_row, entries_in, RowsRise, AreOrdered};
ghost use Rattle.x12_station.specs.Memory.{only_if, is_closed_numbered, is_closed_with};

use crate::submissions::{NumberedEntry, find_row};
use std::alloc::{AllocError, Global};
use x12_acks::SetKey;
use x12_envelopes::Party;
use x12_outbound::{Entry, EntryGroup, EntrySet, group_at, last_number, set_at};

/// Whether a group has this code and number.
pub fn has_group(groups: &[EntryGroup], functional: [u8; 2], gcn: u32) -> bool
    ensures { result ≡ list_any (is_group_named functional gcn) (map group_row groups.now) }
{
    for group in groups {
        if group.functional == functional && group.gcn == gcn {
            return true;
        }
    }
    false
}

/// The submission of this number.
pub(crate) fn row_of<'a>(rows: &'a [NumberedEntry], icn: u32) -> Option<&'a NumberedEntry>
    requires { RowsRise (map numbered_row rows.now) }
    ensures { option_map (λ n. numbered_row n.now) result
        ≡ find (λ n. n.entry.icn == icn) (map numbered_row rows.now) }
{
    match find_row(rows, icn) {
        Some(index) => Some(&rows[index]),
        None => None,
    }
}

/// The submission, where none of its sets is pending.
fn closed<'a>(entry: &'a Entry) -> Option<&'a Entry>
    ensures { option_map (λ e. entry_row e.now) result
        ≡ only_if (λ e. not (row_is_open e)) (entry_row entry.now) }
{
    if entry.is_open() { None } else { Some(entry) }
}

/// The submission of this number, where none of its sets is pending.
pub(crate) fn closed_of<'a>(rows: &'a [NumberedEntry], icn: u32) -> Option<&'a Entry>
    requires { RowsRise (map numbered_row rows.now) }
    ensures { option_map (λ e. entry_row e.now) result
        ≡ find (is_closed_numbered icn) (entries_in (map numbered_row rows.now)) }
{
    match row_of(rows, icn) {
        Some(row) => closed(&row.entry),
        None => None,
    }
}

/// The transaction set of a key; its sender isn't looked at.
#[tactic(auto, unfolding(x12_outbound::specs::Entry::set_row_at))]
pub(crate) fn set_of(rows: &[NumberedEntry], key: &SetKey) -> Option<EntrySet>
    requires { RowsRise (map numbered_row rows.now) }
    ensures { option_map set_row result
        ≡ option_and_then (λ n. set_row_at key.now.group key.now.set n.entry)
        (find (λ n. n.entry.icn == key.now.icn) (map numbered_row rows.now)) }
{
    let Some(row) = row_of(rows, key.icn) else {
        return None;
    };
    let Some(group) = group_at(&row.entry.groups, key.group) else {
        return None;
    };
    set_at(&group.sets, key.set)
}

/// The one submission that may have the functional group of a number; the number of submissions
/// where none may.
fn row_of_group(rows: &[NumberedEntry], number: u32) -> usize
    requires { AreOrdered (map numbered_row rows.now) }
    ensures { (k : ℕ) (d : NumberedEntry) → k < length rows.now → k ≢ result →
        list_any (λ g. g.number == number)
        (numbered_row (slice_index_or rows.now k d)).entry.groups ≡ false }
{
    rows.partition_point(|row| last_number(&row.entry.groups) < number)
}

/// The submission, where it is to this partner, has this group, and none of its sets is pending.
fn closed_with<'a>(
    entry: &'a Entry,
    partner: &Party,
    functional: [u8; 2],
    gcn: u32,
) -> Option<&'a Entry>
    ensures { option_map (λ e. entry_row e.now) result
        ≡ only_if (is_closed_with partner.now functional gcn) (entry_row entry.now) }
{
    if entry.partner == *partner && has_group(&entry.groups, functional, gcn) && !entry.is_open() {
        Some(entry)
    } else {
        None
    }
}

/// The submission to this partner with this group, where none of its sets is pending.
pub(crate) fn closed_with_group<'a>(
    rows: &'a [NumberedEntry],
    partner: &Party,
    functional: [u8; 2],
    gcn: u32,
) -> Option<&'a Entry>
    requires { AreOrdered (map numbered_row rows.now) }
    ensures { option_map (λ e. entry_row e.now) result
        ≡ find (is_closed_with partner.now functional gcn)
        (entries_in (map numbered_row rows.now)) }
{
    let at = row_of_group(rows, gcn);
    if at >= rows.len() {
        return None;
    }
    closed_with(&rows[at].entry, partner, functional, gcn)
}

/// Copies of the submissions with a pending set.
pub(crate) fn open_entries(alloc: Global, rows: &[NumberedEntry]) -> Result<Vec<Entry>, AllocError>
    ensures { IfOk result (λ v. map entry_row v.items
        ≡ filter row_is_open (entries_in (map numbered_row rows.now))) }
{
    let mut entries = Vec::new(alloc);
    for row in rows {
        if row.entry.is_open() {
            entries.push(row.entry.copied(alloc)?)?;
        }
    }
    Ok(entries)
}
