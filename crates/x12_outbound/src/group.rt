//! Functional groups by their numbers, which rise over the interchanges of a ledger.
ghost use Rattle.std.specs.Prelude.{◌≡◌, ◌≢◌, ◌<◌, ◌-◌, ℕ, All, IfSome, IfNone, length};
ghost use Rattle.std.specs.Prelude.{slice_index_or, map};
ghost use Rattle.x12_outbound.specs.Entry.{group_row, last_number_of};
ghost use Rattle.x12_outbound.specs.Group.{groups_of_row, last_gcn, GcnsRise, GroupsRise, HasGroup};
ghost use Rattle.x12_outbound.specs.Group.{LacksGroup};

use crate::entry::EntryGroup;
use crate::row::Row;

/// The number of the last functional group; 0 where there is none.
pub fn last_number(groups: &[EntryGroup]) -> u32
    ensures groups { result ≡ last_gcn groups.now }
    ensures rows { result ≡ last_number_of (map group_row groups.now) }
{
    match groups.last() {
        Some(group) => group.gcn,
        None => 0,
    }
}

/// The one row that may hold the functional group of a number; the number of rows where none may.
fn row_of_group(rows: &[Row], number: u32) -> usize
    requires { GroupsRise rows.now }
    ensures { (k : ℕ) (d : Row) → k < length rows.now → k ≢ result →
        LacksGroup number (groups_of_row (slice_index_or rows.now k d)) }
{
    rows.partition_point(|row| last_number(&row.entry.groups) < number)
}

/// Finds a functional group by its number, among groups by rising number.
fn group_of(groups: &[EntryGroup], number: u32) -> Option<usize>
    requires { GcnsRise groups.now }
    ensures found { IfSome result (λ index. HasGroup number index groups.now) }
    ensures none { IfNone result (LacksGroup number groups.now) }
{
    groups.binary_search_by_key(&number, |group| group.gcn).ok()
}

/// Finds a functional group by its number: its row, and its index there.
pub(crate) fn find_group(rows: &[Row], number: u32) -> Option<(usize, usize)>
    requires { GroupsRise rows.now }
    ensures row { IfSome result (λ at. at.0 < length rows.now) }
    ensures found { IfSome result (λ at.
        (d : Row) → HasGroup number at.1 (groups_of_row (slice_index_or rows.now at.0 d))) }
    ensures none { IfNone result (All (λ r. LacksGroup number (groups_of_row r)) rows.now) }
{
    let at = row_of_group(rows, number);
    if at >= rows.len() {
        return None;
    }
    match group_of(&rows[at].entry.groups, number) {
        Some(index) => Some((at, index)),
        None => None,
    }
}
