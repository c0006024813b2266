//! Whether postings are the same, and submissions.

ghost use Rattle.std.specs.Prelude.{◌≡◌, IsTrue, map};
ghost use Rattle.x12_inbound.specs.Posting.{posting_view};
ghost use Rattle.x12_outbound.specs.Entry.{entry_row, group_row, set_row};
ghost use Rattle.x12_verify.specs.Entries.{entry_at_rest, group_at_rest, set_at_rest};

use x12_inbound::Posting;
use x12_outbound::{Entry, EntryGroup, EntrySet};

/// Whether two postings are the same.
pub(crate) fn is_same_posting(one: &Posting, other: &Posting) -> bool
    ensures { IsTrue result → posting_view one.now ≡ posting_view other.now }
{
    one.key == other.key
        && one.functional == other.functional
        && one.set == other.set
        && one.number == other.number
        && one.bytes.as_slice() == other.bytes.as_slice()
}

/// Whether two submitted sets have one number and one fate.
fn is_same_set(one: &EntrySet, other: &EntrySet) -> bool
    ensures { IsTrue result → set_at_rest (set_row one.now) ≡ set_at_rest (set_row other.now) }
{
    one.number == other.number && one.fate == other.fate
}

/// Whether two lists of submitted sets are the same.
fn are_same_sets(one: &[EntrySet], other: &[EntrySet]) -> bool
    ensures { IsTrue result →
        map set_at_rest (map set_row one.now) ≡ map set_at_rest (map set_row other.now) }
{
    let (mut left, mut right) = (one, other);
    while let Some((set, more)) = left.split_first() {
        let Some((its, rest)) = right.split_first() else {
            return false;
        };
        if !is_same_set(set, its) {
            return false;
        }
        left = more;
        right = rest;
    }
    right.is_empty()
}

/// Whether two submitted groups are the same.
fn is_same_group(one: &EntryGroup, other: &EntryGroup) -> bool
    ensures { IsTrue result →
        group_at_rest (group_row one.now) ≡ group_at_rest (group_row other.now) }
{
    one.functional == other.functional
        && one.gcn == other.gcn
        && are_same_sets(&one.sets, &other.sets)
}

/// Whether two lists of submitted groups are the same.
fn are_same_groups(one: &[EntryGroup], other: &[EntryGroup]) -> bool
    ensures { IsTrue result →
        map group_at_rest (map group_row one.now) ≡ map group_at_rest (map group_row other.now) }
{
    let (mut left, mut right) = (one, other);
    while let Some((group, more)) = left.split_first() {
        let Some((its, rest)) = right.split_first() else {
            return false;
        };
        if !is_same_group(group, its) {
            return false;
        }
        left = more;
        right = rest;
    }
    right.is_empty()
}

/// Whether two submissions are the same, with the fates of their sets.
pub(crate) fn is_same_entry(one: &Entry, other: &Entry) -> bool
    ensures { IsTrue result →
        entry_at_rest (entry_row one.now) ≡ entry_at_rest (entry_row other.now) }
{
    one.icn == other.icn
        && one.partner == other.partner
        && one.bytes.as_slice() == other.bytes.as_slice()
        && are_same_groups(&one.groups, &other.groups)
}
