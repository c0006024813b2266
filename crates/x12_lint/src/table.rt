//! The table: which segments a set has, and what their elements have to be.

ghost use Rattle.std.specs.Prelude.{◌≡◌, bytes_eq, find, option_map};
ghost use Rattle.std.specs.List.{list_any};
ghost use Rattle.x12_lint.specs.Linting.{rules_by_name};

use crate::element::Rule;
use std::alloc::Global;

/// The rules of a segment's elements.
#[derive(Drop)]
pub struct SegmentRules {
    /// The segment's identifier.
    pub segment: Vec<u8>,
    /// A rule for each element that has one.
    pub rules: Vec<Rule>,
}

/// A segment of a set.
#[derive(Drop)]
pub struct SegmentRow {
    /// Its identifier.
    pub segment: Vec<u8>,
    /// Whether the set has to have one.
    pub is_required: bool,
}

/// A count of a set: the first element of a segment counts other segments.
#[derive(Drop)]
pub struct Counting {
    /// The identifier of the segment that counts.
    pub segment: Vec<u8>,
    /// That of the segments that are counted.
    pub counted: Vec<u8>,
}

/// The segments of a set.
#[derive(Drop)]
pub struct SetRows {
    /// The set's identifier (ST01).
    pub set: Vec<u8>,
    /// Its segments, between ST and SE.
    pub segments: Vec<SegmentRow>,
    /// What is counted in it.
    pub counts: Vec<Counting>,
}

/// The table.
#[derive(Drop)]
pub struct Table {
    pub(crate) alloc: Global,
    /// The segments with rules.
    pub segments: Vec<SegmentRules>,
    /// The sets.
    pub sets: Vec<SetRows>,
}

/// The rules of the elements of a segment; none, where the table has none.
#[tactic(auto, unfolding(crate::specs::Linting::rules_by_name))]
pub fn rules_of_segment<'t>(table: &'t Table, name: &[u8]) -> &'t [Rule]
    ensures { result.now ≡ rules_by_name table.now name.now }
{
    match find_segment(&table.segments, name) {
        Some(row) => row.rules.as_slice(),
        None => &[],
    }
}

/// The row of a segment's elements.
fn find_segment<'t>(segments: &'t [SegmentRules], name: &[u8]) -> Option<&'t SegmentRules>
    ensures { option_map (λ r. r.now) result
        ≡ find (λ r. bytes_eq r.segment.items name.now) segments.now }
{
    for row in segments {
        if row.segment.as_slice() == name {
            return Some(row);
        }
    }
    None
}

/// The rows of a set.
fn find_set<'t>(sets: &'t [SetRows], set: &[u8]) -> Option<&'t SetRows>
    ensures { option_map (λ r. r.now) result
        ≡ find (λ r. bytes_eq r.set.items set.now) sets.now }
{
    for rows in sets {
        if rows.set.as_slice() == set {
            return Some(rows);
        }
    }
    None
}

/// The rows of a set.
pub(crate) fn rows_of_set<'t>(table: &'t Table, set: &[u8]) -> Option<&'t SetRows>
    ensures { option_map (λ r. r.now) result
        ≡ find (λ r. bytes_eq r.set.items set.now) table.now.sets.items }
{
    find_set(&table.sets, set)
}

/// Whether a segment is among those of a set.
pub(crate) fn has_row(rows: &[SegmentRow], name: &[u8]) -> bool
    ensures { result ≡ list_any (λ r. bytes_eq r.segment.items name.now) rows.now }
{
    for row in rows {
        if row.segment.as_slice() == name {
            return true;
        }
    }
    false
}
