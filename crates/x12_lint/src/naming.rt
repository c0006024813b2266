//! The segments of a set by their identifiers.

ghost use Rattle.std.specs.Prelude.{◌≡◌, length, filter, find, option_map};
ghost use Rattle.std.specs.List.{list_any, enumerate_from};
ghost use Rattle.x12_envelopes.specs.Writing.{texts};
ghost use Rattle.x12_lint.specs.Linting.{part_is_named, placed_at};

use x12_envelopes::{Delims, Segment};

/// A segment, as its elements are read.
pub(crate) fn read_of<'r>(delims: &Delims, part: &'r [u8]) -> Segment<'r>
    ensures bytes { result.bytes.now ≡ part.now }
    ensures delims { result.delims ≡ delims.now }
{
    Segment {
        bytes: part,
        delims: *delims,
    }
}

/// Whether a segment has this identifier.
pub(crate) fn has_name(delims: &Delims, name: &[u8], part: &[u8]) -> bool
    ensures { result ≡ part_is_named delims.now name.now part.now }
{
    read_of(delims, part).identifier() == name
}

/// Whether some segment has this identifier.
pub(crate) fn some_has_name(delims: &Delims, name: &[u8], parts: &[&[u8]]) -> bool
    ensures { result ≡ list_any (part_is_named delims.now name.now) (texts parts.now) }
{
    for part in parts {
        if has_name(delims, name, part) {
            return true;
        }
    }
    false
}

/// How many segments have this identifier.
pub(crate) fn count_named(delims: &Delims, name: &[u8], parts: &[&[u8]]) -> usize
    ensures { result ≡ length (filter (part_is_named delims.now name.now) (texts parts.now)) }
{
    let mut count = 0usize;
    for part in parts {
        if has_name(delims, name, part) {
            count += 1;
        }
    }
    count
}

/// A segment, and its position in its set.
#[derive(Clone, Copy)]
pub(crate) struct Place<'r> {
    pub position: usize,
    pub segment: &'r [u8],
}

/// The first segment with this identifier.
pub(crate) fn first_named<'r>(delims: &Delims, name: &[u8], parts: &[&'r [u8]]) -> Option<Place<'r>>
    ensures { option_map (λ p. placed_at p.position p.segment.now) result
        ≡ find (λ p. part_is_named delims.now name.now p.1) (enumerate_from 1 (texts parts.now)) }
{
    for (index, part) in parts.iter().enumerate() {
        if has_name(delims, name, part) {
            return Some(Place {
                position: index + 1,
                segment: part,
            });
        }
    }
    None
}
