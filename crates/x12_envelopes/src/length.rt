//! How long an interchange is as it is written: its length, or `usize::MAX` where it is longer.

ghost use Rattle.std.specs.Prelude.{◌≡◌, ◌^◌, ◌-◌, ◌∷◌, [], length, min, map, flat_map, decimal};
ghost use Rattle.x12_envelopes.specs.Envelope.{set_segments, group_segments, segment_view};
ghost use Rattle.x12_envelopes.specs.Envelope.{set_written, group_written};
ghost use Rattle.x12_envelopes.specs.Segment.{segment_text, text_of};

use crate::delimiters::Delims;
use crate::element::nth_element;
use crate::envelope::{GroupEnvelope, SetEnvelope};
use itoa::Buffer;
use std::convert::AsSlice;

/// The length of a written segment.
fn segment_len<E: AsSlice<u8>>(delims: &Delims, elements: &[E]) -> usize
    ensures { result ≡ min (length (segment_text delims.now
        (map E.items elements.now))) (2 ^ 64 - 1) }
{
    let mut len = 0usize;
    for element in elements {
        len = len
            .saturating_add(element.as_slice().len())
            .saturating_add(1);
    }
    len.max(1)
}

/// The length of written segments.
pub(crate) fn segments_len(delims: &Delims, segments: &[Vec<Vec<u8>>]) -> usize
    ensures { result ≡ min (length (text_of delims.now
        (map segment_view segments.now))) (2 ^ 64 - 1) }
{
    let mut len = 0usize;
    for segment in segments {
        len = len.saturating_add(segment_len(delims, segment));
    }
    len
}

/// The length of a written trailer, with its count and its control number.
#[tactic(auto, unfolding(crate::specs::Segment::segment_text))]
pub(crate) fn trailer_len(delims: &Delims, identifier: &[u8], count: usize, number: &[u8]) -> usize
    ensures { result ≡ min (length (segment_text delims.now
        (identifier.now ∷ decimal count ∷ number.now ∷ []))) (2 ^ 64 - 1) }
{
    let mut buffer = Buffer::new();
    let digits = buffer.format(count).as_bytes().len();
    identifier
        .len()
        .saturating_add(digits)
        .saturating_add(number.len())
        .saturating_add(3)
}

/// The length of a written transaction set.
fn set_len(delims: &Delims, set: &SetEnvelope<'_>) -> usize
    ensures { result ≡ min (length (text_of delims.now
        (set_segments (set_written set.now)))) (2 ^ 64 - 1) }
{
    let header = segment_len(delims, &set.header);
    let segments = segments_len(delims, set.segments);
    let number = nth_element(&set.header, 2);
    let trailer = trailer_len(delims, b"SE", set.segments.len() + 2, number);
    header.saturating_add(segments).saturating_add(trailer)
}

/// The length of written transaction sets.
fn sets_len(delims: &Delims, sets: &[SetEnvelope<'_>]) -> usize
    ensures { result ≡ min (length (text_of delims.now
        (flat_map set_segments (map set_written sets.now)))) (2 ^ 64 - 1) }
{
    let mut len = 0usize;
    for set in sets {
        len = len.saturating_add(set_len(delims, set));
    }
    len
}

/// The length of a written functional group.
fn group_len(delims: &Delims, group: &GroupEnvelope<'_>) -> usize
    ensures { result ≡ min (length (text_of delims.now
        (group_segments (group_written group.now)))) (2 ^ 64 - 1) }
{
    let header = segment_len(delims, &group.header);
    let sets = sets_len(delims, &group.sets);
    let number = nth_element(&group.header, 6);
    let trailer = trailer_len(delims, b"GE", group.sets.len(), number);
    header.saturating_add(sets).saturating_add(trailer)
}

/// The length of written functional groups.
pub(crate) fn groups_len(delims: &Delims, groups: &[GroupEnvelope<'_>]) -> usize
    ensures { result ≡ min (length (text_of delims.now
        (flat_map group_segments (map group_written groups.now)))) (2 ^ 64 - 1) }
{
    let mut len = 0usize;
    for group in groups {
        len = len.saturating_add(group_len(delims, group));
    }
    len
}
