//! Which interchanges can be written (X12.5, X12.6): those that are read back as they were meant.

ghost use Rattle.std.specs.Prelude.{◌≡◌, ◌^◌, ◌-◌, ◌≤◌, min, true, length, map};
ghost use Rattle.std.specs.List.{list_all, sum_by};
ghost use Rattle.x12_envelopes.specs.Envelope.{elements_view, segment_view, set_written};
ghost use Rattle.x12_envelopes.specs.Envelope.{group_written, envelope_view, written};
ghost use Rattle.x12_envelopes.specs.Fitting.{field_is_writable, ta1_is_writable, gs_is_writable};
ghost use Rattle.x12_envelopes.specs.Fitting.{st_is_writable, data_is_writable, set_is_writable};
ghost use Rattle.x12_envelopes.specs.Fitting.{group_is_writable, has_sizes, header_is_writable};
ghost use Rattle.x12_envelopes.specs.Fitting.{interchange_is_within_limits, interchange_fits};
ghost use Rattle.x12_envelopes.specs.Writing.{texts};

use crate::content::{Kind, kind_named};
use crate::delimiters::Delims;
use crate::element::{are_gs, are_st, are_ta1, is_segment, nth_element};
use crate::envelope::{Envelope, GroupEnvelope, SetEnvelope};
use crate::header::{HEADER_BYTES, MAX_INTERCHANGE_BYTES, holds_barred};
use crate::length::{groups_len, segments_len, trailer_len};
use crate::writing::zero_padded;

/// The greatest control number: nine digits.
const MAX_CONTROL_NUMBER: u32 = 999_999_999;

/// How many functional groups an interchange has at most.
const MAX_GROUPS: usize = 32;

/// How many transaction sets an interchange has at most.
const MAX_SETS: usize = 400;

/// Whether an element of ISA may hold a text: no delimiter and no byte below 0x20.
#[tactic(auto, unfolding(crate::specs::Fitting::field_is_writable))]
fn is_field(delims: &Delims, text: &[u8]) -> bool
    ensures { result ≡ field_is_writable delims.now text.now }
{
    !holds_barred(delims, text)
}

/// Whether a segment is a TA1 that can be written.
#[tactic(auto, using(crate::proofs::ContentLemmas::ta1_by_elements))]
fn is_ta1_segment(delims: &Delims, elements: &[Vec<u8>]) -> bool
    ensures { result ≡ ta1_is_writable delims.now (elements_view elements.now) }
{
    is_segment(delims, elements)
        && matches!(kind_named(nth_element(elements, 0)), Kind::Ta1)
        && are_ta1(elements)
}

/// Whether a segment is a GS that can be written.
#[tactic(auto, using(crate::proofs::ContentLemmas::gs_by_elements))]
fn is_gs_segment(delims: &Delims, elements: &[&[u8]]) -> bool
    ensures { result ≡ gs_is_writable delims.now (texts elements.now) }
{
    is_segment(delims, elements)
        && matches!(kind_named(nth_element(elements, 0)), Kind::Gs)
        && are_gs(elements)
}

/// Whether a segment is an ST that can be written.
#[tactic(auto, using(crate::proofs::ContentLemmas::st_by_elements))]
fn is_st_segment(delims: &Delims, elements: &[&[u8]]) -> bool
    ensures { result ≡ st_is_writable delims.now (texts elements.now) }
{
    is_segment(delims, elements)
        && matches!(kind_named(nth_element(elements, 0)), Kind::St)
        && are_st(elements)
}

/// Whether a segment is one of data that can be written: it has an identifier, no reserved one,
/// its last element isn't empty, and no element holds the element separator, the terminator or
/// a byte below 0x20 other than the component separator.
#[tactic(auto, using(crate::proofs::ContentLemmas::data_by_elements))]
pub fn is_data_segment(delims: &Delims, elements: &[Vec<u8>]) -> bool
    ensures { result ≡ data_is_writable delims.now (elements_view elements.now) }
{
    is_segment(delims, elements) && matches!(kind_named(nth_element(elements, 0)), Kind::Data)
}

/// Whether segments are TA1s that can be written.
fn are_ta1_segments(delims: &Delims, segments: &[Vec<Vec<u8>>]) -> bool
    ensures { result ≡ list_all (ta1_is_writable delims.now) (map segment_view segments.now) }
{
    for segment in segments {
        if !is_ta1_segment(delims, segment) {
            return false;
        }
    }
    true
}

/// Whether segments are of data and can be written.
fn are_data_segments(delims: &Delims, segments: &[Vec<Vec<u8>>]) -> bool
    ensures { result ≡ list_all (data_is_writable delims.now) (map segment_view segments.now) }
{
    for segment in segments {
        if !is_data_segment(delims, segment) {
            return false;
        }
    }
    true
}

/// Whether a transaction set can be written.
#[tactic(auto, unfolding(crate::specs::Fitting::set_is_writable))]
fn is_set(delims: &Delims, set: &SetEnvelope<'_>) -> bool
    ensures { result ≡ set_is_writable delims.now (set_written set.now) }
{
    is_st_segment(delims, &set.header) && are_data_segments(delims, set.segments)
}

/// Whether transaction sets can be written.
fn are_sets(delims: &Delims, sets: &[SetEnvelope<'_>]) -> bool
    ensures { result ≡ list_all (set_is_writable delims.now) (map set_written sets.now) }
{
    for set in sets {
        if !is_set(delims, set) {
            return false;
        }
    }
    true
}

/// Whether a functional group can be written.
#[tactic(auto, unfolding(crate::specs::Fitting::group_is_writable))]
fn is_group(delims: &Delims, group: &GroupEnvelope<'_>) -> bool
    ensures { result ≡ group_is_writable delims.now (group_written group.now) }
{
    is_gs_segment(delims, &group.header) && are_sets(delims, &group.sets)
}

/// Whether functional groups can be written.
fn are_groups(delims: &Delims, groups: &[GroupEnvelope<'_>]) -> bool
    ensures { result ≡ list_all (group_is_writable delims.now) (map group_written groups.now) }
{
    for group in groups {
        if !is_group(delims, group) {
            return false;
        }
    }
    true
}

/// How many transaction sets there are.
fn set_count(groups: &[GroupEnvelope<'_>]) -> usize
    ensures { result ≡
        min (sum_by (λ g. length g.sets) (map group_written groups.now)) (2 ^ 64 - 1) }
{
    let mut count = 0usize;
    for group in groups {
        count = count.saturating_add(group.sets.as_slice().len());
    }
    count
}

/// Whether ISA can be read.
#[tactic(auto, unfolding(crate::specs::Fitting::header_is_writable))]
fn is_header(envelope: &Envelope<'_>) -> bool
    ensures header { result ≡ header_is_writable (envelope_view envelope.now) }
    ensures number { result ≡ true → envelope.now.icn ≤ 999999999 }
    ensures sizes { has_sizes (envelope_view envelope.now) ≡ true }
{
    let Envelope {
        delims,
        sender,
        receiver,
        at,
        icn,
        ack,
        usage,
        ..
    } = envelope;
    let (date, time) = (at.date(), at.time());
    let (_, date) = date.split_at(2);
    delims.can_delimit()
        && *icn <= MAX_CONTROL_NUMBER
        && is_field(delims, &sender.qualifier)
        && is_field(delims, &sender.id)
        && is_field(delims, &receiver.qualifier)
        && is_field(delims, &receiver.id)
        && is_field(delims, date)
        && is_field(delims, &time)
        && is_field(delims, &[*ack])
        && is_field(delims, &[*usage])
}

/// How many bytes `write` writes of an interchange, whether it fits or not.
pub fn written_len(envelope: &Envelope<'_>) -> usize
    requires { envelope.now.icn ≤ 999999999 }
    ensures { result ≡ min (length (written (envelope_view envelope.now))) (2 ^ 64 - 1) }
{
    let Envelope {
        delims,
        icn,
        tas,
        groups,
        ..
    } = envelope;
    let number = zero_padded::<9>(*icn);
    HEADER_BYTES
        .saturating_add(segments_len(delims, tas))
        .saturating_add(groups_len(delims, groups))
        .saturating_add(trailer_len(delims, b"IEA", groups.as_slice().len(), &number))
}

/// Whether an interchange is within the limits: 32 functional groups, 400 transaction sets and
/// 1,048,576 bytes.
#[tactic(auto, unfolding(crate::specs::Fitting::interchange_is_within_limits))]
fn is_within_limits(envelope: &Envelope<'_>) -> bool
    requires { envelope.now.icn ≤ 999999999 }
    ensures { result ≡ interchange_is_within_limits (envelope_view envelope.now) }
{
    envelope.groups.as_slice().len() <= MAX_GROUPS
        && set_count(&envelope.groups) <= MAX_SETS
        && written_len(envelope) <= MAX_INTERCHANGE_BYTES
}

/// Whether an interchange can be written and read back as it was meant: its delimiters can delimit,
/// its parties, moment and indicators are as ISA may hold them, its number has at most nine digits,
/// the contents of its TA1s, GS and ST can be read, its other segments are of data, no element
/// holds the element separator, the terminator or a byte below 0x20 other than the component
/// separator, no segment ends in an empty element, and it has at most 32 functional groups, 400
/// transaction sets and 1,048,576 bytes. Takes no memory.
#[tactic(auto, unfolding(crate::specs::Fitting::interchange_fits))]
pub fn fits(envelope: &Envelope<'_>) -> bool
    ensures fits { result ≡ interchange_fits (envelope_view envelope.now) }
{
    is_header(envelope)
        && are_ta1_segments(&envelope.delims, &envelope.tas)
        && are_groups(&envelope.delims, &envelope.groups)
        && is_within_limits(envelope)
}
