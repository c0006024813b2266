//! Writing segments (X12.6): each is an identifier and elements, each behind an element separator,
//! and ends in the terminator.

ghost use Rattle.std.specs.Prelude.{◌≡◌, ◌<◌, ◌≤◌, ◌^◌, ◌+◌, ◌++◌, OnOk, OnErr, IfOk, [], ◌∷◌, map};
ghost use Rattle.std.specs.Prelude.{flat_map, decimal, codes, replicate, length, take, drop};
ghost use Rattle.std.specs.Io.{StartsWith};
ghost use Rattle.x12_envelopes.specs.Byte.{zero_padded_number};
ghost use Rattle.x12_envelopes.specs.Letter.{space};
ghost use Rattle.x12_envelopes.specs.Envelope.{segment_of_header, group_segments};
ghost use Rattle.x12_envelopes.specs.Envelope.{set_segments, elements_view, segment_view};
ghost use Rattle.x12_envelopes.specs.Envelope.{set_written, group_written, envelope_view, written};
ghost use Rattle.x12_envelopes.specs.Segment.{segment_text, text_of};
ghost use Rattle.x12_envelopes.specs.Writing.{texts};

use crate::appending::{
    push_element, push_elements, push_identifier, push_number, push_terminator,
};
use crate::delimiters::Delims;
use crate::element::nth_element;
use crate::envelope::{Envelope, GroupEnvelope, SetEnvelope};
use crate::fitting::written_len;
use crate::header::{HEADER_BYTES, Header, STANDARD, VERSION};
use crate::party::Party;
use std::alloc::{AllocError, Global};

/// Appends the written text of a segment: its elements, the first its identifier, then the
/// terminator. On want of memory a part of it may stand behind what stood in `out`.
#[tactic(auto, using(crate::proofs::FrontLemmas::starts_trans), unfolding(crate::specs::Segment::segment_text))]
fn append_segment(out: &mut Vec<u8>, delims: &Delims, elements: &[&[u8]]) -> Result<(), AllocError>
    ensures written { OnOk result (out.new.items ≡
        out.old.items ++ segment_text delims.now (texts elements.now)) }
    ensures front { OnErr result (StartsWith out.new.items out.old.items) }
{
    let Some((identifier, rest)) = elements.split_first() else {
        return push_terminator(out, delims);
    };
    push_identifier(out, identifier)?;
    push_elements(out, delims, rest)?;
    push_terminator(out, delims)
}

/// Appends the written text of a segment: its elements, the first its identifier, then the
/// terminator. On want of memory `out` is what it was.
pub fn push_segment(
    out: &mut Vec<u8>,
    delims: &Delims,
    elements: &[&[u8]],
) -> Result<(), AllocError>
    ensures written { OnOk result (out.new.items ≡
        out.old.items ++ segment_text delims.now (texts elements.now)) }
    ensures unchanged { OnErr result (out.new.items ≡ out.old.items) }
{
    let before = out.len();
    let pushed = append_segment(out, delims, elements);
    if pushed.is_err() {
        out.truncate(before);
    }
    pushed
}

/// A number in N digits, with leading zeros.
pub fn zero_padded<const N: usize>(n: u32) -> [u8; N]
    requires some { 0 < N }
    requires fits { n < 10 ^ N }
    ensures padded { result ≡ zero_padded_number N n }
{
    let mut digits = [b'0'; N];
    let mut left = n;
    let mut missing = N;
    while missing > 0 {
        missing -= 1;
        digits[missing] = b'0' + (left % 10) as u8;
        left /= 10;
    }
    digits
}

/// Puts a part into a text, over what stands there.
pub(crate) fn put(text: &mut [u8], at: usize, part: &[u8])
    requires within { at + length part.now ≤ length text.old }
    ensures put { text.new ≡
        take at text.old ++ (part.now ++ drop (at + length part.now) text.old) }
{
    text[at..at + part.len()].copy_from_slice(part);
}

/// ISA up to ISA04: no authorization and no security information.
fn text_of_no_security(element: u8) -> [u8; 31]
    ensures { result ≡ codes "ISA" ++ flat_map (λ e. element ∷ e)
        (codes "00" ∷ replicate 10 space ∷ codes "00" ∷ replicate 10 space ∷ []) }
{
    let mut text = *b"ISA*00*          *00*          ";
    text[3] = element;
    text[6] = element;
    text[17] = element;
    text[20] = element;
    text
}

/// A party in ISA: ISA05 and ISA06, or ISA07 and ISA08.
fn text_of_party(element: u8, party: &Party) -> [u8; 19]
    ensures { result ≡
        flat_map (λ e. element ∷ e) (party.now.qualifier ∷ party.now.id ∷ []) }
{
    let mut text = [element; 19];
    put(&mut text, 1, &party.qualifier);
    put(&mut text, 4, &party.id);
    text
}

/// When an interchange was made, and after which controls: ISA09 to ISA12.
fn text_of_making(header: &Header) -> [u8; 20]
    ensures { result ≡ flat_map (λ e. header.now.delims.element ∷ e)
        (header.now.date ∷ header.now.time ∷ (header.now.standard ∷ []) ∷ header.now.version ∷ []) }
{
    let mut text = [header.delims.element; 20];
    put(&mut text, 1, &header.date);
    put(&mut text, 8, &header.time);
    text[13] = header.standard;
    put(&mut text, 15, &header.version);
    text
}

/// The end of ISA: ISA13 to ISA16, and the terminator.
fn text_of_end(header: &Header) -> [u8; 17]
    requires nine_digits { header.now.icn ≤ 999999999 }
    ensures { result ≡ flat_map (λ e. header.now.delims.element ∷ e)
        (zero_padded_number 9 header.now.icn ∷ (header.now.ack ∷ []) ∷ (header.now.usage ∷ [])
        ∷ (header.now.delims.component ∷ []) ∷ []) ++ header.now.delims.terminator ∷ [] }
{
    let mut text = [header.delims.element; 17];
    put(&mut text, 1, &zero_padded::<9>(header.icn));
    text[11] = header.ack;
    text[13] = header.usage;
    text[15] = header.delims.component;
    text[16] = header.delims.terminator;
    text
}

/// ISA (X12.5) with the fields of a header.
fn header_text(header: &Header) -> [u8; HEADER_BYTES]
    requires nine_digits { header.now.icn ≤ 999999999 }
    ensures { result ≡ segment_text header.now.delims (segment_of_header header.now) }
{
    let (from, to) = (&header.sender, &header.receiver);
    let element = header.delims.element;
    let mut text = [0; HEADER_BYTES];
    put(&mut text, 0, &text_of_no_security(element));
    put(&mut text, 31, &text_of_party(element, from));
    put(&mut text, 50, &text_of_party(element, to));
    put(&mut text, 69, &text_of_making(header));
    put(&mut text, 89, &text_of_end(header));
    text
}

/// Appends ISA (X12.5) with the fields of a header, no authorization and no security information. Its
/// control number is at most 999999999. On want of memory `out` is what it was.
pub fn push_header(out: &mut Vec<u8>, header: &Header) -> Result<(), AllocError>
    requires nine_digits { header.now.icn ≤ 999999999 }
    ensures written { OnOk result (out.new.items ≡
        out.old.items ++ segment_text header.now.delims (segment_of_header header.now)) }
    ensures unchanged { OnErr result (out.new.items ≡ out.old.items) }
{
    out.extend_from_slice(&header_text(header))
}

/// Appends the written text of a segment whose elements are owned.
#[tactic(auto, unfolding(crate::specs::Segment::segment_text))]
fn push_owned(out: &mut Vec<u8>, delims: &Delims, elements: &[Vec<u8>]) -> Result<(), AllocError>
    ensures written { OnOk result (out.new.items ≡
        out.old.items ++ segment_text delims.now (elements_view elements.now)) }
{
    let Some((identifier, behind)) = elements.split_first() else {
        return push_terminator(out, delims);
    };
    push_identifier(out, identifier)?;
    for element in behind {
        push_element(out, delims, element)?;
    }
    push_terminator(out, delims)
}

/// Appends the written text of segments, one behind the other.
fn push_segments(
    out: &mut Vec<u8>,
    delims: &Delims,
    segments: &[Vec<Vec<u8>>],
) -> Result<(), AllocError>
    ensures written { OnOk result (out.new.items ≡
        out.old.items ++ text_of delims.now (map segment_view segments.now)) }
{
    for segment in segments {
        push_owned(out, delims, segment)?;
    }
    Ok(())
}

/// Appends the written text of a trailer: SE, GE or IEA, with its count and its control number.
#[tactic(auto, unfolding(crate::specs::Segment::segment_text))]
fn push_trailer(
    out: &mut Vec<u8>,
    delims: &Delims,
    identifier: &[u8],
    count: usize,
    number: &[u8],
) -> Result<(), AllocError>
    ensures written { OnOk result (out.new.items ≡ out.old.items
        ++ segment_text delims.now (identifier.now ∷ decimal count ∷ number.now ∷ [])) }
{
    push_identifier(out, identifier)?;
    push_number(out, delims, count as u64)?;
    push_element(out, delims, number)?;
    push_terminator(out, delims)
}

/// Appends a transaction set: ST, its segments, SE.
fn push_set(out: &mut Vec<u8>, delims: &Delims, set: &SetEnvelope<'_>) -> Result<(), AllocError>
    ensures written { OnOk result (out.new.items ≡
        out.old.items ++ text_of delims.now (set_segments (set_written set.now))) }
{
    append_segment(out, delims, &set.header)?;
    push_segments(out, delims, set.segments)?;
    push_trailer(
        out,
        delims,
        b"SE",
        set.segments.len() + 2,
        nth_element(&set.header, 2),
    )
}

/// Appends transaction sets, one behind the other.
fn push_sets(out: &mut Vec<u8>, delims: &Delims, sets: &[SetEnvelope<'_>]) -> Result<(), AllocError>
    ensures written { OnOk result (out.new.items ≡
        out.old.items ++ text_of delims.now (flat_map set_segments (map set_written sets.now))) }
{
    for set in sets {
        push_set(out, delims, set)?;
    }
    Ok(())
}

/// Appends a functional group: GS, its transaction sets, GE.
fn push_group(
    out: &mut Vec<u8>,
    delims: &Delims,
    group: &GroupEnvelope<'_>,
) -> Result<(), AllocError>
    ensures written { OnOk result (out.new.items ≡
        out.old.items ++ text_of delims.now (group_segments (group_written group.now))) }
{
    append_segment(out, delims, &group.header)?;
    push_sets(out, delims, &group.sets)?;
    push_trailer(
        out,
        delims,
        b"GE",
        group.sets.len(),
        nth_element(&group.header, 6),
    )
}

/// Appends functional groups, one behind the other.
fn push_groups(
    out: &mut Vec<u8>,
    delims: &Delims,
    groups: &[GroupEnvelope<'_>],
) -> Result<(), AllocError>
    ensures written { OnOk result (out.new.items ≡ out.old.items
        ++ text_of delims.now (flat_map group_segments (map group_written groups.now))) }
{
    for group in groups {
        push_group(out, delims, group)?;
    }
    Ok(())
}

/// Writes an interchange.
#[tactic(auto, unfolding(crate::specs::Envelope::written))]
pub fn write(alloc: Global, envelope: &Envelope<'_>) -> Result<Vec<u8>, AllocError>
    requires nine_digits { envelope.now.icn ≤ 999999999 }
    ensures written { IfOk result (λ v. v.items ≡ written (envelope_view envelope.now)) }
{
    let Envelope {
        delims,
        sender,
        receiver,
        at,
        icn,
        ack,
        usage,
        tas,
        groups,
    } = envelope;
    let mut out = Vec::with_capacity(alloc, written_len(envelope))?;
    let header = Header {
        delims: *delims,
        sender: *sender,
        receiver: *receiver,
        date: at.short_date(),
        time: at.time(),
        standard: STANDARD,
        version: VERSION,
        icn: *icn,
        ack: *ack,
        usage: *usage,
    };
    push_header(&mut out, &header)?;
    push_segments(&mut out, delims, tas)?;
    push_groups(&mut out, delims, groups)?;
    push_trailer(
        &mut out,
        delims,
        b"IEA",
        groups.len(),
        &zero_padded::<9>(*icn),
    )?;
    Ok(out)
}
