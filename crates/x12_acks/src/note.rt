//! The notes of a transaction set as they are written: AK3 of a segment, AK4 of an element.
#![tactic(auto)]

ghost use Rattle.std.specs.Prelude.{◌≡◌, ◌++◌, ◌∷◌, flat_map, OnOk};
ghost use Rattle.x12_envelopes.specs.Segment.{segment_text};
ghost use Rattle.x12_judge.specs.Segment.{ElementNote};
ghost use Rattle.x12_judge.specs.Verdict.{note_view};
ghost use Rattle.x12_acks.specs.Reply.{note_segment, ak3_segment, ak4_segment, unless_empty};

use std::alloc::AllocError;
use x12_envelopes::{Delims, push_element, push_identifier, push_number, push_terminator};
use x12_judge::{ElementCode, SegmentCode, SetNote};

/// Appends AK3 or AK4.
pub(crate) fn push_note(
    out: &mut Vec<u8>,
    delims: &Delims,
    note: &SetNote,
) -> Result<(), AllocError>
    ensures written { OnOk result (out.new.items ≡
        out.old.items ++ segment_text delims.now (note_segment (note_view note.now))) }
{
    match *note {
        SetNote::Segment {
            identifier,
            position,
            code,
        } => { push_ak3(out, delims, identifier, position, code) }
        SetNote::Element {
            place,
            reference,
            code,
            copy,
        } => { push_ak4(out, delims, place, reference, code, copy) }
    }
}

/// Appends AK3.
#[tactic(auto, unfolding(x12_envelopes::specs::Segment::segment_text))]
fn push_ak3(
    out: &mut Vec<u8>,
    delims: &Delims,
    identifier: &[u8],
    position: u32,
    code: SegmentCode,
) -> Result<(), AllocError>
    ensures written { OnOk result (out.new.items ≡
        out.old.items ++ segment_text delims.now (ak3_segment identifier.now position code)) }
{
    push_identifier(out, b"AK3")?;
    push_element(out, delims, identifier)?;
    push_number(out, delims, u64::from(position))?;
    push_element(out, delims, b"")?;
    push_number(out, delims, u64::from(code.number()))?;
    push_terminator(out, delims)
}

/// Appends AK4; an empty copy is left off.
#[tactic(auto, unfolding(x12_envelopes::specs::Segment::segment_text))]
fn push_ak4(
    out: &mut Vec<u8>,
    delims: &Delims,
    place: u8,
    reference: u16,
    code: ElementCode,
    copy: &[u8],
) -> Result<(), AllocError>
    ensures written { OnOk result (
        let note : ElementNote = record {
          place = place;
          reference = reference;
          code = code;
          copy = copy.now;
        } in
        out.new.items ≡ out.old.items ++ segment_text delims.now (ak4_segment note)) }
{
    push_identifier(out, b"AK4")?;
    push_number(out, delims, u64::from(place))?;
    push_number(out, delims, u64::from(reference))?;
    push_number(out, delims, u64::from(code.number()))?;
    push_unless_empty(out, delims, copy)?;
    push_terminator(out, delims)
}

/// Appends an element behind its separator, where it isn't empty.
fn push_unless_empty(out: &mut Vec<u8>, delims: &Delims, text: &[u8]) -> Result<(), AllocError>
    ensures written { OnOk result (out.new.items ≡
        out.old.items ++ flat_map (λ e. delims.now.element ∷ e) (unless_empty text.now)) }
{
    if text.is_empty() {
        return Ok(());
    }
    push_element(out, delims, text)
}
