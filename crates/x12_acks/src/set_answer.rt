//! A transaction set's part of a functional acknowledgment (997): AK2, its notes, AK5.
#![tactic(auto)]

ghost use Rattle.std.specs.Prelude.{◌≡◌, ◌++◌, ◌∷◌, ◌≤◌, ◌+◌, [], codes, length, flat_map, map};
ghost use Rattle.std.specs.Prelude.{OnOk, IfOk};
ghost use Rattle.x12_envelopes.specs.Segment.{segment_text, text_of};
ghost use Rattle.x12_envelopes.specs.Shape.{bytes_of_set_no};
ghost use Rattle.x12_judge.specs.Verdict.{set_verdict_view, note_view};
ghost use Rattle.x12_acks.specs.Reply.{code_of_set, note_segment, ak5_segment, set_answer};
ghost use Rattle.x12_acks.specs.Reply.{code_of_result};

use crate::note::push_note;
use std::alloc::AllocError;
use x12_envelopes::{Delims, SetNo, push_element, push_identifier, push_number, push_terminator};
use x12_judge::{SetCode, SetNote, SetResult, SetVerdict};

/// Appends the notes of a transaction set.
fn push_notes(out: &mut Vec<u8>, delims: &Delims, notes: &[SetNote]) -> Result<(), AllocError>
    ensures written { OnOk result (out.new.items ≡
        out.old.items ++ text_of delims.now (map note_segment (map note_view notes.now))) }
{
    for note in notes {
        push_note(out, delims, note)?;
    }
    Ok(())
}

/// Appends codes as elements.
fn push_codes(out: &mut Vec<u8>, delims: &Delims, codes: &[SetCode]) -> Result<(), AllocError>
    ensures written { OnOk result (out.new.items ≡
        out.old.items ++ flat_map (λ e. delims.now.element ∷ e) (map code_of_set codes.now)) }
{
    for code in codes {
        push_number(out, delims, u64::from(code.number()))?;
    }
    Ok(())
}

/// AK501: how a transaction set fares.
fn result_letter(fares: SetResult) -> u8
    ensures { result ∷ [] ≡ code_of_result fares }
{
    match fares {
        SetResult::Accepted => b'A',
        SetResult::Noted => b'E',
        SetResult::Rejected => b'R',
    }
}

/// Appends AK5: how the set fares, and its codes.
#[tactic(auto, unfolding(x12_envelopes::specs::Segment::segment_text))]
fn push_ak5(out: &mut Vec<u8>, delims: &Delims, verdict: &SetVerdict) -> Result<(), AllocError>
    ensures written { OnOk result (out.new.items ≡
        out.old.items ++ segment_text delims.now (ak5_segment (set_verdict_view verdict.now))) }
{
    let (element, end) = (delims.element, delims.terminator);
    let letter = result_letter(verdict.result);
    if verdict.codes.is_empty() {
        return out.extend_from_slice(&[b'A', b'K', b'5', element, letter, end]);
    }
    out.extend_from_slice(&[b'A', b'K', b'5', element, letter])?;
    push_codes(out, delims, &verdict.codes)?;
    push_terminator(out, delims)
}

/// Appends AK2: ST01 and ST02.
#[tactic(auto, unfolding(x12_envelopes::specs::Segment::segment_text))]
fn push_ak2(
    out: &mut Vec<u8>,
    delims: &Delims,
    set: &[u8; 3],
    number: &SetNo,
) -> Result<(), AllocError>
    ensures written { OnOk result (out.new.items ≡ out.old.items
        ++ segment_text delims.now (codes "AK2" ∷ set.now ∷ bytes_of_set_no number.now ∷ [])) }
{
    push_identifier(out, b"AK2")?;
    push_element(out, delims, set)?;
    push_element(out, delims, number.as_bytes())?;
    push_terminator(out, delims)
}

/// Appends a transaction set's part of the acknowledgment, and says how many segments it has.
#[tactic(auto, unfolding(crate::specs::Reply::set_answer))]
pub(crate) fn push_set_answer(
    out: &mut Vec<u8>,
    delims: &Delims,
    verdict: &SetVerdict,
) -> Result<usize, AllocError>
    ensures written { OnOk result (out.new.items ≡
        out.old.items ++ text_of delims.now (set_answer (set_verdict_view verdict.now))) }
    ensures segments { IfOk result (λ n. n ≡ length (set_answer (set_verdict_view verdict.now))) }
    ensures room { IfOk result (λ n. length out.old.items + n ≤ length out.new.items) }
{
    push_ak2(out, delims, &verdict.set, &verdict.number)?;
    push_notes(out, delims, &verdict.notes)?;
    push_ak5(out, delims, verdict)?;
    Ok(verdict.notes.len() + 2)
}
