//! The functional acknowledgment (997) of a functional group: AK1, its transaction sets, AK9.
#![tactic(auto)]

ghost use Rattle.std.specs.Prelude.{◌≡◌, ◌++◌, ◌∷◌, ◌≤◌, ◌+◌, [], codes, decimal, length, flat_map};
ghost use Rattle.std.specs.Prelude.{map, OnOk, IfOk, option_to_list, option_map, if◌then◌else◌};
ghost use Rattle.x12_envelopes.specs.Byte.{zero_padded_number};
ghost use Rattle.x12_envelopes.specs.Segment.{segment_text, text_of};
ghost use Rattle.x12_envelopes.specs.Envelope.{set_segments};
ghost use Rattle.std.specs.List.{list_any};
ghost use Rattle.x12_judge.specs.Set.{is_noted};
ghost use Rattle.x12_judge.specs.Verdict.{set_verdict_view, group_verdict_view};
ghost use Rattle.x12_acks.specs.Reply.{refusal_code, set_answer, code_of_group, ak9_segment};
ghost use Rattle.x12_acks.specs.Reply.{group_answer, some_are_noted};

use crate::set_answer::push_set_answer;
use std::alloc::AllocError;
use x12_envelopes::{
    Delims, push_element, push_identifier, push_number, push_padded, push_terminator,
};
use x12_judge::{GroupRefusal, GroupVerdict, SetVerdict};

/// Appends the 997 of a functional group, with its control number.
#[tactic(auto, unfolding(crate::specs::Reply::group_answer))]
pub(crate) fn push_group_answer(
    out: &mut Vec<u8>,
    delims: &Delims,
    number: u64,
    verdict: &GroupVerdict,
) -> Result<(), AllocError>
    ensures written { OnOk result (out.new.items ≡ out.old.items ++ text_of delims.now
        (set_segments (group_answer number (group_verdict_view verdict.now)))) }
{
    push_st(out, delims, number)?;
    push_ak1(out, delims, &verdict.functional, verdict.number_text)?;
    let segments = push_set_answers(out, delims, &verdict.sets)?;
    push_ak9(out, delims, verdict)?;
    push_se(out, delims, segments as u64 + 4, number)
}

/// Appends ST of a 997.
#[tactic(auto, unfolding(x12_envelopes::specs::Segment::segment_text))]
fn push_st(out: &mut Vec<u8>, delims: &Delims, number: u64) -> Result<(), AllocError>
    ensures written { OnOk result (out.new.items ≡ out.old.items
        ++ segment_text delims.now (codes "ST" ∷ codes "997" ∷ zero_padded_number 4 number ∷ [])) }
{
    out.extend_from_slice(&[b'S', b'T', delims.element, b'9', b'9', b'7'])?;
    push_padded(out, delims, 4, number)?;
    push_terminator(out, delims)
}

/// Appends AK1: GS01 and GS06 of the functional group.
#[tactic(auto, unfolding(x12_envelopes::specs::Segment::segment_text))]
fn push_ak1(
    out: &mut Vec<u8>,
    delims: &Delims,
    functional: &[u8; 2],
    number: &[u8],
) -> Result<(), AllocError>
    ensures written { OnOk result (out.new.items ≡ out.old.items
        ++ segment_text delims.now (codes "AK1" ∷ functional.now ∷ number.now ∷ [])) }
{
    push_identifier(out, b"AK1")?;
    push_element(out, delims, functional)?;
    push_element(out, delims, number)?;
    push_terminator(out, delims)
}

/// Appends the answers of transaction sets, and says how many segments they have.
fn push_set_answers(
    out: &mut Vec<u8>,
    delims: &Delims,
    sets: &[SetVerdict],
) -> Result<usize, AllocError>
    ensures written { OnOk result (out.new.items ≡ out.old.items
        ++ text_of delims.now (flat_map set_answer (map set_verdict_view sets.now))) }
    ensures segments { IfOk result (λ n.
        n ≡ length (flat_map set_answer (map set_verdict_view sets.now))) }
    ensures few { IfOk result (λ n. n ≤ length out.new.items) }
{
    let mut segments = 0;
    for verdict in sets {
        segments += push_set_answer(out, delims, verdict)?;
    }
    Ok(segments)
}

/// Whether some transaction set is accepted with errors noted.
fn has_noted(sets: &[SetVerdict]) -> bool
    ensures { result ≡ list_any (λ v. is_noted v.result) sets.now }
{
    sets.iter().any(|set| set.result.is_noted())
}

/// AK901: how a functional group fares, all of whose transaction sets are accepted.
fn accepting_letter(sets: &[SetVerdict]) -> u8
    ensures { let noted = some_are_noted (map set_verdict_view sets.now) in
        result ∷ [] ≡ (if noted then codes "E" else codes "A") }
{
    if has_noted(sets) { b'E' } else { b'A' }
}

/// AK901: how a functional group fares.
#[tactic(auto, unfolding(crate::specs::Reply::code_of_group))]
fn group_code_letter(verdict: &GroupVerdict) -> u8
    ensures { result ∷ [] ≡ code_of_group (group_verdict_view verdict.now) }
{
    if verdict.refused.is_some() {
        return b'R';
    }
    if u64::from(verdict.accepted) == verdict.sets.len() as u64 {
        return accepting_letter(&verdict.sets);
    }
    if verdict.accepted == 0 {
        return b'R';
    }
    b'P'
}

/// Appends AK9.
#[tactic(auto, unfolding(x12_envelopes::specs::Segment::segment_text))]
fn push_ak9(out: &mut Vec<u8>, delims: &Delims, verdict: &GroupVerdict) -> Result<(), AllocError>
    ensures written { OnOk result (out.new.items ≡
        out.old.items ++ segment_text delims.now (ak9_segment (group_verdict_view verdict.now))) }
{
    let code = group_code_letter(verdict);
    out.extend_from_slice(&[b'A', b'K', b'9', delims.element, code])?;
    push_number(out, delims, u64::from(verdict.included))?;
    push_number(out, delims, u64::from(verdict.received))?;
    push_number(out, delims, u64::from(verdict.accepted))?;
    push_refusal(out, delims, verdict.refused)?;
    push_terminator(out, delims)
}

/// Appends AK905, where the functional group is refused.
fn push_refusal(
    out: &mut Vec<u8>,
    delims: &Delims,
    refused: Option<GroupRefusal>,
) -> Result<(), AllocError>
    ensures written { OnOk result (
        let codes = option_to_list (option_map refusal_code refused) in
        out.new.items ≡ out.old.items ++ flat_map (λ e. delims.now.element ∷ e) codes) }
{
    match refused {
        Some(refusal) => push_number(out, delims, u64::from(refusal.number())),
        None => Ok(()),
    }
}

/// Appends SE: how many segments with ST and SE, and the number of ST.
#[tactic(auto, unfolding(x12_envelopes::specs::Segment::segment_text))]
fn push_se(out: &mut Vec<u8>, delims: &Delims, segments: u64, number: u64) -> Result<(), AllocError>
    ensures written { OnOk result (out.new.items ≡ out.old.items
        ++ segment_text delims.now (codes "SE" ∷ decimal segments ∷ zero_padded_number 4 number
        ∷ [])) }
{
    push_identifier(out, b"SE")?;
    push_number(out, delims, segments)?;
    push_padded(out, delims, 4, number)?;
    push_terminator(out, delims)
}
