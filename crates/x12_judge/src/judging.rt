//! Judging an interchange: refused with a note, or judged group by group and set by set.

ghost use Rattle.std.specs.Prelude.{◌≡◌, ◌≤◌, ◌++◌, ◌∷◌, not, [], length, map, filter, Ok};
ghost use Rattle.std.specs.Prelude.{IfOk, OnOk, if◌then◌else◌};
ghost use Rattle.std.specs.List.{All, enumerate_from};
ghost use Rattle.x12_envelopes.specs.Header.{header_of};
ghost use Rattle.x12_envelopes.specs.Shape.{group_view};
ghost use Rattle.x12_judge.specs.Agreement.{agreement_view};
ghost use Rattle.x12_judge.specs.Controls.{JudgingTerms, newest_terms};
ghost use Rattle.x12_judge.specs.Bound.{IsReadOf, IsSmall, IsSmallGroup};
ghost use Rattle.x12_judge.specs.Group.{verdict_of_group};
ghost use Rattle.x12_judge.specs.Interchange.{reading_view};
ghost use Rattle.x12_judge.specs.Laws.{IsSmallVerdict};
ghost use Rattle.x12_judge.specs.Verdict.{group_verdict_view, verdicts_of_groups};
ghost use Rattle.x12_judge.specs.Verdict.{group_is_acknowledgment, judgement_by};
ghost use Rattle.x12_judge.specs.Verdict.{judgement_of, judgement_view};

use crate::agreement::Agreement;
use crate::controls::Controls;
use crate::group::group_verdict;
use crate::interchange::{Reading, is_memory_fault, is_silent, note_number};
use crate::verdict::{GroupVerdict, Judgement, Note, Verdict};
use std::alloc::{AllocError, Global};
use x12_envelopes::{GroupView, Header, Party, outline};

/// Adds the verdict of the group at this place, unless it is one of acknowledgments.
fn push_verdict<'a>(
    verdicts: &mut Vec<GroupVerdict<'a>>,
    alloc: Global,
    agreements: &[Agreement],
    header: &Header,
    place: u16,
    group: &GroupView<'a>,
) -> Result<(), AllocError>
    requires { IsSmallGroup group.now }
    ensures { let ags = map agreement_view agreements.now in
        let h = header.now in
        let g = group_view h.delims group.now in
        let v = verdict_of_group ags h.sender h.delims place g in
        OnOk result
        (map group_verdict_view verdicts.new.items
        ≡ map group_verdict_view verdicts.old.items
        ++ (if not (group_is_acknowledgment g) then v ∷ [] else [])) }
{
    if group.functional == *b"FA" {
        return Ok(());
    }
    let verdict = group_verdict(
        alloc,
        agreements,
        &header.sender,
        &header.delims,
        place,
        group,
    )?;
    verdicts.push(verdict)?;
    Ok(())
}

/// The verdict of each functional group that isn't one of acknowledgments.
fn verdicts_of<'a>(
    alloc: Global,
    agreements: &[Agreement],
    header: &Header,
    groups: &[GroupView<'a>],
) -> Result<Vec<GroupVerdict<'a>>, AllocError>
    requires few { length groups.now ≤ 32 }
    requires small { All IsSmallGroup groups.now }
    ensures { let ags = map agreement_view agreements.now in
        let h = header.now in
        let places = enumerate_from 1 (map (group_view h.delims) groups.now) in
        IfOk result
        (λ vs. map group_verdict_view vs.items
        ≡ map (λ place. verdict_of_group ags h.sender h.delims place.0 place.1)
        (filter (λ place. not (group_is_acknowledgment place.1)) places)) }
{
    let mut verdicts = Vec::with_capacity(alloc, groups.len())?;
    let mut place = 1;
    for group in groups {
        push_verdict(&mut verdicts, alloc, agreements, header, place, group)?;
        place += 1;
    }
    Ok(verdicts)
}

/// The verdict of each functional group of an interchange that was read.
#[tactic(auto, unfolding(crate::specs::Verdict::verdicts_of_groups))]
fn group_verdicts<'a>(
    alloc: Global,
    agreements: &[Agreement],
    header: &Header,
    reading: &Reading<'a>,
) -> Result<Vec<GroupVerdict<'a>>, AllocError>
    requires { IfOk reading.now IsSmall }
    ensures { let ags = map agreement_view agreements.now in
        let read = reading_view header.now.delims reading.now in
        let judged = verdicts_of_groups ags header.now read in
        IfOk result (λ vs. map group_verdict_view vs.items ≡ judged) }
{
    match reading {
        Ok(outline) => verdicts_of(alloc, agreements, header, &outline.groups),
        Err(_) => Ok(Vec::new(alloc)),
    }
}

/// Reads an interchange, once for all that is to be found of it: its outline, or the fault that ends
/// its reading. The header is that of the bytes, as `read_header` gives it. Answers an error for want
/// of memory alone.
pub fn read_interchange<'a>(
    alloc: Global,
    bytes: &'a [u8],
    header: &Header,
) -> Result<Reading<'a>, AllocError>
    requires read { header_of bytes.now ≡ Ok header.now }
    ensures { IfOk result (λ r. IsReadOf bytes.now header.now r) }
{
    let reading = outline(alloc, bytes, header);
    if is_memory_fault(&reading) {
        return Err(AllocError);
    }
    Ok(reading)
}

/// What an interchange deserves at this station, under these agreements and controls, by what was read
/// of it, as `read_interchange` gives it: refused with a note (X12.5, TA105), or judged group by group (997).
/// Answers an error for want of memory alone.
pub fn judge_reading<'a>(
    alloc: Global,
    me: &Party,
    agreements: &[Agreement],
    controls: Controls,
    header: &Header,
    reading: &Reading<'a>,
) -> Result<Judgement<'a>, AllocError>
    requires small { IfOk reading.now IsSmall }
    ensures { let ags = map agreement_view agreements.now in
        let terms : JudgingTerms = record { agreements = ags; controls = controls } in
        let read = reading_view header.now.delims reading.now in
        IfOk result (λ j. judgement_view j ≡ judgement_by me.now terms header.now read) }
{
    let silent = is_silent(reading, header);
    if let Some(note) = note_number(me, controls, header, reading) {
        return Ok(Judgement {
            silent,
            verdict: Verdict::Refused(Note(note)),
        });
    }
    let groups = group_verdicts(alloc, agreements, header, reading)?;
    Ok(Judgement {
        silent,
        verdict: Verdict::Judged(groups),
    })
}

/// What an interchange deserves at this station, under these agreements and controls: refused with a
/// note (X12.5, TA105), or judged group by group (997). The header is that of the bytes, as
/// `read_header` gives it. Notes 009 and 025 are never given: they are for those who know more than
/// one interchange. A judgement has at most 32 groups and 400 transaction sets in all. Answers an
/// error for want of memory alone.
pub fn judge_by<'a>(
    alloc: Global,
    me: &Party,
    agreements: &[Agreement],
    controls: Controls,
    bytes: &'a [u8],
    header: &Header,
) -> Result<Judgement<'a>, AllocError>
    requires read { header_of bytes.now ≡ Ok header.now }
    ensures verdict { let ags = map agreement_view agreements.now in
        let terms : JudgingTerms = record { agreements = ags; controls = controls } in
        IfOk result (λ j. judgement_view j ≡ judgement_of me.now terms header.now bytes.now) }
    ensures small { IfOk result (λ j. IsSmallVerdict (judgement_view j).verdict) }
{
    let reading = read_interchange(alloc, bytes, header)?;
    judge_reading(alloc, me, agreements, controls, header, &reading)
}

/// What an interchange deserves at this station, under these agreements and the newest controls, as
/// `judge_by` gives it. Answers an error for want of memory alone.
pub fn judge<'a>(
    alloc: Global,
    me: &Party,
    agreements: &[Agreement],
    bytes: &'a [u8],
    header: &Header,
) -> Result<Judgement<'a>, AllocError>
    requires read { header_of bytes.now ≡ Ok header.now }
    ensures verdict { let terms = newest_terms (map agreement_view agreements.now) in
        IfOk result (λ j. judgement_view j ≡ judgement_of me.now terms header.now bytes.now) }
    ensures small { IfOk result (λ j. IsSmallVerdict (judgement_view j).verdict) }
{
    judge_by(alloc, me, agreements, Controls::Until501, bytes, header)
}
