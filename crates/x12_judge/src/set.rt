//! The codes and notes of a transaction set (997, AK5).

ghost use Rattle.std.specs.Prelude.{◌≡◌, ◌+◌, ◌<◌, ◌^◌, ◌||◌, not, List, length};
ghost use Rattle.std.specs.Prelude.{codes, bytes_eq, flat_map, OnOk, IfOk};
ghost use Rattle.x12_envelopes.specs.Row.{held_of_rows};
ghost use Rattle.x12_envelopes.specs.Shape.{TransactionSet, set_view};
ghost use Rattle.x12_judge.specs.Interchange.{value_is_number};
ghost use Rattle.x12_judge.specs.Note.{KeepsNotes, kept_notes};
ghost use Rattle.x12_judge.specs.Keeping.{keeping, no_notes};
ghost use Rattle.x12_judge.specs.Segment.{has_po1, notes_from, segment_notes};
ghost use Rattle.x12_judge.specs.Set.{body_of, is_repeated, notes_of_set, reported};
ghost use Rattle.x12_judge.specs.Set.{codes_by, verdict_of_set, trailer_says, result_by};
ghost use Rattle.x12_judge.specs.Set.{only_segments_are_in_error};
ghost use Rattle.x12_judge.specs.Verdict.{set_verdict_view};

use crate::body::Body;
use crate::note::Notes;
use crate::segment::{keep_notes_at, keep_notes_at_end};
use crate::verdict::{SetCode, SetCodes, SetResult, SetVerdict};
use std::alloc::{AllocError, Global};
use x12_envelopes::{Delims, Segment, SetView};

/// Where the segments between ST and SE end, and whether a PO1 is among them.
#[derive(Clone, Copy)]
struct End {
    position: u32,
    has_po1: bool,
}

/// Keeps the notes of the segments between ST and SE.
fn keep_body_notes<'a>(
    notes: &mut Notes<'a>,
    delims: &Delims,
    set: &SetView<'a>,
) -> Result<End, AllocError>
    requires { length set.now.bytes.now < 2 ^ 31 }
    ensures notes { let body = body_of (set_view delims.now set.now) in
        OnOk result
        (KeepsNotes notes.old notes.new (flat_map reported (notes_from delims.now 2 body))) }
    ensures position { let body = body_of (set_view delims.now set.now) in
        IfOk result (λ end. end.position ≡ 2 + length body) }
    ensures po1 { let body = body_of (set_view delims.now set.now) in
        IfOk result (λ end. end.has_po1 ≡ has_po1 delims.now body) }
{
    let mut body = Body::of(delims, set);
    let mut position = 2;
    let mut has_po1 = false;
    let mut was_ordinary = false;
    while let Some(bytes) = body.next_part(delims) {
        let read = Segment {
            bytes,
            delims: *delims,
        };
        let name = read.identifier();
        has_po1 = has_po1 || name == b"PO1".as_slice();
        let is_ordinary = keep_notes_at(notes, position, &read, name)?;
        let passed = body.pass_many(delims, was_ordinary && is_ordinary);
        has_po1 = has_po1 || passed.has_po1;
        position += 1 + passed.count;
        was_ordinary = is_ordinary;
    }
    Ok(End { position, has_po1 })
}

/// The notes of a purchase order.
fn purchase_order_notes<'a>(
    alloc: Global,
    delims: &Delims,
    set: &SetView<'a>,
) -> Result<Notes<'a>, AllocError>
    requires { length set.now.bytes.now < 2 ^ 31 }
    ensures { let noted = segment_notes delims.now (body_of (set_view delims.now set.now)) in
        IfOk result (λ notes. kept_notes notes ≡ keeping no_notes (flat_map reported noted)) }
{
    let mut notes = Notes::new(alloc);
    let end = keep_body_notes(&mut notes, delims, set)?;
    keep_notes_at_end(&mut notes, end.position, end.has_po1)?;
    Ok(notes)
}

/// The notes of a set: of a purchase order (850) that is agreed, and of no other.
#[tactic(auto, unfolding(crate::specs::Set::notes_of_set, crate::specs::Keeping::keeping))]
fn notes_of<'a>(
    alloc: Global,
    delims: &Delims,
    agreed: bool,
    set: &SetView<'a>,
) -> Result<Notes<'a>, AllocError>
    requires { length set.now.bytes.now < 2 ^ 31 }
    ensures { let noted = notes_of_set delims.now agreed (set_view delims.now set.now) in
        IfOk result (λ notes. kept_notes notes ≡ keeping no_notes (flat_map reported noted)) }
{
    if agreed && set.set == *b"850" {
        return purchase_order_notes(alloc, delims, set);
    }
    Ok(Notes::new(alloc))
}

/// Whether SE has another control number than ST.
fn has_other_number(delims: &Delims, set: &SetView<'_>) -> bool
    ensures { let s = set_view delims.now set.now in
        result ≡ trailer_says s.trailer (λ t. not (bytes_eq t.number s.number)) }
{
    match set.trailer {
        Some(trailer) => trailer.number != set.number.as_bytes(),
        None => false,
    }
}

/// Whether SE has another number of segments than were received, with ST and SE.
fn has_wrong_count(delims: &Delims, set: &SetView<'_>) -> bool
    ensures { let s = set_view delims.now set.now in
        result ≡ trailer_says s.trailer (λ t. not (value_is_number s.segments t.count)) }
{
    match set.trailer {
        Some(trailer) => trailer.count != Some(set.segments),
        None => false,
    }
}

/// The codes of the rows that hold.
fn held_rows(rows: &[(bool, SetCode); 6]) -> SetCodes
    ensures { result.items ≡ held_of_rows rows.now }
{
    let mut held = SetCodes::new();
    for (holds, code) in rows {
        if *holds {
            held.push(*code);
        }
    }
    held
}

/// The codes of a set: each row that holds.
#[tactic(auto, unfolding(crate::specs::Set::codes_by))]
fn set_codes(
    delims: &Delims,
    agreed: bool,
    noted: bool,
    repeated: bool,
    set: &SetView<'_>,
) -> SetCodes
    ensures { let s = set_view delims.now set.now in
        result.items ≡ codes_by agreed noted repeated s }
{
    held_rows(&[
        (!agreed, SetCode::NotSupported),
        (set.trailer.is_none(), SetCode::TrailerMissing),
        (has_other_number(delims, set), SetCode::NumbersDiffer),
        (has_wrong_count(delims, set), SetCode::CountWrong),
        (noted, SetCode::SegmentsInError),
        (repeated, SetCode::NumberNotUnique),
    ])
}

/// Whether segments in error are all that is wrong.
fn is_in_error_alone(codes: &[SetCode]) -> bool
    ensures { result ≡ only_segments_are_in_error codes.now }
{
    match codes {
        [SetCode::SegmentsInError] => true,
        _ => false,
    }
}

/// How a set with these codes fares, and with notes of which some are for another reason than errors
/// in elements, or none.
#[tactic(auto, unfolding(crate::specs::Set::result_by))]
fn set_result(lenient: bool, other: bool, codes: &[SetCode]) -> SetResult
    ensures { result ≡ result_by lenient other codes.now }
{
    if codes.is_empty() {
        return SetResult::Accepted;
    }
    if lenient && !other && is_in_error_alone(codes) {
        return SetResult::Noted;
    }
    SetResult::Rejected
}

/// The verdict of a set whose pair is agreed or not, with a partner who is lenient or not, and whose
/// control number stood before or not.
pub(crate) fn set_verdict<'a>(
    alloc: Global,
    delims: &Delims,
    agreed: bool,
    lenient: bool,
    repeated: bool,
    set: &SetView<'a>,
) -> Result<SetVerdict<'a>, AllocError>
    requires { length set.now.bytes.now < 2 ^ 31 }
    ensures { let s = set_view delims.now set.now in
        IfOk result
        (λ v. (earlier : List TransactionSet) → repeated ≡ is_repeated earlier s
        → set_verdict_view v ≡ verdict_of_set delims.now agreed lenient earlier s) }
{
    let notes = notes_of(alloc, delims, agreed, set)?;
    let codes = set_codes(delims, agreed, !notes.is_empty(), repeated, set);
    let result = set_result(lenient, notes.has_other(), &codes);
    let SetView {
        set: identifier,
        number,
        bytes,
        ..
    } = *set;
    Ok(SetVerdict {
        set: identifier,
        number,
        bytes,
        result,
        codes,
        notes: notes.into_vec(),
    })
}
