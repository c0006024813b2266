//! The notes of a purchase order's segments (997, AK3 and AK4).

ghost use Rattle.std.specs.Prelude.{◌≡◌, ◌∷◌, ◌++◌, ◌==◌, ◌&&◌, ◌||◌, not, [], take, OnOk};
ghost use Rattle.std.specs.Prelude.{option_map, codes, bytes_eq, nat_lt, flat_map, if◌then◌else◌};
ghost use Rattle.std.specs.Prelude.{◌≤◌, ◌-◌, length, slice_index, IfOk, true};
ghost use Rattle.std.specs.Char.{is_ascii_uppercase};
ghost use Rattle.x12_envelopes.specs.Byte.{byte_is_capital_or_digit};
ghost use Rattle.x12_envelopes.specs.Cutting.{delimited_view};
ghost use Rattle.x12_envelopes.specs.Row.{held_of_rows};
ghost use Rattle.x12_judge.specs.Note.{KeepsNotes, errors_noted, opening};
ghost use Rattle.x12_judge.specs.Set.{reported, segment, element};
ghost use Rattle.x12_judge.specs.Segment.{identifier_of, name_is_identifier, note_of_element};
ghost use Rattle.x12_judge.specs.Segment.{notes_at};
ghost use Rattle.x12_judge.specs.Verdict.{note_view};

use crate::element::{ElementRule, copy_of, element_fault, element_rules};
use crate::elements::Elements;
use crate::note::Notes;
use crate::verdict::{SegmentCode, SetNote};
use std::alloc::AllocError;
use x12_envelopes::Segment;

/// Whether a byte is a capital letter or a digit.
fn is_capital_or_digit(b: u8) -> bool
    ensures { result ≡ byte_is_capital_or_digit b }
{
    b.is_ascii_uppercase() || b.is_ascii_digit()
}

/// Whether of two or three bytes the first is a capital letter, and the others are capital letters and
/// digits.
fn begin_with_capital(name: &[u8]) -> bool
    requires few { 2 ≤ length name.now }
    ensures { result ≡ (is_ascii_uppercase (slice_index name.now 0)
        && byte_is_capital_or_digit (slice_index name.now 1)
        && byte_is_capital_or_digit (slice_index name.now (length name.now - 1))) }
{
    name[0].is_ascii_uppercase()
        && is_capital_or_digit(name[1])
        && is_capital_or_digit(name[name.len() - 1])
}

/// Whether an identifier is two or three capital letters and digits, the first a letter.
#[tactic(auto, unfolding(crate::specs::Segment::name_is_identifier))]
fn is_identifier(name: &[u8]) -> bool
    ensures { result ≡ name_is_identifier name.now }
{
    if name.len() < 2 || name.len() > 3 {
        return false;
    }
    begin_with_capital(name)
}

/// Whether nothing is noted on a segment with this identifier behind the first one: it is an
/// identifier, and neither BEG nor CTT.
pub(crate) fn is_ordinary(name: &[u8]) -> bool
    ensures { result ≡ (name_is_identifier name.now && not (bytes_eq name.now (codes "BEG"))
        && not (bytes_eq name.now (codes "CTT"))) }
{
    is_identifier(name) && name != b"BEG".as_slice() && name != b"CTT".as_slice()
}

/// A note on a segment; its identifier is cut to three bytes.
fn note_on<'a>(name: &'a [u8], position: u32, code: SegmentCode) -> SetNote<'a>
    ensures { note_view result ≡ segment (take 3 name.now) position code }
{
    let (identifier, _) = name.split_at(usize::min(3, name.len()));
    SetNote::Segment {
        identifier,
        position,
        code,
    }
}

/// The note of the element that a rule speaks of, if the segment is the rule's and the element is
/// wrong. The segment's identifier is taken once for all rules.
#[tactic(auto, unfolding(crate::specs::Segment::note_of_element))]
fn element_note<'a>(
    elements: &mut Elements<'a>,
    name: &[u8],
    rule: &ElementRule,
) -> Option<SetNote<'a>>
    requires { name.now ≡ identifier_of elements.old.read.delims elements.old.read.bytes.now }
    ensures note { let read = elements.old.read in
        option_map note_view result ≡ option_map (λ n. element n)
        (note_of_element read.delims read.bytes.now rule.now) }
    ensures same { elements.new.read ≡ elements.old.read }
{
    if rule.segment.as_slice() != name {
        return None;
    }
    let value = elements.at(rule.place);
    let code = element_fault(&elements.read.delims, rule, value)?;
    Some(SetNote::Element {
        place: rule.place,
        reference: rule.reference,
        code,
        copy: copy_of(&elements.read.delims, value),
    })
}

/// Keeps the note of an element, behind that of its segment if that one wasn't noted yet.
fn keep_element_note<'a>(
    notes: &mut Notes<'a>,
    noted: bool,
    head: SetNote<'a>,
    note: SetNote<'a>,
) -> Result<(), AllocError>
    ensures { let both = opening noted (note_view head.entry) ++ note_view note.entry ∷ [] in
        OnOk result (KeepsNotes notes.old notes.new both) }
{
    notes.keep_if(!noted, head)?;
    notes.keep(note)
}

/// Keeps the note of a segment that has element errors, and those of its elements.
fn keep_element_errors<'a>(
    notes: &mut Notes<'a>,
    position: u32,
    read: &Segment<'a>,
) -> Result<(), AllocError>
    ensures { OnOk result
        (KeepsNotes notes.old notes.new (errors_noted position (delimited_view read.now))) }
{
    let mut elements = Elements::of(read);
    let name = elements.at(0);
    let mut noted = false;
    for rule in element_rules() {
        if let Some(note) = element_note(&mut elements, name, rule) {
            let head = note_on(name, position, SegmentCode::ElementErrors);
            keep_element_note(notes, noted, head, note)?;
            noted = true;
        }
    }
    Ok(())
}

/// What a segment's identifier and position say of it.
#[derive(Clone, Copy)]
struct Standing {
    /// Its identifier isn't one.
    unrecognized: bool,
    /// It stands where BEG has to.
    in_place_of_beg: bool,
    /// It is a BEG where none may stand.
    beg_again: bool,
    /// Its elements are checked.
    has_rules: bool,
}

/// What a segment's identifier and position say of it.
fn standing_of(name: &[u8], position: u32) -> Standing
    ensures unrecognized { result.unrecognized ≡ not (name_is_identifier name.now) }
    ensures in_place_of_beg { let is_beg = bytes_eq name.now (codes "BEG") in
        result.in_place_of_beg ≡ (position == 2 && not is_beg) }
    ensures beg_again { result.beg_again ≡ (bytes_eq name.now (codes "BEG") && nat_lt 2 position) }
    ensures has_rules { result.has_rules
        ≡ (bytes_eq name.now (codes "BEG") && position == 2 || bytes_eq name.now (codes "CTT")) }
{
    let is_beg = name == b"BEG".as_slice();
    Standing {
        unrecognized: !is_identifier(name),
        in_place_of_beg: position == 2 && !is_beg,
        beg_again: is_beg && 2 < position,
        has_rules: is_beg && position == 2 || name == b"CTT".as_slice(),
    }
}

/// Keeps the notes of a segment's element errors, if its elements are checked.
fn keep_errors_if<'a>(
    notes: &mut Notes<'a>,
    checked: bool,
    position: u32,
    read: &Segment<'a>,
) -> Result<(), AllocError>
    ensures { let errors = errors_noted position (delimited_view read.now) in
        OnOk result (KeepsNotes notes.old notes.new (if checked then errors else [])) }
{
    if checked {
        return keep_element_errors(notes, position, read);
    }
    Ok(())
}

/// Keeps the notes on the segment at a position, each row in the order of AK304. Where it answers true,
/// there is none. The segment's identifier was taken before.
#[tactic(auto, unfolding(crate::specs::Segment::notes_at))]
pub(crate) fn keep_notes_at<'a>(
    notes: &mut Notes<'a>,
    position: u32,
    read: &Segment<'a>,
    name: &'a [u8],
) -> Result<bool, AllocError>
    requires { name.now ≡ identifier_of read.now.delims read.now.bytes.now }
    ensures notes { let noted = flat_map reported
        (notes_at read.now.delims position read.now.bytes.now) in
        OnOk result (KeepsNotes notes.old notes.new noted) }
    ensures none { IfOk result (λ b.
        b ≡ true → notes_at read.now.delims position read.now.bytes.now ≡ []) }
{
    if 2 < position && is_ordinary(name) {
        return Ok(true);
    }
    let at = standing_of(name, position);
    notes.keep_if(
        at.unrecognized,
        note_on(name, position, SegmentCode::Unrecognized),
    )?;
    notes.keep_if(at.in_place_of_beg, note_on(b"BEG", 2, SegmentCode::Missing))?;
    notes.keep_if(
        at.beg_again,
        note_on(name, position, SegmentCode::ExceedsMaximumUse),
    )?;
    keep_errors_if(notes, at.has_rules, position, read)?;
    Ok(false)
}

/// Keeps the notes at the end position, SE's or one past the last segment.
#[tactic(auto, unfolding(crate::specs::Segment::notes_at_end))]
pub(crate) fn keep_notes_at_end<'a>(
    notes: &mut Notes<'a>,
    position: u32,
    has_po1: bool,
) -> Result<(), AllocError>
    ensures { let rows =
        (position == 2, segment (codes "BEG") 2 SegmentCode.Missing)
        ∷ (not has_po1, segment (codes "PO1") position SegmentCode.Missing)
        ∷ [] in
        OnOk result (KeepsNotes notes.old notes.new (held_of_rows rows)) }
{
    notes.keep_if(position == 2, note_on(b"BEG", 2, SegmentCode::Missing))?;
    notes.keep_if(!has_po1, note_on(b"PO1", position, SegmentCode::Missing))
}
