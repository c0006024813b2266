//! The note of an interchange (X12.5, TA105): why it is refused as a whole.

ghost use Rattle.std.specs.Prelude.{◌≡◌, ◌<◌, ◌==◌, ◌&&◌, ◌||◌, codes};
ghost use Rattle.x12_envelopes.specs.Letter.{is_one_of};
ghost use Rattle.x12_envelopes.specs.Row.{first_of_rows};
ghost use Rattle.x12_judge.specs.Interchange.{Reading, reading_has_other_number};
ghost use Rattle.x12_judge.specs.Interchange.{reading_has_wrong_group_count, note_of_interchange};
ghost use Rattle.x12_judge.specs.Interchange.{reading_is_content_fault, reading_is_memory_fault};
ghost use Rattle.x12_judge.specs.Interchange.{reading_is_premature_end, reading_is_silent};
ghost use Rattle.x12_judge.specs.Interchange.{reading_is_structure_fault};
ghost use Rattle.x12_judge.specs.Interchange.{reading_view, rows_of_fields, rows_of_reading};

use crate::controls::Controls;
use crate::group::is_number;
use x12_envelopes::{Header, Outline, OutlineFault, Party, is_date, is_time};

/// An interchange that was read, or the fault that ended its reading.
pub type Reading<'a> = Result<Outline<'a>, OutlineFault>;

/// Whether memory ran out while an interchange was read.
pub(crate) fn is_memory_fault(reading: &Reading<'_>) -> bool
    ensures { result ≡ reading_is_memory_fault reading.now }
{
    matches!(reading, Err(OutlineFault::Memory))
}

/// Whether reading ended at a control byte or at a misplaced segment.
fn is_structure_fault(reading: &Reading<'_>, header: &Header) -> bool
    ensures { result ≡ reading_is_structure_fault (reading_view header.now.delims reading.now) }
{
    matches!(reading, Err(OutlineFault::Structure(_)))
}

/// Whether reading ended where the bytes end, before a terminator or before IEA.
fn is_premature_end(reading: &Reading<'_>, header: &Header) -> bool
    ensures { result ≡ reading_is_premature_end (reading_view header.now.delims reading.now) }
{
    matches!(reading, Err(OutlineFault::Premature(_)))
}

/// Whether reading ended at a TA1, GS or ST that can't be read, or at one too many.
fn is_content_fault(reading: &Reading<'_>, header: &Header) -> bool
    ensures { result ≡ reading_is_content_fault (reading_view header.now.delims reading.now) }
{
    matches!(reading, Err(OutlineFault::Content(_)))
}

/// Whether IEA02 isn't the number of ISA13.
fn has_other_number(reading: &Reading<'_>, header: &Header) -> bool
    ensures { result
        ≡ reading_has_other_number header.now (reading_view header.now.delims reading.now) }
{
    match reading {
        Ok(outline) => !is_number(header.icn as usize, outline.trailer),
        Err(_) => false,
    }
}

/// Whether IEA01 isn't the number of groups.
fn has_wrong_group_count(reading: &Reading<'_>, header: &Header) -> bool
    ensures { result ≡ reading_has_wrong_group_count (reading_view header.now.delims reading.now) }
{
    match reading {
        Ok(outline) => !is_number(outline.groups.len(), outline.count),
        Err(_) => false,
    }
}

/// Whether an interchange is never answered: it was read, and holds TA1s and no group.
#[tactic(auto, unfolding(crate::specs::Interchange::reading_is_silent))]
pub(crate) fn is_silent(reading: &Reading<'_>, header: &Header) -> bool
    ensures { result ≡ reading_is_silent (reading_view header.now.delims reading.now) }
{
    match reading {
        Ok(outline) => !outline.tas.is_empty() && outline.groups.is_empty(),
        Err(_) => false,
    }
}

/// Whether a byte is one of two.
fn is_either(byte: u8, one: u8, other: u8) -> bool
    ensures { result ≡ (byte == one || byte == other) }
{
    byte == one || byte == other
}

/// Whether a byte tells how an interchange is to be used: production, test or information.
fn is_usage(byte: u8) -> bool
    ensures { result ≡ is_one_of (codes "PTI") byte }
{
    is_either(byte, b'P', b'T') || byte == b'I'
}

/// The note of what was read: the rows from 022 on.
fn note_of_reading(header: &Header, reading: &Reading<'_>) -> Option<u16>
    ensures { let read = reading_view header.now.delims reading.now in
        result ≡ first_of_rows (rows_of_reading header.now read) }
{
    if is_structure_fault(reading, header) {
        return Some(22);
    }
    if is_premature_end(reading, header) {
        return Some(23);
    }
    if is_content_fault(reading, header) {
        return Some(24);
    }
    if has_other_number(reading, header) {
        return Some(1);
    }
    if has_wrong_group_count(reading, header) {
        return Some(21);
    }
    None
}

/// The note of the header's date, time and indicators, and behind them of what was read: the rows
/// from 014 on.
fn note_of_fields(header: &Header, reading: &Reading<'_>) -> Option<u16>
    ensures { let read = reading_view header.now.delims reading.now in
        result ≡ first_of_rows (rows_of_fields header.now read) }
{
    if !is_date(&header.date) {
        return Some(14);
    }
    if !is_time(&header.time) {
        return Some(15);
    }
    if !is_either(header.ack, b'0', b'1') {
        return Some(19);
    }
    if !is_usage(header.usage) {
        return Some(20);
    }
    note_of_reading(header, reading)
}

/// The note of an interchange at this station, as a number: the first row whose condition holds.
#[tactic(auto, unfolding(crate::specs::Interchange::note_of_interchange))]
pub(crate) fn note_number(
    me: &Party,
    controls: Controls,
    header: &Header,
    reading: &Reading<'_>,
) -> Option<u16>
    ensures { let read = reading_view header.now.delims reading.now in
        result ≡ note_of_interchange controls me.now header.now read }
{
    if header.receiver != *me {
        return Some(8);
    }
    if controls.refuses_standard(header) {
        return Some(2);
    }
    if !controls.takes_version(&header.version) {
        return Some(3);
    }
    note_of_fields(header, reading)
}
