//! What is wrong with a whole interchange: where it can't be read, or what it was found to hold where
//! it is refused.

use crate::coded::{Coded, code_of};
use crate::excerpt::part;
use crate::header_words::{Wrong, found_of};
use crate::piece::say;
use crate::slice::Interchange;
use crate::style::Look;
use crate::text::Text;
use std::alloc::{AllocError, Global};
use x12_envelopes::{Header, HeaderFault, Outline, OutlineFault, Party, cut_at, outline};

/// How many bytes are shown in front of a place, and from it on.
const ROUND: usize = 20;

/// A fault of an interchange that can't be read, with its place.
#[derive(Clone, Copy)]
pub(crate) struct Fault<'a> {
    /// The fault's number, `H1` to `H5` or `O1` to `O4`, and what it says.
    pub coded: Coded<'static>,
    /// The offset of the place from the I of ISA.
    pub at: usize,
    /// The number of the segment there: ISA is 1.
    pub segment: usize,
    /// Up to 40 bytes round the place.
    pub round: &'a [u8],
    /// How many of them stand before it.
    pub before: usize,
    /// What was found there, where there is more to say than the fault.
    pub wrong: Wrong<'a>,
}

/// The fault of a header, at the element that has it.
pub(crate) fn header_fault<'a>(bytes: &'a [u8], fault: HeaderFault) -> Fault<'a> {
    let found = found_of(bytes, fault);
    Fault {
        coded: code_of("H", fault.number().as_bytes()),
        at: found.at,
        segment: 1,
        round: part(bytes, found.at.saturating_sub(ROUND), 2 * ROUND),
        before: found.at.min(ROUND),
        wrong: found.wrong,
    }
}

/// The number of the segment that begins or goes on behind these bytes: ISA is 1.
fn segment_behind(terminator: u8, bytes: &[u8]) -> usize {
    let mut segment = 1usize;
    for b in bytes {
        if *b == terminator {
            segment = segment.saturating_add(1);
        }
    }
    segment
}

/// The bytes of the segment that begins or goes on behind these bytes, as far as they go.
fn begun(terminator: u8, bytes: &[u8]) -> &[u8] {
    let mut rest = bytes;
    while let Some((_, behind)) = cut_at(terminator, rest) {
        rest = behind;
    }
    rest
}

/// What stands at a place of an interchange: blanks in front of a segment, if it is that.
fn wrong_at<'a>(at: &Interchange<'_, 'a>, place: usize) -> Wrong<'a> {
    let before = begun(at.header.delims.terminator, part(at.bytes, 0, place));
    let shown = part(at.bytes, place, 1);
    let here = shown == b" ".as_slice() || shown == b"\t".as_slice();
    if before.iter().all(|b| b.is_ascii_whitespace()) && (here || before.contains(&b' ')) {
        return Wrong::Other("blanks stand behind a segment terminator: leave them out");
    }
    Wrong::Unsaid
}

/// The fault of an outline, where it stands.
pub(crate) fn outline_fault<'a>(at: &Interchange<'_, 'a>, fault: OutlineFault) -> Fault<'a> {
    let place = fault.place().unwrap_or(0);
    let before = part(at.bytes, 0, place);
    Fault {
        coded: code_of("O", fault.number().as_bytes()),
        at: place,
        segment: segment_behind(at.header.delims.terminator, before),
        round: part(at.bytes, place.saturating_sub(ROUND), 2 * ROUND),
        before: place.min(ROUND),
        wrong: wrong_at(at, place),
    }
}

/// What an interchange that is refused was found to hold.
#[derive(Drop)]
pub(crate) enum Cause<'a> {
    /// A structure that can't be read, from its fault on.
    Fault(Fault<'a>),
    /// What isn't as it should be, in words; none where the refusal says it all.
    Words(Text),
}

/// Adds what an element of the header is.
fn say_element(words: &mut Text, name: &str, found: &[u8]) {
    say!(words; name, " is \"", found, "\"");
}

/// Adds that an address isn't as this station's has it.
pub(crate) fn say_address(words: &mut Text, names: &str, found: &Party, me: &Party) {
    say!(words; names, " are ", found, ", this station is ", me);
}

/// Adds a number of a trailer, or that it has none, beside what it should be.
fn say_number(words: &mut Text, name: &str, number: Option<u32>, beside: &str, wanted: u64) {
    say!(words; name, " is ");
    match number {
        Some(number) => say!(words; number),
        None => say!(words; "no number"),
    }
    say!(words; beside, wanted);
}

/// Adds what a note of the trailer was found in, as `IEA02 is 2, ISA13 is 1`.
fn say_trailer(words: &mut Text, note: u16, header: &Header, read: &Outline<'_>) {
    match note {
        1 => say_number(
            words,
            "IEA02",
            read.trailer,
            ", ISA13 is ",
            u64::from(header.icn),
        ),
        21 => say_number(
            words,
            "IEA01",
            read.count,
            ", groups ",
            read.groups.len() as u64,
        ),
        _ => {}
    }
}

/// Adds the standard of the controls, and what should stand there, if that isn't `U` alone.
fn say_standard(words: &mut Text, header: &Header) {
    say_element(words, "ISA11", &[header.standard]);
    if header.repetition().is_some() {
        say!(words; "; with ISA12 ", &header.version, " a repetition separator or U stands there");
    }
}

/// Adds the version of the controls, and of which version the file is, if that is a later one than
/// those that are read.
fn say_version(words: &mut Text, version: &[u8; 5]) {
    say_element(words, "ISA12", version);
    if version.as_slice() > b"00501".as_slice() {
        say!(words; "; the file is of version ", version, "0 (ISA12), and 004010 is read");
    }
}

/// Adds what a note of the header was found in.
fn say_header(words: &mut Text, note: u16, me: &Party, header: &Header) {
    match note {
        2 => say_standard(words, header),
        3 => say_version(words, &header.version),
        8 => say_address(words, "ISA07 and ISA08", &header.receiver, me),
        14 => say_element(words, "ISA09", &header.date),
        15 => say_element(words, "ISA10", &header.time),
        19 => say_element(words, "ISA14", &[header.ack]),
        20 => say_element(words, "ISA15", &[header.usage]),
        _ => {}
    }
}

/// Why an interchange is refused with a note by this station.
pub(crate) fn cause_of<'a>(
    alloc: Global,
    note: u16,
    me: &Party,
    at: &Interchange<'_, 'a>,
) -> Result<Cause<'a>, AllocError> {
    let mut words = Text::new(alloc, Look::Plain);
    say_header(&mut words, note, me, at.header);
    match outline(alloc, at.bytes, at.header) {
        Ok(read) => say_trailer(&mut words, note, at.header, &read),
        Err(OutlineFault::Memory) => return Err(AllocError),
        Err(fault) if note >= 22 => return Ok(Cause::Fault(outline_fault(at, fault))),
        Err(_) => {}
    }
    Ok(Cause::Words(words))
}
