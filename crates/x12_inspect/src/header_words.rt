//! What is wrong with bytes that have no header: which element, and which bytes that stand there in
//! the place of one (X12.5, ISA).

use crate::piece::say;
use crate::text::Text;
use x12_envelopes::{HeaderFault, cut_at};

/// How many bytes ISA01 to ISA15 have.
const LENGTHS: [usize; 15] = [2, 10, 2, 10, 2, 15, 2, 15, 6, 4, 1, 5, 9, 1, 1];

/// The place of the control number among them.
const CONTROL_NUMBER: usize = 13;

/// What begins a file that is no text of one byte a letter, or no X12, and what it is.
struct Front(&'static [u8], &'static str);

/// The fronts of such files.
static FRONTS: [Front; 7] = [
    Front(
        b"\xEF\xBB\xBF",
        "a byte order mark (EF BB BF) stands in front: save the file without it",
    ),
    Front(b"\xFF\xFE", "it is UTF-16: save the file as ASCII or UTF-8"),
    Front(b"\xFE\xFF", "it is UTF-16: save the file as ASCII or UTF-8"),
    Front(b"UNA", "it is EDIFACT, and X12 is read"),
    Front(b"UNB", "it is EDIFACT, and X12 is read"),
    Front(b"GS", "GS stands in front: the line with ISA is missing"),
    Front(
        b"ST",
        "ST stands in front: the lines with ISA and GS are missing",
    ),
];

/// What was found where a header should stand.
#[derive(Clone, Copy)]
pub(crate) enum Wrong<'a> {
    /// No more than the fault says.
    Unsaid,
    /// What the bytes are in place of an interchange.
    Other(&'static str),
    /// An element of ISA by its place, how many bytes it has, and how many it should have.
    Length(usize, usize, usize),
    /// An element of ISA by its place that holds what it may not, or is no number.
    Content(usize, &'a [u8]),
    /// Bytes that can't delimit: elements, components, segments.
    Delimiters(&'a [u8], &'a [u8], &'a [u8]),
}

/// What was found, and its offset from the first byte.
#[derive(Clone, Copy)]
pub(crate) struct Found<'a> {
    pub at: usize,
    pub wrong: Wrong<'a>,
}

/// Bytes from this offset on, so many.
fn range(bytes: &[u8], from: usize, count: usize) -> &[u8] {
    let (_, behind) = bytes.split_at(from.min(bytes.len()));
    let (some, _) = behind.split_at(count.min(behind.len()));
    some
}

/// Whether a byte shows nothing: a space, a tab, a line end, a NUL, or ^Z.
fn is_blank(b: u8) -> bool {
    matches!(b, b' ' | b'\t' | b'\r' | b'\n' | 0 | 0x1A)
}

/// What the bytes are, if all of them are blank.
fn blanks(bytes: &[u8]) -> Option<&'static str> {
    let mut has_end = false;
    for b in bytes {
        if !is_blank(*b) {
            return None;
        }
        has_end |= *b == 0x1A;
    }
    if has_end {
        return Some("nothing but ^Z stands here, an old mark of a file's end: leave it out");
    }
    Some("nothing but blanks stands here: leave them out")
}

/// What the bytes are in place of an interchange, if that can be told.
fn other(bytes: &[u8]) -> Option<&'static str> {
    for front in &FRONTS {
        if bytes.starts_with(front.0) {
            return Some(front.1);
        }
    }
    if bytes.starts_with(b" ") || bytes.starts_with(b"\t") {
        return blanks(bytes).or(Some("blanks stand in front: leave them out"));
    }
    blanks(bytes)
}

/// The first element of ISA that hasn't its length.
fn first_length<'a>(bytes: &'a [u8]) -> Option<Found<'a>> {
    let separator = *bytes.get(3)?;
    let (_, mut rest) = bytes.split_at_checked(4)?;
    let mut at = 4usize;
    for (index, wanted) in LENGTHS.iter().enumerate() {
        let (element, behind) = cut_at(separator, rest)?;
        if element.len() != *wanted {
            let wrong = Wrong::Length(index.saturating_add(1), element.len(), *wanted);
            return Some(Found { at, wrong });
        }
        at = at.saturating_add(wanted.saturating_add(1));
        rest = behind;
    }
    None
}

/// Whether an element holds a delimiter or a control byte.
fn holds_barred(element: &[u8], delims: &[u8; 3]) -> bool {
    for b in element {
        if *b < 0x20 || delims.contains(b) {
            return true;
        }
    }
    false
}

/// Whether bytes are digits alone.
fn are_digits(bytes: &[u8]) -> bool {
    for b in bytes {
        if !b.is_ascii_digit() {
            return false;
        }
    }
    true
}

/// The first element of ISA, each of its length, that holds what it may not.
fn first_content<'a>(bytes: &'a [u8]) -> Option<Found<'a>> {
    let delims = [*bytes.get(3)?, *bytes.get(104)?, *bytes.get(105)?];
    let mut at = 4usize;
    for (index, length) in LENGTHS.iter().enumerate() {
        let place = index.saturating_add(1);
        let element = range(bytes, at, *length);
        let is_number = place != CONTROL_NUMBER || are_digits(element);
        if !is_number || holds_barred(element, &delims) {
            let wrong = Wrong::Content(place, element);
            return Some(Found { at, wrong });
        }
        at = at.saturating_add(length.saturating_add(1));
    }
    None
}

/// The delimiters that ISA names, which can't be ones.
fn delimiters<'a>(bytes: &'a [u8]) -> Option<Found<'a>> {
    let (element, component) = (range(bytes, 3, 1), range(bytes, 104, 1));
    let terminator = range(bytes, 105, 1);
    let first = *element.first()?;
    let is_first = first.is_ascii_alphanumeric() || matches!(first, b' ' | b'\r' | b'\n');
    let at = if is_first {
        3
    } else if component == element || *component.first()? == b' ' {
        104
    } else {
        105
    };
    let wrong = Wrong::Delimiters(element, component, terminator);
    Some(Found { at, wrong })
}

/// What was found where a header should stand, and has this fault.
pub(crate) fn found_of<'a>(bytes: &'a [u8], fault: HeaderFault) -> Found<'a> {
    if let Some(what) = other(bytes) {
        let wrong = Wrong::Other(what);
        return Found { at: 0, wrong };
    }
    let found = match fault {
        HeaderFault::NotIsa if bytes.starts_with(b"ISA") => first_length(bytes),
        HeaderFault::BadDelimiters => delimiters(bytes),
        HeaderFault::BadField => first_content(bytes),
        _ => None,
    };
    found.unwrap_or(Found {
        at: 0,
        wrong: Wrong::Unsaid,
    })
}

impl Wrong<'_> {
    /// Adds what was found, as `ISA06 has 5 bytes, not 15`.
    pub(crate) fn say(&self, words: &mut Text) {
        match *self {
            Wrong::Unsaid => {}
            Wrong::Other(what) => say!(words; what),
            Wrong::Length(place, has, wanted) => {
                say_name(words, place);
                say!(words; " has ", has, " bytes, not ", wanted);
            }
            Wrong::Content(place, value) => {
                say_name(words, place);
                say!(words; " is \"", value, "\"");
            }
            Wrong::Delimiters(element, component, terminator) => {
                say!(words; "the element separator is \"", element, "\", the component separator \"");
                say!(words; component, "\", the segment terminator \"", terminator, "\"");
            }
        }
    }
}

/// Adds the name of an element of ISA, as `ISA06`.
fn say_name(words: &mut Text, place: usize) {
    say!(words; if place < 10 { "ISA0" } else { "ISA" }, place);
}
