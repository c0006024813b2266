//! The lines of a table, word by word.

ghost use Rattle.std.specs.Prelude.{◌≤◌, length};

use crate::element::ElementKind;
use x12_envelopes::{cut_at, number_of};

/// The first line of a text without the blanks round it, and what stands behind it.
pub(crate) fn first_line<'t>(text: &'t [u8]) -> (&'t [u8], &'t [u8]) {
    match cut_at(b'\n', text) {
        Some((line, behind)) => (line.trim_ascii(), behind),
        None => (text.trim_ascii(), &[]),
    }
}

/// How many bytes the first word of a line has.
fn word_len(line: &[u8]) -> usize
    ensures within { result ≤ length line.now }
{
    line.iter()
        .take_while(|b| !b.is_ascii_whitespace())
        .count()
        .min(line.len())
}

/// The first word of a line, and what stands behind it; both are empty where no word is left.
pub(crate) fn first_word<'t>(line: &'t [u8]) -> (&'t [u8], &'t [u8]) {
    let (word, behind) = line.split_at(word_len(line));
    (word, behind.trim_ascii_start())
}

/// Whether a word says that something has to be there, or that it may be there.
pub(crate) fn required(word: &[u8]) -> Option<bool> {
    match word {
        b"must" => Some(true),
        b"may" => Some(false),
        _ => None,
    }
}

/// The kind that a word names, by the standard's types.
fn kind_of(word: &[u8]) -> Option<ElementKind> {
    match word {
        b"AN" | b"ID" => Some(ElementKind::Text),
        b"R" => Some(ElementKind::Decimal),
        b"DT" => Some(ElementKind::Date),
        b"TM" => Some(ElementKind::Time),
        [b'N', b'0'..=b'9'] => Some(ElementKind::Integer),
        _ => None,
    }
}

/// Whether a word is an identifier of a transaction set (ST01): three digits.
pub(crate) fn is_set(word: &[u8]) -> bool {
    word.len() == 3 && number_of(word).is_some()
}

/// Whether a word may be the identifier of a segment: two or three capitals and digits, the first a
/// capital.
pub(crate) fn is_segment(word: &[u8]) -> bool {
    for b in word {
        if !b.is_ascii_uppercase() && !b.is_ascii_digit() {
            return false;
        }
    }
    match word.first() {
        Some(b) => b.is_ascii_uppercase() && matches!(word.len(), 2 | 3),
        None => false,
    }
}

/// What the words of an element's row say, but its name and its codes.
#[derive(Clone, Copy)]
pub(crate) struct Numbers {
    pub place: usize,
    pub reference: u32,
    pub is_required: bool,
    pub kind: ElementKind,
    pub least: usize,
    pub most: usize,
}

/// What a word at the front of an element's row has to be.
pub(crate) const PLACE: &str = "the place of an element is a number from 1";

/// The same of its number in the dictionary.
const REFERENCE: &str = "behind the place stands the element's number in the dictionary";

/// The same of whether it has to be there.
const REQUIRED: &str = "behind the element's number stands must or may";

/// The same of its type.
const KIND: &str = "a type is AN, ID, N0 to N9, R, DT or TM";

/// The same of its lengths.
const LENGTHS: &str =
    "behind the type stand the least and the greatest length, the first not above the other";

/// The place and the number of an element, and what stands behind them.
fn place_of<'w>(words: &'w [u8]) -> Result<(usize, u32, &'w [u8]), &'static str> {
    let (word, words) = first_word(words);
    let Some(place) = number_of(word) else {
        return Err(PLACE);
    };
    if place == 0 {
        return Err(PLACE);
    }
    let (word, words) = first_word(words);
    match number_of(word) {
        Some(reference) => Ok((place as usize, reference, words)),
        None => Err(REFERENCE),
    }
}

/// The least and the greatest length of an element, and what stands behind them.
fn lengths_of<'w>(words: &'w [u8]) -> Result<(usize, usize, &'w [u8]), &'static str> {
    let (least, words) = first_word(words);
    let (most, words) = first_word(words);
    match (number_of(least), number_of(most)) {
        (Some(least), Some(most)) if least <= most => Ok((least as usize, most as usize, words)),
        _ => Err(LENGTHS),
    }
}

/// What the words behind a segment's identifier say of an element, and its name and its codes behind
/// them; or what a word has to be that isn't that.
pub(crate) fn numbers_of<'w>(words: &'w [u8]) -> Result<(Numbers, &'w [u8]), &'static str> {
    let (place, reference, words) = place_of(words)?;
    let (word, words) = first_word(words);
    let Some(is_required) = required(word) else {
        return Err(REQUIRED);
    };
    let (word, words) = first_word(words);
    let Some(kind) = kind_of(word) else {
        return Err(KIND);
    };
    let (least, most, words) = lengths_of(words)?;
    let numbers = Numbers {
        place,
        reference,
        is_required,
        kind,
        least,
        most,
    };
    Ok((numbers, words))
}

/// A name, and the codes behind its colon.
pub(crate) fn named<'w>(words: &'w [u8]) -> (&'w [u8], &'w [u8]) {
    match cut_at(b':', words) {
        Some((name, codes)) => (name.trim_ascii(), codes.trim_ascii()),
        None => (words, &[]),
    }
}
