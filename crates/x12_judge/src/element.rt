//! The elements of a purchase order that are checked (997, AK4), as docs/profile.md shows them.

ghost use Rattle.std.specs.Prelude.{◌≡◌, ◌≤◌, ◌==◌, ◌||◌, ◌&&◌, not, length};
ghost use Rattle.std.specs.List.{list_any, position_or_len};
ghost use Rattle.x12_envelopes.specs.Byte.{bytes_are_digits};
ghost use Rattle.x12_judge.specs.Element.{rules_of_elements, fault_of_element};
ghost use Rattle.x12_judge.specs.Element.{is_date_form, is_number_form, copy_of_element};

use crate::verdict::ElementCode;
use x12_envelopes::{Delims, is_date};

/// What an element holds (X12.6, data element types).
#[derive(Clone, Copy, PartialEq, Eq)]
pub enum Form {
    /// Any text (AN, ID).
    Text,
    /// A date CCYYMMDD (DT).
    Date,
    /// Digits (N0).
    Number,
}

impl Form {
    /// Whether it asks for a date.
    fn is_date(self) -> bool
        ensures { result ≡ is_date_form self }
    {
        matches!(self, Form::Date)
    }

    /// Whether it asks for digits.
    fn is_number(self) -> bool
        ensures { result ≡ is_number_form self }
    {
        matches!(self, Form::Number)
    }
}

/// What is asked of an element: each of them is mandatory.
#[derive(Clone, Copy)]
pub struct ElementRule {
    /// The identifier of its segment.
    pub segment: [u8; 3],
    /// Its place in the segment, from 1.
    pub place: u8,
    /// Its number in the data element dictionary.
    pub reference: u16,
    /// Its least length in bytes.
    pub least: usize,
    /// Its greatest length in bytes.
    pub most: usize,
    /// What it holds.
    pub form: Form,
}

/// The elements of a purchase order that are checked, by segment and place.
static ELEMENT_RULES: [ElementRule; 5] = [
    ElementRule {
        segment: *b"BEG",
        place: 1,
        reference: 353,
        least: 2,
        most: 2,
        form: Form::Text,
    },
    ElementRule {
        segment: *b"BEG",
        place: 2,
        reference: 92,
        least: 2,
        most: 2,
        form: Form::Text,
    },
    ElementRule {
        segment: *b"BEG",
        place: 3,
        reference: 324,
        least: 1,
        most: 22,
        form: Form::Text,
    },
    ElementRule {
        segment: *b"BEG",
        place: 5,
        reference: 373,
        least: 8,
        most: 8,
        form: Form::Date,
    },
    ElementRule {
        segment: *b"CTT",
        place: 1,
        reference: 354,
        least: 1,
        most: 6,
        form: Form::Number,
    },
];

/// The elements of a purchase order that are checked, by segment and place.
pub fn element_rules() -> &'static [ElementRule]
    ensures { result.now ≡ rules_of_elements }
{
    &ELEMENT_RULES
}

/// Whether an element holds nothing but digits.
fn are_digits(value: &[u8]) -> bool
    ensures { result ≡ bytes_are_digits value.now }
{
    value.iter().all(|b| b.is_ascii_digit())
}

/// Whether an element holds a byte.
fn has_byte(value: &[u8], byte: u8) -> bool
    ensures { result ≡ list_any (λ b. b == byte) value.now }
{
    value.iter().any(|b| *b == byte)
}

/// Whether an element holds a character that it may not hold.
fn has_invalid_character(delims: &Delims, form: Form, value: &[u8]) -> bool
    ensures { result
        ≡ (list_any (λ b. b == delims.now.component) value.now
        || is_number_form form && not (bytes_are_digits value.now)) }
{
    has_byte(value, delims.component) || form.is_number() && !are_digits(value)
}

/// What is wrong with an element: the first that holds.
#[tactic(auto, unfolding(crate::specs::Element::fault_of_element))]
pub(crate) fn element_fault(
    delims: &Delims,
    rule: &ElementRule,
    value: &[u8],
) -> Option<ElementCode>
    ensures { result ≡ fault_of_element delims.now rule.now value.now }
{
    if value.is_empty() {
        return Some(ElementCode::Missing);
    }
    if value.len() < rule.least {
        return Some(ElementCode::TooShort);
    }
    if value.len() > rule.most {
        return Some(ElementCode::TooLong);
    }
    if has_invalid_character(delims, rule.form, value) {
        return Some(ElementCode::InvalidCharacter);
    }
    if rule.form.is_date() && !is_date(value) {
        return Some(ElementCode::InvalidDate);
    }
    None
}

/// How many bytes stand in front of the first separator; all, where there is none.
pub(crate) fn front_len(bytes: &[u8], separator: u8) -> usize
    ensures count { result ≡ position_or_len (λ b. b == separator) bytes.now }
    ensures within { result ≤ length bytes.now }
{
    bytes.iter().take_while(|b| **b != separator).count()
}

/// The copy of an element (AK404): up to 99 bytes, ended before the first component separator.
#[tactic(auto, using(std::proofs::lemmas::List::take_min), unfolding(crate::specs::Element::copy_of_element))]
pub(crate) fn copy_of<'a>(delims: &Delims, value: &'a [u8]) -> &'a [u8]
    ensures { result.now ≡ copy_of_element delims.now value.now }
{
    let (kept, _) = value.split_at(usize::min(99, value.len()));
    let (copy, _) = kept.split_at(front_len(kept, delims.component));
    copy
}
