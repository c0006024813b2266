//! What a rule says of an element, and what is wrong with one (X12.6, data element types).

ghost use Rattle.std.specs.Prelude.{◌≡◌, ◌≤◌, ◌&&◌, length, unwrap_or, nat_le};
ghost use Rattle.x12_envelopes.specs.Byte.{bytes_are_digits, number_of_digits};
ghost use Rattle.x12_lint.specs.Element.{flaw_of_element, is_of_kind, digits_of, length_by};
ghost use Rattle.x12_lint.specs.Element.{behind_sign, is_decimal, is_calendar_day, is_moment, is_code_listed};
ghost use Rattle.x12_lint.specs.Element.{points_of, is_leap_year, days_of_month, flaw_of_empty};

use x12_envelopes::{cut_at, is_date, is_time, number_of};

/// What an element holds (X12.6, data element types).
#[derive(Clone, Copy, PartialEq, Eq)]
pub enum ElementKind {
    /// Any text (AN, ID).
    Text,
    /// A number without a point, and with a sign in front, if it is negative (N0 to N9).
    Integer,
    /// A number that may have a point (R).
    Decimal,
    /// A day of the calendar, CCYYMMDD (DT).
    Date,
    /// A time of day, HHMM, with seconds and parts of them (TM).
    Time,
}

/// What is wrong with an element.
#[derive(Clone, Copy, PartialEq, Eq)]
pub enum Flaw {
    /// It is empty, and has to be there.
    Missing,
    /// It isn't of its kind.
    OfAnotherKind,
    /// It has fewer letters or digits than it may have.
    TooShort,
    /// It has more.
    TooLong,
    /// It is none of its codes.
    OfAnotherCode,
}

/// A row of the table: what an element has to be.
#[derive(Drop)]
pub struct Rule {
    /// The element's place in its segment, from 1.
    pub place: usize,
    /// Its number in the data element dictionary.
    pub reference: u32,
    /// Whether it has to be there.
    pub is_required: bool,
    /// What it holds.
    pub kind: ElementKind,
    /// Its least length.
    pub least: usize,
    /// Its greatest length.
    pub most: usize,
    /// Its name.
    pub name: Vec<u8>,
    /// Its codes, which spaces part; empty, where any value will do.
    pub codes: Vec<u8>,
}

/// How many digits a text has.
fn digits(text: &[u8]) -> usize
    ensures count { result ≡ digits_of text.now }
    ensures within { result ≤ length text.now }
{
    text.iter().filter(|b| b.is_ascii_digit()).count()
}

/// How many decimal points a text has.
fn points(text: &[u8]) -> usize
    ensures { result ≡ points_of text.now }
{
    text.iter().filter(|b| **b == b'.').count()
}

/// A text without the sign in front.
fn unsigned<'a>(text: &'a [u8]) -> &'a [u8]
    ensures { result.now ≡ behind_sign text.now }
{
    text.strip_prefix(b"-").unwrap_or(text)
}

/// Whether a text is digits alone, or empty.
fn are_digits(text: &[u8]) -> bool
    ensures { result ≡ bytes_are_digits text.now }
{
    text.iter().all(|b| b.is_ascii_digit())
}

/// Whether a text is digits alone, at least one.
fn is_number(text: &[u8]) -> bool
    ensures { result ≡ (nat_le 1 (length text.now) && bytes_are_digits text.now) }
{
    text.len() >= 1 && are_digits(text)
}

/// Whether a text is digits with a point or none.
fn is_decimal_text(text: &[u8]) -> bool
    ensures { result ≡ is_decimal text.now }
{
    let digits = digits(text);
    let points = points(text);
    digits >= 1 && points <= 1 && text.len() - digits <= points
}

/// The number that digits spell; 0, where they spell none.
fn value(text: &[u8]) -> u32
    ensures { result ≡ unwrap_or (number_of_digits text.now) 0 }
{
    number_of(text).unwrap_or(0)
}

/// Whether a year has a 29th of February (the Gregorian calendar).
fn has_leap_day(year: u32) -> bool
    ensures { result ≡ is_leap_year year }
{
    year % 4 == 0 && year % 100 != 0 || year % 400 == 0
}

/// How many days a month of a year has.
#[tactic(auto, unfolding(crate::specs::Element::days_of_month))]
fn days_in(year: u32, month: u32) -> u32
    ensures { result ≡ days_of_month year month }
{
    if month == 2 {
        return if has_leap_day(year) { 29 } else { 28 };
    }
    if month == 4 || month == 6 || month == 9 || month == 11 {
        return 30;
    }
    31
}

/// Whether a text is a day of the calendar, CCYYMMDD.
#[tactic(auto, unfolding(crate::specs::Element::is_calendar_day))]
fn is_day_text(text: &[u8]) -> bool
    ensures { result ≡ is_calendar_day text.now }
{
    if text.len() != 8 || !is_date(text) {
        return false;
    }
    let (year, behind) = text.split_at(4);
    let (month, day) = behind.split_at(2);
    value(day) <= days_in(value(year), value(month))
}

/// Whether a text is a time of day.
#[tactic(auto, unfolding(crate::specs::Element::is_moment))]
fn is_moment_text(text: &[u8]) -> bool
    ensures { result ≡ is_moment text.now }
{
    if text.len() < 4 {
        return false;
    }
    let (front, behind) = text.split_at(4);
    is_time(front) && behind.len() != 1 && are_digits(behind)
}

impl ElementKind {
    /// Whether a text is of this kind.
    pub(crate) fn holds(self, text: &[u8]) -> bool
        ensures { result ≡ is_of_kind self text.now }
    {
        match self {
            ElementKind::Text => true,
            ElementKind::Integer => is_number(unsigned(text)),
            ElementKind::Decimal => is_decimal_text(unsigned(text)),
            ElementKind::Date => is_day_text(text),
            ElementKind::Time => is_moment_text(text),
        }
    }

    /// What a text of this kind is, in words.
    pub fn words(self) -> &'static str {
        match self {
            ElementKind::Text => "a text",
            ElementKind::Integer => "a number without a point",
            ElementKind::Decimal => "a number",
            ElementKind::Date => "a day, CCYYMMDD",
            ElementKind::Time => "a time, HHMM",
        }
    }

    /// The length of a text of this kind: a sign and a point aren't counted.
    fn length(self, text: &[u8]) -> usize
        ensures { result ≡ length_by self text.now }
    {
        match self {
            ElementKind::Integer | ElementKind::Decimal => digits(text),
            ElementKind::Text | ElementKind::Date | ElementKind::Time => text.len(),
        }
    }
}

/// Whether a text is one of these codes, which spaces part.
fn is_one_of(codes: &[u8], text: &[u8]) -> bool
    ensures { result ≡ is_code_listed codes.now text.now }
{
    let mut rest = codes;
    while let Some((code, behind)) = cut_at(b' ', rest) {
        if code == text {
            return true;
        }
        rest = behind;
    }
    rest == text
}

/// What is wrong with an element that is empty.
fn missing(rule: &Rule) -> Option<Flaw>
    ensures { result ≡ flaw_of_empty rule.now }
{
    if rule.is_required {
        return Some(Flaw::Missing);
    }
    None
}

/// What is wrong with an element by its rule: the first that holds.
#[tactic(auto, unfolding(crate::specs::Element::flaw_of_element))]
pub fn flaw_of(rule: &Rule, text: &[u8]) -> Option<Flaw>
    ensures { result ≡ flaw_of_element rule.now text.now }
{
    if text.is_empty() {
        return missing(rule);
    }
    if !rule.kind.holds(text) {
        return Some(Flaw::OfAnotherKind);
    }
    let length = rule.kind.length(text);
    if length < rule.least {
        return Some(Flaw::TooShort);
    }
    if length > rule.most {
        return Some(Flaw::TooLong);
    }
    let codes = rule.codes.as_slice();
    if !codes.is_empty() && !is_one_of(codes, text) {
        return Some(Flaw::OfAnotherCode);
    }
    None
}
