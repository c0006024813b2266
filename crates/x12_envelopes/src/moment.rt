//! The moment at which an interchange is written: a date and a time of day (X12 types DT and TM).

ghost use Rattle.std.specs.Prelude.{◌≡◌, ◌≤◌, ◌↔◌, length, drop, true, is_some, IsTrue, IfSome};
ghost use Rattle.x12_envelopes.specs.Byte.{bytes_are_digits};
ghost use Rattle.x12_envelopes.specs.Moment.{digits_are_between, text_is_month_and_day};
ghost use Rattle.x12_envelopes.specs.Moment.{text_is_date, text_is_time};

use crate::byte::{are_digits, field, value_of};

/// A date and a time of day that the control segments of an interchange can hold.
#[derive(Clone, Copy, Debug, PartialEq, Eq)]
pub struct Moment {
    date: [u8; 8],
    time: [u8; 4],
    ghost with_century: { length date ≡ 8 },
    ghost on_a_day: { text_is_date date ≡ true },
    ghost in_a_day: { text_is_time time ≡ true },
}

impl Moment {
    /// The moment of a date CCYYMMDD and a time HHMM, in digits; `None` where the month isn't 01 to
    /// 12, the day not 01 to 31, the hour above 23, the minute above 59, or a byte is no digit.
    pub fn new(date: [u8; 8], time: [u8; 4]) -> Option<Moment>
        ensures some { IsTrue (is_some result)
            ↔ (IsTrue (text_is_date date) × IsTrue (text_is_time time)) }
        ensures value { IfSome result (λ m. (m.date ≡ date) × (m.time ≡ time)) }
    {
        if !is_date(&date) || !is_time(&time) {
            return None;
        }
        Some(Moment { date, time })
    }

    /// The date as CCYYMMDD.
    pub fn date(&self) -> [u8; 8]
        ensures { result ≡ self.now.date }
    {
        self.date
    }

    /// The date as YYMMDD, as ISA09 holds it.
    pub fn short_date(&self) -> [u8; 6]
        ensures { result ≡ drop 2 self.now.date }
    {
        field(&self.date, 2)
    }

    /// The time of day as HHMM.
    pub fn time(&self) -> [u8; 4]
        ensures { result ≡ self.now.time }
    {
        self.time
    }
}

/// Whether digits spell a number between the two, both included.
fn is_between(low: u32, high: u32, text: &[u8]) -> bool
    requires digits { bytes_are_digits text.now ≡ true }
    requires short { length text.now ≤ 9 }
    ensures { result ≡ digits_are_between low high text.now }
{
    low <= value_of(text) && value_of(text) <= high
}

/// Whether four digits are a month from 01 to 12, then a day from 01 to 31.
fn is_month_and_day(text: &[u8]) -> bool
    requires digits { bytes_are_digits text.now ≡ true }
    requires four { length text.now ≡ 4 }
    ensures { result ≡ text_is_month_and_day text.now }
{
    let (month, day) = text.split_at(2);
    is_between(1, 12, month) && is_between(1, 31, day)
}

/// Whether a text is a date: digits, of which the last four are a month from 01 to 12 and a day
/// from 01 to 31, as in YYMMDD, or with the century CCYYMMDD (X12 type DT). A caller that wants one
/// of the two asks for the length.
#[tactic(auto, unfolding(crate::specs::Moment::text_is_date))]
pub fn is_date(text: &[u8]) -> bool
    ensures { result ≡ text_is_date text.now }
{
    if !are_digits(text) || text.len() < 4 {
        return false;
    }
    let (_, month_and_day) = text.split_at(text.len() - 4);
    is_month_and_day(month_and_day)
}

/// Whether a text is a time of day: four digits, an hour from 00 to 23, then a minute from 00 to 59
/// (X12 type TM).
#[tactic(auto, unfolding(crate::specs::Moment::text_is_time))]
pub fn is_time(text: &[u8]) -> bool
    ensures { result ≡ text_is_time text.now }
{
    if !are_digits(text) || text.len() != 4 {
        return false;
    }
    let (hour, minute) = text.split_at(2);
    is_between(0, 23, hour) && is_between(0, 59, minute)
}
