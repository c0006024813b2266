//! What time it is: a word of the command line, or the clock, in UTC.

use crate::say::{misuse, refusal, trouble};
use crate::stop::Stop;
use std::time::{SystemTime, UNIX_EPOCH};
use x12_envelopes::{Moment, zero_padded};

/// How many days the months have, of a year that isn't a leap year.
const MONTHS: [u64; 12] = [31, 28, 31, 30, 31, 30, 31, 31, 30, 31, 30, 31];

/// Whether a year has 29 February.
fn is_leap(year: u32) -> bool {
    year % 4 == 0 && (year % 100 != 0 || year % 400 == 0)
}

/// The year of a day that is counted from 1 January 1970, and the day in that year from 0; `None`
/// from the year 10000 on.
fn year_of(day: u64) -> Option<(u32, u64)> {
    let mut left = day;
    for year in 1970..10000 {
        let days = if is_leap(year) { 366 } else { 365 };
        if left < days {
            return Some((year, left));
        }
        left -= days;
    }
    None
}

/// The month from 1 of a day of a year from 0, and the day of the month from 1.
fn month_of(day: u64, leap: bool) -> Option<(u32, u64)> {
    let mut left = day;
    let mut month = 0_u32;
    for days in &MONTHS {
        month = month.saturating_add(1);
        let days = if leap && month == 2 { 29 } else { *days };
        if left < days {
            return Some((month, left + 1));
        }
        left -= days;
    }
    None
}

/// Two digits of a number below 100.
fn two(number: u64) -> [u8; 2] {
    zero_padded::<2>((number % 100) as u32)
}

/// The moment so many seconds after the beginning of 1970.
fn moment_after(seconds: u64) -> Option<Moment> {
    let (year, day) = year_of(seconds / 86400)?;
    let (month, day) = month_of(day, is_leap(year))?;
    let [a, b] = two(u64::from(year / 100));
    let [c, d] = two(u64::from(year));
    let [e, f] = two(u64::from(month));
    let [g, h] = two(day);
    let [i, j] = two(seconds / 3600 % 24);
    let [k, l] = two(seconds / 60 % 60);
    Moment::new([a, b, c, d, e, f, g, h], [i, j, k, l])
}

/// The moment of a word CCYYMMDDHHMM.
fn moment_in(word: &str) -> Option<Moment> {
    let [a, b, c, d, e, f, g, h, i, j, k, l] = word.as_bytes() else {
        return None;
    };
    Moment::new([*a, *b, *c, *d, *e, *f, *g, *h], [*i, *j, *k, *l])
}

/// How many seconds have passed since 1970.
pub(crate) fn seconds(rt: &HostRuntime) -> Result<u64, Stop> {
    match SystemTime::now(rt) {
        Ok(now) => match now.duration_since(UNIX_EPOCH) {
            Ok(since) => Ok(since.as_secs()),
            Err(_) => Err(trouble(rt, &["the clock stands before 1970: set it"])),
        },
        Err(error) => Err(refusal(rt, "the clock", "it can't be read", &error)),
    }
}

/// The moment that `--now` gives, or else the clock.
pub(crate) fn moment(rt: &HostRuntime, word: Option<&str>) -> Result<Moment, Stop> {
    if let Some(word) = word {
        return match moment_in(word) {
            Some(at) => Ok(at),
            None => Err(misuse(
                rt,
                &[
                    "--now wants a date and a time of day as CCYYMMDDHHMM, as 202501020930, and not ",
                    word,
                ],
            )),
        };
    }
    match moment_after(seconds(rt)?) {
        Some(at) => Ok(at),
        None => Err(trouble(rt, &["the clock stands behind the year 9999: set it"])),
    }
}
