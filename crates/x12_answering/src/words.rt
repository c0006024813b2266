//! The words of a command line that tell what answering is told (X12.5, ISA05 to ISA10 and ISA13;
//! X12.6, GS01, GS06 and ST01).

ghost use Rattle.std.specs.Prelude.{◌≡◌, ◌≢◌, ◌<◌, ◌≤◌, map, true, Some, IfOk, IfErr, IfSome};
ghost use Rattle.std.specs.Prelude.{IsTrue, is_some, is_none};
ghost use Rattle.std.specs.List.{list_any};
ghost use Rattle.x12_envelopes.specs.Moment.{text_is_date, text_is_time};
ghost use Rattle.x12_envelopes.specs.Party.{is_plain_party};
ghost use Rattle.x12_envelopes.specs.Writing.{texts};
ghost use Rattle.x12_answering.specs.Words.{bytes_are_capitals_or_digits, address_in};
ghost use Rattle.x12_answering.specs.Words.{control_number_in, is_day, is_hour, pair_in_word};
ghost use Rattle.x12_answering.specs.Words.{words_fault};
ghost use Rattle.x12_answering.specs.Words.{AreRead};
ghost use Rattle.x12_answering.specs.declared.words.OptionFault.TheVariants.{Memory};

use crate::number::GREATEST;
use crate::options::Options;
use std::alloc::{AllocError, AllocFailed, Global};
use std::error::Error;
use std::fmt;
use x12_envelopes::{Moment, Party, is_date, is_time, number_of};

/// The words that give the options.
#[derive(Clone, Copy)]
pub struct OptionWords<'a> {
    /// The two characters of the qualifier, then the identifier, as `ZZBETA`.
    pub me: &'a str,
    /// The first interchange control number, as `1`.
    pub icn: &'a str,
    /// The first group control number, as `1`.
    pub gcn: &'a str,
    /// The date, CCYYMMDD, as `20250102`.
    pub date: &'a str,
    /// The time, HHMM, as `0931`.
    pub time: &'a str,
    /// Whether sets are accepted whose only errors are in elements, with these noted.
    pub lenient: bool,
    /// The pairs, GS01 then ST01, as `PO850`.
    pub pairs: &'a [&'a str],
}

/// Why words give no options: the first that holds.
#[derive(Clone, Copy, Debug, PartialEq, Eq)]
pub enum OptionFault {
    /// `me` isn't the address of a plain party.
    Me,
    /// `icn` isn't a control number.
    Icn,
    /// `gcn` isn't a control number.
    Gcn,
    /// `date` isn't a date.
    Date,
    /// `time` isn't a time of day.
    Time,
    /// One of `pairs` isn't a pair.
    Pair,
    /// Want of memory.
    Memory,
}

impl fmt::Display for OptionFault {
    fn fmt<W: fmt::Write>(&self, f: &mut fmt::Formatter<W>) -> fmt::Result {
        f.write_str(match *self {
            OptionFault::Me =>
                "--me wants a qualifier of 2 and an identifier of 2 to 15 capital letters or digits, as ZZBETA",
            OptionFault::Icn => "--icn wants a number from 1 to 999999999, in one to nine digits",
            OptionFault::Gcn => "--gcn wants a number from 1 to 999999999, in one to nine digits",
            OptionFault::Date => "--date wants a date as CCYYMMDD, as 20250102",
            OptionFault::Time => "--time wants a time of day as HHMM, as 0931",
            OptionFault::Pair =>
                "PAIR wants five capital letters or digits, GS01 then ST01, as PO850",
            OptionFault::Memory => "there is not enough memory",
        })
    }
}

impl Error for OptionFault {}

impl From<AllocError> for OptionFault {
    ghost from_gives = { λ _ e. e ≡ Memory };

    fn from(_e: AllocError) -> OptionFault {
        OptionFault::Memory
    }
}

impl<T: Drop> From<AllocFailed<T>> for OptionFault {
    ghost from_gives = { λ _ e. e ≡ Memory };

    fn from(_e: AllocFailed<T>) -> OptionFault {
        OptionFault::Memory
    }
}

/// Whether a word is capital letters and digits alone.
pub fn are_capitals_or_digits(word: &[u8]) -> bool
    ensures { result ≡ bytes_are_capitals_or_digits word.now }
{
    word.iter()
        .all(|b| b.is_ascii_uppercase() || b.is_ascii_digit())
}

/// The plain party whose address a word is.
#[tactic(auto, unfolding(crate::specs::Words::address_in))]
fn read_address(word: &[u8]) -> Option<Party>
    ensures address { result ≡ address_in word.now }
    ensures plain { IfSome result (λ party. IsTrue (is_plain_party party)) }
{
    if !are_capitals_or_digits(word) {
        return None;
    }
    let (qualifier, identifier) = word.split_first_chunk::<2>()?;
    let party = Party::new(*qualifier, identifier)?;
    if party.is_plain() { Some(party) } else { None }
}

/// The control number that a word is.
#[tactic(auto, unfolding(crate::specs::Words::control_number_in))]
fn read_control_number(word: &[u8]) -> Option<u32>
    ensures number { result ≡ control_number_in word.now }
    ensures some { IfSome result (λ number. 0 < number) }
    ensures fits { IfSome result (λ number. number ≤ 999999999) }
{
    match number_of(word) {
        Some(number) if number > 0 && number <= GREATEST => Some(number),
        _ => None,
    }
}

/// The pair that a word is.
#[tactic(auto, unfolding(crate::specs::Words::pair_in_word))]
pub fn read_pair(word: &[u8]) -> Option<([u8; 2], [u8; 3])>
    ensures { result ≡ pair_in_word word.now }
{
    if !are_capitals_or_digits(word) {
        return None;
    }
    let (functional, set) = word.split_first_chunk::<2>()?;
    match <[u8; 3]>::try_from(set) {
        Ok(set) => Some((*functional, set)),
        Err(_) => None,
    }
}

/// The date that a word is.
#[tactic(auto, unfolding(crate::specs::Words::is_day))]
fn read_day(word: &[u8]) -> Option<[u8; 8]>
    ensures some { is_some result ≡ is_day word.now }
    ensures day { IfSome result (λ date. (date ≡ word.now) × (text_is_date date ≡ true)) }
{
    let Ok(date) = <[u8; 8]>::try_from(word) else {
        return None;
    };
    if is_date(&date) { Some(date) } else { None }
}

/// The time of day that a word is.
#[tactic(auto, unfolding(crate::specs::Words::is_hour))]
fn read_time(word: &[u8]) -> Option<[u8; 4]>
    ensures some { is_some result ≡ is_hour word.now }
    ensures hour { IfSome result (λ time. (time ≡ word.now) × (text_is_time time ≡ true)) }
{
    let Ok(time) = <[u8; 4]>::try_from(word) else {
        return None;
    };
    if is_time(&time) { Some(time) } else { None }
}

/// The pairs that words are.
fn read_pairs(alloc: Global, words: &[&str]) -> Result<Vec<([u8; 2], [u8; 3])>, OptionFault>
    ensures pairs { IfOk result (λ pairs.
        map pair_in_word (texts words.now) ≡ map (λ pair. Some pair) pairs.items) }
    ensures fault { IfErr result (λ e. e ≢ OptionFault.Memory → (e ≡ OptionFault.Pair)
        × (list_any (λ word. is_none (pair_in_word word)) (texts words.now) ≡ true)) }
{
    let mut pairs = Vec::new(alloc);
    for word in words {
        match read_pair(word.as_bytes()) {
            Some(pair) => pairs.push(pair)?,
            None => return Err(OptionFault::Pair),
        }
    }
    Ok(pairs)
}

/// Reads the options that words give. Words that give none are refused by the first of
/// `OptionFault` that holds.
#[tactic(auto, unfolding(crate::specs::Words::words_fault))]
pub fn read_options(alloc: Global, words: &OptionWords<'_>) -> Result<Options, OptionFault>
    ensures read { IfOk result (λ options. AreRead words.now options) }
    ensures fault { IfErr result (λ e. e ≢ OptionFault.Memory → words_fault words.now ≡ Some e) }
{
    let Some(me) = read_address(words.me.as_bytes()) else {
        return Err(OptionFault::Me);
    };
    let Some(icn) = read_control_number(words.icn.as_bytes()) else {
        return Err(OptionFault::Icn);
    };
    let Some(gcn) = read_control_number(words.gcn.as_bytes()) else {
        return Err(OptionFault::Gcn);
    };
    let Some(date) = read_day(words.date.as_bytes()) else {
        return Err(OptionFault::Date);
    };
    let Some(time) = read_time(words.time.as_bytes()) else {
        return Err(OptionFault::Time);
    };
    let pairs = read_pairs(alloc, words.pairs)?;
    let at = Moment::new(date, time).unwrap();
    Ok(Options {
        me,
        icn,
        gcn,
        at,
        lenient: words.lenient,
        pairs,
    })
}
