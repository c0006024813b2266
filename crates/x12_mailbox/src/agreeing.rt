//! `van agree`: which transaction sets a station takes from a partner, and whether leniently.

use crate::opening::{OpensRecords, open_a_station};
use crate::options::{DIR, STATUSES, text};
use crate::reason::station_text;
use crate::say::{misuse, say, trouble};
use crate::stop::Stop;
use crate::words::{pair_of, party_text, wanted_party};
use clap::ArgMatches;
use command_table::{Kind, Row, Word};
use std::alloc::{AllocError, Global};
use x12_envelopes::Party;
use x12_judge::Agreement;
use x12_station::{Records, Station, StationFault};

/// The words of the command.
static WORDS: [Word; 4] = [
    DIR,
    Word {
        kind: Kind::One,
        name: "party",
        value: "QQID",
        help: "The partner, as ZZALPHA",
    },
    Word {
        kind: Kind::Flag,
        name: "lenient",
        value: "",
        help: "Accepts sets whose only errors are in elements, with these noted",
    },
    Word {
        kind: Kind::Many,
        name: "pairs",
        value: "PAIR",
        help: "GS01 then ST01 of what is taken from it, as PO850; none: nothing any more",
    },
];

/// The command's part of the command line.
pub(crate) fn row() -> Row {
    Row {
        name: "agree",
        about: "Says which transaction sets a station takes from a partner.",
        more: STATUSES,
        words: &WORDS,
    }
}

/// What the words say.
#[derive(Clone, Copy)]
pub(crate) struct AgreeWords<'w, 'a> {
    /// The folder.
    dir: &'a str,
    /// The partner.
    party: &'a str,
    /// `--lenient`.
    lenient: bool,
    /// What is taken from it.
    pairs: Option<&'w [&'a str]>,
}

impl<'w, 'a> AgreeWords<'w, 'a> {
    /// Reads the words.
    pub(crate) fn of(found: &'w ArgMatches<'a>) -> AgreeWords<'w, 'a> {
        AgreeWords {
            dir: text(found, "dir"),
            party: text(found, "party"),
            lenient: found.get_flag("lenient"),
            pairs: found.get_strs("pairs"),
        }
    }
}

/// The pairs of the words.
fn pairs_of(rt: &HostRuntime, words: &[&str]) -> Result<Vec<([u8; 2], [u8; 3])>, Stop> {
    let mut pairs = Vec::new(rt.alloc());
    for word in words {
        match pair_of(word) {
            Some(pair) => pairs.push(pair)?,
            None => {
                return Err(misuse(
                    rt,
                    &[
                        "PAIR wants five capital letters or digits, GS01 then ST01, as PO850, and not ",
                        word,
                    ],
                ));
            }
        }
    }
    Ok(pairs)
}

/// Says why a station did nothing.
pub(crate) fn station_trouble(rt: &HostRuntime, place: &str, fault: StationFault) -> Stop {
    match station_text(rt.alloc(), fault) {
        Ok(why) => trouble(rt, &[place, ": ", why.as_str()]),
        Err(_) => Stop::Memory,
    }
}

/// What is taken from a partner, as `takes PO850 from ZZ/ALPHA leniently`.
fn taken_text(
    alloc: Global,
    words: &AgreeWords<'_, '_>,
    partner: &Party,
) -> Result<String, AllocError> {
    let pairs = words.pairs.unwrap_or(&[]);
    let mut text = String::from_str(alloc, "takes")?;
    for word in pairs {
        text.push(' ')?;
        text.push_str(word)?;
    }
    if pairs.is_empty() {
        text.push_str(" nothing")?;
    }
    text.push_str(" from ")?;
    text.push_str(party_text(alloc, partner)?.as_str())?;
    if words.lenient && !pairs.is_empty() {
        text.push_str(" leniently")?;
    }
    Ok(text)
}

/// Makes an agreement, and says it.
fn agree_at<R: Records>(
    rt: &HostRuntime,
    station: &mut Station<R>,
    words: &AgreeWords<'_, '_>,
    partner: Party,
    pairs: Vec<([u8; 2], [u8; 3])>,
) -> Result<u8, Stop> {
    let agreement = Agreement {
        partner,
        lenient: words.lenient,
        pairs,
    };
    if let Err(fault) = station.set_agreement(agreement) {
        return Err(station_trouble(rt, words.dir, fault));
    }
    let taken = taken_text(rt.alloc(), words, &partner)?;
    say(rt, &[taken.as_str()])?;
    Ok(0)
}

/// Says which transaction sets a station takes from a partner.
pub(crate) fn agree<O: OpensRecords>(
    rt: &HostRuntime,
    opens: &O,
    words: &AgreeWords<'_, '_>,
) -> Result<u8, Stop> {
    let partner = wanted_party(rt, "QQID", words.party)?;
    let pairs = pairs_of(rt, words.pairs.unwrap_or(&[]))?;
    let mut station = open_a_station(rt, opens, words.dir)?;
    let done = agree_at(rt, &mut station, words, partner, pairs);
    drop(station.close());
    done
}
