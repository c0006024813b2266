//! `van verify`: whether a station's records are what its history tells.

use crate::clock::moment;
use crate::differing::difference_text;
use crate::form::Form;
use crate::history::unanswered;
use crate::opening::{OpensRecords, open_a_station};
use crate::options::{JSON, form_of, text};
use crate::say::{say, trouble_at};
use crate::stop::Stop;
use clap::ArgMatches;
use command_table::{Kind, Row, Word};
use std::alloc::{AllocError, Global};
use x12_verify::{Difference, Outcome, Sound, verify as verify_records};

const MORE: &str = "\
What was submitted and what came is told again, in its order, and what comes of
that is held against the records. It takes as much memory as they hold.

Exit status:
  0  nothing differs
  1  something does: a sentence on standard error says what is the first
  2  the command line is wrong";

/// The words of the command.
static WORDS: [Word; 2] = [
    Word {
        kind: Kind::One,
        name: "dir",
        value: "DIR",
        help: "The folder of a station",
    },
    JSON,
];

/// The command's part of the command line.
pub(crate) fn row() -> Row {
    Row {
        name: "verify",
        about: "Computes a station's statuses, postings and numbers again, and names the first difference.",
        more: MORE,
        words: &WORDS,
    }
}

/// What the words say.
#[derive(Clone, Copy)]
pub(crate) struct VerifyWords<'a> {
    /// The folder.
    dir: &'a str,
    /// `--json`.
    form: Form,
}

impl<'a> VerifyWords<'a> {
    /// Reads the words.
    pub(crate) fn of(found: &ArgMatches<'a>) -> VerifyWords<'a> {
        VerifyWords {
            dir: text(found, "dir"),
            form: form_of(found),
        }
    }
}

/// The line that says what was verified.
fn sound_text(alloc: Global, form: Form, sound: &Sound) -> Result<String, AllocError> {
    let Sound {
        submitted,
        came,
        postings,
    } = *sound;
    if form == Form::Json {
        return format!(in alloc;
            "{{\"sound\":true,\"submitted\":{submitted},\"came\":{came},\"postings\":{postings}}}"
        );
    }
    format!(in alloc; "sound: {submitted} submitted, {came} came, {postings} postings")
}

/// Says how records differ, and is the reason to stop.
fn differ(rt: &HostRuntime, dir: &str, difference: Difference) -> Stop {
    match difference_text(rt.alloc(), difference) {
        Ok(why) => trouble_at(rt, dir, why.as_str()),
        Err(AllocError) => Stop::Memory,
    }
}

/// Says whether a station's records are what its history tells.
pub(crate) fn verify<O: OpensRecords>(
    rt: &HostRuntime,
    opens: &O,
    words: &VerifyWords<'_>,
) -> Result<u8, Stop> {
    let station = open_a_station(rt, opens, words.dir)?;
    let mut records = station.close();
    let at = moment(rt, None)?;
    let sound = match verify_records(rt.alloc(), &mut records, &at) {
        Ok(Outcome::Sound(sound)) => sound,
        Ok(Outcome::Differs(difference)) => return Err(differ(rt, words.dir, difference)),
        Err(fault) => return Err(unanswered(rt, words.dir, fault)),
    };
    say(rt, &[sound_text(rt.alloc(), words.form, &sound)?.as_str()])?;
    Ok(0)
}
