//! What `van log` looks for, and the line of what it found.

use crate::form::Form;
use crate::logging::LogWords;
use crate::say::{misuse, say, say_columns, trouble};
use crate::stop::Stop;
use crate::words::{party_text, wanted_party};
use std::alloc::{AllocError, Global};
use std::io::Write;
use x12_envelopes::{Party, number_of};

/// What is looked for, and whether it was found.
#[derive(Drop)]
pub(crate) struct Search<'a> {
    /// Who reaches files.
    pub(crate) rt: &'a HostRuntime,
    /// The folder.
    pub(crate) dir: &'a str,
    /// The partner, of whom or to whom it is.
    partner: Option<Party>,
    /// The interchange's number.
    number: Option<u32>,
    /// What stands in it.
    text: Option<&'a str>,
    /// Whether it is written as it is.
    bytes: bool,
    /// How lines are written.
    form: Form,
    /// Whether something was found.
    found: bool,
}

/// What is said of an interchange, or of a transaction set.
#[derive(Drop)]
pub(crate) struct Told {
    /// What it is: `out`, `in`, `posted` or `took`.
    pub(crate) what: &'static str,
    /// `to` or `from`.
    pub(crate) way: &'static str,
    /// The interchange's number.
    pub(crate) icn: u32,
    /// The places of a set's group and of the set in it, from 1.
    pub(crate) set: Option<(u16, u16)>,
    /// To whom it went, or from whom it came.
    pub(crate) partner: Party,
    /// What more there is to say: letters, digits, spaces, commas and slashes.
    pub(crate) said: String,
}

/// The line of what is told, in words.
fn words_of(alloc: Global, told: &Told) -> Result<String, AllocError> {
    let partner = party_text(alloc, &told.partner)?;
    let (what, way, icn) = (told.what, told.way, told.icn);
    let said = told.said.as_str();
    match told.set {
        Some((group, set)) => format!(in alloc;
            "{what} {icn:09} {group:02} {set:03} {way} {partner}, {said}"
        ),
        None => format!(in alloc; "{what} {icn:09} {way} {partner}, {said}"),
    }
}

/// The same as an object.
fn object_of(alloc: Global, told: &Told) -> Result<String, AllocError> {
    let partner = party_text(alloc, &told.partner)?;
    let (what, icn) = (told.what, told.icn);
    let said = told.said.as_str();
    match told.set {
        Some((group, set)) => format!(in alloc;
            "{{\"what\":\"{what}\",\"interchange\":{icn},\"group\":{group},\"set\":{set},\"partner\":\"{partner}\",\"said\":\"{said}\"}}"
        ),
        None => format!(in alloc;
            "{{\"what\":\"{what}\",\"interchange\":{icn},\"partner\":\"{partner}\",\"said\":\"{said}\"}}"
        ),
    }
}

/// The same as a line of a table.
fn row_of(alloc: Global, told: &Told) -> Result<String, AllocError> {
    let partner = party_text(alloc, &told.partner)?;
    let (what, icn) = (told.what, told.icn);
    let said = told.said.as_str();
    match told.set {
        Some((group, set)) => format!(in alloc;
            "{what},{icn:09},{group},{set},{partner},\"{said}\""
        ),
        None => format!(in alloc; "{what},{icn:09},,,{partner},\"{said}\""),
    }
}

/// Whether a text stands in bytes.
fn holds(bytes: &[u8], text: &[u8]) -> bool {
    for from in 0..bytes.len() {
        if bytes[from..].starts_with(text) {
            return true;
        }
    }
    false
}

impl<'a> Search<'a> {
    /// Whether an interchange of this number is looked for, in which these bytes stand.
    pub(crate) fn wants(&self, icn: u32, bytes: &[u8]) -> bool {
        self.number.map_or(true, |wanted| wanted == icn)
            && self.text.map_or(true, |text| holds(bytes, text.as_bytes()))
    }

    /// Whether one to this party or from it is looked for.
    pub(crate) fn wants_party(&self, party: &Party) -> bool {
        self.partner.map_or(true, |wanted| wanted == *party)
    }

    /// Whether interchanges are written as they are.
    pub(crate) fn wants_bytes(&self) -> bool {
        self.bytes
    }

    /// Prints the names of the columns, where lines are those of a table.
    pub(crate) fn begin(&self) -> Result<(), Stop> {
        if self.bytes {
            return Ok(());
        }
        say_columns(
            self.rt,
            self.form,
            "what,interchange,group,set,partner,said",
        )
    }

    /// Prints what was found.
    pub(crate) fn tell(&mut self, told: &Told) -> Result<(), Stop> {
        self.found = true;
        let alloc = self.rt.alloc();
        let line = match self.form {
            Form::Words => words_of(alloc, told)?,
            Form::Json => object_of(alloc, told)?,
            Form::Csv => row_of(alloc, told)?,
        };
        say(self.rt, &[line.as_str()])
    }

    /// Writes an interchange that was found, as it is.
    pub(crate) fn write(&mut self, bytes: &[u8]) -> Result<(), Stop> {
        self.found = true;
        self.rt.stdout().write_all(bytes)?;
        Ok(())
    }

    /// The status, where all was looked at.
    pub(crate) fn ended(&self) -> Result<u8, Stop> {
        if self.found {
            return Ok(0);
        }
        Err(trouble(self.rt, &["nothing was found in ", self.dir]))
    }
}

/// The partner that is asked for.
fn partner_of(rt: &HostRuntime, words: &LogWords<'_>) -> Result<Option<Party>, Stop> {
    match words.partner {
        Some(word) => Ok(Some(wanted_party(rt, "--partner", word)?)),
        None => Ok(None),
    }
}

/// The number that is asked for.
fn number_wanted(rt: &HostRuntime, words: &LogWords<'_>) -> Result<Option<u32>, Stop> {
    let Some(word) = words.number else {
        return Ok(None);
    };
    match number_of(word.as_bytes()) {
        Some(number) => Ok(Some(number)),
        None => Err(misuse(
            rt,
            &[
                "--number wants a number from 0 to 999999999, and not ",
                word,
            ],
        )),
    }
}

/// What the command line looks for.
pub(crate) fn search_of<'a>(rt: &'a HostRuntime, words: &LogWords<'a>) -> Result<Search<'a>, Stop> {
    let partner = partner_of(rt, words)?;
    let number = number_wanted(rt, words)?;
    Ok(Search {
        rt,
        dir: words.dir,
        partner,
        number,
        text: words.text,
        bytes: words.bytes,
        form: words.form,
        found: false,
    })
}
