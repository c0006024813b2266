//! Codes of the standard and of this system, each with what it says.

use crate::piece::{Ink, Piece, members, say};
use crate::style::Form;
use crate::text::Text;
use std::str;
use x12_envelopes::number_of;
use x12_words::{find_wording, wordings};

/// What is said of a code that its family hasn't.
const ANOTHER: &str = "another code";

/// A code, and what it says: in words as `AK403/5 data element too long`, where it is wrong.
#[derive(Clone, Copy)]
pub(crate) struct Coded<'a> {
    /// Its family, as `AK403` or `H`.
    pub family: &'static str,
    /// The code as it is written, as `5`, `023` or `H2`.
    pub code: &'a [u8],
    /// What it says.
    pub words: &'static str,
}

/// A code that says how a part fares: `A` is right.
#[derive(Clone, Copy)]
pub(crate) struct Fares<'a>(pub Coded<'a>);

/// A code of a family as it stands in a file.
pub(crate) fn code_of<'a>(family: &'static str, code: &'a [u8]) -> Coded<'a> {
    let words = match find_wording(family, str::from_utf8(code).unwrap_or("")) {
        Some(wording) => wording.words(),
        None => ANOTHER,
    };
    Coded {
        family,
        code,
        words,
    }
}

/// A code of a family that is a number.
pub(crate) fn numbered(family: &'static str, number: u32) -> Coded<'static> {
    let last = b'0' + (number % 10) as u8;
    for wording in wordings(family) {
        let code = wording.code().as_bytes();
        if code.ends_with(&[last]) && number_of(code) == Some(number) {
            let words = wording.words();
            return Coded {
                family,
                code,
                words,
            };
        }
    }
    Coded {
        family,
        code: b"?",
        words: ANOTHER,
    }
}

impl Text {
    /// Adds a code and what it says, as members.
    pub(crate) fn coded_members(&mut self, coded: Coded<'_>) {
        members!(self; "family": coded.family, "code": coded.code, "words": coded.words);
    }

    /// Adds a code as a person finds it again, as `AK403/5` or `H2`, and what it says.
    fn say_code(&mut self, coded: Coded<'_>) {
        if !coded.code.starts_with(coded.family.as_bytes()) {
            say!(self; coded.family, "/");
        }
        say!(self; coded.code, " ", coded.words);
    }
}

impl Piece for Coded<'_> {
    fn add(self, form: Form, out: &mut Text) {
        if form != Form::Json {
            out.say(Ink::Wrong);
            out.say_code(self);
            return say!(out; Ink::Plain);
        }
        out.put(b"{");
        out.coded_members(self);
        out.put(b"}");
    }
}

impl Piece for Fares<'_> {
    fn add(self, _form: Form, out: &mut Text) {
        let is_right = self.0.code == b"A".as_slice();
        let ink = if is_right { Ink::Right } else { Ink::Wrong };
        out.say(ink);
        out.say_code(self.0);
        out.say(Ink::Plain);
    }
}
