//! Reading a line of a script.

use crate::script_action::read_action;
use crate::script_comment::without_comment;
use crate::script_fault::LineFault;
use crate::script_form::{
    clock, counts, deliver, fate, outside, postings, report, second_hub, show, station,
};
use crate::script_line::{EventLine, Line};
use crate::script_word::{cut_at, cut_word, text_of};

/// Whether a line ends with bytes as they stand: of `prepared` or `outside`, with a space behind the
/// node.
fn ends_with_bytes(line: &[u8]) -> bool {
    let Some((word, rest)) = cut_at(b' ', line) else {
        return false;
    };
    match text_of(word) {
        "prepared" | "outside" => cut_at(b' ', rest).is_some(),
        _ => false,
    }
}

/// Whether a line can be one at all.
fn check<'a>(line: &'a [u8]) -> Result<(), LineFault<'a>> {
    if line.is_empty() {
        return Err(LineFault::Empty);
    }
    if !line.is_ascii() {
        return Err(LineFault::NotAscii);
    }
    match line.last() {
        Some(b'\r') if !ends_with_bytes(line) => Err(LineFault::CarriageReturn),
        _ => Ok(()),
    }
}

/// The line in which a node does something: of any other word than those of `read_words`.
fn read_own<'a>(word: &'a str, rest: Option<&'a [u8]>) -> Result<Line<'a>, LineFault<'a>> {
    match read_action(word, rest) {
        Ok(action) => Ok(Line::Event(EventLine::At(action))),
        Err(fault) => Err(fault),
    }
}

/// The line with this first word, of which this is the rest.
fn read_words<'a>(word: &'a str, rest: Option<&'a [u8]>) -> Result<Line<'a>, LineFault<'a>> {
    match word {
        "clock" => clock(rest),
        "hub2" => second_hub(rest),
        "station" => station(rest),
        "outside" => outside(rest),
        "deliver" => deliver(rest),
        "show" => show(rest),
        "fate" => fate(rest),
        "counts" => counts(rest),
        "postings" => postings(rest),
        "report" => report(rest),
        word => read_own(word, rest),
    }
}

/// Reads a line without a comment.
fn read_bare<'a>(line: &'a [u8]) -> Result<Line<'a>, LineFault<'a>> {
    check(line)?;
    let (word, rest) = cut_word(line);
    read_words(text_of(word), rest)
}

/// Reads a line, which is given without its LF.
pub(crate) fn read_line<'a>(line: &'a [u8]) -> Result<Line<'a>, LineFault<'a>> {
    match without_comment(line) {
        Some(front) if front.is_empty() => Ok(Line::Comment),
        Some(front) => read_bare(front),
        None => read_bare(line),
    }
}
