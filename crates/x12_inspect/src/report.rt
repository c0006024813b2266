//! What is found of an interchange, as a value: what all printers print.

use crate::coded::Coded;
use crate::fault::{Cause, Fault, header_fault};
use crate::piece::say;
use crate::remarking::Remarks;
use crate::report_csv::{self, put_rows};
use crate::report_json::{self, put_report};
use crate::report_words::say_report;
use crate::slice::{Interchange, Slice};
use crate::style::{Form, Style};
use crate::text::Text;
use std::alloc::Global;
use std::io::Write;
use x12_answering::{RunFault, write_last};
use x12_envelopes::{Header, HeaderFault, Party};
use x12_judge::{GroupVerdict, SetVerdict};

/// What is found of an interchange.
#[derive(Drop)]
pub(crate) struct Report<'r, 'a> {
    /// Its place in the input, from 1.
    pub place: usize,
    /// Its header; `None` where that can't be read.
    pub header: Option<&'r Header>,
    /// Its bytes.
    pub bytes: &'a [u8],
    /// Whether it is accepted with all that it holds, or may be submitted; `None` where that isn't
    /// asked.
    pub accepted: Option<bool>,
    /// What is found.
    pub found: Found<'r, 'a>,
    /// What is remarked of its sets; `None` where that isn't asked.
    pub remarks: Option<Remarks>,
}

/// Who checks an interchange, and what is taken.
#[derive(Clone, Copy)]
pub(crate) struct Taken<'r> {
    /// Who checks.
    pub me: Party,
    /// Whether that is its receiver, since no other station was named.
    pub is_receiver: bool,
    /// GS01 and ST01 of what is taken.
    pub pairs: &'r [([u8; 2], [u8; 3])],
    /// Whether these are the sets that stand in it, since no pair was named.
    pub are_standing: bool,
}

/// What its receiver finds of an interchange that isn't refused as a whole.
#[derive(Clone, Copy)]
pub(crate) struct Judged<'r, 'a> {
    /// Under which terms.
    pub taken: Taken<'r>,
    /// The verdicts of its groups.
    pub groups: &'r [GroupVerdict<'a>],
}

/// What is found of an interchange, by the question that was asked.
#[derive(Drop)]
pub(crate) enum Found<'r, 'a> {
    /// It can't be read.
    Unreadable(Fault<'a>),
    /// Its receiver refuses it as a whole.
    Refused(Coded<'static>, Cause<'a>),
    /// Its receiver judges its groups.
    Judged(Judged<'r, 'a>),
    /// Its sender may not submit it.
    Unsendable(Coded<'static>, Cause<'a>),
    /// Its sender may submit it, with so many sets.
    Sendable(usize),
}

/// How many sets were received; how many of them are accepted with errors noted, and how many are
/// rejected.
#[derive(Clone, Copy)]
pub(crate) struct Counts {
    pub received: u64,
    pub noted: u64,
    pub rejected: u64,
}

/// How many of these sets are accepted with errors noted.
fn count_noted(sets: &[SetVerdict<'_>]) -> u64 {
    let mut noted = 0u64;
    for set in sets {
        noted = noted.saturating_add(u64::from(set.result.is_noted()));
    }
    noted
}

/// How many sets of these groups were received, noted and rejected.
pub(crate) fn counts_of(groups: &[GroupVerdict<'_>]) -> Counts {
    let mut received = 0u64;
    let mut accepted = 0u64;
    let mut noted = 0u64;
    for group in groups {
        received = received.saturating_add(u64::from(group.received));
        accepted = accepted.saturating_add(u64::from(group.accepted));
        noted = noted.saturating_add(count_noted(&group.sets));
    }
    Counts {
        received,
        noted,
        rejected: received.saturating_sub(accepted),
    }
}

/// What is found of an interchange that was checked.
pub(crate) fn checked<'r, 'a>(
    at: &Interchange<'r, 'a>,
    accepted: bool,
    found: Found<'r, 'a>,
) -> Report<'r, 'a> {
    Report {
        place: at.place,
        header: Some(at.header),
        bytes: at.bytes,
        accepted: Some(accepted),
        found,
        remarks: None,
    }
}

/// What is found of bytes whose header can't be read.
pub(crate) fn headless<'r, 'a>(slice: &Slice<'a>, found: Found<'r, 'a>) -> Report<'r, 'a> {
    Report {
        place: slice.place,
        header: None,
        bytes: slice.bytes,
        accepted: Some(false),
        found,
        remarks: None,
    }
}

/// That the header of a slice can't be read.
pub(crate) fn unreadable<'r, 'a>(slice: &Slice<'a>, fault: HeaderFault) -> Report<'r, 'a> {
    headless(slice, Found::Unreadable(header_fault(slice.bytes, fault)))
}

/// Whether something is remarked.
fn is_remarked(report: &Report<'_, '_>) -> bool {
    match &report.remarks {
        Some(remarks) => remarks.count > 0,
        None => false,
    }
}

/// Whether an interchange is accepted or may be submitted, and nothing was noted or remarked in it.
fn is_right(report: &Report<'_, '_>) -> bool {
    if report.accepted != Some(true) || is_remarked(report) {
        return false;
    }
    match &report.found {
        Found::Judged(judged) => counts_of(judged.groups).noted == 0,
        _ => true,
    }
}

/// Tells what is found of an interchange.
pub(crate) fn tell(style: &Style<'_>, out: &mut Text, report: &Report<'_, '_>) {
    if style.is_quiet && is_right(report) {
        return;
    }
    if style.is_quiet && style.form == Form::Text {
        say!(out; style.file.as_bytes(), ": ");
    }
    match style.form {
        Form::Text => say_report(out, report),
        Form::Json => put_report(out, style.file, report),
        Form::Csv => put_rows(out, style.file, report),
    }
}

/// Tells in JSON or CSV why the file can't be read; words of that stand elsewhere, on standard error.
///
/// An error is `RunFault::Write` or `RunFault::Memory`.
pub fn run_unread<W: Write>(
    alloc: Global,
    style: &Style<'_>,
    why: &str,
    out: &mut W,
) -> Result<(), RunFault> {
    let mut text = Text::new(alloc, style.look);
    match style.form {
        Form::Text => {}
        Form::Json => report_json::put_unread(&mut text, style.file, why.as_bytes()),
        Form::Csv => report_csv::put_unread(&mut text, style.file, why.as_bytes()),
    }
    write_last(text.whole()?, out)
}
