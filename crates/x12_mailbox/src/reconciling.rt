//! `van reconcile`: senders' fates against receivers' postings, byte by byte, over what is on disk.

use crate::books::{Books, Sent, all_books, books_for};
use crate::form::Form;
use crate::history::Submitted;
use crate::opening::OpensRecords;
use crate::options::{CSV, DIR, JSON, form_of, text};
use crate::say::{say, say_columns};
use crate::status::key_text;
use crate::stop::Stop;
use crate::words::{last_word, party_text};
use clap::ArgMatches;
use command_table::{Kind, Row, Word};
use std::alloc::{AllocError, Global};
use std::str;
use x12_acks::SetKey;
use x12_envelopes::Party;
use x12_inbound::Posting;
use x12_report::{Audit, report};
use x12_words::fate_word;

const MORE: &str = "\
A line of the report tells of one submitted transaction set: its sender, number,
group and place, its receiver, its status, how often it stands in its
receiver's postings, and a mark.
  ok   accepted or noted and posted once, rejected and not posted, or pending and
       posted at most once, and each time byte for byte as it was submitted
  BAD  anything else, as a posting that its sender never submitted
  ext  the receiver's folder isn't among these

Exit status:
  0  no line says BAD
  1  a line does, or a folder can't be read
  2  the command line is wrong";

/// The words of the command.
static WORDS: [Word; 4] = [
    DIR,
    Word {
        kind: Kind::Many,
        name: "more",
        value: "DIR",
        help: "More folders of stations",
    },
    JSON,
    CSV,
];

/// The command's part of the command line.
pub(crate) fn row() -> Row {
    Row {
        name: "reconcile",
        about: "Compares the senders' statuses with the receivers' postings, byte by byte.",
        more: MORE,
        words: &WORDS,
    }
}

/// What the words say.
#[derive(Clone, Copy)]
pub(crate) struct ReconcileWords<'w, 'a> {
    /// The first folder.
    pub(crate) dir: &'a str,
    /// The others.
    pub(crate) more: Option<&'w [&'a str]>,
    /// `--json`, `--csv`.
    pub(crate) form: Form,
}

impl<'w, 'a> ReconcileWords<'w, 'a> {
    /// Reads the words.
    pub(crate) fn of(found: &'w ArgMatches<'a>) -> ReconcileWords<'w, 'a> {
        ReconcileWords {
            dir: text(found, "dir"),
            more: found.get_strs("more"),
            form: form_of(found),
        }
    }
}

/// The members of an object that say which set it is of.
fn key_members(alloc: Global, key: &SetKey, receiver: &Party) -> Result<String, AllocError> {
    let from = party_text(alloc, &key.sender)?;
    let to = party_text(alloc, receiver)?;
    let SetKey {
        sender: _,
        icn,
        group,
        set,
    } = *key;
    format!(in alloc;
        "\"from\":\"{from}\",\"interchange\":{icn},\"group\":{group},\"set\":{set},\"to\":\"{to}\""
    )
}

/// What is found of a submitted set.
fn audit_of(all: &[Books], sent: &Sent) -> Audit {
    let Submitted { key, fate } = sent.set;
    let receiver = sent.receiver;
    let Some(books) = books_for(all, &receiver) else {
        return Audit {
            key,
            receiver,
            fate,
            posted: None,
            intact: true,
        };
    };
    let (count, intact) = books.compare(sent);
    Audit {
        key,
        receiver,
        fate,
        posted: Some(count),
        intact,
    }
}

/// An audit as an object, with the mark of its line.
fn audit_object(alloc: Global, audit: &Audit, mark: &str) -> Result<String, AllocError> {
    let key = key_members(alloc, &audit.key, &audit.receiver)?;
    let fate = fate_word(audit.fate);
    match audit.posted {
        Some(count) => format!(in alloc;
            "{{{key},\"fate\":\"{fate}\",\"posted\":{count},\"mark\":\"{mark}\"}}"
        ),
        None => format!(in alloc;
            "{{{key},\"fate\":\"{fate}\",\"posted\":null,\"mark\":\"{mark}\"}}"
        ),
    }
}

/// The fields of a table that say which set it is of.
fn key_fields(alloc: Global, key: &SetKey, receiver: &Party) -> Result<String, AllocError> {
    let from = party_text(alloc, &key.sender)?;
    let to = party_text(alloc, receiver)?;
    let SetKey {
        sender: _,
        icn,
        group,
        set,
    } = *key;
    format!(in alloc; "{from},{icn:09},{group},{set},{to}")
}

/// An audit as a line of a table.
fn audit_row(alloc: Global, audit: &Audit, mark: &str) -> Result<String, AllocError> {
    let key = key_fields(alloc, &audit.key, &audit.receiver)?;
    let fate = fate_word(audit.fate);
    match audit.posted {
        Some(count) => format!(in alloc; "{key},{fate},{count},{mark}"),
        None => format!(in alloc; "{key},{fate},,{mark}"),
    }
}

/// Prints the line of an audit; whether it says that all is well.
fn say_audit(rt: &HostRuntime, form: Form, audit: Audit) -> Result<bool, Stop> {
    let bytes = report(rt.alloc(), &[audit])?;
    let line = str::from_utf8(&bytes).unwrap_or("").trim_ascii_end();
    let mark = last_word(line);
    match form {
        Form::Words => say(rt, &[line])?,
        Form::Json => say(rt, &[audit_object(rt.alloc(), &audit, mark)?.as_str()])?,
        Form::Csv => say(rt, &[audit_row(rt.alloc(), &audit, mark)?.as_str()])?,
    }
    Ok(mark != "BAD")
}

/// The line of a posting that its sender never submitted.
fn unsent_text(
    alloc: Global,
    form: Form,
    me: &Party,
    posting: &Posting,
) -> Result<String, AllocError> {
    if form == Form::Json {
        let key = key_members(alloc, &posting.key, me)?;
        return format!(in alloc; "{{{key},\"fate\":null,\"mark\":\"BAD\"}}");
    }
    if form == Form::Csv {
        let key = key_fields(alloc, &posting.key, me)?;
        return format!(in alloc; "{key},,1,BAD");
    }
    let me = party_text(alloc, me)?;
    let sender = party_text(alloc, &posting.key.sender)?;
    let key = key_text(alloc, &posting.key)?;
    format!(in alloc; "{me} posted {key} of {sender}, which never submitted it BAD")
}

/// Holds each submitted set of a station against its receiver's postings; whether all is well.
fn audit_sent(rt: &HostRuntime, form: Form, all: &[Books], books: &Books) -> Result<bool, Stop> {
    let mut well = true;
    for sent in &books.sent {
        well &= say_audit(rt, form, audit_of(all, sent))?;
    }
    Ok(well)
}

/// Holds each posting of a station against what its sender submitted; whether all is well.
fn audit_posted(rt: &HostRuntime, form: Form, all: &[Books], books: &Books) -> Result<bool, Stop> {
    let mut well = true;
    for posting in &books.postings {
        if let Some(sender) = books_for(all, &posting.key.sender) {
            if !sender.has_sent(&posting.key) {
                say(
                    rt,
                    &[unsent_text(rt.alloc(), form, &books.me, posting)?.as_str()],
                )?;
                well = false;
            }
        }
    }
    Ok(well)
}

/// Compares the senders' statuses with the receivers' postings.
pub(crate) fn reconcile<O: OpensRecords>(
    rt: &HostRuntime,
    opens: &O,
    words: &ReconcileWords<'_, '_>,
) -> Result<u8, Stop> {
    let all = all_books(rt, opens, words)?;
    let mut well = true;
    say_columns(
        rt,
        words.form,
        "from,interchange,group,set,to,fate,posted,mark",
    )?;
    for books in &all {
        well &= audit_sent(rt, words.form, &all, books)?;
        well &= audit_posted(rt, words.form, &all, books)?;
    }
    Ok(if well { 0 } else { 1 })
}
