//! `van postings`: the accepted sets of a station, listed or written into files.

use crate::folder::{make, put, stands};
use crate::history::unanswered;
use crate::opening::{OpensRecords, open_a_station};
use crate::options::{DIR, STATUSES, text};
use crate::say::{misuse, say, text_of};
use crate::status::key_text;
use crate::stop::Stop;
use crate::words::{below, party_name, party_text, shown};
use clap::ArgMatches;
use command_table::{Kind, Row, Word};
use std::alloc::{AllocError, Global};
use x12_acks::SetKey;
use x12_envelopes::number_of;
use x12_inbound::Posting;
use x12_station::Records;

/// The words of the command.
static WORDS: [Word; 3] = [
    DIR,
    Word {
        kind: Kind::Value,
        name: "into",
        value: "FOLDER",
        help: "Writes each into a file of this folder, unless that is there",
    },
    Word {
        kind: Kind::Value,
        name: "from",
        value: "N",
        help: "Begins with this posting, from 1",
    },
];

/// The command's part of the command line.
pub(crate) fn row() -> Row {
    Row {
        name: "postings",
        about: "Lists the accepted sets of a station, or writes them into files.",
        more: STATUSES,
        words: &WORDS,
    }
}

/// What the words say.
#[derive(Clone, Copy)]
pub(crate) struct PostingsWords<'a> {
    /// The folder.
    dir: &'a str,
    /// `--into`.
    into: Option<&'a str>,
    /// `--from`.
    from: Option<&'a str>,
}

impl<'a> PostingsWords<'a> {
    /// Reads the words.
    pub(crate) fn of(found: &ArgMatches<'a>) -> PostingsWords<'a> {
        PostingsWords {
            dir: text(found, "dir"),
            into: found.get_str("into"),
            from: found.get_str("from"),
        }
    }
}

/// The name of the file of a posting, as `ZZALPHA-000000001-01-001.850`.
pub(crate) fn name_of(alloc: Global, posting: &Posting) -> Result<String, AllocError> {
    let sender = party_name(alloc, &posting.key.sender)?;
    let SetKey {
        sender: _,
        icn,
        group,
        set,
    } = posting.key;
    let mut name = format!(in alloc; "{sender}-{icn:09}-{group:02}-{set:03}.")?;
    name.push_str(shown(alloc, &posting.set)?.as_str())?;
    Ok(name)
}

/// Writes a posting into a file of a folder, unless it is there.
fn write_one(rt: &HostRuntime, folder: &str, posting: &Posting) -> Result<(), Stop> {
    let name = name_of(rt.alloc(), posting)?;
    let path = below(rt.alloc(), folder, name.as_str())?;
    if stands(rt, path.as_str())? {
        return Ok(());
    }
    put(rt, folder, name.as_str(), &posting.bytes)?;
    say(rt, &[path.as_str()])
}

/// Prints the line of a posting: its number, its sender, its key, what it is.
fn say_one(rt: &HostRuntime, number: usize, posting: &Posting) -> Result<(), Stop> {
    let alloc = rt.alloc();
    let number = text_of(alloc, number)?;
    let sender = party_text(alloc, &posting.key.sender)?;
    let key = key_text(alloc, &posting.key)?;
    let set = shown(alloc, &posting.set)?;
    let of_set = shown(alloc, posting.number.as_bytes())?;
    let bytes = text_of(alloc, posting.bytes.len())?;
    say(
        rt,
        &[
            number.as_str(),
            " ",
            sender.as_str(),
            " ",
            key.as_str(),
            " ",
            set.as_str(),
            " ",
            of_set.as_str(),
            " ",
            bytes.as_str(),
            " bytes",
        ],
    )
}

/// Lists or writes a posting.
fn hand_out(
    rt: &HostRuntime,
    words: &PostingsWords<'_>,
    number: usize,
    posting: &Posting,
) -> Result<(), Stop> {
    match words.into {
        Some(folder) => write_one(rt, folder, posting),
        None => say_one(rt, number, posting),
    }
}

/// Lists or writes the postings from a number on.
fn hand_out_each(
    rt: &HostRuntime,
    words: &PostingsWords<'_>,
    from: usize,
    postings: &[Posting],
) -> Result<u8, Stop> {
    let mut number = 0_usize;
    for posting in postings {
        number = number.saturating_add(1);
        if number >= from {
            hand_out(rt, words, number, posting)?;
        }
    }
    Ok(0)
}

/// The number of the first posting that is asked for.
fn first(rt: &HostRuntime, words: &PostingsWords<'_>) -> Result<usize, Stop> {
    let Some(word) = words.from else {
        return Ok(1);
    };
    match number_of(word.as_bytes()) {
        Some(number) => Ok(number as usize),
        None => Err(misuse(
            rt,
            &["--from wants a number from 0 to 999999999, and not ", word],
        )),
    }
}

/// The postings of a station.
fn postings_at<R: Records>(
    rt: &HostRuntime,
    words: &PostingsWords<'_>,
    from: usize,
    records: &mut R,
) -> Result<u8, Stop>
    requires { R.valid records.old }
{
    if let Some(folder) = words.into {
        make(rt, folder)?;
    }
    match records.postings() {
        Ok(postings) => hand_out_each(rt, words, from, &postings),
        Err(fault) => Err(unanswered(rt, words.dir, fault)),
    }
}

/// Lists the postings, or writes them into files.
pub(crate) fn postings<O: OpensRecords>(
    rt: &HostRuntime,
    opens: &O,
    words: &PostingsWords<'_>,
) -> Result<u8, Stop> {
    let from = first(rt, words)?;
    let mut records = open_a_station(rt, opens, words.dir)?.close();
    postings_at(rt, words, from, &mut records)
}
