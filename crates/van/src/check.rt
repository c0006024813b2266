//! `van check`: what is wrong with each interchange of a file.

use crate::clashes::{self, Clash};
use crate::{color, files, parties, tables};
use anyhow::Result;
use clap::ArgMatches;
use command_table::{Kind, Row, Word};
use std::alloc::Global;
use std::fs;
use std::process::ExitCode;
use x12_answering::{RunFault, read_pair};
use x12_envelopes::{Party, read_header, split_transmission};
use x12_inspect::{CSV_HEAD, CheckTerms, Form, Outcome, Style, run_check, run_check_as_sender};
use x12_lint::Table;

const ABOUT: &str =
    "Says what is wrong with each interchange of a file, as its receiver would find it.";

const MORE: &str = "\
Without --me each interchange is checked as by its receiver. Without a pair he
takes the sets in it. Sets are judged by their structure, and an 850 also by BEG,
CTT01 and whether it has a PO1. --lint tells more. With several files the last
line says how many are wrong.

Example:
  van check samples/order.edi
says
  interchange 1, 000000001, ZZ/ALPHA to ZZ/BETA: 1 of 1 sets accepted (structure; 850: BEG, CTT01, a PO1)
    as its receiver ZZ/BETA, who takes the sets in it: PO850
  van check --as-sender samples/order.edi
says
  interchange 1, 000000001, ZZ/ALPHA to ZZ/BETA: may be submitted, with 1 sets

Exit status:
  0  every interchange is accepted with all its sets, or may be submitted
  1  something isn't, no interchange stands in an input, or it can't be read
  2  the command line is wrong, or has options that don't go together";

/// The words of the subcommand.
static WORDS: [Word; 11] = [
    Word {
        kind: Kind::Value,
        name: "me",
        value: "PARTY",
        help: "Who receives, or with --as-sender sends: qualifier and identifier, as ZZ/BETA or ZZBETA",
    },
    Word {
        kind: Kind::Flag,
        name: "as-sender",
        value: "",
        help: "Checks as the sender: tells what the station --me, or the first sender in the file, would refuse to submit",
    },
    Word {
        kind: Kind::Flag,
        name: "lenient",
        value: "",
        help: "Accepts sets whose only errors are in elements, with these noted",
    },
    Word {
        kind: Kind::Flag,
        name: "recursive",
        value: "",
        help: "Goes into folders too, except names that begin with a dot (-r for short)",
    },
    Word {
        kind: Kind::Flag,
        name: "quiet",
        value: "",
        help: "Says only what is wrong, with the file's name in front (-q for short)",
    },
    tables::LINT,
    tables::TABLE,
    files::JSON,
    Word {
        kind: Kind::Flag,
        name: "csv",
        value: "",
        help: "Writes a line of CSV for each finding, below a line with the names of the columns",
    },
    color::COLOR,
    Word {
        kind: Kind::Many,
        name: "words",
        value: "PAIR|FILE",
        help: "A pair of GS01 and ST01 to take, as PO850, unless a file has that name; else a file to check, or - for standard input",
    },
];

/// The subcommand's part of the command line.
pub(crate) fn row() -> Row {
    Row {
        name: "check",
        about: ABOUT,
        more: MORE,
        words: &WORDS,
    }
}

/// The words behind the options: what is taken, and what is read.
#[derive(Drop)]
struct Words<'a> {
    pairs: Vec<([u8; 2], [u8; 3])>,
    files: Vec<&'a str>,
}

/// The pair that a word is: a word that names a file is that file.
fn pair_of(rt: &HostRuntime, word: &str) -> Option<([u8; 2], [u8; 3])> {
    let pair = read_pair(word.as_bytes())?;
    match fs::exists(rt, word) {
        Ok(false) => Some(pair),
        _ => None,
    }
}

/// The words behind the options.
fn words_of<'a>(rt: &HostRuntime, found: &[&'a str]) -> Result<Words<'a>> {
    let mut pairs = Vec::new(rt.alloc());
    let mut files = Vec::new(rt.alloc());
    for word in found {
        match pair_of(rt, word) {
            Some(pair) => pairs.push(pair)?,
            None => files.push(*word)?,
        }
    }
    Ok(Words { pairs, files })
}

/// How inputs are checked.
#[derive(Clone, Copy)]
struct How<'a> {
    terms: &'a CheckTerms,
    as_sender: bool,
    goes_below: bool,
}

/// A party that no interchange names.
const NOBODY: Party = Party {
    qualifier: [0; 2],
    id: [0; 15],
};

/// The sender of the first interchange that has a header.
fn first_sender(alloc: Global, input: &[u8]) -> Result<Party, RunFault> {
    for bytes in split_transmission(alloc, input)? {
        if let Ok(header) = read_header(bytes) {
            return Ok(header.sender);
        }
    }
    Ok(NOBODY)
}

/// Checks an input as its sender.
fn check_sent(
    rt: &HostRuntime,
    me: Option<Party>,
    style: &Style<'_>,
    input: &[u8],
) -> Result<Outcome, RunFault> {
    let me = match me {
        Some(me) => me,
        None => first_sender(rt.alloc(), input)?,
    };
    run_check_as_sender(rt.alloc(), &me, style, input, &mut rt.stdout())
}

/// Checks one input, and writes what is wrong with it.
fn check(rt: &HostRuntime, how: &How<'_>, style: &Style<'_>) -> Result<Outcome> {
    let Some(input) = files::read(rt, style)? else {
        return Ok(Outcome::SomethingWrong);
    };
    let told = if how.as_sender {
        check_sent(rt, how.terms.me, style, &input)
    } else {
        run_check(rt.alloc(), how.terms, style, &input, &mut rt.stdout())
    };
    files::told(rt, style, told)
}

/// Says how many of several files are wrong.
fn sum_up(rt: &HostRuntime, form: Form, wrong: usize, files: usize) -> Result<()> {
    if form == Form::Text && files > 1 {
        println!(rt; "{wrong} of {files} files wrong")?;
    }
    Ok(())
}

/// Checks each input.
fn check_all(
    rt: &HostRuntime,
    how: &How<'_>,
    style: &Style<'_>,
    words: &[&str],
) -> Result<Outcome> {
    let named = files::find_files(rt, words, how.goes_below)?;
    let mut outcome = named.outcome;
    let mut wrong = 0usize;
    for file in &named.files {
        let file = file.as_str();
        if !style.is_quiet {
            files::head(rt, style.form, &named.files, file)?;
        }
        let one = check(rt, how, &Style { file, ..*style })?;
        wrong = wrong.saturating_add(usize::from(one != Outcome::AllRight));
        outcome = files::both(outcome, one);
    }
    sum_up(rt, style.form, wrong, named.files.len())?;
    Ok(outcome)
}

/// The form that is asked for. Of CSV, the names of the columns are written first.
fn begin(rt: &HostRuntime, found: &ArgMatches<'_>) -> Result<Form> {
    if !found.get_flag("csv") {
        return Ok(files::form(found));
    }
    print!(rt; "{CSV_HEAD}")?;
    Ok(Form::Csv)
}

/// What doesn't go together.
fn clashes_in(found: &ArgMatches<'_>, words: &Words<'_>) -> [Clash; 7] {
    let as_sender = found.get_flag("as-sender");
    let csv = found.get_flag("csv");
    [
        Clash {
            both: csv && found.get_flag("json"),
            one: "--csv",
            other: "--json",
        },
        Clash {
            both: csv && found.get_flag("quiet"),
            one: "--csv",
            other: "--quiet",
        },
        Clash {
            both: as_sender && found.get_flag("lenient"),
            one: "--as-sender",
            other: "--lenient",
        },
        Clash {
            both: as_sender && !words.pairs.is_empty(),
            one: "--as-sender",
            other: "a pair",
        },
        Clash {
            both: as_sender && tables::is_asked(found),
            one: "--as-sender",
            other: "--lint",
        },
        color::clash(found, "json", "--json"),
        color::clash(found, "csv", "--csv"),
    ]
}

/// Checks what the words name, as this party or as each receiver.
fn run_as(
    rt: &HostRuntime,
    found: &ArgMatches<'_>,
    me: Option<Party>,
    table: Option<Table>,
    words: Words<'_>,
) -> Result<ExitCode> {
    let Words { pairs, files } = words;
    let terms = CheckTerms {
        me,
        lenient: found.get_flag("lenient"),
        pairs,
        table,
    };
    let how = How {
        terms: &terms,
        as_sender: found.get_flag("as-sender"),
        goes_below: found.get_flag("recursive"),
    };
    let style = Style {
        form: begin(rt, found)?,
        look: color::look(rt, found),
        file: "-",
        is_quiet: found.get_flag("quiet"),
    };
    Ok(files::status(check_all(rt, &how, &style, &files)?))
}

/// Runs the subcommand, and gives its exit status.
pub fn run(rt: &HostRuntime, found: &ArgMatches<'_>) -> Result<ExitCode> {
    let named = found.get_str("me");
    let me = named.and_then(parties::read_party);
    if named.is_some() && me.is_none() {
        return parties::refuse(rt, "--me", "BETA");
    }
    let words = words_of(rt, found.get_strs("words").unwrap_or(&[]))?;
    if let Some(status) = clashes::refuse(rt, &clashes_in(found, &words))? {
        return Ok(status);
    }
    if !tables::is_asked(found) {
        return run_as(rt, found, me, None, words);
    }
    match tables::table(rt, found)? {
        Some(table) => run_as(rt, found, me, Some(table), words),
        None => Ok(ExitCode::from(2)),
    }
}
