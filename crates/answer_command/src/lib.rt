//! The command `answer`, which `van` and `vanlab` both have: reads a transmission from standard input and
//! writes the reply to each of its interchanges.
#![tactic(auto)]

use clap::ArgMatches;
use command_table::{Fault, Kind, Row, Word};
use std::alloc::{AllocError, Global};
use std::fmt::Display;
use std::process::ExitCode;
use x12_answering::{OptionFault, OptionWords, Options, RunStatus, read_options, run_answer};

const ABOUT: &str =
    "Reads a transmission from standard input and writes the reply to each of its interchanges.";

const MORE: &str = "\
The numbers given are the first ones: each is used up only where it is written.
An interchange that can't be answered leaves a line on standard error, its place
and why, as `interchange 2: H3`; one that is due no reply leaves none.
  H1  more than 1,048,576 bytes
  H2  fewer than the 106 bytes of a header
  H3  no header: it has to begin with ISA, each element at its place
  H4  bytes that can't delimit
  H5  a byte that a header can't hold, or ISA13 isn't nine digits
  N1  no control number is left for its reply

Example:
  van answer --me ZZBETA --icn 1 --gcn 1 --date 20250102 --time 0931 PO850 < orders.edi

Exit status:
  0  done
  1  an interchange couldn't be answered, or the run stopped
  2  the command line is wrong";

/// The words of the command.
static WORDS: [Word; 7] = [
    Word {
        kind: Kind::Wanted,
        name: "me",
        value: "PARTY",
        help: "Who answers: qualifier and identifier, as ZZ/BETA or ZZBETA",
    },
    Word {
        kind: Kind::Wanted,
        name: "icn",
        value: "N",
        help: "The first interchange control number, 1 to 999999999",
    },
    Word {
        kind: Kind::Wanted,
        name: "gcn",
        value: "N",
        help: "The first group control number, 1 to 999999999",
    },
    Word {
        kind: Kind::Wanted,
        name: "date",
        value: "CCYYMMDD",
        help: "The date of the replies",
    },
    Word {
        kind: Kind::Wanted,
        name: "time",
        value: "HHMM",
        help: "The time of day of the replies",
    },
    Word {
        kind: Kind::Flag,
        name: "lenient",
        value: "",
        help: "Accepts sets whose only errors are in elements, with these noted",
    },
    Word {
        kind: Kind::Many,
        name: "pairs",
        value: "PAIR",
        help: "GS01 then ST01 of what is taken from every partner, as PO850; no other group or set is",
    },
];

/// The command's part of the command line.
pub fn row() -> Row {
    Row {
        name: "answer",
        about: ABOUT,
        more: MORE,
        words: &WORDS,
    }
}

/// Says on standard error what was wrong, and gives the exit status.
fn refuse<E: Display>(rt: &HostRuntime, fault: &E, status: u8) -> Result<ExitCode, Fault> {
    eprintln!(rt; "error: {fault}")?;
    Ok(ExitCode::from(status))
}

/// Answers what stands on standard input.
fn answer(rt: &HostRuntime, options: &Options) -> Result<ExitCode, Fault> {
    let ended = run_answer(
        rt.alloc(),
        options,
        &mut rt.stdin(),
        &mut rt.stdout(),
        &mut rt.stderr(),
    );
    match ended {
        Ok(RunStatus::Answered) => Ok(ExitCode::SUCCESS),
        Ok(RunStatus::Incomplete) => Ok(ExitCode::from(1)),
        Err(fault) => refuse(rt, &fault, 1),
    }
}

/// A party without the slash between qualifier and identifier, as `ZZBETA` of `ZZ/BETA`.
fn without_slash(alloc: Global, word: &str) -> Result<String, AllocError> {
    let mut party = String::new(alloc);
    match word.split_once('/') {
        Some((qualifier, identifier)) if qualifier.len() == 2 => {
            party.push_str(qualifier)?;
            party.push_str(identifier)?;
        }
        _ => party.push_str(word)?,
    }
    Ok(party)
}

/// Runs the command, and gives its exit status. It is a fault where standard error takes no sentence.
pub fn run(rt: &HostRuntime, found: &ArgMatches<'_>) -> Result<ExitCode, Fault> {
    let me = without_slash(rt.alloc(), found.get_str("me").unwrap_or(""))?;
    let words = OptionWords {
        me: me.as_str(),
        icn: found.get_str("icn").unwrap_or(""),
        gcn: found.get_str("gcn").unwrap_or(""),
        date: found.get_str("date").unwrap_or(""),
        time: found.get_str("time").unwrap_or(""),
        lenient: found.get_flag("lenient"),
        pairs: found.get_strs("pairs").unwrap_or(&[]),
    };
    match read_options(rt.alloc(), &words) {
        Ok(options) => answer(rt, &options),
        Err(OptionFault::Memory) => refuse(rt, &OptionFault::Memory, 1),
        Err(fault) => refuse(rt, &fault, 2),
    }
}
