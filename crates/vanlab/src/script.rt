//! `vanlab script` and `vanlab report`: run a network from a script, and print what comes of each line,
//! or the report of the end alone.

use crate::report_json;
use anyhow::Result;
use clap::ArgMatches;
use command_table::{Kind, Row, Word};
use std::fmt::Display;
use std::fs::File;
use std::io::{Read, Write};
use std::process::ExitCode;
use x12_answering::RunFault;
use x12_vanlab::{ScriptStatus, run_script};

const SCRIPT: &str =
    "Runs a network of stations and a hub or two from a script, and prints what comes of it.";

const REPORT: &str = "Runs a script, and prints the report of its end alone.";

const SCRIPT_MORE: &str = "\
The script is a file, or comes on standard input: ASCII lines, words parted by
one space. A name is 2 to 15 capital letters and digits, and means the party ZZ
with it; HUB is the hub, HUB2 a second one. A packet is named by its event and
its place, as 4.1. From # at a line's front or behind a blank to its end stands a
comment, but in the lines orders, prepared and outside.
  clock DATE TIME            the moment of later events, as 20250102 0930
  hub2                       a second hub, in front of the stations
  station NAME [HUB2]        a station; these lines stand in front
  enrol PARTY NODE [HUB2]    the hub has a mailbox for the party at a node
  dismiss PARTY [HUB2]       and no longer
  agree NODE PARTY PAIR..    what a station takes from a party, as PO850; with
                             `lenient` before the pairs, sets whose only errors
                             are in elements are noted
  orders NODE PARTY TEXT..   a station submits orders, one for each text
  prepared NODE BYTES        a station submits the interchange that follows
  outside NODE BYTES         an outsider's interchange comes to a node
  deliver EVENT.PLACE        a packet arrives, for the first time or again
  tick NODE N                a station sends again what is due
  collect NODE [HUB2]        the hub sends what waits for a node
  restart NODE               a node starts again from its records
  show EVENT.PLACE           the interchange of a packet, or none
  fate NODE ICN GROUP SET    how a submitted transaction set fares
  counts NODE                what a station's evidence did
  postings NODE              how many postings a station has
  report                     a line for each submitted transaction set
An event prints its number and the packets that it sends, as
`4 ok [1 HUB deposit]`, or `refused` and why, as `refused S9`. A bad line prints
`line 3: bad line`, says on standard error what is wrong with it, and ends the
run.

Example:
  vanlab script samples/lost_twice.script

Exit status:
  0  done
  1  a line is bad, a line of a report says BAD, or the run stopped
  2  the command line is wrong";

const REPORT_MORE: &str = "\
`vanlab script --help` has the lines of a script. A line of the report tells of
one submitted transaction set: its sender, number, group and place, its receiver,
how it fares (pending, accepted, noted, rejected), how often it stands in its
receiver's postings, and a mark.
  ok   accepted or noted and posted once, rejected and not posted, or pending and
       posted at most once, and each time byte for byte as it was submitted
  BAD  anything else
  ext  the receiver is no station
A bad line prints `line 3: bad line` in the report's place.

Example:
  vanlab report samples/lost_twice.script

Exit status:
  0  done
  1  a line is bad, a line of the report says BAD, or the run stopped
  2  the command line is wrong";

/// The word that names the script.
const FILE: Word = Word {
    kind: Kind::Many,
    name: "file",
    value: "FILE",
    help: "The script, or - for standard input, which is read where none is named",
};

/// The words of `vanlab script`.
static SCRIPT_WORDS: [Word; 1] = [FILE];

/// The words of `vanlab report`.
static REPORT_WORDS: [Word; 2] = [
    Word {
        kind: Kind::Flag,
        name: "json",
        value: "",
        help: "Writes one JSON object a line for each transaction set",
    },
    FILE,
];

/// The part of the command line that prints what comes of each line.
pub(crate) fn script_row() -> Row {
    Row {
        name: "script",
        about: SCRIPT,
        more: SCRIPT_MORE,
        words: &SCRIPT_WORDS,
    }
}

/// The part of the command line that prints the report of the end alone.
pub(crate) fn report_row() -> Row {
    Row {
        name: "report",
        about: REPORT,
        more: REPORT_MORE,
        words: &REPORT_WORDS,
    }
}

/// What is printed of a script.
#[derive(Clone, Copy, PartialEq, Eq)]
pub enum Printed {
    /// What comes of each line.
    Lines,
    /// The report of its end.
    Report,
    /// The same as JSON.
    Objects,
}

/// What `vanlab report` prints.
pub fn printed_of(found: &ArgMatches<'_>) -> Printed {
    if found.get_flag("json") {
        Printed::Objects
    } else {
        Printed::Report
    }
}

/// Runs a script, and writes the report of its end as JSON.
fn report_objects<R: Read>(
    rt: &HostRuntime,
    reader: &mut R,
) -> Result<Result<ScriptStatus, RunFault>> {
    let mut told = Vec::new(rt.alloc());
    let ended = run_script(rt.alloc(), true, reader, &mut told, &mut rt.stderr());
    let objects = report_json::objects(rt.alloc(), &told)?;
    if rt.stdout().write_all(&objects).is_err() {
        return Ok(Err(RunFault::Write));
    }
    Ok(ended)
}

/// Runs a script from a reader.
fn run_from<R: Read>(
    rt: &HostRuntime,
    printed: Printed,
    reader: &mut R,
) -> Result<Result<ScriptStatus, RunFault>> {
    if printed == Printed::Objects {
        return report_objects(rt, reader);
    }
    let report_only = printed == Printed::Report;
    let (out, err) = (&mut rt.stdout(), &mut rt.stderr());
    Ok(run_script(rt.alloc(), report_only, reader, out, err))
}

/// Says why there is no run, and gives the exit status.
fn refuse<E: Display + Drop>(rt: &HostRuntime, why: E) -> Result<ExitCode> {
    eprintln!(rt; "error: {why}")?;
    Ok(ExitCode::from(1))
}

/// The exit status of a run.
fn status(rt: &HostRuntime, ended: Result<ScriptStatus, RunFault>) -> Result<ExitCode> {
    match ended {
        Ok(ScriptStatus::Done) => Ok(ExitCode::SUCCESS),
        Ok(ScriptStatus::BadLine | ScriptStatus::BadReport) => Ok(ExitCode::from(1)),
        Err(fault) => refuse(rt, fault),
    }
}

/// Runs the script of this name, and gives the exit status.
fn run_named(rt: &HostRuntime, printed: Printed, name: &str) -> Result<ExitCode> {
    if name == "-" {
        return status(rt, run_from(rt, printed, &mut rt.stdin())?);
    }
    match File::open(rt, name) {
        Ok(mut file) => status(rt, run_from(rt, printed, &mut file)?),
        Err(error) => refuse(
            rt,
            format!(in rt.alloc(); "{name}: it can't be opened: {error}")?,
        ),
    }
}

/// Runs the script that the command line names, and gives the exit status.
pub fn run(rt: &HostRuntime, printed: Printed, found: &ArgMatches<'_>) -> Result<ExitCode> {
    match found.get_strs("file").unwrap_or(&[]) {
        [] => run_named(rt, printed, "-"),
        [name] => run_named(rt, printed, name),
        _ => {
            eprintln!(rt; "error: one script is run at a time")?;
            Ok(ExitCode::from(2))
        }
    }
}
