//! `van show`: the segments of a file.

use crate::clashes::{self, Clash};
use crate::{color, files, tables};
use anyhow::Result;
use clap::ArgMatches;
use command_table::{Kind, Row, Word};
use std::process::ExitCode;
use x12_inspect::{Outcome, ShowTerms, Style, run_show};
use x12_segments::{Layout, run_layout};

const ABOUT: &str = "Shows the segments of a file, each with its place.";

const MORE: &str = "\
A line has the offset in the file, the position in the set as AK3 counts it, and
the segment. A trailer that is wrong is compared with what was counted:
  SE*5*0002   says 5, counted 4; says 0002, ST says 0001

Example:
  van show --plain samples/order.edi | van show --join
gives samples/order.edi back.

Exit status:
  0  each interchange has a header that can be read
  1  one hasn't, or an input can't be read
  2  the command line is wrong";

/// The words of the subcommand.
static WORDS: [Word; 6] = [
    Word {
        kind: Kind::Flag,
        name: "plain",
        value: "",
        help: "Writes only the segments, one a line",
    },
    Word {
        kind: Kind::Flag,
        name: "join",
        value: "",
        help: "Joins such lines again",
    },
    Word {
        kind: Kind::Flag,
        name: "names",
        value: "",
        help: "Shows below each segment its elements, each with its number and name, if these are known",
    },
    files::JSON,
    color::COLOR,
    files::FILES,
];

/// The subcommand's part of the command line.
pub(crate) fn row() -> Row {
    Row {
        name: "show",
        about: ABOUT,
        more: MORE,
        words: &WORDS,
    }
}

/// The layout that is asked for, if one is.
fn layout(found: &ArgMatches<'_>) -> Option<Layout> {
    if found.get_flag("join") {
        return Some(Layout::Joined);
    }
    if found.get_flag("plain") {
        return Some(Layout::Plain);
    }
    None
}

/// Shows one input.
fn show(rt: &HostRuntime, terms: &ShowTerms<'_>, layout: Option<Layout>) -> Result<Outcome> {
    let style = terms.style;
    let Some(input) = files::read(rt, style)? else {
        return Ok(Outcome::SomethingWrong);
    };
    let shown = match layout {
        Some(layout) => match run_layout(rt.alloc(), layout, &input, &mut rt.stdout()) {
            Ok(right) => Ok(Outcome::of(right)),
            Err(fault) => Err(fault),
        },
        None => run_show(rt.alloc(), terms, &input, &mut rt.stdout()),
    };
    files::told(rt, style, shown)
}

/// Shows each input.
fn show_all(
    rt: &HostRuntime,
    terms: &ShowTerms<'_>,
    layout: Option<Layout>,
    words: &[&str],
) -> Result<Outcome> {
    let named = files::find_files(rt, words, false)?;
    let mut outcome = named.outcome;
    for file in &named.files {
        let file = file.as_str();
        if layout.is_none() {
            files::head(rt, terms.style.form, &named.files, file)?;
        }
        let style = Style {
            file,
            ..*terms.style
        };
        let one = ShowTerms {
            style: &style,
            table: terms.table,
        };
        outcome = files::both(outcome, show(rt, &one, layout)?);
    }
    Ok(outcome)
}

/// What doesn't go together.
fn clashes_in(found: &ArgMatches<'_>) -> [Clash; 8] {
    let (plain, join) = (found.get_flag("plain"), found.get_flag("join"));
    let json = found.get_flag("json");
    [
        Clash {
            both: plain && join,
            one: "--plain",
            other: "--join",
        },
        Clash {
            both: plain && json,
            one: "--plain",
            other: "--json",
        },
        Clash {
            both: join && json,
            one: "--join",
            other: "--json",
        },
        Clash {
            both: plain && found.get_flag("names"),
            one: "--plain",
            other: "--names",
        },
        Clash {
            both: join && found.get_flag("names"),
            one: "--join",
            other: "--names",
        },
        color::clash(found, "json", "--json"),
        color::clash(found, "plain", "--plain"),
        color::clash(found, "join", "--join"),
    ]
}

/// Runs the subcommand, and gives its exit status.
pub fn run(rt: &HostRuntime, found: &ArgMatches<'_>) -> Result<ExitCode> {
    if let Some(status) = clashes::refuse(rt, &clashes_in(found))? {
        return Ok(status);
    }
    let words = found.get_strs("files").unwrap_or(&[]);
    let style = Style {
        form: files::form(found),
        look: color::look(rt, found),
        file: "-",
        is_quiet: false,
    };
    let names = if found.get_flag("names") {
        Some(tables::builtin(rt)?)
    } else {
        None
    };
    let terms = ShowTerms {
        style: &style,
        table: names.as_ref(),
    };
    Ok(files::status(show_all(rt, &terms, layout(found), words)?))
}
