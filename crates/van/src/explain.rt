//! `van explain`: what an acknowledgment says, or what a code means.

use crate::clashes::{self, Clash};
use crate::{codes, color, files, parties};
use anyhow::Result;
use clap::ArgMatches;
use command_table::{Kind, Row, Word};
use std::process::ExitCode;
use x12_envelopes::Party;
use x12_inspect::{Outcome, Style, read_sent, run_explain, run_pending};
use x12_sent::SentFile;

const ABOUT: &str = "Says in words what acknowledgments (TA1, 997) say, or what a code means.";

const MORE: &str = "\
Example:
  van explain --code AK403/5
says
  AK403/5: data element too long
    cut it to its greatest length

  van explain --of samples/rejected.edi samples/acknowledgment.edi
says beside each note what was sent there, and which sets it closes.

Exit status:
  0  each interchange can be read
  1  one can't, no interchange stands in an input or it can't be read, or what was sent
     couldn't be submitted
  2  the command line is wrong, has options that don't go together, or the code is unknown";

/// The words of the subcommand.
static WORDS: [Word; 6] = [
    Word {
        kind: Kind::Value,
        name: "code",
        value: "CODE",
        help: "A code, as AK403/5, TA105/023, H2 or S11, one without its family, as 5, or a family, as AK403",
    },
    Word {
        kind: Kind::Value,
        name: "of",
        value: "SENT",
        help: "The file that was sent: tells which of its sets each answer closes, and which stay pending",
    },
    Word {
        kind: Kind::Value,
        name: "hub",
        value: "PARTY",
        help: "With --of: a hub that may refuse the sender's interchanges too, as ZZ/HUB or ZZHUB",
    },
    files::JSON,
    color::COLOR,
    files::FILES,
];

/// The subcommand's part of the command line.
pub(crate) fn row() -> Row {
    Row {
        name: "explain",
        about: ABOUT,
        more: MORE,
        words: &WORDS,
    }
}

/// Explains one input, beside what was sent; `None` where the run stopped, as standard error says then,
/// and what was sent is gone.
fn explain(
    rt: &HostRuntime,
    style: &Style<'_>,
    sent: &mut Option<SentFile<'_>>,
) -> Result<Option<Outcome>> {
    let Some(input) = files::read(rt, style)? else {
        return Ok(Some(Outcome::SomethingWrong));
    };
    match run_explain(rt.alloc(), style, &input, sent.take(), &mut rt.stdout()) {
        Ok(explained) => {
            *sent = explained.sent;
            Ok(Some(files::told(rt, style, Ok(explained.outcome))?))
        }
        Err(fault) => {
            files::told(rt, style, Err(fault))?;
            Ok(None)
        }
    }
}

/// Explains each input, beside the file that was sent, where it is given.
fn explain_all(
    rt: &HostRuntime,
    style: &Style<'_>,
    words: &[&str],
    sent: &mut Option<SentFile<'_>>,
) -> Result<Outcome> {
    let named = files::find_files(rt, words, false)?;
    let mut outcome = named.outcome;
    for file in &named.files {
        let file = file.as_str();
        files::head(rt, style.form, &named.files, file)?;
        let Some(one) = explain(rt, &Style { file, ..*style }, sent)? else {
            return Ok(Outcome::SomethingWrong);
        };
        outcome = files::both(outcome, one);
    }
    Ok(outcome)
}

/// Says which sets of a file that was sent stay pending, and gives what else was found.
fn tell_pending(
    rt: &HostRuntime,
    style: &Style<'_>,
    sent: &SentFile<'_>,
    outcome: Outcome,
) -> Result<Outcome> {
    match run_pending(rt.alloc(), style, sent, &mut rt.stdout()) {
        Ok(()) => Ok(outcome),
        Err(fault) => files::told(rt, style, Err(fault)),
    }
}

/// Explains each input beside what was sent in a file, and says which of its sets stay pending.
fn explain_beside<'a>(
    rt: &HostRuntime,
    style: &Style<'a>,
    hub: Option<Party>,
    input: &'a [u8],
    words: &[&str],
) -> Result<Outcome> {
    let (sent, right) = match read_sent(rt.alloc(), style, hub, input, &mut rt.stdout()) {
        Ok(read) => read,
        Err(fault) => return files::told(rt, style, Err(fault)),
    };
    let mut sent = Some(sent);
    let all = explain_all(rt, style, words, &mut sent)?;
    let outcome = files::both(Outcome::of(right), all);
    match &sent {
        Some(sent) => tell_pending(rt, style, sent, outcome),
        None => Ok(outcome),
    }
}

/// Explains each input beside the file that was sent, which the style names.
fn explain_of(
    rt: &HostRuntime,
    style: &Style<'_>,
    hub: Option<Party>,
    words: &[&str],
) -> Result<Outcome> {
    let Some(input) = files::read(rt, style)? else {
        return Ok(Outcome::SomethingWrong);
    };
    let style = *style;
    explain_beside(rt, &style, hub, &input, words)
}

/// Explains each input, beside the file that was sent, where the command line names one.
fn explain_files(rt: &HostRuntime, found: &ArgMatches<'_>, hub: Option<Party>) -> Result<Outcome> {
    let words = found.get_strs("files").unwrap_or(&[]);
    let of = found.get_str("of");
    let style = Style {
        form: files::form(found),
        look: color::look(rt, found),
        file: of.unwrap_or("-"),
        is_quiet: false,
    };
    if of.is_some() {
        return explain_of(rt, &style, hub, words);
    }
    explain_all(rt, &style, words, &mut None)
}

/// What doesn't go together.
fn clashes_in(found: &ArgMatches<'_>) -> [Clash; 5] {
    let code = found.get_str("code").is_some();
    let of = found.get_str("of").is_some();
    let has_files = !found.get_strs("files").unwrap_or(&[]).is_empty();
    [
        Clash {
            both: code && has_files,
            one: "--code",
            other: "a file",
        },
        Clash {
            both: code && of,
            one: "--code",
            other: "--of",
        },
        Clash {
            both: code && found.get_flag("json"),
            one: "--code",
            other: "--json",
        },
        Clash {
            both: code && color::is_always(found),
            one: "--code",
            other: "--color always",
        },
        color::clash(found, "json", "--json"),
    ]
}

/// Runs the subcommand, and gives its exit status.
pub fn run(rt: &HostRuntime, found: &ArgMatches<'_>) -> Result<ExitCode> {
    if let Some(status) = clashes::refuse(rt, &clashes_in(found))? {
        return Ok(status);
    }
    if let Some(code) = found.get_str("code") {
        return codes::explain_code(rt, code);
    }
    let hub = found.get_str("hub");
    if hub.is_some() && found.get_str("of").is_none() {
        eprintln!(rt; "error: --hub wants --of, the file that was sent")?;
        return Ok(ExitCode::from(2));
    }
    let named = hub.and_then(parties::read_party);
    if hub.is_some() && named.is_none() {
        return parties::refuse(rt, "--hub", "HUB");
    }
    Ok(files::status(explain_files(rt, found, named)?))
}
