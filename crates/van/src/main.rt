//! The program `van`: one command a file. Those of mailboxes stand in x12_mailbox.
#![tactic(auto)]

mod check;
mod clashes;
mod codes;
mod color;
mod command;
mod explain;
mod files;
mod folders;
mod parties;
mod records;
mod show;
mod tables;
mod words;

use crate::command::{Command, FILES, of_mailboxes};
use crate::words::{as_texts, with_long_options};
use anyhow::Result;
use clap::ArgMatches;
use command_table::{Fault, Group, Parsed, Program, help_text, parse, process_words};
use std::io::ErrorKind;
use std::process::ExitCode;
use x12_answering::VERSION;
use x12_mailbox::{misuse, status_of};

const ABOUT: &str =
    "Checks, shows, explains and answers X12 files (version 004010), and keeps mailboxes in folders";

/// Runs the command of these words.
fn run_command(rt: &HostRuntime, command: Command, found: &ArgMatches<'_>) -> Result<ExitCode> {
    match command {
        Command::Check => check::run(rt, found),
        Command::Show => show::run(rt, found),
        Command::Explain => explain::run(rt, found),
        Command::Answer => Ok(answer_command::run(rt, found)?),
        Command::Mailbox(command) => Ok(records::run(rt, command, found)),
    }
}

/// The exit status where nothing could be said: a reader who has seen enough is no fault.
fn unsaid(fault: Fault) -> Result<ExitCode> {
    match fault {
        Fault::System(error) if error.kind() == ErrorKind::BrokenPipe => Ok(ExitCode::SUCCESS),
        fault => Err(fault.into()),
    }
}

/// Runs the command that these words name.
fn run_words(
    rt: &HostRuntime,
    program: &Program<'_, Command>,
    words: &[String],
) -> Result<ExitCode> {
    let help = help_text(rt.alloc(), program)?;
    match parse(rt, program, help.as_str(), words) {
        Ok(Parsed::Found(command, found)) => run_command(rt, command, &found),
        Ok(Parsed::Ended(ending)) => Ok(ExitCode::from(ending.status())),
        Err(fault) => unsaid(fault),
    }
}

/// Runs the command that these words name, of all.
fn run(rt: &HostRuntime, words: &[String]) -> Result<ExitCode> {
    let mailboxes = of_mailboxes(rt.alloc())?;
    let groups = [
        Group {
            title: "Files",
            commands: &FILES,
        },
        Group {
            title: "Mailboxes",
            commands: &mailboxes,
        },
    ];
    let van = Program {
        name: "van",
        version: VERSION,
        about: ABOUT,
        groups: &groups,
    };
    run_words(rt, &van, &with_long_options(rt.alloc(), words)?)
}

/// Whether a command line is one that reads files, and makes none.
fn only_reads(words: &[String]) -> bool {
    match words.get(1) {
        Some(word) => matches!(word.as_str(), "check" | "show" | "explain"),
        None => false,
    }
}

/// Runs a command line with a word that isn't UTF-8. Where files are read, that word names none and the
/// others are read; any other command is refused.
fn run_unreadable(rt: &HostRuntime) -> Result<ExitCode> {
    let words = as_texts(rt)?;
    if only_reads(&words) {
        return run(rt, &words);
    }
    let stop = misuse(rt, &["an argument isn't UTF-8"]);
    Ok(ExitCode::from(status_of(rt, stop)))
}

/// Goes on where the words of the command line can't be read as texts. Any other fault ends the program.
fn run_without(rt: &HostRuntime, fault: Fault) -> Result<ExitCode> {
    match fault {
        Fault::System(error) if error.kind() == ErrorKind::InvalidData => run_unreadable(rt),
        fault => Err(fault.into()),
    }
}

fn main(rt: HostRuntime) -> Result<ExitCode> {
    match process_words(&rt) {
        Ok(words) => run(&rt, &words),
        Err(fault) => run_without(&rt, fault),
    }
}
