//! A process's words, and what comes of them.

use crate::command::command_line;
use crate::ending::Ending;
use crate::fault::Fault;
use crate::table::{Group, HasRow, Program};
use clap::error::ErrorKind;
use clap::{ArgMatches, Error};
use std::env;

/// What came of the words of a command line.
#[derive(Drop)]
pub enum Parsed<'a, C> {
    /// They name this command, and these are its words.
    Found(C, ArgMatches<'a>),
    /// They name none, and what there is to say is said.
    Ended(Ending),
}

/// The words of the process, its name first. One that isn't UTF-8 is a fault of the system, of the
/// kind `InvalidData`.
pub fn process_words(rt: &HostRuntime) -> Result<Vec<String>, Fault> {
    Ok(env::args(rt)?.collect(rt.alloc())?)
}

/// Prints help, or what is wrong with the words.
fn print(rt: &HostRuntime, error: &Error) -> Result<Ending, Fault> {
    error.print(rt)?;
    Ok(match error.kind() {
        ErrorKind::DisplayHelp | ErrorKind::DisplayVersion => Ending::Shown,
        ErrorKind::OutOfMemory => Ending::Memory,
        _ => Ending::Wrong,
    })
}

/// The command of this name in a group.
fn find_in<C: HasRow>(group: &Group<'_, C>, name: &str) -> Option<C> {
    for command in group.commands {
        if command.row().name == name {
            return Some(*command);
        }
    }
    None
}

/// The command of this name.
fn find<C: HasRow>(program: &Program<'_, C>, name: &str) -> Option<C> {
    for group in program.groups {
        if let Some(command) = find_in(group, name) {
            return Some(command);
        }
    }
    None
}

/// The command that was found, and its words.
fn found<'a, C: HasRow>(program: &Program<'_, C>, words: ArgMatches<'a>) -> Parsed<'a, C> {
    let mut words = words;
    let Some((name, words)) = words.remove_subcommand() else {
        return Parsed::Ended(Ending::Wrong);
    };
    match find(program, name) {
        Some(command) => Parsed::Found(command, words),
        None => Parsed::Ended(Ending::Wrong),
    }
}

/// Parses the words of a command line, of which the first is the program's name; the text of its help
/// is that of [`help_text`](crate::help_text). Where they name no command, help, the version or what is
/// wrong is printed.
pub fn parse<'a, C: HasRow>(
    rt: &HostRuntime,
    program: &Program<'_, C>,
    help: &'a str,
    words: &'a [String],
) -> Result<Parsed<'a, C>, Fault> {
    let command = command_line(rt.alloc(), program, help)?;
    match command.try_get_matches_from(words) {
        Ok(words) => Ok(found(program, words)),
        Err(error) => Ok(Parsed::Ended(print(rt, &error)?)),
    }
}
