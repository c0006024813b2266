//! The commands that `clap` parses, of the rows of a table.

use crate::argument::argument;
use crate::table::{Group, HasRow, Program, Row};
use clap::Command;
use std::alloc::{AllocError, Global};

/// The command of a row.
fn command_of<'a>(alloc: Global, row: &Row) -> Result<Command<'a>, AllocError> {
    let mut command = Command::new(alloc, row.name)
        .about(row.about)
        .after_help(row.more);
    for word in row.words {
        command = command.arg(argument(alloc, word))?;
    }
    Ok(command)
}

/// Adds the commands of a group.
fn with_group<'a, C: HasRow>(
    alloc: Global,
    program: Command<'a>,
    group: &Group<'_, C>,
) -> Result<Command<'a>, AllocError> {
    let mut program = program;
    for command in group.commands {
        program = program.subcommand(command_of(alloc, &command.row())?)?;
    }
    Ok(program)
}

/// The command line of a program, and its help.
pub(crate) fn command_line<'a, C: HasRow>(
    alloc: Global,
    program: &Program<'_, C>,
    help: &'a str,
) -> Result<Command<'a>, AllocError> {
    let mut command = Command::new(alloc, program.name)
        .version(program.version)
        .about(program.about)
        .override_help(help)
        .subcommand_required(true);
    for group in program.groups {
        command = with_group(alloc, command, group)?;
    }
    Ok(command)
}
