//! What the help of a program says: its commands, by groups.

use crate::table::{Group, HasRow, Program, Row};
use std::alloc::{AllocError, Global};

const OPTIONS: &str = "
Options:
  -h, --help     Print help; behind a command, that of the command
  -V, --version  Print version
";

/// The length of the longest name, or this one.
fn longest<C: HasRow>(group: &Group<'_, C>, least: usize) -> usize {
    let mut longest = least;
    for command in group.commands {
        longest = longest.max(command.row().name.len());
    }
    longest
}

/// Adds the line of a command, whose name has so much room.
fn push_row(text: &mut String, row: &Row, room: usize) -> Result<(), AllocError> {
    text.push_str("  ")?;
    text.push_str(row.name)?;
    for _ in row.name.len()..room {
        text.push(' ')?;
    }
    text.push_str("  ")?;
    text.push_str(row.about)?;
    text.push('\n')
}

/// Adds the lines of a group, whose names have so much room.
fn push_group<C: HasRow>(
    text: &mut String,
    group: &Group<'_, C>,
    room: usize,
) -> Result<(), AllocError> {
    text.push('\n')?;
    text.push_str(group.title)?;
    text.push_str(":\n")?;
    for command in group.commands {
        push_row(text, &command.row(), room)?;
    }
    Ok(())
}

/// Adds what a program does, and how it is called.
fn push_head<C>(text: &mut String, program: &Program<'_, C>) -> Result<(), AllocError> {
    text.push_str(program.about)?;
    text.push_str("\n\nUsage: ")?;
    text.push_str(program.name)?;
    text.push_str(" <COMMAND>\n")
}

/// The help of a program.
pub fn help_text<C: HasRow>(alloc: Global, program: &Program<'_, C>) -> Result<String, AllocError> {
    let mut room = 0;
    for group in program.groups {
        room = longest(group, room);
    }
    let mut text = String::new(alloc);
    push_head(&mut text, program)?;
    for group in program.groups {
        push_group(&mut text, group, room)?;
    }
    text.push_str(OPTIONS)?;
    Ok(text)
}
