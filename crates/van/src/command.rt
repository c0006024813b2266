//! The commands of the program: those of files, then those of mailboxes.

use crate::{check, explain, show};
use command_table::{HasRow, Row};
use std::alloc::{AllocError, Global};

/// A command.
#[derive(Clone, Copy)]
pub(crate) enum Command {
    /// What is wrong with a file.
    Check,
    /// The segments of a file.
    Show,
    /// What acknowledgments and codes say.
    Explain,
    /// The replies to a file.
    Answer,
    /// One of mailboxes.
    Mailbox(x12_mailbox::Command),
}

/// The commands of files, in the order of the help.
pub(crate) static FILES: [Command; 4] = [
    Command::Check,
    Command::Show,
    Command::Explain,
    Command::Answer,
];

/// The commands of mailboxes, in the order of the help.
pub(crate) fn of_mailboxes(alloc: Global) -> Result<Vec<Command>, AllocError> {
    let mut commands = Vec::new(alloc);
    for command in &x12_mailbox::COMMANDS {
        commands.push(Command::Mailbox(*command))?;
    }
    Ok(commands)
}

impl HasRow for Command {
    fn row(self) -> Row {
        match self {
            Command::Check => check::row(),
            Command::Show => show::row(),
            Command::Explain => explain::row(),
            Command::Answer => answer_command::row(),
            Command::Mailbox(command) => command.row(),
        }
    }
}
