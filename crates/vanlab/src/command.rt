//! The commands of the program.

use crate::{network, script};
use command_table::{HasRow, Row};

/// A command.
#[derive(Clone, Copy)]
pub(crate) enum Command {
    /// The replies to a transmission.
    Answer,
    /// A network with threads.
    Network,
    /// A network from a script.
    Script,
    /// The report of a script's end.
    Report,
}

/// All of them, in the order of the help.
pub(crate) static COMMANDS: [Command; 4] = [
    Command::Answer,
    Command::Network,
    Command::Script,
    Command::Report,
];

impl HasRow for Command {
    fn row(self) -> Row {
        match self {
            Command::Answer => answer_command::row(),
            Command::Network => network::row(),
            Command::Script => script::script_row(),
            Command::Report => script::report_row(),
        }
    }
}
