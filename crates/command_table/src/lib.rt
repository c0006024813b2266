//! A command line as a table: a program's commands and their words are rows of constants, and this
//! makes of them what `clap` parses.
#![tactic(auto)]

mod argument;
mod command;
mod ending;
mod fault;
mod help;
mod parsing;
mod table;

pub use ending::Ending;
pub use fault::Fault;
pub use help::help_text;
pub use parsing::{Parsed, parse, process_words};
pub use table::{Group, HasRow, Kind, Program, Row, Word};
