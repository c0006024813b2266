//! Folders that are mailboxes: what each command of the program `van` does to the folder of a station or
//! a hub. A command is a file: its row of the command line, what
//! its words say, and its run.
#![tactic(auto)]

mod agreeing;
mod aside;
mod books;
mod clock;
mod command;
mod connecting;
mod counts;
mod differing;
mod enrolling;
mod files;
mod folder;
mod form;
mod handing;
mod history;
mod hub_log;
mod linking;
mod listing;
mod logging;
mod making;
mod marks;
mod migrating;
mod naming;
mod numbers;
mod opening;
mod options;
mod pairs;
mod posted;
mod reason;
mod reconciling;
mod rights;
mod running;
mod say;
mod search;
mod station_turns;
mod status;
mod stop;
mod submitting;
mod taking;
mod turns;
mod unsent;
mod verifying;
mod whose;
mod words;

pub use command::{COMMANDS, Command};
pub use opening::{Migration, OpensRecords};
pub use say::misuse;
pub use stop::{Stop, status_of};
