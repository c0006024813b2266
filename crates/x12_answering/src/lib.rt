//! Answers a transmission: the reply to each of its interchanges in order, from any reader to any
//! writer.
#![tactic(auto)]

mod answering;
mod fault;
mod input;
mod number;
mod options;
mod output;
mod words;

pub use answering::run_answer;
pub use fault::{RunFault, RunStatus};
pub use input::read_input;
pub use options::Options;
pub use output::{write_last, write_piece};
pub use words::{OptionFault, OptionWords, are_capitals_or_digits, read_options, read_pair};

/// The version of this product's programs: that of the newest dated section of CHANGELOG.md.
pub const VERSION: &str = "0.1.0";
