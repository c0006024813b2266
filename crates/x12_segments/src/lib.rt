//! The segments of an interchange: each where it stands, each on a line, or all in one line (X12.6,
//! data segment).
#![tactic(auto)]

mod laying;
mod plain;
mod walk;

pub use laying::{Layout, run_layout};
pub use plain::{line_ends, lines_are_joined, push_joined, push_plain, without_line_ends};
pub use walk::{Compared, Placed, Walk};
