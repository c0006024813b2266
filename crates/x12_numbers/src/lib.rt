//! The control numbers of a station: a book numbers its interchanges (X12.5) and functional groups
//! (X12.6), each number above all before it, up to 999999999.
#![tactic(auto)]

mod book;
mod history;
mod refusal;

pub use book::{Book, MAX_CONTROL_NUMBER};
pub use history::numbers_rise;
pub use refusal::{Exhausted, NotNew};
