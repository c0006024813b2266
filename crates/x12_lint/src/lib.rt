//! Remarks on transaction sets beyond what is judged: which segments and elements a table asks for,
//! and which of its rows isn't met. A table is a text, one row a line.
#![tactic(auto)]

mod adding;
mod builtin;
mod element;
mod elements;
mod lines;
mod linting;
mod naming;
mod part;
mod remark;
mod table;

pub use adding::RowFault;
pub use builtin::add_builtin;
pub use element::{ElementKind, Flaw, Rule, flaw_of};
pub use linting::lint_set;
pub use remark::Remark;
pub use table::{Counting, SegmentRow, SegmentRules, SetRows, Table, rules_of_segment};
