//! One SQL statement at a time, over a table whose rows stand for values by rising key.
#![tactic(auto)]

mod query;
mod statement;

pub use query::ask;
pub use statement::run;
