//! What the tables of records are made of: layouts, values in rows, queries, and why records aren't
//! made or taken over.
#![tactic(auto)]

mod fault;
mod layout;
mod party;
mod reading;
mod values;

pub use fault::{RecordsFault, TableFault};
pub use layout::{
    Foreign, IndexLayout, Name, PlainColumn, TableLayout, Unique, is_no_schema, is_schema,
};
pub use party::{party_bytes, party_in_row, party_of_bytes, test_party};
pub use reading::{is_device, read};
pub use values::{
    first_value, integer, long_in, misplaced, node_in, number_in, one_row, row_of_versions,
};
