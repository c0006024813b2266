//! The words of codes: of each code that a reply, a refusal, a fault or a remark has, what it says and what to
//! do about it, one table a family.
#![tactic(auto)]

mod family;
mod fates;
mod faults;
mod groups;
mod interchanges;
mod notes;
mod remarks;
mod sets;
mod wording;

pub use family::{FAMILIES, find_wording, split_code, wordings, words_of};
pub use fates::fate_word;
pub use wording::Wording;
