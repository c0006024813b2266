//! What an interchange deserves: refused with a note, or judged group by group and set by set.
#![tactic(auto)]

mod agreement;
mod body;
mod code;
mod controls;
mod element;
mod elements;
mod group;
mod interchange;
mod judging;
mod laws;
mod note;
mod number;
mod segment;
mod set;
mod verdict;

pub use agreement::Agreement;
pub use controls::Controls;
pub use element::{ElementRule, Form, element_rules};
pub use interchange::Reading;
pub use judging::{judge, judge_by, judge_reading, read_interchange};
pub use laws::{judged_is_read, judgements_are_small, notes_rise};
pub use verdict::{
    ElementCode, GroupRefusal, GroupVerdict, Judgement, Note, SegmentCode, SetCode, SetCodes,
    SetNote, SetResult, SetVerdict, Verdict,
};
