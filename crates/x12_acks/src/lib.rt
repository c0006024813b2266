//! What is said of an interchange to its sender: the interchange acknowledgment (TA1) and the
//! functional acknowledgment (997), written and read.
#![tactic(auto)]

mod answer;
mod group_answer;
mod interchange_answer;
mod key;
mod laws;
mod named;
mod need;
mod note;
mod reply;
mod reply_header;
mod set_answer;
mod statement;

pub use answer::{Answer, AnswerCode, read_answers};
pub use key::SetKey;
pub use laws::{
    a_997_is_read_by_its_grammar, a_group_number_is_used_where_it_is_taken,
    a_plain_party_is_an_address, a_reply_accepts_the_accepted_sets, a_reply_fits, a_reply_is_short,
    a_reply_tells_the_verdict, a_verdict_is_told_by_place, answers_are_read_back,
    segments_tell_the_verdict,
};
pub use named::{
    evidence_is_found_in_parts, evidence_is_of_each, evidence_is_of_the_named,
    evidence_needs_the_named, finders_find_the_named, numbers_name_one,
};
pub use need::Needs;
pub use reply::{needs, push_reply, write_refusal, write_reply};
pub use reply_header::ReplyHeader;
