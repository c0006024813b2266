//! How records aren't what their station's history tells, as a sentence.

use crate::reason::station_text;
use crate::status::key_text;
use crate::words::nine;
use std::alloc::{AllocError, Global};
use x12_acks::SetKey;
use x12_outbound::Fate;
use x12_verify::Difference;
use x12_words::fate_word;

/// What is wrong with an item of the history.
fn item_text(alloc: Global, number: u64, what: &str) -> Result<String, AllocError> {
    format!(in alloc; "number {number} of the history: {what}")
}

/// That a set has another fate than what came tells.
fn fate_text(alloc: Global, key: &SetKey, kept: Fate, due: Fate) -> Result<String, AllocError> {
    let key = key_text(alloc, key)?;
    let key = key.as_str();
    let kept = fate_word(kept);
    let due = fate_word(due);
    format!(in alloc; "{key} is {kept}, and by what came {due}")
}

/// That a posting isn't what it should be.
fn posting_text(alloc: Global, at: u64) -> Result<String, AllocError> {
    format!(in alloc;
        "posting {at} isn't the set that was accepted there, by what came and its reply"
    )
}

/// That what is kept of a submission isn't what it should be.
fn submission_text(alloc: Global, icn: u32) -> Result<String, AllocError> {
    let number = nine(alloc, icn)?;
    let number = number.as_str();
    format!(in alloc; "{number}: what is kept of this submission isn't what its bytes say")
}

/// What is wrong with an item of the history, where it is always the same; empty where it isn't.
fn item_words(difference: &Difference) -> &'static str {
    match difference {
        Difference::Missing(_) => "nothing has this number",
        Difference::NoHeader(_) => "what came has no header",
        Difference::NotFiled(_) => "it isn't filed under its sender and number",
        Difference::FiledElse(_) => "something else is filed under its sender and number",
        Difference::NoReplyHeader(_) => "what is kept as the reply has no header",
        Difference::Number(_) => { "its reply has a control number above the last that was used" }
        Difference::NotDue(_) => "what is kept as its reply isn't one that was due",
        Difference::CameBefore(_) => "its sender's number came before",
        _ => "",
    }
}

/// How records differ.
pub(crate) fn difference_text(alloc: Global, difference: Difference) -> Result<String, AllocError> {
    match difference {
        Difference::Owner => String::from_str(
            alloc,
            "its records name a party that no mailbox can have",
        ),
        Difference::Refused(number, fault) => {
            item_text(alloc, number, station_text(alloc, fault)?.as_str())
        }
        Difference::Posting(at) => posting_text(alloc, at),
        Difference::Submission(icn) => submission_text(alloc, icn),
        Difference::Fate { key, kept, due } => fate_text(alloc, &key, kept, due),
        Difference::Missing(number)
        | Difference::NoHeader(number)
        | Difference::NotFiled(number)
        | Difference::FiledElse(number)
        | Difference::NoReplyHeader(number)
        | Difference::Number(number)
        | Difference::NotDue(number)
        | Difference::CameBefore(number) => { item_text(alloc, number, item_words(&difference)) }
    }
}
