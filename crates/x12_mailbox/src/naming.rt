//! The names of files: those that say an item's number, and those of files that aren't there yet.

use crate::words::nine;
use std::alloc::{AllocError, Global};
use x12_envelopes::number_of;
use x12_spool::Word;

/// A name that says a number.
pub(crate) fn named(
    alloc: Global,
    front: &str,
    number: u32,
    end: &str,
) -> Result<String, AllocError> {
    let mut name = String::from_str(alloc, front)?;
    name.push_str(nine(alloc, number)?.as_str())?;
    name.push_str(end)?;
    Ok(name)
}

/// The number between what a name begins with and ends with.
fn number_in(name: &[u8], front: &[u8], end: &[u8]) -> Option<u32> {
    number_of(name.strip_prefix(front)?.strip_suffix(end)?)
}

/// What the names of the files in a folder may say.
#[derive(Clone, Copy)]
pub(crate) enum Names {
    /// Nothing: what is to be submitted.
    Plain,
    /// That it is an item of the station's mailbox.
    Items,
    /// That an item was taken out of a mailbox of the hub.
    Taken,
    /// Both, of another hub: that it is an item of the mailbox there, or that one was taken out of the
    /// mailbox here.
    Passed,
}

/// What the name of an item's file says.
fn item_in(name: &[u8]) -> Word {
    match number_in(name, b"item-", b".edi") {
        Some(item) => Word::Item(item),
        None => Word::Plain,
    }
}

/// What the name of a file says that tells of an item as taken, or what other names say.
fn taken_in(name: &[u8], other: Word) -> Word {
    match number_in(name, b"taken-", b"") {
        Some(item) => Word::Taken(item),
        None => other,
    }
}

/// What the name of a file says.
pub(crate) fn word_in(name: &[u8], names: Names) -> Word {
    match names {
        Names::Plain => Word::Plain,
        Names::Items => item_in(name),
        Names::Taken => taken_in(name, Word::Plain),
        Names::Passed => taken_in(name, item_in(name)),
    }
}

/// What the names of files end with that are still being written, by those who write them so.
const UNFINISHED: [&str; 4] = ["~", ".tmp", ".part", ".filepart"];

/// Whether a name is that of a file that isn't there yet.
pub(crate) fn is_unfinished(name: &[u8]) -> bool {
    UNFINISHED
        .iter()
        .any(|end: &&str| -> bool { name.ends_with(end.as_bytes()) })
}
