//! Why a station would refuse to submit an interchange, in words.

use crate::fault::{Cause, outline_fault, say_address};
use crate::piece::{icn, say};
use crate::slice::Interchange;
use crate::style::Look;
use crate::text::Text;
use std::alloc::{AllocError, Global};
use x12_envelopes::{GroupView, Header, Outline, OutlineFault, SetView, outline};
use x12_numbers::Book;
use x12_outbound::SubmitFault;
use x12_sent::Sender;

/// Adds the group at an index, by its place and its codes, as `group 1, PO 1`.
fn say_group(words: &mut Text, index: usize, group: &GroupView<'_>) {
    let place = index.saturating_add(1);
    say!(words; "group ", place, ", ", &group.functional, " ", group.number_text);
}

/// Adds the first TA1 or group of acknowledgments.
fn say_answer(words: &mut Text, read: &Outline<'_>) {
    if let Some(ta1) = read.tas.first() {
        return say!(words; "TA1 of interchange ", icn(ta1.icn));
    }
    for (index, group) in read.groups.iter().enumerate() {
        if group.functional == *b"FA" {
            return say_group(words, index, group);
        }
    }
}

/// Adds the first group without a set, or that there is no group.
fn say_empty(words: &mut Text, read: &Outline<'_>) {
    for (index, group) in read.groups.iter().enumerate() {
        if group.sets.is_empty() {
            say_group(words, index, group);
            return say!(words; ": no set");
        }
    }
    say!(words; "no group");
}

/// Whether one of these sets has the control number of another set.
fn has_number(sets: &[SetView<'_>], other: &SetView<'_>) -> bool {
    for set in sets {
        if set.number == other.number {
            return true;
        }
    }
    false
}

/// The first of these sets whose control number a set behind it has, and its place, from 1.
fn first_repeated<'r, 'a>(sets: &'r [SetView<'a>]) -> Option<(usize, &'r SetView<'a>)> {
    for (index, set) in sets.iter().enumerate() {
        let (_, behind) = sets.split_at(index + 1);
        if has_number(behind, set) {
            return Some((index + 1, set));
        }
    }
    None
}

/// Adds the first set whose control number a set behind it in its group has.
fn say_twice(words: &mut Text, read: &Outline<'_>) {
    for (index, group) in read.groups.iter().enumerate() {
        if let Some((place, set)) = first_repeated(&group.sets) {
            say_group(words, index, group);
            return say!(words; ": ", set.number.as_bytes(), " is set ", place, ", and one behind it");
        }
    }
}

/// Adds the first group whose number isn't above the one before it, of which the first is given.
fn say_old_group(words: &mut Text, last: u32, groups: &[GroupView<'_>]) {
    let mut before = last;
    for (index, group) in groups.iter().enumerate() {
        if group.number <= before {
            say_group(words, index, group);
            return say!(words; ": the last number used is ", before);
        }
        before = group.number;
    }
}

/// Adds the first number that isn't above the one before it.
fn say_old(words: &mut Text, last: &Book, header: &Header, read: &Outline<'_>) {
    if header.icn <= last.interchange() {
        return say!(words; "ISA13 is ", header.icn, ", the last one used ", last.interchange());
    }
    say_old_group(words, last.group(), &read.groups);
}

/// Adds what a fault of what an interchange holds was found in.
fn say_held(
    words: &mut Text,
    sender: &Sender,
    fault: SubmitFault,
    header: &Header,
    read: &Outline<'_>,
) {
    match fault {
        SubmitFault::Acknowledgments => say_answer(words, read),
        SubmitFault::Empty => say_empty(words, read),
        SubmitFault::SetTwice => say_twice(words, read),
        SubmitFault::NotNew => say_old(words, &sender.book, header, read),
        _ => {}
    }
}

/// The same of an interchange whose outline isn't read yet.
fn say_outlined(
    alloc: Global,
    words: &mut Text,
    sender: &Sender,
    at: &Interchange<'_, '_>,
    fault: SubmitFault,
) -> Result<(), AllocError> {
    match outline(alloc, at.bytes, at.header) {
        Ok(read) => {
            say_held(words, sender, fault, at.header, &read);
            Ok(())
        }
        Err(OutlineFault::Memory) => Err(AllocError),
        Err(_) => Ok(()),
    }
}

/// Adds what a fault of an interchange was found in.
fn say_cause(
    alloc: Global,
    words: &mut Text,
    sender: &Sender,
    at: &Interchange<'_, '_>,
    fault: SubmitFault,
) -> Result<(), AllocError> {
    let (me, header) = (&sender.me, at.header);
    match fault {
        SubmitFault::NotMine => say_address(words, "ISA05 and ISA06", &header.sender, me),
        SubmitFault::OwnAddress => say_address(words, "ISA07 and ISA08", &header.receiver, me),
        _ => return say_outlined(alloc, words, sender, at, fault),
    }
    Ok(())
}

/// Why a sender may not submit an interchange.
pub(crate) fn cause_of<'a>(
    alloc: Global,
    sender: &Sender,
    at: &Interchange<'_, 'a>,
    fault: SubmitFault,
) -> Result<Cause<'a>, AllocError> {
    if let SubmitFault::Shape(found) = fault {
        return Ok(Cause::Fault(outline_fault(at, found)));
    }
    let mut words = Text::new(alloc, Look::Plain);
    say_cause(alloc, &mut words, sender, at, fault)?;
    Ok(Cause::Words(words))
}
