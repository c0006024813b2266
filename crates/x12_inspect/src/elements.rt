//! The elements of a segment that is shown, by their numbers and names, where the table has a rule for
//! them.

use crate::piece::say;
use crate::text::Text;
use x12_envelopes::{Header, Segment};
use x12_lint::{Rule, Table, rules_of_segment};

/// What an element is: its number in the dictionary, where that is told, and its name.
#[derive(Clone, Copy)]
struct Name<'t> {
    reference: Option<u32>,
    words: &'t [u8],
}

/// The rule of the element at a place.
fn rule_at<'t>(rules: &'t [Rule], place: usize) -> Option<&'t Rule> {
    for rule in rules {
        if rule.place == place {
            return Some(rule);
        }
    }
    None
}

/// Whether an element is the repetition separator of its interchange: ISA11, where there is one.
fn is_repetition(header: &Header, read: &Segment<'_>, place: usize) -> bool {
    place == 11 && read.identifier() == b"ISA".as_slice() && header.repetition().is_some()
}

/// What the element at a place is, where a rule or the header says it.
fn name_at<'t>(
    rules: &'t [Rule],
    header: &Header,
    read: &Segment<'_>,
    place: usize,
) -> Option<Name<'t>> {
    if is_repetition(header, read, place) {
        return Some(Name {
            reference: None,
            words: b"repetition separator",
        });
    }
    let rule = rule_at(rules, place)?;
    Some(Name {
        reference: Some(rule.reference),
        words: rule.name.as_slice(),
    })
}

/// Adds a line for an element: its place, its number and name, and what stands there.
fn say_element(out: &mut Text, place: usize, name: Option<Name<'_>>, value: &[u8]) {
    say!(out; "                         ", place);
    if let Some(name) = name {
        out.say(" (");
        if let Some(reference) = name.reference {
            say!(out; reference, " ");
        }
        say!(out; name.words, ")");
    }
    out.say_copy(value);
    out.say("\n");
}

/// Adds a line for each element of a segment that isn't empty, where the table has rules for the
/// segment; else for the repetition separator alone.
pub(crate) fn say_elements(out: &mut Text, table: &Table, header: &Header, read: &Segment<'_>) {
    let rules = rules_of_segment(table, read.identifier());
    for place in 1..=read.element_count() {
        let name = name_at(rules, header, read, place);
        let value = read.element(place);
        if !value.is_empty() && (name.is_some() || !rules.is_empty()) {
            say_element(out, place, name, value);
        }
    }
}

/// Adds an element as an object.
fn put_element(out: &mut Text, place: usize, name: Option<Name<'_>>, value: &[u8]) {
    out.begin_item();
    out.member("element", place);
    if let Some(name) = name {
        out.member_if("reference", name.reference);
        out.member("name", name.words);
    }
    out.member("value", value);
    out.say("}");
}

/// Adds a member with each element of a segment that isn't empty.
pub(crate) fn put_elements(out: &mut Text, table: &Table, header: &Header, read: &Segment<'_>) {
    let rules = rules_of_segment(table, read.identifier());
    out.begin_list("elements");
    for place in 1..=read.element_count() {
        let value = read.element(place);
        if !value.is_empty() {
            put_element(out, place, name_at(rules, header, read, place), value);
        }
    }
    out.say("]");
}
