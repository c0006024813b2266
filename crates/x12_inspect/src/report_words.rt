//! What is found of an interchange, in words.

use crate::coded::{Coded, numbered};
use crate::fault::{Cause, Fault};
use crate::header_words::Wrong;
use crate::naming::name_of;
use crate::piece::{Ink, icn, say};
use crate::printing::{JudgedSet, Noted, Printer, print_groups, refusal};
use crate::report::{Found, Judged, Report, Taken, counts_of};
use crate::text::Text;
use crate::trailer::{say_of_set, say_refusal};
use x12_envelopes::{Delims, Header};
use x12_judge::{ElementCode, ElementRule, GroupVerdict, SetNote, SetVerdict};

impl Text {
    /// Adds where an interchange stands, and its number and parties, if they can be read, as
    /// `interchange 1, 000000001, ZZ/ALPHA to ZZ/BETA`.
    pub(crate) fn interchange(&mut self, place: usize, header: Option<&Header>) {
        say!(self; Ink::Name, "interchange ", place);
        if let Some(header) = header {
            say!(self; ", ", icn(header.icn), ", ", &header.sender, " to ", &header.receiver);
        }
        self.say(Ink::Plain);
    }

    /// Adds what was found where a fault is, as a line, if there is more to say than the fault.
    fn found_line(&mut self, fault: &Fault<'_>) {
        if !matches!(fault.wrong, Wrong::Unsaid) {
            self.say("  ");
            fault.wrong.say(self);
            self.say("\n");
        }
    }

    /// Adds a data element by its number, and its name where it has one here.
    pub(crate) fn element(&mut self, reference: u32) {
        say!(self; " (", reference);
        if let Some(name) = name_of(reference) {
            say!(self; " ", name);
        }
        self.say(")");
    }
}

/// Adds a fault, and on lines below what was found, and where it is.
fn say_fault(out: &mut Text, fault: &Fault<'_>) {
    say!(out; fault.coded, "\n");
    out.found_line(fault);
    let line = out.len();
    say!(out; "  at byte ", fault.at, ", in segment ", fault.segment, ": \"");
    let column = out.len().saturating_sub(line);
    say!(out; fault.round, "\"\n");
    out.carets(column, fault.round, fault.before, 1);
}

/// Adds that an interchange is refused as a whole, and what it was found to hold, if there is more to
/// say.
fn say_whole(out: &mut Text, coded: Coded<'_>, cause: &Cause<'_>) {
    say!(out; ": refused: ", coded, "\n");
    match cause {
        Cause::Fault(fault) => {
            out.say("  ");
            say_fault(out, fault);
        }
        Cause::Words(words) => {
            if !words.is_empty() {
                say!(out; "  ", words, "\n");
            }
        }
    }
}

/// Adds how many of the accepted sets have errors that were noted, if any have.
fn say_noted(out: &mut Text, noted: u64) {
    if noted > 0 {
        say!(out; ", ", noted, " with errors noted");
    }
}

/// What was looked at of sets that are accepted: more of purchase orders (850) than of others.
fn looked_at(groups: &[GroupVerdict<'_>]) -> &'static str {
    for group in groups {
        for set in &group.sets {
            if set.set == *b"850" {
                return " (structure; 850: BEG, CTT01, a PO1)";
            }
        }
    }
    " (structure alone)"
}

/// Adds how many sets of an interchange are accepted, or rejected where something is wrong.
fn say_counts(out: &mut Text, groups: &[GroupVerdict<'_>], is_right: bool) {
    let counts = counts_of(groups);
    if is_right && counts.received == 0 {
        return say!(out; ": accepted, with no sets to judge\n");
    }
    if is_right {
        say!(out; ": ", Ink::Right, counts.received, " of ", counts.received, " sets accepted");
        say_noted(out, counts.noted);
        out.say(looked_at(groups));
    } else {
        say!(out; ": ", Ink::Wrong, counts.rejected, " of ", counts.received, " sets rejected");
    }
    say!(out; Ink::Plain, "\n");
}

/// Adds a group that was judged, by its place and its codes, as `  group 1, PO 1`.
fn say_group(out: &mut Text, group: &GroupVerdict<'_>) {
    say!(out; "  group ", group.place, ", ", &group.functional, " ", group.number_text);
}

/// Adds which length is wanted by the rule of an element with this code, as `, 2 at most`.
fn say_length(out: &mut Text, code: ElementCode, rule: &ElementRule) {
    match code {
        ElementCode::Missing => {
            say!(out; ", ", rule.least);
            if rule.least != rule.most {
                say!(out; " to ", rule.most);
            }
        }
        ElementCode::TooShort => say!(out; ", ", rule.least, " at least"),
        ElementCode::TooLong => say!(out; ", ", rule.most, " at most"),
        ElementCode::InvalidCharacter | ElementCode::InvalidDate => {}
    }
}

/// Adds which length is wanted of the element at a place of a note, where its code is about that.
fn say_wanted(out: &mut Text, note: &Noted<'_, '_>, place: u8, code: ElementCode) {
    if matches!(
        code,
        ElementCode::InvalidCharacter | ElementCode::InvalidDate
    ) {
        return;
    }
    if let Some(rule) = note.rule(place) {
        say_length(out, code, rule);
    }
}

/// Adds the element that a note is of, and what stands there.
fn say_element(out: &mut Text, place: u8, reference: u16, copy: &[u8]) {
    say!(out; ", element ", place);
    out.element(u32::from(reference));
    out.say_copy(copy);
}

/// Adds a note of the set before, as `    segment 2 BEG: 8 segment has data element errors`.
fn say_note(out: &mut Text, note: &Noted<'_, '_>) {
    say!(out; "    segment ", note.position, " ", note.identifier);
    match note.note {
        SetNote::Segment { .. } => say!(out; ": ", note.coded()),
        SetNote::Element {
            place,
            reference,
            code,
            copy,
        } => {
            say_element(out, *place, *reference, *copy);
            say!(out; ": ", note.coded());
            say_wanted(out, note, *place, *code);
        }
    }
    out.say("\n");
}

/// Adds what something was found in, between brackets, if there is more to say.
pub(crate) fn say_within(out: &mut Text, found: &Text) {
    if !found.is_empty() {
        say!(out; " (", found, ")");
    }
}

/// Adds the codes of a set, one behind another, each with what it was found in.
fn say_codes(out: &mut Text, delims: &Delims, set: &SetVerdict<'_>) {
    let mut between = "";
    for code in set.codes.as_slice() {
        say!(out; between, numbered("AK502", u32::from(code.number())));
        let mut found = out.beside();
        say_of_set(&mut found, *code, delims, set.bytes);
        say_within(out, &found);
        between = ", ";
    }
}

/// How a set with errors fares.
fn fares(set: &SetVerdict<'_>) -> &'static str {
    if set.is_accepted() {
        ": accepted, errors noted: "
    } else {
        ": rejected: "
    }
}

/// Says what is wrong, in order. That a segment has elements in error isn't said where they follow.
#[derive(Clone, Copy)]
struct Words<'a> {
    delims: Delims,
    /// The bytes of the interchange.
    bytes: &'a [u8],
}

impl Printer for Words<'_> {
    ghost prints = { λ printer t found u. Unit {0} };

    fn group(&self, out: &mut Text, group: &GroupVerdict<'_>) {
        if let Some(coded) = refusal(group) {
            say_group(out, group);
            say!(out; ": refused: ", coded);
            let mut found = out.beside();
            say_refusal(&mut found, &self.delims, self.bytes, group);
            say_within(out, &found);
            out.say("\n");
        }
    }

    fn set(&self, out: &mut Text, at: &JudgedSet<'_, '_>) {
        if at.is_without_errors() {
            return;
        }
        say_group(out, at.group);
        say!(out; ", set ", at.place, ", ", &at.set.set, " ", at.set.number.as_bytes(), fares(at.set));
        say_codes(out, &self.delims, at.set);
        out.say("\n");
    }

    fn note(&self, out: &mut Text, at: &JudgedSet<'_, '_>, note: &Noted<'_, '_>) {
        if !note.is_heading {
            say_note(out, note);
            out.excerpt(&self.delims, at.set.bytes, note);
        }
    }

    fn leave(&self, _out: &mut Text) {}

    ghost at_first = { λ printer t. tt };

    ghost behind = { λ printer t u v found more now then_more. tt };
}

/// Adds what is wrong with groups that were judged.
fn say_groups(out: &mut Text, delims: &Delims, bytes: &[u8], groups: &[GroupVerdict<'_>]) {
    let delims = *delims;
    print_groups(&Words { delims, bytes }, out, groups);
}

/// Adds pairs, each once, as `PO850, IN810`.
fn say_pairs(out: &mut Text, pairs: &[([u8; 2], [u8; 3])]) {
    let mut between = "";
    for (index, pair) in pairs.iter().enumerate() {
        let (before, _) = pairs.split_at(index);
        if !before.contains(pair) {
            say!(out; between, &pair.0, &pair.1);
            between = ", ";
        }
    }
}

/// Adds who checks and what is taken, where one of these wasn't named.
fn say_taken(out: &mut Text, taken: &Taken<'_>) {
    if !taken.is_receiver && !taken.are_standing {
        return;
    }
    let who = if taken.is_receiver {
        "its receiver "
    } else {
        ""
    };
    let what = if taken.are_standing {
        "the sets in it: "
    } else {
        ""
    };
    say!(out; "  as ", who, &taken.me, ", who takes ", what);
    say_pairs(out, taken.pairs);
    out.say("\n");
}

/// Adds what its receiver finds of an interchange.
fn say_judged(out: &mut Text, report: &Report<'_, '_>, delims: &Delims, judged: &Judged<'_, '_>) {
    say_counts(out, judged.groups, report.accepted == Some(true));
    say_taken(out, &judged.taken);
    say_groups(out, delims, report.bytes, judged.groups);
    if let Some(remarks) = &report.remarks {
        out.put_text(&remarks.text);
    }
}

/// Adds what is found of an interchange. That it can't be read stands behind its name, or, where that
/// has a line of its own, below.
pub(crate) fn say_report(out: &mut Text, report: &Report<'_, '_>) {
    out.interchange(report.place, report.header);
    match (&report.found, report.header) {
        (Found::Unreadable(fault), header) => {
            say!(out; if header.is_some() { "\n  " } else { ": " });
            say_fault(out, fault);
        }
        (Found::Refused(coded, cause) | Found::Unsendable(coded, cause), _) => {
            say_whole(out, *coded, cause);
        }
        (Found::Judged(judged), Some(header)) => {
            say_judged(out, report, &header.delims, judged);
        }
        (Found::Judged(_), None) => {}
        (Found::Sendable(sets), _) => {
            say!(out; ": ", Ink::Right, "may be submitted, with ", *sets, " sets", Ink::Plain, "\n");
        }
    }
}
