//! What is found of an interchange, as JSON: one object on a line.

use crate::coded::{Coded, numbered};
use crate::fault::{Cause, Fault};
use crate::piece::{NULL, Number, icn, members, say};
use crate::printing::{JudgedSet, Noted, Printer, print_groups, refusal};
use crate::report::{Found, Judged, Report, counts_of};
use crate::text::Text;
use crate::trailer::{say_of_set, say_refusal};
use x12_envelopes::{Delims, Header};
use x12_judge::{GroupVerdict, SetNote, SetVerdict};

impl Text {
    /// Begins the object of an interchange: its file, and its place in it.
    pub(crate) fn begin_interchange(&mut self, file: &str, place: usize) {
        self.begin_item();
        members!(self; "file": file, "interchange": place);
    }

    /// Adds the number and the parties of an interchange.
    pub(crate) fn header_members(&mut self, header: &Header) {
        members!(self; "number": icn(header.icn), "sender": &header.sender, "receiver": &header.receiver);
    }

    /// Adds what something was found in, if there is more to say than its code.
    fn found_member(&mut self, found: &Text) {
        if !found.is_empty() {
            self.member("found", found.bytes());
        }
    }

    /// Adds a member that is a fault with its place.
    fn fault_member(&mut self, fault: &Fault<'_>) {
        self.begin_object("fault");
        self.coded_members(fault.coded);
        members!(self; "byte": fault.at, "segment": fault.segment, "bytes": fault.round);
        let mut found = self.beside();
        fault.wrong.say(&mut found);
        self.found_member(&found);
        self.say("}");
    }
}

/// Adds the codes of a set, each with what it was found in.
fn put_codes(out: &mut Text, delims: &Delims, set: &SetVerdict<'_>) {
    out.begin_list("codes");
    for code in set.codes.as_slice() {
        out.begin_item();
        out.coded_members(numbered("AK502", u32::from(code.number())));
        let mut found = out.beside();
        say_of_set(&mut found, *code, delims, set.bytes);
        out.found_member(&found);
        out.say("}");
    }
    out.say("]");
}

/// Adds why a group is refused, with what that was found in; null where it isn't.
fn put_refusal(out: &mut Text, tree: &Tree<'_>, group: &GroupVerdict<'_>) {
    let Some(coded) = refusal(group) else {
        return out.member("refused", NULL);
    };
    out.begin_object("refused");
    out.coded_members(coded);
    let mut found = out.beside();
    say_refusal(&mut found, &tree.delims, tree.bytes, group);
    out.found_member(&found);
    out.say("}");
}

/// Adds which lengths the element at a place of a note may have, where it has a rule.
fn put_lengths(out: &mut Text, note: &Noted<'_, '_>, place: u8) {
    if let Some(rule) = note.rule(place) {
        members!(out; "least": rule.least, "most": rule.most);
    }
}

/// Adds the parts that were judged.
#[derive(Clone, Copy)]
struct Tree<'a> {
    delims: Delims,
    /// The bytes of the interchange.
    bytes: &'a [u8],
}

impl Printer for Tree<'_> {
    ghost prints = { λ printer t found u. Unit {0} };

    fn group(&self, out: &mut Text, group: &GroupVerdict<'_>) {
        out.begin_item();
        members!(out; "group": group.place, "functional": &group.functional);
        members!(out; "group_number": Number(group.number_text), "sets_received": group.received);
        put_refusal(out, self, group);
        out.begin_list("sets");
    }

    fn set(&self, out: &mut Text, at: &JudgedSet<'_, '_>) {
        let set = at.set;
        out.begin_item();
        members!(out; "set": at.place, "type": &set.set, "set_number": set.number.as_bytes());
        members!(out; "accepted": set.is_accepted(), "noted": set.result.is_noted());
        put_codes(out, &self.delims, set);
        out.begin_list("notes");
    }

    fn note(&self, out: &mut Text, _at: &JudgedSet<'_, '_>, note: &Noted<'_, '_>) {
        out.begin_item();
        members!(out; "segment": note.position, "identifier": note.identifier);
        if let SetNote::Element {
            place,
            reference,
            code: _,
            copy,
        } = note.note
        {
            members!(out; "element": *place, "reference": *reference, "value": *copy);
            put_lengths(out, note, *place);
        }
        out.begin_list("codes");
        out.item(note.coded());
        out.say("]}");
    }

    fn leave(&self, out: &mut Text) {
        out.say("]}");
    }

    ghost at_first = { λ printer t. tt };

    ghost behind = { λ printer t u v found more now then_more. tt };
}

/// Adds how many sets were received, noted and rejected.
fn put_counts(out: &mut Text, groups: &[GroupVerdict<'_>]) {
    let counts = counts_of(groups);
    members!(out; "sets_received": counts.received, "sets_noted": counts.noted);
    out.member("sets_rejected", counts.rejected);
}

/// Adds pairs, each once.
fn put_pairs(out: &mut Text, pairs: &[([u8; 2], [u8; 3])]) {
    out.begin_list("taken");
    for (index, pair) in pairs.iter().enumerate() {
        let (before, _) = pairs.split_at(index);
        if !before.contains(pair) {
            let mut text = out.beside();
            say!(text; &pair.0, &pair.1);
            out.item(text.bytes());
        }
    }
    out.say("]");
}

/// Adds the remarks, where they are asked for.
fn put_remarks(out: &mut Text, report: &Report<'_, '_>) {
    if let Some(remarks) = &report.remarks {
        out.member("remarks_made", remarks.count);
        out.begin_list("remarks");
        out.put_text(&remarks.text);
        out.say("]");
    }
}

/// Adds who checked and what is taken, and the groups that were judged.
fn put_judged(out: &mut Text, report: &Report<'_, '_>, delims: &Delims, judged: &Judged<'_, '_>) {
    put_counts(out, judged.groups);
    out.member("checked_as", &judged.taken.me);
    put_pairs(out, judged.taken.pairs);
    out.begin_list("groups");
    let tree = Tree {
        delims: *delims,
        bytes: report.bytes,
    };
    print_groups(&tree, out, judged.groups);
    out.say("]");
    put_remarks(out, report);
}

/// Adds why an interchange is refused as a whole, and what it was found to hold, if there is more to
/// say.
fn put_whole(out: &mut Text, coded: Coded<'_>, cause: &Cause<'_>) {
    out.begin_object("refused");
    out.coded_members(coded);
    match cause {
        Cause::Fault(fault) => out.fault_member(fault),
        Cause::Words(words) => out.found_member(words),
    }
    out.say("}");
}

/// Adds what is found of an interchange.
fn put_found(out: &mut Text, report: &Report<'_, '_>) {
    match (&report.found, report.header) {
        (Found::Unreadable(fault), _) => out.fault_member(fault),
        (Found::Refused(coded, cause), _) => {
            put_counts(out, &[]);
            put_whole(out, *coded, cause);
        }
        (Found::Judged(judged), Some(header)) => put_judged(out, report, &header.delims, judged),
        (Found::Judged(_), None) => {}
        (Found::Unsendable(coded, cause), _) => put_whole(out, *coded, cause),
        (Found::Sendable(sets), _) => out.member("sets_included", *sets),
    }
}

/// Adds why a file can't be read, as an object of its own.
pub(crate) fn put_unread(out: &mut Text, file: &str, why: &[u8]) {
    out.begin_item();
    members!(out; "file": file, "error": why);
    out.say("}\n");
}

/// Adds what is found of an interchange of a file.
pub(crate) fn put_report(out: &mut Text, file: &str, report: &Report<'_, '_>) {
    out.begin_interchange(file, report.place);
    out.member_if("accepted", report.accepted);
    if let Some(header) = report.header {
        out.header_members(header);
    }
    put_found(out, report);
    out.say("}\n");
}
