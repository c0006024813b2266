//! What an interchange answers, as JSON: one object on a line; and which sets are pending.

use crate::answered::{Answered, Line, Pointed, Spoken, first_named, ta1_code};
use crate::coded::code_of;
use crate::pending::Keyed;
use crate::piece::{NULL, Number, icn, members};
use crate::slice::Interchange;
use crate::text::Text;
use x12_acks::Answer;
use x12_envelopes::{AcknowledgmentCode, Delims, Segment, SetView};
use x12_outbound::Fate;
use x12_words::fate_word;

/// Adds the codes of a segment from this element on, five at most.
fn put_codes(out: &mut Text, read: &Segment<'_>, family: &'static str, first: usize) {
    out.begin_list("codes");
    for index in first..first.saturating_add(5) {
        let code = read.element(index);
        if !code.is_empty() {
            out.item(code_of(family, code));
        }
    }
    out.say("]");
}

/// Adds a listed set, up to its notes.
fn put_set(out: &mut Text, read: &Segment<'_>, last: &Segment<'_>, is_sent: Option<bool>) {
    members!(out; "type": read.element(1), "set_number": read.element(2));
    out.member("fares", code_of("AK501", last.element(1)));
    put_codes(out, last, "AK502", 2);
    out.member_if("was_sent", is_sent);
    out.begin_list("notes");
}

/// Adds which segment a note is of (AK3).
fn put_place(out: &mut Text, read: &Segment<'_>) {
    members!(out; "segment": Number(read.element(2)), "identifier": read.element(1));
}

/// Adds a note of a segment.
fn put_segment(out: &mut Text, read: &Segment<'_>, at: Pointed<'_>) {
    put_place(out, read);
    put_codes(out, read, "AK304", 4);
    out.member_if("sent", at);
    out.put(b"}");
}

/// Adds a note of an element, of the segment that was noted before.
fn put_element(out: &mut Text, above: Option<&Segment<'_>>, read: &Segment<'_>, at: Pointed<'_>) {
    if let Some(above) = above {
        put_place(out, above);
    }
    members!(out; "element": Number(read.element(1)), "reference": Number(read.element(2)));
    out.member("value", read.element(4));
    out.begin_list("codes");
    out.item(code_of("AK403", read.element(3)));
    out.put(b"]");
    out.member_if("sent", at);
    out.put(b"}");
}

/// Adds a line of a 997, behind the segment that was noted before it. The list of a set's notes stays
/// open.
fn put_line(out: &mut Text, above: Option<&Segment<'_>>, line: &Line<'_, '_>) {
    out.begin_item();
    match line {
        Line::Set(read, last, is_sent) => put_set(out, read, last, *is_sent),
        Line::Segment(read, at) => put_segment(out, read, *at),
        Line::Element(read, at) => put_element(out, above, read, *at),
    }
}

/// The segment that was noted last, behind a line: none at the head of a set.
fn above<'l, 'a>(
    before: Option<&'l Segment<'a>>,
    line: &'l Line<'a, '_>,
) -> Option<&'l Segment<'a>> {
    match line {
        Line::Set(..) => None,
        Line::Segment(read, _) => Some(read),
        Line::Element(..) => before,
    }
}

/// Adds the sets that a 997 lists.
fn put_lines(out: &mut Text, lines: &[Line<'_, '_>]) {
    let mut end = "";
    let mut noted = None;
    out.begin_list("sets");
    for line in lines {
        if matches!(line, Line::Set(..)) {
            out.say(end);
            end = "]}";
        }
        put_line(out, noted, line);
        noted = above(noted, line);
    }
    out.say(end);
    out.say("]");
}

/// Adds which group a 997 answers (AK1).
fn put_answered(out: &mut Text, about: &Segment<'_>) {
    members!(out; "about": "group", "functional": about.element(1));
    out.member("group_number", Number(about.element(2)));
}

/// Adds how the group of a 997 fares (AK9).
fn put_fares(out: &mut Text, last: &Segment<'_>) {
    members!(out; "fares": code_of("AK901", last.element(1)));
    members!(out; "sets_included": Number(last.element(2)), "sets_received": Number(last.element(3)));
    out.member("sets_accepted", Number(last.element(4)));
    put_codes(out, last, "AK905", 5);
}

/// Adds what a 997 says: of its group, and of the sets that it lists.
fn put_group(out: &mut Text, delims: &Delims, set: &SetView<'_>, lines: &[Line<'_, '_>]) {
    put_answered(out, &first_named(delims, set.segments(delims), b"AK1"));
    put_fares(out, &first_named(delims, set.segments(delims), b"AK9"));
    put_lines(out, lines);
}

/// Adds that the set of an answer is no 997 that can be read.
fn put_unclear(out: &mut Text, set: &SetView<'_>) {
    members!(out; "about": NULL, "type": &set.set, "set_number": set.number.as_bytes());
}

/// Adds a set of a file by its numbers.
fn put_numbers(out: &mut Text, keyed: &Keyed<'_, '_>) {
    let found = &keyed.set;
    out.begin_item();
    members!(out; "number": icn(keyed.key.icn), "functional": &found.group.functional);
    members!(out; "group_number": Number(found.group.number_text), "type": &found.set.set);
    out.member("set_number", found.set.number.as_bytes());
}

/// A note of an interchange as TA105 has it.
fn three_digits(note: u16) -> [u8; 3] {
    let digit = |n: u16| b'0'.saturating_add((n % 10) as u8);
    [digit(note / 100), digit(note / 10), digit(note)]
}

/// Adds a TA1.
fn put_ta1(out: &mut Text, to: u32, code: AcknowledgmentCode, note: u16) {
    members!(out; "about": "interchange", "number": icn(to), "fares": ta1_code(code));
    let digits = three_digits(note);
    out.member("note", code_of("TA1", &digits));
}

/// The word of the fate that a set closes with, if it does.
fn closing(closes: Option<Fate>) -> Option<&'static str> {
    match closes {
        Some(fate) => Some(fate_word(fate)),
        None => None,
    }
}

/// Adds the sets of a file that an answer speaks of: of each the fate that it closes with, or null.
fn put_spoken(out: &mut Text, spoken: &[Spoken<'_, '_>]) {
    out.begin_list("speaks_of");
    for one in spoken {
        put_numbers(out, &one.keyed);
        out.member("closes", closing(one.closes));
        out.put(b"}");
    }
    out.put(b"]");
}

/// Adds an answer, and the sets of a file that it speaks of.
fn put_answer(out: &mut Text, delims: &Delims, one: &Answered<'_, '_, '_>) {
    out.begin_item();
    match (&one.told.answer, one.told.set) {
        (Answer::Interchange { icn, code, note }, _) => put_ta1(out, *icn, *code, *note),
        (Answer::Group { .. }, Some(set)) => put_group(out, delims, set, &one.lines),
        (_, Some(set)) => put_unclear(out, set),
        (_, None) => {}
    }
    if let Some(spoken) = &one.spoken {
        put_spoken(out, spoken);
    }
    out.put(b"}");
}

/// Adds what an interchange answers.
pub(crate) fn put_answers(
    out: &mut Text,
    file: &str,
    at: &Interchange<'_, '_>,
    answers: &[Answered<'_, '_, '_>],
) {
    out.begin_interchange(file, at.place);
    out.header_members(at.header);
    out.begin_list("answers");
    for one in answers {
        put_answer(out, &at.header.delims, one);
    }
    out.say("]}\n");
}

/// Adds the sets of a file that stay pending, as an object of their own.
pub(crate) fn put_pending(out: &mut Text, name: &str, sets: &[Keyed<'_, '_>]) {
    out.begin_item();
    out.member("file", name);
    out.begin_list("pending");
    for keyed in sets {
        put_numbers(out, keyed);
        out.say("}");
    }
    out.say("]}\n");
}
