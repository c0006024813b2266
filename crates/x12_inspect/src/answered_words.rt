//! What an interchange answers, in words, and which sets are pending.

use crate::answered::{Answered, Line, Pointed, Spoken, first_named, ta1_code};
use crate::coded::{Fares, code_of, numbered};
use crate::pending::Keyed;
use crate::piece::{Filled, icn, say};
use crate::slice::Interchange;
use crate::text::Text;
use x12_acks::Answer;
use x12_envelopes::{AcknowledgmentCode, Delims, Segment, SetView, number_of};
use x12_sent::{SentFile, SentSet};
use x12_words::fate_word;

/// Adds the codes of a segment from this element on, five at most, each with its words, behind `: `,
/// and ends the line.
fn say_codes(out: &mut Text, read: &Segment<'_>, family: &'static str, first: usize) {
    let mut between = ": ";
    for index in first..first.saturating_add(5) {
        let code = read.element(index);
        if !code.is_empty() {
            say!(out; between, code_of(family, code));
            between = ", ";
        }
    }
    out.say("\n");
}

/// Adds which group a 997 answers (AK1).
fn say_answered(out: &mut Text, about: &Segment<'_>) {
    say!(out; "  997, group ", about.element(1), " ", about.element(2), ": ");
}

/// Adds how the group of a 997 fares, and its counts (AK9).
fn say_fares(out: &mut Text, last: &Segment<'_>) {
    say!(out; Fares(code_of("AK901", last.element(1))), ", ", last.element(4), " of ");
    say!(out; last.element(3), " sets accepted, ", last.element(2), " included");
    say_codes(out, last, "AK905", 5);
}

/// Adds what was sent there, as `, sent "000"`.
fn say_pointed(out: &mut Text, at: Pointed<'_>) {
    match at {
        None => {}
        Some(None) => say!(out; ", not sent"),
        Some(Some(bytes)) => say!(out; ", sent \"", bytes, "\""),
    }
}

/// Adds a listed set, as `    set 850 0001: R rejected`.
fn say_listed(out: &mut Text, read: &Segment<'_>, last: &Segment<'_>, is_sent: Option<bool>) {
    say!(out; "    set ", read.element(1), " ", read.element(2));
    say!(out; if is_sent == Some(false) { ", not sent: " } else { ": " });
    say!(out; Fares(code_of("AK501", last.element(1))));
    say_codes(out, last, "AK502", 2);
}

/// Adds a note of a segment.
fn say_segment(out: &mut Text, read: &Segment<'_>, at: Pointed<'_>) {
    say!(out; "      segment ", read.element(2), " ", read.element(1));
    say_pointed(out, at);
    say_codes(out, read, "AK304", 4);
}

/// Adds a note of an element.
fn say_element(out: &mut Text, read: &Segment<'_>, at: Pointed<'_>) {
    say!(out; "        element ", read.element(1));
    match number_of(read.element(2)) {
        Some(reference) => out.element(reference),
        None => say!(out; " (", read.element(2), ")"),
    }
    out.say_copy(read.element(4));
    say_pointed(out, at);
    say!(out; ": ", code_of("AK403", read.element(3)), "\n");
}

/// Adds a line of a 997.
fn say_line(out: &mut Text, line: &Line<'_, '_>) {
    match line {
        Line::Set(read, last, is_sent) => say_listed(out, read, last, *is_sent),
        Line::Segment(read, at) => say_segment(out, read, *at),
        Line::Element(read, at) => say_element(out, read, *at),
    }
}

/// Adds a set by its numbers, as `850 0001`, or with its group, as `group PO 1, set 850 0001`.
fn say_set(out: &mut Text, with_group: bool, found: &SentSet<'_, '_>) {
    if with_group {
        say!(out; "group ", &found.group.functional, " ", found.group.number_text, ", set ");
    }
    say!(out; &found.set.set, " ", found.set.number.as_bytes());
}

/// Adds a set of a file that an answer speaks of; beside one to an interchange with its group.
fn say_spoken(out: &mut Text, with_group: bool, spoken: &Spoken<'_, '_>) {
    if let Some(fate) = spoken.closes {
        say!(out; "    closes ");
        say_set(out, with_group, &spoken.keyed.set);
        return say!(out; " as ", fate_word(fate), "\n");
    }
    say!(out; "    closed before: ");
    say_set(out, with_group, &spoken.keyed.set);
    say!(out; "\n");
}

/// Whether an answer may speak of no set: it rejects nothing.
fn may_be_silent(answer: &Answer) -> bool {
    match answer {
        Answer::Unclear => true,
        Answer::Interchange { code, .. } => *code != AcknowledgmentCode::Rejected,
        Answer::Group { .. } => false,
    }
}

/// Adds a TA1.
fn say_ta1(out: &mut Text, to: u32, code: AcknowledgmentCode, note: u16) {
    say!(out; "  TA1, interchange ", icn(to), ": ", Fares(ta1_code(code)));
    say!(out; "; TA1/", Filled(b"000", u64::from(note)));
    say!(out; " ", numbered("TA1", u32::from(note)).words, "\n");
}

/// Adds what a 997 says: of its group, and of the sets that it lists.
fn say_group(out: &mut Text, delims: &Delims, set: &SetView<'_>, lines: &[Line<'_, '_>]) {
    say_answered(out, &first_named(delims, set.segments(delims), b"AK1"));
    say_fares(out, &first_named(delims, set.segments(delims), b"AK9"));
    for line in lines {
        say_line(out, line);
    }
}

/// Adds that the set of an answer is no 997 that can be read.
fn say_unclear(out: &mut Text, set: &SetView<'_>) {
    say!(out; "  set ", &set.set, " ", set.number.as_bytes(), ": not a 997 that can be read\n");
}

/// Adds the sets in a file of this name that an answer speaks of.
fn say_meaning(out: &mut Text, answer: &Answer, spoken: &[Spoken<'_, '_>], name: &str) {
    if spoken.is_empty() && !may_be_silent(answer) {
        say!(out; "    speaks of no set in ", name.as_bytes(), "\n");
    }
    for set in spoken {
        say_spoken(out, matches!(answer, Answer::Interchange { .. }), set);
    }
}

/// Adds an answer, and what it means to the sender of a file of this name.
fn say_answer(out: &mut Text, delims: &Delims, one: &Answered<'_, '_, '_>, name: &str) {
    match (&one.told.answer, one.told.set) {
        (Answer::Interchange { icn, code, note }, _) => say_ta1(out, *icn, *code, *note),
        (Answer::Group { .. }, Some(set)) => say_group(out, delims, set, &one.lines),
        (_, Some(set)) => say_unclear(out, set),
        (_, None) => {}
    }
    if let Some(spoken) = &one.spoken {
        say_meaning(out, &one.told.answer, spoken, name);
    }
}

/// Adds answers, in order, and what they mean to the sender of a file of this name.
fn say_each(out: &mut Text, delims: &Delims, answers: &[Answered<'_, '_, '_>], name: &str) {
    for one in answers {
        say_answer(out, delims, one, name);
    }
}

/// Adds answers beside a file that was sent.
fn say_beside(
    out: &mut Text,
    at: &Interchange<'_, '_>,
    answers: &[Answered<'_, '_, '_>],
    sent: &SentFile<'_>,
) {
    if !sent.is_sender(&at.header.receiver) {
        say!(out; "  not to ", sent.sender(), ", the sender of ", sent.name().as_bytes(), "\n");
    }
    say_each(out, &at.header.delims, answers, sent.name());
}

/// Adds what an interchange answers, beside a file that was sent, where it is given.
pub(crate) fn say_answers(
    out: &mut Text,
    at: &Interchange<'_, '_>,
    answers: &[Answered<'_, '_, '_>],
    sent: &Option<SentFile<'_>>,
) {
    out.interchange(at.place, Some(at.header));
    out.say("\n");
    if answers.is_empty() {
        return say!(out; "  no acknowledgment\n");
    }
    match sent {
        Some(sent) => say_beside(out, at, answers, sent),
        None => say_each(out, &at.header.delims, answers, ""),
    }
}

/// Adds the sets of a file that stay pending.
pub(crate) fn say_pending(out: &mut Text, name: &str, sets: &[Keyed<'_, '_>]) {
    say!(out; "pending in ", name.as_bytes(), if sets.is_empty() { ": none\n" } else { ":\n" });
    for keyed in sets {
        say!(out; "  interchange ", icn(keyed.key.icn), ", ");
        say_set(out, true, &keyed.set);
        out.say("\n");
    }
}
