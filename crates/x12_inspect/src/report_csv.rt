//! What is found of an interchange as CSV (RFC 4180): a line for each finding, in order.

use crate::coded::{Coded, code_of, numbered};
use crate::fault::{Cause, Fault};
use crate::piece::{cells, icn, say};
use crate::printing::{JudgedSet, Noted, Printer, print_groups, refusal};
use crate::report::{Found, Report};
use crate::style::Form;
use crate::text::Text;
use crate::trailer::{say_of_set, say_refusal};
use x12_envelopes::Delims;
use x12_judge::{GroupVerdict, SetNote, SetVerdict};

/// The names of the columns, which stand on the first line.
pub const CSV_HEAD: &str =
    "file,interchange,number,sender,receiver,group,functional,group_number,set,type,set_number,segment,identifier,element,reference,value,family,code,words,found\r\n";

/// Adds the cells that each line of an interchange begins with: its file, place, number and parties.
fn put_front(out: &mut Text, file: &str, report: &Report<'_, '_>) {
    out.cell_text(file.as_bytes());
    out.cell(report.place);
    match report.header {
        Some(header) => cells!(out; icn(header.icn), &header.sender, &header.receiver),
        None => say!(out; ",,,"),
    }
}

/// Adds the cells of a group.
fn put_group(out: &mut Text, group: &GroupVerdict<'_>) {
    cells!(out; group.place, &group.functional, group.number_text);
}

/// Adds the cells of a set, behind those of its group.
fn put_set(out: &mut Text, at: &JudgedSet<'_, '_>) {
    put_group(out, at.group);
    cells!(out; at.place, &at.set.set, at.set.number.as_bytes());
}

/// Adds the last cells: the code with its family and words, and that nothing more was found.
fn put_code(out: &mut Text, family: &str, coded: Coded<'_>) {
    cells!(out; family, coded.code, coded.words);
    out.say(",\r\n");
}

/// Adds the codes of a set, as a cell.
fn put_codes(out: &mut Text, set: &SetVerdict<'_>) {
    let mut between = "";
    for code in set.codes.as_slice() {
        say!(out; between, code.number());
        between = " ";
    }
}

/// Adds what the codes of a set say, as a cell.
fn put_words(out: &mut Text, set: &SetVerdict<'_>) {
    let mut between = "";
    let mut words = out.beside();
    for code in set.codes.as_slice() {
        say!(words; between, numbered("AK502", u32::from(code.number())).words);
        between = "; ";
    }
    out.cell(words.bytes());
}

/// Adds the last cell: what was found.
fn put_found(out: &mut Text, found: &Text) {
    out.cell(found.bytes());
    out.say("\r\n");
}

/// Adds the last cells of a set that is rejected: its codes with their family and words, and what
/// those were found in.
fn put_rejected(out: &mut Text, report: &Report<'_, '_>, set: &SetVerdict<'_>) {
    out.say(",AK502,");
    put_codes(out, set);
    put_words(out, set);
    let mut found = out.beside();
    if let Some(header) = report.header {
        say_found(&mut found, &header.delims, set);
    }
    put_found(out, &found);
}

/// Adds what the codes of a set were found in, one behind another.
fn say_found(found: &mut Text, delims: &Delims, set: &SetVerdict<'_>) {
    for code in set.codes.as_slice() {
        let mut one = found.beside();
        say_of_set(&mut one, *code, delims, set.bytes);
        if !one.is_empty() && !found.is_empty() {
            found.say("; ");
        }
        found.put_text(&one);
    }
}

/// Adds where a fault is, as what stands between quotes.
fn put_place(out: &mut Text, fault: &Fault<'_>) {
    say!(out; "at byte ", fault.at, ", in segment ", fault.segment, ": ");
    out.within(Form::Csv, fault.round);
}

/// Adds why an interchange is refused as a whole, or can't be read, behind its first cells, up to the
/// quote of what was found.
fn put_whole(out: &mut Text, family: &[u8], coded: Coded<'_>) {
    out.say(",,,,,,,,,,,");
    cells!(out; family, coded.code, coded.words);
    out.say(",\"");
}

/// Adds why an interchange is refused as a whole, behind its first cells.
fn put_refused(out: &mut Text, family: &[u8], coded: Coded<'_>, cause: &Cause<'_>) {
    put_whole(out, family, coded);
    match cause {
        Cause::Fault(fault) => {
            out.within(Form::Csv, fault.coded.code);
            out.say(" ");
            out.within(Form::Csv, fault.coded.words.as_bytes());
            out.say(", ");
            put_place(out, fault);
        }
        Cause::Words(words) => out.within(Form::Csv, words.bytes()),
    }
    out.say("\"\r\n");
}

/// Adds a line for each finding. A note stands behind the cells of its set.
#[derive(Clone, Copy)]
struct Rows<'t, 'r, 'a> {
    file: &'t str,
    report: &'t Report<'r, 'a>,
}

impl Printer for Rows<'_, '_, '_> {
    ghost prints = { λ printer t found u. Unit {0} };

    fn group(&self, out: &mut Text, group: &GroupVerdict<'_>) {
        if let Some(coded) = refusal(group) {
            put_front(out, self.file, self.report);
            put_group(out, group);
            out.say(",,,,,,,,");
            cells!(out; "AK905", coded.code, coded.words);
            let mut found = out.beside();
            if let Some(header) = self.report.header {
                say_refusal(&mut found, &header.delims, self.report.bytes, group);
            }
            put_found(out, &found);
        }
    }

    fn set(&self, out: &mut Text, at: &JudgedSet<'_, '_>) {
        if at.is_without_errors() {
            return;
        }
        put_front(out, self.file, self.report);
        put_set(out, at);
        out.say(",,,,,");
        if at.set.is_accepted() {
            return put_code(out, "AK501", code_of("AK501", b"E"));
        }
        put_rejected(out, self.report, at.set);
    }

    fn note(&self, out: &mut Text, at: &JudgedSet<'_, '_>, note: &Noted<'_, '_>) {
        put_front(out, self.file, self.report);
        put_set(out, at);
        cells!(out; note.position, note.identifier);
        match note.note {
            SetNote::Segment { .. } => say!(out; ",,,"),
            SetNote::Element {
                place,
                reference,
                code: _,
                copy,
            } => cells!(out; *place, *reference, *copy),
        }
        put_code(out, note.family(), note.coded());
    }

    fn leave(&self, _out: &mut Text) {}

    ghost at_first = { λ printer t. tt };

    ghost behind = { λ printer t u v found more now then_more. tt };
}

/// Adds a line for each finding of groups that were judged.
fn put_groups<'t>(
    out: &mut Text,
    file: &'t str,
    report: &'t Report<'_, '_>,
    groups: &[GroupVerdict<'_>],
) {
    print_groups(&Rows { file, report }, out, groups);
}

/// Adds a line for a file that can't be read: why.
pub(crate) fn put_unread(out: &mut Text, file: &str, why: &[u8]) {
    out.cell_text(file.as_bytes());
    out.say(",,,,,,,,,,,,,,,,,,");
    out.cell(why);
    out.say("\r\n");
}

/// Adds a line for each finding of an interchange of a file.
pub(crate) fn put_rows<'t>(out: &mut Text, file: &'t str, report: &'t Report<'_, '_>) {
    match &report.found {
        Found::Judged(judged) => {
            put_groups(out, file, report, judged.groups);
            if let Some(remarks) = &report.remarks {
                out.put_text(&remarks.text);
            }
        }
        Found::Sendable(_) => {}
        Found::Refused(coded, cause) => {
            put_front(out, file, report);
            put_refused(out, b"TA1", *coded, cause);
        }
        Found::Unsendable(coded, cause) => {
            put_front(out, file, report);
            put_refused(out, b"S", *coded, cause);
        }
        Found::Unreadable(fault) => {
            put_front(out, file, report);
            put_whole(out, fault.coded.code.get(..1).unwrap_or(b""), fault.coded);
            put_place(out, fault);
            out.say("\"\r\n");
        }
    }
}
