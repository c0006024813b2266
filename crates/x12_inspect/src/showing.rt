//! Showing a transmission: its segments in order, each with its place, in words or as JSON.

ghost use Rattle.std.specs.Prelude.{IfOk};
ghost use Rattle.x12_inspect.specs.Showing.{EndsAsShown};

use crate::elements::{put_elements, say_elements};
use crate::inspecting::{Inspector, Outcome, inspect_all};
use crate::piece::{Filled, Ink, Number, members, say};
use crate::report::{tell, unreadable};
use crate::slice::{Interchange, Slice};
use crate::style::{Form, Style};
use crate::text::Text;
use std::alloc::{AllocError, Global};
use std::io::Write;
use x12_answering::RunFault;
use x12_envelopes::{Header, Segment, read_header};
use x12_lint::Table;
use x12_segments::{Compared, Placed, Walk, line_ends};

/// Adds what a trailer says beside what was counted, where they differ.
fn say_compared(out: &mut Text, compared: &Compared<'_>) {
    if compared.agrees {
        return;
    }
    say!(out; "   ", Ink::Wrong, "says ", compared.count, ", counted ", compared.counted);
    say!(out; "; says ", compared.number, ", ", compared.header, " says ", compared.said, Ink::Plain);
}

/// Adds the position of a segment in its set, or the room for one.
fn say_position(out: &mut Text, position: Option<usize>) {
    match position {
        Some(position) => say!(out; Filled(b"     ", position as u64)),
        None => say!(out; "     "),
    }
}

/// What stands in front of the bytes of a segment at a depth.
fn indent(depth: usize) -> &'static str {
    match depth {
        0 => "  ",
        1 => "    ",
        2 => "      ",
        _ => "        ",
    }
}

/// Adds a segment on a line: its offset, its position in its set, and its bytes.
fn say_placed(out: &mut Text, offset: usize, placed: &Placed<'_>) {
    say!(out; Filled(b"        ", offset.saturating_add(placed.at) as u64), " ");
    say_position(out, placed.position);
    say!(out; indent(placed.depth), placed.bytes);
    if let Some(compared) = &placed.compared {
        say_compared(out, compared);
    }
    out.say("\n");
}

/// Adds what a trailer says, as JSON.
fn put_compared(out: &mut Text, compared: &Compared<'_>) {
    out.begin_object("trailer");
    members!(out; "says_count": Number(compared.count), "counted": compared.counted);
    members!(out; "says_number": compared.number, "header": compared.header);
    out.member("header_number", compared.said);
    out.member("agrees", compared.agrees);
    out.say("}");
}

/// Adds a segment as JSON.
fn put_placed(
    out: &mut Text,
    offset: usize,
    placed: &Placed<'_>,
    table: Option<&Table>,
    header: &Header,
    read: &Segment<'_>,
) {
    out.begin_item();
    members!(out; "byte": offset.saturating_add(placed.at), "depth": placed.depth);
    out.member_if("segment", placed.position);
    out.member("text", placed.bytes);
    if let Some(compared) = &placed.compared {
        put_compared(out, compared);
    }
    if let Some(table) = table {
        put_elements(out, table, header, read);
    }
    out.say("}");
}

/// How an input is shown.
#[derive(Clone, Copy)]
pub struct ShowTerms<'t> {
    /// In which form.
    pub style: &'t Style<'t>,
    /// The table by which elements are named; `None` where they aren't told.
    pub table: Option<&'t Table>,
}

/// Adds a segment, and its elements where they are named.
fn tell_placed(
    terms: &ShowTerms<'_>,
    out: &mut Text,
    offset: usize,
    header: &Header,
    placed: &Placed<'_>,
) {
    let read = Segment {
        bytes: placed.bytes,
        delims: header.delims,
    };
    match terms.style.form {
        Form::Text => {
            say_placed(out, offset, placed);
            if let Some(table) = terms.table {
                say_elements(out, table, header, &read);
            }
        }
        Form::Json => put_placed(out, offset, placed, terms.table, header, &read),
        Form::Csv => {}
    }
}

/// Adds each segment of an interchange.
fn tell_segments(
    terms: &ShowTerms<'_>,
    out: &mut Text,
    offset: usize,
    header: &Header,
    mut walk: Walk<'_>,
) {
    while let Some(placed) = walk.step() {
        tell_placed(terms, out, offset, header, &placed);
    }
}

/// Adds an interchange whose header can be read.
fn tell_shown(terms: &ShowTerms<'_>, out: &mut Text, offset: usize, at: &Interchange<'_, '_>) {
    let walk = Walk::new(at.header.delims, at.bytes);
    let style = terms.style;
    match style.form {
        Form::Text => {
            out.interchange(at.place, Some(at.header));
            out.say("\n");
            tell_segments(terms, out, offset, at.header, walk);
        }
        Form::Json => {
            out.begin_interchange(style.file, at.place);
            out.header_members(at.header);
            out.begin_list("segments");
            tell_segments(terms, out, offset, at.header, walk);
            out.say("]}\n");
        }
        Form::Csv => {}
    }
}

/// What is asked of an input: what stands in it, and where.
#[derive(Drop)]
struct Contents<'t> {
    terms: &'t ShowTerms<'t>,
    input: &'t [u8],
    /// How much of the input was shown.
    offset: usize,
}

impl Contents<'_> {
    /// The offset of an interchange of this many bytes, which comes next; behind it the one after it.
    fn next(&mut self, count: usize) -> usize {
        let (_, left) = self.input.split_at(self.offset.min(self.input.len()));
        let offset = self.offset.saturating_add(line_ends(left));
        self.offset = offset.saturating_add(count);
        offset
    }
}

impl Inspector for Contents<'_> {
    ghost use Rattle.std.specs.Prelude.{refl};
    ghost use Rattle.std.specs.List.{list_all};
    ghost use Rattle.x12_segments.specs.Laying.{header_can_be_read};

    ghost all_right = { λ c interchanges. list_all header_can_be_read interchanges };

    fn inspect(
        &mut self,
        _alloc: Global,
        out: &mut Text,
        slice: &Slice<'_>,
    ) -> Result<bool, AllocError> {
        let offset = self.next(slice.bytes.len());
        match read_header(slice.bytes) {
            Ok(header) => {
                tell_shown(self.terms, out, offset, &slice.with(&header));
                Ok(true)
            }
            Err(fault) => {
                tell(self.terms.style, out, &unreadable(slice, fault));
                Ok(false)
            }
        }
    }

    ghost of_none = { λ c. refl };

    ghost asked = { λ c interchanges d. Unit {0} };

    ghost at_last = { λ c. tt };
}

/// Shows the segments of a transmission with their places. All is right exactly where each header
/// can be read.
///
/// On an error, `RunFault::Write` or `RunFault::Memory`, the first interchanges may have been
/// written.
pub fn run_show<W: Write>(
    alloc: Global,
    terms: &ShowTerms<'_>,
    input: &[u8],
    out: &mut W,
) -> Result<Outcome, RunFault>
    ensures { IfOk result (λ outcome. EndsAsShown input.now outcome) }
{
    let mut contents = Contents {
        terms,
        input,
        offset: 0,
    };
    inspect_all(alloc, &mut contents, terms.style.look, input, out)
}
