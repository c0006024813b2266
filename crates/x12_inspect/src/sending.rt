//! What may be submitted of a transmission, and why a station would refuse the rest.

ghost use Rattle.std.specs.Prelude.{IfOk};
ghost use Rattle.x12_sent.specs.Sent.{IsSent};
ghost use Rattle.x12_inspect.specs.Sending.{EndsAsCheckedBySender};

use crate::coded::code_of;
use crate::fault::{Cause, header_fault};
use crate::inspecting::{Inspector, Outcome, inspect_all};
use crate::piece::say;
use crate::refusing::cause_of;
use crate::report::{Found, checked, headless, tell};
use crate::slice::{Interchange, Slice};
use crate::style::{Form, Style};
use crate::text::Text;
use std::alloc::{AllocError, Global};
use std::io::Write;
use x12_answering::{RunFault, write_last};
use x12_envelopes::{HeaderFault, Outline, Party, read_header};
use x12_numbers::Book;
use x12_outbound::SubmitFault;
use x12_sent::{Refusals, Sender, SentFile};

/// Tells why a sender may not submit an interchange with this header.
fn tell_refused<'r, 'a: 'r>(
    alloc: Global,
    style: &Style<'_>,
    out: &mut Text,
    sender: &Sender,
    at: &Interchange<'r, 'a>,
    fault: SubmitFault,
) -> Result<(), AllocError> {
    let coded = code_of("S", fault.number().as_bytes());
    let cause = cause_of(alloc, sender, at, fault)?;
    tell(
        style,
        out,
        &checked(at, false, Found::Unsendable(coded, cause)),
    );
    Ok(())
}

/// Tells why bytes without a header that can be read may not be submitted.
fn tell_headless(style: &Style<'_>, out: &mut Text, slice: &Slice<'_>, unread: HeaderFault) {
    let coded = code_of("S", SubmitFault::BadHeader(unread).number().as_bytes());
    let cause = Cause::Fault(header_fault(slice.bytes, unread));
    let found = Found::Unsendable(coded, cause);
    tell(style, out, &headless(slice, found));
}

/// Tells why a sender may not submit an interchange. An error where memory is missing.
fn refuse(
    alloc: Global,
    style: &Style<'_>,
    out: &mut Text,
    sender: &Sender,
    slice: &Slice<'_>,
    fault: SubmitFault,
) -> Result<(), AllocError> {
    match read_header(slice.bytes) {
        Ok(header) => tell_refused(alloc, style, out, sender, &slice.with(&header), fault),
        Err(unread) => {
            tell_headless(style, out, slice, unread);
            Ok(())
        }
    }
}

/// How many sets an interchange has.
fn count_sets(read: &Outline<'_>) -> usize {
    let mut sets = 0usize;
    for group in &read.groups {
        sets = sets.saturating_add(group.sets.len());
    }
    sets
}

/// A sender whose interchanges are checked.
#[derive(Drop)]
struct Checked<'t> {
    sender: Sender,
    style: &'t Style<'t>,
}

impl Inspector for Checked<'_> {
    ghost use Rattle.std.specs.Prelude.{refl};
    ghost use Rattle.x12_sent.specs.Sender.{all_submitted};

    ghost all_right = { λ s interchanges. all_submitted s.sender.me s.sender.book interchanges };

    fn inspect(
        &mut self,
        alloc: Global,
        out: &mut Text,
        slice: &Slice<'_>,
    ) -> Result<bool, AllocError> {
        match self.sender.submit(alloc, slice.bytes) {
            Ok(read) => {
                let found = Found::Sendable(count_sets(&read.outline));
                tell(
                    self.style,
                    out,
                    &checked(&slice.with(&read.header), true, found),
                );
                Ok(true)
            }
            Err(fault) => {
                if let SubmitFault::Memory = fault {
                    return Err(AllocError);
                }
                refuse(alloc, self.style, out, &self.sender, slice, fault)?;
                Ok(false)
            }
        }
    }

    ghost of_none = { λ s. refl };

    ghost asked = { λ s interchanges t. Unit {0} };

    ghost at_last = { λ s. tt };
}

/// Checks a transmission as its sender, a station that used no number yet: writes to `out` of each
/// interchange, in order, whether the station may submit it, and else why not. What may be submitted
/// uses its numbers up; all is right exactly where each interchange may be submitted in turn.
///
/// On `RunFault::Write` and `RunFault::Memory`, the only errors, what was said of the first
/// interchanges may have been written.
pub fn run_check_as_sender<W: Write>(
    alloc: Global,
    me: &Party,
    style: &Style<'_>,
    input: &[u8],
    out: &mut W,
) -> Result<Outcome, RunFault>
    ensures { IfOk result (λ outcome. EndsAsCheckedBySender me.now input.now outcome) }
{
    let mut sender = Checked {
        sender: Sender {
            me: *me,
            book: Book::new(),
        },
        style,
    };
    inspect_all(alloc, &mut sender, style.look, input, out)
}

/// What is told of a file that was sent: what may not be submitted of it.
#[derive(Drop)]
struct Refused<'t> {
    style: &'t Style<'t>,
    told: Text,
}

impl Refusals for Refused<'_> {
    fn tell(
        &mut self,
        alloc: Global,
        sender: &Sender,
        place: usize,
        bytes: &[u8],
        fault: SubmitFault,
    ) -> Result<(), AllocError> {
        refuse(
            alloc,
            self.style,
            &mut self.told,
            sender,
            &Slice { place, bytes },
            fault,
        )
    }
}

/// Reads what a sender submitted: the sender of the first interchange, with this hub, if it has one.
/// What a station would refuse to submit isn't part of it, and is told to `out` below the file's name;
/// the answer is whether there is none such.
///
/// An error is `RunFault::Write` or `RunFault::Memory`.
pub fn read_sent<'a, W: Write>(
    alloc: Global,
    style: &Style<'a>,
    hub: Option<Party>,
    input: &'a [u8],
    out: &mut W,
) -> Result<(SentFile<'a>, bool), RunFault>
    ensures { IfOk result (λ r. IsSent input.now r.1) }
{
    let told = Text::new(alloc, style.look);
    let mut refused = Refused { style, told };
    let read = SentFile::read(alloc, style.file, hub, input, &mut refused)?;
    let mut text = Text::new(alloc, style.look);
    if style.form == Form::Text && !refused.told.is_empty() {
        say!(text; style.file.as_bytes(), ":\n");
    }
    text.put_text(&refused.told);
    write_last(text.whole()?, out)?;
    Ok(read)
}
