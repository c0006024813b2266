//! Explaining acknowledgments: who answers whom, and which interchange, group and sets they speak of
//! (TA1, 997), beside the file that was sent, where it is given.

ghost use Rattle.std.specs.Prelude.{IfOk};
ghost use Rattle.x12_inspect.specs.Explaining.{EndsAsExplained, LeavesSent};

use crate::answered::answer_beside;
use crate::answered_json::{put_answers, put_pending};
use crate::answered_words::{say_answers, say_pending};
use crate::fault::outline_fault;
use crate::inspecting::{Inspector, Outcome, inspect_all};
use crate::pending::{Keyed, pending_sets};
use crate::report::{Found, Report, tell, unreadable};
use crate::slice::{Interchange, Slice};
use crate::style::{Form, Style};
use crate::text::Text;
use crate::told::{Told, read_told};
use std::alloc::{AllocError, Global};
use std::io::Write;
use x12_answering::{RunFault, write_last};
use x12_envelopes::{OutlineFault, outline, read_header};
use x12_sent::SentFile;

/// Tells what an interchange answers, in order.
fn tell_answers(
    alloc: Global,
    style: &Style<'_>,
    out: &mut Text,
    at: &Interchange<'_, '_>,
    told: &[Told<'_, '_>],
    sent: &Option<SentFile<'_>>,
) -> Result<(), AllocError> {
    let mut answers = Vec::new(alloc);
    for one in told {
        answers.push(answer_beside(alloc, &at.header.delims, one, sent)?)?;
    }
    match style.form {
        Form::Text => say_answers(out, at, &answers, sent),
        Form::Json => put_answers(out, style.file, at, &answers),
        Form::Csv => {}
    }
    Ok(())
}

/// What is found of an interchange of which the outline can't be read.
fn unread<'r, 'a>(at: &Interchange<'r, 'a>, fault: OutlineFault) -> Report<'r, 'a> {
    Report {
        place: at.place,
        header: Some(at.header),
        bytes: at.bytes,
        accepted: None,
        found: Found::Unreadable(outline_fault(at, fault)),
        remarks: None,
    }
}

/// What is asked of acknowledgments: what they say, beside a file that was sent, where it is given.
#[derive(Drop)]
struct Reader<'t, 'f> {
    style: &'t Style<'t>,
    sent: Option<SentFile<'f>>,
}

impl Inspector for Reader<'_, '_> {
    ghost use Rattle.std.specs.Prelude.{refl, flat_map};
    ghost use Rattle.std.specs.List.{list_all};
    ghost use Rattle.x12_inspect.specs.Explaining.{can_be_read, answers_to_party, MayBeLeftBy, none_told};

    ghost all_right = { λ r interchanges. list_all can_be_read interchanges };

    ghost asked = { λ r interchanges s.
        MayBeLeftBy (λ me. flat_map (answers_to_party me) interchanges) r.sent s.sent };

    #[tactic(auto, unfolding(crate::specs::Explaining::can_be_read))]
    fn inspect(
        &mut self,
        alloc: Global,
        out: &mut Text,
        slice: &Slice<'_>,
    ) -> Result<bool, AllocError> {
        let header = match read_header(slice.bytes) {
            Ok(header) => header,
            Err(fault) => {
                tell(self.style, out, &unreadable(slice, fault));
                return Ok(false);
            }
        };
        let at = slice.with(&header);
        match outline(alloc, slice.bytes, &header) {
            Ok(read) => {
                let told = read_told(alloc, &header, &read, &mut self.sent)?;
                tell_answers(alloc, self.style, out, &at, &told, &self.sent)?;
                Ok(true)
            }
            Err(fault) => {
                if let OutlineFault::Memory = fault {
                    return Err(AllocError);
                }
                tell(self.style, out, &unread(&at, fault));
                Ok(false)
            }
        }
    }

    ghost of_none = { λ r. refl };

    ghost at_last = { λ r. none_told r.sent };
}

/// What was explained.
#[derive(Drop)]
pub struct Explained<'f> {
    /// All is right exactly where each interchange can be read.
    pub outcome: Outcome,
    /// The file that was sent, as the answers left it; `None` where none was given.
    pub sent: Option<SentFile<'f>>,
}

/// Explains the acknowledgments of a transmission: writes to `out` of each interchange, in order, what
/// each of its answers says; and where a file that was sent is given, what the answer means to its
/// sender. All is right exactly where each interchange can be read. Each answer to the file's sender
/// closes what it is about, and no other does.
///
/// On an error, `RunFault::Write` or `RunFault::Memory`, what was said of the first interchanges may
/// have been written.
pub fn run_explain<'f, W: Write>(
    alloc: Global,
    style: &Style<'_>,
    input: &[u8],
    sent: Option<SentFile<'f>>,
    out: &mut W,
) -> Result<Explained<'f>, RunFault>
    ensures ends { IfOk result (λ e. EndsAsExplained input.now e.outcome) }
    ensures left { IfOk result (λ e. LeavesSent input.now sent.entry e.sent) }
{
    let mut reader = Reader { style, sent };
    let outcome = inspect_all(alloc, &mut reader, style.look, input, out)?;
    let Reader { style: _, sent } = reader;
    Ok(Explained { outcome, sent })
}

/// Writes that these sets of a file of this name stay pending.
fn write_pending<W: Write>(
    alloc: Global,
    style: &Style<'_>,
    name: &str,
    sets: &[Keyed<'_, '_>],
    out: &mut W,
) -> Result<(), RunFault> {
    let mut text = Text::new(alloc, style.look);
    match style.form {
        Form::Text => say_pending(&mut text, name, sets),
        Form::Json => put_pending(&mut text, name, sets),
        Form::Csv => {}
    }
    write_last(text.whole()?, out)
}

/// Writes which sets of a file that was sent stay pending, once its acknowledgments were explained.
///
/// An error is `RunFault::Write` or `RunFault::Memory`.
pub fn run_pending<W: Write>(
    alloc: Global,
    style: &Style<'_>,
    sent: &SentFile<'_>,
    out: &mut W,
) -> Result<(), RunFault> {
    let sets = pending_sets(alloc, sent)?;
    write_pending(alloc, style, sent.name(), &sets, out)
}
