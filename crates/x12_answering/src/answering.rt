//! Answering a transmission: the reply to each of its interchanges in order, under control numbers
//! that are used in turn.

ghost use Rattle.std.specs.Prelude.{◌≡◌, ◌≤◌, ◌<◌, ◌+◌, ◌++◌, [], Ok, OnOk, IfOk, IfSome};
ghost use Rattle.std.specs.Prelude.{IfErr, OnErr, Err, is_some, unwrap_or, length, true, false};
ghost use Rattle.std.specs.Io.KnownBytes.{Appends, Keeps};
ghost use Rattle.x12_envelopes.specs.Header.{header_of};
ghost use Rattle.x12_envelopes.specs.Writing.{texts};
ghost use Rattle.x12_judge.specs.Controls.{newest_terms};
ghost use Rattle.x12_judge.specs.Verdict.{judgement_of, judgement_view};
ghost use Rattle.x12_answering.specs.Answering.{agreements_on, line_of, IsAnswered, IsAnsweredInPart, terms_in};
ghost use Rattle.x12_answering.specs.Answering.{first_numbers, replies_in, lines_in, is_incomplete};
ghost use Rattle.x12_answering.specs.Answering.{status_by};
ghost use Rattle.x12_answering.specs.Fault.{is_reading_fault};
ghost use Rattle.x12_answering.specs.Session.{NothingWaits, session_terms, session_reply, session_answer, session_answers};
ghost use Rattle.x12_answering.specs.Number.{AreNext};
ghost use Rattle.x12_answering.specs.Output.{AppendsFront};

use crate::fault::{RunFault, RunStatus};
use crate::input::read_input;
use crate::number::NextNumbers;
use crate::options::Options;
use crate::output::{write_last, write_piece};
use itoa::Buffer;
use std::alloc::{AllocError, Global};
use std::io::{Read, Write};
use std::slice;
use x12_acks::{ReplyHeader, needs, push_reply};
use x12_envelopes::{Header, Moment, Party, read_header, split_transmission};
use x12_judge::{Agreement, Judgement, judge};

/// Appends the line on an interchange without a reply: its place in the transmission, and why.
#[tactic(auto, unfolding(crate::specs::Answering::line_of))]
fn push_line(out: &mut Vec<u8>, place: usize, why: &str) -> Result<(), AllocError>
    ensures { OnOk result (out.new.items ≡ out.old.items ++ line_of place why.now) }
{
    let mut buffer = Buffer::new();
    out.extend_from_slice(b"interchange ")?;
    out.extend_from_slice(buffer.format(place).as_bytes())?;
    out.extend_from_slice(b": ")?;
    out.extend_from_slice(why.as_bytes())?;
    out.extend_from_slice(b"\n")
}

/// What answering a transmission has at hand: the terms, the numbers to be used next, and what is
/// gathered before it is written.
#[derive(Drop)]
struct Session {
    me: Party,
    at: Moment,
    agreement: Agreement,
    numbers: NextNumbers,
    replies: Vec<u8>,
    lines: Vec<u8>,
}

impl Session {
    /// A session for these options, with nothing gathered.
    fn new(alloc: Global, options: &Options) -> Result<Session, AllocError>
        ensures terms { IfOk result (λ session. session_terms session ≡ terms_in options.now) }
        ensures numbers { IfOk result (λ session. session.numbers ≡ first_numbers options.now) }
        ensures next { IfOk result (λ session. AreNext session.numbers) }
        ensures waits { IfOk result NothingWaits }
    {
        Ok(Session {
            me: options.me,
            at: options.at,
            agreement: Agreement {
                partner: options.me,
                lenient: options.lenient,
                pairs: Vec::from_slice(alloc, options.pairs.as_slice())?,
            },
            numbers: NextNumbers {
                icn: options.icn,
                gcn: options.gcn,
            },
            replies: Vec::new(alloc),
            lines: Vec::new(alloc),
        })
    }

    /// Judges an interchange. What was agreed holds for its sender as for any other.
    fn judge<'a>(
        &mut self,
        alloc: Global,
        bytes: &'a [u8],
        header: &Header,
    ) -> Result<Judgement<'a>, AllocError>
        requires read { header_of bytes.now ≡ Ok header.now }
        ensures judged { let agreed = self.old.agreement in IfOk result (λ j.
            judgement_view j ≡ judgement_of self.old.me
            (newest_terms (agreements_on agreed.lenient agreed.pairs.items header.now.sender))
            header.now bytes.now) }
        ensures terms { session_terms self.new ≡ session_terms self.old }
        ensures numbers { self.new.numbers ≡ self.old.numbers }
        ensures replies { self.new.replies ≡ self.old.replies }
        ensures lines { self.new.lines ≡ self.old.lines }
    {
        self.agreement.partner = header.sender;
        judge(
            alloc,
            &self.me,
            slice::from_ref(&self.agreement),
            bytes,
            header,
        )
    }

    /// Replies to an interchange with this header that deserves this, where it is answered, and says
    /// whether that left a line.
    #[tactic(auto, unfolding(crate::specs::Answering::judged_answer, x12_acks::specs::Reply::due_reply))]
    fn reply(
        &mut self,
        place: usize,
        header: &Header,
        judgement: &Judgement,
    ) -> Result<bool, AllocError>
        requires numbers { AreNext self.old.numbers }
        ensures reply { let j = judgement_view judgement.now in
            OnOk result (self.new.replies.items ≡ self.old.replies.items
            ++ (session_reply self.old place header.now j).reply) }
        ensures line { let j = judgement_view judgement.now in
            OnOk result (self.new.lines.items ≡ self.old.lines.items
            ++ unwrap_or (session_reply self.old place header.now j).line []) }
        ensures left { let j = judgement_view judgement.now in IfOk result (λ is_left.
            is_left ≡ is_some (session_reply self.old place header.now j).line) }
        ensures next { let j = judgement_view judgement.now in
            OnOk result (self.new.numbers ≡ (session_reply self.old place header.now j).next) }
        ensures terms { session_terms self.new ≡ session_terms self.old }
        ensures numbers { AreNext self.new.numbers }
    {
        let due = needs(header, judgement);
        if !due.reply {
            return Ok(false);
        }
        if self.numbers.are_exhausted(due.group) {
            push_line(&mut self.lines, place, "N1")?;
            return Ok(true);
        }
        let NextNumbers { icn, gcn } = self.numbers;
        let own = ReplyHeader {
            me: self.me,
            at: self.at,
            icn,
            gcn,
        };
        push_reply(&mut self.replies, header, judgement, &own)?;
        self.numbers.use_up(due.group);
        Ok(false)
    }

    /// Answers one interchange, and says whether that left a line.
    #[tactic(auto, unfolding(crate::specs::Answering::answer_at))]
    fn answer(&mut self, alloc: Global, place: usize, bytes: &[u8]) -> Result<bool, AllocError>
        requires numbers { AreNext self.old.numbers }
        ensures reply { OnOk result (self.new.replies.items ≡ self.old.replies.items
            ++ (session_answer self.old place bytes.now).reply) }
        ensures line { OnOk result (self.new.lines.items ≡ self.old.lines.items
            ++ unwrap_or (session_answer self.old place bytes.now).line []) }
        ensures left { IfOk result (λ is_left. is_left ≡
            is_some (session_answer self.old place bytes.now).line) }
        ensures next { OnOk result (self.new.numbers ≡
            (session_answer self.old place bytes.now).next) }
        ensures terms { session_terms self.new ≡ session_terms self.old }
        ensures numbers { AreNext self.new.numbers }
    {
        match read_header(bytes) {
            Ok(header) => {
                let judgement = self.judge(alloc, bytes, &header)?;
                self.reply(place, &header, &judgement)
            }
            Err(fault) => {
                push_line(&mut self.lines, place, fault.number())?;
                Ok(true)
            }
        }
    }

    /// Answers a transmission's interchanges in turn, and writes replies and lines as they come.
    #[tactic(auto, unfolding(crate::specs::Answering::answers_from))]
    fn answer_all<W: Write, E: Write>(
        &mut self,
        alloc: Global,
        interchanges: &[&[u8]],
        out: &mut W,
        err: &mut E,
    ) -> Result<RunStatus, RunFault>
        requires numbers { AreNext self.old.numbers }
        requires waits { NothingWaits self.old }
        ensures replies { OnOk result (Appends (W.contents out.old) (W.contents out.new)
            (replies_in (session_answers self.old (texts interchanges.now)))) }
        ensures lines { OnOk result (Appends (E.contents err.old) (E.contents err.new)
            (lines_in (session_answers self.old (texts interchanges.now)))) }
        ensures status { IfOk result (λ status. status ≡
            status_by (is_incomplete (session_answers self.old (texts interchanges.now)))) }
        ensures fault { IfErr result (λ fault. is_reading_fault fault ≡ false) }
        ensures some_replies { OnErr result (AppendsFront (W.contents out.old) (W.contents out.new)
            (replies_in (session_answers self.old (texts interchanges.now)))) }
        ensures some_lines { OnErr result (AppendsFront (E.contents err.old) (E.contents err.new)
            (lines_in (session_answers self.old (texts interchanges.now)))) }
    {
        let mut status = RunStatus::Answered;
        for (index, bytes) in interchanges.iter().enumerate() {
            if self.answer(alloc, index + 1, bytes)? {
                status = RunStatus::Incomplete;
            }
            write_piece(&mut self.replies, out)?;
            write_piece(&mut self.lines, err)?;
        }
        write_last(&mut self.replies, out)?;
        write_last(&mut self.lines, err)?;
        Ok(status)
    }
}

/// The most bytes that an input may have.
const MOST_BYTES: u64 = 16_777_216;

/// Answers the interchanges of an input that was read.
fn answer_input<W: Write, E: Write>(
    alloc: Global,
    options: &Options,
    input: &[u8],
    out: &mut W,
    err: &mut E,
) -> Result<RunStatus, RunFault>
    ensures answered { IfOk result (λ status. IsAnswered options.now input.now
        (W.contents out.old) (W.contents out.new) (E.contents err.old) (E.contents err.new) status) }
    ensures fault { IfErr result (λ fault. is_reading_fault fault ≡ false) }
    ensures stopped { OnErr result (IsAnsweredInPart options.now input.now
        (W.contents out.old) (W.contents out.new) (E.contents err.old) (E.contents err.new)) }
{
    let interchanges = split_transmission(alloc, input)?;
    let mut session = Session::new(alloc, options)?;
    session.answer_all(alloc, interchanges.as_slice(), out, err)
}

/// Answers a transmission: writes to `out` the reply to each of its interchanges in order, and to
/// `err` a line on each that goes without one because it is unreadable or no number is left for its
/// reply, as `interchange 1: H2` or `interchange 2: N1`.
///
/// On `RunFault::Read` and `RunFault::TooLong` nothing was written. On `RunFault::Write` and
/// `RunFault::Memory` a front of the replies may have been written, and a front of the lines, each
/// of which may end within one; nothing else is written.
pub fn run_answer<R: Read, W: Write, E: Write>(
    alloc: Global,
    options: &Options,
    reader: &mut R,
    out: &mut W,
    err: &mut E,
) -> Result<RunStatus, RunFault>
    ensures answered { IfOk result (λ status. IfSome (R.remaining reader.old) (λ input.
        IsAnswered options.now input (W.contents out.old) (W.contents out.new)
        (E.contents err.old) (E.contents err.new) status)) }
    ensures fits { OnOk result
        (IfSome (R.remaining reader.old) (λ input. length input ≤ 16777216)) }

    // What an error says, and leaves.
    ensures too_long { result ≡ Err RunFault.TooLong →
        IfSome (R.remaining reader.old) (λ input. 16777216 < length input) }
    ensures no_replies { IfErr result (λ fault. is_reading_fault fault ≡ true →
        Keeps (W.contents out.old) (W.contents out.new)) }
    ensures no_lines { IfErr result (λ fault. is_reading_fault fault ≡ true →
        Keeps (E.contents err.old) (E.contents err.new)) }
    ensures stopped { IfErr result (λ fault. is_reading_fault fault ≡ false →
        IfSome (R.remaining reader.old) (λ input. IsAnsweredInPart options.now input
        (W.contents out.old) (W.contents out.new) (E.contents err.old) (E.contents err.new))) }
{
    let input = read_input(alloc, reader, MOST_BYTES)?;
    answer_input(alloc, options, input.as_slice(), out, err)
}
