//! The reply to an interchange: an interchange acknowledgment (X12.5, TA1) and a functional
//! acknowledgment (997), as an interchange to be written.

ghost use Rattle.std.specs.Prelude.{◌≡◌, ◌++◌, ◌≤◌, OnOk, OnErr, IfOk, IsTrue};
ghost use Rattle.x12_envelopes.specs.Envelope.{written};
ghost use Rattle.x12_acks.specs.Reply.{is_reply_due, takes_group_number, reply_from, refusal_of};
ghost use Rattle.x12_judge.specs.Verdict.{judgement_view};

use crate::interchange_answer::{push_judged, push_refused};
use crate::need::Needs;
use crate::reply_header::ReplyHeader;
use std::alloc::{AllocError, Global};
use x12_envelopes::{Header, Moment, Party};
use x12_judge::{Judgement, Note, Verdict};

/// Says whether an interchange with this header that deserves this is answered, and which control
/// numbers that takes. An interchange of TA1s alone is never answered.
#[tactic(auto, unfolding(crate::specs::Reply::is_reply_due, crate::specs::Reply::takes_group_number))]
pub fn needs(header: &Header, judgement: &Judgement) -> Needs
    ensures reply { result.reply ≡ is_reply_due header.now (judgement_view judgement.now) }
    ensures group { result.group ≡ takes_group_number (judgement_view judgement.now) }
{
    let (acknowledged, answered) = match &judgement.verdict {
        Verdict::Refused(_) => (true, false),
        Verdict::Judged(groups) => (header.ack == b'1', !groups.is_empty()),
    };
    Needs {
        reply: !judgement.silent && (acknowledged || answered),
        group: !judgement.silent && answered,
    }
}

/// Writes the reply to an interchange: a TA1 where the interchange is refused or asks for one, and a 997
/// for each functional group that was judged. `own.gcn` is written only where `needs` says that the reply
/// takes a group control number. An error is want of memory.
pub fn write_reply(
    alloc: Global,
    header: &Header,
    judgement: &Judgement,
    own: &ReplyHeader,
) -> Result<Vec<u8>, AllocError>
    requires due { IsTrue (is_reply_due header.now (judgement_view judgement.now)) }
    requires interchange_number { own.now.icn ≤ 999999999 }
    ensures reply { IfOk result (λ v. v.items ≡
        written (reply_from header.now (judgement_view judgement.now) own.now)) }
{
    let mut reply = Vec::new(alloc);
    push_answer(&mut reply, header, judgement, own)?;
    Ok(reply)
}

/// Appends what `write_reply` writes. On want of memory `out` is what it was.
pub fn push_reply(
    out: &mut Vec<u8>,
    header: &Header,
    judgement: &Judgement,
    own: &ReplyHeader,
) -> Result<(), AllocError>
    requires due { IsTrue (is_reply_due header.now (judgement_view judgement.now)) }
    requires interchange_number { own.now.icn ≤ 999999999 }
    ensures reply { OnOk result (out.new.items ≡ out.old.items
        ++ written (reply_from header.now (judgement_view judgement.now) own.now)) }
    ensures unchanged { OnErr result (out.new.items ≡ out.old.items) }
{
    let reply = write_reply(*out.allocator(), header, judgement, own)?;
    out.extend_from_slice(&reply)
}

/// Appends a reply; on want of memory a part of it may stand behind what stood in `out`.
#[tactic(auto, unfolding(crate::specs::Reply::reply_of, crate::specs::Reply::refusal_of, crate::specs::Reply::answer_groups))]
fn push_answer(
    out: &mut Vec<u8>,
    header: &Header,
    judgement: &Judgement,
    own: &ReplyHeader,
) -> Result<(), AllocError>
    requires interchange_number { own.now.icn ≤ 999999999 }
    ensures reply { OnOk result (out.new.items ≡ out.old.items
        ++ written (reply_from header.now (judgement_view judgement.now) own.now)) }
{
    match &judgement.verdict {
        Verdict::Refused(note) => { push_refused(out, *note, header, &own.me, &own.at, own.icn) }
        Verdict::Judged(groups) => push_judged(out, header, groups, own),
    }
}

/// Writes the refusal of a whole interchange with a note: one TA1. `icn` is its control number, 1 to
/// 999999999. An error is want of memory.
pub fn write_refusal(
    alloc: Global,
    note: Note,
    header: &Header,
    me: &Party,
    at: &Moment,
    icn: u32,
) -> Result<Vec<u8>, AllocError>
    requires interchange_number { icn ≤ 999999999 }
    ensures refusal { IfOk result (λ v.
        v.items ≡ written (refusal_of note.0 header.now me.now at.now icn)) }
{
    let mut refusal = Vec::new(alloc);
    push_refused(&mut refusal, note, header, me, at, icn)?;
    Ok(refusal)
}
