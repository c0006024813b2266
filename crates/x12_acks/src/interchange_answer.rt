//! The interchange of a reply: ISA, TA1, the functional group of acknowledgments, IEA.
#![tactic(auto)]

ghost use Rattle.std.specs.Prelude.{◌≡◌, ◌++◌, ◌∷◌, ◌≤◌, ◌+◌, [], codes, decimal, length, flat_map};
ghost use Rattle.std.specs.Prelude.{map, OnOk, IfOk};
ghost use Rattle.x12_envelopes.specs.Byte.{zero_padded_number};
ghost use Rattle.x12_envelopes.specs.Segment.{segment_text, text_of};
ghost use Rattle.x12_envelopes.specs.Envelope.{isa_segment};
ghost use Rattle.x12_envelopes.specs.Envelope.{set_segments, group_segments, written};
ghost use Rattle.x12_judge.specs.Verdict.{group_verdict_view};
ghost use Rattle.x12_acks.specs.Reply.{accepted_tas, numbered_answers, ta1_segment, reply_usage};
ghost use Rattle.x12_acks.specs.Reply.{reply_to, refusal_of, answer_header, answer_groups};

use crate::group_answer::push_group_answer;
use crate::reply_header::ReplyHeader;
use std::alloc::AllocError;
use x12_envelopes::{
    Delims, Header, Moment, Party, STANDARD, VERSION, push_element, push_header, push_identifier,
    push_number, push_padded, push_terminator,
};
use x12_judge::{GroupVerdict, Note};

/// Appends the reply to a refused interchange: one TA1 with the note.
#[tactic(auto, unfolding(x12_envelopes::specs::Envelope::written, crate::specs::Reply::reply_to, crate::specs::Reply::refusal_of))]
pub(crate) fn push_refused(
    out: &mut Vec<u8>,
    note: Note,
    header: &Header,
    me: &Party,
    at: &Moment,
    icn: u32,
) -> Result<(), AllocError>
    requires interchange_number { icn ≤ 999999999 }
    ensures written { OnOk result (out.new.items ≡
        out.old.items ++ written (refusal_of note.0 header.now me.now at.now icn)) }
{
    push_isa(out, header, me, at, icn)?;
    push_ta1(out, header, b"R", note.0)?;
    push_iea(out, &header.delims, 0, icn)
}

/// The usage indicator of a reply: P, T or I as it came, and P for any other.
fn usage_of(usage: u8) -> u8
    ensures { result ≡ reply_usage usage }
{
    match usage {
        b'P' | b'T' | b'I' => usage,
        _ => b'P',
    }
}

/// Appends ISA of a reply to an interchange with this header.
#[tactic(auto, unfolding(crate::specs::Reply::reply_to))]
fn push_isa(
    out: &mut Vec<u8>,
    header: &Header,
    me: &Party,
    at: &Moment,
    icn: u32,
) -> Result<(), AllocError>
    requires interchange_number { icn ≤ 999999999 }
    ensures written { OnOk result (
        let reply = reply_to header.now me.now at.now icn [] [] in
        out.new.items ≡ out.old.items ++ segment_text reply.delims (isa_segment reply)) }
{
    let isa = Header {
        delims: header.delims,
        sender: *me,
        receiver: header.sender,
        date: at.short_date(),
        time: at.time(),
        standard: STANDARD,
        version: VERSION,
        icn,
        ack: b'0',
        usage: usage_of(header.usage),
    };
    push_header(out, &isa)
}

/// Appends TA1: number, date and time of the interchange with this header, a code, and a note.
#[tactic(auto, unfolding(x12_envelopes::specs::Segment::segment_text))]
fn push_ta1(out: &mut Vec<u8>, header: &Header, code: &[u8; 1], note: u16) -> Result<(), AllocError>
    ensures written { OnOk result (out.new.items ≡
        out.old.items ++ segment_text header.now.delims (ta1_segment header.now code.now note)) }
{
    let delims = &header.delims;
    push_identifier(out, b"TA1")?;
    push_padded(out, delims, 9, u64::from(header.icn))?;
    push_element(out, delims, &header.date)?;
    push_element(out, delims, &header.time)?;
    push_element(out, delims, code)?;
    push_padded(out, delims, 3, u64::from(note))?;
    push_terminator(out, delims)
}

/// Appends IEA: how many functional groups, and the number of ISA.
#[tactic(auto, unfolding(x12_envelopes::specs::Segment::segment_text))]
fn push_iea(out: &mut Vec<u8>, delims: &Delims, groups: u64, icn: u32) -> Result<(), AllocError>
    ensures written { OnOk result (out.new.items ≡ out.old.items
        ++ segment_text delims.now (codes "IEA" ∷ decimal groups ∷ zero_padded_number 9 icn ∷ [])) }
{
    push_identifier(out, b"IEA")?;
    push_number(out, delims, groups)?;
    push_padded(out, delims, 9, u64::from(icn))?;
    push_terminator(out, delims)
}

/// Appends the reply to an interchange that was judged: a TA1 where it asks for one, and the functional
/// group of acknowledgments where a group was judged.
#[tactic(auto, unfolding(x12_envelopes::specs::Envelope::written, crate::specs::Reply::reply_to))]
pub(crate) fn push_judged(
    out: &mut Vec<u8>,
    header: &Header,
    groups: &[GroupVerdict],
    own: &ReplyHeader,
) -> Result<(), AllocError>
    requires interchange_number { own.now.icn ≤ 999999999 }
    ensures written { OnOk result (
        let me = own.now in
        let answers = answer_groups me.at me.gcn (map group_verdict_view groups.now) in
        out.new.items ≡ out.old.items
        ++ written (reply_to header.now me.me me.at me.icn (accepted_tas header.now) answers)) }
{
    push_isa(out, header, &own.me, &own.at, own.icn)?;
    push_accepted(out, header)?;
    let answers = push_answers(out, &header.delims, &own.at, own.gcn, groups)?;
    push_iea(out, &header.delims, answers, own.icn)
}

/// Appends TA1 A where the interchange asks for one.
fn push_accepted(out: &mut Vec<u8>, header: &Header) -> Result<(), AllocError>
    ensures written { OnOk result (out.new.items ≡
        out.old.items ++ text_of header.now.delims (accepted_tas header.now)) }
{
    if header.ack != b'1' {
        return Ok(());
    }
    push_ta1(out, header, b"A", 0)
}

/// Appends the functional group of acknowledgments, and says how many there are: none where no group
/// was judged.
#[tactic(auto, unfolding(crate::specs::Reply::answer_groups))]
fn push_answers(
    out: &mut Vec<u8>,
    delims: &Delims,
    at: &Moment,
    gcn: u32,
    groups: &[GroupVerdict],
) -> Result<u64, AllocError>
    ensures written { OnOk result (out.new.items ≡ out.old.items ++ text_of delims.now
        (flat_map group_segments (answer_groups at.now gcn (map group_verdict_view groups.now)))) }
    ensures groups { IfOk result (λ n.
        n ≡ length (answer_groups at.now gcn (map group_verdict_view groups.now))) }
{
    let Some((first, _)) = groups.split_first() else {
        return Ok(0);
    };
    push_gs(out, delims, at, gcn, first)?;
    push_group_answers(out, delims, groups)?;
    push_ge(out, delims, groups.len() as u64, gcn)?;
    Ok(1)
}

/// Appends GS of the acknowledgments: between the parties of the first group, the other way round.
#[tactic(auto, unfolding(x12_envelopes::specs::Segment::segment_text))]
fn push_gs(
    out: &mut Vec<u8>,
    delims: &Delims,
    at: &Moment,
    gcn: u32,
    first: &GroupVerdict,
) -> Result<(), AllocError>
    ensures written { OnOk result (out.new.items ≡ out.old.items
        ++ segment_text delims.now (answer_header at.now gcn (group_verdict_view first.now))) }
{
    let (from, to) = (first.receiver, first.sender);
    out.extend_from_slice(&[b'G', b'S', delims.element, b'F', b'A'])?;
    push_element(out, delims, from)?;
    push_element(out, delims, to)?;
    push_end_of_gs(out, delims, at, gcn)
}

/// Appends what stands in GS behind the parties: when it is written, its number, and the version of
/// the standard.
fn push_end_of_gs(
    out: &mut Vec<u8>,
    delims: &Delims,
    at: &Moment,
    gcn: u32,
) -> Result<(), AllocError>
    ensures written { OnOk result (
        let end = at.now.date ∷ at.now.time ∷ decimal gcn ∷ codes "X" ∷ codes "004010" ∷ [] in
        out.new.items ≡ out.old.items
        ++ (flat_map (λ e. delims.now.element ∷ e) end ++ delims.now.terminator ∷ [])) }
{
    push_element(out, delims, &at.date())?;
    push_element(out, delims, &at.time())?;
    push_number(out, delims, u64::from(gcn))?;
    push_version(out, delims)
}

/// Appends the end of GS: the version of the standard, X12's 4010 (GS07 and GS08).
fn push_version(out: &mut Vec<u8>, delims: &Delims) -> Result<(), AllocError>
    ensures written { OnOk result (
        let version = codes "X" ∷ codes "004010" ∷ [] in
        out.new.items ≡ out.old.items
        ++ (flat_map (λ e. delims.now.element ∷ e) version ++ delims.now.terminator ∷ [])) }
{
    let mut version = *b"*X*004010~";
    version[0] = delims.element;
    version[2] = delims.element;
    version[9] = delims.terminator;
    out.extend_from_slice(&version)
}

/// Appends the 997 of each functional group, numbered from 1.
fn push_group_answers(
    out: &mut Vec<u8>,
    delims: &Delims,
    groups: &[GroupVerdict],
) -> Result<(), AllocError>
    ensures written { OnOk result (out.new.items ≡ out.old.items ++ text_of delims.now
        (flat_map set_segments (numbered_answers (map group_verdict_view groups.now)))) }
{
    let mut number = 1;
    for verdict in groups {
        push_group_answer(out, delims, number, verdict)?;
        number += 1;
    }
    Ok(())
}

/// Appends GE: how many transaction sets, and the number of GS.
#[tactic(auto, unfolding(x12_envelopes::specs::Segment::segment_text))]
fn push_ge(out: &mut Vec<u8>, delims: &Delims, sets: u64, gcn: u32) -> Result<(), AllocError>
    ensures written { OnOk result (out.new.items ≡ out.old.items
        ++ segment_text delims.now (codes "GE" ∷ decimal sets ∷ decimal gcn ∷ [])) }
{
    push_identifier(out, b"GE")?;
    push_number(out, delims, sets)?;
    push_number(out, delims, u64::from(gcn))?;
    push_terminator(out, delims)
}
