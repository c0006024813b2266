//! Whether what is kept as the reply to an arrival was due: it is written again from what came, under
//! the numbers and at the moment that the kept one names.
//!
//! Which agreement was in force then isn't kept. It has the pairs that are in force now, or else each
//! choice that can matter is tried: of the pairs that occur in what came, and, as a group is judged by
//! its code alone, for each code of a pair that no set has. Each choice is tried strictly, and then
//! leniently.

ghost use Rattle.std.specs.Prelude.{◌≡◌, ◌≤◌, IsTrue, IfOk, IfSome, None, Ok, Some, map};
ghost use Rattle.x12_acks.specs.Reply.{is_reply_due, reply_from};
ghost use Rattle.x12_envelopes.specs.Envelope.{written};
ghost use Rattle.x12_envelopes.specs.Header.{header_of};
ghost use Rattle.x12_inbound.specs.Filing.{reply_bytes};
ghost use Rattle.x12_judge.specs.Agreement.{agreement_view};
ghost use Rattle.x12_judge.specs.Verdict.{judgement_view};
ghost use Rattle.x12_profile.specs.X12.{judged_by};
ghost use Rattle.x12_verify.specs.Arrived.{WasDueFrom};

use std::alloc::{AllocError, Global};
use x12_acks::{Needs, ReplyHeader, needs, write_reply};
use x12_envelopes::{Header, Moment, Outline, OutlineFault, Party, outline, read_header};
use x12_inbound::Filed;
use x12_judge::{Agreement, Judgement, judge_by};
use x12_profile::Edition;

/// A pair of GS01 and ST01.
pub(crate) type Pair = ([u8; 2], [u8; 3]);

/// How many choices of pairs are tried.
const MOST: u32 = 1024;

/// Under which agreement, and when, a reply was due.
#[derive(Drop)]
pub(crate) struct Due {
    /// The agreement.
    pub agreements: Vec<Agreement>,
    /// When the reply was written.
    pub at: Moment,
}

/// When a reply with this header was written, if that was in this century.
fn moment_in(century: [u8; 2], header: &Header) -> Option<Moment> {
    let [a, b] = century;
    let [c, d, e, f, g, h] = header.date;
    Moment::new([a, b, c, d, e, f, g, h], header.time)
}

/// Whether these bytes are the reply that is written so.
fn is_written(
    alloc: Global,
    header: &Header,
    judgement: &Judgement<'_>,
    own: &ReplyHeader,
    reply: &[u8],
) -> Result<bool, AllocError>
    requires due { IsTrue (is_reply_due header.now (judgement_view judgement.now)) }
    requires number { own.now.icn ≤ 999999999 }
    ensures { IfOk result (λ t. IsTrue t →
        reply.now ≡ written (reply_from header.now (judgement_view judgement.now) own.now)) }
{
    let written = write_reply(alloc, header, judgement, own)?;
    Ok(written.as_slice() == reply)
}

/// When these bytes were written as the reply, if that was in this century.
fn written_in(
    alloc: Global,
    century: [u8; 2],
    header: &Header,
    judgement: &Judgement<'_>,
    own: &ReplyHeader,
    reply: &[u8],
) -> Result<Option<Moment>, AllocError>
    requires due { IsTrue (is_reply_due header.now (judgement_view judgement.now)) }
    requires number { own.now.icn ≤ 999999999 }
    ensures { IfOk result (λ o. IfSome o (λ at. reply.now ≡ written
        (reply_from header.now (judgement_view judgement.now) (record own.now { at = at })))) }
{
    let Ok(said) = read_header(reply) else {
        return Ok(None);
    };
    let Some(at) = moment_in(century, &said) else {
        return Ok(None);
    };
    let own = ReplyHeader {
        me: own.me,
        at,
        icn: own.icn,
        gcn: own.gcn,
    };
    if is_written(alloc, header, judgement, &own, reply)? {
        return Ok(Some(at));
    }
    Ok(None)
}

/// When these bytes were written as the reply, if they were.
fn written_at(
    alloc: Global,
    header: &Header,
    judgement: &Judgement<'_>,
    own: &ReplyHeader,
    reply: &[u8],
) -> Result<Option<Moment>, AllocError>
    requires due { IsTrue (is_reply_due header.now (judgement_view judgement.now)) }
    requires number { own.now.icn ≤ 999999999 }
    ensures { IfOk result (λ o. IfSome o (λ at. reply.now ≡ written
        (reply_from header.now (judgement_view judgement.now) (record own.now { at = at })))) }
{
    match written_in(alloc, *b"20", header, judgement, own, reply)? {
        Some(at) => Ok(Some(at)),
        None => written_in(alloc, *b"19", header, judgement, own, reply),
    }
}

/// The moment of `own`, where no reply is due.
fn none_due(header: &Header, judgement: &Judgement<'_>, own: &ReplyHeader) -> Option<Moment>
    ensures { IfSome result (λ at. WasDueFrom header.now (judgement_view judgement.now)
        (record own.now { at = at }) None) }
{
    if needs(header, judgement).reply {
        return None;
    }
    Some(own.at)
}

/// Whether these numbers can be those of a reply that takes so much.
fn are_taken(needed: Needs, own: &ReplyHeader) -> bool
    ensures icn { IsTrue result → 1 ≤ own.now.icn }
    ensures gcn { IsTrue result → IsTrue needed.group → 1 ≤ own.now.gcn }
{
    if own.icn < 1 {
        return false;
    }
    !needed.group || own.gcn >= 1
}

/// When these bytes were due as the reply; `None` where they weren't.
fn reply_due(
    alloc: Global,
    header: &Header,
    judgement: &Judgement<'_>,
    own: &ReplyHeader,
    reply: &[u8],
) -> Result<Option<Moment>, AllocError>
    requires { own.now.icn ≤ 999999999 }
    ensures { IfOk result (λ o. IfSome o (λ at. WasDueFrom header.now (judgement_view judgement.now)
        (record own.now { at = at }) (Some reply.now))) }
{
    let needed = needs(header, judgement);
    if needed.reply {
        if are_taken(needed, own) {
            return written_at(alloc, header, judgement, own, reply);
        }
    }
    Ok(None)
}

/// When what is kept as the reply was due, where this is what the arrival deserves; `None` where it
/// wasn't. Where none was due and none is kept, it is the moment of `own`.
fn due_at(
    alloc: Global,
    header: &Header,
    judgement: &Judgement<'_>,
    own: &ReplyHeader,
    filed: &Filed,
) -> Result<Option<Moment>, AllocError>
    requires { own.now.icn ≤ 999999999 }
    ensures { IfOk result (λ o. IfSome o (λ at. WasDueFrom header.now (judgement_view judgement.now)
        (record own.now { at = at }) (reply_bytes filed.now.reply))) }
{
    match &filed.reply {
        None => Ok(none_due(header, judgement, own)),
        Some(reply) => reply_due(alloc, header, judgement, own, reply),
    }
}

/// An agreement by which these pairs are taken from a partner, leniently or not.
fn agreement_on(
    alloc: Global,
    partner: Party,
    pairs: &[Pair],
    lenient: bool,
) -> Result<Agreement, AllocError> {
    Ok(Agreement {
        partner,
        lenient,
        pairs: Vec::from_slice(alloc, pairs)?,
    })
}

/// Under which agreement and when the reply was due by this edition, where this agreement is the only
/// one.
fn due_by(
    alloc: Global,
    agreement: Agreement,
    edition: Edition,
    header: &Header,
    own: &ReplyHeader,
    filed: &Filed,
) -> Result<Option<Due>, AllocError>
    requires read { header_of filed.now.bytes.items ≡ Ok header.now }
    requires number { own.now.icn ≤ 999999999 }
    ensures { IfOk result (λ o. IfSome o (λ d. WasDueFrom header.now
        (judged_by edition own.now.me (map agreement_view d.agreements.items) header.now
        filed.now.bytes.items) (record own.now { at = d.at }) (reply_bytes filed.now.reply))) }
{
    let agreements = vec![in alloc; agreement]?;
    let controls = edition.controls();
    let judgement = judge_by(alloc, &own.me, &agreements, controls, &filed.bytes, header)?;
    match due_at(alloc, header, &judgement, own, filed)? {
        Some(at) => Ok(Some(Due { agreements, at })),
        None => Ok(None),
    }
}

/// The same, where these pairs are taken from the sender: strictly, or else leniently.
fn due_either(
    alloc: Global,
    pairs: &[Pair],
    edition: Edition,
    header: &Header,
    own: &ReplyHeader,
    filed: &Filed,
) -> Result<Option<Due>, AllocError>
    requires read { header_of filed.now.bytes.items ≡ Ok header.now }
    requires number { own.now.icn ≤ 999999999 }
    ensures { IfOk result (λ o. IfSome o (λ d. WasDueFrom header.now
        (judged_by edition own.now.me (map agreement_view d.agreements.items) header.now
        filed.now.bytes.items) (record own.now { at = d.at }) (reply_bytes filed.now.reply))) }
{
    let strict = agreement_on(alloc, header.sender, pairs, false)?;
    if let Some(due) = due_by(alloc, strict, edition, header, own, filed)? {
        return Ok(Some(due));
    }
    let lenient = agreement_on(alloc, header.sender, pairs, true)?;
    due_by(alloc, lenient, edition, header, own, filed)
}

/// Adds a pair, if it isn't among them.
fn push_once(pairs: &mut Vec<Pair>, functional: [u8; 2], set: [u8; 3]) -> Result<(), AllocError> {
    for pair in pairs.as_slice() {
        if pair.0 == functional && pair.1 == set {
            return Ok(());
        }
    }
    Ok(pairs.push((functional, set))?)
}

/// The pairs that can matter.
fn pairs_in(alloc: Global, outline: &Outline<'_>) -> Result<Vec<Pair>, AllocError> {
    let mut pairs = Vec::new(alloc);
    for group in &outline.groups {
        push_once(&mut pairs, group.functional, *b"   ")?;
        for set in &group.sets {
            push_once(&mut pairs, group.functional, set.set)?;
        }
    }
    Ok(pairs)
}

/// The pairs of an arrival that can matter; none where it can't be read.
fn pairs_of(alloc: Global, bytes: &[u8], header: &Header) -> Result<Vec<Pair>, AllocError>
    requires { header_of bytes.now ≡ Ok header.now }
{
    match outline(alloc, bytes, header) {
        Ok(outline) => pairs_in(alloc, &outline),
        Err(OutlineFault::Memory) => Err(AllocError),
        Err(_) => Ok(Vec::new(alloc)),
    }
}

/// The choice of this number; `None` where there are fewer.
fn chosen(alloc: Global, pairs: &[Pair], choice: u32) -> Result<Option<Vec<Pair>>, AllocError> {
    let mut taken = Vec::new(alloc);
    let mut left = choice;
    for pair in pairs {
        if left % 2 == 1 {
            taken.push(*pair)?;
        }
        left /= 2;
    }
    Ok(if left == 0 { Some(taken) } else { None })
}

/// What is taken from a party now.
fn pairs_now<'a>(agreements: &'a [Agreement], partner: &Party) -> &'a [Pair] {
    for agreement in agreements {
        if agreement.partner == *partner {
            return &agreement.pairs;
        }
    }
    &[]
}

/// Under which agreement and when what is kept as the reply to an arrival was due by the edition of
/// its number; `None` where nothing makes it so. `own` has who answers and the reply's numbers. Of a
/// reply that was due by an agreement that is no more, to an arrival of more than ten such pairs, it
/// may say `None` too.
pub(crate) fn find_due(
    alloc: Global,
    agreements: &[Agreement],
    edition: Edition,
    header: &Header,
    own: &ReplyHeader,
    filed: &Filed,
) -> Result<Option<Due>, AllocError>
    requires read { header_of filed.now.bytes.items ≡ Ok header.now }
    requires number { own.now.icn ≤ 999999999 }
    ensures { IfOk result (λ o. IfSome o (λ d. WasDueFrom header.now
        (judged_by edition own.now.me (map agreement_view d.agreements.items) header.now
        filed.now.bytes.items) (record own.now { at = d.at }) (reply_bytes filed.now.reply))) }
{
    let now = pairs_now(agreements, &header.sender);
    if let Some(due) = due_either(alloc, now, edition, header, own, filed)? {
        return Ok(Some(due));
    }
    let pairs = pairs_of(alloc, &filed.bytes, header)?;
    for choice in 0..MOST {
        let Some(taken) = chosen(alloc, &pairs, choice)? else {
            return Ok(None);
        };
        if let Some(due) = due_either(alloc, &taken, edition, header, own, filed)? {
            return Ok(Some(due));
        }
    }
    Ok(None)
}
