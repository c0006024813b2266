//! What was posted of an arrival.

ghost use Rattle.std.specs.Prelude.{◌≡◌, ◌++◌, ◌≤◌, IsTrue, IfOk, Ok, map};
ghost use Rattle.x12_envelopes.specs.Header.{header_of};
ghost use Rattle.x12_envelopes.specs.Party.{is_plain_party};
ghost use Rattle.x12_inbound.specs.Filing.{reply_bytes};
ghost use Rattle.x12_inbound.specs.Posting.{posting_view};
ghost use Rattle.x12_judge.specs.Agreement.{agreement_view};
ghost use Rattle.x12_profile.specs.X12.{judged_by, x12};
ghost use Rattle.x12_station.specs.History.{Came, posted_by};
ghost use Rattle.x12_verify.specs.Arrived.{WasDueFrom};

use crate::comparing::is_same_posting;
use crate::difference::{Difference, Stop};
use crate::due::Due;
use std::alloc::{AllocError, Global};
use x12_acks::ReplyHeader;
use x12_envelopes::Header;
use x12_inbound::{Filed, Kept, Posting, Seen, look, what_is_posted_was_accepted};
use x12_judge::judge_by;
use x12_profile::{Edition, x12_meets_the_laws};

/// A copy of what is kept as the reply.
fn copied_reply(alloc: Global, filed: &Filed) -> Result<Option<Vec<u8>>, AllocError>
    ensures { IfOk result (λ r. reply_bytes r ≡ reply_bytes filed.now.reply) }
{
    match &filed.reply {
        None => Ok(None),
        Some(reply) => Ok(Some(Vec::from_slice(alloc, reply)?)),
    }
}

/// An arrival of this edition, with the postings that its reply accepts.
pub(crate) fn keep(
    alloc: Global,
    edition: Edition,
    header: &Header,
    own: &ReplyHeader,
    due: &Due,
    filed: &Filed,
) -> Result<Kept, AllocError>
    requires read { header_of filed.now.bytes.items ≡ Ok header.now }
    requires plain { IsTrue (is_plain_party own.now.me) }
    requires numbers { (own.now.icn ≤ 999999999) × (own.now.gcn ≤ 999999999) }
    requires due { WasDueFrom header.now (judged_by edition own.now.me
        (map agreement_view due.now.agreements.items) header.now filed.now.bytes.items)
        (record own.now { at = due.now.at }) (reply_bytes filed.now.reply) }
    ensures { IfOk result (λ k. k.postings
        ≡ posted_by x12 (Came edition filed.now.bytes.items (reply_bytes filed.now.reply))) }
{
    // laws: X12 is as the network asks, and what is posted was accepted
    x12_meets_the_laws();
    what_is_posted_was_accepted();
    let controls = edition.controls();
    let judgement = judge_by(
        alloc,
        &own.me,
        &due.agreements,
        controls,
        &filed.bytes,
        header,
    )?;
    let reply = copied_reply(alloc, filed)?;
    let Seen::New(arrived) = look(None, &header.sender, header.icn, &filed.bytes) else {
        return Err(AllocError);
    };
    match arrived.judge(alloc, &judgement, reply) {
        Ok(judged) => Ok(judged.keep()),
        Err(_) => Err(AllocError),
    }
}

/// Postings of which those in front were told already.
#[derive(Clone, Copy)]
pub(crate) struct Postings<'a> {
    /// How many were told.
    pub told: u64,
    /// Those that are left.
    pub left: &'a [Posting],
}

/// The place from 1 of the next one that is left.
pub(crate) fn next_place(postings: &Postings<'_>) -> u64 {
    postings.told.saturating_add(1)
}

/// The postings behind these. They differ where they don't begin with these.
pub(crate) fn strip<'a>(postings: Postings<'a>, due: &[Posting]) -> Result<Postings<'a>, Stop>
    ensures { IfOk result (λ more. map posting_view postings.entry.left.now
        ≡ map posting_view due.now ++ map posting_view more.left.now) }
{
    let mut told = postings.told;
    let (mut wanted, mut left) = (due, postings.left);
    while let Some((posting, more)) = wanted.split_first() {
        told = told.saturating_add(1);
        let Some((first, rest)) = left.split_first() else {
            return Err(Stop::Differs(Difference::Posting(told)));
        };
        if !is_same_posting(first, posting) {
            return Err(Stop::Differs(Difference::Posting(told)));
        }
        wanted = more;
        left = rest;
    }
    Ok(Postings { told, left })
}
