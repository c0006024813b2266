//! An arrival: judged once, posted once, and answered the same way for good.

ghost use Rattle.std.specs.Prelude.{◌≡◌, ℕ, List, Ok, true, false, not, IsTrue, IfOk, IfErr, OnErr};
ghost use Rattle.std.specs.Prelude.{◌≤◌, ◌-◌, ◌^◌, ◌||◌, map, nat_le, None, option_map};
ghost use Rattle.std.specs.Borrow.{Bor};
ghost use Rattle.x12_envelopes.specs.declared.delimiters.Delims.{Delims};
ghost use Rattle.x12_envelopes.specs.Header.{header_of};
ghost use Rattle.x12_envelopes.specs.Shape.{outline_view};
ghost use Rattle.x12_inbound.specs.Arrival.{arrived_view};
ghost use Rattle.x12_inbound.specs.Filing.{reply_bytes};
ghost use Rattle.x12_judge.specs.Agreement.{agreement_view};
ghost use Rattle.x12_judge.specs.Interchange.{reading_is_silent};
ghost use Rattle.x12_outbound.specs.Counts.{only_unclear, AreCounts};
ghost use Rattle.x12_outbound.specs.Plan.{IsPlan};
ghost use Rattle.x12_profile.specs.Interchange.{book_for};
ghost use Rattle.x12_profile.specs.X12.{judged_by, needs_of, x12};
ghost use Rattle.x12_station.specs.Arriving.{AreReadAs, TakesNew, TakesOther, counts_told};
ghost use Rattle.x12_station.specs.Closed.{heard};
ghost use Rattle.x12_station.specs.declared.arriving.ArrivalKind.TheVariants.{New, Same};
ghost use Rattle.x12_station.specs.declared.fault.StationFault.TheVariants.{Store};
ghost use Rattle.x12_station.specs.working.Drafting.{exhausted, IsDraft};
ghost use Rattle.x12_station.specs.Fault.{IsRowOrWant};
ghost use Rattle.x12_station.specs.Keeps.{cached_edition};
ghost use Rattle.x12_station.specs.working.Hearing.{IsHeard};
ghost use Rattle.x12_profile.specs.Stop.{CountsFailures};
ghost use Rattle.x12_station.specs.Seen.{station_of};
ghost use Rattle.x12_station.specs.Standing.{Stands, StandsAgain, WereAsked};
ghost use Rattle.x12_station.specs.Station.{edition_next};
ghost use Rattle.x12_station.specs.StationRefusal.{is_spent};
ghost use Rattle.x12_station.specs.StationStep.{arrive_new, arrive_other};
ghost use Rattle.x12_station.specs.Stopped.{LeavesStep};
ghost use Rattle.x12_station.specs.Stored.{filed_in};

use crate::cached::Cached;
use crate::fault::StationFault;
use crate::filing::file;
use crate::hearing::answers_heard;
use crate::noting::refuse_other;
use crate::planning::planned;
use crate::prepared::LAST_ITEM;
use crate::records::Records;
use crate::replying::{Draft, drafted};
use std::alloc::{AllocError, Global};
use x12_envelopes::{Header, Moment, Outline};
use x12_inbound::{Arrived, what_is_posted_was_accepted};
use x12_judge::read_interchange;
use x12_outbound::{Counts, Settling};
use x12_profile::{Edition, x12_meets_the_laws};

/// What an arrival was, by what is filed under its sender (ISA05, ISA06) and number (ISA13).
#[derive(Clone, Copy, Debug, PartialEq, Eq)]
pub enum ArrivalKind {
    /// Nothing was filed: it was judged, and is filed now.
    New,
    /// The same bytes were filed: the kept reply answers them again.
    Same,
    /// Other bytes were filed: it is refused (TA1 R 025), unless it holds TA1s and no group.
    Other,
}

/// What a station did with an arrival.
#[derive(Debug, Drop)]
pub struct Arrival {
    /// What it was.
    pub kind: ArrivalKind,
    /// The reply that is to be sent, from ISA through IEA; `None` where none is due.
    pub reply: Option<Vec<u8>>,
    /// What its evidence did; nothing, unless it is new.
    pub counts: Counts,
}

/// What no evidence does.
pub(crate) fn nothing_told() -> Counts
    ensures { result ≡ only_unclear 0 }
{
    Counts {
        settled: 0,
        repeated: 0,
        unmatched: 0,
        conflicting: 0,
        unclear: 0,
    }
}

/// The same bytes again: a copy of the kept reply, where one was due.
pub(crate) fn repeated(alloc: Global, kept: Option<&[u8]>) -> Result<Arrival, AllocError>
    ensures kind { IfOk result (λ a. a.kind ≡ Same) }
    ensures reply { IfOk result (λ a. reply_bytes a.reply
        ≡ option_map (λ (b : Bor (List ℕ)). b.now) kept.entry) }
    ensures counts { IfOk result (λ a. a.counts ≡ only_unclear 0) }
{
    let reply = match kept {
        Some(bytes) => Some(Vec::from_slice(alloc, bytes)?),
        None => None,
    };
    Ok(Arrival {
        kind: ArrivalKind::Same,
        reply,
        counts: nothing_told(),
    })
}

/// Whether an outline holds TA1s and no group.
#[tactic(auto, unfolding(x12_judge::specs::Interchange::reading_is_silent))]
fn holds_answers_alone(outline: &Outline<'_>) -> bool
    ensures { (d : Delims) → result ≡ reading_is_silent (Ok (outline_view d outline.now)) }
{
    !outline.tas.is_empty() && outline.groups.is_empty()
}

/// Whether an interchange is never answered: it can be read, and holds TA1s and no group.
fn is_silent(alloc: Global, bytes: &[u8], header: &Header) -> Result<bool, AllocError>
    requires read { header_of bytes.now ≡ Ok header.now }
    ensures { IfOk result (λ t. t ≡ x12.is_silent bytes.now) }
{
    match read_interchange(alloc, bytes, header)? {
        Ok(outline) => Ok(holds_answers_alone(&outline)),
        Err(_) => Ok(false),
    }
}

/// Other bytes under a filed number: silent ones change nothing, and others are refused.
///
/// S11 where no number is left for the refusal; S13 and S14: what is held is as it was.
pub(crate) fn answer_other<R: Records>(
    records: &mut R,
    memory: &mut Cached,
    bytes: &[u8],
    header: &Header,
    at: &Moment,
) -> Result<Option<Vec<u8>>, StationFault>
    requires stands { Stands R.Records records.old memory.old }
    requires read { header_of bytes.now ≡ Ok header.now }
    ensures stands { StandsAgain R.Records result records.old records.new memory.old memory.new }
    ensures took { IsTrue (R.answers records.new) → IfOk result (λ reply.
        TakesOther (station_of memory.old.ledger.holds memory.old.counts (R.content records.old))
        (station_of memory.new.ledger.holds memory.new.counts (R.content records.new))
        at.now bytes.now (reply_bytes reply)) }
    ensures crash { let was =
        station_of memory.old.ledger.holds memory.old.counts (R.content records.old) in
        LeavesStep R.Records (arrive_other x12 was at.now bytes.now
        (book_for was.book (record { reply = true; group = false }))) records.old records.new }

    ensures fault { IfErr result (IsRowOrWant (exhausted (is_spent memory.old.book
        (record { reply = not (x12.is_silent bytes.now); group = false })))) }
    ensures unchanged { IsTrue (R.answers records.new) → OnErr result
        (station_of memory.new.ledger.holds memory.new.counts (R.content records.new)
        ≡ station_of memory.old.ledger.holds memory.old.counts (R.content records.old)) }
    ensures device { CountsFailures result (λ f. f ≡ Store)
        (R.failed records.old) (R.failed records.new) }
{
    if is_silent(memory.alloc, bytes, header)? {
        return Ok(None);
    }
    match refuse_other(records, memory, header, at) {
        Ok(refusal) => Ok(Some(refusal)),
        Err(fault) => Err(fault),
    }
}

/// What is kept of a new arrival, and what its answers mean: nothing is written yet.
///
/// S11 where no control number is left for the reply; S13 and S14.
fn weighed<R: Records>(
    records: &mut R,
    memory: &Cached,
    arrived: Arrived,
    bytes: &[u8],
    header: &Header,
    at: &Moment,
) -> Result<(Draft, Settling), StationFault>
    requires stands { Stands R.Records records.old memory.now }
    requires read { AreReadAs bytes.now header.now (arrived_view arrived) }
    ensures asked { WereAsked R.Records records.old records.new }
    ensures weighed { IfOk result (λ w. IsPlan memory.now.ledger.holds w.1.pieces
        × IsDraft (cached_edition memory.now) memory.now.me
        (map agreement_view memory.now.agreements.items) at.now
        memory.now.book header.now bytes.now w.0) }
    ensures heard { let ags = map agreement_view memory.now.agreements.items in
        IsTrue (R.answers records.new) → IfOk result (λ w. IsHeard memory.now.ledger.holds
        (R.content records.old) header.now.sender (heard (cached_edition memory.now)
        (judged_by (cached_edition memory.now) memory.now.me ags header.now bytes.now).verdict
        bytes.now) w.1) }

    ensures fault { IfErr result (IsRowOrWant (exhausted (is_spent memory.now.book (needs_of
        (cached_edition memory.now) memory.now.me (map agreement_view memory.now.agreements.items)
        bytes.now header.now)))) }
    ensures device { CountsFailures result (λ f. f ≡ Store)
        (R.failed records.old) (R.failed records.new) }
{
    let (alloc, me) = (memory.alloc, &memory.me);
    let edition = Edition::after(memory.marks, memory.seq);
    let reading = read_interchange(alloc, bytes, header)?;
    let judgement = edition.judge(alloc, me, &memory.agreements, header, &reading)?;
    let answers = answers_heard(alloc, edition, header, &reading, &judgement)?;
    let settling = match planned(records, alloc, &memory.ledger, &header.sender, &answers) {
        Ok(settling) => settling,
        Err(fault) => return Err(fault),
    };
    match drafted(memory, arrived, &judgement, header, at) {
        Ok(draft) => Ok((draft, settling)),
        Err(fault) => {
            settling.abandon();
            Err(fault)
        }
    }
}

/// Counts are numbers of 64 bits: a law, as a function that does nothing.
fn counts_are_small(counts: Counts)
    ensures { AreCounts counts × (counts.unclear ≤ 2 ^ 64 - 1) }
{}

/// Judges a new arrival, and files it with its reply, its postings and what it settles.
///
/// S11 where no number is left; S13 and S14: what is held is as it was.
pub(crate) fn answer_new<R: Records>(
    records: &mut R,
    memory: &mut Cached,
    arrived: Arrived,
    bytes: &[u8],
    header: &Header,
    at: &Moment,
) -> Result<Arrival, StationFault>
    requires stands { Stands R.Records records.old memory.old }
    requires new { AreReadAs bytes.now header.now (arrived_view arrived)
        × (IsTrue (R.answers records.old) →
        filed_in (R.content records.old) header.now.sender header.now.icn ≡ None) }
    ensures stands { StandsAgain R.Records result records.old records.new memory.old memory.new }
    ensures took { let was =
        station_of memory.old.ledger.holds memory.old.counts (R.content records.old) in
        IsTrue (R.answers records.new) → IfOk result (λ a. (a.kind ≡ New)
        × (a.counts ≡ counts_told was None bytes.now) × TakesNew was
        (station_of memory.new.ledger.holds memory.new.counts (R.content records.new))
        at.now bytes.now (reply_bytes a.reply)) }
    ensures crash { let was =
        station_of memory.old.ledger.holds memory.old.counts (R.content records.old) in
        let needs = x12.needs (edition_next was) was.me was.agreements bytes.now in
        LeavesStep R.Records (arrive_new x12 was at.now bytes.now (book_for was.book needs))
        records.old records.new }

    ensures fault { let last = nat_le (2 ^ 63 - 1) memory.old.seq in
        let by = cached_edition memory.old in
        IfErr result (IsRowOrWant (exhausted (is_spent memory.old.book (needs_of by memory.old.me
        (map agreement_view memory.old.agreements.items) bytes.now header.now) || last))) }
    ensures unchanged { IsTrue (R.answers records.new) → OnErr result
        (station_of memory.new.ledger.holds memory.new.counts (R.content records.new)
        ≡ station_of memory.old.ledger.holds memory.old.counts (R.content records.old)) }
    ensures device { CountsFailures result (λ f. f ≡ Store)
        (R.failed records.old) (R.failed records.new) }
{
    // laws: X12 is as the network asks, what is posted was accepted, and the counts are in range
    x12_meets_the_laws();
    what_is_posted_was_accepted();
    counts_are_small(memory.counts);
    if memory.seq >= LAST_ITEM {
        return Err(StationFault::Exhausted);
    }
    let (draft, settling) = match weighed(records, memory, arrived, bytes, header, at) {
        Ok(weighed) => weighed,
        Err(fault) => return Err(fault),
    };
    let Draft { kept, reply, book } = draft;
    match file(records, memory, kept, book, settling) {
        Ok(counts) => Ok(Arrival {
            kind: ArrivalKind::New,
            reply,
            counts,
        }),
        Err(fault) => Err(fault),
    }
}
