//! Whether records are what the station that they name wrote.

ghost use Rattle.std.specs.Prelude.{◌≡◌, ◌≤◌, ◌-◌, ◌^◌, [], IsTrue, IfOk, OnOk, All, map};
ghost use Rattle.x12_envelopes.specs.Party.{is_plain_party};
ghost use Rattle.x12_inbound.specs.Posting.{posting_view};
ghost use Rattle.x12_station.specs.Durable.{IsHistoryOf, items_of};
ghost use Rattle.x12_station.specs.Memory.{memory_view, IsKeptWhole};
ghost use Rattle.x12_station.specs.Record.{owner_view, loaded_view, loaded_of, IsSoundLoaded};
ghost use Rattle.x12_station.specs.Standing.{WereAsked};
ghost use Rattle.x12_station.specs.Stored.{entries};
ghost use Rattle.x12_verify.specs.Entries.{IsRightSubmission};
ghost use Rattle.x12_verify.specs.Told.{HoldsTold, IsOpenAgain};
ghost use Rattle.x12_verify.specs.Verified.{IsSoundOutcome};

use crate::again::Again;
use crate::arrived::Holder;
use crate::difference::{Difference, Outcome, Sound, Stop};
use crate::entries::test_submissions;
use crate::posted::{Postings, next_place};
use crate::telling::{Telling, tell_all};
use std::alloc::Global;
use x12_envelopes::Moment;
use x12_inbound::Posting;
use x12_station::{MemoryRecords, Owner, Records, Station, StationFault, StoreFault};

/// Tests that records name a party that a station can have.
fn test_owner(owner: &Owner) -> Result<(), Stop>
    ensures plain { OnOk result (IsTrue (is_plain_party owner.now.party)) }
{
    if !owner.party.is_plain() {
        return Err(Stop::Differs(Difference::Owner));
    }
    Ok(())
}

/// Opens a station of this owner that is told a history again: it reads what comes as the owner's does.
fn open_again(alloc: Global, owner: &Owner) -> Result<Again, Stop>
    requires { IsTrue (is_plain_party owner.now.party) }
    ensures { IfOk result (λ s. IsTrue s.answers → IsOpenAgain (owner_view owner.now) s.state) }
{
    let Owner {
        party,
        hub,
        other,
        ..
    } = *owner;
    let records = MemoryRecords::read_so(alloc, *owner);
    match Station::open(alloc, party, hub, other, records) {
        Ok(again) => Ok(again),
        Err((_, StationFault::Store)) => Err(Stop::Store(StoreFault::Device)),
        Err((_, _)) => Err(Stop::Store(StoreFault::Memory)),
    }
}

/// Tells the items of all numbers to a station in memory, and gives its records.
fn told_again<'a, R: Records>(
    records: &mut R,
    holder: &Holder<'_>,
    kept: &'a [Posting],
) -> Result<(Telling<'a>, MemoryRecords), Stop>
    requires valid { R.valid records.old }
    requires plain { IsTrue (is_plain_party holder.now.owner.party) }
    requires few { holder.now.loaded.now.seq ≤ 2 ^ 63 - 1 }
    requires origin { IsTrue (R.answers records.old) →
        (R.content records.old).origin ≡ owner_view holder.now.owner }
    ensures asked { WereAsked R.Records records.old records.new }
    ensures whole { IfOk result (λ r. IsKeptWhole r.1) }
    ensures told { IsTrue (R.answers records.new) → IfOk result (λ r. HoldsTold
        (R.content records.old) (memory_view r.1) (owner_view holder.now.owner)
        holder.now.loaded.now.book holder.now.loaded.now.seq (map posting_view kept.now)
        (map posting_view r.0.postings.left.now)) }
{
    let mut again = open_again(holder.alloc, &holder.owner)?;
    let postings = Postings {
        told: 0,
        left: kept,
    };
    let telling = tell_all(records, holder, &mut again, postings);
    let told = again.close();
    match telling {
        Ok(telling) => Ok((telling, told)),
        Err(stop) => Err(stop),
    }
}

/// Holds the submissions of records against those of records that were told the history.
fn test_told<R: Records>(
    records: &mut R,
    holder: &Holder<'_>,
    told: MemoryRecords,
) -> Result<(), Stop>
    requires valid { R.valid records.old }
    requires whole { IsKeptWhole told }
    requires loaded { IsTrue (R.answers records.old) →
        loaded_view holder.now.loaded.now ≡ loaded_of (R.content records.old) }
    requires sound { IsSoundLoaded (loaded_view holder.now.loaded.now) }
    ensures asked { WereAsked R.Records records.old records.new }
    ensures right { IsTrue (R.answers records.new) → OnOk result
        (All (IsRightSubmission (entries (R.content records.old)) (entries (memory_view told)))
        (items_of (memory_view told))) }
{
    let mut told = told;
    let due = told.load()?;
    test_submissions(records, &mut told, holder, &due)
}

/// Nothing may be left of the postings.
fn end(telling: &Telling<'_>) -> Result<Sound, Stop>
    ensures none { OnOk result (map posting_view telling.now.postings.left.now ≡ []) }
{
    if !telling.postings.left.is_empty() {
        let place = next_place(&telling.postings);
        return Err(Stop::Differs(Difference::Posting(place)));
    }
    Ok(Sound {
        submitted: telling.submitted,
        came: telling.came,
        postings: telling.postings.told,
    })
}

/// Holds records against their history, which is told again.
fn hold<R: Records>(records: &mut R, holder: &Holder<'_>) -> Result<Sound, Stop>
    requires valid { R.valid records.old }
    requires plain { IsTrue (is_plain_party holder.now.owner.party) }
    requires origin { IsTrue (R.answers records.old) →
        (R.content records.old).origin ≡ owner_view holder.now.owner }
    requires loaded { IsTrue (R.answers records.old) →
        loaded_view holder.now.loaded.now ≡ loaded_of (R.content records.old) }
    requires sound { IsSoundLoaded (loaded_view holder.now.loaded.now) }
    ensures asked { WereAsked R.Records records.old records.new }
    ensures sound { IsTrue (R.answers records.new) →
        OnOk result (IsHistoryOf (owner_view holder.now.owner).me (owner_view holder.now.owner).hubs
        (R.content records.old)) }
{
    let kept = records.postings()?;
    let (telling, told) = told_again(records, holder, &kept)?;
    let sound = end(&telling)?;
    test_told(records, holder, told)?;
    Ok(sound)
}

/// Verifies records; an early end says why.
fn verified<R: Records>(alloc: Global, records: &mut R, at: &Moment) -> Result<Sound, Stop>
    requires valid { R.valid records.old }
    ensures asked { WereAsked R.Records records.old records.new }
    ensures sound { IsTrue (R.answers records.new) → OnOk result
        (IsHistoryOf (R.content records.old).origin.me (R.content records.old).origin.hubs
        (R.content records.old)) }
{
    let owner = records.owner()?;
    test_owner(&owner)?;
    let loaded = records.load()?;
    let holder = Holder {
        alloc,
        owner,
        at: *at,
        loaded: &loaded,
    };
    hold(records, &holder)
}

/// Says whether records are what the station that they name wrote: that each submission could be
/// submitted, each arrival is filed under its own sender and number, each reply that is kept was due
/// under numbers that were used, the fates are those that the history tells, and the postings those
/// that the kept replies accept. Nothing is written. `at` is any moment.
///
/// The history itself is taken as it stands, and which agreements were in force isn't kept: of a
/// reply that was due by one that is no more, to an arrival with more than ten pairs of GS01 and ST01,
/// it may be said that it wasn't due.
///
/// It takes as much memory as the history. A fault is the device's, or want of memory.
pub fn verify<R: Records>(
    alloc: Global,
    records: &mut R,
    at: &Moment,
) -> Result<Outcome, StoreFault>
    requires valid { R.valid records.old }
    ensures asked { WereAsked R.Records records.old records.new }
    ensures sound { IsTrue (R.answers records.new) →
        IfOk result (IsSoundOutcome (R.content records.old)) }
{
    match verified(alloc, records, at) {
        Ok(sound) => Ok(Outcome::Sound(sound)),
        Err(Stop::Differs(difference)) => Ok(Outcome::Differs(difference)),
        Err(Stop::Store(fault)) => Err(fault),
    }
}
