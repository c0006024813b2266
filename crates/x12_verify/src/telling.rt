//! The items of a history, told again one by one.

ghost use Rattle.std.specs.Prelude.{◌≡◌, ◌≤◌, ◌+◌, ◌-◌, ◌^◌, IsTrue, IfOk, length, map};
ghost use Rattle.x12_envelopes.specs.Party.{is_plain_party};
ghost use Rattle.x12_inbound.specs.Posting.{posting_view};
ghost use Rattle.x12_station.specs.Record.{owner_view};
ghost use Rattle.x12_station.specs.Standing.{WereAsked};
ghost use Rattle.x12_station.specs.Stored.{marks_of};
ghost use Rattle.x12_verify.specs.Told.{AreTold, IsOpenAgain, IsTold};

use crate::again::{Again, hear_again, submit_again};
use crate::arrived::{Holder, take_arrival};
use crate::difference::{Difference, Stop};
use crate::posted::Postings;
use x12_station::{Item, Records};

/// How far a history was told again.
#[derive(Clone, Copy)]
pub(crate) struct Telling<'a> {
    /// How many interchanges were submitted.
    pub submitted: u64,
    /// How many came.
    pub came: u64,
    pub postings: Postings<'a>,
}

/// Tells the item of this number, from 1, again.
fn tell_item<'a, R: Records>(
    records: &mut R,
    holder: &Holder<'_>,
    again: &mut Again,
    number: u64,
    telling: Telling<'a>,
) -> Result<Telling<'a>, Stop>
    requires valid { R.valid records.old }
    requires plain { IsTrue (is_plain_party holder.now.owner.party) }
    requires place { IsTrue (R.answers records.old) → IsTrue again.old.answers →
        length again.old.state.items + 1 ≡ number }
    requires marks { IsTrue (R.answers records.old) → IsTrue again.old.answers →
        again.old.state.marks ≡ marks_of (R.content records.old).origin }
    requires origin { IsTrue (R.answers records.old) →
        (R.content records.old).origin ≡ owner_view holder.now.owner }
    ensures asked { WereAsked R.Records records.old records.new }
    ensures never_won_back { IsTrue again.new.answers → IsTrue again.old.answers }
    ensures told { IsTrue (R.answers records.new) → IsTrue again.new.answers →
        IfOk result (λ more. IsTold (R.content records.old) holder.now.owner.party holder.now.loaded.now.book number
        again.old.state again.new.state (map posting_view telling.entry.postings.left.now)
        (map posting_view more.postings.left.now)) }
{
    let Some(item) = records.find_item(number)? else {
        return Err(Stop::Differs(Difference::Missing(number)));
    };
    match item {
        Item::Submitted(bytes) => {
            submit_again(again, number, &bytes)?;
            Ok(Telling {
                submitted: telling.submitted.saturating_add(1),
                came: telling.came,
                postings: telling.postings,
            })
        }
        Item::Came(filed) => {
            let left = take_arrival(records, holder, number, &filed, telling.postings)?;
            hear_again(again, number, &filed.bytes, &holder.at)?;
            Ok(Telling {
                submitted: telling.submitted,
                came: telling.came.saturating_add(1),
                postings: left,
            })
        }
    }
}

/// Tells the items of all numbers again.
pub(crate) fn tell_all<'a, R: Records>(
    records: &mut R,
    holder: &Holder<'_>,
    again: &mut Again,
    postings: Postings<'a>,
) -> Result<Telling<'a>, Stop>
    requires valid { R.valid records.old }
    requires plain { IsTrue (is_plain_party holder.now.owner.party) }
    requires few { holder.now.loaded.now.seq ≤ 2 ^ 63 - 1 }
    requires open { IsTrue again.old.answers →
        IsOpenAgain (owner_view holder.now.owner) again.old.state }
    requires origin { IsTrue (R.answers records.old) →
        (R.content records.old).origin ≡ owner_view holder.now.owner }
    ensures asked { WereAsked R.Records records.old records.new }
    ensures never_won_back { IsTrue again.new.answers → IsTrue again.old.answers }
    ensures told { IsTrue (R.answers records.new) → IsTrue again.new.answers →
        IfOk result (λ more. AreTold (R.content records.old) holder.now.owner.party holder.now.loaded.now.book
        holder.now.loaded.now.seq again.old.state again.new.state
        (map posting_view postings.entry.left.now)
        (map posting_view more.postings.left.now)) }
{
    let mut telling = Telling {
        submitted: 0,
        came: 0,
        postings,
    };
    for before in 0..holder.loaded.seq {
        telling = tell_item(records, holder, again, before + 1, telling)?;
    }
    Ok(telling)
}
