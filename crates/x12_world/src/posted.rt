//! The postings of stations, by their keys.

ghost use Rattle.std.specs.Prelude.{◌≡◌, ◌∷◌, ◌++◌, ◌+◌, [], false, IsTrue, IfErr, IfOk, OnOk, cond, length, map, bytes_eq};
ghost use Rattle.std.specs.List.{list_all};
ghost use Rattle.x12_acks.specs.Key.{is_same_key, key_view};
ghost use Rattle.x12_acks.specs.declared.key.SetKey.{SetKey};
ghost use Rattle.x12_inbound.specs.Posting.{posting_view};
ghost use Rattle.x12_world.specs.Failing.{CountsOne, CountsStation, station_failures};
ghost use Rattle.x12_world.specs.Asking.{states_of, IsMissed};
ghost use Rattle.x12_world.specs.Posted.{bytes_under, ArePosted, IsByKey, IsOneMore};
ghost use Rattle.x12_world.specs.Running.{all_answer};

use crate::refused::Refused;
use std::alloc::{AllocError, Global};
use std::collections::BTreeMap;
use x12_acks::SetKey;
use x12_inbound::Posting;
use x12_station::{Records, Station};

/// The bytes of the postings under each key, in the order of their arrival.
pub(crate) type Posted = BTreeMap<SetKey, Vec<Vec<u8>>>;

/// Takes out what stands under a key.
fn take_under(alloc: Global, posted: &mut Posted, key: &SetKey) -> Vec<Vec<u8>>
    ensures taken { map (λ b. b.items) result.items ≡ bytes_under posted.old key.now }
    ensures others { (k : SetKey) → is_same_key (key_view key.now) (key_view k) ≡ false →
        bytes_under posted.new k ≡ bytes_under posted.old k }
{
    match posted.remove(key) {
        Some(under) => under,
        None => Vec::new(alloc),
    }
}

/// Puts the bytes of a posting behind those that stand under its key.
fn push_under(alloc: Global, posted: &mut Posted, posting: Posting) -> Result<(), AllocError>
    ensures { OnOk result ((k : SetKey) → bytes_under posted.new k ≡ bytes_under posted.old k
        ++ cond (is_same_key (key_view k) (key_view posting.key)) (posting.bytes.items ∷ []) []) }
{
    let key = posting.key;
    let mut under = take_under(alloc, posted, &key);
    under.push(posting.bytes)?;
    posted.insert(key, under)?;
    Ok(())
}

/// The bytes of postings, by key.
fn by_key(alloc: Global, postings: Vec<Posting>) -> Result<Posted, AllocError>
    ensures { IfOk result (λ m. IsByKey m (map posting_view postings.items)) }
{
    let mut posted = BTreeMap::new(alloc);
    for posting in postings {
        push_under(alloc, &mut posted, posting)?;
    }
    Ok(posted)
}

/// Puts the postings of a station, by key, behind others. V5 and V3.
fn push_posted<R: Records>(
    alloc: Global,
    all: &mut Vec<Posted>,
    station: &mut Station<R>,
) -> Result<(), Refused>
    ensures never_won_back { IsTrue station.new.answers → IsTrue station.old.answers }
    ensures same { IsTrue station.new.answers → station.new.state ≡ station.old.state }
    ensures posted { IsTrue station.new.answers →
        OnOk result (IsOneMore station.old.state all.old.items all.new.items) }
    ensures count { OnOk result (length all.new.items ≡ length all.old.items + 1) }
    ensures refused { IfErr result IsMissed }
    ensures store { CountsStation result station.old.failures station.new.failures }
{
    let postings = station.postings()?;
    let posted = by_key(alloc, postings)?;
    Ok(all.push(posted)?)
}

/// The postings of each station, by key. V5 and V3.
pub(crate) fn posted_by_all<R: Records>(
    alloc: Global,
    stations: &mut Vec<Station<R>>,
) -> Result<Vec<Posted>, Refused>
    ensures never_won_back { IsTrue (all_answer stations.new.items) →
        IsTrue (all_answer stations.old.items) }
    ensures same { IsTrue (all_answer stations.new.items) →
        states_of stations.new.items ≡ states_of stations.old.items }
    ensures posted { IsTrue (all_answer stations.new.items) →
        IfOk result (λ v. ArePosted (states_of stations.old.items) v.items) }
    ensures each { IfOk result (λ v. length v.items ≡ length stations.old.items) }
    ensures refused { IfErr result IsMissed }
    ensures len { length stations.new.items ≡ length stations.old.items }
    ensures store { CountsOne result
        (station_failures stations.old.items) (station_failures stations.new.items) }
{
    let mut all = Vec::new(alloc);
    for place in 0..stations.len() {
        push_posted(alloc, &mut all, &mut stations[place])?;
    }
    Ok(all)
}

/// Whether all have these bytes.
fn are_all(all: &[Vec<u8>], bytes: &[u8]) -> bool
    ensures { result ≡ list_all (bytes_eq bytes.now) (map (λ b. b.items) all.now) }
{
    for one in all {
        if *bytes != **one {
            return false;
        }
    }
    true
}

/// How many postings have a key, and whether each of them has these bytes.
pub(crate) fn tally(posted: &Posted, key: &SetKey, bytes: &[u8]) -> (u64, bool)
    ensures count { result.0 ≡ length (bytes_under posted.now key.now) }
    ensures intact { result.1 ≡ list_all (bytes_eq bytes.now) (bytes_under posted.now key.now) }
{
    match posted.get(key) {
        Some(under) => (under.len() as u64, are_all(under, bytes)),
        None => (0, true),
    }
}
