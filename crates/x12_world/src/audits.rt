//! The audits of all that the stations submitted.

ghost use Rattle.std.specs.Prelude.{◌≡◌, ◌++◌, All, IsTrue, IfErr, IfOk, OnOk, length, map, option_and_then, option_map};
ghost use Rattle.std.specs.Prelude.{option_to_list};
ghost use Rattle.x12_acks.specs.Key.{key_view};
ghost use Rattle.x12_profile.specs.X12.{x12};
ghost use Rattle.x12_station.specs.StationStep.{fate_by_key};
ghost use Rattle.x12_world.specs.Failing.{CountsOne, CountsStation, station_failures};
ghost use Rattle.x12_world.specs.Asking.{states_of, IsMissed};
ghost use Rattle.x12_world.specs.Audit.{audit, stations_of};
ghost use Rattle.x12_world.specs.Auditing.{audit_view, found_under, station_among, IsAuditAmong};
ghost use Rattle.x12_world.specs.Audits.{audits_under, AreAudits, HasStations};
ghost use Rattle.x12_world.specs.Listing.{keys_of_sets, IsSubmittedBy};
ghost use Rattle.x12_world.specs.Placing.{outgoing_view};
ghost use Rattle.x12_world.specs.Posted.{ArePosted};
ghost use Rattle.x12_world.specs.Running.{all_answer};
ghost use Rattle.x12_world.specs.World.{World};

use crate::asking::place_of;
use crate::listing::sets_among;
use crate::placing::OutgoingSet;
use crate::posted::{Posted, posted_by_all, tally};
use crate::refused::Refused;
use std::alloc::Global;
use x12_acks::SetKey;
use x12_core::Listed;
use x12_envelopes::Party;
use x12_outbound::Fate;
use x12_report::Audit;
use x12_station::{Records, Station};

/// How many postings the station of this party, if there is one, has under a key, and whether each has
/// these bytes.
fn found_among<R: Records>(
    stations: &[Station<R>],
    posted: &[Posted],
    party: &Party,
    key: &SetKey,
    bytes: &[u8],
) -> (Option<u64>, bool)
    requires { length posted.now ≡ length stations.now }
    ensures { ArePosted (states_of stations.now) posted.now → result ≡ found_under
        (station_among (states_of stations.now) party.now) (key_view key.now) bytes.now }
{
    let Ok(place) = place_of(party, stations) else {
        return (None, true);
    };
    let found = tally(&posted[place], key, bytes);
    (Some(found.0), found.1)
}

/// How the set of this key fares at a station; `None` where that submitted none. V5 and V3.
fn fate_at<R: Records>(station: &mut Station<R>, key: &SetKey) -> Result<Option<Fate>, Refused>
    ensures never_won_back { IsTrue station.new.answers → IsTrue station.old.answers }
    ensures same { IsTrue station.new.answers → station.new.state ≡ station.old.state }
    ensures fate { IsTrue station.new.answers →
        IfOk result (λ o. o ≡ fate_by_key x12 station.old.state (key_view key.now)) }
    ensures refused { IfErr result IsMissed }
    ensures store { CountsStation result station.old.failures station.new.failures }
{
    Ok(station.fate(key)?)
}

/// How a set fares at the station of its key's sender; `None` where that submitted none. V5 and V3.
fn fate_by_sender<R: Records>(
    stations: &mut Vec<Station<R>>,
    key: &SetKey,
) -> Result<Option<Fate>, Refused>
    ensures never_won_back { IsTrue (all_answer stations.new.items) →
        IsTrue (all_answer stations.old.items) }
    ensures same { IsTrue (all_answer stations.new.items) →
        states_of stations.new.items ≡ states_of stations.old.items }
    ensures fate { IsTrue (all_answer stations.new.items) → IfOk result (λ o. o
        ≡ option_and_then (λ s. fate_by_key x12 s (key_view key.now))
        (station_among (states_of stations.old.items) key.now.sender)) }
    ensures refused { IfErr result IsMissed }
    ensures len { length stations.new.items ≡ length stations.old.items }
    ensures store { CountsOne result
        (station_failures stations.old.items) (station_failures stations.new.items) }
{
    let Ok(place) = place_of(&key.sender, stations) else {
        return Ok(None);
    };
    fate_at(&mut stations[place], key)
}

/// What is found of a submitted set. V5 and V3.
fn audit_with<R: Records>(
    stations: &mut Vec<Station<R>>,
    posted: &[Posted],
    sent: &OutgoingSet,
) -> Result<Option<Audit>, Refused>
    requires { length posted.now ≡ length stations.old.items }
    ensures never_won_back { IsTrue (all_answer stations.new.items) →
        IsTrue (all_answer stations.old.items) }
    ensures same { IsTrue (all_answer stations.new.items) →
        states_of stations.new.items ≡ states_of stations.old.items }
    ensures audit { IsTrue (all_answer stations.new.items) →
        IsSubmittedBy (states_of stations.old.items) (outgoing_view sent.now) →
        ArePosted (states_of stations.old.items) posted.now → IfOk result (λ o. IsAuditAmong
        (states_of stations.old.items) (key_view sent.now.key) (option_map audit_view o)) }
    ensures refused { IfErr result IsMissed }
    ensures len { length stations.new.items ≡ length stations.old.items }
    ensures store { CountsOne result
        (station_failures stations.old.items) (station_failures stations.new.items) }
{
    let Some(fate) = fate_by_sender(stations, &sent.key)? else {
        return Ok(None);
    };
    let receiver = sent.set.receiver;
    let found = found_among(stations, posted, &receiver, &sent.key, &sent.set.bytes);
    Ok(Some(Audit {
        key: sent.key,
        receiver,
        fate,
        posted: found.0,
        intact: found.1,
    }))
}

/// Puts what is found of a submitted set behind others. V5 and V3.
fn push_audit<R: Records>(
    found: &mut Vec<Audit>,
    stations: &mut Vec<Station<R>>,
    posted: &[Posted],
    sent: &OutgoingSet,
) -> Result<(), Refused>
    requires { length posted.now ≡ length stations.old.items }
    ensures never_won_back { IsTrue (all_answer stations.new.items) →
        IsTrue (all_answer stations.old.items) }
    ensures same { IsTrue (all_answer stations.new.items) →
        states_of stations.new.items ≡ states_of stations.old.items }
    ensures found { (w : World) → stations_of w ≡ states_of stations.old.items →
        IsTrue (all_answer stations.new.items) →
        IsSubmittedBy (states_of stations.old.items) (outgoing_view sent.now) →
        ArePosted (states_of stations.old.items) posted.now →
        OnOk result (map audit_view found.new.items ≡ map audit_view found.old.items
        ++ option_to_list (audit x12 w (key_view sent.now.key))) }
    ensures refused { IfErr result IsMissed }
    ensures len { length stations.new.items ≡ length stations.old.items }
    ensures store { CountsOne result
        (station_failures stations.old.items) (station_failures stations.new.items) }
{
    match audit_with(stations, posted, sent)? {
        Some(audit) => Ok(found.push(audit)?),
        None => Ok(()),
    }
}

/// What is found of these submitted sets, in their order. V5 and V3.
fn audit_each<R: Records>(
    alloc: Global,
    stations: &mut Vec<Station<R>>,
    posted: &[Posted],
    sets: &[OutgoingSet],
) -> Result<Vec<Audit>, Refused>
    requires { length posted.now ≡ length stations.old.items }
    ensures never_won_back { IsTrue (all_answer stations.new.items) →
        IsTrue (all_answer stations.old.items) }
    ensures same { IsTrue (all_answer stations.new.items) →
        states_of stations.new.items ≡ states_of stations.old.items }
    ensures found { (w : World) → stations_of w ≡ states_of stations.old.items →
        IsTrue (all_answer stations.new.items) →
        All (λ s. IsSubmittedBy (states_of stations.old.items) (outgoing_view s)) sets.now →
        ArePosted (states_of stations.old.items) posted.now → IfOk result (λ v.
        map audit_view v.items ≡ audits_under w (keys_of_sets (map outgoing_view sets.now))) }
    ensures refused { IfErr result IsMissed }
    ensures len { length stations.new.items ≡ length stations.old.items }
    ensures store { CountsOne result
        (station_failures stations.old.items) (station_failures stations.new.items) }
{
    let mut found = Vec::with_capacity(alloc, sets.len())?;
    for sent in sets {
        push_audit(&mut found, stations, posted, sent)?;
    }
    Ok(found)
}

/// The audit of each transaction set that these stations submitted, by rising key, where `submitted`
/// has of each station, by its node from 1, the numbers of what it submitted, in their order: so it is
/// in each network with these stations that runs, or ran. The stations stay as they are.
///
/// V5 and V3, where memory is missing or the records of a station fail.
pub fn audit_all<R: Records>(
    alloc: Global,
    stations: &mut Vec<Station<R>>,
    submitted: &[Listed],
) -> Result<Vec<Audit>, Refused>
    ensures never_won_back { IsTrue (all_answer stations.new.items) →
        IsTrue (all_answer stations.old.items) }
    ensures same { IsTrue (all_answer stations.new.items) →
        states_of stations.new.items ≡ states_of stations.old.items }
    ensures audits { (w : World) → HasStations w (states_of stations.old.items) submitted.now →
        IsTrue (all_answer stations.new.items) →
        IfOk result (λ v. AreAudits w (map audit_view v.items)) }
    ensures refused { IfErr result IsMissed }
    ensures len { length stations.new.items ≡ length stations.old.items }
    ensures store { CountsOne result
        (station_failures stations.old.items) (station_failures stations.new.items) }
{
    // law: what holds of each world that a network can reach
    crate::x12::reached();
    let sets = sets_among(alloc, stations, submitted)?;
    let posted = posted_by_all(alloc, stations)?;
    audit_each(alloc, stations, &posted, &sets)
}
