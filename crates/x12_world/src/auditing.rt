//! An audit: what is found of a submitted set at its sender and at its receiver.

ghost use Rattle.std.specs.Prelude.{◌≡◌, ◌<◌, All, IsTrue, is_some, true, IfErr, IfOk, bytes_eq, length};
ghost use Rattle.std.specs.Prelude.{option_and_then, option_map};
ghost use Rattle.std.specs.List.{AllPairs, list_all};
ghost use Rattle.x12_acks.specs.Key.{key_view};
ghost use Rattle.x12_inbound.specs.Posting.{posting_view};
ghost use Rattle.x12_profile.specs.X12.{x12};
ghost use Rattle.x12_station.specs.Fault.{IsOfRecords};
ghost use Rattle.x12_station.specs.History.{submissions};
ghost use Rattle.x12_station.specs.Key.{own_set};
ghost use Rattle.x12_station.specs.declared.fault.StationFault.TheVariants.{Store};
ghost use Rattle.x12_profile.specs.Stop.{CountsFailures};
ghost use Rattle.x12_world.specs.Failing.{CountsOne, CountsStation, station_failures};
ghost use Rattle.x12_world.specs.Asking.{states_of, IsMissed};
ghost use Rattle.x12_world.specs.Audit.{audit, station_named};
ghost use Rattle.x12_world.specs.Auditing.{audit_view, bytes_of_posting, first_under, held_under};
ghost use Rattle.x12_world.specs.Auditing.{held_set_view, set_under, station_among, IsReachedAudit};
ghost use Rattle.x12_world.specs.Running.{AllAnswer, all_answer};
ghost use Rattle.x12_world.specs.Submission.{NumbersRise};

use crate::asking::place_of;
use crate::placing::{Addressed, set_of_key};
use crate::refused::Refused;
use crate::world::World;
use std::alloc::Global;
use x12_acks::SetKey;
use x12_envelopes::Party;
use x12_hub::HubRecords;
use x12_inbound::Posting;
use x12_outbound::Fate;
use x12_report::Audit;
use x12_station::{Records, Station, StationFault};

/// The bytes of the interchange that alone may hold the submitted set of this key: what the station
/// submitted under the key's number. S13 and S14.
fn interchange_of<R: Records>(
    station: &mut Station<R>,
    key: &SetKey,
) -> Result<Option<Vec<u8>>, StationFault>
    ensures never_won_back { IsTrue station.new.answers → IsTrue station.old.answers }
    ensures same { IsTrue station.new.answers → station.new.state ≡ station.old.state }
    ensures alone { IsTrue station.new.answers →
        AllPairs (λ x y. x12.number x < x12.number y) (submissions station.old.state.items) →
        IfOk result (λ o. own_set x12 station.old.state.items (key_view key.now)
        ≡ option_and_then (set_under (key_view key.now)) (option_map (λ v. v.items) o)) }
    ensures fault { IfErr result IsOfRecords }
    ensures store { CountsFailures result (λ f. f ≡ Store)
        station.old.failures station.new.failures }
{
    station.submission(key.icn)
}

/// What a station has of the set of this key: as it submitted it, and how it fares. V5 and V3.
fn held_at<R: Records>(
    alloc: Global,
    station: &mut Station<R>,
    key: &SetKey,
) -> Result<Option<(Addressed, Fate)>, Refused>
    ensures never_won_back { IsTrue station.new.answers → IsTrue station.old.answers }
    ensures same { IsTrue station.new.answers → station.new.state ≡ station.old.state }
    ensures held { IsTrue station.new.answers → NumbersRise station.old.state → IfOk result (λ o.
        option_map held_set_view o ≡ held_under station.old.state (key_view key.now)) }
    ensures refused { IfErr result IsMissed }
    ensures store { CountsStation result station.old.failures station.new.failures }
{
    let Some(bytes) = interchange_of(station, key)? else {
        return Ok(None);
    };
    let Some(set) = set_of_key(alloc, &bytes, key)? else {
        return Ok(None);
    };
    match station.fate(key)? {
        Some(fate) => Ok(Some((set, fate))),
        None => Ok(None),
    }
}

/// What the station of the key's sender, if there is one, has of its set. V5 and V3.
fn held_by_sender<R: Records>(
    alloc: Global,
    stations: &mut Vec<Station<R>>,
    key: &SetKey,
) -> Result<Option<(Addressed, Fate)>, Refused>
    ensures never_won_back { IsTrue (all_answer stations.new.items) →
        IsTrue (all_answer stations.old.items) }
    ensures same { IsTrue (all_answer stations.new.items) →
        states_of stations.new.items ≡ states_of stations.old.items }
    ensures held { IsTrue (all_answer stations.new.items) →
        All NumbersRise (states_of stations.old.items) →
        IfOk result (λ o. option_map held_set_view o
        ≡ option_and_then (λ s. held_under s (key_view key.now))
        (station_among (states_of stations.old.items) key.now.sender)) }
    ensures there { IfOk result (λ o. is_some o ≡ true →
        is_some (station_among (states_of stations.old.items) key.now.sender) ≡ true) }
    ensures refused { IfErr result (λ r. IsMissed r × (is_some
        (station_among (states_of stations.old.items) key.now.sender) ≡ true)) }
    ensures len { length stations.new.items ≡ length stations.old.items }
    ensures store { CountsOne result
        (station_failures stations.old.items) (station_failures stations.new.items) }
{
    let Ok(place) = place_of(&key.sender, stations) else {
        return Ok(None);
    };
    held_at(alloc, &mut stations[place], key)
}

/// How many postings these are, none or one, and whether each has these bytes.
fn count_found(posting: &Option<Posting>, bytes: &[u8]) -> (u64, bool)
    ensures { let found = bytes_of_posting (option_map posting_view posting.now) in
        result ≡ (length found, list_all (bytes_eq bytes.now) found) }
{
    match posting {
        Some(posting) => (1, *bytes == *posting.bytes),
        None => (0, true),
    }
}

/// Whether the station of this party, if there is one, has a posting under a key: how many it finds,
/// none or one, and whether each has these bytes. V3.
fn found_by_receiver<R: Records>(
    stations: &mut Vec<Station<R>>,
    party: &Party,
    key: &SetKey,
    bytes: &[u8],
) -> Result<(Option<u64>, bool), Refused>
    ensures never_won_back { IsTrue (all_answer stations.new.items) →
        IsTrue (all_answer stations.old.items) }
    ensures same { IsTrue (all_answer stations.new.items) →
        states_of stations.new.items ≡ states_of stations.old.items }
    ensures found { IsTrue (all_answer stations.new.items) → IfOk result (λ f. f ≡ first_under
        (station_among (states_of stations.old.items) party.now) (key_view key.now) bytes.now) }
    ensures refused { IfErr result IsMissed }
    ensures len { length stations.new.items ≡ length stations.old.items }
    ensures store { CountsOne result
        (station_failures stations.old.items) (station_failures stations.new.items) }
{
    let Ok(place) = place_of(party, stations) else {
        return Ok((None, true));
    };
    let posting = stations[place].posted(key)?;
    let (count, intact) = count_found(&posting, bytes);
    Ok((Some(count), intact))
}

/// What is found of the submitted set of this key. V5 and V3.
fn audit_at<R: Records>(
    alloc: Global,
    stations: &mut Vec<Station<R>>,
    key: &SetKey,
) -> Result<Option<Audit>, Refused>
    ensures never_won_back { IsTrue (all_answer stations.new.items) →
        IsTrue (all_answer stations.old.items) }
    ensures same { IsTrue (all_answer stations.new.items) →
        states_of stations.new.items ≡ states_of stations.old.items }
    ensures audit { IsTrue (all_answer stations.new.items) → IfOk result (λ o. IsReachedAudit
        (states_of stations.old.items) (key_view key.now) (option_map audit_view o)) }
    ensures refused { IfErr result (λ r. IsMissed r × (is_some
        (station_among (states_of stations.old.items) key.now.sender) ≡ true)) }
    ensures len { length stations.new.items ≡ length stations.old.items }
    ensures store { CountsOne result
        (station_failures stations.old.items) (station_failures stations.new.items) }
{
    let Some((set, fate)) = held_by_sender(alloc, stations, key)? else {
        return Ok(None);
    };
    let found = found_by_receiver(stations, &set.receiver, key, &set.bytes)?;
    Ok(Some(Audit {
        key: *key,
        receiver: set.receiver,
        fate,
        posted: found.0,
        intact: found.1,
    }))
}

impl<R: Records, H: HubRecords> World<R, H> {
    /// What is found of the submitted transaction set of this key: how it fares at its sender, how
    /// many postings of its receiver have its key, and whether each of them is the submitted set,
    /// byte for byte. `None` where no station of the network submitted one. The network stays as it
    /// is.
    ///
    /// V5 and V3, where memory is missing or the records of a station fail.
    pub fn audit(&mut self, key: &SetKey) -> Result<Option<Audit>, Refused>
        ensures never_won_back { AllAnswer self.new → AllAnswer self.old }
        ensures same { AllAnswer self.new → self.new.world ≡ self.old.world }
        ensures audit { AllAnswer self.new → IfOk result (λ o.
            option_map audit_view o ≡ audit x12 self.old.world (key_view key.now)) }
        ensures refused { IfErr result (λ r. IsMissed r
            × (is_some (station_named self.old.world key.now.sender) ≡ true)) }
        ensures store { CountsOne result self.old.failures self.new.failures }
    {
        // law: what holds of each world that a network can reach
        crate::x12::reached();
        audit_at(self.alloc, &mut self.stations, key)
    }
}
