//! The sets of all that was submitted, each once, in the order of their keys.

ghost use Rattle.std.specs.Prelude.{◌≡◌, ◌++◌, All, IsTrue, IfOk, IfErr, OnOk, flat_map, length, map};
ghost use Rattle.std.specs.List.Sorted.{IsPermutation};
ghost use Rattle.x12_acks.specs.Key.{key_view};
ghost use Rattle.x12_inbound.specs.Order.{set_order};
ghost use Rattle.x12_profile.specs.X12.{x12};
ghost use Rattle.x12_world.specs.Failing.{CountsOne, CountsStation, station_failures};
ghost use Rattle.x12_world.specs.Asking.{IsMissed, states_of};
ghost use Rattle.x12_world.specs.Audit.{keys_of};
ghost use Rattle.x12_world.specs.Listing.{keys_of_sets, sets_of_stations, outgoing_under, AreKeysOf};
ghost use Rattle.x12_world.specs.Listing.{AreSetsOf, KeysRise};
ghost use Rattle.x12_world.specs.Placing.{outgoing_view};
ghost use Rattle.x12_world.specs.Running.{AllAnswer, all_answer};
ghost use Rattle.x12_world.specs.Submission.{numbers_at, AreListed, NumbersRise};

use crate::placing::{OutgoingSet, push_sets};
use crate::refused::Refused;
use crate::world::World;
use std::alloc::{AllocError, Global};
use std::cmp::Ordering;
use x12_acks::SetKey;
use x12_core::Listed;
use x12_hub::HubRecords;
use x12_station::{Records, Station};

/// Compares two keys: by the sender's qualifier and identifier, then by the number of the
/// interchange, then by the places.
fn compare(key: &SetKey, other: &SetKey) -> Ordering
    ensures { result ≡ set_order (key_view key.now) (key_view other.now) }
{
    key.sender
        .cmp(&other.sender)
        .then(key.icn.cmp(&other.icn))
        .then(key.group.cmp(&other.group))
        .then(key.set.cmp(&other.set))
}

/// Puts the sets that a station submitted under a number behind others. V5 and V3.
fn push_submission<R: Records>(
    alloc: Global,
    sets: &mut Vec<OutgoingSet>,
    station: &mut Station<R>,
    icn: u32,
) -> Result<(), Refused>
    ensures never_won_back { IsTrue station.new.answers → IsTrue station.old.answers }
    ensures same { IsTrue station.new.answers → station.new.state ≡ station.old.state }
    ensures sets { IsTrue station.new.answers → OnOk result (map outgoing_view sets.new.items
        ≡ map outgoing_view sets.old.items ++ outgoing_under station.old.state.items icn) }
    ensures refused { IfErr result IsMissed }
    ensures store { CountsStation result station.old.failures station.new.failures }
{
    match station.submission(icn)? {
        Some(bytes) => Ok(push_sets(alloc, sets, &bytes)?),
        None => Ok(()),
    }
}

/// Puts the sets of all that is listed of a station behind others. V5 and V3.
fn push_station<R: Records>(
    alloc: Global,
    sets: &mut Vec<OutgoingSet>,
    station: &mut Station<R>,
    node: usize,
    submitted: &[Listed],
) -> Result<(), Refused>
    ensures never_won_back { IsTrue station.new.answers → IsTrue station.old.answers }
    ensures same { IsTrue station.new.answers → station.new.state ≡ station.old.state }
    ensures sets { IsTrue station.new.answers → OnOk result (map outgoing_view sets.new.items
        ≡ map outgoing_view sets.old.items
        ++ flat_map (outgoing_under station.old.state.items) (numbers_at node submitted.now)) }
    ensures refused { IfErr result IsMissed }
    ensures store { CountsStation result station.old.failures station.new.failures }
{
    for submission in submitted {
        if usize::from(submission.node) != node {
            continue;
        }
        push_submission(alloc, sets, station, submission.icn)?;
    }
    Ok(())
}

/// The sets of all that is listed, station by station. V5 and V3.
fn gather<R: Records>(
    alloc: Global,
    stations: &mut Vec<Station<R>>,
    submitted: &[Listed],
) -> Result<Vec<OutgoingSet>, Refused>
    ensures never_won_back { IsTrue (all_answer stations.new.items) →
        IsTrue (all_answer stations.old.items) }
    ensures same { IsTrue (all_answer stations.new.items) →
        states_of stations.new.items ≡ states_of stations.old.items }
    ensures sets { IsTrue (all_answer stations.new.items) →
        AreListed (states_of stations.old.items) submitted.now →
        All NumbersRise (states_of stations.old.items) →
        IfOk result (λ v. map outgoing_view v.items
        ≡ sets_of_stations (states_of stations.old.items)) }
    ensures refused { IfErr result IsMissed }
    ensures len { length stations.new.items ≡ length stations.old.items }
    ensures store { CountsOne result
        (station_failures stations.old.items) (station_failures stations.new.items) }
{
    let mut sets = Vec::new(alloc);
    for place in 0..stations.len() {
        push_station(alloc, &mut sets, &mut stations[place], place + 1, submitted)?;
    }
    Ok(sets)
}

/// The sets of all that is listed, by rising key. V5 and V3.
pub(crate) fn sets_among<R: Records>(
    alloc: Global,
    stations: &mut Vec<Station<R>>,
    submitted: &[Listed],
) -> Result<Vec<OutgoingSet>, Refused>
    ensures never_won_back { IsTrue (all_answer stations.new.items) →
        IsTrue (all_answer stations.old.items) }
    ensures same { IsTrue (all_answer stations.new.items) →
        states_of stations.new.items ≡ states_of stations.old.items }
    ensures sets { IsTrue (all_answer stations.new.items) →
        AreListed (states_of stations.old.items) submitted.now →
        All NumbersRise (states_of stations.old.items) →
        IfOk result (λ v. AreSetsOf (states_of stations.old.items) (map outgoing_view v.items)) }
    ensures refused { IfErr result IsMissed }
    ensures len { length stations.new.items ≡ length stations.old.items }
    ensures store { CountsOne result
        (station_failures stations.old.items) (station_failures stations.new.items) }
{
    let mut sets = gather(alloc, stations, submitted)?;
    sets.sort_unstable_by(|one, other| compare(&one.key, &other.key));
    Ok(sets)
}

/// The keys of sets, in their order.
fn keys_alone(alloc: Global, sets: &[OutgoingSet]) -> Result<Vec<SetKey>, AllocError>
    ensures { IfOk result (λ v. map key_view v.items ≡ keys_of_sets (map outgoing_view sets.now)) }
{
    let mut keys = Vec::with_capacity(alloc, sets.len())?;
    for set in sets {
        keys.push(set.key)?;
    }
    Ok(keys)
}

/// The keys of all that is listed, by rising key. V5 and V3.
fn keys_among<R: Records>(
    alloc: Global,
    stations: &mut Vec<Station<R>>,
    submitted: &[Listed],
) -> Result<Vec<SetKey>, Refused>
    ensures never_won_back { IsTrue (all_answer stations.new.items) →
        IsTrue (all_answer stations.old.items) }
    ensures same { IsTrue (all_answer stations.new.items) →
        states_of stations.new.items ≡ states_of stations.old.items }
    ensures keys { IsTrue (all_answer stations.new.items) →
        AreListed (states_of stations.old.items) submitted.now →
        All NumbersRise (states_of stations.old.items) →
        IfOk result (λ v. AreKeysOf (states_of stations.old.items) (map key_view v.items)) }
    ensures refused { IfErr result IsMissed }
    ensures len { length stations.new.items ≡ length stations.old.items }
    ensures store { CountsOne result
        (station_failures stations.old.items) (station_failures stations.new.items) }
{
    let sets = sets_among(alloc, stations, submitted)?;
    Ok(keys_alone(alloc, &sets)?)
}

impl<R: Records, H: HubRecords> World<R, H> {
    /// The key of each transaction set that the stations submitted, once, by rising key: by the
    /// sender's qualifier and identifier, byte by byte, then by the number of the interchange, then by
    /// the place of the group, then by the place of the set. The network stays as it is.
    ///
    /// V5 and V3, where memory is missing or the records of a station fail.
    pub fn keys(&mut self) -> Result<Vec<SetKey>, Refused>
        ensures never_won_back { AllAnswer self.new → AllAnswer self.old }
        ensures same { AllAnswer self.new → self.new.world ≡ self.old.world }
        ensures all { AllAnswer self.new → IfOk result (λ v.
            IsPermutation (keys_of x12 self.old.world) (map key_view v.items)) }
        ensures rise { AllAnswer self.new → IfOk result (λ v.
            KeysRise (map key_view v.items)) }
        ensures refused { IfErr result IsMissed }
        ensures store { CountsOne result self.old.failures self.new.failures }
    {
        // law: what holds of each world that a network can reach
        crate::x12::reached();
        keys_among(self.alloc, &mut self.stations, &self.submitted)
    }
}
