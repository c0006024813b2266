//! What a network is asked of its stations.

ghost use Rattle.std.specs.Prelude.{◌≡◌, ◌<◌, IsTrue, IfOk, IfErr, None, find, is_some};
ghost use Rattle.std.specs.Prelude.{length, map, slice_get};
ghost use Rattle.x12_acks.specs.Key.{key_view};
ghost use Rattle.x12_inbound.specs.Posting.{posting_view};
ghost use Rattle.x12_judge.specs.Agreement.{is_same_party};
ghost use Rattle.x12_profile.specs.X12.{x12};
ghost use Rattle.x12_station.specs.History.{postings};
ghost use Rattle.x12_world.specs.declared.refused.Refused.TheVariants.{NoSuchNode};
ghost use Rattle.x12_world.specs.Asking.{HoldsByKey, PartyAnswers, IsAskRefused, IsSaidAt, IsUnanswered};
ghost use Rattle.x12_world.specs.Asking.{states_of};
ghost use Rattle.x12_world.specs.Audit.{station_named};
ghost use Rattle.x12_world.specs.Failing.{CountsOne, station_failures};
ghost use Rattle.x12_world.specs.Running.{BesideAnyHubs, NoneWonBack, AnswersIfStation};
ghost use Rattle.x12_world.specs.Running.{answers_at, station_answers, station_nodes};

use crate::admitting::is_station;
use crate::refused::Refused;
use crate::world::World;
use x12_acks::SetKey;
use x12_core::NodeFault;
use x12_envelopes::Party;
use x12_hub::HubRecords;
use x12_inbound::Posting;
use x12_outbound::{Counts, Fate};
use x12_station::{Records, Station};

/// The place of the station of this party among the stations. V4.
pub(crate) fn place_of<R: Records>(party: &Party, stations: &[Station<R>]) -> Result<usize, Refused>
    ensures there { IfOk result (λ place. (place < length stations.now)
        × (find (λ s. is_same_party s.me party.now) (states_of stations.now)
        ≡ slice_get (states_of stations.now) place)) }
    ensures none { IfErr result (λ e. (e ≡ NoSuchNode)
        × (find (λ s. is_same_party s.me party.now) (states_of stations.now) ≡ None)) }
{
    for (place, station) in stations.iter().enumerate() {
        if station.party() == *party {
            return Ok(place);
        }
    }
    Err(Refused::NoSuchNode)
}

/// The postings of the station of a node. V4, V3.
fn postings_at<R: Records>(
    stations: &mut Vec<Station<R>>,
    node: u16,
) -> Result<Vec<Posting>, Refused>
    ensures never_won_back { NoneWonBack (station_answers stations.old.items) (station_answers stations.new.items) }
    ensures same { AnswersIfStation stations.old.items stations.new.items node →
        station_nodes stations.new.items ≡ station_nodes stations.old.items }
    ensures postings { AnswersIfStation stations.old.items stations.new.items node →
        IfOk result (λ v. BesideAnyHubs stations.old.items (λ nodes. IsSaidAt nodes node
        (λ s. map posting_view v.items ≡ postings x12 s.items))) }
    ensures refused { IfErr result (λ r.
        BesideAnyHubs stations.old.items (λ nodes. IsAskRefused nodes node r)) }
    ensures store { CountsOne result
        (station_failures stations.old.items) (station_failures stations.new.items) }
    ensures len { length stations.new.items ≡ length stations.old.items }
{
    if !is_station(stations, node) {
        return Err(Refused::NoSuchNode);
    }
    let station = &mut stations[node as usize - 1];
    match station.postings() {
        Ok(postings) => Ok(postings),
        Err(fault) => Err(Refused::Node(NodeFault::OfStation(fault))),
    }
}

/// What the evidence of its arrivals did at the station of a node. V4.
fn counts_at<R: Records>(stations: &[Station<R>], node: u16) -> Result<Counts, Refused>
    ensures counts { IfOk result (λ c.
        BesideAnyHubs stations.now (λ nodes. IsSaidAt nodes node (λ s. c ≡ s.counts))) }
    ensures refused { IfErr result (λ r.
        BesideAnyHubs stations.now (λ nodes. IsAskRefused nodes node r)) }
{
    if !is_station(stations, node) {
        return Err(Refused::NoSuchNode);
    }
    let station = &stations[node as usize - 1];
    Ok(station.counts())
}

impl<R: Records, H: HubRecords> World<R, H> {
    /// How the transaction set of this key fares at the station of the key's sender; `None` of one
    /// that this station never submitted.
    ///
    /// V4 where no station is of the key's sender; V3. The network stays as it is.
    pub fn fate(&mut self, key: &SetKey) -> Result<Option<Fate>, Refused>
        ensures never_won_back { NoneWonBack self.old.answers self.new.answers }
        ensures same { PartyAnswers self.old.world key.now.sender self.new →
            self.new.world ≡ self.old.world }
        ensures fate { PartyAnswers self.old.world key.now.sender self.new →
            IfOk result (HoldsByKey self.old.world (key_view key.now)) }
        ensures refused { IfErr result
            (IsUnanswered (is_some (station_named self.old.world key.now.sender))) }
        ensures store { CountsOne result self.old.failures self.new.failures }
    {
        let place = place_of(&key.sender, &self.stations)?;
        Ok(self.stations[place].fate(key)?)
    }

    /// The postings of the station of this node, in the order of their arrival. The network stays as
    /// it is.
    ///
    /// V4 where the node is no station; V3 where its records fail or miss memory.
    pub fn postings(&mut self, node: u16) -> Result<Vec<Posting>, Refused>
        ensures never_won_back { NoneWonBack self.old.answers self.new.answers }
        ensures same { IsTrue (answers_at self.new node) → self.new.world ≡ self.old.world }
        ensures postings { IsTrue (answers_at self.new node) → IfOk result (λ v.
            IsSaidAt self.old.world.nodes node
            (λ s. map posting_view v.items ≡ postings x12 s.items)) }
        ensures refused { IfErr result (IsAskRefused self.old.world.nodes node) }
        ensures store { CountsOne result self.old.failures self.new.failures }
    {
        postings_at(&mut self.stations, node)
    }

    /// What the evidence of its arrivals did at the station of this node, since it was opened or
    /// restarted. V4 where the node is no station.
    pub fn counts(&self, node: u16) -> Result<Counts, Refused>
        ensures counts { IfOk result (λ c.
            IsSaidAt self.now.world.nodes node (λ s. c ≡ s.counts)) }
        ensures refused { IfErr result (IsAskRefused self.now.world.nodes node) }
    {
        counts_at(&self.stations, node)
    }
}
