//! The nodes of which a network is made.

ghost use Rattle.std.specs.Prelude.{◌≡◌, ◌∷◌, ◌⊎◌, ◌&&◌, ◌||◌, not, List, All, IsTrue, IfOk, IfErr, OnOk};
ghost use Rattle.std.specs.Prelude.{◌≤◌, length, map, option_map, option_to_list};
ghost use Rattle.x12_envelopes.specs.declared.party.Party.{Party};
ghost use Rattle.x12_envelopes.specs.Party.{is_plain_party};
ghost use Rattle.std.specs.List.{list_any};
ghost use Rattle.x12_judge.specs.Agreement.{is_same_party};
ghost use Rattle.x12_profile.specs.X12.{x12};
ghost use Rattle.x12_world.specs.Network.{believed_at, parties_in};
ghost use Rattle.x12_world.specs.declared.refused.Refused.TheVariants.{BadNetwork, Memory};
ghost use Rattle.x12_world.specs.Founding.{all_differ, home_among, parties, IsMember, MakesNetwork};
ghost use Rattle.x12_world.specs.Founding.{network_of, IsNewHub};
ghost use Rattle.x12_world.specs.Reach.{IsReachable};
ghost use Rattle.x12_world.specs.Run.{new_world};
ghost use Rattle.x12_world.specs.Running.{AllAnswer, all_answer, founders_answer, founders_answers, founders_clean};
ghost use Rattle.x12_world.specs.Running.{second_answers};

use crate::admitting::is_stations;
use crate::hubs::Hubs;
use crate::refused::Refused;
use crate::world::World;
use std::alloc::{AllocError, Global};
use x12_core::{HUB_NODE, SECOND_HUB_NODE};
use x12_envelopes::Party;
use x12_hub::{Hub, HubRecords};
use x12_station::{Records, Station};

/// How many stations a network has at most.
const MAX_STATIONS: usize = 16;

/// Whether no two stations have one party.
fn differ<R: Records>(stations: &[Station<R>]) -> bool
    ensures differ { result ≡ all_differ (parties stations.now) }
    ensures plain { IsTrue result →
        All (λ p. IsTrue (is_plain_party p)) (parties stations.now) }
{
    let mut rest = stations;
    while let Some((first, behind)) = rest.split_first() {
        let party = first.party();
        if is_stations(behind, &party) {
            return false;
        }
        rest = behind;
    }
    true
}

/// The number of the hub that is a station's own, where this is the second hub's party.
fn home(second: Option<Party>, own: &Party) -> u16
    ensures { (rest : List Party) → result ≡ home_among second (own.now ∷ rest) }
{
    match second {
        Some(party) => {
            if *own == party {
                return SECOND_HUB_NODE;
            }
            HUB_NODE
        }
        None => HUB_NODE,
    }
}

/// Whether a station believes this hub, its own, and this other one, if there is one.
fn believes<R: Records>(station: &Station<R>, own: &Party, other: Option<Party>) -> bool
    ensures yes { IsTrue result → station.now.state.hubs ≡ own.now ∷ option_to_list other }
    ensures no { station.now.state.hubs ≡ own.now ∷ option_to_list other → IsTrue result }
{
    if station.hub() != *own {
        return false;
    }
    station.other() == other
}

/// Whether a station believes these hubs, its own first.
fn is_of_hubs<R: Records>(hub: &Party, second: Option<Party>, station: &Station<R>) -> bool
    ensures yes { IsTrue result → station.now.state.hubs
        ≡ believed_at hub.now second (home_among second station.now.state.hubs) }
    ensures no { station.now.state.hubs
        ≡ believed_at hub.now second (home_among second station.now.state.hubs) → IsTrue result }
{
    match second {
        Some(party) => {
            if station.hub() == party {
                return believes(station, &party, Some(*hub));
            }
            believes(station, hub, second)
        }
        None => believes(station, hub, None),
    }
}

/// Whether a station is of these hubs, and was asked to do nothing yet.
fn is_member<R: Records>(hub: &Party, second: Option<Party>, station: &Station<R>) -> bool
    ensures yes { IsTrue station.now.answers → IsTrue result →
        IsMember hub.now second station.now.state }
    ensures no { IsTrue station.now.answers →
        IsMember hub.now second station.now.state → IsTrue result }
{
    if !is_of_hubs(hub, second, station) {
        return false;
    }
    station.is_new()
}

/// Whether each station is of these hubs, and was asked to do nothing yet.
fn are_members<R: Records>(hub: &Party, second: Option<Party>, stations: &[Station<R>]) -> bool
    ensures yes { IsTrue (all_answer stations.now) → IsTrue result →
        All (λ s. IsMember hub.now second s.state) stations.now }
    ensures no { IsTrue (all_answer stations.now) →
        All (λ s. IsMember hub.now second s.state) stations.now → IsTrue result }
{
    for station in stations {
        if !is_member(hub, second, station) {
            return false;
        }
    }
    true
}

/// The party of the second hub, if there is one.
fn party_of<H: HubRecords>(second: &Option<Hub<H>>) -> Option<Party>
    ensures party { result ≡ option_map (λ k. k.me) (option_map (λ k. k.hub) second.now) }
    ensures plain { All (λ p. IsTrue (is_plain_party p)) (option_to_list result) }
{
    match second {
        Some(hub) => Some(hub.party()),
        None => None,
    }
}

/// Whether a second hub, if there is one, was asked to do nothing yet.
fn is_new_hub<H: HubRecords>(second: &Option<Hub<H>>) -> bool
    ensures yes { IsTrue (second_answers second.now) → IsTrue result →
        IsNewHub (option_map (λ k. k.hub) second.now) }
    ensures no { IsTrue (second_answers second.now) →
        IsNewHub (option_map (λ k. k.hub) second.now) → IsTrue result }
{
    match second {
        Some(hub) => hub.is_new(),
        None => true,
    }
}

/// Whether a second hub, if there is one, has a party that no other node has.
fn is_apart<R: Records>(hub: &Party, second: Option<Party>, stations: &[Station<R>]) -> bool
    ensures { result ≡ not (list_any (λ p. is_same_party p hub.now
        || list_any (is_same_party p) (parties stations.now)) (option_to_list second)) }
{
    match second {
        Some(party) => party != *hub && !is_stations(stations, &party),
        None => true,
    }
}

/// Whether these nodes make a network.
fn is_network<R: Records, H: HubRecords>(
    hub: &Hub<H>,
    second: &Option<Hub<H>>,
    stations: &[Station<R>],
) -> bool
    ensures yes { IsTrue (founders_answer hub.now second.now stations.now) → IsTrue result →
        MakesNetwork hub.now.hub (option_map (λ k. k.hub) second.now) stations.now }
    ensures no { IsTrue (founders_answer hub.now second.now stations.now) →
        MakesNetwork hub.now.hub (option_map (λ k. k.hub) second.now) stations.now → IsTrue result }
    ensures few { IsTrue result → length stations.now ≤ 16 }
    ensures plain { IsTrue result → All (λ p. IsTrue (is_plain_party p)) (parties_in
        (network_of hub.now.hub (option_map (λ k. k.hub) second.now) stations.now)) }
{
    let (party, other, count) = (hub.party(), party_of(second), stations.len());
    if count == 0 || count > MAX_STATIONS {
        return false;
    }
    if is_stations(stations, &party) {
        return false;
    }
    if !is_apart(&party, other, stations) {
        return false;
    }
    if !differ(stations) {
        return false;
    }
    if !are_members(&party, other, stations) {
        return false;
    }
    hub.is_new() && is_new_hub(second)
}

/// The number of each station's hub.
fn homes_of<R: Records>(
    alloc: Global,
    second: Option<Party>,
    stations: &[Station<R>],
) -> Result<Vec<u16>, AllocError>
    ensures { IfOk result (λ v.
        v.items ≡ map (λ s. home_among second s.state.hubs) stations.now) }
{
    let mut homes = Vec::with_capacity(alloc, stations.len())?;
    for station in stations {
        homes.push(home(second, &station.hub()))?;
    }
    Ok(homes)
}

impl<R: Records, H: HubRecords> World<R, H> {
    /// A network of a hub and its stations, in the order of their nodes from 1, and of a second hub, if
    /// there is one: nothing was sent yet.
    ///
    /// V6, with the nodes back: no station or more than 16, two nodes with one party, a station that
    /// doesn't believe these hubs and no other, or a node that was asked to do something already.
    /// V5, likewise.
    pub fn new(
        alloc: Global,
        hub: Hub<H>,
        second: Option<Hub<H>>,
        stations: Vec<Station<R>>,
    ) -> Result<World<R, H>, (Hub<H>, Option<Hub<H>>, Vec<Station<R>>, Refused)>
        ensures answers { IfOk result (λ w.
            w.answers ≡ founders_answers hub second stations.items) }
        ensures clean { IfOk result (λ w. w.clean ≡ founders_clean hub second stations.items) }
        ensures new { IfOk result (λ w. AllAnswer w → w.world
            ≡ new_world (network_of hub.hub (option_map (λ k. k.hub) second) stations.items)) }
        ensures reached { IfOk result (λ w. AllAnswer w → IsReachable x12 w.world) }
        ensures network { IsTrue (founders_answer hub second stations.items) → OnOk result
            (MakesNetwork hub.hub (option_map (λ k. k.hub) second) stations.items) }

        ensures refused { IfErr result (λ e. (e.3 ≡ Memory) ⊎ ((e.3 ≡ BadNetwork)
            × (IsTrue (founders_answer hub second stations.items) →
            ¬ (MakesNetwork hub.hub (option_map (λ k. k.hub) second) stations.items)))) }
        ensures back { IfErr result (λ e.
            (e.0 ≡ hub) × (e.1 ≡ second) × (e.2.items ≡ stations.items)) }
    {
        // law: what holds of each world that a network can reach
        crate::x12::reached();
        if !is_network(&hub, &second, &stations) {
            return Err((hub, second, stations, Refused::BadNetwork));
        }
        let Ok(homes) = homes_of(alloc, party_of(&second), &stations) else {
            return Err((hub, second, stations, Refused::Memory));
        };
        Ok(World {
            alloc,
            hubs: Hubs {
                first: hub,
                second,
                homes,
            },
            stations,
            held: Vec::new(alloc),
            submitted: Vec::new(alloc),
        })
    }
}
