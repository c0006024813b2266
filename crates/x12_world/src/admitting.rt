//! The network's own table of refusals: V7, V4, V1 and V2, in this order.

ghost use Rattle.std.specs.Prelude.{◌≡◌, ◌≤◌, ◌+◌, ℕ, IsTrue, length, map, None, IfOk, IfErr, OnOk, vec_len};
ghost use Rattle.std.specs.Prelude.{is_some, option_map, List, Vec};
ghost use Rattle.std.specs.Global.{Global};
ghost use Rattle.std.specs.List.{list_any};
ghost use Rattle.x12_judge.specs.Agreement.{is_same_party};
ghost use Rattle.x12_profile.specs.X12.{x12};
ghost use Rattle.x12_core.specs.declared.packet.Packet.{Packet};
ghost use Rattle.x12_core.specs.Node.{is_station, party_of_node};
ghost use Rattle.x12_core.specs.View.{ref_view};
ghost use Rattle.x12_world.specs.EventRefusal.{has_nodes, is_spoken_for, is_there, may_be_asked};
ghost use Rattle.x12_world.specs.EventRefusal.{network_refusal};
ghost use Rattle.x12_world.specs.EventView.{asked_view, event_view};
ghost use Rattle.x12_world.specs.Failing.{SaysOneFailed};
ghost use Rattle.x12_world.specs.Refusing.{IsOfNetwork};
ghost use Rattle.x12_world.specs.Nodes.{all_nodes, node_at};
ghost use Rattle.x12_world.specs.Running.{BesideAnyHubs, HasNumbers, hubs_in, nodes_of, world_of};

use crate::asked::asked;
use crate::event::Event;
use crate::hubs::Hubs;
use crate::packets::Held;
use crate::refused::Refused;
use x12_core::{AskRef, HUB_NODE};
use x12_envelopes::{Party, read_header};
use x12_hub::HubRecords;
use x12_station::{Records, Station};

/// Whether a node is one of these stations.
pub(crate) fn is_station<R: Records>(stations: &[Station<R>], node: u16) -> bool
    ensures number { IsTrue result → (1 ≤ node) × (node ≤ length stations.now) }
    ensures station { BesideAnyHubs stations.now
        (λ nodes. result ≡ is_station (node_at nodes node)) }
{
    if node == HUB_NODE {
        return false;
    }
    node as usize <= stations.len()
}

/// Whether there is a node of this number.
fn is_node<R: Records, H: HubRecords>(hubs: &Hubs<H>, stations: &[Station<R>], node: u16) -> bool
    ensures { HasNumbers (hubs_in hubs.now) stations.now →
        result ≡ is_some (node_at (nodes_of (hubs_in hubs.now) stations.now) node) }
{
    if hubs.have(node) {
        return true;
    }
    is_station(stations, node)
}

/// Whether the node of this number is there, and of the kind that is asked so.
fn may_be_asked<R: Records, H: HubRecords>(
    hubs: &Hubs<H>,
    stations: &[Station<R>],
    node: u16,
    ask: &AskRef<'_>,
) -> bool
    ensures { HasNumbers (hubs_in hubs.now) stations.now → result ≡ may_be_asked node
        (ref_view ask.now) (node_at (nodes_of (hubs_in hubs.now) stations.now) node) }
{
    if hubs.have(node) {
        return ask.suits_hub(node);
    }
    is_station(stations, node) && ask.suits_station()
}

/// Whether there is a node of this number, where one is given.
fn is_there<R: Records, H: HubRecords>(
    hubs: &Hubs<H>,
    stations: &[Station<R>],
    node: Option<u16>,
) -> bool
    ensures { HasNumbers (hubs_in hubs.now) stations.now → (held : List (Vec Packet Global)) →
        result ≡ is_there (world_of hubs.now stations.now held) node }
{
    match node {
        Some(node) => is_node(hubs, stations, node),
        None => true,
    }
}

/// Whether the nodes that an event names are there, and of its kind.
fn has_nodes<R: Records, H: HubRecords>(
    hubs: &Hubs<H>,
    stations: &[Station<R>],
    asked: &Option<(u16, AskRef<'_>)>,
) -> bool
    ensures { HasNumbers (hubs_in hubs.now) stations.now → (held : List (Vec Packet Global)) →
        result ≡ has_nodes (world_of hubs.now stations.now held) (option_map asked_view asked.now) }
{
    match asked {
        Some((node, ask)) => {
            may_be_asked(hubs, stations, *node, ask) && is_there(hubs, stations, ask.node_meant())
        }
        None => true,
    }
}

/// Whether a station has this party.
pub(crate) fn is_stations<R: Records>(stations: &[Station<R>], party: &Party) -> bool
    ensures { result
        ≡ list_any (λ s. is_same_party party.now s.state.me) stations.now }
{
    for station in stations {
        if *party == station.party() {
            return true;
        }
    }
    false
}

/// Whether a node has this party.
fn is_nodes<R: Records, H: HubRecords>(
    hubs: &Hubs<H>,
    stations: &[Station<R>],
    party: &Party,
) -> bool
    ensures { result ≡ list_any (is_same_party party.now)
        (map party_of_node (all_nodes (nodes_of (hubs_in hubs.now) stations.now))) }
{
    if *party == hubs.first.party() {
        return true;
    }
    is_stations(stations, party) || hubs.is_second(party)
}

/// Whether an event brings bytes from outside that name a node as their sender.
fn is_spoken_for<R: Records, H: HubRecords>(
    hubs: &Hubs<H>,
    stations: &[Station<R>],
    event: &Event,
) -> bool
    ensures { (held : List (Vec Packet Global)) → result
        ≡ is_spoken_for x12 (world_of hubs.now stations.now held) (event_view event.now) }
{
    let Event::Outside { bytes, .. } = event else {
        return false;
    };
    match read_header(bytes) {
        Ok(header) => is_nodes(hubs, stations, &header.sender),
        Err(_) => false,
    }
}

/// Admits an event, but for its node's own table, and gives it its number. V7, V4, V1 and V2, the first
/// that holds.
pub(crate) fn admit<R: Records, H: HubRecords>(
    hubs: &Hubs<H>,
    stations: &[Station<R>],
    held: &Held,
    event: &Event,
) -> Result<u64, Refused>
    requires few { length stations.now ≤ 16 }
    ensures number { IfOk result (λ n. n ≡ vec_len held.now + 1) }
    ensures admitted { OnOk result (network_refusal x12
        (world_of hubs.now stations.now held.now.items) (event_view event.now) ≡ None) }
    ensures refused { IfErr result (IsOfNetwork (network_refusal x12
        (world_of hubs.now stations.now held.now.items) (event_view event.now))) }
    ensures store { IfErr result (λ r. (old new : List ℕ) → SaysOneFailed r old new) }
{
    let last = held.len() as u64;
    if last >= u64::MAX - 1 {
        return Err(Refused::Exhausted);
    }
    let asked = asked(held, event);
    if !has_nodes(hubs, stations, &asked) {
        return Err(Refused::NoSuchNode);
    }
    if asked.is_none() {
        return Err(Refused::NoSuchPacket);
    }
    if is_spoken_for(hubs, stations, event) {
        return Err(Refused::SpokenFor);
    }
    Ok(last + 1)
}
