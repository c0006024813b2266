//! The nodes of a trial network: a hub or two, and stations ST01, ST02 and so on.
ghost use Rattle.std.specs.Prelude.{◌≡◌, ◌≤◌, ◌+◌, [], IfOk, OnOk, length, map};

use crate::founder::Founder;
use std::alloc::{AllocError, Global};
use x12_core::{Core, HUB_NODE, SECOND_HUB_NODE, Site};
use x12_envelopes::Party;
use x12_hub::HubRecords;
use x12_nodes::Node;
use x12_station::Records;

/// The name of the node of this number: HUB, HUB2, or ST01 to ST99.
fn name_of(number: u16) -> [u8; 15] {
    if number == HUB_NODE {
        return *b"HUB            ";
    }
    if number == SECOND_HUB_NODE {
        return *b"HUB2           ";
    }
    let mut name = *b"ST00           ";
    name[2] = b'0' + (number / 10 % 10) as u8;
    name[3] = b'0' + (number % 10) as u8;
    name
}

/// The party of the node of this number.
pub(crate) fn party_of(number: u16) -> Party {
    Party {
        qualifier: *b"ZZ",
        id: name_of(number),
    }
}

/// The number of a station's hub: with two hubs, stations of even numbers are at the second one.
fn home_of(station: u16, hubs: u16) -> u16 {
    if hubs > 1 && station % 2 == 0 {
        return SECOND_HUB_NODE;
    }
    HUB_NODE
}

/// A hub's site.
fn hub_site(hub: u16) -> Site {
    Site { node: hub, hub }
}

/// Whether a station's site, and no hub's.
pub(crate) fn is_station(site: &Site) -> bool {
    site.node != site.hub
}

/// The sites of a network of one hub or two and so many stations: of the hub, of the stations by rising
/// number, and of the second hub, if there is one.
pub fn sites(alloc: Global, stations: u16, hubs: u16) -> Result<Vec<Site>, AllocError>
    requires few { stations ≤ 16 }
    requires hubs { (1 ≤ hubs) × (hubs ≤ 2) }
    ensures all { IfOk result (λ v. length v.items ≡ stations + hubs) }
{
    let mut sites = Vec::new(alloc);
    sites.push(hub_site(HUB_NODE))?;
    for node in 1..stations.saturating_add(1) {
        let hub = home_of(node, hubs);
        sites.push(Site { node, hub })?;
    }
    if hubs < 2 {
        return Ok(sites);
    }
    sites.push(hub_site(SECOND_HUB_NODE))?;
    Ok(sites)
}

/// The parties of the nodes at these sites.
pub fn parties(alloc: Global, sites: &[Site]) -> Result<Vec<Party>, AllocError>
    ensures all { IfOk result (λ v. length v.items ≡ length sites.now) }
{
    let mut parties = Vec::new(alloc);
    for site in sites {
        parties.push(party_of(site.node))?;
    }
    Ok(parties)
}

/// The party of the other hub than this one, if there is one.
fn other_hub(sites: &[Site], hub: u16) -> Option<Party> {
    for site in sites {
        if !is_station(site) && site.node != hub {
            return Some(party_of(site.node));
        }
    }
    None
}

/// A new hub's node.
fn hub_node<F: Founder>(
    alloc: Global,
    site: Site,
    founder: &mut F,
) -> Result<Node<F::Station, F::Hub>, F::Fault>
    ensures { IfOk result (λ n. n ≡ site.node) }
{
    let me = party_of(site.node);
    if !me.is_plain() {
        return Err(F::Fault::from(AllocError));
    }
    let hub = founder.hub(me)?;
    if !hub.is_new() {
        return Err(F::Fault::from(AllocError));
    }
    Ok(Node::new(alloc, site, Core::Hub(hub)))
}

/// A new station's node, which believes its hub first, and the other one, if there is one.
fn station_node<F: Founder>(
    alloc: Global,
    site: Site,
    other: Option<Party>,
    founder: &mut F,
) -> Result<Node<F::Station, F::Hub>, F::Fault>
    ensures { IfOk result (λ n. n ≡ site.node) }
{
    let me = party_of(site.node);
    if !me.is_plain() {
        return Err(F::Fault::from(AllocError));
    }
    let station = founder.station(me, party_of(site.hub), other)?;
    if !station.is_new() {
        let _ = station.close();
        return Err(F::Fault::from(AllocError));
    }
    Ok(Node::new(alloc, site, Core::Station(station)))
}

/// A new node at one of these sites.
fn node_at<F: Founder>(
    alloc: Global,
    sites: &[Site],
    site: Site,
    founder: &mut F,
) -> Result<Node<F::Station, F::Hub>, F::Fault>
    ensures { IfOk result (λ n. n ≡ site.node) }
{
    if is_station(&site) {
        return station_node(alloc, site, other_hub(sites, site.hub), founder);
    }
    hub_node(alloc, site, founder)
}

/// Ends a core.
pub(crate) fn close<R: Records + Drop, H: HubRecords + Drop>(core: Core<R, H>) {
    match core {
        Core::Station(station) => {
            let _ = station.close();
        }
        Core::Hub(_) => {}
    }
}

/// Ends nodes.
pub(crate) fn end_nodes<R: Records + Drop, H: HubRecords + Drop>(mut nodes: Vec<Node<R, H>>) {
    while let Some(node) = nodes.pop() {
        close(node.end().end());
    }
    nodes.destroy_empty();
}

/// Founds the nodes at these sites.
fn found_nodes<F: Founder>(
    alloc: Global,
    sites: &[Site],
    founder: &mut F,
    nodes: &mut Vec<Node<F::Station, F::Hub>>,
) -> Result<(), F::Fault>
    requires { nodes.old.items ≡ [] }
    ensures { OnOk result (nodes.new.items ≡ map (λ s. s.node) sites.now) }
{
    for site in sites {
        nodes.reserve(1)?;
        nodes.push_reserved(node_at(alloc, sites, *site, founder)?);
    }
    Ok(())
}

/// Founds a network: the nodes at these sites.
pub fn found<F: Founder>(
    alloc: Global,
    sites: &[Site],
    founder: &mut F,
) -> Result<Vec<Node<F::Station, F::Hub>>, F::Fault>
    ensures all { IfOk result (λ v. v.items ≡ map (λ s. s.node) sites.now) }
{
    let mut nodes = Vec::new(alloc);
    match found_nodes(alloc, sites, founder, &mut nodes) {
        Ok(()) => Ok(nodes),
        Err(fault) => {
            end_nodes(nodes);
            Err(fault)
        }
    }
}
