//! Whose packets come into a node's inboxes.
ghost use Rattle.std.specs.Prelude.{◌≡◌, ◌++◌, ◌∷◌, [], if◌then◌else◌, IfOk, OnOk, Some, slice_get};
ghost use Rattle.x12_network.specs.Senders.{is_hub_site, is_other_hub_site, is_station_site};
ghost use Rattle.x12_network.specs.Senders.{numbers_where, senders_into};

use std::alloc::{AllocError, Global};
use x12_core::Site;

/// Whether it is a hub's site, whose own number stands for both.
fn is_hub(at: &Site) -> bool
    ensures { result ≡ is_hub_site at.now }
{
    at.node == at.hub
}

/// Whether it is a station's, at this hub.
fn is_station(at: &Site, hub: u16) -> bool
    ensures { result ≡ is_station_site hub at.now }
{
    !is_hub(at) && at.hub == hub
}

/// Whether it is that of another hub than this one.
fn is_other_hub(at: &Site, hub: u16) -> bool
    ensures { result ≡ is_other_hub_site hub at.now }
{
    is_hub(at) && at.node != hub
}

/// Adds a number, where it is wanted.
fn push_if(numbers: &mut Vec<u16>, number: u16, is_wanted: bool) -> Result<(), AllocError>
    ensures { OnOk result (numbers.new.items
        ≡ numbers.old.items ++ (if is_wanted then number ∷ [] else [])) }
{
    if is_wanted {
        numbers.push(number)?;
    }
    Ok(())
}

/// Adds the stations at a hub.
fn push_stations(numbers: &mut Vec<u16>, sites: &[Site], hub: u16) -> Result<(), AllocError>
    ensures { OnOk result (numbers.new.items
        ≡ numbers.old.items ++ numbers_where (is_station_site hub) sites.now) }
{
    for site in sites {
        push_if(numbers, site.node, is_station(site, hub))?;
    }
    Ok(())
}

/// Adds the hubs beside a hub.
fn push_other_hubs(numbers: &mut Vec<u16>, sites: &[Site], hub: u16) -> Result<(), AllocError>
    ensures { OnOk result (numbers.new.items
        ≡ numbers.old.items ++ numbers_where (is_other_hub_site hub) sites.now) }
{
    for site in sites {
        push_if(numbers, site.node, is_other_hub(site, hub))?;
    }
    Ok(())
}

/// The nodes whose packets come into a node's inboxes, in the order of these: into a station's those of
/// its hub; into a hub's those of the stations that are at it, and then those of the other hub, if there
/// is one.
fn senders_of(alloc: Global, sites: &[Site], at: &Site) -> Result<Vec<u16>, AllocError>
    ensures { IfOk result (λ v. v.items ≡ senders_into sites.now at.now) }
{
    let mut numbers = Vec::new(alloc);
    if !is_hub(at) {
        numbers.push(at.hub)?;
        return Ok(numbers);
    }
    push_stations(&mut numbers, sites, at.node)?;
    push_other_hubs(&mut numbers, sites, at.node)?;
    Ok(numbers)
}

/// The nodes whose mailboxes a hub collects: those whose packets come to it. A station collects none.
fn mailboxes_of(alloc: Global, sites: &[Site], at: &Site) -> Result<Vec<u16>, AllocError> {
    if is_hub(at) {
        return senders_of(alloc, sites, at);
    }
    Ok(Vec::new(alloc))
}

/// Whether it is the site of a hub that is not alone.
fn is_linked(sites: &[Site], at: &Site) -> bool {
    if is_hub(at) {
        for site in sites {
            if is_other_hub(site, at.node) {
                return true;
            }
        }
    }
    false
}

/// What a node's worker is told of the network.
#[derive(Drop)]
pub(crate) struct Neighbours {
    /// The node's number.
    pub node: u16,
    /// The nodes whose packets come into its inboxes.
    pub senders: Vec<u16>,
    /// The nodes whose mailboxes it collects.
    pub mailboxes: Vec<u16>,
    /// Whether another hub's is among them.
    pub is_linked: bool,
}

/// The neighbours of the node at this site.
fn neighbours_of(alloc: Global, sites: &[Site], at: &Site) -> Result<Neighbours, AllocError>
    ensures { IfOk result (λ n.
        (n.node ≡ at.now.node) × (n.senders.items ≡ senders_into sites.now at.now)) }
{
    let senders = senders_of(alloc, sites, at)?;
    let mailboxes = mailboxes_of(alloc, sites, at)?;
    Ok(Neighbours {
        node: at.node,
        senders,
        mailboxes,
        is_linked: is_linked(sites, at),
    })
}

/// The neighbours of the node of a number, whose site is at this place; none where there is no site.
pub(crate) fn neighbours_at(
    alloc: Global,
    sites: &[Site],
    place: usize,
    node: u16,
) -> Result<Neighbours, AllocError>
    ensures { IfOk result (λ n. (at : Site) → slice_get sites.now place ≡ Some at →
        (n.node ≡ at.node) × (n.senders.items ≡ senders_into sites.now at)) }
{
    match sites.get(place) {
        Some(at) => neighbours_of(alloc, sites, at),
        None => Ok(Neighbours {
            node,
            senders: Vec::new(alloc),
            mailboxes: Vec::new(alloc),
            is_linked: false,
        }),
    }
}
