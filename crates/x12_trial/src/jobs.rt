//! What the nodes of a trial network have to do.

ghost use Rattle.std.specs.Prelude.{◌≡◌, IfOk, length};

use crate::founding::{is_station, party_of};
use itoa::Buffer;
use std::alloc::{AllocError, Global};
use x12_core::{Action, Ask, Site};
use x12_envelopes::{Moment, Party};
use x12_judge::Agreement;
use x12_station::Body;

/// The order with a text, on a date: one item, ten of it at five.
fn order<'a>(alloc: Global, text: &'a [u8], date: &'a [u8]) -> Result<Body, AllocError> {
    let item: [&'a [u8]; 5] = [b"PO1", b"1", b"10", b"EA", b"5"];
    let head: [&'a [u8]; 6] = [b"BEG", b"00", b"SA", text, b"", date];
    Body::new(alloc, &[&head, &item])
}

/// The text of an order: its station's number and its own, as `1-12`.
fn text_of(alloc: Global, station: u16, number: u32) -> Result<Vec<u8>, AllocError> {
    let mut text = Vec::new(alloc);
    let mut digits = Buffer::new();
    text.extend_from_slice(digits.format(station).as_bytes())?;
    text.push(b'-')?;
    text.extend_from_slice(digits.format(number).as_bytes())?;
    Ok(text)
}

/// That a station submits its order of this number.
fn submission(
    alloc: Global,
    at: Moment,
    to: Party,
    station: u16,
    number: u32,
) -> Result<Ask, AllocError> {
    let text = text_of(alloc, station, number)?;
    let date = at.date();
    let mut orders = Vec::new(alloc);
    orders.push(order(alloc, &text, &date)?)?;
    Ok(Ask::Do(Action::SubmitOrders { to, at, orders }))
}

/// That a station takes orders of a party.
fn agreement(alloc: Global, partner: Party) -> Result<Ask, AllocError> {
    let pairs = Vec::from_slice(alloc, &[(*b"PO", *b"850")])?;
    Ok(Ask::Do(Action::Agree {
        agreement: Agreement {
            partner,
            lenient: false,
            pairs,
        },
    }))
}

/// That a hub enrols a station: with the station's own mailbox, or with that of the hub where it is.
fn enrolment(hub: u16, station: &Site) -> Ask {
    let node = if station.hub == hub {
        station.node
    } else {
        station.hub
    };
    Ask::Do(Action::Enrol {
        party: party_of(station.node),
        node,
    })
}

/// A hub enrols all stations.
fn jobs_of_hub(alloc: Global, sites: &[Site], hub: u16) -> Result<Vec<Ask>, AllocError> {
    let mut jobs = Vec::new(alloc);
    for site in sites {
        if is_station(site) {
            jobs.push(enrolment(hub, site))?;
        }
    }
    Ok(jobs)
}

/// A station of so many agrees with the one in front of it, submits its orders to the next one, and
/// starts again after half of them.
fn jobs_of_station(
    alloc: Global,
    at: Moment,
    stations: u16,
    station: u16,
    orders: u32,
) -> Result<Vec<Ask>, AllocError> {
    let front = if station <= 1 { stations } else { station - 1 };
    let next = if station >= stations { 1 } else { station + 1 };
    let mut jobs = Vec::new(alloc);
    jobs.push(agreement(alloc, party_of(front))?)?;
    for number in 0..orders {
        if number == orders / 2 {
            jobs.push(Ask::Do(Action::Restart))?;
        }
        let number = number.saturating_add(1);
        jobs.push(submission(alloc, at, party_of(next), station, number)?)?;
    }
    Ok(jobs)
}

/// How many of these sites are stations'.
fn count_stations(sites: &[Site]) -> u16 {
    let mut stations = 0_u16;
    for site in sites {
        if is_station(site) {
            stations = stations.saturating_add(1);
        }
    }
    stations
}

/// The jobs of the node at one of these sites.
fn jobs_at(
    alloc: Global,
    at: Moment,
    sites: &[Site],
    site: &Site,
    orders: u32,
) -> Result<Vec<Ask>, AllocError> {
    if is_station(site) {
        return jobs_of_station(alloc, at, count_stations(sites), site.node, orders);
    }
    jobs_of_hub(alloc, sites, site.node)
}

/// The jobs of all nodes, in the order of their sites.
pub fn jobs_of_nodes(
    alloc: Global,
    at: Moment,
    sites: &[Site],
    orders: u32,
) -> Result<Vec<Vec<Ask>>, AllocError>
    ensures all { IfOk result (λ v. length v.items ≡ length sites.now) }
{
    let mut jobs = Vec::new(alloc);
    for site in sites {
        jobs.push(jobs_at(alloc, at, sites, site, orders)?)?;
    }
    Ok(jobs)
}
