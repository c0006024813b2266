//! Whether cells were made as the nodes of a new network.

ghost use Rattle.std.specs.Prelude.{◌≡◌, true, false, IfSome, IfNone};
ghost use Rattle.std.specs.List.{list_all};
ghost use Rattle.x12_envelopes.specs.Party.{is_plain_party};
ghost use Rattle.std.specs.Option.{option_copied};
ghost use Rattle.x12_nodes.specs.Cells.{split};
ghost use Rattle.x12_nodes.specs.Check.{are_believed, are_network, are_numbered, are_stations};
ghost use Rattle.x12_nodes.specs.Check.{begins_with, is_hub_cell, is_station_opened, is_this};
ghost use Rattle.x12_nodes.specs.Check.{parties_opened, party_opened};
ghost use Rattle.x12_world.specs.Founding.{all_differ};

use crate::cell::NodeCell;
use crate::cells::split;
use crate::naming::is_among;
use crate::opening::Opening;
use x12_core::{HUB_NODE, SECOND_HUB_NODE};
use x12_envelopes::Party;
use x12_hub::HubRecords;
use x12_station::Records;

/// How many stations a network has at most.
const MAX_STATIONS: usize = 16;

/// Whether no two of these parties are one.
fn differ(parties: &[Party]) -> bool
    ensures { result ≡ all_differ parties.now }
{
    let mut rest = parties;
    while let Some((first, behind)) = rest.split_first() {
        if is_among(behind, first) {
            return false;
        }
        rest = behind;
    }
    true
}

/// Whether each of these parties is a plain address.
fn are_plain(parties: &[Party]) -> bool
    ensures { result ≡ list_all is_plain_party parties.now }
{
    for party in parties {
        if !party.is_plain() {
            return false;
        }
    }
    true
}

/// The party of a hub that is its own; `None` of anything else.
fn hub_of<R: Records, H: HubRecords>(cell: &NodeCell<R, H>) -> Option<Party>
    ensures is { IfSome result (λ p. (is_hub_cell cell.now ≡ true)
        × (party_opened cell.now.opening ≡ p)) }
    ensures isnt { IfNone result (is_hub_cell cell.now ≡ false) }
{
    match cell.opening() {
        Opening::Hub(me) => {
            if cell.hub() == cell.node() {
                return Some(me);
            }
            None
        }
        Opening::Station(_, _, _) => None,
    }
}

/// Whether there is a party, and it is this one.
fn is_this(party: &Party, other: Option<Party>) -> bool
    ensures { result ≡ is_this party.now other }
{
    match other {
        Some(other) => other == *party,
        None => false,
    }
}

/// Whether these are the hubs that a station believes whose hub has this number.
fn are_believed(
    hub: &Party,
    second: Option<Party>,
    home: u16,
    its: &Party,
    other: Option<Party>,
) -> bool
    ensures { result ≡ are_believed hub.now second home its.now other }
{
    let Some(second) = second else {
        return home == HUB_NODE && *its == *hub && other.is_none();
    };
    if home == SECOND_HUB_NODE {
        return *its == second && is_this(hub, other);
    }
    home == HUB_NODE && *its == *hub && is_this(&second, other)
}

/// Whether it was a station of these hubs.
fn is_station_of<R: Records, H: HubRecords>(
    hub: &Party,
    second: Option<Party>,
    cell: &NodeCell<R, H>,
) -> bool
    ensures { result ≡ is_station_opened hub.now second cell.now.site.hub cell.now.opening }
{
    match cell.opening() {
        Opening::Hub(_) => false,
        Opening::Station(_, its, other) => are_believed(hub, second, cell.hub(), &its, other),
    }
}

/// Whether each was a station of these hubs.
fn are_stations_of<R: Records, H: HubRecords>(
    hub: &Party,
    second: Option<Party>,
    stations: &[NodeCell<R, H>],
) -> bool
    ensures { result ≡ list_all (λ c. is_station_opened hub.now second c.site.hub c.opening)
        stations.now }
{
    for station in stations {
        if !is_station_of(hub, second, station) {
            return false;
        }
    }
    true
}

/// Whether these are 1 to 16 stations of these hubs, in a network of these parties, which are plain and
/// differ.
fn are_stations<R: Records, H: HubRecords>(
    hub: &Party,
    second: Option<Party>,
    stations: &[NodeCell<R, H>],
    parties: &[Party],
) -> bool
    ensures { result ≡ are_stations hub.now second stations.now parties.now }
{
    let count = stations.len();
    if count < 1 || count > MAX_STATIONS {
        return false;
    }
    if !are_stations_of(hub, second, stations) {
        return false;
    }
    differ(parties) && are_plain(parties)
}

/// Whether the first is a hub, and the second hub, if there is one; and the others are their stations.
fn begin_with<R: Records, H: HubRecords>(
    listed: &[NodeCell<R, H>],
    second: Option<&NodeCell<R, H>>,
    parties: &[Party],
) -> bool
    ensures { result ≡ begins_with listed.now (option_copied second.entry) parties.now }
{
    let Some((first, stations)) = listed.split_first() else {
        return false;
    };
    let Some(hub) = hub_of(first) else {
        return false;
    };
    match second {
        Some(cell) => match hub_of(cell) {
            Some(other) => are_stations(&hub, Some(other), stations, parties),
            None => false,
        },
        None => are_stations(&hub, None, stations, parties),
    }
}

/// Whether one hub or two and 1 to 16 stations of them were made, with plain parties that differ.
pub(crate) fn make_network<R: Records, H: HubRecords>(
    cells: &[NodeCell<R, H>],
    parties: &[Party],
) -> bool
    requires parties { parties.now ≡ parties_opened cells.now }
    ensures { result ≡ are_network cells.now }
{
    let (listed, second) = split(cells);
    begin_with(listed, second, parties)
}

/// Whether the nodes but the second hub have the numbers from 0 on.
pub(crate) fn have_numbers<R: Records, H: HubRecords>(cells: &[NodeCell<R, H>]) -> bool
    ensures { result ≡ are_numbered 0 (split cells.now).0 }
{
    let (listed, _) = split(cells);
    are_numbered(listed)
}

/// Whether these have the numbers from 0 on.
fn are_numbered<R: Records, H: HubRecords>(cells: &[NodeCell<R, H>]) -> bool
    ensures { result ≡ are_numbered 0 cells.now }
{
    let mut number: u64 = 0;
    for cell in cells {
        if cell.node() as u64 != number {
            return false;
        }
        number += 1;
    }
    true
}
