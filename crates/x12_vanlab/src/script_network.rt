//! The network of a script: its nodes keep their records in memory.

use crate::script_name::{Member, Name, hub_name, second_hub_name};
use std::alloc::{AllocError, Global};
use x12_envelopes::Party;
use x12_hub::{Hub, MemoryHubRecords};
use x12_station::{MemoryRecords, Station};
use x12_world::{Refused, World};

/// A network over records in memory.
pub(crate) type Net = World<MemoryRecords, MemoryHubRecords>;

/// Closes stations: what they hold is gone.
fn close(mut stations: Vec<Station<MemoryRecords>>) {
    while let Some(station) = stations.pop() {
        let _ = station.close();
    }
    stations.destroy_empty();
}

/// A new hub of this name.
fn open_hub(alloc: Global, name: &Name) -> Result<Hub<MemoryHubRecords>, AllocError> {
    let me = name.party;
    match Hub::open(alloc, me, MemoryHubRecords::new(alloc, me)) {
        Ok(hub) => Ok(hub),
        Err(_) => Err(AllocError),
    }
}

/// A new second hub, where there is to be one.
fn open_second_hub(
    alloc: Global,
    has_second: bool,
) -> Result<Option<Hub<MemoryHubRecords>>, AllocError> {
    if !has_second {
        return Ok(None);
    }
    Ok(Some(open_hub(alloc, &second_hub_name())?))
}

/// The hub at which a station is, and the other one, if there is one.
fn hubs_of(station: &Member, has_second: bool) -> (Party, Option<Party>) {
    let (first, second) = (hub_name().party, second_hub_name().party);
    if !has_second {
        return (first, None);
    }
    if station.at_second {
        return (second, Some(first));
    }
    (first, Some(second))
}

/// Opens a new station, and puts it behind the others.
fn open(
    alloc: Global,
    station: &Member,
    has_second: bool,
    stations: &mut Vec<Station<MemoryRecords>>,
) -> Result<(), AllocError> {
    stations.reserve(1)?;
    let me = station.name.party;
    let (hub, other) = hubs_of(station, has_second);
    let records = MemoryRecords::new(alloc, me, hub, other);
    match Station::open(alloc, me, hub, other, records) {
        Ok(station) => {
            stations.push_reserved(station);
            Ok(())
        }
        Err(_) => Err(AllocError),
    }
}

/// Opens each of these stations anew.
fn open_all(
    alloc: Global,
    members: &[Member],
    has_second: bool,
    stations: &mut Vec<Station<MemoryRecords>>,
) -> Result<(), AllocError> {
    for member in members {
        open(alloc, member, has_second, stations)?;
    }
    Ok(())
}

/// A new network with these stations, and with a second hub, where there is to be one.
pub(crate) fn new_network(
    alloc: Global,
    members: &[Member],
    has_second: bool,
) -> Result<Net, AllocError> {
    let hub = open_hub(alloc, &hub_name())?;
    let second = open_second_hub(alloc, has_second)?;
    let mut stations = Vec::new(alloc);
    if open_all(alloc, members, has_second, &mut stations).is_err() {
        close(stations);
        return Err(AllocError);
    }
    match World::new(alloc, hub, second, stations) {
        Ok(net) => Ok(net),
        Err((_, _, stations, _)) => {
            close(stations);
            Err(AllocError)
        }
    }
}

/// Ends a network.
pub(crate) fn end(net: Net) {
    let (_, _, stations) = net.end();
    close(stations);
}

/// What a network says where it is asked. Over records in memory it refuses for want of memory
/// alone.
pub(crate) fn answered<T>(answer: Result<T, Refused>) -> Result<T, AllocError> {
    answer.map_err(|_| AllocError)
}
