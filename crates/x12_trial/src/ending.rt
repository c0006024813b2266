//! How a trial network ends.

use crate::founding::{close, end_nodes};
use std::alloc::Global;
use x12_hub::HubRecords;
use x12_nodes::{NodeCell, Parts, Pass, Settlement, Unlocked};
use x12_report::Audit;
use x12_station::{Records, Station};
use x12_world::{Refused, audit_all};

/// Lets passes go.
pub(crate) fn discard(mut passes: Vec<Pass>) {
    while let Some(pass) = passes.pop() {
        pass.discard();
    }
    passes.destroy_empty();
}

/// Ends stations.
fn end_stations<R: Records + Drop>(stations: Vec<Station<R>>) {
    let mut left = stations.into_iter();
    while let Some(station) = left.next() {
        let _ = station.close();
    }
    left.destroy_empty();
}

/// Ends cells.
fn end_cells<R: Records + Drop, H: HubRecords + Drop>(mut cells: Vec<NodeCell<R, H>>) {
    while let Some(cell) = cells.pop() {
        close(cell.end());
    }
    cells.destroy_empty();
}

/// Ends what comes back of a network.
pub fn end_parts<R: Records + Drop, H: HubRecords + Drop>(parts: Parts<R, H>) {
    let Parts {
        nodes,
        cells,
        wire: _,
        passes,
    } = parts;
    end_nodes(nodes);
    end_cells(cells);
    discard(passes);
}

/// The audits of what was submitted in a settled network, which ends.
///
/// `Memory`, and `Node` where a station's records failed.
pub fn audits_of<R: Records + Drop, H: HubRecords + Drop>(
    alloc: Global,
    settlement: Settlement<R, H>,
) -> Result<Vec<Audit>, Refused> {
    let unlocked = match settlement.unlock() {
        Ok(unlocked) => unlocked,
        Err(settlement) => {
            end_parts(settlement.end());
            return Err(Refused::Memory);
        }
    };
    let Unlocked {
        hubs: _,
        stations,
        submitted,
        wire: _,
        passes,
    } = unlocked;
    let mut stations = stations;
    let found = audit_all(alloc, &mut stations, &submitted);
    end_stations(stations);
    discard(passes);
    found
}
