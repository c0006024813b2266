//! The file `counts` of a node's folder: how much its records had when a turn ended. Damage in the log of a
//! database takes the commits behind it away without an error. Records that have less than was counted are
//! damaged or an older copy.

use crate::agreeing::station_trouble;
use crate::enrolling::hub_trouble;
use crate::pairs::PairFile;
use crate::stop::Stop;
use std::alloc::{AllocError, Global};
use x12_hub::{Hub, HubFault, HubLoaded, HubRecords};
use x12_station::{Records, Station, StationFault};

/// What the refusal says.
const FEWER: &str = "the records have less than was counted: they are damaged or an older copy";

/// The file of a folder: of a station, how many interchanges it submitted and took, and how many sets it
/// posted; of a hub, how many items it has, twice. That an item was taken isn't counted: what is deposited
/// again is put back.
fn file_in(dir: &str) -> PairFile<'_> {
    PairFile {
        dir,
        name: "counts",
        wrong: "it doesn't say how much the records have",
    }
}

/// What a station numbers from 1.
#[derive(Clone, Copy)]
enum Numbered {
    /// Its submissions and first arrivals.
    Item,
    /// Its postings.
    Posting,
}

impl Numbered {
    /// Whether a station has one of this number.
    fn stands<R: Records>(
        self,
        station: &mut Station<R>,
        number: u64,
    ) -> Result<bool, StationFault> {
        match self {
            Numbered::Item => Ok(station.item(number)?.is_some()),
            Numbered::Posting => Ok(station.posting(number)?.is_some()),
        }
    }

    /// Whether a station has as many.
    fn has<R: Records>(self, station: &mut Station<R>, count: u64) -> Result<bool, StationFault> {
        if count == 0 {
            return Ok(true);
        }
        self.stands(station, count)
    }

    /// How many a station has, which are so many or more: by steps that double, and then halve.
    fn count<R: Records>(self, station: &mut Station<R>, least: u64) -> Result<u64, StationFault> {
        let (mut count, mut step) = (least, 1_u64);
        for _ in 0..64 {
            if !self.stands(station, count.saturating_add(step))? {
                break;
            }
            count = count.saturating_add(step);
            step = step.saturating_mul(2);
        }
        for _ in 0..64 {
            step /= 2;
            if step > 0 && self.stands(station, count.saturating_add(step))? {
                count = count.saturating_add(step);
            }
        }
        Ok(count)
    }
}

/// Whether a station has as much as was counted.
fn has_both<R: Records>(
    station: &mut Station<R>,
    items: u64,
    postings: u64,
) -> Result<bool, StationFault> {
    Ok(Numbered::Item.has(station, items)? && Numbered::Posting.has(station, postings)?)
}

/// Refuses the records of a station that have less than was counted.
pub(crate) fn test_station<R: Records>(
    rt: &HostRuntime,
    dir: &str,
    station: &mut Station<R>,
) -> Result<(), Stop> {
    let file = file_in(dir);
    let Some((items, postings)) = file.read(rt)? else {
        return Ok(());
    };
    match has_both(station, items, postings) {
        Ok(true) => Ok(()),
        Ok(false) => Err(file.trouble(rt, FEWER)),
        Err(fault) => Err(station_trouble(rt, dir, fault)),
    }
}

/// How much a station has, which is so much or more.
fn both<R: Records>(
    station: &mut Station<R>,
    items: u64,
    postings: u64,
) -> Result<(u64, u64), StationFault> {
    let items = Numbered::Item.count(station, items)?;
    Ok((items, Numbered::Posting.count(station, postings)?))
}

/// Writes numbers, unless these are there.
fn keep(
    rt: &HostRuntime,
    dir: &str,
    before: Option<(u64, u64)>,
    now: (u64, u64),
) -> Result<(), Stop> {
    if before == Some(now) {
        return Ok(());
    }
    let (one, other) = now;
    Ok(file_in(dir).write(rt, one, other)?)
}

/// Counts what a station's records have, and waits until that is on the disk.
pub(crate) fn count_station<R: Records>(
    rt: &HostRuntime,
    dir: &str,
    station: &mut Station<R>,
) -> Result<(), Stop> {
    let before = file_in(dir).read(rt)?;
    let (items, postings) = before.unwrap_or((0, 0));
    match both(station, items, postings) {
        Ok(now) => keep(rt, dir, before, now),
        Err(fault) => Err(station_trouble(rt, dir, fault)),
    }
}

/// Refuses the records of a hub that have fewer items than was counted.
pub(crate) fn test_hub(rt: &HostRuntime, dir: &str, loaded: &HubLoaded) -> Result<(), Stop> {
    let file = file_in(dir);
    match file.read(rt)? {
        Some((items, _)) if items > u64::from(loaded.item) => Err(file.trouble(rt, FEWER)),
        _ => Ok(()),
    }
}

/// The nodes of a hub's mailboxes in which something may wait.
pub(crate) fn nodes_of(alloc: Global, loaded: &HubLoaded) -> Result<Vec<u16>, AllocError> {
    let mut nodes: Vec<u16> = Vec::new(alloc);
    for (_, node) in &loaded.directory {
        if !nodes.contains(node) {
            nodes.push(*node)?;
        }
    }
    for (node, _) in &loaded.mailboxes {
        if !nodes.contains(node) {
            nodes.push(*node)?;
        }
    }
    Ok(nodes)
}

/// The greatest number of an item that waits at these nodes.
fn last_waiting<H: HubRecords>(hub: &Hub<H>, nodes: &[u16]) -> Result<u64, HubFault> {
    let mut last = 0_u64;
    for node in nodes {
        let items = hub.mailbox(*node)?;
        last = last.max(items.last().map_or(0, |item| u64::from(*item)));
    }
    Ok(last)
}

/// Counts a hub's items, and waits until that is on the disk: one that came in this turn still waits.
pub(crate) fn count_hub<H: HubRecords>(
    rt: &HostRuntime,
    dir: &str,
    hub: &Hub<H>,
    nodes: &[u16],
) -> Result<(), Stop> {
    let before = file_in(dir).read(rt)?;
    let (items, _) = before.unwrap_or((0, 0));
    match last_waiting(hub, nodes) {
        Ok(last) => keep(rt, dir, before, (items.max(last), items.max(last))),
        Err(fault) => Err(hub_trouble(rt, dir, fault)),
    }
}
