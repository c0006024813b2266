//! Opening the records of a folder. Whoever has them open owns the folder.

ghost use Rattle.std.specs.Prelude.{IsTrue};
ghost use Rattle.x12_envelopes.specs.Party.{is_plain_party};

use crate::counts::{test_hub, test_station};
use crate::enrolling::hub_trouble;
use crate::folder::stands;
use crate::say::trouble;
use crate::stop::Stop;
use crate::whose::{Whose, read_whose};
use crate::words::{below, party_text};
use std::alloc::{AllocError, Global};
use x12_envelopes::Party;
use x12_hub::{Hub, HubLoaded, HubRecords};
use x12_station::{Records, Station};

/// Which version records were of before a migration, and which they are of.
#[derive(Clone, Copy)]
pub struct Migration {
    /// The version before.
    pub was: u32,
    /// The version now: the newest.
    pub is: u32,
}

/// Who opens the records at a path, makes them, and brings them to the newest version.
pub trait OpensRecords {
    /// A station's records.
    type Station: Records + Drop;

    /// A hub's records.
    type Hub: HubRecords + Drop;

    /// Why records aren't opened.
    type Fault: Drop;

    /// Opens the station of this party at this hub, which may be connected to another one, over the
    /// records that it left at this path.
    fn station(
        &self,
        rt: &HostRuntime,
        path: &str,
        me: Party,
        hub: Party,
        other: Option<Party>,
    ) -> Result<Station<Self::Station>, Self::Fault>
        requires { IsTrue (is_plain_party me) };

    /// Opens the hub of this party over the records that it left at this path.
    fn hub(&self, rt: &HostRuntime, path: &str, me: Party) -> Result<Hub<Self::Hub>, Self::Fault>
        requires { IsTrue (is_plain_party me) };

    /// Brings the records of the station of this party at a path to the newest version, and answers which
    /// version they were of.
    fn migrate_station(
        &self,
        rt: &HostRuntime,
        path: &str,
        me: Party,
        hub: Party,
        other: Option<Party>,
    ) -> Result<Migration, Self::Fault>
        requires { IsTrue (is_plain_party me) };

    /// Makes the records of the station of this party at a path, and answers whether it did; where
    /// there are some already, of whomever, they stay as they are.
    fn make_station(
        &self,
        rt: &HostRuntime,
        path: &str,
        me: Party,
        hub: Party,
        other: Option<Party>,
    ) -> Result<bool, Self::Fault>;

    /// The same of a hub.
    fn make_hub(&self, rt: &HostRuntime, path: &str, me: Party) -> Result<bool, Self::Fault>;

    /// Whether records aren't opened because another program has them open.
    fn are_in_use(&self, fault: &Self::Fault) -> bool;

    /// Why records aren't opened, in a sentence.
    fn why(&self, alloc: Global, fault: Self::Fault) -> Result<String, AllocError>;
}

/// A station or a hub over its records.
pub(crate) enum Opened<O: OpensRecords> {
    /// A station.
    Station(Station<O::Station>),
    /// A hub.
    Hub(Hub<O::Hub>),
}

/// Says that another program has records open, and where it says how they stand.
fn in_use(rt: &HostRuntime, path: &str) -> Stop {
    let dir = path.strip_suffix("records.db").unwrap_or("");
    trouble(
        rt,
        &[
            path,
            " is in use by another van: where it watches, read ",
            dir,
            "status.json",
        ],
    )
}

/// Says why records aren't opened.
pub(crate) fn unopened<O: OpensRecords>(
    rt: &HostRuntime,
    opens: &O,
    path: &str,
    fault: O::Fault,
) -> Stop {
    if opens.are_in_use(&fault) {
        drop(fault);
        return in_use(rt, path);
    }
    match opens.why(rt.alloc(), fault) {
        Ok(why) => trouble(rt, &[path, ": ", why.as_str()]),
        Err(_) => Stop::Memory,
    }
}

/// The path of the records in a folder.
pub(crate) fn records_below(rt: &HostRuntime, dir: &str) -> Result<String, Stop> {
    Ok(below(rt.alloc(), dir, "records.db")?)
}

/// The path of the records in a folder, which are there.
pub(crate) fn records_in(rt: &HostRuntime, dir: &str) -> Result<String, Stop> {
    let path = records_below(rt, dir)?;
    if stands(rt, path.as_str())? {
        return Ok(path);
    }
    Err(trouble(
        rt,
        &[
            path.as_str(),
            " isn't there: what this mailbox knew is gone from here",
        ],
    ))
}

/// Says that a party isn't plain.
pub(crate) fn no_plain_party(rt: &HostRuntime, dir: &str) -> Stop {
    trouble(rt, &[dir, " names a party that no mailbox can have"])
}

/// A station, unless its records have less than was counted.
fn tested_station<R: Records + Drop>(
    rt: &HostRuntime,
    dir: &str,
    station: Station<R>,
) -> Result<Station<R>, Stop> {
    let mut station = station;
    match test_station(rt, dir, &mut station) {
        Ok(()) => Ok(station),
        Err(stop) => {
            drop(station.close());
            Err(stop)
        }
    }
}

/// A hub, and what it has in memory of its records.
pub(crate) fn with_loaded<H: HubRecords + Drop>(
    rt: &HostRuntime,
    dir: &str,
    hub: Hub<H>,
) -> Result<(Hub<H>, HubLoaded), Stop> {
    let me = hub.party();
    let mut records = hub.close();
    let loaded = match records.load() {
        Ok(loaded) => loaded,
        Err(fault) => return Err(hub_trouble(rt, dir, fault.into())),
    };
    match Hub::open(rt.alloc(), me, records) {
        Ok(hub) => Ok((hub, loaded)),
        Err((_, fault)) => Err(hub_trouble(rt, dir, fault)),
    }
}

/// A hub, unless its records have less than was counted.
fn tested_hub<H: HubRecords + Drop>(
    rt: &HostRuntime,
    dir: &str,
    hub: Hub<H>,
) -> Result<Hub<H>, Stop> {
    let (hub, loaded) = with_loaded(rt, dir, hub)?;
    match test_hub(rt, dir, &loaded) {
        Ok(()) => Ok(hub),
        Err(stop) => {
            drop(hub.close());
            Err(stop)
        }
    }
}

/// The station of this party over the records in a folder.
pub(crate) fn station_in<O: OpensRecords>(
    rt: &HostRuntime,
    opens: &O,
    dir: &str,
    me: Party,
    hub: Party,
    other: Option<Party>,
) -> Result<Station<O::Station>, Stop> {
    let path = records_in(rt, dir)?;
    if !me.is_plain() {
        return Err(no_plain_party(rt, dir));
    }
    match opens.station(rt, path.as_str(), me, hub, other) {
        Ok(station) => tested_station(rt, dir, station),
        Err(fault) => Err(unopened(rt, opens, path.as_str(), fault)),
    }
}

/// The hub of this party over the records in a folder.
pub(crate) fn hub_in<O: OpensRecords>(
    rt: &HostRuntime,
    opens: &O,
    dir: &str,
    me: Party,
) -> Result<Hub<O::Hub>, Stop> {
    let path = records_in(rt, dir)?;
    if !me.is_plain() {
        return Err(no_plain_party(rt, dir));
    }
    match opens.hub(rt, path.as_str(), me) {
        Ok(hub) => tested_hub(rt, dir, hub),
        Err(fault) => Err(unopened(rt, opens, path.as_str(), fault)),
    }
}

/// The station or the hub whose folder it is.
pub(crate) fn open<O: OpensRecords>(
    rt: &HostRuntime,
    opens: &O,
    dir: &str,
) -> Result<Opened<O>, Stop> {
    match read_whose(rt, dir)? {
        Whose::Station(me, hub, other) => {
            Ok(Opened::Station(station_in(rt, opens, dir, me, hub, other)?))
        }
        Whose::Hub(me) => Ok(Opened::Hub(hub_in(rt, opens, dir, me)?)),
    }
}

/// Says that a folder is another kind of node's than a command wants.
fn other_kind<'x>(
    rt: &HostRuntime,
    dir: &'x str,
    party: &Party,
    is: &'x str,
    wanted: &'x str,
) -> Stop {
    match party_text(rt.alloc(), party) {
        Ok(party) => trouble(rt, &[dir, is, party.as_str(), wanted]),
        Err(_) => Stop::Memory,
    }
}

/// Says that a folder is a station's, where it should be a hub's.
pub(crate) fn no_hub(rt: &HostRuntime, dir: &str, me: &Party) -> Stop {
    other_kind(rt, dir, me, " is the station of ", ", and no hub")
}

/// The station whose folder it is.
pub(crate) fn open_a_station<O: OpensRecords>(
    rt: &HostRuntime,
    opens: &O,
    dir: &str,
) -> Result<Station<O::Station>, Stop> {
    match read_whose(rt, dir)? {
        Whose::Station(me, hub, other) => station_in(rt, opens, dir, me, hub, other),
        Whose::Hub(me) => Err(other_kind(rt, dir, &me, " is the hub of ", ", and no station")),
    }
}

/// The hub whose folder it is.
pub(crate) fn open_a_hub<O: OpensRecords>(
    rt: &HostRuntime,
    opens: &O,
    dir: &str,
) -> Result<Hub<O::Hub>, Stop> {
    match read_whose(rt, dir)? {
        Whose::Hub(me) => hub_in(rt, opens, dir, me),
        Whose::Station(me, _, _) => Err(no_hub(rt, dir, &me)),
    }
}
