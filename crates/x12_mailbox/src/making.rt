//! `van init`: a folder that says whose it is.

use crate::folder::{keep_private, make};
use crate::linking::{link_folders, want_hub};
use crate::opening::{OpensRecords, hub_in, records_below, station_in, unopened};
use crate::options::{STATUSES, text};
use crate::say::{joined, misuse, say, trouble};
use crate::stop::Stop;
use crate::whose::{Whose, is_mailbox, read_whose, write_whose};
use crate::words::{below, party_text, wanted_party};
use clap::ArgMatches;
use command_table::{Kind, Row, Word};
use std::alloc::{AllocError, Global};
use x12_envelopes::Party;

/// The words of the command.
static WORDS: [Word; 6] = [
    Word {
        kind: Kind::One,
        name: "dir",
        value: "DIR",
        help: "The folder to make",
    },
    Word {
        kind: Kind::Value,
        name: "me",
        value: "QQID",
        help: "Whose folder it is: the qualifier, then the identifier, as ZZALPHA",
    },
    Word {
        kind: Kind::Value,
        name: "hub",
        value: "QQID",
        help: "The station's hub, as ZZHUB",
    },
    Word {
        kind: Kind::Value,
        name: "other-hub",
        value: "QQID",
        help: "The hub that this one is connected to, if it is: its refusals are believed, too",
    },
    Word {
        kind: Kind::Value,
        name: "at",
        value: "HUBDIR",
        help: "The hub's folder, if it is on this machine: in and out are linked to the mailbox there",
    },
    Word {
        kind: Kind::Flag,
        name: "is-hub",
        value: "",
        help: "It is the folder of a hub",
    },
];

/// The command's part of the command line.
pub(crate) fn row() -> Row {
    Row {
        name: "init",
        about: "Makes the folder of a station or of a hub.",
        more: STATUSES,
        words: &WORDS,
    }
}

/// What the words say.
#[derive(Clone, Copy)]
pub(crate) struct InitWords<'a> {
    /// The folder to make.
    dir: &'a str,
    /// `--me`.
    me: Option<&'a str>,
    /// `--hub`.
    hub: Option<&'a str>,
    /// `--other-hub`.
    other_hub: Option<&'a str>,
    /// `--at`.
    at: Option<&'a str>,
    /// `--is-hub`.
    is_hub: bool,
}

impl<'a> InitWords<'a> {
    /// Reads the words.
    pub(crate) fn of(found: &ArgMatches<'a>) -> InitWords<'a> {
        InitWords {
            dir: text(found, "dir"),
            me: found.get_str("me"),
            hub: found.get_str("hub"),
            other_hub: found.get_str("other-hub"),
            at: found.get_str("at"),
            is_hub: found.get_flag("is-hub"),
        }
    }
}

/// Lets nobody else read the records at a path.
fn keep_records(rt: &HostRuntime, path: &str) -> Result<(), Stop> {
    keep_private(rt, path)?;
    Ok(keep_private(rt, joined(rt.alloc(), &[path, "-wal"])?.as_str())?)
}

/// Makes a station's records, or finds those that an earlier try made.
fn station_records<O: OpensRecords>(
    rt: &HostRuntime,
    opens: &O,
    dir: &str,
    me: Party,
    hub: Party,
    other: Option<Party>,
) -> Result<(), Stop> {
    let path = records_below(rt, dir)?;
    match opens.make_station(rt, path.as_str(), me, hub, other) {
        Ok(true) => {}
        Ok(false) => drop(station_in(rt, opens, dir, me, hub, other)?.close()),
        Err(fault) => return Err(unopened(rt, opens, path.as_str(), fault)),
    }
    keep_records(rt, path.as_str())
}

/// Makes a hub's records, or finds those that an earlier try made.
fn hub_records<O: OpensRecords>(
    rt: &HostRuntime,
    opens: &O,
    dir: &str,
    me: Party,
) -> Result<(), Stop> {
    let path = records_below(rt, dir)?;
    match opens.make_hub(rt, path.as_str(), me) {
        Ok(true) => {}
        Ok(false) => drop(hub_in(rt, opens, dir, me)?.close()),
        Err(fault) => return Err(unopened(rt, opens, path.as_str(), fault)),
    }
    keep_records(rt, path.as_str())
}

/// Says that a folder has records already.
fn is_made(rt: &HostRuntime, dir: &str) -> Stop {
    let me = match read_whose(rt, dir) {
        Ok(Whose::Station(me, _, _)) => me,
        Ok(Whose::Hub(me)) => me,
        Err(stop) => return stop,
    };
    match party_text(rt.alloc(), &me) {
        Ok(me) => trouble(
            rt,
            &[dir, " holds the records of ", me.as_str(), " already"],
        ),
        Err(_) => Stop::Memory,
    }
}

/// Makes folders below a folder.
pub(crate) fn make_below(rt: &HostRuntime, dir: &str, names: &[&str]) -> Result<(), Stop> {
    for name in names {
        make(rt, below(rt.alloc(), dir, name)?.as_str())?;
    }
    Ok(())
}

/// The folders of a station.
fn station_folders(
    rt: &HostRuntime,
    dir: &str,
    at: Option<&str>,
    me: &Party,
    hub: &Party,
) -> Result<(), Stop> {
    if let Some(hub_dir) = at {
        want_hub(rt, hub_dir, hub)?;
    }
    make(rt, dir)?;
    if let Some(hub_dir) = at {
        link_folders(rt, dir, hub_dir, me)?;
    }
    make_below(rt, dir, &["submit", "in", "out", "posted", "refused"])
}

/// The hub that a station is at.
fn hub_for(rt: &HostRuntime, words: &InitWords<'_>, me: &Party) -> Result<Party, Stop> {
    let Some(hub) = words.hub else {
        return Err(misuse(
            rt,
            &["--hub is missing: the party of the hub; or --is-hub, where this is the hub"],
        ));
    };
    let hub = wanted_party(rt, "--hub", hub)?;
    if hub == *me {
        return Err(misuse(
            rt,
            &["--me and --hub name one party: a station isn't its own hub"],
        ));
    }
    Ok(hub)
}

/// The hub that a station's hub is connected to, if it is.
fn other_for(
    rt: &HostRuntime,
    words: &InitWords<'_>,
    me: &Party,
    hub: &Party,
) -> Result<Option<Party>, Stop> {
    let Some(other) = words.other_hub else {
        return Ok(None);
    };
    let other = wanted_party(rt, "--other-hub", other)?;
    if other == *me || other == *hub {
        return Err(misuse(
            rt,
            &[
                "--other-hub names the station or its hub: it is the hub that this one is connected to",
            ],
        ));
    }
    Ok(Some(other))
}

/// Adds words, and a party behind them.
fn push_party(
    alloc: Global,
    text: &mut String,
    words: &str,
    party: &Party,
) -> Result<(), AllocError> {
    text.push_str(words)?;
    text.push_str(party_text(alloc, party)?.as_str())
}

/// Says that a station's folder is made.
fn say_station(
    rt: &HostRuntime,
    dir: &str,
    me: &Party,
    hub: &Party,
    other: &Option<Party>,
) -> Result<(), Stop> {
    let alloc = rt.alloc();
    let mut text = String::new(alloc);
    push_party(alloc, &mut text, "station ", me)?;
    push_party(alloc, &mut text, " at hub ", hub)?;
    if let Some(other) = other {
        push_party(alloc, &mut text, ", which is connected to ", other)?;
        text.push(',')?;
    }
    say(rt, &[text.as_str(), " in ", dir])
}

/// Makes a station's folder.
fn make_station<O: OpensRecords>(
    rt: &HostRuntime,
    opens: &O,
    words: &InitWords<'_>,
    me: Party,
) -> Result<u8, Stop> {
    let hub = hub_for(rt, words, &me)?;
    let other = other_for(rt, words, &me, &hub)?;
    station_folders(rt, words.dir, words.at, &me, &hub)?;
    station_records(rt, opens, words.dir, me, hub, other)?;
    write_whose(rt, words.dir, &Whose::Station(me, hub, other))?;
    say_station(rt, words.dir, &me, &hub, &other)?;
    Ok(0)
}

/// Makes a hub's folder.
fn make_hub<O: OpensRecords>(
    rt: &HostRuntime,
    opens: &O,
    words: &InitWords<'_>,
    me: Party,
) -> Result<u8, Stop> {
    if words.hub.is_some() || words.at.is_some() {
        return Err(misuse(rt, &["--is-hub goes with neither --hub nor --at"]));
    }
    if words.other_hub.is_some() {
        return Err(misuse(
            rt,
            &["--other-hub is for a station: van enrol connects a hub to another one"],
        ));
    }
    make(rt, words.dir)?;
    hub_records(rt, opens, words.dir, me)?;
    write_whose(rt, words.dir, &Whose::Hub(me))?;
    let me = party_text(rt.alloc(), &me)?;
    say(rt, &["hub ", me.as_str(), " in ", words.dir])?;
    Ok(0)
}

/// Makes a folder that says whose it is.
pub(crate) fn init<O: OpensRecords>(
    rt: &HostRuntime,
    opens: &O,
    words: &InitWords<'_>,
) -> Result<u8, Stop> {
    let me = wanted_party(rt, "--me", words.me.unwrap_or(""))?;
    if is_mailbox(rt, words.dir)? {
        return Err(is_made(rt, words.dir));
    }
    if words.is_hub {
        make_hub(rt, opens, words, me)
    } else {
        make_station(rt, opens, words, me)
    }
}
