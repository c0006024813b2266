//! `van run`: the turns of a hub, and those of what a folder is.

use crate::clock::moment;
use crate::connecting::mailboxes_of;
use crate::counts::{count_hub, nodes_of};
use crate::files::{Files, files_in};
use crate::naming::Names;
use crate::opening::{Opened, OpensRecords, open, with_loaded};
use crate::options::{DIR, NOW, STATUSES, text};
use crate::station_turns::run_station;
use crate::stop::Stop;
use crate::turns::{Pace, Turns, is_done, pace_of, take_turns};
use crate::words::{below, party_name};
use clap::ArgMatches;
use command_table::{Kind, Row, Word};
use std::alloc::{AllocError, Global};
use x12_envelopes::Moment;
use x12_hub::{Hub, HubLoaded, HubRecords};
use x12_spool::{Depositor, HubAt, put_offers, run_turn};

/// The words of the command.
static WORDS: [Word; 6] = [
    DIR,
    Word {
        kind: Kind::Flag,
        name: "resend",
        value: "",
        help: "A station sends each unanswered interchange again",
    },
    Word {
        kind: Kind::Value,
        name: "watch",
        value: "SECONDS",
        help: "Goes on, and looks again after so many seconds; what isn't answered is sent again after 1, 2, 4 .. 64 minutes",
    },
    Word {
        kind: Kind::Value,
        name: "turns",
        value: "N",
        help: "Ends after so many turns of --watch",
    },
    Word {
        kind: Kind::Value,
        name: "handed",
        value: "N",
        help: "Says that N sets were handed over before, where the file `handed` is missing",
    },
    NOW,
];

/// The command's part of the command line.
pub(crate) fn row() -> Row {
    Row {
        name: "run",
        about: "Takes what came, and puts what goes on: a turn of a station or of a hub.",
        more: STATUSES,
        words: &WORDS,
    }
}

/// What the words say.
#[derive(Clone, Copy)]
pub(crate) struct RunWords<'a> {
    /// The folder.
    pub(crate) dir: &'a str,
    /// `--resend`.
    pub(crate) resend: bool,
    /// `--watch`.
    pub(crate) watch: Option<&'a str>,
    /// `--turns`.
    pub(crate) turns: Option<&'a str>,
    /// `--now`.
    pub(crate) now: Option<&'a str>,
    /// `--handed`.
    pub(crate) handed: Option<&'a str>,
}

impl<'a> RunWords<'a> {
    /// Reads the words.
    pub(crate) fn of(found: &ArgMatches<'a>) -> RunWords<'a> {
        RunWords {
            dir: text(found, "dir"),
            resend: found.get_flag("resend"),
            watch: found.get_str("watch"),
            turns: found.get_str("turns"),
            now: found.get_str("now"),
            handed: found.get_str("handed"),
        }
    }
}

/// A hub that takes turns over its mailboxes.
struct HubTurns<'a, H: HubRecords> {
    node: HubAt<H>,
    mailboxes: Vec<(Depositor, u16)>,
    /// The nodes at which something may wait.
    nodes: Vec<u16>,
    dir: &'a str,
}

/// How many files of a mailbox a turn takes at most: then it is the next party's.
const MOST_FILES: usize = 1000;

/// Turns to the mailbox of a party or of another hub, and gives its folders.
fn turn_to<'a, H: HubRecords>(
    rt: &'a HostRuntime,
    node: &mut HubAt<H>,
    dir: &str,
    mailbox: &(Depositor, u16),
) -> Result<Files<'a>, Stop> {
    let (depositor, number) = *mailbox;
    node.depositor = depositor;
    node.node = number;
    let (party, names) = match depositor {
        Depositor::Party(party) => (party, Names::Taken),
        Depositor::Hub(hub) => (hub, Names::Passed),
    };
    let alloc = rt.alloc();
    let folder = below(alloc, dir, party_name(alloc, &party)?.as_str())?;
    let mut files = files_in(rt, folder.as_str(), "in", "out", names)?;
    files.most = MOST_FILES;
    Ok(files)
}

/// Takes what came from each party, and from each hub.
fn take_from_each<H: HubRecords>(
    rt: &HostRuntime,
    node: &mut HubAt<H>,
    dir: &str,
    mailboxes: &[(Depositor, u16)],
) -> Result<bool, Stop> {
    let mut done = true;
    for mailbox in mailboxes {
        let mut files = turn_to(rt, node, dir, mailbox)?;
        let took = run_turn(rt.alloc(), node, &mut files);
        done &= is_done(rt, dir, took)? & !files.is_troubled;
    }
    Ok(done)
}

/// Puts what waits for each party, and for each hub.
fn put_for_each<H: HubRecords>(
    rt: &HostRuntime,
    node: &mut HubAt<H>,
    dir: &str,
    mailboxes: &[(Depositor, u16)],
) -> Result<bool, Stop> {
    let mut done = true;
    for mailbox in mailboxes {
        let mut files = turn_to(rt, node, dir, mailbox)?;
        let put = put_offers(node, &mut files, 0);
        done &= is_done(rt, dir, put)?;
    }
    Ok(done)
}

/// Takes what came from each, then puts what waits for each, and counts the items.
fn take_and_put<H: HubRecords>(
    rt: &HostRuntime,
    node: &mut HubAt<H>,
    dir: &str,
    mailboxes: &[(Depositor, u16)],
    nodes: &[u16],
) -> Result<bool, Stop> {
    let took = take_from_each(rt, node, dir, mailboxes)?;
    let put = put_for_each(rt, node, dir, mailboxes)?;
    count_hub(rt, dir, &node.hub, nodes)?;
    Ok(took & put)
}

impl<'a, H: HubRecords> Turns for HubTurns<'a, H> {
    fn turn(self, rt: &HostRuntime, at: &Moment, _: Option<u64>) -> (Self, Result<bool, Stop>) {
        let HubTurns {
            mut node,
            mailboxes,
            nodes,
            dir,
        } = self;
        node.at = *at;
        let done = take_and_put(rt, &mut node, dir, &mailboxes, &nodes);
        let turns = HubTurns {
            node,
            mailboxes,
            nodes,
            dir,
        };
        (turns, done)
    }

    fn standing(&self, alloc: Global) -> Result<String, AllocError> {
        let mut waiting = 0_usize;
        for (_, node) in &self.mailboxes {
            waiting = waiting.saturating_add(self.node.hub.waiting(*node));
        }
        format!(in alloc; "\"waiting\":{waiting}")
    }
}

/// The mailboxes of a hub, and the nodes at which something may wait.
fn places_of(
    rt: &HostRuntime,
    dir: &str,
    loaded: &HubLoaded,
) -> Result<(Vec<(Depositor, u16)>, Vec<u16>), Stop> {
    let mailboxes = mailboxes_of(rt, dir, &loaded.directory)?;
    Ok((mailboxes, nodes_of(rt.alloc(), loaded)?))
}

/// The hub that took turns.
fn hub_of<H: HubRecords>(turns: HubTurns<'_, H>) -> Hub<H> {
    let HubTurns {
        node,
        mailboxes: _,
        nodes: _,
        dir: _,
    } = turns;
    let HubAt {
        alloc: _,
        hub,
        at: _,
        depositor: _,
        node: _,
    } = node;
    hub
}

/// The turns of a hub.
fn run_hub<H: HubRecords + Drop>(
    rt: &HostRuntime,
    words: &RunWords<'_>,
    pace: Option<Pace>,
    at: &Moment,
    hub: Hub<H>,
) -> Result<u8, Stop> {
    let party = hub.party();
    let (hub, loaded) = with_loaded(rt, words.dir, hub)?;
    let (mailboxes, nodes) = match places_of(rt, words.dir, &loaded) {
        Ok(places) => places,
        Err(stop) => {
            drop(hub.close());
            return Err(stop);
        }
    };
    let node = HubAt {
        alloc: rt.alloc(),
        hub,
        at: *at,
        depositor: Depositor::Party(party),
        node: 0,
    };
    let turns = HubTurns {
        node,
        mailboxes,
        nodes,
        dir: words.dir,
    };
    let (turns, done) = take_turns(rt, turns, words, pace, at);
    drop(hub_of(turns).close());
    done
}

/// Takes the turns that the command line asks for.
pub(crate) fn run<O: OpensRecords>(
    rt: &HostRuntime,
    opens: &O,
    words: &RunWords<'_>,
) -> Result<u8, Stop> {
    let pace = pace_of(rt, words)?;
    let at = moment(rt, words.now)?;
    match open(rt, opens, words.dir)? {
        Opened::Station(station) => run_station(rt, opens, words, pace, &at, station),
        Opened::Hub(hub) => run_hub(rt, words, pace, &at, hub),
    }
}
