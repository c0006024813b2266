//! `vanlab network`: runs a network of stations that order of each other, all at once, and prints the
//! report of what everybody holds.

use crate::shelf::{Databases, Folder, Shelf};
use anyhow::Result;
use clap::ArgMatches;
use command_table::{Kind, Row, Word};
use std::fmt::Display;
use std::io::{IsTerminal, Write};
use std::process::ExitCode;
use std::sync::Wait;
use std::thread::Threads;
use x12_hub::HubRecords;
use x12_nodes::Node;
use x12_station::Records;
use x12_trial::{
    Founder, InMemory, PlanWords, Standing, TrialFault, TrialPlan, TrialStatus, Watch, found,
    read_plan, run_trial, sites,
};

const ABOUT: &str =
    "Runs a network of stations that order of each other over lossy links, and prints its report.";

const MORE: &str = "\
A hub and stations ST01, ST02 and so on run with threads, all at once. Each
station submits its orders to the next one, the last to the first, and starts
again after half of them. Packets are counted on each link, from 1.
With two hubs stations of even numbers are at HUB2, the others at HUB: orders
between them go from hub to hub.
It prints a line for each submitted transaction set, as `vanlab report` does, and
`settled`: all that the nodes did is one run of the network, and their callers
have a receipt of each call. Sets that are pending then are counted on standard
error, as `consistent, 40 pending`. Else it prints `inconsistent` and what was
found wrong: Stamp, Packet, Replay, Receipt or Stranger.
On a terminal a line on standard error says how the network stands meanwhile.

Example:
  vanlab network --stations 4 --lose 3 --double 4

Exit status:
  0  done
  1  a line says BAD, the network is inconsistent, or the run stopped; or the
     folder isn't empty
  2  the command line is wrong";

/// The words of the subcommand.
static WORDS: [Word; 9] = [
    Word {
        kind: Kind::Default("2"),
        name: "stations",
        value: "N",
        help: "How many stations, 2 to 16",
    },
    Word {
        kind: Kind::Default("1"),
        name: "hubs",
        value: "N",
        help: "How many hubs, 1 or 2: with 2, even stations are at HUB2",
    },
    Word {
        kind: Kind::Default("20"),
        name: "orders",
        value: "N",
        help: "How many orders each submits, 1 to 200",
    },
    Word {
        kind: Kind::Default("0"),
        name: "lose",
        value: "N",
        help: "Loses every Nth packet of each link; 0 loses none",
    },
    Word {
        kind: Kind::Default("0"),
        name: "double",
        value: "N",
        help: "Delivers every Nth of the others twice; 0 doubles none",
    },
    Word {
        kind: Kind::Default("0"),
        name: "hold",
        value: "N",
        help: "Delivers every Nth of the others after the next one; 0 holds none",
    },
    Word {
        kind: Kind::Default("100000"),
        name: "turns",
        value: "N",
        help: "At most so many turns a node, 1 to 1000000",
    },
    Word {
        kind: Kind::Value,
        name: "sqlite",
        value: "FOLDER",
        help: "Keeps the records of each node in a file of this folder, which is new or empty",
    },
    Word {
        kind: Kind::Flag,
        name: "quiet",
        value: "",
        help: "Shows no line on a terminal while it runs",
    },
];

/// The subcommand's part of the command line.
pub(crate) fn row() -> Row {
    Row {
        name: "network",
        about: ABOUT,
        more: MORE,
        words: &WORDS,
    }
}

/// The words that give a plan.
fn plan_words<'a>(found: &ArgMatches<'a>) -> PlanWords<'a> {
    PlanWords {
        stations: found.get_str("stations").unwrap_or(""),
        hubs: found.get_str("hubs").unwrap_or(""),
        orders: found.get_str("orders").unwrap_or(""),
        lose: found.get_str("lose").unwrap_or(""),
        double: found.get_str("double").unwrap_or(""),
        hold: found.get_str("hold").unwrap_or(""),
        turns: found.get_str("turns").unwrap_or(""),
    }
}

/// A line on a terminal that says how a trial stands, and is written anew.
#[derive(Drop)]
struct Line<'a> {
    rt: &'a HostRuntime,
}

impl Watch for Line<'_> {
    fn show(&self, standing: &Standing) {
        let Standing { events, open, turn } = standing;
        let _ = eprint!(self.rt; "\r{events} events, {open} open, turn {turn} ");
    }
}

/// Says why there is no report.
fn refused<E: Display + Drop>(rt: &HostRuntime, fault: E) -> Result<ExitCode> {
    eprintln!(rt; "error: {fault}")?;
    Ok(ExitCode::from(1))
}

/// Whether a line of a report tells of a set that is pending.
fn is_pending(line: &[u8]) -> bool {
    match line.get(55..63) {
        Some(fate) => fate == b"pending ".as_slice(),
        None => false,
    }
}

/// Says on standard error how many sets of a consistent network are pending, where any are.
fn tell_pending(rt: &HostRuntime, told: &[u8]) -> Result<ExitCode> {
    let mut pending = 0usize;
    for line in told.split(|b| *b == b'\n') {
        pending = pending.saturating_add(usize::from(is_pending(line)));
    }
    if pending > 0 {
        eprintln!(rt; "consistent, {pending} pending")?;
    }
    Ok(ExitCode::SUCCESS)
}

/// Runs a trial over these nodes, with a line that says how it stands on a terminal.
fn run_nodes<R, H, T>(
    rt: &HostRuntime,
    threads: &T,
    nodes: Vec<Node<R, H>>,
    plan: &TrialPlan,
    quiet: bool,
) -> Result<ExitCode>
where
    R: Records + Send + Drop,
    H: HubRecords + Send + Drop,
    T: Threads + Wait + Sync,
{
    let line = Line { rt };
    let shown = !quiet && rt.stderr().is_terminal();
    let watch = if shown { Some(&line) } else { None };
    let mut told = Vec::new(rt.alloc());
    let ended = run_trial(threads, rt.alloc(), nodes, plan, watch, &mut told);
    if shown {
        eprint!(rt; "\r\x1b[K")?;
    }
    if rt.stdout().write_all(&told).is_err() {
        return refused(rt, TrialFault::Write);
    }
    match ended {
        Ok(TrialStatus::Settled) => tell_pending(rt, &told),
        Ok(TrialStatus::BadReport | TrialStatus::Inconsistent) => Ok(ExitCode::from(1)),
        Err(fault) => refused(rt, fault),
    }
}

/// Runs a trial over nodes that are founded so.
fn run_founded<F: Founder, T: Threads + Wait + Sync>(
    rt: &HostRuntime,
    threads: &T,
    founder: &mut F,
    plan: &TrialPlan,
    quiet: bool,
) -> Result<ExitCode>
where
    F::Fault: Display,
{
    let Ok(sites) = sites(rt.alloc(), plan.stations, plan.hubs) else {
        return refused(rt, TrialFault::Memory);
    };
    match found(rt.alloc(), &sites, founder) {
        Ok(nodes) => run_nodes(rt, threads, nodes, plan, quiet),
        Err(fault) => refused(rt, fault),
    }
}

/// Runs a trial over records in databases.
fn run_over<D: Databases, T: Threads + Wait + Sync>(
    rt: &HostRuntime,
    threads: &T,
    databases: &D,
    plan: &TrialPlan,
    quiet: bool,
) -> Result<ExitCode> {
    let alloc = rt.alloc();
    run_founded(rt, threads, &mut Shelf { alloc, databases }, plan, quiet)
}

/// Runs a trial over records in the files of a folder.
fn run_in_folder<T: Threads + Wait + Sync>(
    rt: &HostRuntime,
    threads: &T,
    path: &str,
    plan: &TrialPlan,
    quiet: bool,
) -> Result<ExitCode> {
    match Folder::new(rt, path) {
        Ok(folder) => run_over(rt, threads, &folder, plan, quiet),
        Err(fault) => {
            eprintln!(rt; "error: {path}: {fault}")?;
            Ok(ExitCode::from(1))
        }
    }
}

/// Runs the subcommand with threads, and gives its exit status.
pub fn run<T: Threads + Wait + Sync>(
    rt: &HostRuntime,
    threads: &T,
    found: &ArgMatches<'_>,
) -> Result<ExitCode> {
    let plan = match read_plan(&plan_words(found)) {
        Ok(plan) => plan,
        Err(fault) => {
            eprintln!(rt; "error: {fault}")?;
            return Ok(ExitCode::from(2));
        }
    };
    let quiet = found.get_flag("quiet");
    match found.get_str("sqlite") {
        Some(path) => run_in_folder(rt, threads, path, &plan, quiet),
        None => run_founded(
            rt,
            threads,
            &mut InMemory { alloc: rt.alloc() },
            &plan,
            quiet,
        ),
    }
}
