//! Runs a trial network, and writes the report of what everybody holds.

use crate::ending::{audits_of, discard, end_parts};
use crate::fault::TrialFault;
use crate::founding::{end_nodes, parties, sites};
use crate::jobs::jobs_of_nodes;
use crate::pace::Pace;
use crate::plan::TrialPlan;
use crate::watching::{Watch, WatchedPace};
use std::alloc::Global;
use std::io::Write;
use std::sync::Wait;
use std::sync::atomic::AtomicU64;
use std::thread::Threads;
use x12_answering::write_last;
use x12_core::Ask;
use x12_envelopes::Moment;
use x12_hub::HubRecords;
use x12_network::{NetFault, Network, RunPlan, Tally, run_network};
use x12_nodes::{Check, Node, Pass, SettleFault, Settlement, Wire, settle};
use x12_report::report;
use x12_station::Records;

/// How a trial ended.
#[derive(Clone, Copy)]
pub enum TrialStatus {
    /// The network is settled, and no line of the report says `BAD`.
    Settled,
    /// It is settled, and a line says `BAD`.
    BadReport,
    /// A check found something wrong of the nodes' logs and the passes.
    Inconsistent,
}

/// The moment of all that is written: 2 January 2025, 09:30.
#[tactic(auto, unfolding(x12_envelopes::specs::Moment::text_is_date, x12_envelopes::specs::Moment::text_is_time, x12_envelopes::specs::Byte::value_of_digits))]
pub fn moment() -> Moment {
    Moment::new(*b"20250102", *b"0930").unwrap()
}

/// The name of a check.
fn name_of(check: Check) -> &'static [u8] {
    match check {
        Check::Stamp => b"inconsistent Stamp\n",
        Check::Packet => b"inconsistent Packet\n",
        Check::Replay => b"inconsistent Replay\n",
        Check::Receipt => b"inconsistent Receipt\n",
        Check::Stranger => b"inconsistent Stranger\n",
    }
}

/// The wire of a trial's network.
fn wire_of(alloc: Global, plan: &TrialPlan) -> Result<Wire, TrialFault> {
    let sites = sites(alloc, plan.stations, plan.hubs)?;
    Ok(Wire::new(alloc, &parties(alloc, &sites)?, plan.hubs > 1)?)
}

/// Runs a trial's network with these jobs, while somebody watches it or nobody.
fn run_watched<'n, R, H, V, W>(
    rt: &'n W,
    alloc: Global,
    network: &Network<'n, R, H>,
    jobs: Vec<Vec<Ask>>,
    plan: &TrialPlan,
    watch: Option<&'n V>,
) -> Result<Vec<Pass>, (Vec<Pass>, NetFault)>
where
    R: Records + Send,
    H: HubRecords + Send,
    V: Watch + Sync,
    W: Threads + Wait + Sync,
{
    let run = RunPlan {
        faults: plan.faults,
        turns: plan.turns,
        at: moment(),
    };
    let gate = WatchedPace {
        pace: Pace::new(plan.stations, plan.hubs, plan.turns),
        rt,
        nodes: network.nodes,
        tally: network.tally,
        watch,
        calls: AtomicU64::new(0),
    };
    run_network(rt, alloc, network, jobs, &run, &gate)
}

/// Runs the nodes of a trial, while somebody watches it or nobody.
fn run_nodes<R, H, V, W>(
    rt: &W,
    alloc: Global,
    nodes: &[Node<R, H>],
    wire: &Wire,
    plan: &TrialPlan,
    watch: Option<&V>,
) -> Result<Vec<Pass>, (Vec<Pass>, NetFault)>
where
    R: Records + Send,
    H: HubRecords + Send,
    V: Watch + Sync,
    W: Threads + Wait + Sync,
{
    let Ok(sites) = sites(alloc, plan.stations, plan.hubs) else {
        return Err((Vec::new(alloc), NetFault::Memory));
    };
    let Ok(jobs) = jobs_of_nodes(alloc, moment(), &sites, plan.orders) else {
        return Err((Vec::new(alloc), NetFault::Memory));
    };
    let tally = Tally::new();
    let network = Network {
        nodes,
        sites: &sites,
        wire,
        tally: &tally,
    };
    run_watched(rt, alloc, &network, jobs, plan, watch)
}

/// Whether a line of a report says `BAD`.
fn has_bad_line(report: &[u8]) -> bool {
    report
        .split(|byte| *byte == b'\n')
        .any(|line| line.ends_with(b"BAD"))
}

/// Writes the report of a settled network, which ends.
fn tell_settled<R: Records + Drop, H: HubRecords + Drop, O: Write>(
    alloc: Global,
    settlement: Settlement<R, H>,
    out: &mut O,
) -> Result<TrialStatus, TrialFault> {
    let audits = audits_of(alloc, settlement)?;
    let mut text = report(alloc, &audits)?;
    let is_bad = has_bad_line(&text);
    text.extend_from_slice(b"settled\n")?;
    write_last(&mut text, out)?;
    if is_bad {
        Ok(TrialStatus::BadReport)
    } else {
        Ok(TrialStatus::Settled)
    }
}

/// Writes which check found something wrong.
fn tell_fault<O: Write>(
    alloc: Global,
    fault: SettleFault,
    out: &mut O,
) -> Result<TrialStatus, TrialFault> {
    let SettleFault::Inconsistent(check) = fault else {
        return Err(TrialFault::Memory);
    };
    let mut text = Vec::from_slice(alloc, name_of(check))?;
    write_last(&mut text, out)?;
    Ok(TrialStatus::Inconsistent)
}

/// Runs a trial: the nodes that were founded by this plan run with threads, while somebody watches them
/// or nobody, and are settled. It writes the report of what everybody holds at the end and `settled`; or
/// `inconsistent` and the check that found something wrong.
pub fn run_trial<R, H, V, W, O: Write>(
    rt: &W,
    alloc: Global,
    nodes: Vec<Node<R, H>>,
    plan: &TrialPlan,
    watch: Option<&V>,
    out: &mut O,
) -> Result<TrialStatus, TrialFault>
where
    R: Records + Send + Drop,
    H: HubRecords + Send + Drop,
    V: Watch + Sync,
    W: Threads + Wait + Sync,
{
    let wire = match wire_of(alloc, plan) {
        Ok(wire) => wire,
        Err(fault) => {
            end_nodes(nodes);
            return Err(fault);
        }
    };
    match run_nodes(rt, alloc, &nodes, &wire, plan, watch) {
        Ok(passes) => match settle(alloc, nodes, wire, passes) {
            Ok(settlement) => tell_settled(alloc, settlement, out),
            Err((fault, parts)) => {
                end_parts(parts);
                tell_fault(alloc, fault, out)
            }
        },
        Err((passes, fault)) => {
            discard(passes);
            end_nodes(nodes);
            Err(TrialFault::Run(fault))
        }
    }
}
