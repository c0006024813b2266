//! Runs a network with threads.
ghost use Rattle.std.specs.Prelude.{◌≡◌, ◌≤◌, ◌⊎◌, [], All, IfErr, IfOk, List, OnOk, Some, length, map};
ghost use Rattle.std.specs.Prelude.{slice_get, vec_len, vec_capacity};
ghost use Rattle.x12_network.specs.declared.fault.NetFault.{NetFault};
ghost use Rattle.x12_network.specs.Deliveries.{IsAnswer};
ghost use Rattle.x12_network.specs.Linked.{AreLinked};
ghost use Rattle.x12_network.specs.Senders.{senders_into, ArePlaced};

use crate::caller::{Caller, Shared};
use crate::fault::NetFault;
use crate::line::Line;
use crate::patience::Patience;
use crate::senders::{Neighbours, neighbours_at};
use crate::tally::Tally;
use std::alloc::{AllocError, Global};
use std::sync::Wait;
use std::thread::Threads;
use x12_core::{Ask, Site};
use x12_envelopes::Moment;
use x12_hub::HubRecords;
use x12_links::{Endpoint, FaultPlan, Halt, run_net};
use x12_nodes::{Gate, Node, Pass, Wire};
use x12_station::Records;

/// A network: its nodes and where each of them stands, the wire of their parties, and a tally for whoever
/// watches it. A node that has no site hears nothing.
#[derive(Drop)]
pub struct Network<'n, R: Records, H: HubRecords> {
    /// The nodes: the hub, its stations by rising number, and then the second hub, if there is one.
    pub nodes: &'n [Node<R, H>],
    /// Their sites, in the order of the nodes.
    pub sites: &'n [Site],
    /// The wire.
    pub wire: &'n Wire,
    /// What a run of it has come to so far.
    pub tally: &'n Tally,
}

/// How a network is run.
#[derive(Clone, Copy)]
pub struct RunPlan {
    /// What links lose, double and hold.
    pub faults: FaultPlan,
    /// How many turns a worker makes at most.
    pub turns: u64,
    /// The moment of each delivery.
    pub at: Moment,
}

/// The caller of a node that has these jobs and waits so long.
fn caller<'n, R: Records, H: HubRecords, G: Gate>(
    alloc: Global,
    node: &'n Node<R, H>,
    shared: &'n Shared<'n, G>,
    jobs: Option<Vec<Ask>>,
    patience: Patience,
) -> Caller<'n, R, H, G>
    ensures { result.pass ≡ [] }
{
    let mut jobs = jobs.unwrap_or(Vec::new(alloc));
    jobs.reverse();
    Caller {
        node,
        shared,
        pass: Pass::new(alloc),
        jobs,
        calls: 0,
        sent: 0,
        patience,
        is_open: true,
    }
}

/// The endpoint of a node, whose site is at this place.
fn endpoint<'n, R: Records, H: HubRecords, G: Gate>(
    alloc: Global,
    sites: &[Site],
    place: usize,
    node: &'n Node<R, H>,
    shared: &'n Shared<'n, G>,
    jobs: Option<Vec<Ask>>,
) -> Result<Endpoint<Caller<'n, R, H, G>>, AllocError>
    ensures new { IfOk result (λ e. e.recipient.pass ≡ []) }
    ensures placed { IfOk result (λ e. (at : Site) → slice_get sites.now place ≡ Some at →
        (e.node ≡ at.node) × (e.senders.items ≡ senders_into sites.now at)) }
{
    let Neighbours {
        node: number,
        senders,
        mailboxes,
        is_linked,
    } = neighbours_at(alloc, sites, place, node.number())?;
    Ok(Endpoint {
        node: number,
        senders,
        recipient: caller(
            alloc,
            node,
            shared,
            jobs,
            Patience::new(mailboxes, is_linked),
        ),
    })
}

/// Puts the endpoints of a network's nodes, each with its jobs.
fn put_endpoints<'n, R: Records, H: HubRecords, G: Gate>(
    alloc: Global,
    network: &Network<'n, R, H>,
    shared: &'n Shared<'n, G>,
    jobs: Vec<Vec<Ask>>,
    endpoints: &mut Vec<Endpoint<Caller<'n, R, H, G>>>,
) -> Result<(), AllocError>
    requires none { endpoints.old.items ≡ [] }
    requires room { length network.now.nodes.now ≤ vec_capacity endpoints.old }
    ensures all { OnOk result (length endpoints.new.items ≡ length network.now.nodes.now) }
    ensures new { OnOk result
        (All (λ p. p ≡ []) (map (λ e. e.recipient.pass) endpoints.new.items)) }
    ensures placed { OnOk result (ArePlaced network.now.sites.now
        (map (λ e. (e.node, e.senders.items)) endpoints.new.items)) }
{
    let (nodes, sites) = (network.nodes, network.sites);
    let mut jobs = jobs.into_iter();
    for place in 0..nodes.len() {
        let next = endpoint(alloc, sites, place, &nodes[place], shared, jobs.next())?;
        endpoints.push_reserved(next);
    }
    Ok(())
}

/// Runs the endpoints of a network's nodes.
fn run_endpoints<R, H, G, W>(
    rt: &W,
    alloc: Global,
    line: &Line<'_>,
    plan: &RunPlan,
    endpoints: &mut Vec<Endpoint<Caller<'_, R, H, G>>>,
) -> Option<Halt>
where
    R: Records + Send,
    H: HubRecords + Send,
    G: Gate + Sync,
    W: Threads + Wait + Sync,
    requires new { All (λ p. p ≡ []) (map (λ e. e.recipient.pass) endpoints.old.items) }
    ensures all { length endpoints.new.items ≡ length endpoints.old.items }
    ensures linked { (sites : List Site)
        → ArePlaced sites (map (λ e. (e.node, e.senders.items)) endpoints.old.items)
        → AreLinked (IsAnswer G.lets) plan.now.faults sites
        (map (λ e. e.recipient.pass) endpoints.new.items) }
{
    run_net(rt, alloc, line, plan.faults, plan.turns, endpoints)
}

/// Ends an endpoint: its pass.
fn end<R: Records, H: HubRecords, G: Gate>(endpoint: Endpoint<Caller<'_, R, H, G>>) -> Pass
    ensures { result ≡ endpoint.entry.recipient.pass }
{
    let Endpoint {
        node: _,
        senders: _,
        recipient,
    } = endpoint;
    recipient.end()
}

/// Ends endpoints: their passes.
fn end_all<R: Records, H: HubRecords, G: Gate>(
    endpoints: Vec<Endpoint<Caller<'_, R, H, G>>>,
    passes: &mut Vec<Pass>,
)
    requires none { passes.old.items ≡ [] }
    requires room { vec_len endpoints ≤ vec_capacity passes.old }
    ensures { passes.new.items ≡ map (λ e. e.recipient.pass) endpoints.entry.items }
{
    let mut left = endpoints.into_iter();
    while let Some(endpoint) = left.next() {
        passes.push_reserved(end(endpoint));
    }
    left.destroy_empty();
}

/// Lets endpoints go, whose nodes weren't called.
fn let_go<R: Records, H: HubRecords, G: Gate>(endpoints: Vec<Endpoint<Caller<'_, R, H, G>>>) {
    let mut left = endpoints.into_iter();
    while let Some(endpoint) = left.next() {
        end(endpoint).discard();
    }
    left.destroy_empty();
}

/// Runs the nodes of a network, each called by a worker of its own, with a list of jobs for each node, in
/// their order. Links run both ways between each station and its hub, and between the two hubs. In a turn
/// a worker delivers at most one packet out of each of its inboxes, then makes its node's next job, or an
/// event of the node's own where neither is there: a station a tick, a hub a collection, of the mailboxes
/// of its stations and then of the other hub. A job or a delivery that a node refuses isn't made again; a
/// job that delivers a packet isn't made, and a list that has no node neither.
///
/// The run ends when all jobs are made and no station has an open set, when each worker made its turns,
/// or early, by a fault. The passes of the workers come back, in the order of the nodes; none, by
/// `Memory`, and no node was called, where memory for them is missing.
#[tactic(auto, using(crate::proofs::CallerLemmas::none_linked, crate::proofs::CallerLemmas::passes_linked, crate::proofs::CallerLemmas::passes_all))]
pub fn run_network<
    R: Records + Send,
    H: HubRecords + Send,
    G: Gate + Sync,
    W: Threads + Wait + Sync,
>(
    rt: &W,
    alloc: Global,
    network: &Network<'_, R, H>,
    jobs: Vec<Vec<Ask>>,
    plan: &RunPlan,
    gate: &G,
) -> Result<Vec<Pass>, (Vec<Pass>, NetFault)>
    ensures all { IfOk result (λ v. length v.items ≡ length network.now.nodes.now) }
    ensures linked { IfOk result (λ v.
        AreLinked (IsAnswer G.lets) plan.now.faults network.now.sites.now v.items) }

    // What an error leaves.
    ensures back { IfErr result (λ e. (length e.0.items ≡ length network.now.nodes.now)
        ⊎ ((e.0.items ≡ []) × (e.1 ≡ NetFault.Memory))) }
    ensures linked_back { IfErr result (λ e.
        AreLinked (IsAnswer G.lets) plan.now.faults network.now.sites.now e.0.items) }
{
    let (nodes, wire) = (network.nodes, network.wire);
    let Ok(mut endpoints) = Vec::with_capacity(alloc, nodes.len()) else {
        return Err((Vec::new(alloc), NetFault::Memory));
    };
    let Ok(mut passes) = Vec::with_capacity(alloc, nodes.len()) else {
        endpoints.destroy_empty();
        return Err((Vec::new(alloc), NetFault::Memory));
    };
    let shared = Shared {
        wire,
        gate,
        at: plan.at,
        tally: network.tally,
    };
    if let Err(_) = put_endpoints(alloc, network, &shared, jobs, &mut endpoints) {
        let_go(endpoints);
        return Err((passes, NetFault::Memory));
    }
    let halt = run_endpoints(rt, alloc, &Line { wire }, plan, &mut endpoints);
    end_all(endpoints, &mut passes);
    match halt {
        None => Ok(passes),
        Some(halt) => Err((passes, NetFault::from(halt))),
    }
}
