//! A net: nodes, each with a worker, and a link from each node that sends to another one.
ghost use Rattle.std.specs.Prelude.{◌≡◌, ◌<◌, [], length, slice_index_or, ℕ};
ghost use Rattle.x12_links.specs.declared.net.Endpoint.{Endpoint};
ghost use Rattle.x12_links.specs.Net.{AreDoneLinks, AreLinks, IsNodeHeard};
ghost use Rattle.x12_links.specs.Worker.{IsServing, Serves};
ghost use Rattle.std.specs.Thread.{IsSend, IsSync};

use crate::course::{Course, Halt};
use crate::inbox::Inlet;
use crate::line::{close_all, connect_all, run_links};
use crate::link::{Link, Wire};
use crate::plan::FaultPlan;
use crate::worker::{Recipient, run_worker};
use std::alloc::Global;
use std::sync::Wait;
use std::thread;
use std::thread::Threads;

/// A node of a net.
pub struct Endpoint<D> {
    /// Its number.
    pub node: u16,
    /// The numbers of the nodes that send to it: into an inbox for each. One that stands twice counts once.
    pub senders: Vec<u16>,
    /// Whom its worker calls.
    pub recipient: D,
}

/// Runs the links into a node, and its worker, each in a thread of its own.
fn run_threads<P: Copy + Send, D: Recipient<P> + Send, W: Wire<P> + Sync, R: Threads + Wait + Sync>(
    rt: &R,
    wire: &W,
    course: &Course,
    links: &mut [Link<P>],
    recipient: &mut D,
    inlets: &mut Vec<Inlet<P>>,
)
    requires links { AreLinks (W.follows wire.now) links.old }
    requires inlets { IsServing D.answered 0 (D.delivered recipient.old) inlets.old.items }
    ensures links { AreDoneLinks (W.follows wire.now) links.old links.new }
    ensures inlets { Serves D.answered (D.delivered recipient.new) inlets.old.items inlets.new.items }
{
    let mut move_parcels = ||
        requires { IsSync R.row × IsSync W.row × IsSend P.row × AreLinks (W.follows wire.now) links.now }
        ensures { AreDoneLinks (W.follows wire.entry.now) links.entry.now links.exit.now }
    { run_links(rt, wire, course, links) };
    let mut serve = ||
        requires { IsServing D.answered 0 (D.delivered recipient.now) inlets.now.items }
        ensures { Serves D.answered (D.delivered recipient.exit.now)
            inlets.entry.now.items inlets.exit.now.items }
    { run_worker(rt, course, recipient, inlets) };
    thread::join_mut(rt, &mut move_parcels, &mut serve);
}

/// The same, with the links in a vector.
fn run_all<P: Copy + Send, D: Recipient<P> + Send, W: Wire<P> + Sync, R: Threads + Wait + Sync>(
    rt: &R,
    wire: &W,
    course: &Course,
    links: &mut Vec<Link<P>>,
    recipient: &mut D,
    inlets: &mut Vec<Inlet<P>>,
)
    requires links { AreLinks (W.follows wire.now) links.old.items }
    requires inlets { IsServing D.answered 0 (D.delivered recipient.old) inlets.old.items }
    ensures links { AreDoneLinks (W.follows wire.now) links.old.items links.new.items }
    ensures inlets { Serves D.answered (D.delivered recipient.new) inlets.old.items inlets.new.items }
{
    run_threads(rt, wire, course, links, recipient, inlets);
}

/// Connects a node, runs its threads and closes its inboxes.
#[tactic(auto, using(crate::proofs::NetLemmas::links_begin, crate::proofs::NetLemmas::worker_begins, crate::proofs::NetLemmas::still_paired, crate::proofs::NetLemmas::node_heard))]
fn run_node<P: Copy + Send, D: Recipient<P> + Send, W: Wire<P> + Sync, R: Threads + Wait + Sync>(
    rt: &R,
    alloc: Global,
    wire: &W,
    course: &Course,
    endpoint: &mut Endpoint<D>,
)
    requires { (from : ℕ) → D.delivered endpoint.old.recipient from ≡ [] }
    ensures { IsNodeHeard (W.follows wire.now) D.answered course.now.plan endpoint.old.node
        endpoint.old.senders.items (D.delivered endpoint.new.recipient) }
{
    let (node, plan) = (endpoint.node, course.plan);
    let Ok((mut links, mut inlets)) = connect_all(alloc, wire, plan, node, &endpoint.senders) else {
        course.halt(Halt::Memory);
        return;
    };
    course.one_connected(inlets.len());
    run_all(
        rt,
        wire,
        course,
        &mut links,
        &mut endpoint.recipient,
        &mut inlets,
    );
    close_all(wire, links, inlets);
}

/// Runs a net, whose nodes are a slice.
fn run_slice<P: Copy + Send, D: Recipient<P> + Send, W: Wire<P> + Sync, R: Threads + Wait + Sync>(
    rt: &R,
    alloc: Global,
    wire: &W,
    plan: FaultPlan,
    turns: u64,
    endpoints: &mut [Endpoint<D>],
) -> Option<Halt>
    requires { (i : ℕ) (e : Endpoint D) → i < length endpoints.old
        → (from : ℕ) → D.delivered (slice_index_or endpoints.old i e).recipient from ≡ [] }
    ensures all { length endpoints.new ≡ length endpoints.old }
    ensures heard { (i : ℕ) (e : Endpoint D) → i < length endpoints.old
        → IsNodeHeard (W.follows wire.now) D.answered plan (slice_index_or endpoints.old i e).node
        (slice_index_or endpoints.old i e).senders.items
        (D.delivered (slice_index_or endpoints.new i e).recipient) }
{
    let nodes = endpoints.len();
    if nodes == 0 {
        return None;
    }
    let course = Course::new(nodes, plan, turns);
    let shared = &course;
    let each = move |_i: usize, endpoint: &mut Endpoint<D>|
        requires { (from : ℕ) → D.delivered endpoint.now.recipient from ≡ [] }
        ensures { IsNodeHeard (W.follows wire.entry.now) D.answered
            shared.entry.now.plan endpoint.entry.now.node endpoint.entry.now.senders.items
            (D.delivered endpoint.exit.now.recipient) }
    { run_node(rt, alloc, wire, shared, endpoint) };
    thread::for_each_mut(rt, endpoints, nodes, &each);
    course.why()
}

/// Runs a net. Each of its nodes has a worker in a thread of its own, and an inbox for the parcels of
/// each node that sends to it, into which goes a link in a thread of its own.
///
/// It ends when a thread halts it, when all workers are settled, or when each made so many turns. The
/// answer is why it was halted, if it was. Where memory for the links into a node is missing, nothing
/// was delivered to that node, and the run is halted.
pub fn run_net<P: Copy + Send, D: Recipient<P> + Send, W: Wire<P> + Sync, R: Threads + Wait + Sync>(
    rt: &R,
    alloc: Global,
    wire: &W,
    plan: FaultPlan,
    turns: u64,
    endpoints: &mut Vec<Endpoint<D>>,
) -> Option<Halt>
    requires new { (i : ℕ) (e : Endpoint D) → i < length endpoints.old.items
        → (from : ℕ) → D.delivered (slice_index_or endpoints.old.items i e).recipient from ≡ [] }
    ensures all { length endpoints.new.items ≡ length endpoints.old.items }
    ensures heard { (i : ℕ) (e : Endpoint D) → i < length endpoints.old.items
        → IsNodeHeard (W.follows wire.now) D.answered plan
        (slice_index_or endpoints.old.items i e).node
        (slice_index_or endpoints.old.items i e).senders.items
        (D.delivered (slice_index_or endpoints.new.items i e).recipient) }
{
    run_slice(rt, alloc, wire, plan, turns, endpoints)
}
