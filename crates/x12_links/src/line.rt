//! The links that come into a node, and the inlets of their inboxes.
ghost use Rattle.std.specs.Prelude.{◌≡◌, ◌<◌, ◌==◌, ℕ, IfOk, OnOk, length, slice_index_or};
ghost use Rattle.std.specs.List.{list_any};
ghost use Rattle.x12_links.specs.Link.{IsLink};
ghost use Rattle.x12_links.specs.Net.{AreConnected, AreDoneLinks, AreLanes, AreLinks, ArePaired};
ghost use Rattle.x12_links.specs.Net.{AreSameNumbers, IsDoneLink, IsLaneOf, IsAdded, IsPairedWith};
ghost use Rattle.x12_links.specs.Worker.{senders_of};

use crate::course::Course;
use crate::inbox::Inlet;
use crate::link::{Link, Way, Wire, connect, run_link};
use crate::plan::FaultPlan;
use std::alloc::{AllocError, Global};
use std::sync::Wait;
use std::thread;
use std::thread::Threads;

/// Whether one of these inboxes is for the parcels of this node.
fn is_open<P: Copy>(inlets: &[Inlet<P>], from: u16) -> bool
    ensures { result ≡ list_any (λ i. i.from == from) inlets.now }
{
    for inlet in inlets {
        if inlet.from == from {
            return true;
        }
    }
    false
}

/// A new link of this way, and the inlet of its inbox, where there is none from that node yet.
fn connect_once<P: Copy, W: Wire<P>>(
    alloc: Global,
    wire: &W,
    plan: FaultPlan,
    way: Way,
    links: &mut Vec<Link<P>>,
    inlets: &mut Vec<Inlet<P>>,
) -> Result<(), AllocError>
    requires { AreConnected (W.follows wire.now) plan way.to links.old.items inlets.old.items }
    ensures connected { OnOk result
        (AreConnected (W.follows wire.now) plan way.to links.new.items inlets.new.items) }
    ensures opened { OnOk result
        (IsAdded (senders_of inlets.old.items) way.from (senders_of inlets.new.items)) }
{
    if is_open(inlets, way.from) {
        return Ok(());
    }
    let (link, inlet) = connect(alloc, wire, way, plan)?;
    links.push(link)?;
    inlets.push(inlet)?;
    Ok(())
}

/// New links of this wire into a node, one from each of these, and the inlets of their inboxes.
pub(crate) fn connect_all<P: Copy, W: Wire<P>>(
    alloc: Global,
    wire: &W,
    plan: FaultPlan,
    node: u16,
    senders: &[u16],
) -> Result<(Vec<Link<P>>, Vec<Inlet<P>>), AllocError>
    ensures connected { IfOk result (λ r.
        AreConnected (W.follows wire.now) plan node r.0.items r.1.items) }
    ensures same { IfOk result (λ r. AreSameNumbers senders.now (senders_of r.1.items)) }
{
    let mut links = Vec::new(alloc);
    let mut inlets = Vec::new(alloc);
    for from in senders {
        let way = Way {
            from: *from,
            to: node,
        };
        connect_once(alloc, wire, plan, way, &mut links, &mut inlets)?;
    }
    Ok((links, inlets))
}

/// The thread of a link.
fn run_one<P: Copy, W: Wire<P>, R: Wait>(rt: &R, wire: &W, course: &Course, link: &mut Link<P>)
    requires { IsLink (W.follows wire.now) link.old }
    ensures { IsDoneLink (W.follows wire.now) link.old link.new }
{
    run_link(rt, wire, course, link);
}

/// Runs links, each in a thread of its own, until the run is over.
fn run_each<P: Copy + Send, W: Wire<P> + Sync, R: Threads + Wait + Sync>(
    rt: &R,
    wire: &W,
    course: &Course,
    links: &mut [Link<P>],
)
    requires some { 0 < length links.old }
    requires links { AreLinks (W.follows wire.now) links.old }
    ensures all { length links.new ≡ length links.old }
    ensures each { (k : ℕ) (d : Link P) → k < length links.old
        → IsDoneLink (W.follows wire.now) (slice_index_or links.old k d) (slice_index_or links.new k d) }
{
    let each = move |_i: usize, link: &mut Link<P>|
        requires { IsLink (W.follows wire.now) link.now }
        ensures { IsDoneLink (W.follows wire.entry.now) link.entry.now link.exit.now }
    { run_one(rt, wire, course, link) };
    let threads = links.len();
    thread::for_each_mut(rt, links, threads, &each);
}

/// Runs links, each in a thread of its own, until the run is over.
pub(crate) fn run_links<P: Copy + Send, W: Wire<P> + Sync, R: Threads + Wait + Sync>(
    rt: &R,
    wire: &W,
    course: &Course,
    links: &mut [Link<P>],
)
    requires { AreLinks (W.follows wire.now) links.old }
    ensures { AreDoneLinks (W.follows wire.now) links.old links.new }
{
    if links.is_empty() {
        return;
    }
    run_each(rt, wire, course, links);
}

/// Closes a link, and the inlet of its inbox.
fn close_next<P: Copy, W: Wire<P>>(wire: &W, link: Link<P>, inlet: Option<Inlet<P>>)
    requires { IsPairedWith (W.follows wire.now) link inlet }
    ensures { IsLaneOf (W.follows wire.now) link inlet }
{
    if let Some(inlet) = inlet {
        link.close(wire, inlet);
    }
}

/// Closes links, and the inlets of their inboxes.
pub(crate) fn close_all<P: Copy, W: Wire<P>>(wire: &W, links: Vec<Link<P>>, inlets: Vec<Inlet<P>>)
    requires { ArePaired (W.follows wire.now) links.items inlets.items }
    ensures { AreLanes (W.follows wire.now) links.items inlets.items }
{
    let mut links = links.into_iter();
    let mut inlets = inlets.into_iter();
    while let Some(link) = links.next() {
        close_next(wire, link, inlets.next());
    }
}
