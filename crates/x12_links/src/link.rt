//! A link: one way between two nodes, from the wire into an inbox.
ghost use Rattle.std.specs.Prelude.{◌≡◌, ◌<◌, ◌∷◌, IfOk, IfSome, Option};
ghost use Rattle.std.specs.VecDeque.{deque_len, deque_capacity};
ghost use Rattle.crossbeam_channel.specs.Claims.{view};
ghost use Rattle.crossbeam_channel.specs.Ends.{sends_on, receives_on};
ghost use Rattle.x12_links.specs.declared.link.Way.{Way};
ghost use Rattle.x12_links.specs.Link.{IsLink, IsLinkWith, IsNewInlet, IsInlet, IsLane, IsSameLink};

use crate::course::{Course, Halt};
use crate::inbox::{Inlet, Sender, Token, compare, open_inbox, put};
use crate::plan::FaultPlan;
use crate::route::{Route, take_next};
use std::alloc::{AllocError, Global};
use std::collections::VecDeque;
use std::sync::Wait;

/// From one node to another, by their numbers.
#[derive(Clone, Copy)]
pub struct Way {
    pub from: u16,
    pub to: u16,
}

/// What links read: the parcels that nodes sent, by the way that each goes.
pub trait Wire<P: Copy> {
    /// This parcel was sent this way, behind that one, or first.
    ghost follows: { Self → Way → Option P → P → Type 0 };

    /// The next parcel that was sent this way, behind that one, or the first. None: there is none yet.
    fn next<R: Wait>(&self, rt: &R, way: Way, after: Option<P>) -> Result<Option<P>, Halt>
        ensures { IfOk result (λ o. IfSome o (λ p. follows self.now way after p)) };
}

/// One way between two nodes.
#[derive(Drop)]
pub(crate) struct Link<P: Copy> {
    sender: Sender<P>,
    pass: Token<P>,
    way: Way,
    plan: FaultPlan,
    last: Option<P>,
    route: Route<P>,
}

/// A new link of this wire and way, under a plan, and the inlet of its inbox.
pub(crate) fn connect<P: Copy, W: Wire<P>>(
    alloc: Global,
    wire: &W,
    way: Way,
    plan: FaultPlan,
) -> Result<(Link<P>, Inlet<P>), AllocError>
    ensures link { IfOk result (λ r. IsLink (W.follows wire.now) r.0) }
    ensures inlet { IfOk result (λ r. IsNewInlet r.1) }
    ensures one { IfOk result (λ r. receives_on r.1.receiver ≡ sends_on r.0.sender) }
    ensures way { IfOk result (λ r. (r.0.way ≡ way) × (r.0.plan ≡ plan) × (r.1.from ≡ way.from)) }
{
    let (sender, receiver, pass, taker) = open_inbox(alloc)?;
    let route = Route {
        count: 0,
        held: VecDeque::new(alloc),
        pending: VecDeque::new(alloc),
    };
    let link = Link {
        sender,
        pass,
        way,
        plan,
        last: None,
        route,
    };
    Ok((
        link,
        Inlet {
            from: way.from,
            receiver,
            pass: taker,
        },
    ))
}

/// Puts a parcel that was taken out of what is pending, or lays it back where the inbox is full.
fn put_first<P: Copy, W: Wire<P>, R: Wait>(rt: &R, wire: &W, link: &mut Link<P>, parcel: P) -> bool
    requires link { IsLinkWith (W.follows wire.now) (parcel ∷ link.old.route.pending.items) link.old }
    requires room { deque_len link.old.route.pending < deque_capacity link.old.route.pending }
    ensures link { IsLink (W.follows wire.now) link.new }
    ensures same { IsSameLink link.old link.new }
{
    match put(rt, &link.sender, &mut link.pass, parcel) {
        Ok(()) => true,
        Err(back) => {
            link.route.pending.push_front_reserved(back);
            false
        }
    }
}

/// One step of a link: it puts a parcel, or takes the next one. False: it did neither.
fn step<P: Copy, W: Wire<P>, R: Wait>(rt: &R, wire: &W, link: &mut Link<P>) -> Result<bool, Halt>
    requires { IsLink (W.follows wire.now) link.old }
    ensures link { IsLink (W.follows wire.now) link.new }
    ensures same { IsSameLink link.old link.new }
{
    if let Some(parcel) = link.route.pending.pop_front() {
        return Ok(put_first(rt, wire, link, parcel));
    }
    match wire.next(rt, link.way, link.last)? {
        Some(parcel) => {
            take_next(&link.plan, &mut link.route, parcel)?;
            link.last = Some(parcel);
            Ok(true)
        }
        None => Ok(false),
    }
}

/// The thread of a link: it takes and puts until the run is over.
pub(crate) fn run_link<P: Copy, W: Wire<P>, R: Wait>(
    rt: &R,
    wire: &W,
    course: &Course,
    link: &mut Link<P>,
)
    requires { IsLink (W.follows wire.now) link.old }
    ensures link { IsLink (W.follows wire.now) link.new }
    ensures same { IsSameLink link.old link.new }
{
    course.begin();
    let mut idle: u32 = 0;
    for _ in rt.forever() {
        if course.is_over() {
            return;
        }
        match step(rt, wire, link) {
            Ok(true) => {
                course.one_moved();
                idle = 0;
            }
            Ok(false) => {
                course.rest(rt, idle);
                idle = idle.saturating_add(1);
            }
            Err(why) => {
                course.halt(why);
                return;
            }
        }
    }
}

impl<P: Copy> Link<P> {
    /// Closes a link of this wire and the inlet of its inbox, once both of their threads have ended.
    pub fn close<W: Wire<P>>(self, wire: &W, inlet: Inlet<P>)
        requires link { IsLink (W.follows wire.now) self }
        requires inlet { IsInlet inlet }
        requires one { receives_on inlet.receiver ≡ sends_on self.sender }
        ensures { IsLane (W.follows wire.now self.way) self.plan (view inlet.pass).took }
    {
        let Link {
            sender,
            pass,
            way: _,
            plan: _,
            last: _,
            route: _,
        } = self;
        let Inlet {
            from: _,
            receiver: _,
            pass: taker,
        } = inlet;
        compare(&sender, pass, taker);
    }
}
