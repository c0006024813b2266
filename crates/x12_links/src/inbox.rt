//! An inbox of a node: what was taken out of it, and then what it holds, is what was put into it.
ghost use Rattle.std.specs.Prelude.{◌≡◌, ◌++◌, [], true, false, IfOk, IfSome, IfNone, List, MatchResult};
ghost use Rattle.crossbeam_channel.specs.Claims.{view, IsSeatAt};
ghost use Rattle.crossbeam_channel.specs.Ends.{sends_on, receives_on};
ghost use Rattle.x12_links.specs.Inbox.{log, with_put, with_taken};

use crossbeam_channel::protocol::{Join, Lesson, Outcome, Protocol, Split};
use crossbeam_channel::{Pass, RuledReceiver, RuledSender, bounded_with};
use std::alloc::{AllocError, Global};
use std::collections::LinkedList;
use std::sync::Wait;

/// What a pass knows of its inbox: what it may do, and what it did. It exists in proofs alone.
pub struct Log<P> {
    /// Whether this pass puts parcels.
    pub puts: bool,
    /// Whether it takes them.
    pub takes: bool,
    /// What was put, the oldest first, if it puts.
    pub put: LinkedList<P>,
    /// What was taken, the oldest first, if it takes.
    pub took: LinkedList<P>,
}

/// The rule of an inbox: what was put is what was taken and then what it holds.
pub struct InOrder;

impl<P> Protocol<P, Log<P>> for InOrder {
    ghost use Rattle.std.specs.Prelude.{true, []};
    ghost use Rattle.x12_links.specs.Inbox.{log, Relayed};

    ghost holds = { Relayed };

    ghost first = { log true true [] [] };
}

struct Roles;

impl<P> Split<Log<P>> for Roles {
    ghost use Rattle.std.specs.Prelude.{true, false, []};
    ghost use Rattle.x12_links.specs.Inbox.{log};

    ghost left = { λ v. log true false v.put [] };

    ghost right = { λ v. log false true [] v.took };
}

impl<P> Join<Log<P>> for Roles {
    ghost use Rattle.std.specs.Prelude.{true, false, []};
    ghost use Rattle.x12_links.specs.Inbox.{log};

    ghost both = { λ v w. log true true v.put w.took };

    ghost spent = { log false false [] [] };
}

struct Puts;

impl<P> Outcome<P, Log<P>> for Puts {
    ghost use Rattle.std.specs.Prelude.{◌≡◌};
    ghost use Rattle.x12_links.specs.Inbox.{with_put};

    ghost then = { λ v x w. w ≡ with_put v x };
}

impl<P> Lesson<P, Log<P>> for Puts {
    ghost fact = { λ v items. Unit {0} };
}

struct Takes;

impl<P> Outcome<P, Log<P>> for Takes {
    ghost use Rattle.std.specs.Prelude.{◌≡◌};
    ghost use Rattle.x12_links.specs.Inbox.{with_taken};

    ghost then = { λ v x w. w ≡ with_taken v x };
}

impl<P> Lesson<P, Log<P>> for Takes {
    ghost fact = { λ v items. Unit {0} };
}

struct Total;

impl<P> Lesson<P, Log<P>> for Total {
    ghost use Rattle.std.specs.Prelude.{◌≡◌, ◌++◌};

    ghost fact = { λ v items. v.put ≡ v.took ++ items };
}

/// The end of an inbox where parcels are put.
pub type Sender<P> = RuledSender<P, Log<P>, InOrder>;

/// The end where they are taken.
pub type Receiver<P> = RuledReceiver<P, Log<P>, InOrder>;

/// What one thread knows of an inbox.
pub type Token<P> = Pass<P, Log<P>>;

/// How many parcels an inbox holds.
const PLACES: usize = 64;

/// The end of an inbox out of which a worker takes, and the node whose parcels come into it.
#[derive(Drop)]
pub(crate) struct Inlet<P: Copy> {
    pub(crate) from: u16,
    pub(crate) receiver: Receiver<P>,
    pub(crate) pass: Token<P>,
}

/// An inbox in which nothing is: both ends, the pass that puts and the pass that takes.
pub(crate) fn open_inbox<P: Copy>(
    alloc: Global,
) -> Result<(Sender<P>, Receiver<P>, Token<P>, Token<P>), AllocError>
    ensures ends { IfOk result (λ r. receives_on r.1 ≡ sends_on r.0) }
    ensures puts { IfOk result (λ r. IsSeatAt (sends_on r.0) r.2 × (view r.2 ≡ log true false [] [])) }
    ensures takes { IfOk result (λ r. IsSeatAt (sends_on r.0) r.3 × (view r.3 ≡ log false true [] [])) }
{
    let (sender, receiver, mut pass) = bounded_with::<P, Log<P>, InOrder, Global>(alloc, PLACES)?;
    let taker = sender.another::<Roles>(&mut pass);
    Ok((sender, receiver, pass, taker))
}

/// Puts a parcel, or hands it back where the inbox is full.
pub(crate) fn put<P: Copy, R: Wait>(
    rt: &R,
    sender: &Sender<P>,
    pass: &mut Token<P>,
    parcel: P,
) -> Result<(), P>
    requires seat { IsSeatAt (sends_on sender.now) pass.old }
    requires puts { (view pass.old).puts ≡ true }
    ensures seat { IsSeatAt (sends_on sender.now) pass.new }
    ensures put { MatchResult result
        (λ _. view pass.new ≡ with_put (view pass.old) parcel)
        (λ back. (back ≡ parcel) × (view pass.new ≡ view pass.old)) }
{
    match sender.try_send_as::<Puts, R>(rt, pass, parcel) {
        Ok(()) => Ok(()),
        Err(error) => Err(error.into_inner()),
    }
}

/// Takes the oldest parcel that an inbox holds, if it holds one.
pub(crate) fn take<P: Copy, R: Wait>(
    rt: &R,
    receiver: &Receiver<P>,
    pass: &mut Token<P>,
) -> Option<P>
    requires seat { IsSeatAt (receives_on receiver.now) pass.old }
    requires takes { (view pass.old).takes ≡ true }
    ensures seat { IsSeatAt (receives_on receiver.now) pass.new }
    ensures some { IfSome result (λ x. view pass.new ≡ with_taken (view pass.old) x) }
    ensures none { IfNone result (view pass.new ≡ view pass.old) }
{
    receiver.try_recv_as::<Takes, R>(rt, pass).ok()
}

/// What was put is what was taken, and then what nobody took.
pub(crate) fn compare<P: Copy>(sender: &Sender<P>, mut putter: Token<P>, taker: Token<P>)
    requires puts { IsSeatAt (sends_on sender.now) putter × ((view putter).puts ≡ true) }
    requires takes { IsSeatAt (sends_on sender.now) taker × ((view taker).takes ≡ true) }
    ensures { (rest : List P) × ((view putter).put ≡ (view taker).took ++ rest) }
{
    sender.absorb::<Roles>(&mut putter, taker);
    sender.learn_as::<Total>(&mut putter);
}
