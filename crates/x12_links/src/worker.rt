//! A worker: it takes parcels out of the inboxes of its node, and calls the node.
ghost use Rattle.std.specs.Prelude.{◌≡◌, ◌≢◌, IfOk, List, ℕ};
ghost use Rattle.x12_links.specs.Worker.{cut_by, made, AreSameInboxes, GetsOneMore};
ghost use Rattle.x12_links.specs.Worker.{IsServed, IsServing, Serves};

use crate::calm::{Calm, Looks};
use crate::course::{Course, Halt};
use crate::inbox::{Inlet, take};
use std::sync::Wait;

/// How often a worker looks into its inboxes in a turn at most.
const MOST_LOOKS: u64 = 100_000;

/// What became of a parcel at its node.
#[derive(Clone, Copy)]
pub enum Delivery {
    /// It was delivered.
    Made,
    /// The node refused it.
    Refused,
}

/// How far a node is.
#[derive(Clone, Copy)]
pub enum Progress {
    /// Something is still to come.
    Busy,
    /// All that it has to do is done, and it stays so.
    Settled,
}

/// What a worker calls: a node, with the jobs that are its own.
pub trait Recipient<P: Copy> {
    ghost use Rattle.x12_links.specs.declared.worker.Delivery.{Delivery};

    /// What was delivered of each node's parcels, the oldest first.
    ghost delivered: { Self → ℕ → List P };

    /// What its node answered about a parcel of the node of this number. Who wasn't asked has none.
    ghost answered: { ℕ → P → Delivery → Type 0 };

    /// A parcel comes, out of the inbox for those of the node of this number.
    fn deliver<R: Wait>(&mut self, rt: &R, from: u16, parcel: P) -> Result<Delivery, Halt>
        ensures delivered { GetsOneMore (delivered self.old) (delivered self.new) from (made result parcel) }
        ensures answered { IfOk result (λ answer. answered from parcel answer) };

    /// The node's next job, or an event of its own, in the turn of this number, in which a parcel came
    /// to it, or none.
    fn work<R: Wait>(&mut self, rt: &R, turn: u64, came: bool) -> Result<Progress, Halt>
        ensures { (from : ℕ) → delivered self.new from ≡ delivered self.old from };

    /// How long its worker waits for a parcel in a turn before the node works without one.
    fn patience(&self) -> Looks;
}

/// Takes at most one parcel out of an inbox, and delivers it. True: there was one.
fn serve<P: Copy, D: Recipient<P>, R: Wait>(
    rt: &R,
    recipient: &mut D,
    inlet: &mut Inlet<P>,
) -> Result<bool, Halt>
    requires { IsServed D.answered 0 (D.delivered recipient.old) inlet.old }
    ensures served { IsServed D.answered (cut_by result) (D.delivered recipient.new) inlet.new }
    ensures others { (from : ℕ) → from ≢ inlet.old.from
        → D.delivered recipient.new from ≡ D.delivered recipient.old from }
    ensures same { (inlet.new.receiver ≡ inlet.old.receiver) × (inlet.new.from ≡ inlet.old.from) }
{
    let Some(parcel) = take(rt, &inlet.receiver, &mut inlet.pass) else {
        return Ok(false);
    };
    recipient.deliver(rt, inlet.from, parcel)?;
    Ok(true)
}

/// Takes at most one parcel out of each inbox, and delivers it. True: there was one.
fn serve_each<P: Copy, D: Recipient<P>, R: Wait>(
    rt: &R,
    recipient: &mut D,
    inlets: &mut Vec<Inlet<P>>,
) -> Result<bool, Halt>
    requires { IsServing D.answered 0 (D.delivered recipient.old) inlets.old.items }
    ensures served { IsServing D.answered (cut_by result) (D.delivered recipient.new) inlets.new.items }
    ensures same { AreSameInboxes inlets.old.items inlets.new.items }
{
    let mut came = false;
    for inbox in 0..inlets.len() {
        came |= serve(rt, recipient, &mut inlets[inbox])?;
    }
    Ok(came)
}

/// Waits for a parcel as long as a node has patience, and delivers it. True: there was one.
fn wait_for_parcel<P: Copy, D: Recipient<P>, R: Wait>(
    rt: &R,
    course: &Course,
    recipient: &mut D,
    inlets: &mut Vec<Inlet<P>>,
) -> Result<bool, Halt>
    requires { IsServing D.answered 0 (D.delivered recipient.old) inlets.old.items }
    ensures served { IsServing D.answered (cut_by result) (D.delivered recipient.new) inlets.new.items }
    ensures same { AreSameInboxes inlets.old.items inlets.new.items }
{
    let mut calm = Calm::new(course, recipient.patience());
    for _ in 0..MOST_LOOKS {
        if calm.is_enough(course) {
            return Ok(false);
        }
        course.rest(rt, 0);
        if serve_each(rt, recipient, inlets)? {
            return Ok(true);
        }
    }
    Ok(false)
}

/// Takes at most one parcel out of each inbox; where none is there at once, it waits for one as long as
/// its node has patience. True: there was one.
fn serve_or_wait<P: Copy, D: Recipient<P>, R: Wait>(
    rt: &R,
    course: &Course,
    recipient: &mut D,
    inlets: &mut Vec<Inlet<P>>,
) -> Result<bool, Halt>
    requires { IsServing D.answered 0 (D.delivered recipient.old) inlets.old.items }
    ensures served { IsServing D.answered (cut_by result) (D.delivered recipient.new) inlets.new.items }
    ensures same { AreSameInboxes inlets.old.items inlets.new.items }
{
    if serve_each(rt, recipient, inlets)? {
        return Ok(true);
    }
    course.one_waits();
    let came = wait_for_parcel(rt, course, recipient, inlets);
    course.one_works();
    came
}

/// One turn of a worker: at most one parcel out of each inbox, then what its node has to do.
fn take_turn<P: Copy, D: Recipient<P>, R: Wait>(
    rt: &R,
    course: &Course,
    turn: u64,
    recipient: &mut D,
    inlets: &mut Vec<Inlet<P>>,
) -> Result<Progress, Halt>
    requires { IsServing D.answered 0 (D.delivered recipient.old) inlets.old.items }
    ensures served { IsServing D.answered (cut_by result) (D.delivered recipient.new) inlets.new.items }
    ensures same { AreSameInboxes inlets.old.items inlets.new.items }
{
    let came = serve_or_wait(rt, course, recipient, inlets)?;
    if came {
        course.one_moved();
    }
    if course.is_settled() {
        return Ok(Progress::Busy);
    }
    recipient.work(rt, turn, came)
}

/// Tells the other threads, once, that a worker is settled.
fn tell(course: &Course, settled: &mut bool, told: Progress) {
    match told {
        Progress::Busy => {}
        Progress::Settled => {
            if !*settled {
                *settled = true;
                course.one_settled();
            }
        }
    }
}

/// The turns of a worker: so many, but none once the run is settled, and none behind one that halts it.
fn make_turns<P: Copy, D: Recipient<P>, R: Wait>(
    rt: &R,
    course: &Course,
    recipient: &mut D,
    inlets: &mut Vec<Inlet<P>>,
)
    requires { IsServing D.answered 0 (D.delivered recipient.old) inlets.old.items }
    ensures { Serves D.answered (D.delivered recipient.new) inlets.old.items inlets.new.items }
{
    let mut settled = false;
    for turn in 0..course.turns {
        if course.is_settled() {
            return;
        }
        match take_turn(rt, course, turn, recipient, inlets) {
            Ok(told) => tell(course, &mut settled, told),
            Err(why) => {
                course.halt(why);
                return;
            }
        }
    }
}

/// The worker of a node, as a thread.
pub(crate) fn run_worker<P: Copy, D: Recipient<P>, R: Wait>(
    rt: &R,
    course: &Course,
    recipient: &mut D,
    inlets: &mut Vec<Inlet<P>>,
)
    requires { IsServing D.answered 0 (D.delivered recipient.old) inlets.old.items }
    ensures { Serves D.answered (D.delivered recipient.new) inlets.old.items inlets.new.items }
{
    course.begin();
    make_turns(rt, course, recipient, inlets);
    course.one_ended();
}
