//! How a run goes, as all of its threads see it.
ghost use Rattle.std.specs.Prelude.{◌≡◌};

use crate::plan::FaultPlan;
use std::alloc::AllocError;
use std::sync::Wait;
use std::sync::atomic::{AtomicBool, AtomicU64, Ordering};
use std::thread;
use std::time::Duration;

/// How often a thread yields at most until all threads of a run have begun.
const MOST_YIELDS: u64 = 1_000_000;

/// How long a thread rests that has nothing to do, in microseconds, and how long at most where it
/// has nothing to do again and again.
const SHORT_REST: u64 = 50;

const LONG_REST: u64 = 500;

/// Why a run ended early.
#[derive(Clone, Copy)]
pub enum Halt {
    /// The caller wanted it to end.
    Gate,
    /// Memory was missing, or a link had taken 2^64 - 1 parcels.
    Memory,
    /// No thread could be made.
    Spawn,
}

impl From<AllocError> for Halt {
    ghost from_gives = { λ _ _. Unit {0} };

    fn from(_: AllocError) -> Halt {
        Halt::Memory
    }
}

/// How a run goes: it is over when a thread halts it, when all workers are settled, or when all
/// have ended.
#[derive(Drop)]
pub(crate) struct Course {
    /// How many nodes there are, each with a worker.
    pub nodes: usize,
    /// What each link does with its parcels.
    pub plan: FaultPlan,
    /// How many turns a worker makes at most.
    pub turns: u64,
    connected: AtomicU64,
    awaited: AtomicU64,
    begun: AtomicU64,
    moved: AtomicU64,
    waiting: AtomicU64,
    settled: AtomicU64,
    ended: AtomicU64,
    stopped: AtomicBool,
    starved: AtomicBool,
    alone: AtomicBool,
    quiet: AtomicU64,
}

impl Course {
    /// The course of a run of so many nodes.
    pub fn new(nodes: usize, plan: FaultPlan, turns: u64) -> Course
        ensures { (result.nodes ≡ nodes) × (result.plan ≡ plan) }
    {
        Course {
            nodes,
            plan,
            turns,
            connected: AtomicU64::new(0),
            awaited: AtomicU64::new(0),
            begun: AtomicU64::new(0),
            moved: AtomicU64::new(0),
            waiting: AtomicU64::new(0),
            settled: AtomicU64::new(0),
            ended: AtomicU64::new(0),
            stopped: AtomicBool::new(false),
            starved: AtomicBool::new(false),
            alone: AtomicBool::new(false),
            quiet: AtomicU64::new(0),
        }
    }

    /// Whether no thread has to go on.
    pub fn is_over(&self) -> bool {
        self.is_settled() || self.ended.load(Ordering::SeqCst) >= self.nodes as u64
    }

    /// Whether no worker has to go on: a thread halted the run, or all workers are settled.
    pub fn is_settled(&self) -> bool {
        self.why().is_some() || self.settled.load(Ordering::SeqCst) >= self.nodes as u64
    }

    /// Why a thread halted the run, if one did: the caller's wish, then want of memory, then of threads.
    pub fn why(&self) -> Option<Halt> {
        if self.stopped.load(Ordering::SeqCst) {
            Some(Halt::Gate)
        } else if self.starved.load(Ordering::SeqCst) {
            Some(Halt::Memory)
        } else if self.alone.load(Ordering::SeqCst) {
            Some(Halt::Spawn)
        } else {
            None
        }
    }

    pub fn halt(&self, why: Halt) {
        match why {
            Halt::Gate => self.stopped.store(true, Ordering::SeqCst),
            Halt::Memory => self.starved.store(true, Ordering::SeqCst),
            Halt::Spawn => self.alone.store(true, Ordering::SeqCst),
        }
    }

    /// A node has so many inboxes: a thread for its worker is awaited, and one for the link into each.
    pub fn one_connected(&self, inboxes: usize) {
        let threads = (inboxes as u64).saturating_add(1);
        self.awaited.fetch_add(threads, Ordering::SeqCst);
        self.connected.fetch_add(1, Ordering::SeqCst);
    }

    /// A thread begins: it waits until all have. Where threads can't be made, they run one behind the
    /// other, so that the first would wait for ever: it halts the run.
    pub fn begin(&self) {
        self.begun.fetch_add(1, Ordering::SeqCst);
        for _ in 0..MOST_YIELDS {
            if self.have_begun() || self.why().is_some() {
                return;
            }
            thread::yield_now();
        }
        self.halt(Halt::Spawn);
    }

    /// Whether all threads have begun, of all nodes.
    fn have_begun(&self) -> bool {
        self.connected.load(Ordering::SeqCst) >= self.nodes as u64
            && self.begun.load(Ordering::SeqCst) >= self.awaited.load(Ordering::SeqCst)
    }

    /// Rests, the longer the more often this thread had nothing to do.
    pub fn rest<R: Wait>(&self, rt: &R, idle: u32) {
        let micros = SHORT_REST.saturating_mul(1 << idle.min(10)).min(LONG_REST);
        self.quiet
            .park_timeout(rt, 0, Duration::from_micros(micros));
    }

    /// Whether a worker has ended.
    pub fn has_ended(&self) -> bool {
        self.ended.load(Ordering::SeqCst) > 0
    }

    /// How often something has moved: a link took or put a parcel, or a worker took some.
    pub fn moved(&self) -> u64 {
        self.moved.load(Ordering::SeqCst)
    }

    pub fn one_moved(&self) {
        self.moved.fetch_add(1, Ordering::SeqCst);
    }

    /// Whether a worker does something else than to wait for a parcel.
    pub fn is_busy(&self) -> bool {
        self.waiting.load(Ordering::SeqCst) < self.nodes as u64
    }

    pub fn one_waits(&self) {
        self.waiting.fetch_add(1, Ordering::SeqCst);
    }

    pub fn one_works(&self) {
        self.waiting.fetch_sub(1, Ordering::SeqCst);
    }

    pub fn one_settled(&self) {
        self.settled.fetch_add(1, Ordering::SeqCst);
    }

    pub fn one_ended(&self) {
        self.ended.fetch_add(1, Ordering::SeqCst);
    }
}
