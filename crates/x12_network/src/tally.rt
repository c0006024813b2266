//! What a run has come to so far.

use std::sync::atomic::{AtomicU64, Ordering};

/// What a run has come to so far, for whoever watches it while it runs.
#[derive(Drop)]
pub struct Tally {
    events: AtomicU64,
    turn: AtomicU64,
}

impl Tally {
    /// That of a run that hasn't begun.
    pub fn new() -> Tally {
        Tally {
            events: AtomicU64::new(0),
            turn: AtomicU64::new(0),
        }
    }

    /// How many events the nodes have made.
    pub fn events(&self) -> u64 {
        self.events.load(Ordering::SeqCst)
    }

    /// The highest turn that a worker has begun, from 0.
    pub fn turn(&self) -> u64 {
        self.turn.load(Ordering::SeqCst)
    }

    /// A node made an event.
    pub(crate) fn count_event(&self) {
        self.events.fetch_add(1, Ordering::SeqCst);
    }

    /// A worker begins a turn.
    pub(crate) fn begin_turn(&self, turn: u64) {
        self.turn.fetch_max(turn, Ordering::SeqCst);
    }
}
