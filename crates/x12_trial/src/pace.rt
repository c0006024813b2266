//! The pace of a trial: stations wait until the hubs have enrolled them, and for one another.

use std::sync::atomic::{AtomicU64, Ordering};
use std::thread;
use x12_core::{HUB_NODE, SECOND_HUB_NODE};
use x12_nodes::Gate;

/// How often a station yields at most until all are ready.
const MOST_YIELDS: u64 = 1_000_000;

/// A gate that lets all calls pass, and holds each station back behind its first call, its agreement,
/// until each hub has enrolled all stations, its first calls, and each station has agreed. An order
/// that comes to a hub before is refused, as that of a party without a mailbox; one that comes to a
/// station before is rejected.
#[derive(Drop)]
pub(crate) struct Pace {
    hubs: u16,
    stations: u64,
    awaited: u64,
    first: AtomicU64,
    second: AtomicU64,
    agreed: AtomicU64,
}

impl Pace {
    /// That of a network of so many stations and hubs, of which each makes so many turns at most.
    pub fn new(stations: u16, hubs: u16, turns: u64) -> Pace {
        Pace {
            hubs,
            stations: u64::from(stations),
            awaited: turns.min(u64::from(stations)),
            first: AtomicU64::new(0),
            second: AtomicU64::new(0),
            agreed: AtomicU64::new(0),
        }
    }

    /// Whether each hub has enrolled all stations.
    fn have_enrolled(&self) -> bool {
        self.first.load(Ordering::SeqCst) >= self.awaited
            && (self.hubs < 2 || self.second.load(Ordering::SeqCst) >= self.awaited)
    }

    /// Whether each hub has enrolled all stations, and each station has agreed.
    fn are_ready(&self) -> bool {
        self.have_enrolled() && self.agreed.load(Ordering::SeqCst) >= self.stations
    }

    /// A station waits until all are ready.
    fn wait_for_all(&self) {
        for _ in 0..MOST_YIELDS {
            if self.are_ready() {
                return;
            }
            thread::yield_now();
        }
    }
}

impl Gate for Pace {
    ghost lets = { λ _ node call passes. Unit {0} };

    fn enter(&self, _node: u16, _call: u64) -> bool {
        true
    }

    fn leave(&self, node: u16, call: u64) {
        if node == HUB_NODE {
            self.first.fetch_max(call, Ordering::SeqCst);
        } else if node == SECOND_HUB_NODE {
            self.second.fetch_max(call, Ordering::SeqCst);
        } else if call <= 1 {
            self.agreed.fetch_add(1, Ordering::SeqCst);
            self.wait_for_all();
        }
    }
}
