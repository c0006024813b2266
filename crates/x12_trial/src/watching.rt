//! Watching a trial while it runs.

use crate::pace::Pace;
use std::sync::Wait;
use std::sync::atomic::{AtomicU64, Ordering};
use x12_hub::HubRecords;
use x12_network::Tally;
use x12_nodes::{Gate, Node};
use x12_station::Records;

/// At each how many-th call it is shown how a trial stands.
const EACH: u64 = 100;

/// How a trial stands.
#[derive(Clone, Copy)]
pub struct Standing {
    /// How many events its nodes have made.
    pub events: u64,
    /// How many submissions are open.
    pub open: u64,
    /// The highest turn that a worker has begun, from 0.
    pub turn: u64,
}

/// Who watches a trial while it runs: it is called by any of its threads, at each hundredth call of a
/// node.
pub trait Watch {
    /// Shows how the trial stands.
    fn show(&self, standing: &Standing);
}

/// A pace that shows somebody how the trial stands.
#[derive(Drop)]
pub(crate) struct WatchedPace<'a, R: Records, H: HubRecords, V, W> {
    pub pace: Pace,
    pub rt: &'a W,
    pub nodes: &'a [Node<R, H>],
    pub tally: &'a Tally,
    pub watch: Option<&'a V>,
    pub calls: AtomicU64,
}

impl<R: Records, H: HubRecords, V: Watch, W: Wait> WatchedPace<'_, R, H, V, W> {
    /// How many submissions of all stations are open.
    fn open_count(&self) -> u64 {
        let mut open = 0_u64;
        for node in self.nodes {
            open = open.saturating_add(node.open_count(self.rt));
        }
        open
    }

    /// Shows how the trial stands, at each hundredth call.
    fn look(&self) {
        let Some(watch) = self.watch else {
            return;
        };
        if self.calls.fetch_add(1, Ordering::SeqCst) % EACH == 0 {
            watch.show(&Standing {
                events: self.tally.events(),
                open: self.open_count(),
                turn: self.tally.turn(),
            });
        }
    }
}

impl<R: Records, H: HubRecords, V: Watch, W: Wait> Gate for WatchedPace<'_, R, H, V, W> {
    ghost lets = { λ _ node call passes. Unit {0} };

    fn enter(&self, node: u16, call: u64) -> bool {
        self.pace.enter(node, call)
    }

    fn leave(&self, node: u16, call: u64) {
        self.look();
        self.pace.leave(node, call);
    }
}
