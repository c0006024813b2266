//! How long a worker waits for a packet before its node makes an event of its own.
//!
//! Events of a node's own cost the others work: what a tick sends again, and what a collection sends,
//! may be on its way already. So a worker waits for a calm network: one in which nobody works and no
//! packet moves.

use x12_links::Looks;

/// For how many looks into its inboxes a worker waits for a calm network: a hub's less than a
/// station's, since what the station would send again may lie in a mailbox.
const HUBS: u64 = 10;

const STATIONS: u64 = 30;

/// The longest that a worker waits whose node nothing comes to.
const LONGEST: u64 = 80;

/// At how many looks in a row nothing moves until a worker that works counts as held up; for a hub beside
/// another one so long that no commit to a disk outlasts it, since each collection sends again what the
/// other hub has not yet answered.
const HELD_UP: u64 = 200;

const HELD_UP_AT_HUBS: u64 = 20_000;

/// The patience of a node's worker.
#[derive(Drop)]
pub(crate) struct Patience {
    /// The nodes whose mailboxes a hub collects, and which of them comes next, from 0. A station has none.
    mailboxes: Vec<u16>,
    next: usize,
    /// At how many looks in a row nothing moves until a worker that works counts as held up.
    held_up: u64,
    /// How many events of its own in a row sent nothing.
    vain: u64,
}

impl Patience {
    /// That of a node that collects these mailboxes, another hub's among them or not.
    pub fn new(mailboxes: Vec<u16>, is_linked: bool) -> Patience {
        Patience {
            mailboxes,
            next: 0,
            held_up: if is_linked { HELD_UP_AT_HUBS } else { HELD_UP },
            vain: 0,
        }
    }

    /// The node whose mailbox a hub collects next. `None` of a station.
    pub fn next_mailbox(&self) -> Option<u16> {
        self.mailboxes.get(self.next).copied()
    }

    /// A packet came.
    pub fn packet_came(&mut self) {
        self.vain = 0;
    }

    /// The node made an event of its own, which sent so many packets.
    pub fn event_made(&mut self, sent: u64) {
        self.next = self.next.saturating_add(1);
        if self.next >= self.mailboxes.len() {
            self.next = 0;
        }
        self.vain = if sent > 0 {
            0
        } else {
            self.vain.saturating_add(1)
        };
    }

    /// For how many looks it waits. A hub waits once a round of all mailboxes, and longer behind rounds in
    /// which all were empty. A station whose last tick sent nothing ticks again at the first calm look,
    /// since what is open is due at a later tick; one that has nothing open waits long.
    fn calm(&self, is_open: bool) -> u64 {
        let is_hub = !self.mailboxes.is_empty();
        if is_hub && self.next > 0 {
            0
        } else if is_hub {
            self.vain.saturating_add(HUBS).min(LONGEST)
        } else if !is_open {
            LONGEST
        } else if self.vain > 0 {
            1
        } else {
            STATIONS
        }
    }

    /// How long it waits; where a job is left, not at all.
    pub fn looks(&self, has_jobs: bool, is_open: bool) -> Looks {
        Looks {
            calm: if has_jobs { 0 } else { self.calm(is_open) },
            held_up: self.held_up,
        }
    }
}
