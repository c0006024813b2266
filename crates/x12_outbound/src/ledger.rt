//! The outbound ledger of a sender: its submitted interchanges in the order of their numbers, the
//! fate of each transaction set, and the schedule of sendings.

ghost use Rattle.std.specs.Prelude.{◌≡◌, ◌≤◌, ◌∷◌, Some, IsOk, IsTrue, IfOk, IfErr, IfSome};
ghost use Rattle.std.specs.Prelude.{OnOk, OnErr, OnSome, IfNone, is_some, map, option_map};
ghost use Rattle.std.specs.Prelude.{slice_get, option_to_list};
ghost use Rattle.std.specs.Arc.{arc_slice_items};
ghost use Rattle.x12_acks.specs.Key.{key_view};
ghost use Rattle.x12_outbound.specs.Entry.{entry_row};
ghost use Rattle.x12_outbound.specs.Schedule.{unsent_schedule, sent_at};
ghost use Rattle.x12_outbound.specs.Plan.{IsClosedBeside};
ghost use Rattle.x12_outbound.specs.Ledger.{empty_ledger, MayBeAdded, with_interchange, row_of};
ghost use Rattle.x12_outbound.specs.Ledger.{fates};
ghost use Rattle.x12_outbound.specs.Ledger.{numbers_of, can_be_lifted, is_lifted, with_row, lifted};
ghost use Rattle.x12_outbound.specs.Ledger.{no_longer_out, closed, interchange_numbered};
ghost use Rattle.x12_outbound.specs.Ledger.{open_interchanges};
ghost use Rattle.x12_outbound.specs.Ledger.{bytes_due, after_tick};

use crate::entry::Entry;
use crate::fate::Fate;
use crate::hubs::Hubs;
use crate::open_set::{ClosedSet, OpenSet};
use crate::row::{
    Change, Row, change_row, due_rows, entry_of, open_rows, send_due, set_of, waiting_set,
};
use crate::schedule::Schedule;
use std::alloc::{AllocError, Global};
use std::marker::Model;
use std::sync::ArcSlice;
use x12_acks::SetKey;
use x12_envelopes::Party;

/// The outbound ledger of a sender.
///
/// A transaction set in it is pending until one piece of evidence that names it closes it, and its
/// fate never changes again.
#[derive(Drop)]
pub struct Ledger {
    pub(crate) alloc: Global,
    pub(crate) me: Party,
    pub(crate) hubs: Hubs,
    tick: u64,
    pub(crate) rows: Vec<Row>,
}

impl Model for Ledger {
    ghost use Rattle.std.specs.Prelude.{◌-◌, map, vec_len, vec_capacity};
    ghost use Rattle.x12_outbound.specs.Hubs.{hubs_of};
    ghost use Rattle.x12_outbound.specs.Ledger.{LedgerInMemory, row_view, submitted_by, AreInOrder};

    ghost Value = { LedgerInMemory };

    ghost view = { λ l. record {
      holds = record {
        me = l.me;
        hubs = hubs_of l.hubs;
        tick = l.tick;
        rows = map row_view l.rows.items;
      };
      room = vec_capacity l.rows - vec_len l.rows;
    } };

    ghost invariant = { λ l. AreInOrder (submitted_by l.me (map row_view l.rows.items)) };
}

impl Ledger {
    /// A ledger that holds nothing, of a sender, its hub, and the hub that this is connected to, if
    /// there is one. No tick was seen.
    #[tactic(auto, unfolding(crate::specs::Ledger::empty_ledger))]
    pub fn new(alloc: Global, me: Party, hub: Party, other: Option<Party>) -> Ledger
        ensures { result.holds ≡ empty_ledger me (hub ∷ option_to_list other) }
    {
        Ledger {
            alloc,
            me,
            hubs: Hubs { hub, other },
            tick: 0,
            rows: Vec::new(alloc),
        }
    }

    /// A ledger that holds nothing, of the same sender and hubs: for the closed interchanges that
    /// [`Ledger::plan`] is to look at.
    #[tactic(auto, unfolding(crate::specs::Ledger::empty_ledger))]
    pub fn beside(&self) -> Ledger
        ensures empty { result.holds ≡ empty_ledger self.now.holds.me self.now.holds.hubs }
        ensures closed { IsClosedBeside self.now.holds result.holds }
    {
        Ledger::new(self.alloc, self.me, self.hubs.hub, self.hubs.other)
    }

    /// Makes room for one more interchange, so that the next [`Ledger::add`] can't miss memory.
    pub fn reserve(&mut self) -> Result<(), AllocError>
        ensures room { OnOk result (1 ≤ self.new.room) }
        ensures unchanged { self.new.holds ≡ self.old.holds }
    {
        self.rows.reserve(1)
    }

    /// Enters an interchange that is sent now, at the greatest tick seen. It has 1 to 32 functional
    /// groups, whose numbers rise, and at most 400 transaction sets in all. Its number, and those
    /// of its groups, are above all that are held.
    ///
    /// Where memory is missing, which can't be after [`Ledger::reserve`], the entry comes back.
    pub fn add(&mut self, entry: Entry) -> Result<(), (Entry, AllocError)>
        requires { MayBeAdded self.old.holds (entry_row entry) }
        ensures ok { OnOk result (self.new.holds
            ≡ with_interchange
            (entry_row entry) (sent_at self.old.holds.tick unsent_schedule) self.old.holds) }
        ensures reserved { 1 ≤ self.old.room → IsOk result }

        ensures err { OnErr result (self.new ≡ self.old) }
        ensures back { IfErr result (λ e. e.0 ≡ entry) }
    {
        let schedule = Schedule::unsent().sent(self.tick);
        self.put(entry, schedule)
    }

    /// Enters an interchange that was sent before this ledger was made: where it is open, it is due
    /// at once. It has 1 to 32 functional groups, whose numbers rise, and at most 400 transaction
    /// sets in all. Its number, and those of its groups, are above all that are held.
    ///
    /// Where memory is missing, which can't be after [`Ledger::reserve`], the entry comes back.
    pub fn add_unsent(&mut self, entry: Entry) -> Result<(), (Entry, AllocError)>
        requires { MayBeAdded self.old.holds (entry_row entry) }
        ensures ok { OnOk result (self.new.holds
            ≡ with_interchange (entry_row entry) unsent_schedule self.old.holds) }
        ensures reserved { 1 ≤ self.old.room → IsOk result }

        ensures err { OnErr result (self.new ≡ self.old) }
        ensures back { IfErr result (λ e. e.0 ≡ entry) }
    {
        self.put(entry, Schedule::unsent())
    }

    /// Enters an interchange with this schedule.
    #[tactic(auto, unfolding(crate::specs::Ledger::with_interchange))]
    fn put(&mut self, entry: Entry, schedule: Schedule) -> Result<(), (Entry, AllocError)>
        requires { MayBeAdded self.old.holds (entry_row entry) }
        ensures ok { OnOk result (self.new.holds
            ≡ with_interchange (entry_row entry) schedule self.old.holds) }
        ensures reserved { 1 ≤ self.old.room → IsOk result }

        ensures err { OnErr result (self.new ≡ self.old) }
        ensures back { IfErr result (λ e. e.0 ≡ entry) }
    {
        if self.rows.reserve(1).is_err() {
            return Err((entry, AllocError));
        }
        self.rows.push_reserved(Row { entry, schedule });
        Ok(())
    }

    /// Lifts a pending transaction set out of the ledger, until it is laid back or closed. `None`
    /// of a set that is unknown, final, or out.
    #[tactic(auto, unfolding(crate::specs::Ledger::with_row))]
    pub fn lift(&mut self, key: &SetKey) -> Option<OpenSet>
        ensures lifts { is_some result ≡ can_be_lifted (row_of self.old.holds (key_view key.now)) }
        ensures key { IfSome result (λ o. o.numbers.key ≡ key_view key.now) }
        ensures set { IfSome result (λ o.
            numbers_of self.old.holds (key_view key.now) ≡ Some o.numbers) }
        ensures hubs { IfSome result (λ o. o.hubs ≡ self.old.holds.hubs) }
        ensures out { OnSome result (self.new
            ≡ record self.old { holds = with_row lifted (key_view key.now) self.old.holds }) }

        ensures none { IfNone result (self.new ≡ self.old) }
    {
        let open = waiting_set(&self.rows, &self.me, &self.hubs, key)?;
        change_row(&mut self.rows, key, Change::Lift);
        Some(open)
    }

    /// Lays a set that this ledger lifted back as it was.
    #[tactic(auto, unfolding(crate::specs::Ledger::with_row))]
    pub fn lay(&mut self, set: OpenSet)
        requires { IsTrue (is_lifted (row_of self.old.holds set.numbers.key)) }
        ensures { self.new
            ≡ record self.old { holds = with_row no_longer_out set.numbers.key self.old.holds } }
    {
        let OpenSet {
            key,
            receiver: _,
            hubs: _,
            functional: _,
            gcn: _,
            number: _,
        } = set;
        change_row(&mut self.rows, &key, Change::Lay);
    }

    /// Closes a set that this ledger lifted, with its final fate.
    #[tactic(auto, unfolding(crate::specs::Ledger::with_row))]
    pub fn close(&mut self, set: ClosedSet)
        requires { IsTrue (is_lifted (row_of self.old.holds set.key)) }
        ensures { self.new
            ≡ record self.old { holds = with_row (closed set.fate) set.key self.old.holds } }
    {
        let ClosedSet { key, fate } = set;
        change_row(&mut self.rows, &key, Change::Close(fate));
    }

    /// How a submitted transaction set fares; `None` of one that this ledger doesn't hold.
    pub fn fate(&self, key: &SetKey) -> Option<Fate>
        ensures { result ≡ fates self.now.holds (key_view key.now) }
    {
        match set_of(&self.rows, &self.me, key) {
            Some(set) => Some(set.fate),
            None => None,
        }
    }

    /// A submitted interchange, by its number; `None` of one that this ledger doesn't hold.
    pub fn entry(&self, icn: u32) -> Option<&Entry>
        ensures { option_map (λ e. entry_row e.now) result
            ≡ interchange_numbered self.now.holds icn }
    {
        entry_of(&self.rows, icn)
    }

    /// The submitted interchange at this index, from 0, by rising numbers; `None` behind the last.
    pub fn entry_at(&self, index: usize) -> Option<&Entry>
        ensures { option_map (λ e. entry_row e.now) result
            ≡ option_map (λ r. r.interchange) (slice_get self.now.holds.rows index) }
    {
        match self.rows.get(index) {
            Some(row) => Some(&row.entry),
            None => None,
        }
    }

    /// The greatest tick that was seen; 0 before the first.
    pub fn tick(&self) -> u64
        ensures { result ≡ self.now.holds.tick }
    {
        self.tick
    }

    /// How many interchanges are open: a transaction set of theirs is pending.
    #[tactic(auto, unfolding(crate::specs::Ledger::open_interchanges))]
    pub fn open_count(&self) -> u64
        ensures { result ≡ open_interchanges self.now.holds }
    {
        open_rows(&self.rows)
    }

    /// The bytes of the interchanges that are due at this tick, by rising number, shared. A smaller
    /// tick than the greatest seen counts as that one.
    #[tactic(auto, unfolding(crate::specs::Ledger::bytes_due))]
    pub fn due(&self, now: u64) -> Result<Vec<ArcSlice<u8>>, AllocError>
        ensures { IfOk result (λ due.
            map arc_slice_items due.items ≡ bytes_due now self.now.holds) }
    {
        due_rows(self.alloc, &self.rows, self.tick.max(now))
    }

    /// Counts this tick as seen, and what [`Ledger::due`] gives at it as sent.
    #[tactic(auto, unfolding(crate::specs::Ledger::after_tick))]
    pub fn sent(&mut self, now: u64)
        ensures { self.new ≡ record self.old { holds = after_tick now self.old.holds } }
    {
        self.tick = self.tick.max(now);
        send_due(&mut self.rows, self.tick);
    }
}
