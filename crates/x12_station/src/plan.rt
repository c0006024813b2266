//! What one commit changes in a station's records.

ghost use Rattle.std.specs.Prelude.{◌≡◌};
ghost use Rattle.x12_station.specs.Record.{change_view, SubmitsWhole};

use std::marker::Model;
use x12_acks::SetKey;
use x12_inbound::Kept;
use x12_judge::Agreement;
use x12_numbers::Book;
use x12_outbound::{Entry, Fate};

/// One change of a station's records. It has no `Drop`, since what is kept of an arrival has none.
pub enum Change {
    /// An interchange is submitted under the next number; each of its sets is pending.
    Submitted(Entry),
    /// An interchange came for the first time, and has the next number.
    Arrived {
        /// The interchange with its reply and its postings.
        kept: Kept,
        /// The sets that it settles, in order, each with the fate that it gets.
        settled: Vec<(SetKey, Fate)>,
    },
    /// An agreement is made, in place of an earlier one with its partner; without pairs it is
    /// withdrawn.
    Agreed(Agreement),
    /// Control numbers were used, and nothing else.
    Numbered,
}

/// What a commit is to write: the last numbers as they are to be, and one change. Each group of an
/// entry that it submits has a transaction set. It has no `Drop`: a commit takes it
/// ([`Records::commit`](crate::Records::commit)), or gives it back.
#[must_use]
pub struct Planned {
    book: Book,
    seq: u64,
    change: Change,
}

/// A plan that was committed. It has no `Drop`: the station that planned it takes it in.
#[must_use]
pub struct Committed {
    plan: Planned,
}

/// What a plan is to write.
#[derive(Clone, Copy)]
pub struct PlanView<'a> {
    /// The last control numbers that the station used.
    pub book: Book,
    /// The last number of a submission or first arrival: 0 to 9223372036854775807.
    pub seq: u64,
    /// The change.
    pub change: &'a Change,
}

impl Model for Planned {
    ghost use Rattle.x12_station.specs.Plan.{Commit};

    ghost Value = { Commit };

    ghost use Rattle.x12_station.specs.Record.{change_view, SubmitsWhole};

    ghost view = { λ p. record { book = p.book; seq = p.seq; change = change_view p.change } };

    ghost invariant = { λ p. SubmitsWhole (change_view p.change) };
}

impl Model for Committed {
    ghost use Rattle.x12_station.specs.Plan.{Commit};

    ghost Value = { Commit };

    ghost view = { λ c. c.plan };
}

impl Planned {
    /// The plan of this change, under these last numbers.
    pub(crate) fn new(book: Book, seq: u64, change: Change) -> Planned
        requires { SubmitsWhole (change_view change) }
        ensures { result ≡ record { book = book; seq = seq; change = change_view change } }
    {
        Planned { book, seq, change }
    }

    /// What is to be written.
    pub fn view(&self) -> PlanView<'_>
        ensures book { result.book ≡ self.now.book }
        ensures seq { result.seq ≡ self.now.seq }
        ensures change { change_view result.change.now ≡ self.now.change }
        ensures whole { SubmitsWhole self.now.change }
    {
        PlanView {
            book: self.book,
            seq: self.seq,
            change: &self.change,
        }
    }

    /// The plan as one that was committed: a commit alone says so.
    pub fn done(self) -> Committed
        ensures { result ≡ self }
    {
        Committed { plan: self }
    }

    /// Gives up a plan that a commit refused.
    pub fn abandon(self) {
        let Planned {
            book: _,
            seq: _,
            change,
        } = self;
        match change {
            Change::Arrived { kept, settled: _ } => kept.discard(),
            Change::Submitted(_) => {}
            Change::Agreed(_) => {}
            Change::Numbered => {}
        }
    }
}

impl Committed {
    ghost use Rattle.std.specs.Prelude.{◌≡◌};
    ghost use Rattle.x12_outbound.specs.Entry.{InterchangeRow, entry_row};
    ghost use Rattle.x12_station.specs.Plan.{Submits};

    /// What was committed, which the station takes in.
    pub(crate) fn change(self) -> Change
        ensures { change_view result ≡ self.change }
    {
        let Committed { plan } = self;
        let Planned {
            book: _,
            seq: _,
            change,
        } = plan;
        change
    }

    /// The entry of the interchange that was submitted.
    pub(crate) fn entry(self) -> Entry
        requires { (e : InterchangeRow) × (self.change ≡ Submits e) }
        ensures { self.change ≡ Submits (entry_row result) }
    {
        match self.change() {
            Change::Submitted(entry) => entry,
            Change::Arrived { kept, settled: _ } => {
                kept.discard();
                unreachable!()
            }
            Change::Agreed(_) | Change::Numbered => unreachable!(),
        }
    }

    /// Ends a commit of which nothing is left to be taken in.
    pub(crate) fn end(self) {
        let Committed { plan } = self;
        plan.abandon();
    }
}
