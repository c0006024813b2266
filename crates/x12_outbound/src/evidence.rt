//! Evidence: that a submitted transaction set was accepted or rejected, and by whom this was said.
ghost use Rattle.std.specs.Prelude.{◌≡◌, option_map};
ghost use Rattle.x12_outbound.specs.Counts.{count_raised, with_piece, shelved_finding};
ghost use Rattle.x12_outbound.specs.Counts.{only_unclear, counts_of_both};
ghost use Rattle.x12_outbound.specs.Settling.{target_of, target_view};
ghost use Rattle.x12_outbound.specs.Piece.{finding_view, piece_view};

use crate::fate::{Fate, FinalFate};
use std::marker::Model;
use x12_acks::SetKey;
use x12_envelopes::{Party, SetNo};

/// What an answer names (the numbers that it tells).
#[derive(Clone, Copy)]
pub(crate) enum Naming {
    /// A TA1: the interchange.
    Interchange,
    /// A 997: the functional group (AK101, AK102) and the transaction set (AK202).
    TransactionSet([u8; 2], u32, SetNo),
}

/// What is said of a submitted transaction set.
#[derive(Clone, Copy)]
pub(crate) struct Statement {
    /// Who says it: the sender of the interchange that holds the answer.
    pub from: Party,
    /// The set that it is about.
    pub key: SetKey,
    /// What names it.
    pub naming: Naming,
    /// Whether it was accepted or rejected.
    pub fate: FinalFate,
}

/// What a piece of evidence is for the ledger that planned it, the pieces before it counted.
#[derive(Clone, Copy, PartialEq, Eq)]
pub(crate) enum Finding {
    /// The set is pending: the piece settles it.
    Settles,
    /// The set has this fate already.
    Repeats,
    /// The set has the other fate.
    Conflicts,
    /// It answers nothing that was submitted.
    Unmatched,
}

/// A statement, or none where nothing that was submitted is answered, and what it is for the
/// ledger.
#[derive(Clone, Copy)]
pub(crate) struct Piece {
    pub statement: Option<Statement>,
    pub finding: Finding,
}

/// A piece of evidence, to be used once: it settles a set
/// ([`OpenSet::settle`](crate::OpenSet::settle)), or is counted ([`Evidence::shelve`]). It has no
/// `Drop`, so it can't be let go otherwise.
#[must_use]
pub struct Evidence {
    pub(crate) piece: Piece,
}

/// How many pieces of evidence did what, and how many answers were unclear. Each count stays at
/// `u64::MAX`.
#[derive(Clone, Copy, Debug, PartialEq, Eq)]
pub struct Counts {
    /// Evidence that settled a pending set.
    pub settled: u64,
    /// Evidence for a set that had that fate already.
    pub repeated: u64,
    /// Evidence that answered nothing which was submitted.
    pub unmatched: u64,
    /// Evidence for a set that had the other fate.
    pub conflicting: u64,
    /// Answers that can't be read: no evidence.
    pub unclear: u64,
}

impl Model for Evidence {
    ghost use Rattle.x12_outbound.specs.Piece.{PlannedPiece, piece_view};

    ghost Value = { PlannedPiece };

    ghost view = { λ e. piece_view e.piece };
}

impl Piece {
    /// The set that the piece settles, and the fate that it gives it, if it settles one.
    pub(crate) fn target(&self) -> Option<(SetKey, Fate)>
        ensures { option_map target_view result ≡ target_of (piece_view self.now) }
    {
        let statement = self.statement?;
        match self.finding {
            Finding::Settles => Some((statement.key, statement.fate.fate())),
            _ => None,
        }
    }
}

impl Evidence {
    /// The set that this piece settles, and the fate that it gives it, where the pieces before it
    /// are used as their ledger planned. `None` of a piece that is repeated, unmatched or
    /// conflicting.
    pub fn target(&self) -> Option<(SetKey, Fate)>
        ensures { option_map target_view result ≡ target_of self.now }
    {
        self.piece.target()
    }

    /// Uses the piece up without settling a set: raises the count that its ledger planned, or
    /// `unmatched` for a piece that would have settled a set.
    pub fn shelve(self, counts: &mut Counts)
        ensures { counts.new ≡ with_piece counts.old (shelved_finding self.finding) }
    {
        let Evidence { piece } = self;
        counts.count(match piece.finding {
            Finding::Settles => Finding::Unmatched,
            finding => finding,
        });
    }
}

impl Counts {
    /// What two lists of evidence did together: the sums. Each count stays at `u64::MAX`.
    #[tactic(auto, unfolding(crate::specs::Counts::counts_of_both))]
    pub fn plus(self, more: Counts) -> Counts
        ensures { result ≡ counts_of_both self more }
    {
        Counts {
            settled: self.settled.saturating_add(more.settled),
            repeated: self.repeated.saturating_add(more.repeated),
            unmatched: self.unmatched.saturating_add(more.unmatched),
            conflicting: self.conflicting.saturating_add(more.conflicting),
            unclear: self.unclear.saturating_add(more.unclear),
        }
    }

    /// No evidence, and this number of unclear answers.
    #[tactic(auto, unfolding(crate::specs::Counts::only_unclear))]
    pub(crate) fn new(unclear: u64) -> Counts
        ensures { result ≡ only_unclear unclear }
    {
        Counts {
            settled: 0,
            repeated: 0,
            unmatched: 0,
            conflicting: 0,
            unclear,
        }
    }

    /// Counts one piece, by what it was.
    #[tactic(auto, unfolding(crate::specs::Counts::with_piece))]
    pub(crate) fn count(&mut self, finding: Finding)
        ensures { self.new ≡ with_piece self.old (finding_view finding) }
    {
        match finding {
            Finding::Settles => self.settled = counted(self.settled),
            Finding::Repeats => self.repeated = counted(self.repeated),
            Finding::Conflicts => self.conflicting = counted(self.conflicting),
            Finding::Unmatched => self.unmatched = counted(self.unmatched),
        }
    }
}

/// One more; a count stays at `u64::MAX`.
pub(crate) fn counted(count: u64) -> u64
    ensures { result ≡ count_raised count }
{
    count.saturating_add(1)
}
