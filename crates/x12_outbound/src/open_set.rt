//! An open transaction set, and how it is closed: once, by one piece of evidence that names it.
ghost use Rattle.std.specs.Prelude.{◌≡◌, Some, None, IfOk, IfErr};
ghost use Rattle.x12_acks.specs.Key.{key_view};
ghost use Rattle.x12_outbound.specs.Matching.{is_about, naming_names};
ghost use Rattle.x12_outbound.specs.Matching.{naming_may_say, settled_by};
ghost use Rattle.x12_outbound.specs.Piece.{naming_view, set_statement_view};

use crate::evidence::{Evidence, Naming, Statement};
use crate::fate::FinalFate;
use crate::hubs::Hubs;
use std::marker::Model;
use x12_acks::SetKey;
use x12_envelopes::{Party, SetNo};

/// A pending transaction set that a ledger lifted, to be settled. It has no `Drop`: it is closed by
/// evidence that names it, or goes back to its ledger.
#[must_use]
pub struct OpenSet {
    pub(crate) key: SetKey,
    pub(crate) receiver: Party,
    pub(crate) hubs: Hubs,
    pub(crate) functional: [u8; 2],
    pub(crate) gcn: u32,
    pub(crate) number: SetNo,
}

/// A transaction set with its final fate. It has no `Drop`: it goes back to its ledger.
#[must_use]
pub struct ClosedSet {
    pub(crate) key: SetKey,
    pub(crate) fate: FinalFate,
}

impl Model for OpenSet {
    ghost use Rattle.x12_acks.specs.Key.{key_view};
    ghost use Rattle.x12_envelopes.specs.Shape.{bytes_of_set_no};
    ghost use Rattle.x12_outbound.specs.Hubs.{hubs_of};
    ghost use Rattle.x12_outbound.specs.Matching.{LiftedSet};

    ghost Value = { LiftedSet };

    ghost view = { λ o. record {
      numbers = record {
        key = key_view o.key;
        receiver = o.receiver;
        functional = o.functional;
        group = o.gcn;
        set = bytes_of_set_no o.number;
      };
      hubs = hubs_of o.hubs;
    } };
}

impl Model for ClosedSet {
    ghost use Rattle.x12_acks.specs.Key.{key_view};
    ghost use Rattle.x12_outbound.specs.Fate.{final_fate};
    ghost use Rattle.x12_outbound.specs.Matching.{SettledSet};

    ghost Value = { SettledSet };

    ghost view = { λ c. record { key = key_view c.key; fate = final_fate c.fate } };
}

impl OpenSet {
    /// Closes the set with the fate that the evidence tells, exactly where the evidence names the
    /// set's numbers and comes from the receiver of its interchange or, a TA1, from one of
    /// the sender's hubs. Else both come back.
    #[tactic(auto, unfolding(crate::specs::Matching::settled_by))]
    pub fn settle(self, evidence: Evidence) -> Result<ClosedSet, (OpenSet, Evidence)>
        ensures key { IfOk result (λ c. c.key ≡ self.numbers.key) }
        ensures fate { IfOk result (λ c. settled_by self evidence ≡ Some c.fate) }

        ensures other { IfErr result (λ back. settled_by self evidence ≡ None) }
        ensures back { IfErr result (λ back. (back.0 ≡ self) × (back.1 ≡ evidence)) }
    {
        let Some(statement) = evidence.piece.statement else {
            return Err((self, evidence));
        };
        if !self.is_named_by(&statement) {
            return Err((self, evidence));
        }
        let OpenSet {
            key,
            receiver: _,
            hubs: _,
            functional: _,
            gcn: _,
            number: _,
        } = self;
        let Evidence { piece: _ } = evidence;
        Ok(ClosedSet {
            key,
            fate: statement.fate,
        })
    }

    /// Whether a statement is about this set: it names its numbers, and is from one who may say so.
    #[tactic(auto, unfolding(crate::specs::Matching::is_about))]
    fn is_named_by(&self, statement: &Statement) -> bool
        ensures { result
            ≡ is_about self.now.hubs self.now.numbers (set_statement_view statement.now) }
    {
        self.has_numbers(statement) && self.may_be_told(statement)
    }

    /// Whether a statement names this set's numbers.
    fn has_numbers(&self, statement: &Statement) -> bool
        ensures { result
            ≡ naming_names (naming_view statement.now.naming) (key_view statement.now.key)
            self.now.numbers }
    {
        match &statement.naming {
            Naming::Interchange => statement.key == self.key,
            Naming::TransactionSet(functional, gcn, number) => {
                statement.key.sender == self.key.sender
                    && *functional == self.functional
                    && *gcn == self.gcn
                    && number.as_bytes() == self.number.as_bytes()
            }
        }
    }

    /// Whether a statement comes from the receiver or, a TA1, from a hub.
    fn may_be_told(&self, statement: &Statement) -> bool
        ensures { result
            ≡ naming_may_say (naming_view statement.now.naming) self.now.hubs
            self.now.numbers.receiver statement.now.from }
    {
        match statement.naming {
            Naming::Interchange => {
                self.receiver == statement.from || self.hubs.contain(&statement.from)
            }
            Naming::TransactionSet(_, _, _) => self.receiver == statement.from,
        }
    }
}
