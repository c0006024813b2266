//! What an answer closes in a sender's ledger: each pending set that it tells of.

ghost use Rattle.std.specs.Prelude.{◌≡◌, IfOk, OnOk, OnErr, map};
ghost use Rattle.x12_acks.specs.Answer.{answer_view};
ghost use Rattle.x12_outbound.specs.Ledger.{fates, NoneIsOut};
ghost use Rattle.x12_outbound.specs.Plan.{evidence_in, findings_in, IsPlan};
ghost use Rattle.x12_outbound.specs.Settling.{findings, target_view};
ghost use Rattle.x12_sent.specs.Closing.{closed_by, evidence_for, IsClosedBy};

use std::alloc::{AllocError, Global};
use std::marker::Model;
use std::slice;
use x12_acks::{Answer, SetKey};
use x12_envelopes::Party;
use x12_outbound::{Fate, Ledger, Settling};

/// Plans what an answer from this party means in a ledger, and in no other.
#[tactic(auto, using(crate::proofs::ClosingLemmas::one_answer, crate::proofs::ClosingLemmas::found_alone))]
fn plan_answer(ledger: &Ledger, from: &Party, answer: &Answer) -> Result<Settling, AllocError>
    requires none_out { NoneIsOut ledger.now.holds }
    ensures evidence { IfOk result (λ s.
        evidence_in s.pieces ≡ evidence_for ledger.now.holds from.now (answer_view answer.now)) }
    ensures found { IfOk result (λ s.
        findings_in s.pieces ≡ findings (fates ledger.now.holds) (evidence_in s.pieces)) }
    ensures plan { IfOk result (λ s. IsPlan ledger.now.holds s.pieces) }
{
    ledger.plan(from, slice::from_ref(answer), &ledger.beside())
}

/// The sets that an answer from this party closes in a ledger, in order, each with the fate that it
/// gets. The ledger stays as it is.
#[tactic(auto, using(crate::proofs::ClosingLemmas::targets_closed))]
fn closings(
    alloc: Global,
    ledger: &Ledger,
    from: &Party,
    answer: &Answer,
) -> Result<Vec<(SetKey, Fate)>, AllocError>
    requires none_out { NoneIsOut ledger.now.holds }
    ensures { IfOk result (λ v. map target_view v.items
        ≡ closed_by (fates ledger.now.holds) (evidence_for ledger.now.holds from.now (answer_view answer.now))) }
{
    let plan = plan_answer(ledger, from, answer)?;
    let targets = plan.targets(alloc);
    plan.abandon();
    targets
}

/// Settles a ledger by an answer from this party: the sets that it closes, in order, each with the
/// fate that it gets.
#[tactic(auto, using(crate::proofs::ClosingLemmas::targets_closed))]
fn close(
    alloc: Global,
    ledger: &mut Ledger,
    from: &Party,
    answer: &Answer,
) -> Result<Vec<(SetKey, Fate)>, AllocError>
    requires none_out { NoneIsOut ledger.old.holds }
    ensures closed { IfOk result (λ v. map target_view v.items
        ≡ closed_by (fates ledger.old.holds) (evidence_for ledger.old.holds from.now (answer_view answer.now))) }
    ensures told { OnOk result (IsClosedBy ledger.old.holds from.now (answer_view answer.now)
        ledger.new.holds) }
    ensures unchanged { OnErr result (ledger.new.holds ≡ ledger.old.holds) }
    ensures none_out { NoneIsOut ledger.new.holds }
{
    let plan = plan_answer(ledger, from, answer)?;
    match plan.targets(alloc) {
        Ok(targets) => {
            ledger.settle_all(plan);
            Ok(targets)
        }
        Err(error) => {
            plan.abandon();
            Err(error)
        }
    }
}

/// What an answer means to a sender.
#[derive(Drop)]
pub struct Meaning {
    /// The submitted sets that it tells of, each with the fate that it tells first.
    pub spoken: Vec<(SetKey, Fate)>,
    /// Those of them that it closes, since they were pending still.
    pub closed: Vec<(SetKey, Fate)>,
}

/// The ledger of what a sender submitted, as it was at first, and as answers left it.
#[derive(Drop)]
pub(crate) struct Ledgers {
    whole: Ledger,
    left: Ledger,
}

impl Model for Ledgers {
    ghost use Rattle.x12_outbound.specs.Ledger.{NoneIsOut};
    ghost use Rattle.x12_sent.specs.Closing.{SentLedgers};

    ghost Value = { SentLedgers };

    ghost view = { λ l. record { whole = l.whole.holds; left = l.left.holds } };

    ghost invariant = { λ l. NoneIsOut l.whole.holds × NoneIsOut l.left.holds };
}

impl Ledgers {
    /// Two ledgers of which no set is out.
    pub(crate) fn new(whole: Ledger, left: Ledger) -> Ledgers
        requires whole { NoneIsOut whole.holds }
        requires left { NoneIsOut left.holds }
        ensures { result ≡ record { whole = whole.holds; left = left.holds } }
    {
        Ledgers { whole, left }
    }

    /// The ledger as answers left it: what has a pending set.
    pub(crate) fn left(&self) -> &Ledger
        ensures { result.now.holds ≡ self.now.left }
    {
        &self.left
    }

    /// What an answer from this party means: the sets that it tells of, and those that it closes, which
    /// are closed from then on.
    pub(crate) fn tell(
        &mut self,
        alloc: Global,
        from: &Party,
        answer: &Answer,
    ) -> Result<Meaning, AllocError>
        ensures spoken { IfOk result (λ m. map target_view m.spoken.items
            ≡ closed_by (fates self.old.whole)
            (evidence_for self.old.whole from.now (answer_view answer.now))) }
        ensures closed { IfOk result (λ m. map target_view m.closed.items
            ≡ closed_by (fates self.old.left)
            (evidence_for self.old.left from.now (answer_view answer.now))) }
        ensures told { OnOk result
            (IsClosedBy self.old.left from.now (answer_view answer.now) self.new.left) }
        ensures unchanged { OnErr result (self.new.left ≡ self.old.left) }
        ensures whole { self.new.whole ≡ self.old.whole }
    {
        let spoken = closings(alloc, &self.whole, from, answer)?;
        let closed = close(alloc, &mut self.left, from, answer)?;
        Ok(Meaning { spoken, closed })
    }
}
