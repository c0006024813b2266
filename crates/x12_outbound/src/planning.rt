//! What answers mean to a ledger: planned first, and then carried out.

ghost use Rattle.std.specs.Prelude.{◌≡◌, true, length, Some, IfOk, map};
ghost use Rattle.x12_acks.specs.Answer.{answer_view};
ghost use Rattle.x12_acks.specs.Evidence.{evidence_of};
ghost use Rattle.x12_acks.specs.Submission.{TransactionSetKey};
ghost use Rattle.x12_outbound.specs.Counts.{with_piece, with_pieces, only_unclear};
ghost use Rattle.x12_outbound.specs.Counts.{evidence_counted};
ghost use Rattle.x12_outbound.specs.Matching.{stated};
ghost use Rattle.x12_outbound.specs.Settling.{finding, fates_after, settled_fates};
ghost use Rattle.x12_outbound.specs.Plan.{IsPlan, IsClosedBeside, ArePieces, KeepsSubmissions};
ghost use Rattle.x12_outbound.specs.Plan.{HoldsWhatIsOpen, names_what_it_settles, is_settling};
ghost use Rattle.x12_outbound.specs.Plan.{evidence_in, findings_in, submissions_of_both};
ghost use Rattle.x12_outbound.specs.Plan.{unclear_answers};
ghost use Rattle.x12_outbound.specs.Subject.{subjects_in, subjects_of};
ghost use Rattle.x12_outbound.specs.Ledger.{fates, numbers_of, ledger_submissions, NoneIsOut};
ghost use Rattle.x12_outbound.specs.Ledger.{open_alone, AreInOrder};

use crate::evidence::{Counts, Evidence, Finding};
use crate::finding::pieces_of;
use crate::ledger::Ledger;
use crate::matches::{Parties, statements_of, unclear_in};
use crate::row::drop_closed;
use crate::settling::Settling;
use std::alloc::AllocError;
use x12_acks::Answer;
use x12_envelopes::Party;

impl Ledger {
    /// Plans what the answers of an interchange from this party mean here, while no set is out:
    /// which submitted sets each answer is evidence for, and what each piece of evidence is, the
    /// pieces before it counted. The ledger stays as it is; [`Ledger::settle_all`] carries the plan
    /// out.
    ///
    /// A TA1 that rejects is matched by its number among the interchanges to this party, and among
    /// all where the party is a hub; a 997 by GS01 and GS06 among the groups to this party. What
    /// isn't found in this ledger is looked for in `closed`, another ledger of the same sender: the
    /// interchanges with no pending set that were found elsewhere for these answers. So evidence
    /// that repeats or contradicts a final fate is known as such.
    ///
    /// `Err` where memory is missing.
    pub fn plan(
        &self,
        from: &Party,
        answers: &[Answer],
        closed: &Ledger,
    ) -> Result<Settling, AllocError>
        requires none_out { NoneIsOut self.now.holds }
        requires closed { IsClosedBeside self.now.holds closed.now.holds }
        ensures evidence { IfOk result (λ s. evidence_in s.pieces
            ≡ evidence_of self.now.holds.hubs
            (submissions_of_both self.now.holds closed.now.holds) from.now
            (map answer_view answers.now)) }
        ensures pieces { IfOk result (λ s.
            ArePieces self.now.holds closed.now.holds s.pieces) }
        // A piece of a TA1 names the interchange, one of a 997 the group by AK101 and AK102.
        ensures names { IfOk result (λ s. subjects_in s.pieces
            ≡ subjects_of self.now.holds.hubs
            (submissions_of_both self.now.holds closed.now.holds) from.now
            (map answer_view answers.now)) }
        ensures plan { IfOk result (λ s. IsPlan self.now.holds s.pieces) }
        ensures unclear { IfOk result (λ s.
            s.unclear ≡ unclear_answers (map answer_view answers.now)) }
    {
        let parties = Parties {
            me: self.me,
            hubs: self.hubs,
            from: *from,
        };
        let statements = statements_of(self.alloc, &self.rows, &closed.rows, &parties, answers)?;
        let pieces = pieces_of(self.alloc, &self.rows, &closed.rows, &self.me, &statements)?;
        Ok(Settling::new(pieces, unclear_in(answers)))
    }

    /// Settles by a plan of this ledger as it stands, while no set is out: the first evidence for a
    /// pending set gives it its fate. Each piece is counted as what it was found to be. An
    /// interchange that has no pending set then is dropped.
    pub fn settle_all(&mut self, settling: Settling) -> Counts
        requires plan { IsPlan self.old.holds settling.pieces }
        requires none_out { NoneIsOut self.old.holds }
        ensures held { HoldsWhatIsOpen self.old.holds self.new.holds
            (settled_fates (fates self.old.holds) (evidence_in settling.pieces)) }
        ensures counts { result
            ≡ with_pieces (only_unclear settling.unclear) (findings_in settling.pieces) }
        ensures each { evidence_counted result ≡ length settling.pieces }
        ensures none_out { NoneIsOut self.new.holds }
    {
        let counts = self.settle_each(settling);
        self.drop_closed();
        counts
    }

    /// Drops the interchanges that have no pending set. All were in order.
    fn drop_closed(&mut self)
        ensures left { self.new.holds ≡ open_alone self.old.holds }
        ensures order { AreInOrder (ledger_submissions self.old.holds) }
    {
        drop_closed(&mut self.rows);
    }

    /// Uses each piece of a plan up.
    fn settle_each(&mut self, settling: Settling) -> Counts
        requires plan { IsPlan self.old.holds settling.pieces }
        requires none_out { NoneIsOut self.old.holds }
        ensures fates { (k : TransactionSetKey) → fates self.new.holds k
            ≡ settled_fates (fates self.old.holds) (evidence_in settling.pieces) k }
        ensures counts { result
            ≡ with_pieces (only_unclear settling.unclear) (findings_in settling.pieces) }
        ensures each { evidence_counted result ≡ length settling.pieces }
        ensures kept { KeepsSubmissions self.old.holds self.new.holds }
        ensures none_out { NoneIsOut self.new.holds }
    {
        let mut counts = Counts::new(settling.unclear());
        let mut left = settling;
        while let Some((evidence, rest)) = left.next() {
            self.use_piece(evidence, &mut counts);
            left = rest;
        }
        counts
    }

    /// Uses one piece of evidence up: it settles its set, or is counted.
    fn use_piece(&mut self, evidence: Evidence, counts: &mut Counts)
        requires settles { is_settling evidence.finding
            ≡ is_settling (finding (fates self.old.holds) (stated evidence.statement)) }
        requires named { names_what_it_settles self.old.holds evidence ≡ true }
        requires none_out { NoneIsOut self.old.holds }
        ensures fates { (k : TransactionSetKey) → fates self.new.holds k
            ≡ fates_after (fates self.old.holds) (stated evidence.statement) k }
        ensures counts { counts.new ≡ with_piece counts.old evidence.finding }
        ensures kept { KeepsSubmissions self.old.holds self.new.holds }
        ensures numbers { (k : TransactionSetKey) →
            numbers_of self.new.holds k ≡ numbers_of self.old.holds k }
        ensures none_out { NoneIsOut self.new.holds }
    {
        let Some((key, _)) = evidence.target() else {
            return evidence.shelve(counts);
        };
        let Some(open) = self.lift(&key) else {
            return evidence.shelve(counts);
        };
        match open.settle(evidence) {
            Ok(set) => {
                self.close(set);
                counts.count(Finding::Settles);
            }
            Err((open, evidence)) => {
                self.lay(open);
                evidence.shelve(counts);
            }
        }
    }
}
