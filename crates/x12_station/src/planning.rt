//! A plan of what the answers of a new arrival mean for the open submissions.

ghost use Rattle.std.specs.Prelude.{◌≡◌, IsTrue, IfOk, IfErr, map};
ghost use Rattle.x12_acks.specs.Answer.{answer_view};
ghost use Rattle.x12_outbound.specs.Ledger.{NoneIsOut};
ghost use Rattle.x12_outbound.specs.Plan.{IsPlan};
ghost use Rattle.x12_station.specs.declared.fault.StationFault.TheVariants.{Store};
ghost use Rattle.x12_station.specs.Fault.{IsOfRecords};
ghost use Rattle.x12_station.specs.working.Hearing.{IsHeard};
ghost use Rattle.x12_profile.specs.Stop.{CountsFailures};
ghost use Rattle.x12_station.specs.Standing.{WereAsked};
ghost use Rattle.x12_station.specs.Stored.{open_entries};

use crate::closed::closed_beside;
use crate::fault::StationFault;
use crate::hearing::numbers_named;
use crate::records::Records;
use std::alloc::Global;
use x12_acks::Answer;
use x12_envelopes::Party;
use x12_outbound::{Ledger, Settling};

/// Plans what the answers of an arrival from this party mean for the open submissions; the closed
/// ones that they may name are looked for in the records.
pub(crate) fn planned<R: Records>(
    records: &mut R,
    alloc: Global,
    ledger: &Ledger,
    from: &Party,
    answers: &[Answer],
) -> Result<Settling, StationFault>
    requires valid { R.valid records.old }
    requires none_out { NoneIsOut ledger.now.holds }
    requires keeps { IsTrue (R.answers records.old) →
        map (λ r. r.interchange) ledger.now.holds.rows ≡ open_entries (R.content records.old) }
    ensures asked { WereAsked R.Records records.old records.new }
    ensures plan { IfOk result (λ p. IsPlan ledger.now.holds p.pieces) }
    ensures heard { IsTrue (R.answers records.new) → IfOk result
        (IsHeard ledger.now.holds (R.content records.old) from.now (map answer_view answers.now)) }

    ensures fault { IfErr result IsOfRecords }
    ensures device { CountsFailures result (λ f. f ≡ Store)
        (R.failed records.old) (R.failed records.new) }
{
    let numbers = numbers_named(records, alloc, from, answers)?;
    let closed = closed_beside(records, ledger, &numbers)?;
    Ok(ledger.plan(from, answers, &closed)?)
}
