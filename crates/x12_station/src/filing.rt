//! One commit of a new arrival, and what is taken in of it.

ghost use Rattle.std.specs.Prelude.{◌≡◌, IsTrue, IfOk, IfErr, OnOk, OnErr};
ghost use Rattle.x12_station.specs.declared.fault.StationFault.TheVariants.{Store};
ghost use Rattle.x12_station.specs.Fault.{IsOfRecords};
ghost use Rattle.x12_station.specs.working.Filing.{MayFile, TakesFiling, plan_of_filing};
ghost use Rattle.x12_station.specs.Plan.{stored_after};
ghost use Rattle.x12_profile.specs.Stop.{CountsFailures};
ghost use Rattle.x12_station.specs.Standing.{AreAsBefore, MayLeave, MayTake, WereUsed};

use crate::cached::Cached;
use crate::fault::StationFault;
use crate::plan::{Change, Planned};
use crate::records::Records;
use crate::writing::write;
use x12_inbound::Kept;
use x12_numbers::Book;
use x12_outbound::{Counts, Settling};

/// Files a new arrival: what is kept of it, the sets that its evidence settles and the numbers, in
/// one commit. Gives what its evidence did.
///
/// S13 and S14: what is held is as it was.
pub(crate) fn file<R: Records>(
    records: &mut R,
    memory: &mut Cached,
    kept: Kept,
    book: Book,
    settling: Settling,
) -> Result<Counts, StationFault>
    requires may { MayFile memory.old settling }
    requires fits { MayTake R.Records records.old (plan_of_filing memory.old book kept settling) }
    ensures used { WereUsed R.Records records.old records.new }
    ensures written { IsTrue (R.answers records.new) → OnOk result (R.content records.new
        ≡ stored_after (plan_of_filing memory.old book kept settling) (R.content records.old)) }
    ensures taken { IfOk result (TakesFiling memory.old memory.new book settling) }
    ensures crash { MayLeave R.Records (plan_of_filing memory.old book kept settling)
        result records.old records.new }

    ensures fault { IfErr result IsOfRecords × CountsFailures result (λ f. f ≡ Store)
        (R.failed records.old) (R.failed records.new) }
    ensures unchanged { OnErr result
        (AreAsBefore R.Records records.old records.new memory.old memory.new) }
{
    let settled = match settling.targets(memory.alloc) {
        Ok(settled) => settled,
        Err(_) => {
            settling.abandon();
            kept.discard();
            return Err(StationFault::Memory);
        }
    };
    let seq = memory.seq + 1;
    let plan = Planned::new(book, seq, Change::Arrived { kept, settled });
    match write(records, plan) {
        Ok(committed) => {
            committed.end();
            memory.book = book;
            memory.seq = seq;
            let counts = memory.ledger.settle_all(settling);
            memory.counts = memory.counts.plus(counts);
            Ok(counts)
        }
        Err(fault) => {
            settling.abandon();
            Err(fault)
        }
    }
}
