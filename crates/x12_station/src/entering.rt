//! Entering an interchange that may be submitted: one commit, and then it is open and was sent once.

ghost use Rattle.std.specs.Prelude.{◌≡◌, ◌+◌, IsTrue, IfErr, OnOk, OnErr};
ghost use Rattle.std.specs.Arc.{arc_slice_items};
ghost use Rattle.x12_outbound.specs.Entry.{entry_row};
ghost use Rattle.x12_profile.specs.X12.{x12};
ghost use Rattle.x12_station.specs.declared.fault.StationFault.TheVariants.{Store};
ghost use Rattle.x12_station.specs.Fault.{IsOfRecords};
ghost use Rattle.x12_station.specs.working.Prepared.{MayEnter};
ghost use Rattle.x12_profile.specs.Stop.{CountsFailures};
ghost use Rattle.x12_station.specs.Plan.{Submits};
ghost use Rattle.x12_station.specs.Seen.{station_of};
ghost use Rattle.x12_station.specs.Standing.{MayLeave, Stands, StandsAgain};
ghost use Rattle.x12_station.specs.StationStep.{entered};

use crate::cached::Cached;
use crate::fault::StationFault;
use crate::plan::{Change, Planned};
use crate::prepared::Prepared;
use crate::records::Records;
use crate::writing::write;

/// Enters an interchange that may be submitted.
///
/// S13 and S14: what is held is as it was.
pub(crate) fn enter<R: Records>(
    records: &mut R,
    memory: &mut Cached,
    prepared: Prepared,
) -> Result<(), StationFault>
    requires stands { Stands R.Records records.old memory.old }
    requires may { MayEnter memory.old prepared.book (entry_row prepared.entry) }
    ensures stands { StandsAgain R.Records result records.old records.new memory.old memory.new }
    ensures entered { IsTrue (R.answers records.new) → OnOk result
        (station_of memory.new.ledger.holds memory.new.counts (R.content records.new)
        ≡ entered x12
        (station_of memory.old.ledger.holds memory.old.counts (R.content records.old))
        (arc_slice_items prepared.entry.bytes)) }
    ensures crash { MayLeave R.Records (record {
      book = prepared.book;
      seq = memory.old.seq + 1;
      change = Submits (entry_row prepared.entry);
    }) result records.old records.new }

    ensures fault { IfErr result IsOfRecords }
    ensures unchanged { IsTrue (R.answers records.new) → OnErr result
        (station_of memory.new.ledger.holds memory.new.counts (R.content records.new)
        ≡ station_of memory.old.ledger.holds memory.old.counts (R.content records.old)) }
    ensures device { CountsFailures result (λ f. f ≡ Store)
        (R.failed records.old) (R.failed records.new) }
{
    memory.ledger.reserve()?;
    let seq = memory.seq + 1;
    let Prepared { entry, book } = prepared;
    let plan = Planned::new(book, seq, Change::Submitted(entry));
    let entry = write(records, plan)?.entry();
    match memory.ledger.add(entry) {
        Ok(()) => {}
        Err(_) => unreachable!(),
    }
    memory.book = book;
    memory.seq = seq;
    Ok(())
}
