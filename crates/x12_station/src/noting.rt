//! The refusal of other bytes under a filed number (TA1 R 025), under the next number.

ghost use Rattle.std.specs.Prelude.{◌≡◌, true, false, IsTrue, IfOk, IfErr, OnOk, OnErr};
ghost use Rattle.x12_envelopes.specs.Envelope.{written};
ghost use Rattle.x12_acks.specs.Reply.{refusal_of};
ghost use Rattle.x12_profile.specs.Interchange.{is_within};
ghost use Rattle.x12_station.specs.declared.fault.StationFault.TheVariants.{Store};
ghost use Rattle.x12_station.specs.working.Drafting.{exhausted};
ghost use Rattle.x12_station.specs.Fault.{IsRowOrWant};
ghost use Rattle.x12_station.specs.Keeps.{Caches};
ghost use Rattle.x12_station.specs.working.Noting.{MayLeaveNumber, TakesNumber};
ghost use Rattle.x12_profile.specs.Stop.{CountsFailures};
ghost use Rattle.x12_station.specs.Standing.{AreAsBefore, WereUsed};
ghost use Rattle.x12_station.specs.StationRefusal.{is_spent};

use crate::cached::Cached;
use crate::fault::StationFault;
use crate::plan::{Change, Planned};
use crate::records::Records;
use crate::replying::taken;
use crate::writing::write;
use x12_acks::{Needs, write_refusal};
use x12_envelopes::{Header, Moment};
use x12_judge::Note;

/// Refuses other bytes under a filed number: a TA1 R 025 under the next number, which alone is
/// committed.
///
/// S11 where no number is left; S13 and S14: what is held is as it was.
pub(crate) fn refuse_other<R: Records>(
    records: &mut R,
    memory: &mut Cached,
    header: &Header,
    at: &Moment,
) -> Result<Vec<u8>, StationFault>
    requires valid { R.valid records.old }
    requires keeps { IsTrue (R.answers records.old) → Caches memory.old (R.content records.old) }
    ensures used { WereUsed R.Records records.old records.new }
    ensures number { OnOk result
        (TakesNumber R.Records records.old records.new memory.old memory.new) }
    ensures crash { MayLeaveNumber R.Records memory.old result records.old records.new }
    ensures refusal { IfOk result (λ v. (v.items ≡ written
        (refusal_of 25 header.now memory.old.me at.now memory.new.book.interchange))
        × IsTrue (is_within memory.new.book)) }

    ensures fault { let spent = is_spent memory.old.book (record { reply = true; group = false }) in
        IfErr result (IsRowOrWant (exhausted spent)) × CountsFailures result (λ f. f ≡ Store)
        (R.failed records.old) (R.failed records.new) }
    ensures unchanged { OnErr result
        (AreAsBefore R.Records records.old records.new memory.old memory.new) }
{
    let needs = Needs {
        reply: true,
        group: false,
    };
    let book = taken(memory.book, needs)?;
    let (alloc, me) = (memory.alloc, &memory.me);
    let refusal = write_refusal(alloc, Note(25), header, me, at, book.interchange())?;
    match write(records, Planned::new(book, memory.seq, Change::Numbered)) {
        Ok(committed) => {
            committed.end();
            memory.book = book;
            Ok(refusal)
        }
        Err(fault) => Err(fault),
    }
}
