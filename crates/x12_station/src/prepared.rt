//! Prepared bytes, read before they are entered: the refusals S4 to S8, S10 and S11, in the order of
//! the table.

ghost use Rattle.std.specs.Prelude.{◌≡◌, None, IfOk, IfErr};
ghost use Rattle.std.specs.Arc.{arc_slice_items};
ghost use Rattle.x12_outbound.specs.Entry.{entry_row};
ghost use Rattle.x12_station.specs.Fault.{prepared_fault};
ghost use Rattle.x12_station.specs.working.Prepared.{IsRowOrMemory, Knows, MayEnter};
ghost use Rattle.x12_station.specs.Station.{Station};

use crate::cached::Cached;
use crate::fault::StationFault;
use x12_numbers::Book;
use x12_outbound::{Entry, Submittable};

/// The last number that a submission or a first arrival can have.
pub(crate) const LAST_ITEM: u64 = 9_223_372_036_854_775_807;

/// An interchange that may be submitted: its entry, and the last control numbers once it is entered.
#[derive(Drop)]
pub(crate) struct Prepared {
    pub entry: Entry,
    pub book: Book,
}

/// Reads prepared bytes: what is to be entered of them.
///
/// S4, S5, S1, S6, S7, S2, S8, S10 and S11, the first that holds; S14.
pub(crate) fn read_prepared(memory: &Cached, bytes: &[u8]) -> Result<Prepared, StationFault>
    ensures may { IfOk result (λ p. MayEnter memory.now p.book (entry_row p.entry)) }
    ensures bytes { IfOk result (λ p. arc_slice_items p.entry.bytes ≡ bytes.now) }
    ensures allowed { IfOk result (λ p.
        (s : Station) → Knows memory.now s → prepared_fault s bytes.now ≡ None) }
    ensures refused { IfErr result (λ f.
        (s : Station) → Knows memory.now s → IsRowOrMemory (prepared_fault s bytes.now) f) }
{
    let read = Submittable::read(memory.alloc, &memory.me, &memory.book, bytes)?;
    if memory.seq >= LAST_ITEM {
        return Err(StationFault::Exhausted);
    }
    let entry = Entry::of(memory.alloc, &read.header, &read.outline, bytes)?;
    Ok(Prepared {
        entry,
        book: read.book,
    })
}
