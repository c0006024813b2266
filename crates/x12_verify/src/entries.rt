//! Submissions with the fates of their sets, held against those that the history tells.

ghost use Rattle.std.specs.Prelude.{IsTrue, IfOk, IfSome, OnOk, All, Contains, map};
ghost use Rattle.x12_outbound.specs.Entry.{entry_row};
ghost use Rattle.x12_station.specs.Durable.{item_at};
ghost use Rattle.x12_station.specs.Standing.{WereAsked};
ghost use Rattle.x12_station.specs.Stored.{entries};
ghost use Rattle.x12_verify.specs.Entries.{AreOpenIn, IsRightSubmission, StandsInBoth, entry_at_rest};
ghost use Rattle.x12_verify.specs.Told.{items_up_to};

use crate::arrived::Holder;
use crate::comparing::is_same_entry;
use crate::difference::{Difference, Stop};
use crate::fates::difference_of;
use std::alloc::Global;
use x12_envelopes::read_header;
use x12_outbound::Entry;
use x12_station::{Item, Loaded, Records};

/// A copy of the open submission of this number, if there is one.
fn open_under(alloc: Global, loaded: &Loaded, icn: u32) -> Result<Option<Entry>, Stop>
    ensures { IfOk result (λ o. IfSome o (λ e.
        Contains (map entry_row loaded.now.entries.items) (entry_row e))) }
{
    let Ok(index) = loaded.entries.binary_search_by_key(&icn, |entry| entry.icn) else {
        return Ok(None);
    };
    match loaded.entries.get(index) {
        Some(entry) => Ok(Some(entry.copied(alloc)?)),
        None => Ok(None),
    }
}

/// The submission of this number, open or closed.
fn entry_under<R: Records>(
    alloc: Global,
    records: &mut R,
    loaded: &Loaded,
    icn: u32,
) -> Result<Option<Entry>, Stop>
    requires valid { R.valid records.old }
    requires open { IsTrue (R.answers records.old) →
        AreOpenIn (entries (R.content records.old)) (map entry_row loaded.now.entries.items) }
    ensures asked { WereAsked R.Records records.old records.new }
    ensures found { IsTrue (R.answers records.new) → IfOk result (λ o. IfSome o (λ e.
        Contains (entries (R.content records.old)) (entry_at_rest (entry_row e)))) }
{
    match open_under(alloc, loaded, icn)? {
        Some(entry) => Ok(Some(entry)),
        None => Ok(records.find_closed(icn)?),
    }
}

/// Tests that these bytes were submitted to both, and fare the same way.
fn test_bytes<R: Records, T: Records>(
    records: &mut R,
    told: &mut T,
    holder: &Holder<'_>,
    due: &Loaded,
    bytes: &[u8],
) -> Result<(), Stop>
    requires valid { R.valid records.old }
    requires told_valid { T.valid told.old }
    requires open { IsTrue (R.answers records.old) → AreOpenIn (entries (R.content records.old))
        (map entry_row holder.now.loaded.now.entries.items) }
    requires told_open { IsTrue (T.answers told.old) → AreOpenIn (entries (T.content told.old))
        (map entry_row due.now.entries.items) }
    ensures asked { WereAsked R.Records records.old records.new }
    ensures told { WereAsked T.Records told.old told.new }
    ensures stands { IsTrue (R.answers records.new) → IsTrue (T.answers told.new) → OnOk result
        (StandsInBoth (entries (R.content records.old)) (entries (T.content told.old)) bytes.now) }
{
    let Ok(header) = read_header(bytes) else {
        return Err(Stop::Differs(Difference::Submission(0)));
    };
    let due = entry_under(holder.alloc, told, due, header.icn)?;
    let kept = entry_under(holder.alloc, records, holder.loaded, header.icn)?;
    let (Some(kept), Some(due)) = (kept, due) else {
        return Err(Stop::Differs(Difference::Submission(header.icn)));
    };
    if due.bytes.as_slice() == bytes && is_same_entry(&kept, &due) {
        return Ok(());
    }
    Err(Stop::Differs(difference_of(&holder.owner.party, &kept, &due)))
}

/// Tests what was told under this number, if it is a submission.
fn test_number<R: Records, T: Records>(
    records: &mut R,
    told: &mut T,
    holder: &Holder<'_>,
    due: &Loaded,
    number: u64,
) -> Result<(), Stop>
    requires valid { R.valid records.old }
    requires told_valid { T.valid told.old }
    requires open { IsTrue (R.answers records.old) → AreOpenIn (entries (R.content records.old))
        (map entry_row holder.now.loaded.now.entries.items) }
    requires told_open { IsTrue (T.answers told.old) → AreOpenIn (entries (T.content told.old))
        (map entry_row due.now.entries.items) }
    ensures asked { WereAsked R.Records records.old records.new }
    ensures told { WereAsked T.Records told.old told.new }
    ensures right { IsTrue (R.answers records.new) → IsTrue (T.answers told.new) → OnOk result
        (IfSome (item_at (T.content told.old) number) (IsRightSubmission
        (entries (R.content records.old)) (entries (T.content told.old)))) }
{
    let Some(item) = told.find_item(number)? else {
        return Ok(());
    };
    match item {
        Item::Submitted(bytes) => test_bytes(records, told, holder, due, &bytes),
        Item::Came(_) => Ok(()),
    }
}

/// Tests each submission that was told.
pub(crate) fn test_submissions<R: Records, T: Records>(
    records: &mut R,
    told: &mut T,
    holder: &Holder<'_>,
    due: &Loaded,
) -> Result<(), Stop>
    requires valid { R.valid records.old }
    requires told_valid { T.valid told.old }
    requires open { IsTrue (R.answers records.old) → AreOpenIn (entries (R.content records.old))
        (map entry_row holder.now.loaded.now.entries.items) }
    requires told_open { IsTrue (T.answers told.old) → AreOpenIn (entries (T.content told.old))
        (map entry_row due.now.entries.items) }
    ensures asked { WereAsked R.Records records.old records.new }
    ensures told { WereAsked T.Records told.old told.new }
    ensures right { IsTrue (R.answers records.new) → IsTrue (T.answers told.new) → OnOk result
        (All (IsRightSubmission (entries (R.content records.old)) (entries (T.content told.old)))
        (items_up_to (T.content told.old) due.now.seq)) }
{
    for before in 0..due.seq {
        test_number(records, told, holder, due, before + 1)?;
    }
    Ok(())
}
