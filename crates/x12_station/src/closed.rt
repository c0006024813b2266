//! The closed submissions that the answers of an arrival may name, in a ledger of their own.

ghost use Rattle.std.specs.Prelude.{◌≡◌, ◌<◌, max, IsTrue, IfOk, IfErr, OnOk, map, nat_le};
ghost use Rattle.std.specs.Prelude.{AllPairs, Contains, ◌++◌, None, true, IfSome, option_map};
ghost use Rattle.std.specs.Prelude.{option_to_list};
ghost use Rattle.std.specs.List.{list_all};
ghost use Rattle.x12_outbound.specs.Entry.{group_row, entry_row, InterchangeRow};
ghost use Rattle.x12_outbound.specs.Ledger.{interchange_numbered};
ghost use Rattle.x12_outbound.specs.Plan.{IsClosedBeside};
ghost use Rattle.x12_station.specs.Closed.{above_groups, above_entries, next_closed};
ghost use Rattle.x12_station.specs.Closed.{HoldsClosed, LooksAt};
ghost use Rattle.x12_station.specs.declared.fault.StationFault.TheVariants.{Store};
ghost use Rattle.x12_station.specs.declared.records.StoreFault.{StoreFault};
ghost use Rattle.x12_station.specs.Fault.{IsOfRecords};
ghost use Rattle.x12_station.specs.Record.{IsSoundClosed};
ghost use Rattle.x12_profile.specs.Stop.{CountsFailures};
ghost use Rattle.x12_station.specs.Standing.{WereAsked};
ghost use Rattle.x12_station.specs.Stored.{closed_entry, open_entries};

use crate::fault::StationFault;
use crate::records::{Records, StoreFault};
use x12_outbound::{Entry, EntryGroup, Ledger};

/// Whether the number of each group is at least this.
fn are_from(least: u64, groups: &[EntryGroup]) -> bool
    ensures { result ≡ list_all (λ g. nat_le least g.number) (map group_row groups.now) }
{
    for group in groups {
        if (group.gcn as u64) < least {
            return false;
        }
    }
    true
}

/// The least number that is above those of the groups, and not below this one.
fn above(least: u64, groups: &[EntryGroup]) -> u64
    ensures { result ≡ max least (above_groups (map group_row groups.now)) }
{
    let mut above = least;
    for group in groups {
        above = above.max(group.gcn as u64 + 1);
    }
    above
}

/// The closed submission of this number, if it may follow those that are held: the station's ledger
/// doesn't hold the number, and its groups' numbers are at least this. Each of records that answer may.
fn find_next<R: Records>(
    records: &mut R,
    ledger: &Ledger,
    icn: u32,
    least: u64,
) -> Result<Option<Entry>, StoreFault>
    requires { R.valid records.old }
    ensures asked { WereAsked R.Records records.old records.new }
    ensures found { IsTrue (R.answers records.new) → IfOk result (λ o. option_map entry_row o
        ≡ next_closed ledger.now.holds icn least (closed_entry (R.content records.old) icn)) }
    ensures next { IfOk result (λ o. IfSome o (λ e. IsSoundClosed (entry_row e)
        × (e.icn ≡ icn) × (interchange_numbered ledger.now.holds icn ≡ None)
        × (list_all (λ g. nat_le least g.number) (map group_row e.groups.items) ≡ true))) }

    ensures device { CountsFailures result (λ e. e ≡ StoreFault.Device)
        (R.failed records.old) (R.failed records.new) }
{
    if ledger.entry(icn).is_some() {
        return Ok(None);
    }
    let Some(entry) = records.find_closed(icn)? else {
        return Ok(None);
    };
    if entry.icn != icn || !are_from(least, &entry.groups) {
        return Ok(None);
    }
    Ok(Some(entry))
}

/// Looks for the closed submission of this number, and adds it if it may follow those that are
/// held. Gives the least number that is above all groups' numbers then.
fn look_for<R: Records>(
    records: &mut R,
    ledger: &Ledger,
    closed: &mut Ledger,
    icn: u32,
    least: u64,
) -> Result<u64, StationFault>
    requires valid { R.valid records.old }
    requires lower { (e : InterchangeRow) →
        Contains (map (λ r. r.interchange) closed.old.holds.rows) e → e.icn < icn }
    requires least { least ≡ above_entries (map (λ r. r.interchange) closed.old.holds.rows) }
    ensures asked { WereAsked R.Records records.old records.new }
    ensures looks { IfOk result
        (LooksAt ledger.now.holds closed.old.holds closed.new.holds icn) }
    ensures found { let found = closed_entry (R.content records.old) icn in
        IsTrue (R.answers records.new) → OnOk result (map (λ r. r.interchange) closed.new.holds.rows
        ≡ map (λ r. r.interchange) closed.old.holds.rows
        ++ option_to_list (next_closed ledger.now.holds icn least found)) }

    ensures fault { IfErr result IsOfRecords }
    ensures device { CountsFailures result (λ f. f ≡ Store)
        (R.failed records.old) (R.failed records.new) }
{
    let Some(entry) = find_next(records, ledger, icn, least)? else {
        return Ok(least);
    };
    let next = above(least, &entry.groups);
    if closed.add_unsent(entry).is_err() {
        return Err(StationFault::Memory);
    }
    Ok(next)
}

/// The closed submissions of these numbers, in a ledger beside the station's. What isn't above those
/// before it is left out; of records that answer nothing is.
pub(crate) fn closed_beside<R: Records>(
    records: &mut R,
    ledger: &Ledger,
    numbers: &[u32],
) -> Result<Ledger, StationFault>
    requires valid { R.valid records.old }
    requires rising { AllPairs (λ a b. a < b) numbers.now }
    requires keeps { IsTrue (R.answers records.old) →
        map (λ r. r.interchange) ledger.now.holds.rows ≡ open_entries (R.content records.old) }
    ensures asked { WereAsked R.Records records.old records.new }
    ensures closed { IfOk result (λ c. IsClosedBeside ledger.now.holds c.holds) }
    ensures held { IsTrue (R.answers records.new) → IfOk result (λ c.
        HoldsClosed (R.content records.old) numbers.now
        (map (λ r. r.interchange) c.holds.rows)) }

    ensures fault { IfErr result IsOfRecords }
    ensures device { CountsFailures result (λ f. f ≡ Store)
        (R.failed records.old) (R.failed records.new) }
{
    let mut closed = ledger.beside();
    let mut least = 0;
    for icn in numbers {
        least = look_for(records, ledger, &mut closed, *icn, least)?;
    }
    Ok(closed)
}
