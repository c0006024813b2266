//! Whose records these are.

ghost use Rattle.std.specs.Prelude.{◌≡◌, ◌≢◌, ℕ, Err, OnOk, OnErr, unwrap_or};
ghost use Rattle.x12_outbound.specs.Hubs.{hubs_of};
ghost use Rattle.x12_station.specs.Record.{owner_view};
ghost use Rattle.x12_tables.specs.declared.fault.RecordsFault.{RecordsFault};
ghost use Rattle.x12_tables.specs.declared.fault.RecordsFault.TheVariants.{OtherParty};
ghost use Rattle.x12_station_records.specs.StationAdopt.{IsOriginOf};
ghost use Rattle.x12_station_records.specs.StationNumbers.{AreMarked, numbers_view};

use crate::station_numbers::{NumbersRow, era_in, noted_in};
use x12_envelopes::Party;
use x12_outbound::Hubs;
use x12_station::Owner;
use x12_tables::{RecordsFault, test_party};

/// Tests that the hub is connected to the wanted one, or to none where none is wanted. Where one of
/// them is missing, its hub stands in its place in the refusal.
fn test_other(owner: &Owner, wanted: &Option<Party>) -> Result<(), RecordsFault>
    ensures same { OnOk result (owner.now.other ≡ wanted.now) }
    ensures other { OnErr result (owner.now.other ≢ wanted.now) }
    ensures both { OnErr result (result ≡ Err (OtherParty
        (unwrap_or owner.now.other owner.now.hub) (unwrap_or wanted.now owner.now.hub))) }
{
    match &owner.other {
        Some(found) => match wanted {
            Some(wanted) => test_party(found, wanted),
            None => Err(RecordsFault::OtherParty {
                found: *found,
                wanted: owner.hub,
            }),
        },
        None => match wanted {
            Some(wanted) => Err(RecordsFault::OtherParty {
                found: owner.hub,
                wanted: *wanted,
            }),
            None => Ok(()),
        },
    }
}

/// Tests that these are the records of the station of this party at these hubs.
pub(crate) fn test_owner(owner: &Owner, party: &Party, hubs: &Hubs) -> Result<(), RecordsFault>
    ensures own { OnOk result (IsOriginOf party.now (hubs_of hubs.now) (owner_view owner.now)) }
    ensures other { OnErr result
        (IsOriginOf party.now (hubs_of hubs.now) (owner_view owner.now) → ⊥) }
    ensures known { (was : ℕ) → result ≢ Err (RecordsFault.OldVersion was) }
{
    test_party(&owner.party, party)?;
    test_party(&owner.hub, &hubs.hub)?;
    test_other(owner, &hubs.other)
}

/// Tests that what is read as before acknowledgments were noted is judged as before the edition changed,
/// and that no number to come is.
pub(crate) fn test_marks(numbers: &NumbersRow) -> Result<(), RecordsFault>
    ensures marked { OnOk result (AreMarked (numbers_view numbers.now)) }
    ensures unmarked { OnErr result (AreMarked (numbers_view numbers.now) → ⊥) }
    ensures fault { OnErr result (result ≡ Err RecordsFault.Store) }
{
    let era = era_in(numbers);
    if noted_in(numbers) > era {
        return Err(RecordsFault::Store);
    }
    if era > numbers.seq {
        return Err(RecordsFault::Store);
    }
    Ok(())
}
