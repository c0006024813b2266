//! A station over records in memory, which is told a history again. It needs no agreements: what an
//! arrival tells of what was submitted doesn't depend on them.

ghost use Rattle.std.specs.Prelude.{◌≡◌, ◌∷◌, ◌++◌, [], None, IsTrue, OnOk};
ghost use Rattle.x12_station.specs.History.{Submitted, Came};
ghost use Rattle.x12_station.specs.Station.{edition_next};
ghost use Rattle.x12_verify.specs.Told.{all_as_told, HasSameOrigin};

use crate::difference::{Difference, Stop};
use x12_envelopes::Moment;
use x12_station::{ArrivalKind, MemoryRecords, Station, StationFault, StoreFault};

/// The station that is told the history again.
pub(crate) type Again = Station<MemoryRecords>;

/// Why the telling ends where the station refuses the item of this number.
fn refused(number: u64, fault: StationFault) -> Stop {
    match fault {
        StationFault::Memory => Stop::Store(StoreFault::Memory),
        _ => Stop::Differs(Difference::Refused(number, fault)),
    }
}

/// Tells it a submission.
pub(crate) fn submit_again(again: &mut Again, number: u64, bytes: &[u8]) -> Result<(), Stop>
    ensures never_won_back { IsTrue again.new.answers → IsTrue again.old.answers }
    ensures told { IsTrue again.new.answers → OnOk result (all_as_told again.new.state.items
        ≡ all_as_told again.old.state.items ++ Submitted bytes.now ∷ []) }
    ensures origin { IsTrue again.new.answers →
        OnOk result (HasSameOrigin again.old.state again.new.state) }
{
    match again.submit_prepared(bytes) {
        Ok(_) => Ok(()),
        Err(fault) => Err(refused(number, fault)),
    }
}

/// Tells it an arrival, which has to be new to it.
pub(crate) fn hear_again(
    again: &mut Again,
    number: u64,
    bytes: &[u8],
    at: &Moment,
) -> Result<(), Stop>
    ensures never_won_back { IsTrue again.new.answers → IsTrue again.old.answers }
    ensures told { IsTrue again.new.answers → OnOk result (all_as_told again.new.state.items
        ≡ all_as_told again.old.state.items
        ++ Came (edition_next again.old.state) bytes.now None ∷ []) }
    ensures origin { IsTrue again.new.answers →
        OnOk result (HasSameOrigin again.old.state again.new.state) }
{
    let arrival = match again.arrive(bytes, at) {
        Ok(arrival) => arrival,
        Err(fault) => return Err(refused(number, fault)),
    };
    match arrival.kind {
        ArrivalKind::New => Ok(()),
        ArrivalKind::Same => Err(Stop::Differs(Difference::CameBefore(number))),
        ArrivalKind::Other => Err(Stop::Differs(Difference::CameBefore(number))),
    }
}
