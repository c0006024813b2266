//! Answering an arrival, by what is filed under its sender and number.

ghost use Rattle.std.specs.Prelude.{◌≡◌, IsTrue, IfOk, IfErr, OnErr, OnOk};
ghost use Rattle.x12_station.specs.Arriving.{IsArrival};
ghost use Rattle.x12_station.specs.declared.fault.StationFault.TheVariants.{Store};
ghost use Rattle.x12_station.specs.Fault.{IsRowOrWant, arrival_fault};
ghost use Rattle.x12_profile.specs.Stop.{CountsFailures};
ghost use Rattle.x12_profile.specs.X12.{x12};
ghost use Rattle.x12_station.specs.Seen.{KeepsDisk, station_of};
ghost use Rattle.x12_station.specs.Standing.{Stands, StandsAgain};
ghost use Rattle.x12_station.specs.Stopped.{LeavesStep, LeavesWhole};
ghost use Rattle.x12_station.specs.StationStep.{arrive};

use crate::arriving::{Arrival, ArrivalKind, answer_new, answer_other, nothing_told, repeated};
use crate::cached::Cached;
use crate::fault::StationFault;
use crate::records::Records;
use crate::station::Station;
use x12_envelopes::{Moment, read_header};
use x12_inbound::{Seen, look};

/// Answers an arrival, by what is filed under its sender and number.
///
/// S12 and S11; S13 and S14: what is held is as it was.
fn answer<R: Records>(
    records: &mut R,
    memory: &mut Cached,
    bytes: &[u8],
    at: &Moment,
) -> Result<Arrival, StationFault>
    requires stands { Stands R.Records records.old memory.old }
    ensures stands { StandsAgain R.Records result records.old records.new memory.old memory.new }
    ensures took { IsTrue (R.answers records.new) → IfOk result (IsArrival
        (station_of memory.old.ledger.holds memory.old.counts (R.content records.old))
        (station_of memory.new.ledger.holds memory.new.counts (R.content records.new))
        at.now bytes.now) }
    ensures answered { IsTrue (R.clean records.new) → OnOk result (IsTrue (R.answers records.new)) }
    ensures crash { LeavesStep R.Records (arrive x12
        (station_of memory.old.ledger.holds memory.old.counts (R.content records.old))
        at.now bytes.now) records.old records.new }

    ensures fault { IsTrue (R.answers records.new) → IfErr result (IsRowOrWant (arrival_fault
        (station_of memory.old.ledger.holds memory.old.counts (R.content records.old))
        bytes.now)) }
    ensures unchanged { IsTrue (R.answers records.new) → OnErr result
        (station_of memory.new.ledger.holds memory.new.counts (R.content records.new)
        ≡ station_of memory.old.ledger.holds memory.old.counts (R.content records.old)) }
    ensures device { CountsFailures result (λ f. f ≡ Store)
        (R.failed records.old) (R.failed records.new) }
{
    let header = match read_header(bytes) {
        Ok(header) => header,
        Err(fault) => return Err(StationFault::Unreadable(fault)),
    };
    let found = match records.find_inbound(&header.sender, header.icn) {
        Ok(found) => found,
        Err(fault) => return Err(fault.into()),
    };
    match look(found.as_ref(), &header.sender, header.icn, bytes) {
        Seen::New(arrived) => answer_new(records, memory, arrived, bytes, &header, at),
        Seen::Same(kept) => match repeated(memory.alloc, kept) {
            Ok(arrival) => Ok(arrival),
            Err(_) => Err(StationFault::Memory),
        },
        Seen::Other => match answer_other(records, memory, bytes, &header, at) {
            Ok(reply) => Ok(Arrival {
                kind: ArrivalKind::Other,
                reply,
                counts: nothing_told(),
            }),
            Err(fault) => Err(fault),
        },
    }
}

impl<R: Records> Station<R> {
    /// Takes an arrival: judged once and filed with its reply, its postings and what it settles, in
    /// one commit; the same bytes again give the kept reply; other bytes under a filed number are
    /// refused (TA1 R 025), unless they hold TA1s and no group.
    ///
    /// S12 where ISA can't be read, S11 where no number is left; S13 and S14. Then the station is
    /// as it was.
    pub fn arrive(&mut self, bytes: &[u8], at: &Moment) -> Result<Arrival, StationFault>
        ensures never_won_back { IsTrue self.new.answers → IsTrue self.old.answers }
        ensures disk { KeepsDisk result self.old self.new }
        ensures crash { LeavesWhole R.Records (arrive x12 self.old.state at.now bytes.now)
            self.old self.new }
        ensures took { IsTrue self.new.answers → IfOk result
            (IsArrival self.old.state self.new.state at.now bytes.now) }

        ensures refused { IsTrue self.new.answers →
            IfErr result (IsRowOrWant (arrival_fault self.old.state bytes.now)) }
        ensures unchanged { IsTrue self.new.answers →
            OnErr result (self.new.state ≡ self.old.state) }
        ensures store { CountsFailures result (λ f. f ≡ Store)
            self.old.failures self.new.failures }
    {
        answer(&mut self.records, &mut self.memory, bytes, at)
    }
}
