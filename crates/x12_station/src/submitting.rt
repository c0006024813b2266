//! Submitting prepared bytes.

ghost use Rattle.std.specs.Prelude.{◌≡◌, ◌∷◌, [], Some, IsTrue, IfOk, IfErr, OnErr};
ghost use Rattle.std.specs.Arc.{arc_slice_items};
ghost use Rattle.x12_profile.specs.X12.{x12};
ghost use Rattle.x12_station.specs.declared.fault.StationFault.TheVariants.{Store};
ghost use Rattle.x12_station.specs.Fault.{IsRowOrWant, prepared_fault};
ghost use Rattle.x12_profile.specs.Stop.{CountsFailures};
ghost use Rattle.x12_station.specs.Seen.{KeepsDisk};
ghost use Rattle.x12_station.specs.Stopped.{LeavesWhole};
ghost use Rattle.x12_station.specs.StationStep.{submit};

use crate::entering::enter;
use crate::fault::StationFault;
use crate::prepared::read_prepared;
use crate::records::Records;
use crate::station::Station;
use std::sync::ArcSlice;

/// An interchange that was submitted, to be sent.
#[derive(Debug, Drop)]
pub struct Sent {
    /// The interchange control number (ISA13): 1 to 999999999.
    pub icn: u32,
    /// The bytes from ISA through IEA, as they were submitted, shared.
    pub bytes: ArcSlice<u8>,
}

impl<R: Records> Station<R> {
    /// Submits an interchange that was prepared elsewhere: its bytes are kept and sent as they came,
    /// until each transaction set is accepted or rejected.
    ///
    /// S4, S5, S1, S6, S7, S2, S8, S10 and S11, the first that holds; S13 and S14. Then the station
    /// is as it was.
    pub fn submit_prepared(&mut self, bytes: &[u8]) -> Result<Sent, StationFault>
        ensures never_won_back { IsTrue self.new.answers → IsTrue self.old.answers }
        ensures disk { KeepsDisk result self.old self.new }
        ensures crash { LeavesWhole R.Records (submit x12 self.old.state bytes.now)
            self.old self.new }
        ensures took { IsTrue self.new.answers → IfOk result (λ sent.
            submit x12 self.old.state bytes.now
            ≡ Some (record { station = self.new.state; sends = arc_slice_items sent.bytes ∷ [] })) }
        ensures number { IfOk result (λ sent. sent.icn ≡ x12.number (arc_slice_items sent.bytes)) }

        ensures refused { IsTrue self.new.answers →
            IfErr result (IsRowOrWant (prepared_fault self.old.state bytes.now)) }
        ensures unchanged { IsTrue self.new.answers →
            OnErr result (self.new.state ≡ self.old.state) }
        ensures store { CountsFailures result (λ f. f ≡ Store)
            self.old.failures self.new.failures }
    {
        let prepared = read_prepared(&self.memory, bytes)?;
        let sent = Sent {
            icn: prepared.entry.icn,
            bytes: prepared.entry.bytes.clone()?,
        };
        enter(&mut self.records, &mut self.memory, prepared)?;
        Ok(sent)
    }
}
