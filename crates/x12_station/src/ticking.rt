//! What a station sends again: each open interchange that is due.

ghost use Rattle.std.specs.Prelude.{◌≡◌, ◌≤◌, IsTrue, IfOk, IfErr, OnErr, length, map};
ghost use Rattle.std.specs.Arc.{arc_slice_items};
ghost use Rattle.x12_outbound.specs.Ledger.{open_interchanges};
ghost use Rattle.x12_profile.specs.X12.{x12};
ghost use Rattle.x12_station.specs.declared.fault.StationFault.TheVariants.{Memory};
ghost use Rattle.x12_station.specs.StationStep.{tick};
ghost use Rattle.x12_station.specs.Stopped.{AsksNoRecords};

use crate::fault::StationFault;
use crate::records::Records;
use crate::station::Station;
use std::sync::ArcSlice;

impl<R: Records> Station<R> {
    /// The interchanges that are sent again at this tick, by rising number, their bytes shared: each
    /// open one that is due, which is 1, 2, 4 .. and then 64 ticks after its last sending. A smaller
    /// tick than the greatest seen counts as that one. The records aren't touched. There are never
    /// more than [`Station::open_count`] tells, whether the records answer or not.
    ///
    /// S14: the station is as it was.
    pub fn tick(&mut self, now: u64) -> Result<Vec<ArcSlice<u8>>, StationFault>
        ensures asks_none { AsksNoRecords R.Records self.old self.new }
        ensures ticked { IsTrue self.new.answers → IfOk result (λ v. tick x12 self.old.state now
            ≡ record { station = self.new.state; sends = map arc_slice_items v.items }) }

        ensures unchanged { OnErr result (self.new.state ≡ self.old.state) }
        ensures remembers { OnErr result (self.new.memory ≡ self.old.memory) }
        ensures memory { IfErr result (λ f. f ≡ Memory) }
        ensures bounded { IfOk result (λ v.
            length v.items ≤ open_interchanges self.old.memory.ledger) }
    {
        let due = self.memory.ledger.due(now)?;
        self.memory.ledger.sent(now);
        Ok(due)
    }
}
