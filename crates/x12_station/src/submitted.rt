//! What a station submitted, by its number.

ghost use Rattle.std.specs.Prelude.{◌≡◌, IsTrue, IfOk, IfErr, option_map};
ghost use Rattle.x12_profile.specs.X12.{x12};
ghost use Rattle.x12_station.specs.declared.fault.StationFault.TheVariants.{Store};
ghost use Rattle.x12_station.specs.Seen.{KeepsDisk};
ghost use Rattle.x12_station.specs.Stopped.{LeavesAsBefore};
ghost use Rattle.x12_station.specs.Fault.{IsOfRecords};
ghost use Rattle.x12_station.specs.History.{submission_under};
ghost use Rattle.x12_profile.specs.Stop.{CountsFailures};

use crate::fault::StationFault;
use crate::records::Records;
use crate::station::Station;

impl<R: Records> Station<R> {
    /// The bytes of the interchange that this station submitted under a number (ISA13), whether its
    /// sets are settled or not; `None` where it submitted none.
    ///
    /// S13 and S14. The station stays as it is.
    pub fn submission(&mut self, icn: u32) -> Result<Option<Vec<u8>>, StationFault>
        ensures never_won_back { IsTrue self.new.answers → IsTrue self.old.answers }
        ensures disk { KeepsDisk result self.old self.new }
        ensures crash { LeavesAsBefore R.Records self.old self.new }
        ensures same { IsTrue self.new.answers → self.new.state ≡ self.old.state }
        ensures submission { IsTrue self.new.answers → IfOk result (λ o.
            option_map (λ v. v.items) o ≡ submission_under x12 self.old.state.items icn) }

        ensures fault { IfErr result IsOfRecords }
        ensures store { CountsFailures result (λ f. f ≡ Store)
            self.old.failures self.new.failures }
    {
        Ok(self.records.find_outbound(icn)?)
    }
}
