//! What a station is asked of its history, one item or one posting at a time.

ghost use Rattle.std.specs.Prelude.{◌≡◌, IsTrue, IfOk, IfErr, option_map};
ghost use Rattle.x12_acks.specs.Key.{key_view};
ghost use Rattle.x12_inbound.specs.Posting.{posting_view};
ghost use Rattle.x12_inbound.specs.Register.{posted_in};
ghost use Rattle.x12_outbound.specs.Entry.{at_place};
ghost use Rattle.x12_profile.specs.Stop.{CountsFailures};
ghost use Rattle.x12_profile.specs.X12.{x12};
ghost use Rattle.x12_station.specs.declared.fault.StationFault.TheVariants.{Store};
ghost use Rattle.x12_station.specs.Fault.{IsOfRecords};
ghost use Rattle.x12_station.specs.History.{postings};
ghost use Rattle.x12_station.specs.Record.{history_item};
ghost use Rattle.x12_station.specs.Seen.{KeepsDisk};
ghost use Rattle.x12_station.specs.Stopped.{LeavesAsBefore};

use crate::fault::StationFault;
use crate::records::{Item, Records};
use crate::station::Station;
use x12_acks::SetKey;
use x12_inbound::Posting;

impl<R: Records> Station<R> {
    /// The submission or first arrival of this number: from 1 on, in the order of the history.
    /// `None` where no such number was given yet.
    ///
    /// S13 and S14. The station stays as it is.
    pub fn item(&mut self, number: u64) -> Result<Option<Item>, StationFault>
        ensures never_won_back { IsTrue self.new.answers → IsTrue self.old.answers }
        ensures disk { KeepsDisk result self.old self.new }
        ensures crash { LeavesAsBefore R.Records self.old self.new }
        ensures same { IsTrue self.new.answers → self.new.state ≡ self.old.state }
        ensures item { IsTrue self.new.answers → IfOk result (λ o.
            option_map (history_item self.old.state.marks number) o
            ≡ at_place number self.old.state.items) }

        ensures fault { IfErr result IsOfRecords }
        ensures store { CountsFailures result (λ f. f ≡ Store)
            self.old.failures self.new.failures }
    {
        Ok(self.records.find_item(number)?)
    }

    /// The posting at this place in the order of arrival, from 1. `None` where there are fewer.
    ///
    /// S13 and S14. The station stays as it is.
    pub fn posting(&mut self, at: u64) -> Result<Option<Posting>, StationFault>
        ensures never_won_back { IsTrue self.new.answers → IsTrue self.old.answers }
        ensures disk { KeepsDisk result self.old self.new }
        ensures crash { LeavesAsBefore R.Records self.old self.new }
        ensures same { IsTrue self.new.answers → self.new.state ≡ self.old.state }
        ensures posting { IsTrue self.new.answers → IfOk result (λ o.
            option_map posting_view o ≡ at_place at (postings x12 self.old.state.items)) }

        ensures fault { IfErr result IsOfRecords }
        ensures store { CountsFailures result (λ f. f ≡ Store)
            self.old.failures self.new.failures }
    {
        Ok(self.records.find_posting(at)?)
    }

    /// The posting of the transaction set of this key. `None` where that wasn't posted.
    ///
    /// S13 and S14. The station stays as it is.
    pub fn posted(&mut self, key: &SetKey) -> Result<Option<Posting>, StationFault>
        ensures never_won_back { IsTrue self.new.answers → IsTrue self.old.answers }
        ensures disk { KeepsDisk result self.old self.new }
        ensures crash { LeavesAsBefore R.Records self.old self.new }
        ensures same { IsTrue self.new.answers → self.new.state ≡ self.old.state }
        ensures posted { IsTrue self.new.answers → IfOk result (λ o. option_map posting_view o
            ≡ posted_in (postings x12 self.old.state.items) (key_view key.now)) }

        ensures fault { IfErr result IsOfRecords }
        ensures store { CountsFailures result (λ f. f ≡ Store)
            self.old.failures self.new.failures }
    {
        Ok(self.records.find_posted(key)?)
    }
}
