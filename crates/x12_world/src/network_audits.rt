//! The audits of a network.

ghost use Rattle.std.specs.Prelude.{◌≡◌, IfErr, IfOk, map};
ghost use Rattle.x12_world.specs.Failing.{CountsOne};
ghost use Rattle.x12_world.specs.Asking.{IsMissed};
ghost use Rattle.x12_world.specs.Auditing.{audit_view};
ghost use Rattle.x12_world.specs.Audits.{AreAudits};
ghost use Rattle.x12_world.specs.Running.{AllAnswer};

use crate::audits::audit_all;
use crate::refused::Refused;
use crate::world::World;
use x12_hub::HubRecords;
use x12_report::Audit;
use x12_station::Records;

impl<R: Records, H: HubRecords> World<R, H> {
    /// The audit of each transaction set that the stations submitted, by rising key, as `keys` lists
    /// them and `audit` tells. The network stays as it is.
    ///
    /// V5 and V3, where memory is missing or the records of a station fail.
    pub fn audits(&mut self) -> Result<Vec<Audit>, Refused>
        ensures never_won_back { AllAnswer self.new → AllAnswer self.old }
        ensures same { AllAnswer self.new → self.new.world ≡ self.old.world }
        ensures audits { AllAnswer self.new →
            IfOk result (λ v. AreAudits self.old.world (map audit_view v.items)) }
        ensures refused { IfErr result IsMissed }
        ensures store { CountsOne result self.old.failures self.new.failures }
    {
        audit_all(self.alloc, &mut self.stations, &self.submitted)
    }
}
