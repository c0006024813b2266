//! Records of a hub whose device fails once.

ghost use Rattle.std.specs.Prelude.{◌≡◌, Some};

use crate::decision::Decision;
use crate::plan::{HubCommitted, HubPlan};
use crate::records::{HubLoaded, HubRecords, HubStoreFault};
use x12_envelopes::Party;
use x12_profile::{Countdown, CountedDown};

/// Records that pass a number of calls on, answer the next as a failed device would, and go on.
#[derive(Drop)]
pub struct Failing<H> {
    records: H,
    countdown: Countdown,
}

impl<H: HubRecords> Failing<H> {
    /// These records, which fail once, after this many calls.
    pub fn new(records: H, passes: u64) -> Failing<H>
        ensures records { result.records ≡ records }
        ensures own { result.countdown.own ≡ 0 }
        ensures passes { result.countdown.passes ≡ Some passes }
    {
        let countdown = Countdown::new(passes);
        Failing { records, countdown }
    }
}

impl From<CountedDown> for HubStoreFault {
    ghost use Rattle.x12_hub.specs.declared.records.HubStoreFault.TheVariants.{Device};

    ghost from_gives = { λ _ e. e ≡ Device };

    fn from(_: CountedDown) -> Self {
        HubStoreFault::Device
    }
}

impl<H: HubRecords> HubRecords for Failing<H> {
    ghost use Rattle.x12_numbers.specs.Count.{failed_in_all};

    ghost content = { λ s. H.content s.records };

    ghost clean = { λ s. H.clean s.records };

    ghost answers = { λ s. H.answers s.records };

    ghost valid = { λ s. H.valid s.records };

    ghost failed = { λ s. failed_in_all (H.failed s.records) s.countdown.own };

    ghost may_leave = { λ s d. H.may_leave s.records d };

    fn commit(&mut self, plan: HubPlan) -> Result<HubCommitted, (HubPlan, HubStoreFault)> {
        if self.countdown.pass().is_err() {
            return Err((plan, HubStoreFault::Device));
        }
        self.records.commit(plan)
    }

    fn owner(&mut self) -> Result<Party, HubStoreFault> {
        self.countdown.pass()?;
        self.records.owner()
    }

    fn load(&mut self) -> Result<HubLoaded, HubStoreFault> {
        self.countdown.pass()?;
        self.records.load()
    }

    fn find_decision(&mut self, bytes: &[u8]) -> Result<Option<Decision>, HubStoreFault> {
        self.countdown.pass()?;
        self.records.find_decision(bytes)
    }

    fn item_bytes(&mut self, item: u32) -> Result<Option<Vec<u8>>, HubStoreFault> {
        self.countdown.pass()?;
        self.records.item_bytes(item)
    }

    fn failures(&self) -> u64 {
        self.countdown.failures(self.records.failures())
    }

    ghost answering_is_clean = { λ s answers. H.answering_is_clean s.records answers };

    ghost sound = { λ s valid answers. H.sound s.records valid answers };

    ghost left_is_held = { λ s d valid answers left. H.left_is_held s.records d valid answers left };
}
