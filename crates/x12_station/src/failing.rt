//! Records of a station whose device fails once.

ghost use Rattle.std.specs.Prelude.{◌≡◌, Some};

use crate::plan::{Committed, Planned};
use crate::records::{Item, Loaded, Owner, Records, StoreFault};
use x12_acks::SetKey;
use x12_envelopes::Party;
use x12_inbound::{Filed, Posting};
use x12_outbound::{Entry, Fate};
use x12_profile::{Countdown, CountedDown};

/// Records that pass a number of calls on, answer the next as a failed device would, and go on.
#[derive(Drop)]
pub struct Failing<R> {
    records: R,
    countdown: Countdown,
}

impl<R: Records> Failing<R> {
    /// These records, which fail once, after this many calls.
    pub fn new(records: R, passes: u64) -> Failing<R>
        ensures records { result.records ≡ records }
        ensures own { result.countdown.own ≡ 0 }
        ensures passes { result.countdown.passes ≡ Some passes }
    {
        let countdown = Countdown::new(passes);
        Failing { records, countdown }
    }
}

impl From<CountedDown> for StoreFault {
    ghost use Rattle.x12_station.specs.declared.records.StoreFault.TheVariants.{Device};

    ghost from_gives = { λ _ e. e ≡ Device };

    fn from(_: CountedDown) -> Self {
        StoreFault::Device
    }
}

impl<R: Records> Records for Failing<R> {
    ghost use Rattle.x12_numbers.specs.Count.{failed_in_all};

    ghost content = { λ s. R.content s.records };

    ghost clean = { λ s. R.clean s.records };

    ghost answers = { λ s. R.answers s.records };

    ghost valid = { λ s. R.valid s.records };

    ghost failed = { λ s. failed_in_all (R.failed s.records) s.countdown.own };

    ghost may_leave = { λ s d. R.may_leave s.records d };

    fn commit(&mut self, plan: Planned) -> Result<Committed, (Planned, StoreFault)> {
        if self.countdown.pass().is_err() {
            return Err((plan, StoreFault::Device));
        }
        self.records.commit(plan)
    }

    fn owner(&mut self) -> Result<Owner, StoreFault> {
        self.countdown.pass()?;
        self.records.owner()
    }

    fn load(&mut self) -> Result<Loaded, StoreFault> {
        self.countdown.pass()?;
        self.records.load()
    }

    fn find_inbound(&mut self, partner: &Party, icn: u32) -> Result<Option<Filed>, StoreFault> {
        self.countdown.pass()?;
        self.records.find_inbound(partner, icn)
    }

    fn find_fate(&mut self, key: &SetKey) -> Result<Option<Fate>, StoreFault> {
        self.countdown.pass()?;
        self.records.find_fate(key)
    }

    fn find_closed(&mut self, icn: u32) -> Result<Option<Entry>, StoreFault> {
        self.countdown.pass()?;
        self.records.find_closed(icn)
    }

    fn find_closed_group(
        &mut self,
        partner: &Party,
        functional: [u8; 2],
        gcn: u32,
    ) -> Result<Option<Entry>, StoreFault> {
        self.countdown.pass()?;
        self.records.find_closed_group(partner, functional, gcn)
    }

    fn find_outbound(&mut self, icn: u32) -> Result<Option<Vec<u8>>, StoreFault> {
        self.countdown.pass()?;
        self.records.find_outbound(icn)
    }

    fn find_item(&mut self, seq: u64) -> Result<Option<Item>, StoreFault> {
        self.countdown.pass()?;
        self.records.find_item(seq)
    }

    fn find_posting(&mut self, at: u64) -> Result<Option<Posting>, StoreFault> {
        self.countdown.pass()?;
        self.records.find_posting(at)
    }

    fn find_posted(&mut self, key: &SetKey) -> Result<Option<Posting>, StoreFault> {
        self.countdown.pass()?;
        self.records.find_posted(key)
    }

    fn postings(&mut self) -> Result<Vec<Posting>, StoreFault> {
        self.countdown.pass()?;
        self.records.postings()
    }

    fn failures(&self) -> u64 {
        self.countdown.failures(self.records.failures())
    }

    ghost answering_is_clean = { λ s answers. R.answering_is_clean s.records answers };

    ghost sound = { λ s valid answers. R.sound s.records valid answers };

    ghost left_is_held = { λ s d valid answers left. R.left_is_held s.records d valid answers left };
}
