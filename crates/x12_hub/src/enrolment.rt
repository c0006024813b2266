//! Who has a mailbox at the hub.

ghost use Rattle.std.specs.Prelude.{◌≡◌, IsTrue, IfOk, IfErr, OnOk, OnErr, Some, is_some};
ghost use Rattle.x12_hub.specs.Hub.{enrolled, dismissed, mailbox_of};
ghost use Rattle.x12_hub.specs.HubView.{Answered, GoesOn, FailsToStore};
ghost use Rattle.x12_hub.specs.Stopped.{HubLeavesWhole};

use crate::directory::{leave, node_of, replace};
use crate::fault::HubFault;
use crate::hub::Hub;
use crate::plan::{HubChange, HubPlan};
use crate::records::HubRecords;
use crate::writing::write;
use x12_envelopes::Party;

impl<H: HubRecords> Hub<H> {
    /// Gives a party its mailbox at a node, in place of an earlier one. What was decided, and what
    /// waits, stays where it is. B3, B4.
    pub fn enrol(&mut self, party: Party, node: u16) -> Result<(), HubFault>
        ensures goes_on { GoesOn result self.old self.new }
        ensures answered { Answered result self.new }
        ensures crash { HubLeavesWhole H.HubRecords (Some (enrolled self.old.hub party node))
            self.old self.new }
        ensures enrolled { IsTrue self.new.answers →
            OnOk result (self.new.hub ≡ enrolled self.old.hub party node) }
        ensures fault { IfErr result
            (FailsToStore self.old.failures self.new.failures) }
        ensures unchanged { IsTrue self.new.answers → OnErr result (self.new.hub ≡ self.old.hub) }
    {
        self.cached.directory.reserve(1)?;
        let change = HubChange::Enrolled(party, node);
        let plan = HubPlan::new(self.cached.icn, self.cached.item, change);
        let committed = write(&mut self.records, plan)?;
        self.cached.absorb(committed);
        replace(&mut self.cached.directory, party, node);
        Ok(())
    }

    /// Takes a party's entry out of the directory, and says whether it had one. What waits in its
    /// mailbox stays there. B3, B4.
    pub fn dismiss(&mut self, party: &Party) -> Result<bool, HubFault>
        ensures goes_on { GoesOn result self.old self.new }
        ensures crash { HubLeavesWhole H.HubRecords (Some (dismissed self.old.hub party.now))
            self.old self.new }
        ensures dismissed { IsTrue self.new.answers →
            OnOk result (self.new.hub ≡ dismissed self.old.hub party.now) }
        ensures had_one { IsTrue self.new.answers → IfOk result (λ b.
            b ≡ is_some (mailbox_of self.old.hub.directory party.now)) }
        ensures fault { IfErr result
            (FailsToStore self.old.failures self.new.failures) }
        ensures unchanged { IsTrue self.new.answers → OnErr result (self.new.hub ≡ self.old.hub) }
    {
        if node_of(&self.cached.directory, party).is_none() {
            return Ok(false);
        }
        let change = HubChange::Dismissed(*party);
        let plan = HubPlan::new(self.cached.icn, self.cached.item, change);
        let committed = write(&mut self.records, plan)?;
        self.cached.absorb(committed);
        leave(&mut self.cached.directory, *party);
        Ok(true)
    }
}
