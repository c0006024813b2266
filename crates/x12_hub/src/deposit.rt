//! What a hub does with an interchange that is deposited.

ghost use Rattle.std.specs.Prelude.{◌≡◌, ◌+◌, ◌≤◌, ◌↔◌, ◌⊎◌, nat_le, Err, Ok, Some, None};
ghost use Rattle.std.specs.Prelude.{IsTrue, IfOk, IfErr, OnOk, OnErr, false, option_map};
ghost use Rattle.x12_numbers.specs.declared.book.TheConstants.{MAX_CONTROL_NUMBER};
ghost use Rattle.x12_envelopes.specs.declared.header.HeaderFault.{HeaderFault};
ghost use Rattle.x12_envelopes.specs.Header.{header_of};
ghost use Rattle.x12_profile.specs.Interchange.{Bytes};
ghost use Rattle.x12_profile.specs.X12.{x12};
ghost use Rattle.x12_hub.specs.Hub.{Boxed, decided, deposit, deposit_at, deposit_new};
ghost use Rattle.x12_hub.specs.Hub.{deposit_again, decides, waits};
ghost use Rattle.x12_hub.specs.HubRefusal.{deposit_refusal, Exhausted};
ghost use Rattle.x12_hub.specs.HubView.{Answered, GoesOn, FailsToStore};
ghost use Rattle.x12_hub.specs.Record.{decision_view};
ghost use Rattle.x12_hub.specs.Stopped.{HubIsKept, HubLeavesWhole};
ghost use Rattle.x12_numbers.specs.Count.{CountRose};
ghost use Rattle.x12_hub.specs.declared.fault.HubFault.{HubFault};

use crate::decision::Decision;
use crate::directory::node_of;
use crate::fault::HubFault;
use crate::hub::Hub;
use crate::plan::{HubChange, HubPlan};
use crate::records::HubRecords;
use crate::writing::{write, write_put};
use x12_acks::write_refusal;
use x12_envelopes::{Header, Moment, read_header};
use x12_judge::Note;
use x12_numbers::MAX_CONTROL_NUMBER;

/// The note of a TA1 for an unknown receiver (X12.5, TA105): 009.
const UNKNOWN_RECEIVER: Note = Note(9);

/// The next number. B2 where the last one is 999999999.
fn next(last: u32) -> Result<u32, HubFault>
    ensures next { IfOk result (λ n. n ≡ last + 1) }
    ensures left { IfOk result (λ n. n ≤ MAX_CONTROL_NUMBER) }
    ensures exhausted { IfErr result (λ e.
        (e ≡ HubFault.Exhausted) × (nat_le (last + 1) MAX_CONTROL_NUMBER ≡ false)) }
{
    if last >= MAX_CONTROL_NUMBER {
        return Err(HubFault::Exhausted);
    }
    Ok(last + 1)
}

impl<H: HubRecords> Hub<H> {
    /// Decides on deposited bytes, once: a receiver with a mailbox gets them as the next item; for
    /// an unknown one they are refused with a TA1 `R` 009 under the hub's next interchange number,
    /// which takes the next item number too. Bytes that were decided get their decision again, and
    /// a boxed item is back in its mailbox.
    ///
    /// B1 where the bytes have no readable header, B2 where a number is missing, B3, B4.
    pub fn deposit(&mut self, bytes: &[u8], at: &Moment) -> Result<Decision, HubFault>
        ensures goes_on { GoesOn result self.old self.new }
        ensures crash { HubLeavesWhole H.HubRecords (option_map (λ t. t.hub)
            (deposit x12 self.old.hub at.now bytes.now))
            self.old self.new }
        ensures answered { Answered result self.new }
        ensures decided { IsTrue self.new.answers → IfOk result (λ d.
            deposit x12 self.old.hub at.now bytes.now
            ≡ Some (record { hub = self.new.hub; outcome = decision_view d })) }

        ensures unreadable { (f : HeaderFault) →
            (result ≡ Err (HubFault.Unreadable f)) ↔ (header_of bytes.now ≡ Err f) }
        ensures exhausted { IsTrue self.new.answers → IfErr result (λ e. e ≡ HubFault.Exhausted →
            deposit_refusal x12 self.old.hub bytes.now ≡ Some Exhausted) }
        ensures store { IfErr result (λ e.
            e ≡ HubFault.Store → CountRose self.old.failures self.new.failures) }
        ensures unchanged { IsTrue self.new.answers → OnErr result (self.new.hub ≡ self.old.hub) }
    {
        let records = &mut self.records;
        let header = read_header(bytes)?;
        match records.find_decision(bytes)? {
            Some(decision) => self.give_again(decision),
            None => self.decide(bytes, &header, at),
        }
    }

    /// Gives a decision again, and puts a boxed item back into its mailbox.
    fn give_again(&mut self, decision: Decision) -> Result<Decision, HubFault>
        requires decided { IsTrue self.old.answers →
            (b : Bytes) × (decided self.old.hub.decisions b ≡ Some (decision_view decision)) }
        requires kept { HubIsKept H.HubRecords self.old }
        ensures goes_on { GoesOn result self.old self.new }
        ensures crash { HubLeavesWhole H.HubRecords (Some (deposit_again self.old.hub
            (decision_view decision)).hub)
            self.old self.new }
        ensures again { IsTrue self.new.answers → IfOk result (λ d.
            deposit_again self.old.hub (decision_view decision)
            ≡ record { hub = self.new.hub; outcome = decision_view d }) }
        ensures fault { IfErr result
            (FailsToStore self.old.failures self.new.failures) }
        ensures unchanged { IsTrue self.new.answers → OnErr result (self.new.hub ≡ self.old.hub) }
    {
        match &decision {
            Decision::Boxed { node, item } => self.put_back(*node, *item)?,
            Decision::Refused(_) => {}
        }
        Ok(decision)
    }
}

impl<H: HubRecords> Hub<H> {
    /// Puts a boxed item back into its mailbox. Where it waits there still, nothing is written.
    fn put_back(&mut self, node: u16, item: u32) -> Result<(), HubFault>
        requires { IsTrue self.old.answers →
            (b : Bytes) × (decided self.old.hub.decisions b ≡ Some (Boxed node item)) }
        ensures goes_on { GoesOn result self.old self.new }
        ensures crash { HubLeavesWhole H.HubRecords (Some (waits self.old.hub item))
            self.old self.new }
        ensures back { IsTrue self.new.answers →
            OnOk result (self.new.hub ≡ waits self.old.hub item) }
        ensures fault { IfErr result
            (FailsToStore self.old.failures self.new.failures) }
        ensures unchanged { IsTrue self.new.answers → OnErr result (self.new.hub ≡ self.old.hub) }
    {
        if self.cached.mailboxes.contains(&(node, item)) {
            return Ok(());
        }
        let change = HubChange::PutBack { node, item };
        let plan = HubPlan::new(self.cached.icn, self.cached.item, change);
        let cached = &mut self.cached;
        let committed = write_put(&mut self.records, &mut cached.mailboxes, (node, item), plan)?;
        cached.absorb(committed);
        Ok(())
    }

    /// Decides on new bytes by the directory: they take the next item number. B2, B3, B4.
    fn decide(&mut self, bytes: &[u8], header: &Header, at: &Moment) -> Result<Decision, HubFault>
        requires header { header_of bytes.now ≡ Ok header.now }
        requires new { IsTrue self.old.answers → decided self.old.hub.decisions bytes.now ≡ None }
        ensures goes_on { GoesOn result self.old self.new }
        ensures crash { HubLeavesWhole H.HubRecords (option_map (λ t. t.hub)
            (deposit_at x12 self.old.hub at.now bytes.now None))
            self.old self.new }
        ensures decided { IsTrue self.new.answers → IfOk result (λ d.
            deposit_at x12 self.old.hub at.now bytes.now None
            ≡ Some (record { hub = self.new.hub; outcome = decision_view d })) }
        ensures fault { IfErr result (λ e. (e ≡ HubFault.Exhausted)
            ⊎ FailsToStore self.old.failures self.new.failures e) }
        ensures exhausted { IsTrue self.new.answers → IfErr result (λ e. e ≡ HubFault.Exhausted →
            deposit_at x12 self.old.hub at.now bytes.now None ≡ None) }
        ensures unchanged { IsTrue self.new.answers → OnErr result (self.new.hub ≡ self.old.hub) }
    {
        let item = next(self.cached.item)?;
        match node_of(&self.cached.directory, &header.receiver) {
            Some(node) => self.put_new(bytes, node, item),
            None => self.refuse(bytes, header, at, item),
        }
    }

    /// Puts new bytes into a mailbox, as the next item. B3, B4.
    fn put_new(&mut self, bytes: &[u8], node: u16, item: u32) -> Result<Decision, HubFault>
        requires next { IsTrue self.old.answers → (item ≡ self.old.hub.item + 1)
            × (decided self.old.hub.decisions bytes.now ≡ None) }
        ensures goes_on { GoesOn result self.old self.new }
        ensures crash { HubLeavesWhole H.HubRecords (Some (waits
            (decides self.old.hub bytes.now (Boxed node item)) item))
            self.old self.new }
        ensures put { IsTrue self.new.answers → OnOk result (self.new.hub
            ≡ waits (decides self.old.hub bytes.now (Boxed node item)) item) }
        ensures decision { IfOk result (λ d. decision_view d ≡ Boxed node item) }
        ensures fault { IfErr result
            (FailsToStore self.old.failures self.new.failures) }
        ensures unchanged { IsTrue self.new.answers → OnErr result (self.new.hub ≡ self.old.hub) }
    {
        let change = HubChange::Decided {
            bytes: Vec::from_slice(self.cached.alloc, bytes)?,
            decision: Decision::Boxed { node, item },
        };
        let plan = HubPlan::new(self.cached.icn, item, change);
        let cached = &mut self.cached;
        let committed = write_put(&mut self.records, &mut cached.mailboxes, (node, item), plan)?;
        cached.absorb(committed);
        Ok(Decision::Boxed { node, item })
    }

    /// Refuses new bytes for an unknown receiver, as the next item: a TA1 `R` 009 under the next
    /// interchange number. B2, B3, B4.
    fn refuse(
        &mut self,
        bytes: &[u8],
        header: &Header,
        at: &Moment,
        item: u32,
    ) -> Result<Decision, HubFault>
        requires header { header_of bytes.now ≡ Ok header.now }
        requires next { IsTrue self.old.answers → (item ≡ self.old.hub.item + 1)
            × (decided self.old.hub.decisions bytes.now ≡ None) }
        ensures goes_on { GoesOn result self.old self.new }
        ensures crash { HubLeavesWhole H.HubRecords (option_map (λ t. t.hub)
            (deposit_new x12 self.old.hub at.now bytes.now None))
            self.old self.new }
        ensures refused { IsTrue self.new.answers → IfOk result (λ d.
            deposit_new x12 self.old.hub at.now bytes.now None
            ≡ Some (record { hub = self.new.hub; outcome = decision_view d })) }
        ensures exhausted { IsTrue self.new.answers → IfErr result (λ e. e ≡ HubFault.Exhausted →
            deposit_new x12 self.old.hub at.now bytes.now None ≡ None) }
        ensures fault { IfErr result (λ e. (e ≡ HubFault.Exhausted)
            ⊎ FailsToStore self.old.failures self.new.failures e) }
        ensures unchanged { IsTrue self.new.answers → OnErr result (self.new.hub ≡ self.old.hub) }
    {
        let icn = next(self.cached.icn)?;
        let alloc = self.cached.alloc;
        let reply = write_refusal(alloc, UNKNOWN_RECEIVER, header, &self.cached.me, at, icn)?;
        let decision = Decision::Refused(reply);
        let change = HubChange::Decided {
            bytes: Vec::from_slice(alloc, bytes)?,
            decision: decision.copied(alloc)?,
        };
        let committed = write(&mut self.records, HubPlan::new(icn, item, change))?;
        self.cached.absorb(committed);
        Ok(decision)
    }
}
