//! What waits in the hub's mailboxes.

ghost use Rattle.std.specs.Prelude.{◌≡◌, ◌≤◌, ◌==◌, ◌&&◌, nat_le, map, filter, length};
ghost use Rattle.std.specs.Prelude.{IsTrue, IfOk, IfErr, OnOk, OnErr, Some};
ghost use Rattle.std.specs.List.{list_any};
ghost use Rattle.x12_hub.specs.Hub.{collect, taken};
ghost use Rattle.x12_hub.specs.Mailbox.{item_view, with_bytes};
ghost use Rattle.x12_hub.specs.HubView.{GoesOn, FailsToStore, waiting_for};
ghost use Rattle.x12_hub.specs.Standing.{HubWereAsked};
ghost use Rattle.x12_hub.specs.Stopped.{HubLeavesAsBefore, HubLeavesWhole};
ghost use Rattle.x12_hub.specs.declared.fault.HubFault.{HubFault};
ghost use Rattle.x12_profile.specs.Stop.{CountsFailures};

use crate::cached::{count_at, items_at};
use crate::fault::HubFault;
use crate::hub::Hub;
use crate::plan::{HubChange, HubPlan};
use crate::records::HubRecords;
use crate::writing::write;
use std::alloc::Global;

/// Items with their bytes, as the records hold them. An item without bytes, which only records that
/// don't answer have, is left out.
fn with_bytes<H: HubRecords>(
    alloc: Global,
    records: &mut H,
    items: &[u32],
) -> Result<Vec<(u32, Vec<u8>)>, HubFault>
    requires valid { H.valid records.old }
    ensures asked { HubWereAsked H.HubRecords records.old records.new }
    ensures items { IsTrue (H.answers records.new) → IfOk result (λ v.
        map item_view v.items ≡ with_bytes (H.content records.old).decisions items.now) }
    ensures bounded { IfOk result (λ v. length v.items ≤ length items.now) }
    ensures answered { IsTrue (H.clean records.new) →
        OnOk result (IsTrue (H.answers records.old) → IsTrue (H.answers records.new)) }
    ensures device { CountsFailures result (λ e. e ≡ HubFault.Store)
        (H.failed records.old) (H.failed records.new) }
    ensures fault { IfErr result (FailsToStore (H.failed records.old) (H.failed records.new)) }
{
    let mut found = Vec::new(alloc);
    for &item in items {
        match records.item_bytes(item)? {
            Some(bytes) => found.push((item, bytes))?,
            None => {}
        }
    }
    Ok(found)
}

impl<H: HubRecords> Hub<H> {
    /// The items that wait in the mailbox of a node, by rising number. B4.
    pub fn mailbox(&self, node: u16) -> Result<Vec<u32>, HubFault>
        ensures items { IsTrue self.now.answers → IfOk result (λ v.
            v.items ≡ map (λ c. c.0) (collect self.now.hub node)) }
        ensures remembers { let m = self.now.memory in IfOk result (λ v. v.items ≡ map (λ w. w.item)
            (filter (λ w. (w.node == node) && nat_le w.item m.item) m.waiting)) }
        ensures fault { IfErr result (λ e. e ≡ HubFault.Memory) }
    {
        let cached = &self.cached;
        Ok(items_at(cached.alloc, &cached.mailboxes, node, cached.item)?)
    }

    /// How many items wait in the mailbox of a node.
    pub fn waiting(&self, node: u16) -> usize
        ensures items { IsTrue self.now.answers → result ≡ length (collect self.now.hub node) }
        ensures remembers { result ≡ waiting_for self.now.memory node }
    {
        count_at(&self.cached.mailboxes, node, self.cached.item)
    }

    /// What waits in the mailbox of a node, by rising item number: each item with its bytes. The
    /// items stay there until they are [taken](Hub::taken). There are never more than
    /// [`Hub::waiting`] tells, whether the records answer or not. B3, B4.
    pub fn collect(&mut self, node: u16) -> Result<Vec<(u32, Vec<u8>)>, HubFault>
        ensures goes_on { GoesOn result self.old self.new }
        ensures crash { HubLeavesAsBefore H.HubRecords self.old self.new }
        ensures hub { IsTrue self.new.answers → self.new.hub ≡ self.old.hub }
        ensures remembers { self.new.memory ≡ self.old.memory }
        ensures items { IsTrue self.new.answers → IfOk result (λ v.
            map item_view v.items ≡ collect self.old.hub node) }
        ensures bounded { IfOk result (λ v. length v.items ≤ waiting_for self.old.memory node) }
        ensures fault { IfErr result
            (FailsToStore self.old.failures self.new.failures) }
    {
        let items = self.mailbox(node)?;
        with_bytes(self.cached.alloc, &mut self.records, &items)
    }

    /// Takes an item out of the mailbox of a node, where its node has it, and says whether it was
    /// there. An item of another node, or one that was taken before, changes nothing. B3, B4.
    pub fn taken(&mut self, node: u16, item: u32) -> Result<bool, HubFault>
        ensures goes_on { GoesOn result self.old self.new }
        ensures crash { HubLeavesWhole H.HubRecords (Some (taken self.old.hub node item))
            self.old self.new }
        ensures taken { IsTrue self.new.answers →
            OnOk result (self.new.hub ≡ taken self.old.hub node item) }
        ensures was_there { IsTrue self.new.answers → IfOk result (λ b.
            b ≡ list_any (λ c. c.0 == item) (collect self.old.hub node)) }
        ensures fault { IfErr result
            (FailsToStore self.old.failures self.new.failures) }
        ensures unchanged { IsTrue self.new.answers → OnErr result (self.new.hub ≡ self.old.hub) }
    {
        if !self.cached.mailboxes.contains(&(node, item)) {
            return Ok(false);
        }
        let change = HubChange::TakenOut(item);
        let plan = HubPlan::new(self.cached.icn, self.cached.item, change);
        let committed = write(&mut self.records, plan)?;
        self.cached.absorb(committed);
        self.cached.mailboxes.remove(&(node, item));
        Ok(true)
    }
}
