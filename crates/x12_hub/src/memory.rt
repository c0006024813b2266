//! Records of a hub in memory.

ghost use Rattle.std.specs.Prelude.{◌≡◌, ◌++◌, ◌∷◌, [], map, None, IfOk, OnOk, OnErr, option_map};
ghost use Rattle.std.specs.Prelude.{◌<◌};
ghost use Rattle.indexmap.specs.IndexMap.{spare};
ghost use Rattle.x12_hub.specs.Plan.{Decides};
ghost use Rattle.x12_hub.specs.Hub.{decided, entries_of_others};
ghost use Rattle.x12_hub.specs.Stored.{IsSoundHub, hub_nothing_stored, bytes_at};
ghost use Rattle.x12_hub.specs.Plan.{put_waiting, take_waiting, boxed_after, hub_changed};
ghost use Rattle.x12_hub.specs.Plan.{hub_stored_after};
ghost use Rattle.x12_hub.specs.Record.{decision_view, mailbox_view, waiting_view};
ghost use Rattle.x12_hub.specs.Record.{hub_start_view, hub_start_of};
ghost use Rattle.x12_hub.specs.Memory.{decided_view, hub_memory_view, waiting_under};

use crate::decision::Decision;
use crate::directory::{leave, replace};
use crate::plan::{HubChange, HubCommitted, HubPlan};
use crate::records::{HubLoaded, HubRecords, HubStoreFault};
use indexmap::IndexMap;
use std::alloc::{AllocError, Global};
use std::collections::BTreeMap;
use x12_envelopes::Party;

/// Records of a hub in memory, which fail for want of memory alone. They hold each decision's bytes
/// once, and find a decision by its bytes and by its item number; the directory is a list, which an
/// enrolment or a dismissal walks.
#[derive(Drop)]
pub struct MemoryHubRecords {
    alloc: Global,
    party: Party,
    directory: Vec<(Party, u16)>,
    decisions: IndexMap<Vec<u8>, Decision>,
    waiting: BTreeMap<u32, u16>,
    icn: u32,
    item: u32,
}

/// Puts an item among those that wait.
fn put(waiting: &mut BTreeMap<u32, u16>, node: u16, item: u32) -> Result<(), AllocError>
    ensures ok { OnOk result (map waiting_under waiting.new.entries
        ≡ put_waiting node item (map waiting_under waiting.old.entries)) }
    ensures err { OnErr result (waiting.new.entries ≡ waiting.old.entries) }
{
    waiting.insert(item, node)?;
    Ok(())
}

/// Puts a boxed item among those that wait.
fn put_boxed(waiting: &mut BTreeMap<u32, u16>, decision: &Decision) -> Result<(), AllocError>
    ensures ok { OnOk result (map waiting_under waiting.new.entries
        ≡ boxed_after (decision_view decision.now) (map waiting_under waiting.old.entries)) }
    ensures err { OnErr result (waiting.new.entries ≡ waiting.old.entries) }
{
    match decision {
        Decision::Boxed { node, item } => put(waiting, *node, *item),
        Decision::Refused(_) => Ok(()),
    }
}

/// Puts a decision on new bytes behind the others, where there is room for it.
fn push(decisions: &mut IndexMap<Vec<u8>, Decision>, bytes: Vec<u8>, decision: Decision)
    requires room { 0 < spare decisions.old }
    requires new { decided (map decided_view decisions.old.entries) bytes.items ≡ None }
    ensures { map decided_view decisions.new.entries ≡ map decided_view decisions.old.entries
        ++ record { body = bytes.items; outcome = decision_view decision } ∷ [] }
{
    let _ = decisions.insert(bytes, decision);
}

/// Takes an item out of those that wait.
fn take(waiting: &mut BTreeMap<u32, u16>, item: u32)
    ensures { map waiting_under waiting.new.entries
        ≡ take_waiting item (map waiting_under waiting.old.entries) }
{
    if waiting.len() > 0 {
        waiting.remove(&item);
    }
}

/// Writes a party's entry anew.
fn enter(directory: &mut Vec<(Party, u16)>, party: Party, node: u16) -> Result<(), AllocError>
    ensures ok { OnOk result (map mailbox_view directory.new.items
        ≡ entries_of_others party (map mailbox_view directory.old.items)
        ++ record { party = party; node = node } ∷ []) }
    ensures err { OnErr result (directory.new.items ≡ directory.old.items) }
{
    directory.reserve(1)?;
    replace(directory, party, node);
    Ok(())
}

impl MemoryHubRecords {
    /// Records of the hub of this party, that hold nothing. Takes no memory.
    pub fn new(alloc: Global, party: Party) -> MemoryHubRecords
        ensures nothing { hub_memory_view result ≡ hub_nothing_stored party }
        ensures sound { IsSoundHub (hub_memory_view result) }
    {
        MemoryHubRecords {
            alloc,
            party,
            directory: Vec::new(alloc),
            decisions: IndexMap::new(alloc),
            waiting: BTreeMap::new(alloc),
            icn: 0,
            item: 0,
        }
    }

    /// Holds a first decision, on bytes that weren't decided; a boxed item waits.
    fn decide(&mut self, bytes: &[u8], decision: &Decision) -> Result<(), AllocError>
        requires { decided (hub_memory_view self.old).decisions bytes.now ≡ None }
        ensures ok { OnOk result (hub_memory_view self.new
            ≡ hub_changed (Decides bytes.now (decision_view decision.now)) (hub_memory_view self.old)) }
        ensures err { OnErr result (hub_memory_view self.new ≡ hub_memory_view self.old) }
    {
        let key = Vec::from_slice(self.alloc, bytes)?;
        let value = decision.copied(self.alloc)?;
        self.decisions.reserve(1)?;
        put_boxed(&mut self.waiting, decision)?;
        push(&mut self.decisions, key, value);
        Ok(())
    }
}

impl MemoryHubRecords {
    /// Makes a plan's change.
    fn make(&mut self, plan: &HubPlan) -> Result<(), AllocError>
        requires { IsSoundHub (hub_stored_after plan.now (hub_memory_view self.old)) }
        ensures ok { OnOk result (hub_memory_view self.new
            ≡ hub_stored_after plan.now (hub_memory_view self.old)) }
        ensures err { OnErr result (hub_memory_view self.new ≡ hub_memory_view self.old) }
    {
        let view = plan.view();
        match view.change {
            HubChange::Decided { bytes, decision } => self.decide(bytes, decision)?,
            HubChange::PutBack { node, item } => put(&mut self.waiting, *node, *item)?,
            HubChange::TakenOut(item) => take(&mut self.waiting, *item),
            HubChange::Enrolled(party, node) => enter(&mut self.directory, *party, *node)?,
            HubChange::Dismissed(party) => leave(&mut self.directory, *party),
        }
        self.icn = view.icn;
        self.item = view.item;
        Ok(())
    }

    /// What waits, by rising item number.
    fn mailboxes(&self) -> Result<Vec<(u16, u32)>, AllocError>
        ensures { IfOk result (λ v. map waiting_view v.items ≡ (hub_memory_view self.now).waiting) }
    {
        let mut mailboxes = Vec::new(self.alloc);
        for (item, node) in &self.waiting {
            mailboxes.push((*node, *item))?;
        }
        Ok(mailboxes)
    }

    /// What a hub keeps in memory.
    fn loaded(&self) -> Result<HubLoaded, AllocError>
        ensures { IfOk result (λ l. hub_start_view l ≡ hub_start_of (hub_memory_view self.now)) }
    {
        Ok(HubLoaded {
            icn: self.icn,
            item: self.item,
            directory: Vec::from_slice(self.alloc, &self.directory)?,
            mailboxes: self.mailboxes()?,
        })
    }

    /// A copy of the decision on these bytes.
    fn decision(&self, bytes: &[u8]) -> Result<Option<Decision>, AllocError>
        ensures { IfOk result (λ o.
            option_map decision_view o ≡ decided (hub_memory_view self.now).decisions bytes.now) }
    {
        match self.decisions.get(bytes) {
            Some(decision) => Ok(Some(decision.copied(self.alloc)?)),
            None => Ok(None),
        }
    }

    /// A copy of the bytes that were decided under an item number.
    fn bytes(&self, item: u32) -> Result<Option<Vec<u8>>, AllocError>
        ensures { IfOk result (λ o.
            option_map (λ v. v.items) o ≡ bytes_at (hub_memory_view self.now).decisions item) }
    {
        let Some(place) = item.checked_sub(1) else {
            return Ok(None);
        };
        match self.decisions.get_index(place as usize) {
            Some((bytes, _)) => Ok(Some(Vec::from_slice(self.alloc, bytes)?)),
            None => Ok(None),
        }
    }
}

impl HubRecords for MemoryHubRecords {
    ghost use Rattle.std.specs.Prelude.{true, ◌≡◌, refl};
    ghost use Rattle.x12_hub.specs.Stored.{IsSoundHub};
    ghost use Rattle.x12_hub.specs.Memory.{hub_memory_view};

    ghost content = { hub_memory_view };

    ghost clean = { λ r. true };

    ghost answers = { λ r. true };

    ghost valid = { λ r. IsSoundHub (hub_memory_view r) };

    ghost failed = { λ r. 0 };

    ghost may_leave = { λ r d. d ≡ hub_memory_view r };

    fn commit(&mut self, plan: HubPlan) -> Result<HubCommitted, (HubPlan, HubStoreFault)> {
        match self.make(&plan) {
            Ok(()) => Ok(plan.done()),
            Err(AllocError) => Err((plan, HubStoreFault::Memory)),
        }
    }

    fn owner(&mut self) -> Result<Party, HubStoreFault> {
        Ok(self.party)
    }

    fn load(&mut self) -> Result<HubLoaded, HubStoreFault> {
        Ok(self.loaded()?)
    }

    fn find_decision(&mut self, bytes: &[u8]) -> Result<Option<Decision>, HubStoreFault> {
        Ok(self.decision(bytes)?)
    }

    fn item_bytes(&mut self, item: u32) -> Result<Option<Vec<u8>>, HubStoreFault> {
        Ok(self.bytes(item)?)
    }

    fn failures(&self) -> u64 {
        0
    }

    ghost answering_is_clean = { λ r answers. refl };

    ghost sound = { λ r valid answers. valid };

    ghost left_is_held = { λ r d valid answers left. left };
}
