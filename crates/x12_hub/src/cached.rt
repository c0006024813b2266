//! What a hub keeps in memory: its numbers, its directory, and what waits in the mailboxes.

ghost use Rattle.std.specs.Prelude.{◌≡◌, map, IfOk, length};
ghost use Rattle.x12_hub.specs.Record.{hub_start_view, waiting_view};
ghost use Rattle.std.specs.BTreeSet.{IsOrdered};
ghost use Rattle.x12_hub.specs.Mailbox.{HoldsWaiting, items_in, key_order};
ghost use Rattle.x12_hub.specs.Keeps.{HubCaches};

use crate::plan::HubCommitted;
use crate::records::HubLoaded;
use std::alloc::{AllocError, Global};
use std::collections::BTreeSet;
use x12_envelopes::Party;

/// What a hub keeps in memory of its records, with its own party.
#[derive(Drop)]
pub(crate) struct Cached {
    pub(crate) alloc: Global,
    pub(crate) me: Party,
    pub(crate) icn: u32,
    pub(crate) item: u32,
    pub(crate) directory: Vec<(Party, u16)>,
    pub(crate) mailboxes: BTreeSet<(u16, u32)>,
}

/// What waits, by mailbox.
fn mailboxes_of(alloc: Global, waiting: &[(u16, u32)]) -> Result<BTreeSet<(u16, u32)>, AllocError>
    ensures { IfOk result (λ m. HoldsWaiting m (map waiting_view waiting.now)) }
{
    let mut mailboxes = BTreeSet::new(alloc);
    for &(node, item) in waiting {
        mailboxes.insert((node, item))?;
    }
    Ok(mailboxes)
}

/// The items of a mailbox, by rising number, up to the last item number.
pub(crate) fn items_at(
    alloc: Global,
    mailboxes: &BTreeSet<(u16, u32)>,
    node: u16,
    last: u32,
) -> Result<Vec<u32>, AllocError>
    ensures items { IfOk result (λ v. v.items ≡ items_in mailboxes.now node last) }
    ensures ordered { IsOrdered key_order mailboxes.now }
{
    let mut items = Vec::new(alloc);
    for (_, item) in mailboxes.range((node, 0)..=(node, last)) {
        items.push(*item)?;
    }
    Ok(items)
}

/// How many items a mailbox has, up to the last item number.
pub(crate) fn count_at(mailboxes: &BTreeSet<(u16, u32)>, node: u16, last: u32) -> usize
    ensures count { result ≡ length (items_in mailboxes.now node last) }
    ensures ordered { IsOrdered key_order mailboxes.now }
{
    mailboxes.range((node, 0)..=(node, last)).count()
}

impl Cached {
    /// What the hub of this party keeps of what was loaded.
    pub(crate) fn new(alloc: Global, me: Party, loaded: HubLoaded) -> Result<Cached, AllocError>
        ensures me { IfOk result (λ k. k.me ≡ me) }
        ensures caches { IfOk result (λ k. HubCaches k (hub_start_view loaded)) }
    {
        let mailboxes = mailboxes_of(alloc, &loaded.mailboxes)?;
        Ok(Cached {
            alloc,
            me,
            icn: loaded.icn,
            item: loaded.item,
            directory: loaded.directory,
            mailboxes,
        })
    }

    /// Takes in the numbers of what was committed.
    pub(crate) fn absorb(&mut self, committed: HubCommitted)
        ensures { self.new ≡ record self.old { icn = committed.icn; item = committed.item } }
    {
        let (icn, item) = committed.absorb();
        self.icn = icn;
        self.item = item;
    }
}
