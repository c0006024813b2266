//! What one commit changes in a hub's records.

ghost use Rattle.std.specs.Prelude.{◌≡◌};
ghost use Rattle.x12_hub.specs.Record.{hub_act_view};

use crate::decision::Decision;
use std::marker::Model;
use x12_envelopes::Party;

/// One change of a hub's records.
#[derive(Drop)]
pub enum HubChange {
    /// These bytes were decided for the first time, under the next item number; a boxed item waits.
    Decided {
        /// The bytes as they were deposited.
        bytes: Vec<u8>,
        /// What was decided.
        decision: Decision,
    },
    /// An item waits again.
    PutBack {
        /// The node of its mailbox.
        node: u16,
        /// Its number.
        item: u32,
    },
    /// An item, by its number, waits no more.
    TakenOut(u32),
    /// A party's mailbox is at a node from now on.
    Enrolled(Party, u16),
    /// A party has no mailbox from now on.
    Dismissed(Party),
}

/// What a commit is to write: the last numbers as they are to be, and one change. It has no `Drop`:
/// a commit takes it ([`HubRecords::commit`](crate::HubRecords::commit)), or gives it back.
#[must_use]
pub struct HubPlan {
    icn: u32,
    item: u32,
    change: HubChange,
}

/// A plan that was committed. It has no `Drop`: the hub that planned it takes it in.
#[must_use]
pub struct HubCommitted {
    plan: HubPlan,
}

/// What a plan is to write.
#[derive(Clone, Copy)]
pub struct HubPlanView<'a> {
    /// The last interchange number that the hub used: 0 to 999999999.
    pub icn: u32,
    /// The last item number: 0 to 999999999.
    pub item: u32,
    /// The change.
    pub change: &'a HubChange,
}

impl Model for HubPlan {
    ghost use Rattle.x12_hub.specs.Plan.{HubCommit};

    ghost Value = { HubCommit };

    ghost use Rattle.x12_hub.specs.Record.{hub_act_view};

    ghost view = { λ p. record { icn = p.icn; item = p.item; change = hub_act_view p.change } };
}

impl Model for HubCommitted {
    ghost use Rattle.x12_hub.specs.Plan.{HubCommit};

    ghost Value = { HubCommit };

    ghost view = { λ c. c.plan };
}

impl HubPlan {
    /// The plan of this change, under these last numbers.
    pub(crate) fn new(icn: u32, item: u32, change: HubChange) -> HubPlan
        ensures { result ≡ record { icn = icn; item = item; change = hub_act_view change } }
    {
        HubPlan { icn, item, change }
    }

    /// What is to be written.
    pub fn view(&self) -> HubPlanView<'_>
        ensures icn { result.icn ≡ self.now.icn }
        ensures item { result.item ≡ self.now.item }
        ensures change { hub_act_view result.change.now ≡ self.now.change }
    {
        HubPlanView {
            icn: self.icn,
            item: self.item,
            change: &self.change,
        }
    }

    /// The plan as one that was committed: a commit alone says so.
    pub fn done(self) -> HubCommitted
        ensures { result ≡ self }
    {
        HubCommitted { plan: self }
    }

    /// Gives up a plan that a commit refused.
    pub fn abandon(self) {
        let HubPlan {
            icn: _,
            item: _,
            change: _,
        } = self;
    }
}

impl HubCommitted {
    /// Ends a committed plan, as the hub takes it in: the last interchange number and the last item
    /// number.
    pub(crate) fn absorb(self) -> (u32, u32)
        ensures { result ≡ (self.icn, self.item) }
    {
        let HubCommitted { plan } = self;
        let HubPlan {
            icn,
            item,
            change: _,
        } = plan;
        (icn, item)
    }
}
