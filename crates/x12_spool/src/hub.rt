//! A hub that takes what came from one depositor, at a moment.

use crate::depositor::{Depositor, reason_against, refusal_for};
use crate::node::{Answer, Node, NodeFault, Offer, sent_on};
use crate::offering::item_offers;
use std::alloc::Global;
use x12_envelopes::Moment;
use x12_hub::{Decision, Hub, HubFault, HubRecords};

/// A hub, and the moment at which it takes what came out of a folder: that of a party, or that of
/// another hub.
pub struct HubAt<H: HubRecords> {
    /// Where memory is taken.
    pub alloc: Global,
    /// The hub.
    pub hub: Hub<H>,
    /// The moment of the turn.
    pub at: Moment,
    /// Whose folder it is.
    pub depositor: Depositor,
    /// The node of its mailbox.
    pub node: u16,
}

/// Why a hub did nothing.
fn fault_of(fault: HubFault) -> NodeFault {
    match fault {
        HubFault::Exhausted => NodeFault::Exhausted,
        HubFault::Store => NodeFault::Store,
        _ => NodeFault::Memory,
    }
}

impl<H: HubRecords> Node for HubAt<H> {
    ghost use Rattle.x12_spool.specs.HubTurn.{IsDepositAt, IsTakenAt, AreWaitingAt, IsSameHub, IsSameTurn};
    ghost use Rattle.x12_spool.specs.Depositor.{IsForeign};

    ghost takes = { λ old new b sends.
        IsDepositAt old.depositor old.at b old.hub new.hub sends × IsSameTurn old new };

    ghost refuses = { λ old new b reason. IsForeign old.depositor b reason };

    ghost frees = { λ old new item. IsTakenAt old.node item old.hub new.hub × IsSameTurn old new };

    ghost offers = { λ old new now offered.
        AreWaitingAt old.node old.hub new.hub offered × IsSameTurn old new };

    ghost stays = { λ old new. IsSameHub old.hub new.hub × IsSameTurn old new };

    fn take(&mut self, bytes: &[u8]) -> Result<Answer, NodeFault> {
        if let Some(reason) = reason_against(&self.depositor, bytes) {
            return Ok(Answer::Refused(reason));
        }
        match self.hub.deposit(bytes, &self.at) {
            Ok(Decision::Boxed { .. }) => Ok(Answer::Sends(None)),
            Ok(Decision::Refused(reply)) => {
                let refusal = refusal_for(&self.depositor, bytes, reply);
                Ok(Answer::Sends(sent_on(refusal)))
            }
            Err(fault) => Err(fault_of(fault)),
        }
    }

    fn free(&mut self, item: u32) -> Result<(), NodeFault> {
        match self.hub.taken(self.node, item) {
            Ok(_) => Ok(()),
            Err(fault) => Err(fault_of(fault)),
        }
    }

    fn offer(&mut self, _now: u64) -> Result<Vec<Offer>, NodeFault> {
        match self.hub.collect(self.node) {
            Ok(items) => Ok(item_offers(self.alloc, items)?),
            Err(fault) => Err(fault_of(fault)),
        }
    }
}
