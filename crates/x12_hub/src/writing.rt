//! One commit of a hub: a plan is written and spent, whatever becomes of it.

ghost use Rattle.std.specs.Prelude.{◌≡◌, ◌&&◌, ◌==◌, ◌||◌, IsTrue, IfOk, IfErr, MatchResult, ℕ};
ghost use Rattle.std.specs.BTreeSet.{contains};
ghost use Rattle.x12_hub.specs.Stored.{IsSoundHub};
ghost use Rattle.x12_hub.specs.Plan.{hub_stored_after};
ghost use Rattle.x12_hub.specs.HubView.{FailsToStore};
ghost use Rattle.x12_hub.specs.Standing.{HubWereUsed};
ghost use Rattle.x12_hub.specs.Mailbox.{key_order};
ghost use Rattle.x12_hub.specs.declared.fault.HubFault.{HubFault};
ghost use Rattle.x12_profile.specs.Stop.{CountsFailures};

use crate::fault::HubFault;
use crate::plan::{HubCommitted, HubPlan};
use crate::records::HubRecords;
use std::collections::BTreeSet;

/// Writes a plan; a plan that is refused is given up.
pub(crate) fn write<H: HubRecords>(records: &mut H, plan: HubPlan) -> Result<HubCommitted, HubFault>
    requires valid { H.valid records.old }
    requires fits { IsTrue (H.answers records.old) →
        IsSoundHub (hub_stored_after plan (H.content records.old)) }
    ensures used { HubWereUsed H.HubRecords plan result records.old records.new }
    ensures never_won_back { (IsTrue (H.answers records.new) → IsTrue (H.answers records.old))
        × CountsFailures result (λ e. e ≡ HubFault.Store)
        (H.failed records.old) (H.failed records.new) }
    ensures written { IsTrue (H.answers records.new) → MatchResult result
        (λ c. H.content records.new ≡ hub_stored_after plan (H.content records.old))
        (λ e. H.content records.new ≡ H.content records.old) }
    ensures plan { IfOk result (λ c. c ≡ plan) }
    ensures fault { IfErr result (FailsToStore (H.failed records.old) (H.failed records.new)) }
{
    match records.commit(plan) {
        Ok(committed) => Ok(committed),
        Err((plan, fault)) => {
            plan.abandon();
            Err(HubFault::from(fault))
        }
    }
}

/// Puts an item into its mailbox and writes the plan that says so. Where that is refused, the item
/// is taken out again, if it wasn't there before.
pub(crate) fn write_put<H: HubRecords>(
    records: &mut H,
    mailboxes: &mut BTreeSet<(u16, u32)>,
    key: (u16, u32),
    plan: HubPlan,
) -> Result<HubCommitted, HubFault>
    requires valid { H.valid records.old }
    requires fits { IsTrue (H.answers records.old) →
        IsSoundHub (hub_stored_after plan (H.content records.old)) }
    ensures used { HubWereUsed H.HubRecords plan result records.old records.new }
    ensures never_won_back { (IsTrue (H.answers records.new) → IsTrue (H.answers records.old))
        × CountsFailures result (λ e. e ≡ HubFault.Store)
        (H.failed records.old) (H.failed records.new) }
    ensures written { IsTrue (H.answers records.new) → MatchResult result
        (λ c. H.content records.new ≡ hub_stored_after plan (H.content records.old))
        (λ e. H.content records.new ≡ H.content records.old) }
    ensures plan { IfOk result (λ c. c ≡ plan) }
    ensures fault { IfErr result (FailsToStore (H.failed records.old) (H.failed records.new)) }
    ensures put { MatchResult result (λ c. (n i : ℕ) → contains key_order mailboxes.new (n, i)
        ≡ (((key.0 == n) && (key.1 == i)) || contains key_order mailboxes.old (n, i)))
        (λ e. mailboxes.new ≡ mailboxes.old) }
{
    let added = match mailboxes.insert(key) {
        Ok(added) => added,
        Err(_) => {
            plan.abandon();
            return Err(HubFault::Memory);
        }
    };
    match write(records, plan) {
        Ok(committed) => Ok(committed),
        Err(fault) => {
            if added {
                mailboxes.remove(&key);
            }
            Err(fault)
        }
    }
}
