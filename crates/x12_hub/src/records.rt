//! What keeps a hub's decisions, directory and mailboxes over a restart.

ghost use Rattle.std.specs.Prelude.{◌≡◌, ℕ, Bool, IsTrue, IfOk, MatchResult, option_map};
ghost use Rattle.x12_profile.specs.Stop.{CountsFailures, OnlyAsks, WritesWhole};
ghost use Rattle.x12_hub.specs.Hub.{decided};
ghost use Rattle.x12_hub.specs.Stored.{HubStored, IsSoundHub, bytes_at};
ghost use Rattle.x12_hub.specs.Plan.{hub_stored_after};
ghost use Rattle.x12_hub.specs.Record.{decision_view, hub_start_view, hub_start_of};
ghost use Rattle.x12_hub.specs.declared.records.HubStoreFault.{HubStoreFault};

use crate::decision::Decision;
use crate::plan::{HubCommitted, HubPlan};
use std::alloc::AllocError;
use thiserror::Error;
use x12_envelopes::Party;

/// Why records answer nothing.
#[derive(Clone, Copy, Debug, PartialEq, Eq, Error)]
pub enum HubStoreFault {
    /// The device failed: what was asked stands whole or not at all, and the next start tells which.
    #[error("the hub's records failed: see to the device, then start the hub again")]
    Device,
    /// Memory was missing: what was asked wasn't done.
    #[error("memory was missing for the hub's records")]
    Memory,
}

/// What a hub keeps in memory of its records.
#[derive(Drop)]
pub struct HubLoaded {
    /// The last interchange number: 0 to 999999999.
    pub icn: u32,
    /// The last item number: 0 to 999999999.
    pub item: u32,
    /// Each party that has a mailbox, and the node of it.
    pub directory: Vec<(Party, u16)>,
    /// What waits, by rising item number: the node of the mailbox, and the item.
    pub mailboxes: Vec<(u16, u32)>,
}

/// The records of a hub. What they promise of their content holds while they answer. They say whose
/// they are.
pub trait HubRecords {
    /// What they hold. A database: what its tables stand for, one list a table.
    ghost content: { Self → HubStored };
    /// So far the disk has returned what was written. Memory: always.
    ghost clean: { Self → Bool };
    /// And they answer. A database: the store is open, which a failed commit may end.
    ghost answers: { Self → Bool };
    /// What holds between calls. A database: no transaction is open, and the tables hold sound content.
    ghost valid: { Self → Type 0 };
    /// How often the device has failed.
    ghost failed: { Self → ℕ };
    /// What may be held after a crash at this moment.
    ghost may_leave: { Self → HubStored → Type 0 };

    /// Writes a plan, whole or not at all. A plan comes back where it wasn't written.
    fn commit(&mut self, plan: HubPlan) -> Result<HubCommitted, (HubPlan, HubStoreFault)>
        // a database: without sound content a look-up may find two rows
        requires valid { valid self.old }
        requires fits { IsTrue (answers self.old) →
            IsSoundHub (hub_stored_after plan (content self.old)) }
        ensures valid { valid self.new }
        // a database: a failure shuts the store, and nothing opens it again
        ensures never_won_back { IsTrue (answers self.new) → IsTrue (answers self.old) }
        // a database: one transaction, whose commit or rollback is the last step
        ensures written { IsTrue (answers self.new) →
            MatchResult result (λ c. content self.new ≡ hub_stored_after plan (content self.old))
            (λ e. content self.new ≡ content self.old) }
        // nothing is lost of the plan, in either case
        ensures plan { MatchResult result (λ c. c ≡ plan) (λ e. e.0 ≡ plan) }
        // a database: the count of failures never falls, and is raised where a statement or the
        // commit fails
        ensures device { CountsFailures result (λ e. e.1 ≡ HubStoreFault.Device)
            (failed self.old) (failed self.new) }
        // a database: the log holds the whole transaction, or none of it; and after an Ok the store
        // is open
        ensures crash { WritesWhole (λ d. IsTrue (answers self.old)
            × (d ≡ hub_stored_after plan (content self.old))) result (clean self.old)
            (clean self.new) (answers self.new) (may_leave self.old) (may_leave self.new) };

    /// The party of the hub whose they are.
    fn owner(&mut self) -> Result<Party, HubStoreFault>
        requires { valid self.old }
        ensures valid { valid self.new }
        ensures never_won_back { IsTrue (answers self.new) → IsTrue (answers self.old) }
        ensures same { IsTrue (answers self.new) → content self.new ≡ content self.old }
        // a database: the row of the numbers
        ensures found { IsTrue (answers self.new) → IfOk result (λ p. p ≡ (content self.old).party) }
        ensures device { CountsFailures result (λ e. e ≡ HubStoreFault.Device)
            (failed self.old) (failed self.new) }
        ensures crash { OnlyAsks result (clean self.old) (clean self.new) (answers self.new)
            (may_leave self.old) (may_leave self.new) };

    /// What a hub keeps in memory.
    fn load(&mut self) -> Result<HubLoaded, HubStoreFault>
        requires { valid self.old }
        ensures valid { valid self.new }
        ensures never_won_back { IsTrue (answers self.new) → IsTrue (answers self.old) }
        // a database: a query writes nothing
        ensures same { IsTrue (answers self.new) → content self.new ≡ content self.old }
        // a database: each table in the order of its key, the directory in that of its rows
        ensures loaded { IsTrue (answers self.new) →
            IfOk result (λ l. hub_start_view l ≡ hub_start_of (content self.old)) }
        ensures device { CountsFailures result (λ e. e ≡ HubStoreFault.Device)
            (failed self.old) (failed self.new) }
        // a database: a query writes nothing, and one that is answered finds the store open
        ensures crash { OnlyAsks result (clean self.old) (clean self.new) (answers self.new)
            (may_leave self.old) (may_leave self.new) };

    /// The decision on these bytes, if they were decided.
    fn find_decision(&mut self, bytes: &[u8]) -> Result<Option<Decision>, HubStoreFault>
        requires { valid self.old }
        ensures valid { valid self.new }
        ensures never_won_back { IsTrue (answers self.new) → IsTrue (answers self.old) }
        ensures same { IsTrue (answers self.new) → content self.new ≡ content self.old }
        // a database: the row of these bytes, which are unique
        ensures found { IsTrue (answers self.new) → IfOk result (λ o.
            option_map decision_view o ≡ decided (content self.old).decisions bytes.now) }
        ensures device { CountsFailures result (λ e. e ≡ HubStoreFault.Device)
            (failed self.old) (failed self.new) }
        ensures crash { OnlyAsks result (clean self.old) (clean self.new) (answers self.new)
            (may_leave self.old) (may_leave self.new) };

    /// The bytes that were decided under an item number, if it was given.
    fn item_bytes(&mut self, item: u32) -> Result<Option<Vec<u8>>, HubStoreFault>
        requires { valid self.old }
        ensures valid { valid self.new }
        ensures never_won_back { IsTrue (answers self.new) → IsTrue (answers self.old) }
        ensures same { IsTrue (answers self.new) → content self.new ≡ content self.old }
        // a database: the row of this item, which is the key
        ensures found { IsTrue (answers self.new) → IfOk result (λ o.
            option_map (λ v. v.items) o ≡ bytes_at (content self.old).decisions item) }
        ensures device { CountsFailures result (λ e. e ≡ HubStoreFault.Device)
            (failed self.old) (failed self.new) }
        ensures crash { OnlyAsks result (clean self.old) (clean self.new) (answers self.new)
            (may_leave self.old) (may_leave self.new) };

    /// How often the device has failed, up to 18446744073709551615.
    fn failures(&self) -> u64
        ensures { result ≡ failed self.now };

    /// While they answer, the disk has returned what was written.
    ghost answering_is_clean: { (s : Self) → IsTrue (answers s) → IsTrue (clean s) };
    /// While they answer, what they hold is sound.
    ghost sound: { (s : Self) → valid s → IsTrue (answers s) → IsSoundHub (content s) };
    /// While they answer, a crash leaves what they hold.
    ghost left_is_held: { (s : Self) (d : HubStored) → valid s → IsTrue (answers s) →
        may_leave s d →
        d ≡ content s };
}

impl From<AllocError> for HubStoreFault {
    ghost use Rattle.x12_hub.specs.declared.records.HubStoreFault.TheVariants.{Memory};

    ghost from_gives = { λ _ e. e ≡ Memory };

    fn from(_: AllocError) -> Self {
        HubStoreFault::Memory
    }
}
