//! What keeps a station's submissions, fates, arrivals, postings, agreements and numbers over a
//! restart.

ghost use Rattle.std.specs.Prelude.{◌≡◌, ℕ, Bool, IsTrue, IfOk, IfSome, MatchResult, map};
ghost use Rattle.std.specs.Prelude.{◌∷◌, option_map, option_to_list};
ghost use Rattle.x12_acks.specs.Key.{key_view};
ghost use Rattle.x12_outbound.specs.Entry.{at_place, entry_row};
ghost use Rattle.x12_inbound.specs.Filing.{filed_under};
ghost use Rattle.x12_inbound.specs.Posting.{posting_view};
ghost use Rattle.x12_inbound.specs.Register.{posted_in};
ghost use Rattle.x12_profile.specs.Stop.{CountsFailures, OnlyAsks, WritesWhole};
ghost use Rattle.x12_profile.specs.Marking.{marks_view};
ghost use Rattle.x12_station.specs.Durable.{item_at};
ghost use Rattle.x12_station.specs.Stored.{Stored, IsSound, filed_in, stored_fate, closed_entry};
ghost use Rattle.x12_station.specs.Stored.{closed_entry_with_group, submitted_bytes, origin_of};
ghost use Rattle.x12_station.specs.Stored.{marks_of};
ghost use Rattle.x12_station.specs.Plan.{stored_after};
ghost use Rattle.x12_station.specs.Record.{loaded_view, loaded_of, owner_view, IsSoundLoaded};
ghost use Rattle.x12_station.specs.Record.{history_item};
ghost use Rattle.x12_station.specs.Record.{IsSoundClosed};
ghost use Rattle.x12_station.specs.declared.records.StoreFault.{StoreFault};

use crate::plan::{Committed, Planned};
use std::alloc::AllocError;
use thiserror::Error;
use x12_acks::SetKey;
use x12_envelopes::Party;
use x12_inbound::{Filed, Posting};
use x12_judge::Agreement;
use x12_numbers::Book;
use x12_outbound::{Entry, Fate};
use x12_profile::Marks;

/// Why records answer nothing.
#[derive(Clone, Copy, Debug, PartialEq, Eq, Error)]
pub enum StoreFault {
    /// The device failed: what was asked stands whole or not at all, and the next start tells which.
    #[error("the station's records failed: see to the device, then start the station again")]
    Device,
    /// Memory was missing: what was asked wasn't done.
    #[error("memory was missing for the station's records")]
    Memory,
}

/// What a station keeps in memory of its records.
#[derive(Drop)]
pub struct Loaded {
    /// How far the history is judged and read in an older way.
    pub marks: Marks,
    /// The last control numbers.
    pub book: Book,
    /// The last number of a submission or first arrival: 0 to 9223372036854775807.
    pub seq: u64,
    /// The agreements in force, in the order in which they were made.
    pub agreements: Vec<Agreement>,
    /// The submitted interchanges with a pending set, by rising number.
    pub entries: Vec<Entry>,
}

/// Whose the records of a station are.
#[derive(Clone, Copy)]
pub struct Owner {
    /// The station's party.
    pub party: Party,
    /// Its hub.
    pub hub: Party,
    /// The hub that its hub is connected to, if there is one.
    pub other: Option<Party>,
    /// The last number (of a submission or first arrival) up to which an arrival is read as before
    /// acknowledgments were noted: 0 to 9223372036854775807.
    pub noted: u64,
    /// The last number up to which an arrival is judged as before the control versions from 00402 on
    /// were taken: 0 to 9223372036854775807.
    pub era: u64,
}

impl Owner {
    /// The owner of a new station's records: this party, at this hub, which may be connected to
    /// another one.
    pub fn new(party: Party, hub: Party, other: Option<Party>) -> Owner
        ensures { owner_view result ≡ origin_of party (hub ∷ option_to_list other) }
    {
        Owner {
            party,
            hub,
            other,
            noted: 0,
            era: 0,
        }
    }

    /// How far this owner's history is judged and read in an older way.
    pub fn marks(&self) -> Marks
        ensures { marks_view result ≡ marks_of (owner_view self.now) }
    {
        Marks {
            noted: self.noted,
            era: self.era,
        }
    }
}

/// A submission or a first arrival, as it is kept.
#[derive(Drop)]
pub enum Item {
    /// It was submitted: its bytes from ISA through IEA.
    Submitted(Vec<u8>),
    /// It came: its bytes, and the reply that is kept, where one was due.
    Came(Filed),
}

/// The records of a station. What they promise of their content holds while they answer. They say
/// whose they are, and look at nothing of it: what a set's key has of its sender neither.
pub trait Records {
    /// What they hold. A database: what its tables stand for, one list a table.
    ghost content: { Self → Stored };
    /// So far the disk has returned what was written. Memory: always.
    ghost clean: { Self → Bool };
    /// And they answer. A database: the store is open, which a failed commit may end.
    ghost answers: { Self → Bool };
    /// What holds between calls. A database: no transaction is open, and the tables hold sound content.
    ghost valid: { Self → Type 0 };
    /// How often the device has failed: never less often than before.
    ghost failed: { Self → ℕ };
    /// What may be held after a crash at this moment.
    ghost may_leave: { Self → Stored → Type 0 };

    /// Writes a plan, whole or not at all. A plan comes back where it wasn't written.
    fn commit(&mut self, plan: Planned) -> Result<Committed, (Planned, StoreFault)>
        // a database: without sound content a look-up may find two rows
        requires valid { valid self.old }
        requires fits { IsTrue (answers self.old) → IsSound (stored_after plan (content self.old)) }
        ensures valid { valid self.new }
        // a database: a failure shuts the store, and nothing opens it again
        ensures never_won_back { IsTrue (answers self.new) → IsTrue (answers self.old) }
        // a database: one transaction, whose commit or rollback is the last step
        ensures written { IsTrue (answers self.new) →
            MatchResult result (λ c. content self.new ≡ stored_after plan (content self.old))
            (λ e. content self.new ≡ content self.old) }
        // nothing is lost of the plan, in either case
        ensures plan { MatchResult result (λ c. c ≡ plan) (λ e. e.0 ≡ plan) }
        // a database: the count of failures is raised where a statement or the commit fails
        ensures device { CountsFailures result (λ e. e.1 ≡ StoreFault.Device)
            (failed self.old) (failed self.new) }
        // a database: the log holds the whole transaction, or none of it; and after an Ok the store
        // is open
        ensures crash { WritesWhole (λ d. IsTrue (answers self.old)
            × (d ≡ stored_after plan (content self.old))) result (clean self.old)
            (clean self.new) (answers self.new) (may_leave self.old) (may_leave self.new) };

    /// Whose they are.
    fn owner(&mut self) -> Result<Owner, StoreFault>
        requires { valid self.old }
        ensures valid { valid self.new }
        ensures never_won_back { IsTrue (answers self.new) → IsTrue (answers self.old) }
        ensures same { IsTrue (answers self.new) → content self.new ≡ content self.old }
        // a database: the row of the numbers
        ensures found { IsTrue (answers self.new) →
            IfOk result (λ o. owner_view o ≡ (content self.old).origin) }
        ensures device { CountsFailures result (λ e. e ≡ StoreFault.Device)
            (failed self.old) (failed self.new) }
        ensures crash { OnlyAsks result (clean self.old) (clean self.new) (answers self.new)
            (may_leave self.old) (may_leave self.new) };

    /// What a station keeps in memory.
    fn load(&mut self) -> Result<Loaded, StoreFault>
        requires { valid self.old }
        ensures valid { valid self.new }
        ensures never_won_back { IsTrue (answers self.new) → IsTrue (answers self.old) }
        // a database: a query writes nothing
        ensures same { IsTrue (answers self.new) → content self.new ≡ content self.old }
        // a database: each table in the order of its key; the open submissions by their sets' fates
        ensures loaded { IsTrue (answers self.new) →
            IfOk result (λ l. loaded_view l ≡ loaded_of (content self.old)) }
        // a database: each row is looked at as it is read, and one out of form or order is a failure
        ensures sound { IfOk result (λ l. IsSoundLoaded (loaded_view l)) }
        ensures device { CountsFailures result (λ e. e ≡ StoreFault.Device)
            (failed self.old) (failed self.new) }
        // a database: a query writes nothing, and one that is answered finds the store open
        ensures crash { OnlyAsks result (clean self.old) (clean self.new) (answers self.new)
            (may_leave self.old) (may_leave self.new) };

    /// What is filed under this partner and interchange number.
    fn find_inbound(&mut self, partner: &Party, icn: u32) -> Result<Option<Filed>, StoreFault>
        requires { valid self.old }
        ensures valid { valid self.new }
        ensures never_won_back { IsTrue (answers self.new) → IsTrue (answers self.old) }
        ensures same { IsTrue (answers self.new) → content self.new ≡ content self.old }
        // a database: the row of this partner and number, which are unique together
        ensures found { IsTrue (answers self.new) → IfOk result (λ o.
            option_map (λ f. filed_under partner.now icn f) o
            ≡ filed_in (content self.old) partner.now icn) }
        ensures device { CountsFailures result (λ e. e ≡ StoreFault.Device)
            (failed self.old) (failed self.new) }
        ensures crash { OnlyAsks result (clean self.old) (clean self.new) (answers self.new)
            (may_leave self.old) (may_leave self.new) };

    /// How the submitted set at this place fares; `None` where no such set was submitted.
    fn find_fate(&mut self, key: &SetKey) -> Result<Option<Fate>, StoreFault>
        requires { valid self.old }
        ensures valid { valid self.new }
        ensures never_won_back { IsTrue (answers self.new) → IsTrue (answers self.old) }
        ensures same { IsTrue (answers self.new) → content self.new ≡ content self.old }
        // a database: the row of this interchange, group and place, which are the key
        ensures found { IsTrue (answers self.new) → IfOk result (λ o.
            o ≡ stored_fate (content self.old).sets (key_view key.now)) }
        ensures device { CountsFailures result (λ e. e ≡ StoreFault.Device)
            (failed self.old) (failed self.new) }
        ensures crash { OnlyAsks result (clean self.old) (clean self.new) (answers self.new)
            (may_leave self.old) (may_leave self.new) };

    /// The submitted interchange of this number, where none of its sets is pending.
    fn find_closed(&mut self, icn: u32) -> Result<Option<Entry>, StoreFault>
        requires { valid self.old }
        ensures valid { valid self.new }
        ensures never_won_back { IsTrue (answers self.new) → IsTrue (answers self.old) }
        ensures same { IsTrue (answers self.new) → content self.new ≡ content self.old }
        // a database: the row of this number, which is the key, and its sets by the same number
        ensures found { IsTrue (answers self.new) → IfOk result (λ o.
            option_map entry_row o ≡ closed_entry (content self.old) icn) }
        // a database: each row is looked at as it is read
        ensures sound { IfOk result (λ o. IfSome o (λ e. IsSoundClosed (entry_row e))) }
        ensures device { CountsFailures result (λ e. e ≡ StoreFault.Device)
            (failed self.old) (failed self.new) }
        ensures crash { OnlyAsks result (clean self.old) (clean self.new) (answers self.new)
            (may_leave self.old) (may_leave self.new) };

    /// The submitted interchange to this partner that has a group of this code (GS01) and number
    /// (GS06), where none of its sets is pending.
    fn find_closed_group(
        &mut self,
        partner: &Party,
        functional: [u8; 2],
        gcn: u32,
    ) -> Result<Option<Entry>, StoreFault>
        requires { valid self.old }
        ensures valid { valid self.new }
        ensures never_won_back { IsTrue (answers self.new) → IsTrue (answers self.old) }
        ensures same { IsTrue (answers self.new) → content self.new ≡ content self.old }
        // a database: the sets of this group number by an index, then as by the number
        ensures found { IsTrue (answers self.new) → IfOk result (λ o. option_map entry_row o
            ≡ closed_entry_with_group (content self.old) partner.now functional gcn) }
        // a database: each row is looked at as it is read
        ensures sound { IfOk result (λ o. IfSome o (λ e. IsSoundClosed (entry_row e))) }
        ensures device { CountsFailures result (λ e. e ≡ StoreFault.Device)
            (failed self.old) (failed self.new) }
        ensures crash { OnlyAsks result (clean self.old) (clean self.new) (answers self.new)
            (may_leave self.old) (may_leave self.new) };

    /// The bytes of the submitted interchange of this number, open or closed.
    fn find_outbound(&mut self, icn: u32) -> Result<Option<Vec<u8>>, StoreFault>
        requires { valid self.old }
        ensures valid { valid self.new }
        ensures never_won_back { IsTrue (answers self.new) → IsTrue (answers self.old) }
        ensures same { IsTrue (answers self.new) → content self.new ≡ content self.old }
        // a database: the row of this number, which is the key
        ensures found { IsTrue (answers self.new) → IfOk result (λ o.
            option_map (λ v. v.items) o ≡ submitted_bytes (content self.old) icn) }
        ensures device { CountsFailures result (λ e. e ≡ StoreFault.Device)
            (failed self.old) (failed self.new) }
        ensures crash { OnlyAsks result (clean self.old) (clean self.new) (answers self.new)
            (may_leave self.old) (may_leave self.new) };

    /// The submission or first arrival of this number, from 1; `None` where no such number was given.
    fn find_item(&mut self, seq: u64) -> Result<Option<Item>, StoreFault>
        requires { valid self.old }
        ensures valid { valid self.new }
        ensures never_won_back { IsTrue (answers self.new) → IsTrue (answers self.old) }
        ensures same { IsTrue (answers self.new) → content self.new ≡ content self.old }
        // a database: the row of this number, of one table or of the other
        ensures found { IsTrue (answers self.new) → IfOk result (λ o.
            option_map (history_item (marks_of (content self.old).origin) seq) o
            ≡ item_at (content self.old) seq) }
        ensures device { CountsFailures result (λ e. e ≡ StoreFault.Device)
            (failed self.old) (failed self.new) }
        ensures crash { OnlyAsks result (clean self.old) (clean self.new) (answers self.new)
            (may_leave self.old) (may_leave self.new) };

    /// The posting at this place in the order of arrival, from 1; `None` where there are fewer.
    fn find_posting(&mut self, at: u64) -> Result<Option<Posting>, StoreFault>
        requires { valid self.old }
        ensures valid { valid self.new }
        ensures never_won_back { IsTrue (answers self.new) → IsTrue (answers self.old) }
        ensures same { IsTrue (answers self.new) → content self.new ≡ content self.old }
        // a database: the row of this number, where the rows have the numbers from 1 on
        ensures found { IsTrue (answers self.new) → IfOk result (λ o.
            option_map posting_view o ≡ at_place at (content self.old).postings) }
        ensures device { CountsFailures result (λ e. e ≡ StoreFault.Device)
            (failed self.old) (failed self.new) }
        ensures crash { OnlyAsks result (clean self.old) (clean self.new) (answers self.new)
            (may_leave self.old) (may_leave self.new) };

    /// The posting of the transaction set of this key; `None` where that wasn't posted.
    fn find_posted(&mut self, key: &SetKey) -> Result<Option<Posting>, StoreFault>
        requires { valid self.old }
        ensures valid { valid self.new }
        ensures never_won_back { IsTrue (answers self.new) → IsTrue (answers self.old) }
        ensures same { IsTrue (answers self.new) → content self.new ≡ content self.old }
        // a database: the row of this partner, interchange, group and place, which are unique together
        ensures found { IsTrue (answers self.new) → IfOk result (λ o.
            option_map posting_view o ≡ posted_in (content self.old).postings (key_view key.now)) }
        ensures device { CountsFailures result (λ e. e ≡ StoreFault.Device)
            (failed self.old) (failed self.new) }
        ensures crash { OnlyAsks result (clean self.old) (clean self.new) (answers self.new)
            (may_leave self.old) (may_leave self.new) };

    /// The postings, in the order of their arrival.
    fn postings(&mut self) -> Result<Vec<Posting>, StoreFault>
        requires { valid self.old }
        ensures valid { valid self.new }
        ensures never_won_back { IsTrue (answers self.new) → IsTrue (answers self.old) }
        ensures same { IsTrue (answers self.new) → content self.new ≡ content self.old }
        // a database: the table in the order of its rows
        ensures found { IsTrue (answers self.new) → IfOk result (λ v.
            map posting_view v.items ≡ (content self.old).postings) }
        ensures device { CountsFailures result (λ e. e ≡ StoreFault.Device)
            (failed self.old) (failed self.new) }
        ensures crash { OnlyAsks result (clean self.old) (clean self.new) (answers self.new)
            (may_leave self.old) (may_leave self.new) };

    /// How often the device has failed, up to 18446744073709551615.
    fn failures(&self) -> u64
        ensures { result ≡ failed self.now };

    /// While they answer, the disk has returned what was written.
    ghost answering_is_clean: { (s : Self) → IsTrue (answers s) → IsTrue (clean s) };
    /// While they answer, what they hold is sound.
    ghost sound: { (s : Self) → valid s → IsTrue (answers s) → IsSound (content s) };
    /// While they answer, a crash leaves what they hold.
    ghost left_is_held: { (s : Self) (d : Stored) → valid s → IsTrue (answers s) → may_leave s d →
        d ≡ content s };
}

impl From<AllocError> for StoreFault {
    ghost use Rattle.x12_station.specs.declared.records.StoreFault.TheVariants.{Memory};

    ghost from_gives = { λ _ e. e ≡ Memory };

    fn from(_: AllocError) -> Self {
        StoreFault::Memory
    }
}
