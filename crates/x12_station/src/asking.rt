//! What a station is asked.

ghost use Rattle.std.specs.Prelude.{◌≡◌, ◌∷◌, IsTrue, IfOk, IfErr, OnOk, length, map, drop};
ghost use Rattle.std.specs.Prelude.{option_to_list};
ghost use Rattle.x12_acks.specs.Key.{key_view};
ghost use Rattle.x12_envelopes.specs.Party.{is_plain_party};
ghost use Rattle.x12_inbound.specs.Posting.{posting_view};
ghost use Rattle.x12_judge.specs.Agreement.{is_same_party};
ghost use Rattle.x12_numbers.specs.Book.{new_book};
ghost use Rattle.x12_outbound.specs.Counts.{only_unclear};
ghost use Rattle.x12_outbound.specs.Ledger.{open_interchanges};
ghost use Rattle.x12_profile.specs.X12.{x12};
ghost use Rattle.x12_station.specs.declared.fault.StationFault.TheVariants.{Store};
ghost use Rattle.x12_station.specs.Fault.{IsOfRecords};
ghost use Rattle.x12_station.specs.History.{postings};
ghost use Rattle.x12_station.specs.Keeps.{IsUntouched};
ghost use Rattle.x12_profile.specs.Stop.{CountsFailures};
ghost use Rattle.x12_station.specs.Seen.{KeepsDisk};
ghost use Rattle.x12_station.specs.Stopped.{LeavesAsBefore};
ghost use Rattle.x12_station.specs.Station.{new_station};
ghost use Rattle.x12_station.specs.StationStep.{fate_by_key, open_submissions};

use crate::cached::Cached;
use crate::fault::StationFault;
use crate::records::Records;
use crate::station::Station;
use x12_acks::SetKey;
use x12_envelopes::Party;
use x12_inbound::Posting;
use x12_numbers::Book;
use x12_outbound::{Counts, Fate};

/// Whether a book gave no number yet.
fn is_unused(book: &Book) -> bool
    ensures yes { IsTrue result → book.now ≡ new_book }
    ensures no { book.now ≡ new_book → IsTrue result }
{
    book.interchange() == 0 && book.group() == 0
}

/// Whether nothing was counted.
#[tactic(auto, unfolding(x12_outbound::specs::Counts::only_unclear))]
fn counts_nothing(counts: &Counts) -> bool
    ensures yes { IsTrue result → counts.now ≡ only_unclear 0 }
    ensures no { counts.now ≡ only_unclear 0 → IsTrue result }
{
    counts.settled == 0
        && counts.repeated == 0
        && counts.unmatched == 0
        && counts.conflicting == 0
        && counts.unclear == 0
}

/// Whether memory is as that of a station which was opened over records that hold nothing and have no
/// marks.
fn is_untouched(memory: &Cached) -> bool
    ensures yes { IsTrue result → IsUntouched memory.now }
    ensures no { IsUntouched memory.now → IsTrue result }
{
    memory.marks.noted == 0
        && memory.marks.era == 0
        && memory.seq == 0
        && memory.agreements.is_empty()
        && is_unused(&memory.book)
        && memory.ledger.tick() == 0
        && counts_nothing(&memory.counts)
}

impl<R: Records> Station<R> {
    /// The station's party, which is plain.
    pub fn party(&self) -> Party
        ensures party { result ≡ self.now.state.me }
        ensures plain { IsTrue (is_plain_party result) }
    {
        self.memory.me
    }

    /// The station's hub, whose TA1s it believes: the first of its hubs.
    pub fn hub(&self) -> Party
        ensures { result ∷ drop 1 self.now.state.hubs ≡ self.now.state.hubs }
    {
        self.memory.hubs.hub
    }

    /// The hub that its hub is connected to, whose TA1s it believes too; `None` if there is none.
    pub fn other(&self) -> Option<Party>
        ensures { option_to_list result ≡ drop 1 self.now.state.hubs }
    {
        self.memory.hubs.other
    }

    /// The records, as they stand.
    pub fn records(&self) -> &R
        ensures records { result.now ≡ self.now.records }
        ensures answers { R.answers result.now ≡ self.now.answers }
        ensures failures { R.failed result.now ≡ self.now.failures }
    {
        &self.records
    }

    /// What the evidence of arrivals did, since the station was opened or restarted.
    pub fn counts(&self) -> Counts
        ensures { result ≡ self.now.state.counts }
    {
        self.memory.counts
    }

    /// Whether the station is as one that was opened over records that hold nothing and have no marks:
    /// it was asked to do nothing yet.
    pub fn is_new(&self) -> bool
        ensures new { IsTrue self.now.answers → IsTrue result →
            self.now.state ≡ new_station self.now.state.me self.now.state.hubs }
        ensures old { IsTrue self.now.answers →
            self.now.state ≡ new_station self.now.state.me self.now.state.hubs → IsTrue result }
    {
        is_untouched(&self.memory)
    }

    /// How many submissions are open: a transaction set of theirs is pending.
    pub fn open_count(&self) -> u64
        ensures open { IsTrue self.now.answers →
            result ≡ length (open_submissions x12 self.now.state) }
        ensures remembers { result ≡ open_interchanges self.now.memory.ledger }
    {
        self.memory.ledger.open_count()
    }

    /// How often the records' device has failed, up to 18446744073709551615.
    pub fn failures(&self) -> u64
        ensures { result ≡ self.now.failures }
    {
        self.records.failures()
    }

    /// How the transaction set of this key fares; `None` of one that this station never submitted.
    ///
    /// S13 and S14. The station stays as it is.
    pub fn fate(&mut self, key: &SetKey) -> Result<Option<Fate>, StationFault>
        ensures never_won_back { IsTrue self.new.answers → IsTrue self.old.answers }
        ensures was_clean { IsTrue self.new.clean → IsTrue self.old.clean }
        ensures answered { IsTrue self.new.clean → OnOk result
            (IsTrue (is_same_party key.now.sender self.old.state.me) → IsTrue self.new.answers) }
        ensures crash { LeavesAsBefore R.Records self.old self.new }
        ensures same { IsTrue self.new.answers → self.new.state ≡ self.old.state }
        ensures fate { IsTrue self.new.answers →
            IfOk result (λ o. o ≡ fate_by_key x12 self.old.state (key_view key.now)) }

        ensures fault { IfErr result IsOfRecords }
        ensures store { CountsFailures result (λ f. f ≡ Store)
            self.old.failures self.new.failures }
    {
        if key.sender != self.memory.me {
            return Ok(None);
        }
        Ok(self.records.find_fate(key)?)
    }

    /// The postings, in the order of their arrival.
    ///
    /// S13 and S14. The station stays as it is.
    pub fn postings(&mut self) -> Result<Vec<Posting>, StationFault>
        ensures never_won_back { IsTrue self.new.answers → IsTrue self.old.answers }
        ensures disk { KeepsDisk result self.old self.new }
        ensures crash { LeavesAsBefore R.Records self.old self.new }
        ensures same { IsTrue self.new.answers → self.new.state ≡ self.old.state }
        ensures postings { IsTrue self.new.answers → IfOk result (λ v.
            map posting_view v.items ≡ postings x12 self.old.state.items) }

        ensures fault { IfErr result IsOfRecords }
        ensures store { CountsFailures result (λ f. f ≡ Store)
            self.old.failures self.new.failures }
    {
        Ok(self.records.postings()?)
    }
}
