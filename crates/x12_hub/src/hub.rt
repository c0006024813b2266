//! The hub over its records: how it opens, what it tells of itself, and how it ends.

ghost use Rattle.std.specs.Prelude.{◌≡◌, ◌↔◌, IsTrue, IfOk, IfErr, MatchResult};
ghost use Rattle.x12_envelopes.specs.Party.{is_plain_party};
ghost use Rattle.x12_hub.specs.Hub.{new_hub};
ghost use Rattle.x12_hub.specs.Stored.{hub_of};
ghost use Rattle.x12_hub.specs.HubView.{Answered, GoesOn, FailsToStore};
ghost use Rattle.x12_hub.specs.Standing.{HubLeavesNoMore, LeavesHub};
ghost use Rattle.x12_hub.specs.Stopped.{HubLeavesAsBefore};

use crate::cached::Cached;
use crate::fault::HubFault;
use crate::records::HubRecords;
use std::alloc::{AllocError, Global};
use std::marker::Model;
use x12_envelopes::Party;

/// A mailbox hub over records. It decides once on distinct bytes, by the directory of that moment,
/// and keeps the decision for good.
///
/// What it promises of its state holds while its records answer. A refused call leaves it as it
/// was, but for the count of failures; and what it has in memory, whether they answer or not.
#[derive(Drop)]
pub struct Hub<H: HubRecords> {
    pub(crate) records: H,
    pub(crate) cached: Cached,
}

impl<H: HubRecords> Model for Hub<H> {
    ghost use Rattle.std.specs.Prelude.{◌≡◌, IsTrue};
    ghost use Rattle.x12_envelopes.specs.Party.{is_plain_party};
    ghost use Rattle.x12_hub.specs.HubView.{HubView};

    ghost Value = { HubView H };

    ghost use Rattle.x12_hub.specs.Stored.{hub_of};
    ghost use Rattle.x12_hub.specs.Record.{hub_start_of};
    ghost use Rattle.x12_hub.specs.Keeps.{HubCaches, memory_of_hub};
    ghost use Rattle.x12_hub.specs.Standing.{LeavesHub};

    ghost view = { λ s. record {
      records = s.records;
      hub = hub_of s.cached.me (H.content s.records);
      answers = H.answers s.records;
      clean = H.clean s.records;
      failures = H.failed s.records;
      memory = memory_of_hub s.cached;
    } };

    ghost invariant = { λ s. H.valid s.records × IsTrue (is_plain_party s.cached.me)
        × (IsTrue (H.answers s.records) → HubCaches s.cached (hub_start_of (H.content s.records)))
        × LeavesHub H.HubRecords s.cached.me s.records
        × (IsTrue (H.answers s.records) → (H.content s.records).party ≡ s.cached.me) };
}

impl<H: HubRecords> Hub<H> {
    /// The hub of a plain party over records of that party: new ones, or those that a hub wrote.
    ///
    /// B3 where they can't be loaded, B4; the records come back.
    pub fn open(alloc: Global, me: Party, records: H) -> Result<Hub<H>, (H, HubFault)>
        requires valid { H.valid records }
        requires plain { IsTrue (is_plain_party me) }
        requires written { IsTrue (H.answers records) → (H.content records).party ≡ me }
        ensures opened { IfOk result (λ h. IsTrue h.answers →
            IsTrue (H.answers records) × (h.hub ≡ hub_of me (H.content records))) }
        ensures me { IfOk result (λ h. h.hub.me ≡ me) }

        ensures fault { MatchResult result (λ h. h.failures ≡ H.failed records)
            (λ e. FailsToStore (H.failed records) (H.failed e.0) e.1) }
        ensures back { IfErr result (λ e. H.valid e.0 × (IsTrue (H.answers e.0) →
            IsTrue (H.answers records) × (H.content e.0 ≡ H.content records))) }
        ensures crash { MatchResult result (λ h. HubLeavesNoMore H.HubRecords records h.records)
            (λ e. HubLeavesNoMore H.HubRecords records e.0) }
    {
        let mut records = records;
        let loaded = match records.load() {
            Ok(loaded) => loaded,
            Err(fault) => return Err((records, HubFault::from(fault))),
        };
        match Cached::new(alloc, me, loaded) {
            Ok(cached) => Ok(Hub { records, cached }),
            Err(AllocError) => Err((records, HubFault::Memory)),
        }
    }

    /// Loads again what is kept in memory, as after a new start. B3, B4.
    pub fn restart(&mut self) -> Result<(), HubFault>
        ensures goes_on { GoesOn result self.old self.new }
        ensures answered { Answered result self.new }
        ensures crash { HubLeavesAsBefore H.HubRecords self.old self.new }
        ensures hub { IsTrue self.new.answers → self.new.hub ≡ self.old.hub }
        ensures fault { IfErr result
            (FailsToStore self.old.failures self.new.failures) }
    {
        let loaded = self.records.load()?;
        self.cached = Cached::new(self.cached.alloc, self.cached.me, loaded)?;
        Ok(())
    }

    /// The hub's party, which is plain.
    pub fn party(&self) -> Party
        ensures party { result ≡ self.now.hub.me }
        ensures plain { IsTrue (is_plain_party result) }
    {
        self.cached.me
    }

    /// The records, as they stand.
    pub fn records(&self) -> &H
        ensures records { result.now ≡ self.now.records }
        ensures answers { H.answers result.now ≡ self.now.answers }
        ensures failures { H.failed result.now ≡ self.now.failures }
    {
        &self.records
    }

    /// Whether nothing was ever decided, and nobody has a mailbox: the state of new records.
    pub fn is_new(&self) -> bool
        ensures { IsTrue self.now.answers →
            IsTrue result ↔ (self.now.hub ≡ new_hub self.now.hub.me) }
    {
        self.cached.icn == 0 && self.cached.item == 0 && self.cached.directory.is_empty()
    }

    /// How often the records' device has failed, up to 18446744073709551615.
    pub fn failures(&self) -> u64
        ensures { result ≡ self.now.failures }
    {
        self.records.failures()
    }

    /// Ends the hub: its records come back as they stand.
    pub fn close(self) -> H
        ensures valid { H.valid result }
        ensures records { result ≡ self.records }
        ensures hub { hub_of self.hub.me (H.content result) ≡ self.hub }
        ensures answers { H.answers result ≡ self.answers }
        ensures clean { H.clean result ≡ self.clean }
        ensures written { IsTrue (H.answers result) → (H.content result).party ≡ self.hub.me }
        ensures left { LeavesHub H.HubRecords self.hub.me result }
        ensures failures { H.failed result ≡ self.failures }
    {
        let Hub { records, cached: _ } = self;
        records
    }
}
