//! Records of a station in memory.

ghost use Rattle.std.specs.Prelude.{◌≡◌, ◌∷◌, None, map, IfOk, OnOk, OnErr, All, option_map};
ghost use Rattle.std.specs.Prelude.{option_to_list};
ghost use Rattle.x12_judge.specs.Agreement.{agreement_view};
ghost use Rattle.x12_acks.specs.Key.{key_view};
ghost use Rattle.x12_inbound.specs.Order.{interchange};
ghost use Rattle.x12_inbound.specs.Register.{found_in};
ghost use Rattle.x12_outbound.specs.Entry.{entry_row};
ghost use Rattle.x12_outbound.specs.Settling.{target_view};
ghost use Rattle.x12_station.specs.Durable.{IsHistoryOf};
ghost use Rattle.x12_station.specs.Stored.{IsSound, origin_of, nothing_stored, stored_fate};
ghost use Rattle.x12_station.specs.Stored.{closed_entry, closed_entry_with_group};
ghost use Rattle.x12_station.specs.Stored.{submitted_bytes};
ghost use Rattle.x12_station.specs.Plan.{Submits, Files, Agrees, changed, stored_after};
ghost use Rattle.x12_station.specs.Record.{loaded_view, loaded_of, owner_view, IsWholeEntry};
ghost use Rattle.x12_station.specs.Memory.{memory_view, rows_in, entries_in, filed_of, IsKeptWhole};
ghost use Rattle.x12_station.specs.Memory.{RowsRise};

use crate::agreeing::{each_pair_once, put};
use crate::arrivals::{
    ArrivalKey, NumberedArrival, copy_filed, copy_postings, file, find_filed, key_of,
};
use crate::finding::{find_numbered, posting_at, posting_of};
use crate::look_up::{closed_of, closed_with_group, open_entries, row_of, set_of};
use crate::plan::{Change, Committed, Planned};
use crate::records::{Item, Loaded, Owner, Records, StoreFault};
use crate::submissions::{NumberedEntry, add, settle};
use indexmap::IndexMap;
use std::alloc::{AllocError, Global};
use x12_acks::SetKey;
use x12_envelopes::Party;
use x12_inbound::{Filed, Kept, Posting};
use x12_judge::Agreement;
use x12_numbers::Book;
use x12_outbound::{Entry, Fate};

/// Records of a station in memory, which fail for want of memory alone. They find a submission by
/// its numbers or by that of a group, an arrival by its number or by its partner's, and a posting by
/// its place, without a walk over what is held. Loading, listing the postings and finding one by its
/// key walk it.
#[derive(Drop)]
pub struct MemoryRecords {
    alloc: Global,
    owner: Owner,
    book: Book,
    seq: u64,
    agreements: Vec<Agreement>,
    submitted: Vec<NumberedEntry>,
    arrivals: IndexMap<ArrivalKey, NumberedArrival>,
    postings: Vec<Posting>,
}

impl MemoryRecords {
    /// Records that hold nothing, of this owner: a station tells a history again over them, and reads
    /// it as the owner's station does. Takes no memory.
    pub fn read_so(alloc: Global, owner: Owner) -> MemoryRecords
        ensures nothing { memory_view result ≡ nothing_stored (owner_view owner) }
        ensures kept { IsKeptWhole result }
        ensures durable { let hubs = owner.hub ∷ option_to_list owner.other in
            IsHistoryOf owner.party hubs (memory_view result) }
    {
        MemoryRecords {
            alloc,
            owner,
            book: Book::new(),
            seq: 0,
            agreements: Vec::new(alloc),
            submitted: Vec::new(alloc),
            arrivals: IndexMap::new(alloc),
            postings: Vec::new(alloc),
        }
    }

    /// Records that hold nothing, of the station of this party at this hub, which may be connected
    /// to another one. Takes no memory.
    pub fn new(alloc: Global, party: Party, hub: Party, other: Option<Party>) -> MemoryRecords
        ensures nothing { memory_view result
            ≡ nothing_stored (origin_of party (hub ∷ option_to_list other)) }
        ensures kept { IsKeptWhole result }
        ensures durable { IsHistoryOf party (hub ∷ option_to_list other) (memory_view result) }
    {
        MemoryRecords::read_so(alloc, Owner::new(party, hub, other))
    }

    /// Puts a submission behind the others.
    fn submit(&mut self, seq: u64, entry: &Entry) -> Result<(), AllocError>
        requires whole { IsWholeEntry (entry_row entry.now) }
        requires kept { All IsWholeEntry (entries_in (rows_in self.old)) }
        ensures ok { OnOk result (memory_view self.new
            ≡ changed seq (Submits (entry_row entry.now)) (memory_view self.old)) }
        ensures err { OnErr result (memory_view self.new ≡ memory_view self.old) }
        ensures whole { All IsWholeEntry (entries_in (rows_in self.new)) }
    {
        add(&mut self.submitted, self.alloc, seq, entry)
    }

    /// Files an arrival with its postings, and settles sets.
    fn file(&mut self, seq: u64, kept: &Kept, settled: &[(SetKey, Fate)]) -> Result<(), AllocError>
        requires new { found_in (filed_of self.old.arrivals.entries)
            (interchange kept.now.filed.partner kept.now.filed.icn) ≡ None }
        requires rise { RowsRise (rows_in self.old) }
        requires kept { All IsWholeEntry (entries_in (rows_in self.old)) }
        ensures ok { OnOk result (memory_view self.new
            ≡ changed seq (Files kept.now (map target_view settled.now)) (memory_view self.old)) }
        ensures err { OnErr result (memory_view self.new ≡ memory_view self.old) }
        ensures whole { All IsWholeEntry (entries_in (rows_in self.new)) }
    {
        let (partner, icn, filed, postings) = kept.view();
        let filed = copy_filed(self.alloc, filed)?;
        let mut postings = copy_postings(self.alloc, postings)?;
        self.arrivals.reserve(1)?;
        self.postings.append(&mut postings)?;
        let key = key_of(partner, icn);
        file(&mut self.arrivals, key, NumberedArrival { seq, filed });
        settle(&mut self.submitted, settled);
        Ok(())
    }

    /// Makes an agreement.
    fn agree(&mut self, seq: u64, agreement: &Agreement) -> Result<(), AllocError>
        requires { All IsWholeEntry (entries_in (rows_in self.old)) }
        ensures ok { OnOk result (memory_view self.new
            ≡ changed seq (Agrees (agreement_view agreement.now)) (memory_view self.old)) }
        ensures err { OnErr result (memory_view self.new ≡ memory_view self.old) }
        ensures whole { All IsWholeEntry (entries_in (rows_in self.new)) }
    {
        let agreement = each_pair_once(self.alloc, agreement)?;
        self.agreements.reserve(1)?;
        put(&mut self.agreements, agreement);
        Ok(())
    }
}

impl MemoryRecords {
    /// Makes a plan's change.
    fn change(&mut self, plan: &Planned) -> Result<(), AllocError>
        requires kept { IsKeptWhole self.old }
        requires fits { IsSound (stored_after plan.now (memory_view self.old)) }
        ensures ok { OnOk result (memory_view self.new
            ≡ changed plan.now.seq plan.now.change (memory_view self.old)) }
        ensures err { OnErr result (memory_view self.new ≡ memory_view self.old) }
        ensures whole { All IsWholeEntry (entries_in (rows_in self.new)) }
    {
        let view = plan.view();
        match view.change {
            Change::Submitted(entry) => self.submit(view.seq, entry),
            Change::Arrived { kept, settled } => self.file(view.seq, kept, settled),
            Change::Agreed(agreement) => self.agree(view.seq, agreement),
            Change::Numbered => Ok(()),
        }
    }

    /// Writes a plan.
    fn write(&mut self, plan: &Planned) -> Result<(), AllocError>
        requires kept { IsKeptWhole self.old }
        requires fits { IsSound (stored_after plan.now (memory_view self.old)) }
        ensures ok { OnOk result (memory_view self.new
            ≡ stored_after plan.now (memory_view self.old)) }
        ensures err { OnErr result (memory_view self.new ≡ memory_view self.old) }
        ensures whole { All IsWholeEntry (entries_in (rows_in self.new)) }
    {
        self.change(plan)?;
        let view = plan.view();
        self.book = view.book;
        self.seq = view.seq;
        Ok(())
    }

    /// Copies of the agreements.
    fn copied_agreements(&self) -> Result<Vec<Agreement>, AllocError>
        ensures { IfOk result (λ v. map agreement_view v.items
            ≡ map agreement_view self.now.agreements.items) }
    {
        let mut agreements = Vec::new(self.alloc);
        for agreement in &self.agreements {
            let pairs = Vec::from_slice(self.alloc, &agreement.pairs)?;
            agreements.push(Agreement {
                partner: agreement.partner,
                lenient: agreement.lenient,
                pairs,
            })?;
        }
        Ok(agreements)
    }

    /// What a station keeps in memory.
    fn loaded(&self) -> Result<Loaded, AllocError>
        requires { IsKeptWhole self.now }
        ensures { IfOk result (λ l. loaded_view l ≡ loaded_of (memory_view self.now)) }
    {
        Ok(Loaded {
            marks: self.owner.marks(),
            book: self.book,
            seq: self.seq,
            agreements: self.copied_agreements()?,
            entries: open_entries(self.alloc, &self.submitted)?,
        })
    }

    /// How the set at this place fares.
    fn fate(&self, key: &SetKey) -> Option<Fate>
        requires { IsKeptWhole self.now }
        ensures { result ≡ stored_fate (memory_view self.now).sets (key_view key.now) }
    {
        match set_of(&self.submitted, key) {
            Some(set) => Some(set.fate),
            None => None,
        }
    }

    /// A copy of the closed submission of this number.
    fn closed(&self, icn: u32) -> Result<Option<Entry>, AllocError>
        requires { IsKeptWhole self.now }
        ensures { IfOk result (λ o.
            option_map entry_row o ≡ closed_entry (memory_view self.now) icn) }
    {
        match closed_of(&self.submitted, icn) {
            Some(entry) => Ok(Some(entry.copied(self.alloc)?)),
            None => Ok(None),
        }
    }

    /// A copy of the closed submission to this partner with this group.
    fn closed_group(
        &self,
        partner: &Party,
        functional: [u8; 2],
        gcn: u32,
    ) -> Result<Option<Entry>, AllocError>
        requires { IsKeptWhole self.now }
        ensures { IfOk result (λ o. option_map entry_row o
            ≡ closed_entry_with_group (memory_view self.now) partner.now functional gcn) }
    {
        match closed_with_group(&self.submitted, partner, functional, gcn) {
            Some(entry) => Ok(Some(entry.copied(self.alloc)?)),
            None => Ok(None),
        }
    }

    /// A copy of the bytes of the submission of this number.
    fn outbound(&self, icn: u32) -> Result<Option<Vec<u8>>, AllocError>
        requires { IsKeptWhole self.now }
        ensures { IfOk result (λ o.
            option_map (λ v. v.items) o ≡ submitted_bytes (memory_view self.now) icn) }
    {
        match row_of(&self.submitted, icn) {
            Some(row) => Ok(Some(Vec::from_slice(self.alloc, &row.entry.bytes)?)),
            None => Ok(None),
        }
    }
}

impl Records for MemoryRecords {
    ghost use Rattle.std.specs.Prelude.{true, ◌≡◌, refl};
    ghost use Rattle.x12_station.specs.Memory.{memory_view, IsKeptWhole};

    ghost content = { memory_view };

    ghost clean = { λ r. true };

    ghost answers = { λ r. true };

    ghost valid = { IsKeptWhole };

    ghost failed = { λ r. 0 };

    ghost may_leave = { λ r d. d ≡ memory_view r };

    fn commit(&mut self, plan: Planned) -> Result<Committed, (Planned, StoreFault)> {
        match self.write(&plan) {
            Ok(()) => Ok(plan.done()),
            Err(AllocError) => Err((plan, StoreFault::Memory)),
        }
    }

    fn owner(&mut self) -> Result<Owner, StoreFault> {
        Ok(self.owner)
    }

    fn load(&mut self) -> Result<Loaded, StoreFault> {
        Ok(self.loaded()?)
    }

    fn find_inbound(&mut self, partner: &Party, icn: u32) -> Result<Option<Filed>, StoreFault> {
        Ok(find_filed(self.alloc, &self.arrivals, partner, icn)?)
    }

    fn find_fate(&mut self, key: &SetKey) -> Result<Option<Fate>, StoreFault> {
        Ok(self.fate(key))
    }

    fn find_closed(&mut self, icn: u32) -> Result<Option<Entry>, StoreFault> {
        Ok(self.closed(icn)?)
    }

    fn find_closed_group(
        &mut self,
        partner: &Party,
        functional: [u8; 2],
        gcn: u32,
    ) -> Result<Option<Entry>, StoreFault> {
        Ok(self.closed_group(partner, functional, gcn)?)
    }

    fn find_outbound(&mut self, icn: u32) -> Result<Option<Vec<u8>>, StoreFault> {
        Ok(self.outbound(icn)?)
    }

    fn find_item(&mut self, seq: u64) -> Result<Option<Item>, StoreFault> {
        Ok(find_numbered(self.alloc, &self.submitted, &self.arrivals, seq)?)
    }

    fn find_posting(&mut self, at: u64) -> Result<Option<Posting>, StoreFault> {
        Ok(posting_at(self.alloc, &self.postings, at)?)
    }

    fn find_posted(&mut self, key: &SetKey) -> Result<Option<Posting>, StoreFault> {
        Ok(posting_of(self.alloc, &self.postings, key)?)
    }

    fn postings(&mut self) -> Result<Vec<Posting>, StoreFault> {
        Ok(copy_postings(self.alloc, &self.postings)?)
    }

    fn failures(&self) -> u64 {
        0
    }

    ghost answering_is_clean = { λ r answers. refl };

    ghost sound = { λ r valid answers. valid.sound };

    ghost left_is_held = { λ r d valid answers left. left };
}
