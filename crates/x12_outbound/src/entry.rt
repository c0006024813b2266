//! The entries of the outbound ledger: submitted interchanges, with the fate of each of their
//! transaction sets.
ghost use Rattle.std.specs.Prelude.{◌≡◌, false, IfOk};
ghost use Rattle.x12_envelopes.specs.declared.delimiters.Delims.{Delims};
ghost use Rattle.x12_envelopes.specs.Shape.{bytes_of_set_no, group_view, outline_view};
ghost use Rattle.x12_acks.specs.Submission.{submission_of, submitted_group};
ghost use Rattle.x12_outbound.specs.Entry.{set_row, group_row, entry_row, pending_group};
ghost use Rattle.x12_outbound.specs.Entry.{pending_entry};

use crate::fate::Fate;
use std::alloc::{AllocError, Global};
use std::sync::ArcSlice;
use x12_envelopes::{GroupView, Header, Outline, Party, SetNo};

/// A submitted transaction set.
#[derive(Clone, Copy)]
pub struct EntrySet {
    /// The transaction set control number (ST02).
    pub number: SetNo,
    /// How the set fares.
    pub fate: Fate,
    /// Lifted by a ledger, to be settled.
    pub(crate) out: bool,
}

impl EntrySet {
    /// A transaction set with this number (ST02) that fares so. No ledger has lifted it.
    pub fn new(number: SetNo, fate: Fate) -> EntrySet
        ensures { set_row result
            ≡ record { number = bytes_of_set_no number; fate = fate; is_out = false } }
    {
        EntrySet {
            number,
            fate,
            out: false,
        }
    }
}

/// A submitted functional group.
#[derive(Drop)]
pub struct EntryGroup {
    /// The functional identifier code (GS01).
    pub functional: [u8; 2],
    /// The group control number (GS06): 1 to 999999999.
    pub gcn: u32,
    /// The transaction sets, in their order.
    pub sets: Vec<EntrySet>,
}

/// A submitted interchange.
#[derive(Drop)]
pub struct Entry {
    /// The interchange control number (ISA13): 1 to 999999999.
    pub icn: u32,
    /// The receiver (ISA07, ISA08).
    pub partner: Party,
    /// The bytes as they were submitted, shared with each sending of them.
    pub bytes: ArcSlice<u8>,
    /// The functional groups, in their order.
    pub groups: Vec<EntryGroup>,
}

impl EntryGroup {
    /// The entry of a functional group that is submitted: each of its sets is pending.
    #[tactic(auto, unfolding(crate::specs::Entry::pending_entry))]
    fn of(alloc: Global, group: &GroupView) -> Result<EntryGroup, AllocError>
        ensures { IfOk result (λ g. (d : Delims) →
            group_row g ≡ pending_group (submitted_group (group_view d group.now))) }
    {
        let mut sets = Vec::with_capacity(alloc, group.sets.len())?;
        for set in &group.sets {
            sets.push(EntrySet::new(set.number, Fate::Pending))?;
        }
        Ok(EntryGroup {
            functional: group.functional,
            gcn: group.number,
            sets,
        })
    }

    /// A copy of the group, as it stands.
    fn copied(&self, alloc: Global) -> Result<EntryGroup, AllocError>
        ensures { IfOk result (λ g. group_row g ≡ group_row self.now) }
    {
        Ok(EntryGroup {
            functional: self.functional,
            gcn: self.gcn,
            sets: Vec::from_slice(alloc, &self.sets)?,
        })
    }
}

impl Entry {
    /// The entry of an interchange that is submitted: these bytes, of which the header and the
    /// outline were read. Each of its sets is pending.
    ///
    /// `Err` where memory is missing.
    #[tactic(auto, unfolding(crate::specs::Entry::pending_entry, x12_acks::specs::Submission::submission_of))]
    pub fn of(
        alloc: Global,
        header: &Header,
        outline: &Outline,
        bytes: &[u8],
    ) -> Result<Entry, AllocError>
        ensures { IfOk result (λ e. entry_row e ≡ pending_entry
            (submission_of header.now bytes.now (outline_view header.now.delims outline.now))) }
    {
        let mut groups = Vec::with_capacity(alloc, outline.groups.len())?;
        for group in &outline.groups {
            groups.push(EntryGroup::of(alloc, group)?)?;
        }
        Ok(Entry {
            icn: header.icn,
            partner: header.receiver,
            bytes: ArcSlice::from_slice(alloc, bytes)?,
            groups,
        })
    }

    /// A copy of the entry, as it stands. Its bytes are the same, shared.
    ///
    /// `Err` where memory is missing.
    pub fn copied(&self, alloc: Global) -> Result<Entry, AllocError>
        ensures { IfOk result (λ e. entry_row e ≡ entry_row self.now) }
    {
        let mut groups = Vec::with_capacity(alloc, self.groups.len())?;
        for group in &self.groups {
            groups.push(group.copied(alloc)?)?;
        }
        Ok(Entry {
            icn: self.icn,
            partner: self.partner,
            bytes: self.bytes.clone()?,
            groups,
        })
    }
}
