//! Postings that are handed over in memory, where it is told what was done.

ghost use Rattle.std.specs.Prelude.{◌≡◌, IfOk, map};
ghost use Rattle.x12_inbound.specs.Posting.{posting_view};

use crate::handing::HandOver;
use crate::memory::note;
use crate::spool::SpoolFault;
use std::alloc::{AllocError, Global};
use x12_inbound::Posting;

/// What was done.
#[derive(Drop)]
pub enum Handed {
    /// Of what was drafted before, these were named, and the rest dropped.
    Settled(Vec<Posting>),
    /// A posting was drafted.
    Drafted(Posting),
    /// The drafts' names are on the disk.
    Synced,
    /// The mark is kept.
    Marked(u64),
    /// A posting was named.
    Named(Posting),
}

/// Where postings are handed over in memory.
#[derive(Drop)]
pub struct MemoryHandOver {
    /// Where memory is taken.
    pub alloc: Global,
    /// What was done, the oldest first.
    pub done: Vec<Handed>,
}

/// A copy of a posting.
fn copied(alloc: Global, posting: &Posting) -> Result<Posting, AllocError>
    ensures { IfOk result (λ p. posting_view p ≡ posting_view posting.now) }
{
    let bytes = Vec::from_slice(alloc, &posting.bytes)?;
    Ok(Posting {
        bytes,
        key: posting.key,
        functional: posting.functional,
        set: posting.set,
        number: posting.number,
    })
}

/// Copies of postings.
fn copied_each(alloc: Global, postings: &[Posting]) -> Result<Vec<Posting>, AllocError>
    ensures { IfOk result (λ v. map posting_view v.items ≡ map posting_view postings.now) }
{
    let mut copies = Vec::new(alloc);
    for posting in postings {
        copies.push(copied(alloc, posting)?)?;
    }
    Ok(copies)
}

impl HandOver for MemoryHandOver {
    ghost use Rattle.std.specs.Prelude.{Some, map};
    ghost use Rattle.x12_spool.specs.Handed.{deed_of_handed};

    ghost done = { λ s. Some (map deed_of_handed s.done.items) };

    fn settle(&mut self, handed: &[Posting]) -> Result<(), SpoolFault> {
        let settled = Handed::Settled(copied_each(self.alloc, handed)?);
        Ok(note(&mut self.done, settled)?)
    }

    fn draft(&mut self, posting: &Posting) -> Result<(), SpoolFault> {
        let drafted = Handed::Drafted(copied(self.alloc, posting)?);
        Ok(note(&mut self.done, drafted)?)
    }

    fn sync(&mut self) -> Result<(), SpoolFault> {
        Ok(note(&mut self.done, Handed::Synced)?)
    }

    fn mark(&mut self, handed: u64) -> Result<(), SpoolFault> {
        Ok(note(&mut self.done, Handed::Marked(handed))?)
    }

    fn name(&mut self, posting: &Posting) -> Result<(), SpoolFault> {
        let named = Handed::Named(copied(self.alloc, posting)?);
        Ok(note(&mut self.done, named)?)
    }
}
