//! Folders in memory, which tell what was done in them.

ghost use Rattle.std.specs.Prelude.{◌≡◌, ◌++◌, ◌∷◌, [], IfOk, OnOk, OnErr, map};
ghost use Rattle.x12_spool.specs.Deed.{Deed, file_view, reading};
ghost use Rattle.x12_spool.specs.Memory.{stored_view, deed_of_done};

use crate::node::Reason;
use crate::spool::{Spool, SpoolFault, Waiting, Word};
use std::alloc::{AllocError, Global};

/// What was done.
#[derive(Drop)]
pub enum Done {
    /// These are the files that came.
    Listed(Vec<Waiting>),
    /// A file was read: its name, its bytes.
    Read(Vec<u8>, Vec<u8>),
    /// A file of this name can't be read.
    PassedOver(Vec<u8>),
    /// An interchange was put.
    Sent(Vec<u8>),
    /// An item was put.
    Put(u32, Vec<u8>),
    /// The word was put that an item was taken.
    Confirmed(u32),
    /// Bytes of a file of this name were set aside.
    SetAside(Vec<u8>, Vec<u8>, Reason),
    /// A file of this name was removed.
    Removed(Vec<u8>),
}

/// A file that came.
#[derive(Drop)]
pub struct Stored {
    /// Its name.
    pub name: Vec<u8>,
    /// What the name says.
    pub word: Word,
    /// Its bytes; None: it can't be read.
    pub bytes: Option<Vec<u8>>,
}

/// Folders in memory.
#[derive(Drop)]
pub struct MemorySpool {
    /// Where memory is taken.
    pub alloc: Global,
    /// The files that came, and weren't removed.
    pub files: Vec<Stored>,
    /// What was done, the oldest first.
    pub done: Vec<Done>,
}

impl From<AllocError> for SpoolFault {
    ghost from_gives = { λ _ _. Unit {0} };

    fn from(_: AllocError) -> SpoolFault {
        SpoolFault::Memory
    }
}

/// The names of files, with what they say.
fn listed(alloc: Global, files: &[Stored]) -> Result<Vec<Waiting>, AllocError>
    ensures { IfOk result (λ v. map file_view v.items ≡ map stored_view files.now) }
{
    let mut waiting = Vec::new(alloc);
    for file in files {
        let name = Vec::from_slice(alloc, &file.name)?;
        let word = file.word;
        waiting.push(Waiting { name, word })?;
    }
    Ok(waiting)
}

/// Notes what was done.
pub(crate) fn note<T: Drop>(log: &mut Vec<T>, done: T) -> Result<(), AllocError>
    ensures noted { (deed : T → Deed) → OnOk result
        (map deed log.new.items ≡ map deed log.old.items ++ deed done ∷ []) }
    ensures kept { OnErr result (log.new.items ≡ log.old.items) }
{
    log.reserve(1)?;
    log.push_reserved(done);
    Ok(())
}

/// A copy of the bytes of a file of this name, if there is one that can be read.
fn found(alloc: Global, files: &[Stored], name: &[u8]) -> Result<Option<Vec<u8>>, AllocError> {
    for file in files {
        if file.name.as_slice() == name {
            return match &file.bytes {
                Some(bytes) => Ok(Some(Vec::from_slice(alloc, bytes)?)),
                None => Ok(None),
            };
        }
    }
    Ok(None)
}

/// What was done where a file was read, or can't be.
fn done_reading(alloc: Global, name: &[u8], read: &Option<Vec<u8>>) -> Result<Done, AllocError>
    ensures { IfOk result (λ d. deed_of_done d ≡ reading name.now read.now) }
{
    let name = Vec::from_slice(alloc, name)?;
    match read {
        Some(bytes) => Ok(Done::Read(name, Vec::from_slice(alloc, bytes)?)),
        None => Ok(Done::PassedOver(name)),
    }
}

impl MemorySpool {
    /// Folders in which these files came, and nothing was done.
    pub fn new(alloc: Global, files: Vec<Stored>) -> MemorySpool
        ensures { (result.files ≡ files) × (result.done.items ≡ []) }
    {
        MemorySpool {
            alloc,
            files,
            done: Vec::new(alloc),
        }
    }
}

impl Spool for MemorySpool {
    ghost use Rattle.std.specs.Prelude.{Some, map};
    ghost use Rattle.x12_spool.specs.Memory.{deed_of_done};

    ghost done = { λ s. Some (map deed_of_done s.done.items) };

    fn waiting(&mut self) -> Result<Vec<Waiting>, SpoolFault> {
        let files = listed(self.alloc, &self.files)?;
        let again = listed(self.alloc, &self.files)?;
        note(&mut self.done, Done::Listed(again))?;
        Ok(files)
    }

    fn read(&mut self, name: &[u8]) -> Result<Option<Vec<u8>>, SpoolFault> {
        let read = found(self.alloc, &self.files, name)?;
        let done = done_reading(self.alloc, name, &read)?;
        note(&mut self.done, done)?;
        Ok(read)
    }

    fn send(&mut self, bytes: &[u8]) -> Result<(), SpoolFault> {
        let sent = Done::Sent(Vec::from_slice(self.alloc, bytes)?);
        Ok(note(&mut self.done, sent)?)
    }

    fn put(&mut self, item: u32, bytes: &[u8]) -> Result<(), SpoolFault> {
        let put = Done::Put(item, Vec::from_slice(self.alloc, bytes)?);
        Ok(note(&mut self.done, put)?)
    }

    fn confirm(&mut self, item: u32) -> Result<(), SpoolFault> {
        Ok(note(&mut self.done, Done::Confirmed(item))?)
    }

    fn set_aside(&mut self, name: &[u8], bytes: &[u8], reason: Reason) -> Result<(), SpoolFault> {
        let name = Vec::from_slice(self.alloc, name)?;
        let bytes = Vec::from_slice(self.alloc, bytes)?;
        Ok(note(&mut self.done, Done::SetAside(name, bytes, reason))?)
    }

    fn remove(&mut self, name: &[u8]) -> Result<(), SpoolFault> {
        let removed = Done::Removed(Vec::from_slice(self.alloc, name)?);
        note(&mut self.done, removed)?;
        self.files
            .retain(|file: &Stored| -> bool { file.name.as_slice() != name });
        Ok(())
    }
}
