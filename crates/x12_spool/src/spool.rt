//! What a node finds and leaves in its folders.

ghost use Rattle.std.specs.Prelude.{[], ◌∷◌, ◌⊎◌, List, Option, map, MatchResult, OnOk, OnErr};
ghost use Rattle.x12_spool.specs.Deed.{Deed, AddsDeeds, Lists, Sends, Puts, Confirms, SetsAside, Removes};
ghost use Rattle.x12_spool.specs.Deed.{file_view, reading};

use crate::node::Reason;

/// Why a spool did nothing.
#[derive(Clone, Copy)]
pub enum SpoolFault {
    /// A file or a folder refused.
    Files,
    /// Memory was missing.
    Memory,
}

/// What a file's name says.
#[derive(Clone, Copy)]
pub enum Word {
    /// Nothing: it holds interchanges.
    Plain,
    /// It holds the item of this number, out of a mailbox of the hub.
    Item(u32),
    /// The item of this number was taken.
    Taken(u32),
}

/// A file that came.
#[derive(Drop)]
pub struct Waiting {
    /// Its name.
    pub name: Vec<u8>,
    /// What the name says.
    pub word: Word,
}

/// The folders of a node: what came, what goes on, and what is set aside. What a call puts survives a
/// crash once the call answers Ok.
pub trait Spool {
    /// What was done in them, the oldest first. Real files: nothing is said.
    ghost done: { Self → Option (List Deed) };

    /// The files that came, by name.
    fn waiting(&mut self) -> Result<Vec<Waiting>, SpoolFault>
        ensures { MatchResult result
            (λ v. AddsDeeds (done self.old) (done self.new) (Lists (map file_view v.items) ∷ []))
            (λ _. AddsDeeds (done self.old) (done self.new) []) };

    /// The bytes of a file that came. None: it can't be read, and whoever looks after the folders was
    /// told so.
    fn read(&mut self, name: &[u8]) -> Result<Option<Vec<u8>>, SpoolFault>
        ensures { MatchResult result
            (λ read. AddsDeeds (done self.old) (done self.new) (reading name.now read ∷ []))
            (λ _. AddsDeeds (done self.old) (done self.new) []) };

    /// Puts an interchange where it is taken on.
    fn send(&mut self, bytes: &[u8]) -> Result<(), SpoolFault>
        ensures sent { OnOk result (AddsDeeds (done self.old) (done self.new) (Sends bytes.now ∷ [])) }
        ensures unsent { OnErr result (AddsDeeds (done self.old) (done self.new) []) };

    /// Puts the item of a mailbox where its node takes it, under the item's number.
    fn put(&mut self, item: u32, bytes: &[u8]) -> Result<(), SpoolFault>
        ensures sent { OnOk result (AddsDeeds (done self.old) (done self.new) (Puts item bytes.now ∷ [])) }
        ensures unsent { OnErr result (AddsDeeds (done self.old) (done self.new) []) };

    /// Puts the word for the hub that an item was taken.
    fn confirm(&mut self, item: u32) -> Result<(), SpoolFault>
        ensures sent { OnOk result (AddsDeeds (done self.old) (done self.new) (Confirms item ∷ [])) }
        ensures unsent { OnErr result (AddsDeeds (done self.old) (done self.new) []) };

    /// Keeps bytes of a file that aren't taken, beside the reason.
    fn set_aside(&mut self, name: &[u8], bytes: &[u8], reason: Reason) -> Result<(), SpoolFault>
        ensures kept { OnOk result
            (AddsDeeds (done self.old) (done self.new) (SetsAside name.now bytes.now reason ∷ [])) }
        ensures unkept { OnErr result (AddsDeeds (done self.old) (done self.new) []) };

    /// Removes a file that came. It may be gone also where this answers an error.
    fn remove(&mut self, name: &[u8]) -> Result<(), SpoolFault>
        ensures gone { OnOk result (AddsDeeds (done self.old) (done self.new) (Removes name.now ∷ [])) }
        ensures unsure { OnErr result (AddsDeeds (done self.old) (done self.new) []
            ⊎ AddsDeeds (done self.old) (done self.new) (Removes name.now ∷ [])) };
}
