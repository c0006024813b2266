//! A sender that submits what may be submitted of a file, and the ledgers that it keeps.

ghost use Rattle.std.specs.Prelude.{◌≡◌, IfOk, OnOk, is_none};
ghost use Rattle.x12_numbers.specs.Book.{new_book};
ghost use Rattle.x12_envelopes.specs.Shape.{outline_view};
ghost use Rattle.x12_envelopes.specs.Writing.{texts};
ghost use Rattle.x12_acks.specs.Submission.{submission_of};
ghost use Rattle.x12_outbound.specs.Entry.{pending_entry};
ghost use Rattle.x12_outbound.specs.Ledger.{MayBeAdded, with_interchange};
ghost use Rattle.x12_outbound.specs.Schedule.{unsent_schedule};
ghost use Rattle.x12_outbound.specs.Submitting.{submit_fault};
ghost use Rattle.x12_sent.specs.Submitter.{KeepBoth};
ghost use Rattle.x12_sent.specs.Sender.{book_behind, all_submitted};

use crate::closing::Ledgers;
use crate::sender::Sender;
use crate::sent::{SentInterchange, sent_interchange};
use std::alloc::{AllocError, Global};
use std::collections::BTreeMap;
use x12_envelopes::{Header, Outline, Party};
use x12_numbers::Book;
use x12_outbound::{Entry, Ledger, SubmitFault, Submittable};

/// Who is told what a sender may not submit.
pub trait Refusals {
    /// Tells why the interchange at this place, from 1, may not be submitted.
    fn tell(
        &mut self,
        alloc: Global,
        sender: &Sender,
        place: usize,
        bytes: &[u8],
        fault: SubmitFault,
    ) -> Result<(), AllocError>;
}

/// Enters an interchange into a ledger, each of its sets pending.
fn enter(
    alloc: Global,
    ledger: &mut Ledger,
    header: &Header,
    read: &Outline<'_>,
    bytes: &[u8],
) -> Result<(), AllocError>
    requires { let x = outline_view header.now.delims read.now in
        MayBeAdded ledger.old.holds (pending_entry (submission_of header.now bytes.now x)) }
    ensures { let x = outline_view header.now.delims read.now in
        let e = pending_entry (submission_of header.now bytes.now x) in
        OnOk result (ledger.new.holds ≡ with_interchange e unsent_schedule ledger.old.holds) }
{
    let entry = Entry::of(alloc, header, read, bytes)?;
    match ledger.add_unsent(entry) {
        Ok(()) => Ok(()),
        Err((_, error)) => Err(error),
    }
}

/// A sender, and the ledger of what it submitted, twice: as it is at first, and for what answers leave
/// of it.
#[derive(Drop)]
pub(crate) struct Submitter {
    pub alloc: Global,
    pub sender: Sender,
    pub whole: Ledger,
    pub left: Ledger,
}

impl Submitter {
    /// A sender with this hub that submitted nothing yet.
    #[tactic(auto, unfolding(x12_outbound::specs::Ledger::empty_ledger))]
    pub(crate) fn new(alloc: Global, me: Party, hub: Party) -> Submitter
        ensures keeps { KeepBoth result }
        ensures me { result.sender.me ≡ me }
        ensures book { result.sender.book ≡ new_book }
    {
        Submitter {
            alloc,
            sender: Sender {
                me,
                book: Book::new(),
            },
            whole: Ledger::new(alloc, me, hub, None),
            left: Ledger::new(alloc, me, hub, None),
        }
    }

    /// Submits an interchange, keeps it as it was sent under its number, and answers whether it may be
    /// submitted; where it may not be, that is told. On an error the sender is of no use.
    fn read<'a, T: Refusals>(
        &mut self,
        refusals: &mut T,
        place: usize,
        bytes: &'a [u8],
        interchanges: &mut BTreeMap<u32, SentInterchange<'a>>,
    ) -> Result<bool, AllocError>
        requires keeps { KeepBoth self.old }
        ensures keeps { OnOk result (KeepBoth self.new) }
        ensures right { IfOk result (λ right. right
            ≡ is_none (submit_fault self.old.sender.me self.old.sender.book bytes.now)) }
        ensures book { OnOk result (self.new.sender.book
            ≡ book_behind self.old.sender.me self.old.sender.book bytes.now) }
        ensures me { self.new.sender.me ≡ self.old.sender.me }
    {
        let read = match self.sender.submit(self.alloc, bytes) {
            Ok(read) => read,
            Err(fault) => {
                if let SubmitFault::Memory = fault {
                    return Err(AllocError);
                }
                refusals.tell(self.alloc, &self.sender, place, bytes, fault)?;
                return Ok(false);
            }
        };
        let Submittable {
            header,
            outline,
            book: _,
        } = read;
        enter(self.alloc, &mut self.whole, &header, &outline, bytes)?;
        enter(self.alloc, &mut self.left, &header, &outline, bytes)?;
        let sent = sent_interchange(self.alloc, &header.delims, outline)?;
        interchanges.insert(header.icn, sent)?;
        Ok(true)
    }

    /// Submits interchanges in turn, and answers whether each may be.
    pub(crate) fn read_each<'a, T: Refusals>(
        &mut self,
        refusals: &mut T,
        slices: &[&'a [u8]],
        interchanges: &mut BTreeMap<u32, SentInterchange<'a>>,
    ) -> Result<bool, AllocError>
        requires keeps { KeepBoth self.old }
        ensures keeps { OnOk result (KeepBoth self.new) }
        ensures right { IfOk result (λ right. right
            ≡ all_submitted self.old.sender.me self.old.sender.book (texts slices.now)) }
    {
        let mut all_right = true;
        for (index, bytes) in slices.iter().enumerate() {
            let right = self.read(refusals, index + 1, bytes, interchanges)?;
            all_right &= right;
        }
        Ok(all_right)
    }

    /// What was submitted, as two ledgers.
    pub(crate) fn into_ledgers(self) -> Ledgers
        requires keeps { KeepBoth self }
    {
        let Submitter {
            alloc: _,
            sender: _,
            whole,
            left,
        } = self;
        Ledgers::new(whole, left)
    }
}
