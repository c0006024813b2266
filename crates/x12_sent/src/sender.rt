//! A sender, and what it may submit.

ghost use Rattle.std.specs.Prelude.{◌≡◌, [], ◌∷◌, Ok, None, IfOk, IfErr, OnOk, OnErr};
ghost use Rattle.x12_numbers.specs.Book.{Uses};
ghost use Rattle.x12_envelopes.specs.Header.{header_of};
ghost use Rattle.x12_envelopes.specs.Shape.{outline_view};
ghost use Rattle.x12_acks.specs.Submission.{submission_of};
ghost use Rattle.x12_outbound.specs.Entry.{IsSendable};
ghost use Rattle.x12_outbound.specs.Submitting.{IsSubmitRefusal, numbers_of_groups, submit_fault};
ghost use Rattle.x12_sent.specs.Sender.{book_behind};

use std::alloc::Global;
use x12_envelopes::Party;
use x12_numbers::Book;
use x12_outbound::{SubmitFault, Submittable};

/// A sender: its address, and the last numbers that it used.
#[derive(Clone, Copy)]
pub struct Sender {
    /// Its address (ISA05, ISA06).
    pub me: Party,
    /// The last numbers that it used (ISA13, GS06).
    pub book: Book,
}

impl Sender {
    /// Submits an interchange: reads it, and uses its numbers up. What may not be submitted uses none.
    ///
    /// An error is the first row of the table of refusals that holds, or `SubmitFault::Memory`.
    pub fn submit<'a>(
        &mut self,
        alloc: Global,
        bytes: &'a [u8],
    ) -> Result<Submittable<'a>, SubmitFault>
        ensures me { self.new.me ≡ self.old.me }
        ensures allowed { OnOk result (submit_fault self.old.me self.old.book bytes.now ≡ None) }
        ensures refused { IfErr result (λ f.
            IsSubmitRefusal (submit_fault self.old.me self.old.book bytes.now) f) }
        ensures book { OnOk result (self.new.book
            ≡ book_behind self.old.me self.old.book bytes.now) }
        ensures unchanged { OnErr result (self.new.book ≡ self.old.book) }
        ensures header { IfOk result (λ x. header_of bytes.now ≡ Ok x.header) }
        ensures sendable { IfOk result (λ x. IsSendable (submission_of x.header
            bytes.now (outline_view x.header.delims x.outline))) }
        ensures uses { IfOk result (λ x. Uses self.old.book self.new.book
            (x.header.icn ∷ []) (numbers_of_groups (outline_view x.header.delims x.outline))) }
    {
        let read = Submittable::read(alloc, &self.me, &self.book, bytes)?;
        self.book = read.book;
        Ok(read)
    }
}
