//! What may be submitted: an interchange is read before it is entered. The refusals S4, S5, S1, S6,
//! S7, S2, S8 and S10, in the order of the table.

ghost use Rattle.std.specs.Prelude.{◌≡◌, ◌≤◌, [], ◌∷◌, None, Ok, IfOk, IfErr, map, not, MatchResult};
ghost use Rattle.std.specs.Prelude.{bytes_eq, codes, vec_len, ◌==◌};
ghost use Rattle.std.specs.List.{list_any};
ghost use Rattle.x12_numbers.specs.Book.{Numbers, Uses};
ghost use Rattle.x12_envelopes.specs.declared.delimiters.Delims.{Delims};
ghost use Rattle.x12_envelopes.specs.Header.{header_of};
ghost use Rattle.x12_envelopes.specs.Outline.{outline_of};
ghost use Rattle.x12_envelopes.specs.Shape.{outline_view, set_view, group_view, sets_of_outline};
ghost use Rattle.x12_acks.specs.Submission.{submission_of};
ghost use Rattle.x12_profile.specs.X12.{are_new_numbers};
ghost use Rattle.x12_outbound.specs.Entry.{IsSendable};
ghost use Rattle.x12_outbound.specs.declared.submitting.SubmitFault.TheVariants.{Memory};
ghost use Rattle.x12_outbound.specs.Submitting.{contents_fault, has_acknowledgments, lacks_sets};
ghost use Rattle.x12_outbound.specs.Submitting.{book_fault, numbers_of_groups, outline_fault};
ghost use Rattle.x12_outbound.specs.Submitting.{parties_fault, submit_fault, submit_fault_number, IsSubmitRefusal};

use std::alloc::{AllocError, Global};
use std::collections::BTreeSet;
use x12_envelopes::{
    GroupView, Header, HeaderFault, Outline, OutlineFault, Party, SetView, group_numbers, outline,
    read_header, set_numbers_compare_as_bytes,
};
use x12_numbers::Book;

/// Why an interchange may not be submitted: the first row of the table that holds.
#[derive(Clone, Copy)]
pub enum SubmitFault {
    /// S1. The receiver (ISA07, ISA08) is the sender itself.
    OwnAddress,
    /// S2. No functional group, or one without a transaction set.
    Empty,
    /// S4. A header (ISA) that can't be read.
    BadHeader(HeaderFault),
    /// S5. The sender (ISA05, ISA06) is another.
    NotMine,
    /// S6. Segments that can't be read.
    Shape(OutlineFault),
    /// S7. A TA1, or a functional group of acknowledgments (FA): a station writes these itself.
    Acknowledgments,
    /// S8. One transaction set control number (ST02) twice in a group.
    SetTwice,
    /// S10. Control numbers that don't rise above all that were used.
    NotNew,
    /// S14. Memory was missing: nothing was told.
    Memory,
}

impl SubmitFault {
    /// The fault's number among those of a station: `S1` to `S14`.
    pub fn number(&self) -> &'static str
        ensures { result.now ≡ submit_fault_number self.now }
    {
        match self {
            SubmitFault::OwnAddress => "S1",
            SubmitFault::Empty => "S2",
            SubmitFault::BadHeader(_) => "S4",
            SubmitFault::NotMine => "S5",
            SubmitFault::Shape(_) => "S6",
            SubmitFault::Acknowledgments => "S7",
            SubmitFault::SetTwice => "S8",
            SubmitFault::NotNew => "S10",
            SubmitFault::Memory => "S14",
        }
    }
}

impl From<AllocError> for SubmitFault {
    ghost from_gives = { λ _ e. e ≡ Memory };

    fn from(_: AllocError) -> SubmitFault {
        SubmitFault::Memory
    }
}

/// The sender is this party (S5), and the receiver is another (S1).
fn check_parties(me: &Party, header: &Header) -> Result<(), SubmitFault>
    ensures { MatchResult result (λ _. parties_fault me.now header.now ≡ None)
        (λ f. IsSubmitRefusal (parties_fault me.now header.now) f) }
{
    if header.sender != *me {
        return Err(SubmitFault::NotMine);
    }
    if header.receiver == *me {
        return Err(SubmitFault::OwnAddress);
    }
    Ok(())
}

/// The segments behind ISA (S6).
fn read_outline<'a>(
    alloc: Global,
    bytes: &'a [u8],
    header: &Header,
) -> Result<Outline<'a>, SubmitFault>
    requires read { header_of bytes.now ≡ Ok header.now }
    ensures read { let d = header.now.delims in
        IfOk result (λ o. outline_of d bytes.now ≡ Ok (outline_view d o)) }
    ensures groups { IfOk result (λ o. vec_len o.groups ≤ 32) }
    ensures sets { IfOk result (λ o. sets_of_outline o ≤ 400) }
    ensures refused { let read = outline_of header.now.delims bytes.now in
        IfErr result (λ f. (b : Numbers) → IsSubmitRefusal (outline_fault b header.now read) f) }
{
    match outline(alloc, bytes, header) {
        Ok(outline) => Ok(outline),
        Err(OutlineFault::Memory) => Err(SubmitFault::Memory),
        Err(fault) => Err(SubmitFault::Shape(fault)),
    }
}

/// Whether a transaction set control number (ST02) stands twice in a functional group.
fn has_number_twice(alloc: Global, sets: &[SetView<'_>]) -> Result<bool, AllocError>
    ensures { (d : Delims) → IfOk result (λ t.
        t ≡ not (are_new_numbers (map (set_view d) sets.now))) }
{
    if sets.len() < 2 {
        return Ok(false);
    }
    // law: two numbers of sets are equal where their bytes are
    set_numbers_compare_as_bytes();
    let mut seen = BTreeSet::new(alloc);
    for set in sets {
        if !seen.insert(set.number)? {
            return Ok(true);
        }
    }
    Ok(false)
}

/// Whether a transaction set control number stands twice in one of the functional groups.
fn have_number_twice(alloc: Global, groups: &[GroupView<'_>]) -> Result<bool, AllocError>
    ensures { (d : Delims) → IfOk result (λ t.
        t ≡ list_any (λ g. not (are_new_numbers g.sets)) (map (group_view d) groups.now)) }
{
    for group in groups {
        if has_number_twice(alloc, &group.sets)? {
            return Ok(true);
        }
    }
    Ok(false)
}

/// Whether one of the groups is one of acknowledgments (GS01 is FA).
fn have_answers(groups: &[GroupView<'_>]) -> bool
    ensures { result ≡ list_any (λ g. bytes_eq g.functional (codes "FA")) groups.now }
{
    groups.iter().any(|group| group.functional == *b"FA")
}

/// Whether one of the groups has no transaction set.
fn lack_set(groups: &[GroupView<'_>]) -> bool
    ensures { result ≡ list_any (λ g. vec_len g.sets == 0) groups.now }
{
    groups.iter().any(|group| group.sets.is_empty())
}

/// Whether the interchange holds acknowledgments: a TA1, or a group of them.
fn has_answers(outline: &Outline<'_>) -> bool
    ensures { (d : Delims) → result ≡ has_acknowledgments (outline_view d outline.now) }
{
    !outline.tas.is_empty() || have_answers(&outline.groups)
}

/// Whether there is no functional group, or one without a transaction set.
fn lacks_set(outline: &Outline<'_>) -> bool
    ensures { (d : Delims) → result ≡ lacks_sets (outline_view d outline.now) }
{
    outline.groups.is_empty() || lack_set(&outline.groups)
}

/// There are no acknowledgments (S7), a transaction set in each group (S2), and no ST02 twice in one
/// (S8).
fn check_contents(alloc: Global, outline: &Outline<'_>) -> Result<(), SubmitFault>
    ensures { (d : Delims) →
        MatchResult result (λ _. contents_fault (outline_view d outline.now) ≡ None)
        (λ f. IsSubmitRefusal (contents_fault (outline_view d outline.now)) f) }
{
    if has_answers(outline) {
        return Err(SubmitFault::Acknowledgments);
    }
    if lacks_set(outline) {
        return Err(SubmitFault::Empty);
    }
    if have_number_twice(alloc, &outline.groups)? {
        return Err(SubmitFault::SetTwice);
    }
    Ok(())
}

/// The book raised to the numbers of the interchange (S10).
#[tactic(auto, using(crate::proofs::SubmittingLemmas::viewed_numbers))]
fn raised(
    alloc: Global,
    book: &Book,
    header: &Header,
    outline: &Outline<'_>,
) -> Result<Book, SubmitFault>
    ensures uses { (d : Delims) → IfOk result (λ b. Uses book.now b (header.now.icn ∷ [])
        (numbers_of_groups (outline_view d outline.now))) }
    ensures refused { (d : Delims) → IfErr result
        (IsSubmitRefusal (book_fault book.now header.now (outline_view d outline.now))) }
{
    let numbers = group_numbers(alloc, &outline.groups)?;
    let mut book = *book;
    match book.raise(header.icn, &numbers) {
        Ok(()) => Ok(book),
        Err(_) => Err(SubmitFault::NotNew),
    }
}

/// An interchange that may be submitted, as it was read.
#[derive(Drop)]
pub struct Submittable<'a> {
    /// Its header (X12.5, ISA).
    pub header: Header,
    /// The segments behind it.
    pub outline: Outline<'a>,
    /// The last control numbers that its sender used, once it is submitted.
    pub book: Book,
}

impl<'a> Submittable<'a> {
    /// Reads what the station of this party is to submit, which used the numbers of this book.
    ///
    /// S4, S5, S1, S6, S7, S2, S8 and S10, the first that holds; S14.
    pub fn read(
        alloc: Global,
        me: &Party,
        book: &Book,
        bytes: &'a [u8],
    ) -> Result<Submittable<'a>, SubmitFault>
        ensures allowed { IfOk result (λ _. submit_fault me.now book.now bytes.now ≡ None) }
        ensures header { IfOk result (λ r. header_of bytes.now ≡ Ok r.header) }
        ensures outline { IfOk result (λ r. let d = r.header.delims in
            outline_of d bytes.now ≡ Ok (outline_view d r.outline)) }
        ensures sendable { IfOk result (λ r. IsSendable
            (submission_of r.header bytes.now (outline_view r.header.delims r.outline))) }
        ensures uses { IfOk result (λ r. Uses book.now r.book (r.header.icn ∷ [])
            (numbers_of_groups (outline_view r.header.delims r.outline))) }
        ensures refused { IfErr result (IsSubmitRefusal (submit_fault me.now book.now bytes.now)) }
    {
        let header = match read_header(bytes) {
            Ok(header) => header,
            Err(fault) => return Err(SubmitFault::BadHeader(fault)),
        };
        check_parties(me, &header)?;
        let outline = read_outline(alloc, bytes, &header)?;
        check_contents(alloc, &outline)?;
        let book = raised(alloc, book, &header, &outline)?;
        Ok(Submittable {
            header,
            outline,
            book,
        })
    }
}
