//! What is kept of a new arrival: its reply, under the next control numbers, and its postings.

ghost use Rattle.std.specs.Prelude.{◌≡◌, ◌≢◌, map, IsTrue, Ok, IfOk, IfErr};
ghost use Rattle.x12_envelopes.specs.Header.{header_of};
ghost use Rattle.x12_judge.specs.Agreement.{agreement_view};
ghost use Rattle.x12_judge.specs.Verdict.{judgement_view};
ghost use Rattle.x12_inbound.specs.Arrival.{arrival, arrived_view};
ghost use Rattle.x12_inbound.specs.Filing.{reply_bytes};
ghost use Rattle.x12_acks.specs.Reply.{due_reply};
ghost use Rattle.x12_profile.specs.X12.{judged_by, needs_of};
ghost use Rattle.x12_profile.specs.Interchange.{book_for, is_within};
ghost use Rattle.x12_station.specs.declared.fault.StationFault.TheVariants.{Exhausted, Memory, Store};
ghost use Rattle.x12_station.specs.working.Drafting.{needs_view, exhausted, IsDraft};
ghost use Rattle.x12_station.specs.Fault.{IsRowOrWant};
ghost use Rattle.x12_station.specs.Keeps.{cached_edition};
ghost use Rattle.x12_station.specs.StationRefusal.{is_spent};

use crate::arrivals::copy_reply;
use crate::cached::Cached;
use crate::fault::StationFault;
use std::alloc::AllocError;
use x12_acks::{Needs, ReplyHeader, needs, write_reply};
use x12_envelopes::{Header, Moment};
use x12_inbound::{Arrived, Kept};
use x12_judge::Judgement;
use x12_numbers::Book;

/// What is to be kept of a new arrival, the reply that is sent, and the last control numbers then. It
/// has no `Drop`: what is kept is filed, or given up.
#[must_use]
pub(crate) struct Draft {
    pub kept: Kept,
    pub reply: Option<Vec<u8>>,
    pub book: Book,
}

impl Draft {
    /// Gives up what isn't filed.
    pub(crate) fn discard(self) {
        let Draft {
            kept,
            reply: _,
            book: _,
        } = self;
        kept.discard();
    }
}

/// The last control numbers may be written: a law, as a function that does nothing.
fn numbers_can_be_written(book: &Book)
    ensures { IsTrue (is_within book.now) }
{
    let (_, _) = (book.interchange(), book.group());
}

/// The last control numbers once a reply has taken its own.
///
/// S11 where one would be above 999999999.
pub(crate) fn taken(book: Book, needs: Needs) -> Result<Book, StationFault>
    requires { IsTrue needs.group → IsTrue needs.reply }
    ensures book { IfOk result (λ b. b ≡ book_for book (needs_view needs)) }
    ensures within { IfOk result (λ b. IsTrue (is_within b)) }

    ensures spent { IfErr result (λ f.
        (f ≡ Exhausted) × IsTrue (is_spent book (needs_view needs))) }
{
    let mut book = book;
    if needs.reply && book.take_interchange().is_err() {
        return Err(StationFault::Exhausted);
    }
    if needs.group && book.take_groups(1).is_err() {
        return Err(StationFault::Exhausted);
    }
    // law: no number of the book is above the greatest
    numbers_can_be_written(&book);
    Ok(book)
}

/// The reply to a judged arrival, where one is due, under these last control numbers.
fn reply_under(
    memory: &Cached,
    judgement: &Judgement,
    header: &Header,
    at: &Moment,
    book: &Book,
) -> Result<Option<Vec<u8>>, AllocError>
    ensures { IfOk result (λ r. reply_bytes r
        ≡ due_reply header.now (judgement_view judgement.now) memory.now.me at.now
        book.now.interchange book.now.group) }
{
    if !needs(header, judgement).reply {
        return Ok(None);
    }
    let own = ReplyHeader {
        me: memory.me,
        at: *at,
        icn: book.interchange(),
        gcn: book.group(),
    };
    let reply = write_reply(memory.alloc, header, judgement, &own)?;
    Ok(Some(reply))
}

/// What is to be kept of a new arrival that was judged.
///
/// S11 where no control number is left for the reply; S14.
pub(crate) fn drafted(
    memory: &Cached,
    arrived: Arrived,
    judgement: &Judgement,
    header: &Header,
    at: &Moment,
) -> Result<Draft, StationFault>
    requires judged { let ags = map agreement_view memory.now.agreements.items in
        judgement_view judgement.now
        ≡ judged_by (cached_edition memory.now) memory.now.me ags header.now
        (arrived_view arrived).bytes }
    requires read { header_of (arrived_view arrived).bytes ≡ Ok header.now }
    requires filed { arrived_view arrived
        ≡ arrival header.now.sender header.now.icn (arrived_view arrived).bytes }
    ensures draft { IfOk result (λ d. IsDraft (cached_edition memory.now) memory.now.me
        (map agreement_view memory.now.agreements.items) at.now memory.now.book header.now
        (arrived_view arrived.entry).bytes d) }

    ensures spent { IfErr result (λ f. IsRowOrWant (exhausted (is_spent memory.now.book
        (needs_of (cached_edition memory.now) memory.now.me
        (map agreement_view memory.now.agreements.items)
        (arrived_view arrived.entry).bytes header.now))) f) }
    ensures own { IfErr result (λ f. f ≢ Store) }
{
    let book = taken(memory.book, needs(header, judgement))?;
    let reply = reply_under(memory, judgement, header, at, &book)?;
    let sent = copy_reply(memory.alloc, &reply)?;
    match arrived.judge(memory.alloc, judgement, reply) {
        Ok(judged) => {
            let kept = judged.keep();
            // for its contract alone: what is kept has the postings of what is filed
            let (_, _, _, _) = kept.view();
            Ok(Draft {
                kept,
                reply: sent,
                book,
            })
        }
        Err(_) => Err(StationFault::Memory),
    }
}
