//! An arrival, as it is filed and answered.

ghost use Rattle.std.specs.Prelude.{◌≡◌, ◌≤◌, ◌++◌, IsTrue, IfOk, OnOk, Ok, map};
ghost use Rattle.x12_envelopes.specs.Header.{header_of};
ghost use Rattle.x12_envelopes.specs.Party.{is_plain_party};
ghost use Rattle.x12_inbound.specs.Filing.{reply_bytes};
ghost use Rattle.x12_inbound.specs.Posting.{posting_view};
ghost use Rattle.x12_profile.specs.Edition.{edition_at};
ghost use Rattle.x12_profile.specs.X12.{x12};
ghost use Rattle.x12_station.specs.History.{Came, posted_by};
ghost use Rattle.x12_station.specs.Record.{owner_view};
ghost use Rattle.x12_station.specs.Standing.{WereAsked};
ghost use Rattle.x12_station.specs.Stored.{filed_in, marks_of};
ghost use Rattle.std.specs.Prelude.{Some};
ghost use Rattle.x12_verify.specs.Arrived.{IsRightArrival, filed_rightly};

use crate::difference::{Difference, Stop};
use crate::due::find_due;
use crate::posted::{Postings, keep, strip};
use std::alloc::{AllocError, Global};
use x12_acks::ReplyHeader;
use x12_envelopes::{Header, Moment, OutlineFault, outline, read_header};
use x12_inbound::{Filed, Kept};
use x12_profile::Edition;
use x12_station::{Loaded, Owner, Records};

/// Whose records are verified, and what they have in force.
#[derive(Clone, Copy)]
pub(crate) struct Holder<'a> {
    pub alloc: Global,
    /// Whose they say that they are.
    pub owner: Owner,
    /// The moment of what no reply dates.
    pub at: Moment,
    /// The last numbers, the agreements and the open submissions.
    pub loaded: &'a Loaded,
}

/// Whether two filed interchanges are the same.
fn is_same_filed(one: &Filed, other: &Filed) -> bool
    ensures bytes { IsTrue result → one.now.bytes.items ≡ other.now.bytes.items }
    ensures reply { IsTrue result → reply_bytes one.now.reply ≡ reply_bytes other.now.reply }
{
    if one.bytes.as_slice() != other.bytes.as_slice() {
        return false;
    }
    match (&one.reply, &other.reply) {
        (Some(one), Some(other)) => one.as_slice() == other.as_slice(),
        (None, None) => true,
        _ => false,
    }
}

/// Tests that an arrival is filed under its own sender and number.
fn test_filed<R: Records>(
    records: &mut R,
    header: &Header,
    number: u64,
    filed: &Filed,
) -> Result<(), Stop>
    requires valid { R.valid records.old }
    requires read { header_of filed.now.bytes.items ≡ Ok header.now }
    ensures asked { WereAsked R.Records records.old records.new }
    ensures filed { let b = filed.now.bytes.items in IsTrue (R.answers records.new) →
        OnOk result (filed_in (R.content records.old) (x12.sender b) (x12.number b)
        ≡ Some (filed_rightly b (reply_bytes filed.now.reply))) }
{
    let Some(found) = records.find_inbound(&header.sender, header.icn)? else {
        return Err(Stop::Differs(Difference::NotFiled(number)));
    };
    if is_same_filed(&found, filed) {
        return Ok(());
    }
    Err(Stop::Differs(Difference::FiledElse(number)))
}

/// The number of the first group of an interchange, and 0 where it has none.
fn first_group(alloc: Global, bytes: &[u8], header: &Header) -> Result<u32, AllocError>
    requires { header_of bytes.now ≡ Ok header.now }
{
    match outline(alloc, bytes, header) {
        Ok(outline) => Ok(outline.groups.first().map_or(0, |group| group.number)),
        Err(OutlineFault::Memory) => Err(AllocError),
        Err(_) => Ok(0),
    }
}

/// The control numbers of a kept reply, of the interchange and of its first group; 0 stands for none.
fn numbers_of(holder: &Holder<'_>, number: u64, filed: &Filed) -> Result<(u32, u32), Stop> {
    let Some(reply) = &filed.reply else {
        return Ok((0, 0));
    };
    let Ok(header) = read_header(reply) else {
        return Err(Stop::Differs(Difference::NoReplyHeader(number)));
    };
    Ok((header.icn, first_group(holder.alloc, reply, &header)?))
}

/// What the header segments of a kept reply say, whose numbers were used; its moment is that of the
/// holder.
fn own_of(holder: &Holder<'_>, number: u64, filed: &Filed) -> Result<ReplyHeader, Stop>
    ensures me { IfOk result (λ own. own.me ≡ holder.now.owner.party) }
    ensures icn { IfOk result (λ own. (own.icn ≤ holder.now.loaded.now.book.interchange)
        × (own.icn ≤ 999999999)) }
    ensures gcn { IfOk result (λ own. (own.gcn ≤ holder.now.loaded.now.book.group) × (own.gcn ≤ 999999999)) }
{
    let (icn, gcn) = numbers_of(holder, number, filed)?;
    if icn > holder.loaded.book.interchange() || gcn > holder.loaded.book.group() {
        return Err(Stop::Differs(Difference::Number(number)));
    }
    Ok(ReplyHeader {
        me: holder.owner.party,
        at: holder.at,
        icn,
        gcn,
    })
}

/// Tests that the postings begin with those of an arrival, and gives those behind them.
fn take_posted<'a>(kept: Kept, postings: Postings<'a>) -> Result<Postings<'a>, Stop>
    ensures { IfOk result (λ more. map posting_view postings.entry.left.now
        ≡ kept.postings ++ map posting_view more.left.now) }
{
    let (_, _, _, theirs) = kept.view();
    let left = strip(postings, theirs);
    kept.discard();
    left
}

/// Tests an arrival by the edition of its number, and gives the postings behind its own.
pub(crate) fn take_arrival<'a, R: Records>(
    records: &mut R,
    holder: &Holder<'_>,
    number: u64,
    filed: &Filed,
    postings: Postings<'a>,
) -> Result<Postings<'a>, Stop>
    requires valid { R.valid records.old }
    requires plain { IsTrue (is_plain_party holder.now.owner.party) }
    ensures asked { WereAsked R.Records records.old records.new }
    ensures right { let by = edition_at (marks_of (owner_view holder.now.owner)) number in
        IsTrue (R.answers records.new) → OnOk result
        (IsRightArrival (R.content records.old) holder.now.owner.party holder.now.loaded.now.book
        by filed.now.bytes.items (reply_bytes filed.now.reply)) }
    ensures posted { let by = edition_at (marks_of (owner_view holder.now.owner)) number in
        IfOk result (λ more. map posting_view postings.entry.left.now
        ≡ posted_by x12 (Came by filed.now.bytes.items (reply_bytes filed.now.reply))
        ++ map posting_view more.left.now) }
{
    let Ok(header) = read_header(&filed.bytes) else {
        return Err(Stop::Differs(Difference::NoHeader(number)));
    };
    test_filed(records, &header, number, filed)?;
    let edition = Edition::at(holder.owner.marks(), number);
    let own = own_of(holder, number, filed)?;
    let Some(due) = find_due(
        holder.alloc,
        &holder.loaded.agreements,
        edition,
        &header,
        &own,
        filed,
    )?
    else {
        return Err(Stop::Differs(Difference::NotDue(number)));
    };
    let kept = keep(holder.alloc, edition, &header, &own, &due, filed)?;
    Ok(take_posted(kept, postings)?)
}
