//! What is found in memory, one at a time: a submission or an arrival by its number, and a posting.

ghost use Rattle.std.specs.Prelude.{◌≡◌, ◌==◌, IfSome, IfNone, IfOk, None, find, map};
ghost use Rattle.std.specs.Prelude.{option_map, slice_get};
ghost use Rattle.std.specs.Option.{option_or};
ghost use Rattle.x12_acks.specs.Key.{key_view};
ghost use Rattle.x12_inbound.specs.Posting.{posting_view};
ghost use Rattle.x12_inbound.specs.Register.{posted_in};
ghost use Rattle.x12_outbound.specs.Entry.{at_place};
ghost use Rattle.x12_profile.specs.Edition.{Marks};
ghost use Rattle.x12_station.specs.Durable.{item_of_arrival};
ghost use Rattle.x12_station.specs.History.{Submitted};
ghost use Rattle.x12_station.specs.Memory.{arrival_view, numbered_row, ArrivalsRise, SeqsRise};
ghost use Rattle.x12_station.specs.Record.{history_item};

use crate::arrivals::{ArrivalKey, NumberedArrival, copy_filed, copy_posting};
use crate::records::Item;
use crate::submissions::NumberedEntry;
use indexmap::IndexMap;
use std::alloc::{AllocError, Global};
use x12_acks::SetKey;
use x12_inbound::Posting;

/// The index of the submission of this number among submissions and first arrivals.
fn submission_index(rows: &[NumberedEntry], seq: u64) -> Option<usize>
    requires { SeqsRise (map numbered_row rows.now) }
    ensures found { IfSome result (λ i. find (λ n. n.seq == seq) (map numbered_row rows.now)
        ≡ slice_get (map numbered_row rows.now) i) }
    ensures none { IfNone result (find (λ n. n.seq == seq) (map numbered_row rows.now) ≡ None) }
{
    rows.binary_search_by_key(&seq, |row| row.seq).ok()
}

/// A copy of the submission of this number.
fn submitted_item(
    alloc: Global,
    rows: &[NumberedEntry],
    seq: u64,
) -> Result<Option<Item>, AllocError>
    requires { SeqsRise (map numbered_row rows.now) }
    ensures { (marks : Marks) → IfOk result (λ o. option_map (history_item marks seq) o
        ≡ option_map (λ n. Submitted n.entry.bytes)
        (find (λ n. n.seq == seq) (map numbered_row rows.now))) }
{
    let Some(index) = submission_index(rows, seq) else {
        return Ok(None);
    };
    match rows.get(index) {
        Some(row) => Ok(Some(Item::Submitted(Vec::from_slice(alloc, &row.entry.bytes)?))),
        None => Ok(None),
    }
}

/// The index of the first arrival of this number among submissions and first arrivals.
fn arrival_index(arrivals: &IndexMap<ArrivalKey, NumberedArrival>, seq: u64) -> Option<usize>
    requires { ArrivalsRise (map arrival_view arrivals.now.entries) }
    ensures found { IfSome result (λ i.
        find (λ r. r.seq == seq) (map arrival_view arrivals.now.entries)
        ≡ slice_get (map arrival_view arrivals.now.entries) i) }
    ensures none { IfNone result
        (find (λ r. r.seq == seq) (map arrival_view arrivals.now.entries) ≡ None) }
{
    arrivals
        .binary_search_by_key(&seq, |_, arrival| arrival.seq)
        .ok()
}

/// A copy of the first arrival of this number.
fn arrived_item(
    alloc: Global,
    arrivals: &IndexMap<ArrivalKey, NumberedArrival>,
    seq: u64,
) -> Result<Option<Item>, AllocError>
    requires { ArrivalsRise (map arrival_view arrivals.now.entries) }
    ensures { (marks : Marks) → IfOk result (λ o. option_map (history_item marks seq) o
        ≡ option_map (item_of_arrival marks seq)
        (find (λ r. r.seq == seq) (map arrival_view arrivals.now.entries))) }
{
    let Some(index) = arrival_index(arrivals, seq) else {
        return Ok(None);
    };
    match arrivals.get_index(index) {
        Some((_, arrival)) => Ok(Some(Item::Came(copy_filed(alloc, &arrival.filed)?))),
        None => Ok(None),
    }
}

/// A copy of the submission or first arrival of this number.
pub(crate) fn find_numbered(
    alloc: Global,
    rows: &[NumberedEntry],
    arrivals: &IndexMap<ArrivalKey, NumberedArrival>,
    seq: u64,
) -> Result<Option<Item>, AllocError>
    requires submitted { SeqsRise (map numbered_row rows.now) }
    requires arrived { ArrivalsRise (map arrival_view arrivals.now.entries) }
    ensures { (marks : Marks) → IfOk result (λ o. option_map (history_item marks seq) o ≡ option_or
        (option_map (λ n. Submitted n.entry.bytes)
        (find (λ n. n.seq == seq) (map numbered_row rows.now)))
        (option_map (item_of_arrival marks seq)
        (find (λ r. r.seq == seq) (map arrival_view arrivals.now.entries)))) }
{
    match submitted_item(alloc, rows, seq)? {
        Some(item) => Ok(Some(item)),
        None => arrived_item(alloc, arrivals, seq),
    }
}

/// A copy of the posting at this place, from 1.
pub(crate) fn posting_at(
    alloc: Global,
    postings: &[Posting],
    at: u64,
) -> Result<Option<Posting>, AllocError>
    ensures { IfOk result (λ o.
        option_map posting_view o ≡ at_place at (map posting_view postings.now)) }
{
    let Some(index) = at.checked_sub(1) else {
        return Ok(None);
    };
    match postings.get(index as usize) {
        Some(posting) => Ok(Some(copy_posting(alloc, posting)?)),
        None => Ok(None),
    }
}

/// A copy of the posting of this key.
pub(crate) fn posting_of(
    alloc: Global,
    postings: &[Posting],
    key: &SetKey,
) -> Result<Option<Posting>, AllocError>
    ensures { IfOk result (λ o.
        option_map posting_view o ≡ posted_in (map posting_view postings.now) (key_view key.now)) }
{
    for posting in postings {
        if posting.key == *key {
            return Ok(Some(copy_posting(alloc, posting)?));
        }
    }
    Ok(None)
}
