//! Where an interchange or a transaction set stands among those that are kept in order,
//! or is to stand.
ghost use Rattle.std.specs.Prelude.{◌≡◌, ◌≤◌, ◌+◌, ◌-◌, ◌++◌, ◌<◌, ◌∷◌, [], false, None, IsOk};
ghost use Rattle.std.specs.Prelude.{OnOk, OnErr, All, length, map, option_map, take, drop, vec_len};
ghost use Rattle.std.specs.Prelude.{vec_capacity};
ghost use Rattle.x12_acks.specs.Key.{key_view};
ghost use Rattle.x12_inbound.specs.Order.{interchange, interchange_holding, interchange_order};
ghost use Rattle.x12_inbound.specs.Order.{is_same_interchange};
ghost use Rattle.x12_inbound.specs.Filing.{filed_key, filed_under, filed_row_view};
ghost use Rattle.x12_inbound.specs.Posting.{posting_view};
ghost use Rattle.x12_inbound.specs.Arrival.{RiseByKey};
ghost use Rattle.x12_inbound.specs.Place.{IsPlace};
ghost use Rattle.x12_inbound.specs.Register.{RiseByNumber, found_in, posted_in};

use crate::filing::{Filed, FiledRow};
use crate::order::{compare_interchanges, compare_sets};
use crate::posting::Posting;
use std::alloc::AllocError;
use x12_acks::SetKey;
use x12_envelopes::Party;

/// What is filed under this partner and number.
pub(crate) fn row_at<'a>(rows: &'a [FiledRow], partner: &Party, icn: u32) -> Option<&'a Filed>
    requires { RiseByNumber (map filed_row_view rows.now) }
    ensures { option_map (λ f. filed_under partner.now icn f.now) result
        ≡ found_in (map filed_row_view rows.now) (interchange partner.now icn) }
{
    match rows.binary_search_by(|row| compare_interchanges(&row.partner, row.icn, partner, icn)) {
        Ok(at) => Some(&rows[at].filed),
        Err(_) => None,
    }
}

/// The posting of this key.
pub(crate) fn posting_at<'a>(postings: &'a [Posting], key: &SetKey) -> Option<&'a Posting>
    requires { RiseByKey (map posting_view postings.now) }
    ensures { option_map (λ p. posting_view p.now) result
        ≡ posted_in (map posting_view postings.now) (key_view key.now) }
{
    match postings.binary_search_by(|posting| compare_sets(&posting.key, key)) {
        Ok(at) => Some(&postings[at]),
        Err(_) => None,
    }
}

/// Where the interchange of this partner and number is to stand.
pub(crate) fn interchange_place(rows: &[FiledRow], partner: &Party, icn: u32) -> usize
    requires rise { RiseByNumber (map filed_row_view rows.now) }
    requires new { found_in (map filed_row_view rows.now) (interchange partner.now icn) ≡ None }
    ensures { IsPlace (λ f. interchange_order (filed_key f) (interchange partner.now icn))
        (map filed_row_view rows.now) result }
{
    match rows.binary_search_by(|row| compare_interchanges(&row.partner, row.icn, partner, icn)) {
        Ok(at) => at,
        Err(at) => at,
    }
}

/// Where the postings of this partner and number are to stand.
pub(crate) fn postings_place(postings: &[Posting], partner: &Party, icn: u32) -> usize
    requires rise { RiseByKey (map posting_view postings.now) }
    requires new { All
        (λ p. is_same_interchange (interchange_holding p.key) (interchange partner.now icn) ≡ false)
        (map posting_view postings.now) }
    ensures { IsPlace (λ p. interchange_order (interchange_holding p.key) (interchange partner.now icn))
        (map posting_view postings.now) result }
{
    match postings.binary_search_by(|posting| {
        compare_interchanges(&posting.key.sender, posting.key.icn, partner, icn)
    }) {
        Ok(at) => at,
        Err(at) => at,
    }
}

/// Moves the last so many elements to a place, and what stood there behind them.
fn move_last<T>(items: &mut [T], at: usize, count: usize)
    requires { at + count ≤ length items.old }
    ensures { items.new ≡ take at items.old ++ (drop (length items.old - count) items.old
        ++ drop at (take (length items.old - count) items.old)) }
{
    items[at..].rotate_right(count);
}

/// Puts an element at a place, and what stood there behind it. There is room for it.
pub(crate) fn put_at<T>(items: &mut Vec<T>, at: usize, item: T)
    requires room { vec_len items.old < vec_capacity items.old }
    requires within { at ≤ vec_len items.old }
    ensures { items.new.items ≡ take at items.old.items ++ (item ∷ [] ++ drop at items.old.items) }
{
    items.push_reserved(item);
    move_last(items, at, 1);
}

/// Moves all of `more` to a place, and what stood there behind them. An error is want of memory:
/// both are what they were.
pub(crate) fn append_at<T>(
    items: &mut Vec<T>,
    at: usize,
    more: &mut Vec<T>,
) -> Result<(), AllocError>
    requires { at ≤ vec_len items.old }
    ensures ok { OnOk result (items.new.items ≡
        take at items.old.items ++ (more.old.items ++ drop at items.old.items)) }
    ensures reserved { vec_len items.old + vec_len more.old ≤ vec_capacity items.old → IsOk result }

    ensures err { OnErr result (items.new.items ≡ items.old.items) }
    ensures back { OnErr result (more.new.items ≡ more.old.items) }
{
    let count = more.len();
    items.append(more)?;
    move_last(items, at, count);
    Ok(())
}
