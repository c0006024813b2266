//! Orders, written before they are entered: the refusals S1, S2, S3, S9 and S11, in the order of
//! the table.

ghost use Rattle.std.specs.Prelude.{◌≡◌, ◌+◌, ◌≤◌, None, IfOk, IfErr, OnOk, IsTrue, map, min};
ghost use Rattle.std.specs.Prelude.{MatchResult, length};
ghost use Rattle.std.specs.List.{list_all};
ghost use Rattle.x12_numbers.specs.declared.book.TheConstants.{MAX_CONTROL_NUMBER};
ghost use Rattle.x12_envelopes.specs.Party.{is_plain_party};
ghost use Rattle.x12_profile.specs.Order.{is_order};
ghost use Rattle.x12_station.specs.Fault.{orders_fault};
ghost use Rattle.x12_station.specs.Ordering.{order_view};
ghost use Rattle.x12_station.specs.working.Orders.{IsOrdered, lacks_number, orders_row};
ghost use Rattle.x12_station.specs.working.Prepared.{IsRowOrMemory, Knows};
ghost use Rattle.x12_station.specs.Station.{Station};

use crate::cached::Cached;
use crate::fault::StationFault;
use crate::heading::Heading;
use crate::ordering::Body;
use crate::prepared::LAST_ITEM;
use x12_envelopes::{MAX_INTERCHANGE_BYTES, Moment, Party, write, written_len};
use x12_numbers::MAX_CONTROL_NUMBER;
use x12_profile::orders_are_submitted;

/// How many orders an interchange may hold.
const MAX_ORDERS: usize = 400;

/// Whether each of the orders can be written as segments.
fn can_be_written(orders: &[Body]) -> bool
    ensures { result ≡ list_all is_order (map order_view orders.now) }
{
    for order in orders {
        if !order.is_order() {
            return false;
        }
    }
    true
}

/// The receiver is another station (S1), and there are orders (S2) that can be written to it (S3),
/// at most 400 (S9).
fn check_orders(me: &Party, to: &Party, orders: &[Body]) -> Result<(), StationFault>
    ensures row { let row = orders_row me.now to.now (map order_view orders.now) in
        MatchResult result (λ _. row ≡ None) (λ f. IsRowOrMemory row f) }
    ensures few { OnOk result (length orders.now ≤ 400) }
{
    if *to == *me {
        return Err(StationFault::OwnAddress);
    }
    if orders.is_empty() {
        return Err(StationFault::Empty);
    }
    if !to.is_plain() || !can_be_written(orders) {
        return Err(StationFault::BadText);
    }
    if orders.len() > MAX_ORDERS {
        return Err(StationFault::TooLarge);
    }
    Ok(())
}

/// The number after the last, or the greatest that may be written.
fn next_within(last: u32) -> u32
    requires { last ≤ MAX_CONTROL_NUMBER }
    ensures { result ≡ min (last + 1) MAX_CONTROL_NUMBER }
{
    if last == MAX_CONTROL_NUMBER {
        return MAX_CONTROL_NUMBER;
    }
    last + 1
}

/// Whether no number is left to write orders under, or to give a submission.
fn is_exhausted(memory: &Cached) -> bool
    ensures { result ≡ lacks_number memory.now }
{
    memory.book.interchange() >= MAX_CONTROL_NUMBER
        || memory.book.group() >= MAX_CONTROL_NUMBER
        || memory.seq >= LAST_ITEM
}

/// Writes orders as the interchange that is to be submitted.
///
/// S1, S2, S3, S9 and S11, the first that holds; S14.
pub(crate) fn write_orders(
    memory: &Cached,
    to: &Party,
    at: &Moment,
    orders: &[Body],
) -> Result<Vec<u8>, StationFault>
    requires { IsTrue (is_plain_party memory.now.me) }
    ensures ordered { IfOk result (λ x. (s : Station) → Knows memory.now s →
        IsOrdered s to.now at.now (map order_view orders.now) x.items) }
    ensures refused { IfErr result (λ f. (s : Station) → Knows memory.now s →
        IsRowOrMemory (orders_fault s to.now at.now (map order_view orders.now)) f) }
{
    // law: what is written of orders is a submission
    orders_are_submitted();
    check_orders(&memory.me, to, orders)?;
    let heading = Heading {
        me: &memory.me,
        to,
        at,
        icn: next_within(memory.book.interchange()),
        gcn: next_within(memory.book.group()),
    };
    let digits = heading.digits(memory.alloc, orders)?;
    let envelope = heading.envelope(memory.alloc, &digits, orders)?;
    if written_len(&envelope) > MAX_INTERCHANGE_BYTES {
        return Err(StationFault::TooLarge);
    }
    if is_exhausted(memory) {
        return Err(StationFault::Exhausted);
    }
    Ok(write(memory.alloc, &envelope)?)
}
