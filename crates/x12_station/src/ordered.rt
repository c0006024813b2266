//! What is entered of orders that were written: what was written is read back as it was meant, so its
//! bytes aren't read again.

ghost use Rattle.std.specs.Prelude.{◌≡◌, ◌≤◌, IfOk, IsTrue, length, map};
ghost use Rattle.std.specs.List.{enumerate_from};
ghost use Rattle.std.specs.Arc.{arc_slice_items};
ghost use Rattle.x12_envelopes.specs.Party.{is_plain_party};
ghost use Rattle.x12_outbound.specs.Entry.{entry_row, set_row};
ghost use Rattle.x12_profile.specs.Interchange.{Order};
ghost use Rattle.x12_station.specs.Ordering.{order_view};
ghost use Rattle.x12_station.specs.Station.{Station};
ghost use Rattle.x12_station.specs.working.Orders.{IsOrdered, pending_order};
ghost use Rattle.x12_station.specs.working.Prepared.{Knows, MayEnter};

use crate::cached::Cached;
use crate::ordering::Body;
use crate::prepared::Prepared;
use std::alloc::{AllocError, Global};
use std::sync::ArcSlice;
use x12_envelopes::{Moment, Party, SetNo, header_is_read_back, outline_is_read_back, zero_padded};
use x12_outbound::{Entry, EntryGroup, EntrySet, Fate};
use x12_profile::orders_are_submitted;

/// The entry of the order at this place: its transaction set is pending.
fn set_of_order(place: u32) -> EntrySet
    requires { place ≤ 9999 }
    ensures { (o : Order) → set_row result ≡ pending_order (place, o) }
{
    let number = SetNo::new(&zero_padded::<4>(place)).unwrap();
    EntrySet::new(number, Fate::Pending)
}

/// The entries of orders, numbered 0001 upwards.
fn sets_of_orders(alloc: Global, orders: &[Body]) -> Result<Vec<EntrySet>, AllocError>
    requires { length orders.now ≤ 400 }
    ensures { IfOk result (λ v. map set_row v.items
        ≡ map pending_order (enumerate_from 1 (map order_view orders.now))) }
{
    let mut sets = Vec::with_capacity(alloc, orders.len())?;
    let mut place = 1;
    for _body in orders {
        sets.push(set_of_order(place))?;
        place += 1;
    }
    Ok(sets)
}

/// What is to be entered of orders that were written as these bytes.
pub(crate) fn prepared_orders(
    memory: &Cached,
    to: Party,
    at: &Moment,
    orders: &[Body],
    bytes: Vec<u8>,
) -> Result<Prepared, AllocError>
    requires plain { IsTrue (is_plain_party memory.now.me) }
    requires ordered { (s : Station) → Knows memory.now s →
        IsOrdered s to at.now (map order_view orders.now) bytes.items }
    ensures may { IfOk result (λ p. MayEnter memory.now p.book (entry_row p.entry)) }
    ensures bytes { IfOk result (λ p. arc_slice_items p.entry.bytes ≡ bytes.items) }
{
    // laws: what is written of orders is a submission, and is read back as it was meant
    orders_are_submitted();
    header_is_read_back();
    outline_is_read_back();
    let (icn, gcn) = (memory.book.interchange() + 1, memory.book.group() + 1);
    let mut book = memory.book;
    match book.raise(icn, &[gcn]) {
        Ok(()) => {}
        Err(_) => unreachable!(),
    }
    let mut groups = Vec::with_capacity(memory.alloc, 1)?;
    groups.push(EntryGroup {
        functional: *b"PO",
        gcn,
        sets: sets_of_orders(memory.alloc, orders)?,
    })?;
    let entry = Entry {
        icn,
        partner: to,
        bytes: ArcSlice::from_vec(bytes)?,
        groups,
    };
    Ok(Prepared { entry, book })
}
