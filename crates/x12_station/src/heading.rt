//! What is written of orders: one interchange with one functional group PO of transaction sets 850
//! (X12.5, X12.6).

ghost use Rattle.std.specs.Prelude.{◌≡◌, ◌≤◌, ◌∷◌, [], codes, length, map, IfOk};
ghost use Rattle.std.specs.List.{enumerate_from};
ghost use Rattle.x12_numbers.specs.Book.{Numbers};
ghost use Rattle.x12_envelopes.specs.Envelope.{envelope_view, set_written};
ghost use Rattle.x12_envelopes.specs.Party.{identifier_of_party};
ghost use Rattle.x12_envelopes.specs.Writing.{texts};
ghost use Rattle.x12_profile.specs.Order.{order_interchange, order_set};
ghost use Rattle.x12_station.specs.Ordering.{order_view};
ghost use Rattle.x12_station.specs.working.Heading.{AreDigits, set_number};

use crate::ordering::{Body, DELIMS};
use itoa::Buffer;
use std::alloc::{AllocError, Global};
use x12_envelopes::{Envelope, GroupEnvelope, Moment, Party, SetEnvelope, zero_padded};

/// What stands in digits in GS and ST of orders.
#[derive(Drop)]
pub(crate) struct Digits {
    /// GS04, CCYYMMDD.
    date: [u8; 8],
    /// GS05, HHMM.
    time: [u8; 4],
    /// GS06.
    group: Vec<u8>,
    /// ST02 of each order.
    sets: Vec<[u8; 4]>,
}

/// ST02 of orders: 0001 upwards.
fn set_numbers(alloc: Global, orders: &[Body]) -> Result<Vec<[u8; 4]>, AllocError>
    requires { length orders.now ≤ 400 }
    ensures { IfOk result (λ v.
        v.items ≡ map set_number (enumerate_from 1 (map order_view orders.now))) }
{
    let mut numbers = Vec::with_capacity(alloc, orders.len())?;
    let mut place = 1;
    for _body in orders {
        numbers.push(zero_padded::<4>(place))?;
        place += 1;
    }
    Ok(numbers)
}

/// A header of these elements.
fn header<'a>(alloc: Global, elements: &[&'a [u8]]) -> Result<Vec<&'a [u8]>, AllocError>
    ensures { IfOk result (λ v. v.items ≡ elements.now) }
{
    Vec::from_slice(alloc, elements)
}

/// An order as the transaction set of this number (ST02).
fn set_of<'a>(
    alloc: Global,
    number: &'a [u8; 4],
    body: &'a Body,
) -> Result<SetEnvelope<'a>, AllocError>
    ensures { IfOk result (λ s. set_written s ≡ record {
      header = codes "ST" ∷ codes "850" ∷ number.now ∷ [];
      segments = order_view body.now;
    }) }
{
    Ok(SetEnvelope {
        header: header(alloc, &[b"ST", b"850", number])?,
        segments: &body.segments,
    })
}

/// Orders as transaction sets of these numbers.
fn sets_of<'a>(
    alloc: Global,
    numbers: &'a [[u8; 4]],
    orders: &'a [Body],
) -> Result<Vec<SetEnvelope<'a>>, AllocError>
    requires { numbers.now ≡ map set_number (enumerate_from 1 (map order_view orders.now)) }
    ensures { IfOk result (λ v. map set_written v.items
        ≡ map order_set (enumerate_from 1 (map order_view orders.now))) }
{
    let mut sets = Vec::with_capacity(alloc, orders.len())?;
    for (index, body) in orders.iter().enumerate() {
        sets.push(set_of(alloc, &numbers[index], body)?)?;
    }
    Ok(sets)
}

/// What stands in the control segments of orders.
#[derive(Clone, Copy)]
pub(crate) struct Heading<'a> {
    pub me: &'a Party,
    pub to: &'a Party,
    pub at: &'a Moment,
    pub icn: u32,
    pub gcn: u32,
}

impl<'a> Heading<'a> {
    /// The digits of GS and of each ST.
    pub(crate) fn digits(&self, alloc: Global, orders: &[Body]) -> Result<Digits, AllocError>
        requires { length orders.now ≤ 400 }
        ensures { let h = self.now in
            IfOk result (AreDigits h.at.now h.gcn (map order_view orders.now)) }
    {
        let mut buffer = Buffer::new();
        let group = buffer.format(self.gcn).as_bytes();
        Ok(Digits {
            date: self.at.date(),
            time: self.at.time(),
            group: Vec::from_slice(alloc, group)?,
            sets: set_numbers(alloc, orders)?,
        })
    }

    /// GS of orders.
    fn group_header(&self, alloc: Global, digits: &'a Digits) -> Result<Vec<&'a [u8]>, AllocError>
        ensures { let h = self.now in let d = digits.now in IfOk result (λ v. texts v.items
            ≡ codes "GS" ∷ codes "PO" ∷ identifier_of_party h.me.now
            ∷ identifier_of_party h.to.now ∷ d.date ∷ d.time ∷ d.group.items
            ∷ codes "X" ∷ codes "004010" ∷ []) }
    {
        header(
            alloc,
            &[
                b"GS",
                b"PO",
                self.me.identifier(),
                self.to.identifier(),
                &digits.date,
                &digits.time,
                &digits.group,
                b"X",
                b"004010",
            ],
        )
    }

    /// The interchange of orders, whose digits are these.
    #[tactic(auto, unfolding(x12_profile::specs::Order::order_interchange))]
    pub(crate) fn envelope(
        &self,
        alloc: Global,
        digits: &'a Digits,
        orders: &'a [Body],
    ) -> Result<Envelope<'a>, AllocError>
        requires { AreDigits self.now.at.now self.now.gcn (map order_view orders.now) digits.now }
        ensures { let h = self.now in
            let book : Numbers = record { interchange = h.icn; group = h.gcn } in
            IfOk result (λ e. envelope_view e
            ≡ order_interchange h.me.now h.to.now h.at.now book (map order_view orders.now)) }
    {
        let mut groups = Vec::new(alloc);
        groups.push(GroupEnvelope {
            header: self.group_header(alloc, digits)?,
            sets: sets_of(alloc, &digits.sets, orders)?,
        })?;
        Ok(Envelope {
            delims: DELIMS,
            sender: *self.me,
            receiver: *self.to,
            at: *self.at,
            icn: self.icn,
            ack: b'0',
            usage: b'P',
            tas: Vec::new(alloc),
            groups,
        })
    }
}
