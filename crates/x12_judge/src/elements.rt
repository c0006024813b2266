//! The elements of one segment, asked for at rising places (X12.6).

ghost use Rattle.std.specs.Prelude.{◌≡◌, ◌+◌, ℕ};
ghost use Rattle.x12_envelopes.specs.Segment.{element_of};

use crate::element::front_len;
use x12_envelopes::{Delims, Segment};

/// Cuts bytes behind their first element: the element, and the bytes of those that follow it; none
/// where no separator stands.
fn cut_element<'a>(delims: &Delims, bytes: &'a [u8]) -> (&'a [u8], &'a [u8])
    ensures first { result.0.now ≡ element_of delims.now bytes.now 0 }
    ensures rest { (n : ℕ) → element_of delims.now result.1.now n
        ≡ element_of delims.now bytes.now (n + 1) }
{
    let (element, ended) = bytes.split_at(front_len(bytes, delims.element));
    match ended.split_first() {
        Some((_, behind)) => (element, behind),
        None => (element, &[]),
    }
}

/// The bytes behind as many elements; none where there are no more.
fn behind_elements<'a>(delims: &Delims, bytes: &'a [u8], count: usize) -> &'a [u8]
    ensures { (n : ℕ) → element_of delims.now result.now n
        ≡ element_of delims.now bytes.now (n + count) }
{
    let mut rest = bytes;
    for _ in 0..count {
        let (_, behind) = cut_element(delims, rest);
        rest = behind;
    }
    rest
}

/// The elements of a segment. Where they are asked for at rising places, each of its bytes is
/// looked at once.
#[derive(Clone, Copy)]
pub(crate) struct Elements<'a> {
    /// The segment.
    pub(crate) read: Segment<'a>,
    /// Its bytes from an element on.
    rest: &'a [u8],
    /// The place of that element; the identifier's is 0.
    place: usize,
    ghost stands: { (n : ℕ) → element_of read.delims rest.now n
        ≡ element_of read.delims read.bytes.now (n + place) },
}

impl<'a> Elements<'a> {
    /// The elements of a segment, from its identifier on.
    pub(crate) fn of(read: &Segment<'a>) -> Elements<'a>
        ensures { result.read ≡ read.now }
    {
        Elements {
            read: *read,
            rest: read.bytes,
            place: 0,
        }
    }

    /// The element at a place, and the identifier at 0; empty where it is missing. It is looked for
    /// behind the element that was asked for before, and from the identifier on where it stands in
    /// front of that one.
    pub(crate) fn at(&mut self, place: u8) -> &'a [u8]
        ensures element { result.now
            ≡ element_of self.old.read.delims self.old.read.bytes.now place }
        ensures same { self.new.read ≡ self.old.read }
    {
        let place = usize::from(place);
        if place < self.place {
            return self.read.element(place);
        }
        let rest = behind_elements(&self.read.delims, self.rest, place - self.place);
        let (element, behind) = cut_element(&self.read.delims, rest);
        *self = Elements {
            read: self.read,
            rest: behind,
            place: place + 1,
        };
        element
    }
}
