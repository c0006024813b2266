//! The slices of a transmission, and the interchanges that they are where their header can be read.

ghost use Rattle.std.specs.Prelude.{◌≡◌, Ok};
ghost use Rattle.x12_envelopes.specs.Header.{header_of};

use x12_envelopes::Header;

/// A slice of a transmission, where it stands.
#[derive(Clone, Copy)]
pub(crate) struct Slice<'a> {
    /// Its place in the input, from 1.
    pub place: usize,
    /// Its bytes.
    pub bytes: &'a [u8],
}

/// A slice whose header was read.
#[derive(Clone, Copy)]
pub(crate) struct Interchange<'r, 'a> {
    /// Its place in the input, from 1.
    pub place: usize,
    /// Its bytes.
    pub bytes: &'a [u8],
    /// Its header.
    pub header: &'r Header,
    ghost read: { header_of bytes.now ≡ Ok header.now },
}

impl<'a> Slice<'a> {
    /// The interchange that it is, with its header.
    pub(crate) fn with<'r>(&self, header: &'r Header) -> Interchange<'r, 'a>
        requires { header_of self.now.bytes.now ≡ Ok header.now }
        ensures bytes { result.bytes.now ≡ self.now.bytes.now }
        ensures header { result.header.now ≡ header.now }
    {
        Interchange {
            place: self.place,
            bytes: self.bytes,
            header,
        }
    }
}
