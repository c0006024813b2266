//! The numbers of an interchange that was read (X12.5): a law, as a function that does nothing.

ghost use Rattle.x12_envelopes.specs.Readable.{ReadIsReadable, HeaderNumberIsReadable};

/// The law that the numbers of groups and sets in an outline can be read, and that the number of a
/// header is the one that its nine digits spell.
pub fn numbers_are_readable()
    ensures readable { ReadIsReadable }
    ensures header { HeaderNumberIsReadable }
{}
