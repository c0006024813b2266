//! An interchange that is being read, and a segment that was found in it.

ghost use Rattle.std.specs.Prelude.{◌≡◌, ◌≤◌, length, true, false, nat_lt};
ghost use Rattle.std.specs.List.{list_any};

use crate::content::Kind;
use crate::delimiters::Delims;

/// An interchange that is being read.
#[derive(Clone, Copy)]
pub(crate) struct Source<'a> {
    /// Its bytes, from the `I` of ISA on.
    pub(crate) input: &'a [u8],
    /// The delimiters that its header shows.
    pub(crate) delims: Delims,
    /// Whether it holds no byte below 0x20, so that no segment has to be searched for control bytes.
    pub(crate) plain: bool,
    ghost small: { length input.now ≤ 1048576 },
    ghost none_low: { plain ≡ true → list_any (λ b. nat_lt b 32) input.now ≡ false },
}

/// A segment that was found.
#[derive(Clone, Copy)]
pub(crate) struct FoundSegment<'a> {
    /// Its offset from the `I` of ISA.
    pub(crate) at: usize,
    /// Its bytes, without its terminator and without the line ends in front.
    pub(crate) part: &'a [u8],
    /// Its kind.
    pub(crate) kind: Kind,
}
