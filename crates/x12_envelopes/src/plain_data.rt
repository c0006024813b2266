//! Segments of data that their first byte tells: the outline passes them without a look at their
//! identifiers.

ghost use Rattle.std.specs.Prelude.{◌≡◌, ◌≤◌, length, true, IfSome};
ghost use Rattle.x12_envelopes.specs.PlainData.{letter_begins_data, bytes_begin_data, IsNextData};

use crate::content::Kind;
use crate::cutting::{cut, cut_short, line_ends};
use crate::delimiters::Delims;
use crate::fault::has_low;
use crate::segment::segment_of;
use crate::source::Source;

/// Whether a byte is a capital letter with which no identifier of a control segment begins.
fn is_data_letter(b: u8) -> bool
    ensures { result ≡ letter_begins_data b }
{
    b.is_ascii_uppercase() && !matches!(b, b'G' | b'I' | b'S' | b'T')
}

/// Whether the first byte tells that bytes begin with a segment of data.
fn begin_with_data(delims: &Delims, bytes: &[u8]) -> bool
    ensures { result ≡ bytes_begin_data delims.now bytes.now }
{
    match bytes.first() {
        Some(first) => {
            is_data_letter(*first) && *first != delims.element && *first != delims.terminator
        }
        None => false,
    }
}

impl<'a> Source<'a> {
    /// The same where bytes below 0x20 may stand: line ends in front of the segment are skipped, and
    /// it is searched.
    fn behind_any_data(&self, at: usize) -> Option<usize>
        requires within { at ≤ length self.now.input.now }
        ensures next { IfSome result (λ end. IsNextData self.now at end) }
    {
        let (_, rest) = self.input.split_at(at);
        let (piece, _) = cut(&self.delims, rest)?;
        let (_, part) = piece.split_at(line_ends(piece));
        if !begin_with_data(&self.delims, part) || has_low(part) {
            return None;
        }
        Some(at + piece.len() + 1)
    }

    /// The same where no byte below 0x20 stands, and the first byte doesn't tell: by the identifier.
    fn behind_named_data(&self, at: usize) -> Option<usize>
        requires within { at ≤ length self.now.input.now }
        requires plain { self.now.plain ≡ true }
        ensures next { IfSome result (λ end. IsNextData self.now at end) }
    {
        let (_, rest) = self.input.split_at(at);
        if rest.starts_with(b"SE") {
            return None;
        }
        let (piece, _) = cut_short(&self.delims, rest)?;
        let (_, part) = piece.split_at(line_ends(piece));
        match segment_of(&self.delims, part).kind() {
            Kind::Data => Some(at + piece.len() + 1),
            _ => None,
        }
    }

    /// The place behind the next segment, from a place on, where its first byte tells that it is one
    /// of data, and it has no byte below 0x20. `None` says nothing of the segment.
    pub(crate) fn behind_data(&self, at: usize) -> Option<usize>
        requires within { at ≤ length self.now.input.now }
        ensures next { IfSome result (λ end. IsNextData self.now at end) }
    {
        if !self.plain {
            return self.behind_any_data(at);
        }
        let (_, rest) = self.input.split_at(at);
        if !begin_with_data(&self.delims, rest) {
            return self.behind_named_data(at);
        }
        let (piece, _) = cut(&self.delims, rest)?;
        Some(at + piece.len() + 1)
    }
}
