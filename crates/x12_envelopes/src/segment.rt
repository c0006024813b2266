//! Segments and their elements (X12.6): a segment is an identifier and elements, each behind an
//! element separator, and ends in the terminator.

ghost use Rattle.std.specs.Prelude.{◌≡◌, ◌≤◌, ◌==◌, length, IfSome};
ghost use Rattle.std.specs.List.{count_by, suffix_len};
ghost use Rattle.x12_envelopes.specs.Segment.{trimmed_segment, element_of, count_of_elements};

use crate::cutting::cut_near;
use crate::delimiters::Delims;

/// A segment that was read, with the delimiters of its interchange. Its elements stand behind
/// separators; empty ones at its end may be there or be left off (X12.6).
#[derive(Clone, Copy)]
pub struct Segment<'a> {
    /// Its bytes from the identifier on, without its terminator.
    pub bytes: &'a [u8],
    /// What its elements are cut by.
    pub delims: Delims,
}

/// How many separators bytes hold.
fn separator_count(separator: u8, bytes: &[u8]) -> usize
    ensures { result ≡ count_by (λ b. b == separator) bytes.now }
{
    bytes.iter().filter(|b| **b == separator).count()
}

impl<'a> Segment<'a> {
    /// The identifier of a segment of at most three bytes, where it is all of it and has two at least.
    fn whole_identifier(&self) -> Option<&'a [u8]>
        requires { length self.now.bytes.now ≤ 3 }
        ensures { IfSome result
            (λ name. name.now ≡ element_of self.now.delims self.now.bytes.now 0) }
    {
        let separator = self.delims.element;
        let bytes = self.bytes;
        if bytes.len() < 2 || bytes[0] == separator || bytes[1] == separator {
            return None;
        }
        if bytes[bytes.len() - 1] == separator {
            return None;
        }
        Some(bytes)
    }

    /// The identifier, where it has two or three bytes.
    fn short_identifier(&self) -> Option<&'a [u8]>
        ensures { IfSome result
            (λ name. name.now ≡ element_of self.now.delims self.now.bytes.now 0) }
    {
        let separator = self.delims.element;
        let bytes = self.bytes;
        if bytes.len() < 4 {
            return self.whole_identifier();
        }
        if bytes[0] == separator || bytes[1] == separator {
            return None;
        }
        if bytes[2] == separator {
            return Some(&bytes[..2]);
        }
        if bytes[3] == separator {
            return Some(&bytes[..3]);
        }
        None
    }

    /// The identifier: the bytes in front of the first separator. Reads no further.
    pub fn identifier(&self) -> &'a [u8]
        ensures { result.now ≡ element_of self.now.delims self.now.bytes.now 0 }
    {
        if let Some(identifier) = self.short_identifier() {
            return identifier;
        }
        match cut_near(self.delims.element, self.bytes) {
            Some((identifier, _)) => identifier,
            None => self.bytes,
        }
    }

    /// An element by its place from 1, and the identifier at 0; empty where it is missing. Reads no
    /// further than the element.
    pub fn element(&self, n: usize) -> &'a [u8]
        ensures { result.now ≡ element_of self.now.delims self.now.bytes.now n }
    {
        let separator = self.delims.element;
        match self.bytes.split(|b| *b == separator).nth(n) {
            Some(found) => found,
            None => &[],
        }
    }

    /// Counts the separators that end the segment: its trailing empty elements.
    fn trailing(&self) -> usize
        ensures count { result ≡ suffix_len (λ b. b == self.now.delims.element) self.now.bytes.now }
        ensures within { result ≤ length self.now.bytes.now }
    {
        let separator = self.delims.element;
        self.bytes
            .iter()
            .rev()
            .take_while(|b| **b == separator)
            .count()
    }

    /// The segment's bytes without its trailing empty elements: X12.6 lets them be left off.
    #[tactic(auto, unfolding(crate::specs::Segment::trimmed_segment))]
    fn trimmed(&self) -> &'a [u8]
        ensures { result.now ≡ trimmed_segment self.now.delims self.now.bytes.now }
    {
        let (kept, _) = self.bytes.split_at(self.bytes.len() - self.trailing());
        kept
    }

    /// How many elements follow the identifier, without the trailing empty ones.
    pub fn element_count(&self) -> usize
        ensures { result ≡ count_of_elements self.now.delims self.now.bytes.now }
    {
        separator_count(self.delims.element, self.trimmed())
    }
}

/// Bytes as a segment of an interchange with these delimiters.
pub(crate) fn segment_of<'a>(delims: &Delims, bytes: &'a [u8]) -> Segment<'a>
    ensures delims { result.delims ≡ delims.now }
    ensures bytes { result.bytes.now ≡ bytes.now }
{
    Segment {
        bytes,
        delims: *delims,
    }
}
