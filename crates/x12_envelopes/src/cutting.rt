//! Cutting bytes into segments (X12.6): at terminators, and behind the line ends in front of each;
//! the segments of a transaction set, one after the other.

ghost use Rattle.std.specs.Prelude.{◌≡◌, ◌≤◌, ◌<◌, ◌+◌, ◌==◌, ◌∷◌, [], length, map, nat_lt};
ghost use Rattle.std.specs.Prelude.{IfSome, IsNone};
ghost use Rattle.std.specs.Iterator.{YieldsFirstBy, item_count};
ghost use Rattle.std.specs.List.{slice_split, prefix_len, list_all};
ghost use Rattle.x12_envelopes.specs.Byte.{byte_is_line_end};
ghost use Rattle.x12_envelopes.specs.Segment.{behind_line_ends, parts_of};
ghost use Rattle.x12_envelopes.specs.Cutting.{delimited, delimited_view, segments_left};
ghost use Rattle.x12_envelopes.specs.Reading.{IsCut};

use crate::content::Level;
use crate::delimiters::{Delims, is_line_end};
use crate::remaining::element_len;
use crate::segment::Segment;
use crate::shape::SetView;
use memchr::memchr;

/// How many line ends are skipped together where there are many.
const BLOCK: usize = 64;

/// How many bytes are looked at one by one before a search of blocks begins.
const NEAR: usize = 16;

/// Whether all bytes are line ends. Looks at each byte, with no branch.
fn are_line_ends(bytes: &[u8]) -> bool
    ensures { result ≡ list_all byte_is_line_end bytes.now }
{
    let mut all = true;
    for b in bytes {
        all &= is_line_end(*b);
    }
    all
}

/// What stands behind the whole blocks of line ends in front of bytes.
fn behind_blocks<'a>(bytes: &'a [u8]) -> &'a [u8]
    ensures within { length result.now ≤ length bytes.now }
    ensures skipped { prefix_len byte_is_line_end bytes.now + length result.now
        ≡ length bytes.now + prefix_len byte_is_line_end result.now }
{
    let mut rest = bytes;
    while let Some((block, behind)) = rest.split_at_checked(BLOCK) {
        if !are_line_ends(block) {
            return rest;
        }
        rest = behind;
    }
    rest
}

/// Counts the line ends in front of bytes, one by one.
fn leading(bytes: &[u8]) -> usize
    ensures count { result ≡ prefix_len byte_is_line_end bytes.now }
    ensures within { result ≤ length bytes.now }
{
    bytes.iter().take_while(|b| is_line_end(**b)).count()
}

/// Counts the line ends in front of bytes, where there may be many.
#[inline(never)]
fn many_line_ends(bytes: &[u8]) -> usize
    ensures count { result ≡ prefix_len byte_is_line_end bytes.now }
    ensures within { result ≤ length bytes.now }
{
    let rest = behind_blocks(bytes);
    bytes.len() - rest.len() + leading(rest)
}

/// Whether bytes begin with a line end.
fn begin_with_line_end(bytes: &[u8]) -> bool
    ensures { result ≡ nat_lt 0 (prefix_len byte_is_line_end bytes.now) }
{
    match bytes.first() {
        Some(first) => is_line_end(*first),
        None => false,
    }
}

/// Counts the line ends, CR and LF, in front of bytes. Mostly there are none.
pub(crate) fn line_ends(bytes: &[u8]) -> usize
    ensures count { result ≡ prefix_len byte_is_line_end bytes.now }
    ensures within { result ≤ length bytes.now }
{
    if begin_with_line_end(bytes) {
        return many_line_ends(bytes);
    }
    0
}

/// Bytes without the line ends in front of them.
pub(crate) fn without_line_ends<'a>(bytes: &'a [u8]) -> &'a [u8]
    ensures { result.now ≡ behind_line_ends bytes.now }
{
    let (_, text) = bytes.split_at(line_ends(bytes));
    text
}

/// Cuts bytes at the first that is this one: what stands before it, and what stands behind it; `None`
/// where there is none.
pub fn cut_at<'a>(byte: u8, bytes: &'a [u8]) -> Option<(&'a [u8], &'a [u8])>
    ensures none { IsNone result → slice_split (λ b. b == byte) bytes.now ≡ bytes.now ∷ [] }
    ensures some { IfSome result (λ c. IsCut byte bytes.now c.0.now c.1.now) }
    ensures shorter { IfSome result (λ c. length c.1.now < length bytes.now) }
{
    let end = memchr(byte, bytes)?;
    let (piece, ended) = bytes.split_at(end);
    let (_, behind) = ended.split_at(1);
    Some((piece, behind))
}

/// The same, where the byte mostly stands near: the first bytes are looked at one by one.
pub(crate) fn cut_near<'a>(byte: u8, bytes: &'a [u8]) -> Option<(&'a [u8], &'a [u8])>
    ensures none { IsNone result → slice_split (λ b. b == byte) bytes.now ≡ bytes.now ∷ [] }
    ensures some { IfSome result (λ c. IsCut byte bytes.now c.0.now c.1.now) }
{
    let (near, _) = bytes.split_at(usize::min(NEAR, bytes.len()));
    let end = element_len(byte, near);
    if end == bytes.len() {
        return None;
    }
    if end == near.len() {
        return cut_at(byte, bytes);
    }
    let (piece, ended) = bytes.split_at(end);
    let (_, behind) = ended.split_at(1);
    Some((piece, behind))
}

/// Cuts bytes at their first terminator: what stands before it, and what stands behind it;
/// `None` where there is no terminator.
pub(crate) fn cut<'a>(delims: &Delims, bytes: &'a [u8]) -> Option<(&'a [u8], &'a [u8])>
    ensures none { IsNone result
        → slice_split (λ b. b == delims.now.terminator) bytes.now ≡ bytes.now ∷ [] }
    ensures some { IfSome result (λ c. IsCut delims.now.terminator bytes.now c.0.now c.1.now) }
{
    cut_at(delims.terminator, bytes)
}

/// Cuts bytes at their first terminator, where the segment is mostly a short one.
pub(crate) fn cut_short<'a>(delims: &Delims, bytes: &'a [u8]) -> Option<(&'a [u8], &'a [u8])>
    ensures none { IsNone result
        → slice_split (λ b. b == delims.now.terminator) bytes.now ≡ bytes.now ∷ [] }
    ensures some { IfSome result (λ c. IsCut delims.now.terminator bytes.now c.0.now c.1.now) }
{
    cut_near(delims.terminator, bytes)
}

/// Cuts bytes at their first terminator, by where they stand: inside of a group the next segment is
/// mostly a short one.
pub(crate) fn cut_inside<'a>(
    level: Level,
    delims: &Delims,
    bytes: &'a [u8],
) -> Option<(&'a [u8], &'a [u8])>
    ensures none { IsNone result
        → slice_split (λ b. b == delims.now.terminator) bytes.now ≡ bytes.now ∷ [] }
    ensures some { IfSome result (λ c. IsCut delims.now.terminator bytes.now c.0.now c.1.now) }
{
    match level {
        Level::InGroup | Level::InSet => cut_short(delims, bytes),
        Level::Front | Level::Between => cut(delims, bytes),
    }
}

/// Cuts bytes at the end of their first segment: the segment without its terminator and without the
/// line ends in front, and what stands behind its terminator; `None` where there is no terminator
/// (X12.6).
pub fn cut_segment<'a>(delims: &Delims, bytes: &'a [u8]) -> Option<(&'a [u8], &'a [u8])>
    ensures none { IsNone result → parts_of delims.now bytes.now ≡ [] }
    ensures some { let d = delims.now in
        IfSome result (λ c. parts_of d bytes.now ≡ c.0.now ∷ parts_of d c.1.now) }
    ensures few { length (parts_of delims.now bytes.now) ≤ length bytes.now }
{
    let (piece, behind) = cut(delims, bytes)?;
    Some((without_line_ends(piece), behind))
}

/// The same, where the segment is mostly one of a few bytes.
pub fn cut_short_segment<'a>(delims: &Delims, bytes: &'a [u8]) -> Option<(&'a [u8], &'a [u8])>
    ensures none { IsNone result → parts_of delims.now bytes.now ≡ [] }
    ensures some { let d = delims.now in
        IfSome result (λ c. parts_of d bytes.now ≡ c.0.now ∷ parts_of d c.1.now) }
    ensures few { length (parts_of delims.now bytes.now) ≤ length bytes.now }
{
    let (piece, rest) = cut_short(delims, bytes)?;
    Some((without_line_ends(piece), rest))
}

/// The segments of a transaction set that are still to come, each without its terminator and
/// without the line ends in front.
#[derive(Clone, Copy)]
pub struct Segments<'a> {
    delims: Delims,
    bytes: &'a [u8],
}

impl<'a> Iterator for Segments<'a> {
    type Item = Segment<'a>;

    ghost next_gives = { YieldsFirstBy delimited_view segments_left };

    ghost remaining = { item_count segments_left };

    fn next(&mut self) -> Option<Segment<'a>> {
        let (bytes, behind) = cut_segment(&self.delims, self.bytes)?;
        self.bytes = behind;
        Some(Segment {
            bytes,
            delims: self.delims,
        })
    }
}

impl<'a> SetView<'a> {
    /// The segments of a transaction set from ST on, for the delimiters of its interchange.
    pub fn segments(&self, delims: &Delims) -> Segments<'a>
        ensures segments { segments_left result
            ≡ map (delimited delims.now) (parts_of delims.now self.now.bytes.now) }
        ensures few { length (parts_of delims.now self.now.bytes.now) ≤ length self.now.bytes.now }
    {
        Segments {
            delims: *delims,
            bytes: self.bytes,
        }
    }
}
