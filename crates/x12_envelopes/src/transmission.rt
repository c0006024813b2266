//! A transmission: interchanges one behind the other, with line ends between them (X12.5).

ghost use Rattle.std.specs.Prelude.{◌≡◌, ◌<◌, ◌≤◌, length, [], ◌==◌, IfOk, IfSome, IsNone, None};
ghost use Rattle.std.specs.List.{slice_split};
ghost use Rattle.memchr.specs.Find.{Nowhere};
ghost use Rattle.x12_envelopes.specs.Segment.{behind_line_ends};
ghost use Rattle.x12_envelopes.specs.Transmission.{segment_is_trailer, length_through_trailer};
ghost use Rattle.x12_envelopes.specs.Transmission.{names_trailer, NamesTrailer, SkipsOthers};
ghost use Rattle.x12_envelopes.specs.Transmission.{length_of_first, IsFirst, AreSlices};
ghost use Rattle.x12_envelopes.specs.Writing.{texts};

use crate::cutting::{cut, without_line_ends};
use crate::delimiters::Delims;
use crate::segment::segment_of;
use memchr::{memchr, memrchr};
use std::alloc::{AllocError, Global};

/// Whether a segment's identifier is IEA.
#[tactic(auto, unfolding(crate::specs::Transmission::segment_is_trailer))]
fn is_trailer(delims: &Delims, part: &[u8]) -> bool
    ensures { result ≡ segment_is_trailer delims.now part.now }
{
    segment_of(delims, part).identifier() == b"IEA".as_slice()
}

/// Whether bytes begin with the identifier IEA, and with what ends an identifier.
fn begin_with_trailer(delims: &Delims, bytes: &[u8]) -> bool
    ensures { result ≡ names_trailer delims.now bytes.now }
{
    match bytes {
        [b'I', b'E', b'A', end, ..] => *end == delims.element || *end == delims.terminator,
        _ => false,
    }
}

/// The place of the first identifier IEA, wherever it stands; `None` where there is none.
fn first_name(delims: &Delims, bytes: &[u8]) -> Option<usize>
    ensures none { IsNone result
        → Nowhere (NamesTrailer delims.now bytes.now) 0 (length bytes.now) }
    ensures some { IfSome result (λ k. Nowhere (NamesTrailer delims.now bytes.now) 0 k) }
    ensures within { IfSome result (λ k. k < length bytes.now) }
{
    let mut from = 0;
    loop {
        let (_, rest) = bytes.split_at(from);
        let place = from + memchr(b'I', rest)?;
        let (_, near) = bytes.split_at(place);
        if begin_with_trailer(delims, near) {
            return Some(place);
        }
        from = place + 1;
    }
}

/// Bytes from the segment on in which the first identifier IEA stands: no segment in front of it is
/// a trailer. `None` where there is none, so that no segment is.
fn behind_others<'a>(delims: &Delims, bytes: &'a [u8]) -> Option<&'a [u8]>
    ensures none { IsNone result → length_through_trailer delims.now
        (slice_split (λ b. b == delims.now.terminator) bytes.now) ≡ None }
    ensures some { IfSome result (λ rest. SkipsOthers delims.now bytes.now rest.now) }
{
    let first = first_name(delims, bytes)?;
    let (front, _) = bytes.split_at(first);
    match memrchr(delims.terminator, front) {
        Some(end) => {
            let (_, rest) = bytes.split_at(end + 1);
            Some(rest)
        }
        None => Some(bytes),
    }
}

/// How many bytes stand through the terminator of the first IEA; `None` where there is none.
fn through_trailer(delims: &Delims, bytes: &[u8]) -> Option<usize>
    ensures through { result ≡
        length_through_trailer delims.now
        (slice_split (λ b. b == delims.now.terminator) bytes.now) }
    ensures within { IfSome result (λ n. n ≤ length bytes.now) }
{
    let mut place = 0;
    let mut rest = bytes;
    while let Some(near) = behind_others(delims, rest) {
        let Some((piece, behind)) = cut(delims, near) else {
            return None;
        };
        place = place + (rest.len() - near.len()) + piece.len() + 1;
        if is_trailer(delims, without_line_ends(piece)) {
            return Some(place);
        }
        rest = behind;
    }
    None
}

/// How many bytes the first slice of a text takes.
#[tactic(auto, unfolding(crate::specs::Transmission::length_of_first))]
fn first_length(text: &[u8]) -> usize
    ensures length { result ≡ length_of_first text.now }
    ensures within { result ≤ length text.now }
    ensures some { 0 < length text.now → 0 < result }
{
    if text.len() < 106 || !text.starts_with(b"ISA") {
        return text.len();
    }
    let delims = Delims {
        element: text[3],
        component: text[104],
        terminator: text[105],
    };
    let (_, rest) = text.split_at(106);
    match through_trailer(&delims, rest) {
        Some(count) => 106 + count,
        None => text.len(),
    }
}

/// The first slice of bytes, and what stands behind it; `None` where nothing but line ends is left.
fn first_slice<'a>(bytes: &'a [u8]) -> Option<(&'a [u8], &'a [u8])>
    ensures none { IsNone result → behind_line_ends bytes.now ≡ [] }
    ensures some { IfSome result (λ s. IsFirst (behind_line_ends bytes.now) s.0.now s.1.now) }
    ensures shorter { IfSome result (λ s. length s.1.now < length bytes.now) }
{
    let text = without_line_ends(bytes);
    if text.is_empty() {
        return None;
    }
    Some(text.split_at(first_length(text)))
}

/// Cuts a transmission into its interchanges. CR and LF in front of an interchange are skipped. A
/// slice that begins with the 106 bytes of a header, `ISA` in front, ends behind the terminator of
/// the first segment `IEA` after it, by the delimiters at its own offsets 3 and 105; a rest without
/// one, or that begins otherwise, is one slice. The slices stand in their order; none overlaps
/// another.
pub fn split_transmission<'a>(alloc: Global, bytes: &'a [u8]) -> Result<Vec<&'a [u8]>, AllocError>
    ensures slices { IfOk result (λ v. AreSlices (texts v.items) bytes.now) }
{
    let mut slices = Vec::new(alloc);
    let mut rest = bytes;
    while let Some((slice, behind)) = first_slice(rest) {
        slices.push(slice)?;
        rest = behind;
    }
    Ok(slices)
}
