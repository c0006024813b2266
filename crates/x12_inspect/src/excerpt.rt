//! On a terminal: carets below bytes that are wrong, and the segment that a note is of.

use crate::piece::{Ink, say};
use crate::printing::Noted;
use crate::style::Look;
use crate::text::{Text, is_hidden};
use std::str;
use x12_envelopes::{Delims, cut_at};
use x12_judge::SetNote;
use x12_segments::without_line_ends;

/// The most bytes that are shown in front of what is wrong, and from it on.
const AROUND: usize = 40;

/// How many columns a letter is shown in.
fn columns(number: u32) -> usize {
    if !is_hidden(number) {
        1
    } else if number < 0x100 {
        4
    } else {
        8
    }
}

/// How many columns bytes are shown in, which are among bytes that are UTF-8 or aren't.
fn width(are_utf8: bool, bytes: &[u8]) -> usize {
    let mut width = 0usize;
    match str::from_utf8(bytes) {
        Ok(text) if are_utf8 => {
            for c in text.chars() {
                width = width.saturating_add(columns(u32::from(c)));
            }
        }
        _ => {
            for b in bytes {
                width = width.saturating_add(columns(u32::from(*b)));
            }
        }
    }
    width
}

/// The bytes from this offset on, up to so many.
pub(crate) fn part(bytes: &[u8], from: usize, most: usize) -> &[u8] {
    let (_, behind) = bytes.split_at(from.min(bytes.len()));
    let (part, _) = behind.split_at(behind.len().min(most));
    part
}

/// The segment at a position in the bytes of a set: ST is 1.
fn segment_at(terminator: u8, set: &[u8], position: u32) -> Option<&[u8]> {
    let mut rest = set;
    for _ in 1..position {
        let (_, behind) = cut_at(terminator, rest)?;
        rest = behind;
    }
    let (piece, _) = cut_at(terminator, rest)?;
    Some(without_line_ends(piece))
}

/// At which offset of a segment the element at a place begins, and how many bytes it has; none, at the
/// end, where the segment hasn't so many elements. The identifier has the place 0.
fn element_in(separator: u8, segment: &[u8], place: usize) -> (usize, usize) {
    let mut rest = segment;
    for _ in 0..place {
        match cut_at(separator, rest) {
            Some((_, behind)) => rest = behind,
            None => return (segment.len(), 0),
        }
    }
    let from = segment.len().saturating_sub(rest.len());
    match cut_at(separator, rest) {
        Some((element, _)) => (from, element.len()),
        None => (from, rest.len()),
    }
}

impl Text {
    /// Adds so many of a byte.
    fn repeat(&mut self, b: u8, count: usize) {
        for _ in 0..count {
            self.put(&[b]);
        }
    }

    /// Adds a line with carets below some of the bytes that are shown above from this column on:
    /// below so many from this offset on, and below the place itself where there are none. Adds
    /// nothing where words have no carets.
    pub(crate) fn carets(&mut self, column: usize, shown: &[u8], from: usize, count: usize) {
        if self.look() == Look::Plain {
            return;
        }
        let are_utf8 = str::from_utf8(shown).is_ok();
        let before = width(are_utf8, part(shown, 0, from));
        self.repeat(b' ', column.saturating_add(before));
        self.say(Ink::Wrong);
        self.repeat(b'^', width(are_utf8, part(shown, from, count)).max(1));
        say!(self; Ink::Plain, "\n");
    }

    /// Adds a segment with carets below the element at a place, or below the identifier at 0; nothing
    /// where words have no carets, or of no segment.
    pub(crate) fn excerpt_of(&mut self, delims: &Delims, segment: &[u8], place: usize) {
        if self.look() == Look::Plain || segment.is_empty() {
            return;
        }
        let (from, count) = element_in(delims.element, segment, place);
        let first = from.saturating_sub(AROUND);
        let shown = part(segment, first, 2 * AROUND);
        say!(self; "      ", shown, "\n");
        self.carets(6, shown, from.saturating_sub(first), count);
    }

    /// Adds the segment that a note of a set is of, with carets below the element, or below the
    /// identifier where the note is of the whole segment; nothing where words have no carets.
    pub(crate) fn excerpt(&mut self, delims: &Delims, set: &[u8], note: &Noted<'_, '_>) {
        if self.look() == Look::Plain {
            return;
        }
        let place = match note.note {
            SetNote::Element { place, .. } => usize::from(*place),
            SetNote::Segment { .. } => 0,
        };
        if let Some(segment) = segment_at(delims.terminator, set, note.position) {
            self.excerpt_of(delims, segment, place);
        }
    }
}
