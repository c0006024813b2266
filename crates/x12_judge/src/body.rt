//! The segments of a transaction set between ST and SE.

ghost use Rattle.std.specs.Prelude.{◌≡◌, ◌≤◌, ◌<◌, ◌^◌, length, drop};
ghost use Rattle.x12_envelopes.specs.Segment.{parts_of};
ghost use Rattle.x12_envelopes.specs.Shape.{set_view};
ghost use Rattle.x12_judge.specs.Body.{ArePassed, and_behind, body_left};
ghost use Rattle.x12_judge.specs.Set.{body_of};

use crate::segment::is_ordinary;
use x12_envelopes::{Delims, Segment, SetView, cut_segment, cut_short_segment};

/// The next segment of bytes, if there is one, and what stands behind it.
fn cut_next<'a>(delims: &Delims, bytes: &'a [u8]) -> (Option<&'a [u8]>, &'a [u8])
    ensures next { let d = delims.now in
        parts_of d bytes.now ≡ and_behind result.0 (parts_of d result.1.now) }
    ensures behind { let d = delims.now in
        parts_of d result.1.now ≡ drop 1 (parts_of d bytes.now) }
    ensures few { length (parts_of delims.now bytes.now) ≤ length bytes.now }
{
    match cut_segment(delims, bytes) {
        Some((part, behind)) => (Some(part), behind),
        None => (None, bytes),
    }
}

/// The same, behind a segment of this many bytes: behind one without elements the next is mostly
/// short, too.
fn cut_behind<'a>(len: usize, delims: &Delims, bytes: &'a [u8]) -> (Option<&'a [u8]>, &'a [u8])
    ensures next { let d = delims.now in
        parts_of d bytes.now ≡ and_behind result.0 (parts_of d result.1.now) }
{
    if SHORT < len {
        return cut_next(delims, bytes);
    }
    match cut_short_segment(delims, bytes) {
        Some((part, behind)) => (Some(part), behind),
        None => (None, bytes),
    }
}

/// The most bytes of a segment without elements, mostly.
const SHORT: usize = 4;

/// Fewer bytes than these hold few segments.
const MANY: usize = 64;

/// How many segments were passed, and whether a PO1 is among them.
#[derive(Clone, Copy)]
pub(crate) struct Passed {
    pub(crate) count: u32,
    pub(crate) has_po1: bool,
}

/// The segments of a transaction set between ST and SE that are still to come.
#[derive(Clone, Copy)]
pub(crate) struct Body<'a> {
    /// The next segment. The last one is SE, where that was sent.
    here: Option<&'a [u8]>,
    /// What stands behind it.
    behind: &'a [u8],
    /// Whether SE was sent.
    closed: bool,
}

impl<'a> Body<'a> {
    /// The segments of a transaction set behind ST, and in front of SE where it was sent.
    pub(crate) fn of(delims: &Delims, set: &SetView<'a>) -> Body<'a>
        ensures left { body_left delims.now result ≡ body_of (set_view delims.now set.now) }
        ensures few { length (body_left delims.now result) ≤ length set.now.bytes.now }
    {
        let (_, behind_st) = cut_next(delims, set.bytes);
        let (here, behind) = cut_next(delims, behind_st);
        Body {
            here,
            behind,
            closed: set.trailer.is_some(),
        }
    }

    /// The next of them.
    pub(crate) fn next_part(&mut self, delims: &Delims) -> Option<&'a [u8]>
        ensures { let d = delims.now in
            body_left d self.old ≡ and_behind result (body_left d self.new) }
    {
        let part = self.here?;
        (self.here, self.behind) = cut_behind(part.len(), delims, self.behind);
        if self.closed && self.here.is_none() {
            return None;
        }
        Some(part)
    }

    /// Passes segments on which nothing is noted behind the first, up to the next one on which
    /// something may be, or the last one; none where that isn't likely, or only a few may follow.
    pub(crate) fn pass_many(&mut self, delims: &Delims, likely: bool) -> Passed
        requires { length (body_left delims.now self.old) < 2 ^ 31 }
        ensures { ArePassed delims.now (body_left delims.now self.old) result
            (body_left delims.now self.new) }
    {
        if !likely || self.behind.len() < MANY {
            return Passed {
                count: 0,
                has_po1: false,
            };
        }
        self.pass_ordinary(delims)
    }

    /// The same, however few follow. Never inlined, so that what the loop needs stays in registers.
    #[inline(never)]
    fn pass_ordinary(&mut self, delims: &Delims) -> Passed
        requires { length (body_left delims.now self.old) < 2 ^ 31 }
        ensures { ArePassed delims.now (body_left delims.now self.old) result
            (body_left delims.now self.new) }
    {
        let delims = *delims;
        let mut count = 0;
        let mut has_po1 = false;
        let Some(mut bytes) = self.here else {
            return Passed { count, has_po1 };
        };
        let mut behind = self.behind;
        loop {
            let name = Segment { bytes, delims }.identifier();
            let is_po1 = name == b"PO1".as_slice();
            if !is_po1 && !is_ordinary(name) {
                break;
            }
            let Some((next, rest)) = cut_segment(&delims, behind) else {
                break;
            };
            count += 1;
            has_po1 = has_po1 || is_po1;
            (bytes, behind) = (next, rest);
        }
        self.here = Some(bytes);
        self.behind = behind;
        Passed { count, has_po1 }
    }
}
