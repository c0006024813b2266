//! The fault of one segment of an interchange.

ghost use Rattle.std.specs.Prelude.{◌≡◌, ◌≤◌, ◌<◌, ◌||◌, ◌&&◌, not, IfSome, IsNone, position, length};
ghost use Rattle.std.specs.Prelude.{nat_lt, nat_le, true, false};
ghost use Rattle.std.specs.List.{list_any};
ghost use Rattle.x12_envelopes.specs.Delimiters.{is_control};
ghost use Rattle.x12_envelopes.specs.Content.{kind_of_segment, segment_is_gs};
ghost use Rattle.x12_envelopes.specs.Outline.{offset_behind, is_kind, kind_is_misplaced};
ghost use Rattle.x12_envelopes.specs.Outline.{segment_is_unreadable};
ghost use Rattle.x12_envelopes.specs.Reading.{fault_but_in_gs, placed};
ghost use Rattle.x12_envelopes.specs.Remaining.{AreReadOfGs};

use crate::content::{Kind, Level};
use crate::delimiters::Delims;
use crate::remaining::GroupHeader;
use crate::segment::segment_of;
use crate::shape::OutlineFault;
use crate::source::{FoundSegment, Source};

/// Whether a text holds a byte below 0x20. Looks at each byte, with no branch.
pub(crate) fn has_low(text: &[u8]) -> bool
    ensures { result ≡ list_any (λ b. nat_lt b 32) text.now }
{
    let mut low = false;
    for b in text {
        low |= *b < 0x20;
    }
    low
}

/// The place of the first control byte of a segment: a byte below 0x20 that is no delimiter.
pub(crate) fn control(delims: &Delims, part: &[u8]) -> Option<usize>
    ensures place { result ≡ position (is_control delims.now) part.now }
    ensures within { IfSome result (λ k. k < length part.now) }
{
    if !has_low(part) {
        return None;
    }
    part.iter().position(|b| *b < 0x20 && !delims.contains(*b))
}

/// Whether a segment of that kind may not stand there.
fn is_misplaced(level: Level, kind: Kind) -> bool
    ensures { result ≡ kind_is_misplaced level kind }
{
    match kind {
        Kind::Empty | Kind::Isa => true,
        Kind::Ta1 => !matches!(level, Level::Front),
        Kind::St | Kind::Ge => !matches!(level, Level::InGroup | Level::InSet),
        Kind::Se | Kind::Data => !matches!(level, Level::InSet),
        Kind::Gs | Kind::Iea => false,
    }
}

impl<'a> Source<'a> {
    /// The place of the first control byte of a segment: there is none where all bytes are plain.
    fn control(&self, part: &[u8]) -> Option<usize>
        requires { self.now.plain ≡ true → list_any (λ b. nat_lt b 32) part.now ≡ false }
        ensures place { result ≡ position (is_control self.now.delims) part.now }
        ensures within { IfSome result (λ k. k < length part.now) }
    {
        if self.plain {
            return None;
        }
        control(&self.delims, part)
    }

    /// The elements of a GS, where it can be read and isn't the 33rd.
    pub(crate) fn header_of_group(
        &self,
        gs: &FoundSegment<'a>,
        groups: usize,
    ) -> Option<GroupHeader<'a>>
        ensures none { IsNone result
            → (not (segment_is_gs self.now.delims gs.now.part.now) || nat_le 32 groups) ≡ true }
        ensures readable { IfSome result
            (λ _. segment_is_gs self.now.delims gs.now.part.now ≡ true) }
        ensures few { IfSome result (λ _. groups < 32) }
        ensures header { IfSome result (λ h. AreReadOfGs self.now.delims gs.now.part.now h) }
    {
        if 32 <= groups {
            return None;
        }
        segment_of(&self.delims, gs.part).read_gs()
    }

    /// Whether a segment that is no GS can't be read, or is the 401st transaction set.
    fn is_unreadable(&self, groups: usize, sets: usize, found: &FoundSegment<'a>) -> bool
        ensures { result ≡ (not (is_kind Kind.Gs found.now.kind)
            && segment_is_unreadable self.now.delims groups sets found.now.kind found.now.part.now) }
    {
        match found.kind {
            Kind::Ta1 => !segment_of(&self.delims, found.part).is_ta1(),
            Kind::St => !segment_of(&self.delims, found.part).is_st() || 400 <= sets,
            _ => false,
        }
    }

    /// The fault of one segment, behind so many groups and transaction sets, but that of a GS which
    /// can't be read.
    pub(crate) fn segment_fault(
        &self,
        level: Level,
        groups: usize,
        sets: usize,
        found: &FoundSegment<'a>,
    ) -> Option<OutlineFault>
        requires kind { found.now.kind ≡ kind_of_segment self.now.delims found.now.part.now }
        requires within { offset_behind (placed found.now) ≤ length self.now.input.now }
        requires plain { self.now.plain ≡ true
            → list_any (λ b. nat_lt b 32) found.now.part.now ≡ false }
        ensures { result ≡ fault_but_in_gs self.now.delims level groups sets (placed found.now) }
    {
        if let Some(control) = self.control(found.part) {
            return Some(OutlineFault::Structure(found.at + control));
        }
        if is_misplaced(level, found.kind) {
            return Some(OutlineFault::Structure(found.at));
        }
        if self.is_unreadable(groups, sets, found) {
            return Some(OutlineFault::Content(found.at));
        }
        None
    }
}
