//! Reading the outline of an interchange.

ghost use Rattle.std.specs.Prelude.{OnOk, ◌++◌, vec_len, true, [], ◌∷◌, option_map, ◌≡◌, ◌≤◌};
ghost use Rattle.std.specs.Prelude.{◌+◌, Ok, Some, None, IfOk, IfErr, length};
ghost use Rattle.std.specs.Option.{option_or};
ghost use Rattle.x12_envelopes.specs.Byte.{number_of_digits};
ghost use Rattle.x12_envelopes.specs.Segment.{element_of, place_piece};
ghost use Rattle.x12_envelopes.specs.Header.{header_of};
ghost use Rattle.x12_envelopes.specs.Content.{kind_of_segment, segment_is_st};
ghost use Rattle.x12_envelopes.specs.Outline.{outline_of, fault_behind_trailer, offset_behind};
ghost use Rattle.x12_envelopes.specs.Outline.{control_fault};
ghost use Rattle.x12_envelopes.specs.Reading.{IsFault, IsFrom, IsNext, IsOneSegment, IsSoundGroup};
ghost use Rattle.x12_envelopes.specs.Reading.{IsSoundSet, IsGroupHeader, fault_but_in_gs};
ghost use Rattle.x12_envelopes.specs.Reading.{rest_at, placed, fault_from, set_up_to, set_from};
ghost use Rattle.x12_envelopes.specs.Reading.{behind_set, fault_in_set};
ghost use Rattle.x12_envelopes.specs.Reading.{group_from, behind_group, fault_in_group};
ghost use Rattle.x12_envelopes.specs.Reading.{interchange_from, fault_in_interchange};
ghost use Rattle.x12_envelopes.specs.Shape.{GivesUnlessMemory, outline_view, sets_of_outline};
ghost use Rattle.x12_envelopes.specs.Shape.{set_view};
ghost use Rattle.x12_envelopes.specs.Shape.{set_trailer_view, group_view};

use crate::byte::number_of;
use crate::content::{Kind, Level};
use crate::cutting::{cut, cut_inside, line_ends};
use crate::fault::{control, has_low};
use crate::header::{HEADER_BYTES, Header};
use crate::remaining::GroupHeader;
use crate::segment::segment_of;
use crate::shape::{GroupView, Outline, OutlineFault, SetTrailer, SetView, Ta1};
use crate::source::{FoundSegment, Source};
use std::alloc::Global;

/// Appends to a list, where there is memory.
fn push<T: Drop>(list: &mut Vec<T>, item: T) -> Result<(), OutlineFault>
    ensures ok { OnOk result (list.new.items ≡ list.old.items ++ item ∷ []) }
    ensures len { OnOk result (vec_len list.new ≡ vec_len list.old + 1) }
    ensures memory { IfErr result (λ e. e ≡ OutlineFault.Memory) }
{
    list.push(item)?;
    Ok(())
}

impl<'a> Source<'a> {
    /// The fault of what stands behind the last terminator, from a place on.
    #[cold]
    fn unended(&self, at: usize, rest: &[u8]) -> OutlineFault
        requires within { at + length rest.now ≤ length self.now.input.now }
        ensures { let s = place_piece at rest.now in
            option_or (control_fault self.now.delims s)
            (Some (OutlineFault.Premature (s.at + length s.bytes)))
            ≡ Some result }
    {
        let skipped = line_ends(rest);
        let (_, part) = rest.split_at(skipped);
        if let Some(control) = control(&self.delims, part) {
            return OutlineFault::Structure(at + skipped + control);
        }
        OutlineFault::Premature(at + skipped + part.len())
    }

    /// The next segment, from a place on, where it may stand there and can be read; a GS is read by
    /// `header_of_group`.
    fn segment(
        &self,
        level: Level,
        groups: usize,
        sets: usize,
        at: usize,
    ) -> Result<FoundSegment<'a>, OutlineFault>
        requires within { at ≤ length self.now.input.now }
        ensures next { IfOk result (λ f. IsNext self.now.delims self.now.input.now at (placed f)) }
        ensures kind { IfOk result (λ f. f.kind ≡ kind_of_segment self.now.delims f.part.now) }
        ensures sound { IfOk result
            (λ f. fault_but_in_gs self.now.delims level groups sets (placed f) ≡ None) }
        ensures fault { IfErr result (λ e. fault_from self.now level groups sets at ≡ Some e) }
    {
        let (_, rest) = self.input.split_at(at);
        let Some((piece, _)) = cut_inside(level, &self.delims, rest) else {
            return Err(self.unended(at, rest));
        };
        let skipped = line_ends(piece);
        let (_, part) = piece.split_at(skipped);
        let found = FoundSegment {
            at: at + skipped,
            part,
            kind: segment_of(&self.delims, part).kind(),
        };
        if let Some(fault) = self.segment_fault(level, groups, sets, &found) {
            return Err(fault);
        }
        Ok(found)
    }

    /// A transaction set from its ST up to a place.
    fn view_of_set(
        &self,
        st: &FoundSegment<'a>,
        end: usize,
        segments: u32,
        trailer: Option<SetTrailer<'a>>,
    ) -> SetView<'a>
        requires readable { segment_is_st self.now.delims st.now.part.now ≡ true }
        requires begins { st.now.at ≤ end }
        requires within { end ≤ length self.now.input.now }
        ensures { set_view self.now.delims result
            ≡ set_up_to self.now.delims self.now.input.now (placed st.now) end segments
            (option_map set_trailer_view trailer.entry) }
    {
        let (set, number) = segment_of(&self.delims, st.part).set_header();
        SetView {
            set,
            number,
            bytes: &self.input[st.at..end],
            segments,
            trailer,
        }
    }

    /// The transaction set that an ST opens, and the place behind it.
    fn set(
        &self,
        st: &FoundSegment<'a>,
        groups: usize,
        sets: usize,
    ) -> Result<(SetView<'a>, usize), OutlineFault>
        requires readable { segment_is_st self.now.delims st.now.part.now ≡ true }
        requires own { IsOneSegment self.now (placed st.now) }
        requires within { offset_behind (placed st.now) ≤ length self.now.input.now }
        ensures set { IfOk result
            (λ x. set_view self.now.delims x.0 ≡ set_from self.now (placed st.now)) }
        ensures rest { IfOk result
            (λ x. rest_at self.now x.1 ≡ behind_set self.now (placed st.now)) }
        ensures place { IfOk result (λ x. IsFrom self.now (offset_behind (placed st.now)) x.1) }
        ensures goes_on { IfOk result (λ x. IsSoundSet self.now groups sets (placed st.now) x.1) }
        ensures fault { IfErr result
            (λ e. fault_in_set self.now groups sets (placed st.now) ≡ Some e) }
    {
        let mut place = st.at + st.part.len() + 1;
        let mut segments = 1;
        loop {
            if let Some(behind) = self.behind_data(place) {
                segments += 1;
                place = behind;
                continue;
            }
            let found = match self.segment(Level::InSet, groups, sets, place) {
                Ok(found) => found,
                Err(fault) => return Err(fault),
            };
            let behind = found.at + found.part.len() + 1;
            match found.kind {
                Kind::Data => {
                    segments += 1;
                    place = behind;
                }
                Kind::Se => {
                    let trailer = segment_of(&self.delims, found.part).set_trailer();
                    return Ok((
                        self.view_of_set(st, behind, segments + 1, Some(trailer)),
                        behind,
                    ));
                }
                _ => return Ok((self.view_of_set(st, place, segments, None), place)),
            }
        }
    }

    /// The functional group that a GS opens, and the place behind it.
    fn group(
        &self,
        alloc: Global,
        gs: &FoundSegment<'a>,
        header: &GroupHeader<'a>,
        groups: usize,
        sets: usize,
    ) -> Result<(GroupView<'a>, usize), OutlineFault>
        requires header { IsGroupHeader self.now (placed gs.now) header.now }
        requires some { sets ≤ 400 }
        ensures group { IfOk result
            (λ x. group_view self.now.delims x.0 ≡ group_from self.now (placed gs.now)) }
        ensures rest { IfOk result
            (λ x. rest_at self.now x.1 ≡ behind_group self.now (placed gs.now)) }
        ensures place { IfOk result (λ x. IsFrom self.now (offset_behind (placed gs.now)) x.1) }
        ensures few { IfOk result (λ x. sets + vec_len x.0.sets ≤ 400) }
        ensures goes_on { IfOk result
            (λ x. IsSoundGroup self.now groups sets (placed gs.now) (vec_len x.0.sets) x.1) }
        ensures fault { IfErr result
            (λ e. IsFault e (fault_in_group self.now groups sets (placed gs.now))) }
    {
        let mut place = gs.at + gs.part.len() + 1;
        let mut views = Vec::new(alloc);
        loop {
            let found = match self.segment(Level::InGroup, groups, sets + views.len(), place) {
                Ok(found) => found,
                Err(fault) => return Err(fault),
            };
            match found.kind {
                Kind::St => {
                    let read = match self.set(&found, groups, sets + views.len() + 1) {
                        Ok(read) => read,
                        Err(fault) => return Err(fault),
                    };
                    push(&mut views, read.0)?;
                    place = read.1;
                }
                Kind::Ge => {
                    let trailer = segment_of(&self.delims, found.part).group_trailer();
                    let behind = found.at + found.part.len() + 1;
                    return Ok((header.view_of_group(views, Some(trailer)), behind));
                }
                _ => return Ok((header.view_of_group(views, None), place)),
            }
        }
    }

    /// The fault of what stands behind IEA, from a place on: nothing but line ends may stand there.
    fn fault_behind(&self, at: usize) -> Option<OutlineFault>
        requires within { at ≤ length self.now.input.now }
        ensures { result ≡ fault_behind_trailer (rest_at self.now at) }
    {
        let (_, rest) = self.input.split_at(at);
        if let Some((piece, _)) = cut(&self.delims, rest) {
            return Some(OutlineFault::Structure(at + line_ends(piece)));
        }
        let skipped = line_ends(rest);
        if skipped == rest.len() {
            None
        } else {
            Some(OutlineFault::Structure(at + skipped))
        }
    }

    /// An interchange with its TA1s, its functional groups and its IEA.
    fn view_of_interchange(
        &self,
        iea: &FoundSegment<'a>,
        tas: Vec<Ta1>,
        groups: Vec<GroupView<'a>>,
    ) -> Outline<'a>
        ensures tas { result.tas ≡ tas }
        ensures groups { result.groups ≡ groups.entry }
        ensures count { result.count
            ≡ number_of_digits (element_of self.now.delims iea.now.part.now 1) }
        ensures trailer { result.trailer
            ≡ number_of_digits (element_of self.now.delims iea.now.part.now 2) }
    {
        let (count, trailer) = segment_of(&self.delims, iea.part).first_two();
        Outline {
            tas,
            groups,
            count: number_of(count),
            trailer: number_of(trailer),
        }
    }

    /// What an interchange holds after its header.
    fn interchange(&self, alloc: Global) -> Result<Outline<'a>, OutlineFault>
        requires header { 106 ≤ length self.now.input.now }
        ensures outline { IfOk result
            (λ o. outline_view self.now.delims o ≡ interchange_from self.now) }
        ensures sound { IfOk result (λ _. fault_in_interchange self.now ≡ None) }
        ensures groups { IfOk result (λ o. vec_len o.groups ≤ 32) }
        ensures sets { IfOk result (λ o. sets_of_outline o ≤ 400) }
        ensures fault { IfErr result (λ e. IsFault e (fault_in_interchange self.now)) }
    {
        let mut place = HEADER_BYTES;
        let mut level = Level::Front;
        let mut sets = 0;
        let mut tas = Vec::new(alloc);
        let mut groups = Vec::new(alloc);
        loop {
            let found = match self.segment(level, groups.len(), sets, place) {
                Ok(found) => found,
                Err(fault) => return Err(fault),
            };
            let behind = found.at + found.part.len() + 1;
            match found.kind {
                Kind::Ta1 => {
                    push(&mut tas, segment_of(&self.delims, found.part).ta1())?;
                    place = behind;
                }
                Kind::Gs => {
                    let Some(header) = self.header_of_group(&found, groups.len()) else {
                        return Err(OutlineFault::Content(found.at));
                    };
                    let read = match self.group(alloc, &found, &header, groups.len() + 1, sets) {
                        Ok(read) => read,
                        Err(fault) => return Err(fault),
                    };
                    sets += read.0.sets.len();
                    push(&mut groups, read.0)?;
                    level = Level::Between;
                    place = read.1;
                }
                Kind::Iea => {
                    if let Some(fault) = self.fault_behind(behind) {
                        return Err(fault);
                    }
                    return Ok(self.view_of_interchange(&found, tas, groups));
                }
                _ => unreachable!(),
            }
        }
    }
}

/// Reads the outline of an interchange whose header `read_header` read (X12.5, X12.6): its TA1s,
/// functional groups and transaction sets, as slices of the bytes, in one pass over the segments. An
/// `Err` is the first fault with its place, or want of memory.
pub fn outline<'a>(
    alloc: Global,
    bytes: &'a [u8],
    header: &Header,
) -> Result<Outline<'a>, OutlineFault>
    requires read { header_of bytes.now ≡ Ok header.now }
    ensures outline { GivesUnlessMemory (outline_view header.now.delims) result
        (outline_of header.now.delims bytes.now) }
    ensures groups { IfOk result (λ o. vec_len o.groups ≤ 32) }
    ensures sets { IfOk result (λ o. sets_of_outline o ≤ 400) }
{
    let source = Source {
        input: bytes,
        delims: header.delims,
        plain: !has_low(bytes),
    };
    source.interchange(alloc)
}
