//! What the control segments say (X12.5: TA1; X12.6: GS, ST, SE, GE, IEA).

ghost use Rattle.std.specs.Prelude.{◌≡◌, ◌==◌, ◌&&◌, ◌∷◌, [], true, false, length, map};
ghost use Rattle.std.specs.Prelude.{IsNone, IfSome, option_map, vec_len};
ghost use Rattle.x12_envelopes.specs.Content.{kind_of_name, kind_of_segment, text_is_digits};
ghost use Rattle.x12_envelopes.specs.Content.{code_of_acknowledgment};
ghost use Rattle.x12_envelopes.specs.Byte.{text_has_length};
ghost use Rattle.x12_envelopes.specs.Content.{is_ta1_form, is_gs_form};
ghost use Rattle.x12_envelopes.specs.Envelope.{element_at};
ghost use Rattle.x12_envelopes.specs.Remaining.{elements_of_gs, AreReadOfGs};
ghost use Rattle.x12_envelopes.specs.Content.{segment_is_ta1, ta1_of, segment_is_gs, is_group_date};
ghost use Rattle.x12_envelopes.specs.Content.{is_agency, segment_is_st, set_trailer_of};
ghost use Rattle.x12_envelopes.specs.Content.{group_trailer_of, group_of_gs};
ghost use Rattle.x12_envelopes.specs.Shape.{set_trailer_view, group_trailer_view, bytes_of_set_no};
ghost use Rattle.x12_envelopes.specs.Shape.{set_view, group_view};
ghost use Rattle.x12_envelopes.specs.Segment.{element_of};

use crate::byte::{are_digits, has_length, number_of, value_of};
use crate::delimiters::Delims;
use crate::remaining::GroupHeader;
use crate::segment::Segment;
use crate::shape::{AcknowledgmentCode, GroupTrailer, GroupView, SetNo, SetTrailer, SetView, Ta1};

/// The kinds of segment that the outline tells apart, by their identifiers.
#[derive(Clone, Copy, Debug, PartialEq, Eq)]
pub enum Kind {
    /// No identifier.
    Empty,
    /// ISA, the interchange header.
    Isa,
    /// TA1, an interchange acknowledgment.
    Ta1,
    /// GS, a functional group header.
    Gs,
    /// ST, a transaction set header.
    St,
    /// Any other identifier: a segment of data.
    Data,
    /// SE, a transaction set trailer.
    Se,
    /// GE, a functional group trailer.
    Ge,
    /// IEA, the interchange trailer.
    Iea,
}

/// Where a segment stands, as far as the segment before it tells.
#[derive(Clone, Copy, PartialEq, Eq)]
pub(crate) enum Level {
    /// Behind ISA or a TA1.
    Front,
    /// Behind a GE.
    Between,
    /// In a functional group, behind GS or SE.
    InGroup,
    /// In a transaction set, behind ST or a segment of data.
    InSet,
}

/// Whether a text is that many digits.
fn is_digits(count: usize, text: &[u8]) -> bool
    ensures { result ≡ text_is_digits count text.now }
{
    text.len() == count && are_digits(text)
}

/// TA104: `A`, `E` or `R`.
#[tactic(auto, unfolding(crate::specs::Content::code_of_acknowledgment))]
fn acknowledgment_code(text: &[u8]) -> Option<AcknowledgmentCode>
    ensures { result ≡ code_of_acknowledgment text.now }
{
    match text {
        b"A" => Some(AcknowledgmentCode::Accepted),
        b"E" => Some(AcknowledgmentCode::ErrorsNoted),
        b"R" => Some(AcknowledgmentCode::Rejected),
        _ => None,
    }
}

/// Whether a text is a date of GS: six or eight digits.
fn is_group_date_text(text: &[u8]) -> bool
    ensures { result ≡ is_group_date text.now }
{
    is_digits(6, text) || is_digits(8, text)
}

/// Whether a text is a responsible agency code (GS07): `X` or `T`.
fn is_agency_text(text: &[u8]) -> bool
    ensures { result ≡ is_agency text.now }
{
    text == b"X".as_slice() || text == b"T".as_slice()
}

/// Whether so many elements, the first of them these, have the form of TA1: exactly five.
pub(crate) fn have_ta1_form(
    count: usize,
    number: &[u8],
    date: &[u8],
    time: &[u8],
    code: &[u8],
    note: &[u8],
) -> bool
    ensures { result ≡ is_ta1_form count (element_at
        ([] ∷ number.now ∷ date.now ∷ time.now ∷ code.now ∷ note.now ∷ [])) }
{
    count == 5
        && is_digits(9, number)
        && date.len() == 6
        && time.len() == 4
        && acknowledgment_code(code).is_some()
        && is_digits(3, note)
}

/// Whether two texts have the form of ST01 and ST02.
pub(crate) fn have_st_form(set: &[u8], number: &[u8]) -> bool
    ensures { result ≡ (length set.now == 3 && text_has_length 4 9 number.now) }
{
    set.len() == 3 && has_length(4, 9, number)
}

/// A text of a fixed length.
pub(crate) fn fixed<const N: usize>(text: &[u8]) -> [u8; N]
    requires { length text.now ≡ N }
    ensures { result ≡ text.now }
{
    let mut fixed = [0; N];
    fixed.copy_from_slice(text);
    fixed
}

/// The kind that an identifier names.
#[inline(always)]
#[tactic(auto, unfolding(crate::specs::Content::kind_of_name))]
pub(crate) fn kind_named(identifier: &[u8]) -> Kind
    ensures { result ≡ kind_of_name identifier.now }
{
    match identifier {
        [] => Kind::Empty,
        b"ISA" => Kind::Isa,
        b"TA1" => Kind::Ta1,
        b"GS" => Kind::Gs,
        b"ST" => Kind::St,
        b"SE" => Kind::Se,
        b"GE" => Kind::Ge,
        b"IEA" => Kind::Iea,
        _ => Kind::Data,
    }
}

impl<'a> GroupHeader<'a> {
    /// Whether so many elements, the first eight of them these, have the form of GS: exactly eight.
    pub(crate) fn has_form(&self, count: usize) -> bool
        ensures { result ≡ is_gs_form count (element_at (elements_of_gs self.now)) }
    {
        count == 8
            && self.functional.len() == 2
            && has_length(2, 15, self.sender)
            && has_length(2, 15, self.receiver)
            && is_group_date_text(self.date)
            && has_length(4, 8, self.time)
            && are_digits(self.time)
            && number_of(self.number).is_some()
            && is_agency_text(self.agency)
            && has_length(1, 12, self.version)
    }

    /// A functional group with this GS, its transaction sets and its GE.
    pub(crate) fn view_of_group(
        &self,
        sets: Vec<SetView<'a>>,
        trailer: Option<GroupTrailer<'a>>,
    ) -> GroupView<'a>
        requires { length self.now.functional.now ≡ 2 }
        ensures group { (d : Delims) → group_view d result
            ≡ group_of_gs (element_at (elements_of_gs self.now))
            (map (set_view d) sets.entry.items)
            (option_map group_trailer_view trailer.entry) }
        ensures sets { vec_len result.sets ≡ vec_len sets.entry }
    {
        GroupView {
            functional: fixed(self.functional),
            sender: self.sender,
            receiver: self.receiver,
            number_text: self.number,
            number: number_of(self.number).unwrap_or(0),
            version: self.version,
            sets,
            trailer,
        }
    }
}

impl<'a> Segment<'a> {
    /// The kind of a segment, by its identifier.
    #[inline(always)]
    #[tactic(auto, unfolding(crate::specs::Content::kind_of_segment))]
    pub fn kind(&self) -> Kind
        ensures { result ≡ kind_of_segment self.now.delims self.now.bytes.now }
    {
        kind_named(self.identifier())
    }

    /// Whether TA1 can be read: exactly five elements, each of its form.
    #[inline(never)]
    #[tactic(auto, unfolding(crate::specs::Content::segment_is_ta1))]
    pub(crate) fn is_ta1(&self) -> bool
        ensures { result ≡ segment_is_ta1 self.now.delims self.now.bytes.now }
    {
        have_ta1_form(
            self.element_count(),
            self.element(1),
            self.element(2),
            self.element(3),
            self.element(4),
            self.element(5),
        )
    }

    /// What a TA1 says.
    #[tactic(auto, unfolding(crate::specs::Content::segment_is_ta1, crate::specs::Content::ta1_of))]
    pub(crate) fn ta1(&self) -> Ta1
        requires { segment_is_ta1 self.now.delims self.now.bytes.now ≡ true }
        ensures { result ≡ ta1_of self.now.delims self.now.bytes.now }
    {
        Ta1 {
            icn: value_of(self.element(1)),
            date: fixed(self.element(2)),
            time: fixed(self.element(3)),
            code: acknowledgment_code(self.element(4)).unwrap_or(AcknowledgmentCode::Accepted),
            note: value_of(self.element(5)) as u16,
        }
    }

    /// The elements of GS, where it can be read: exactly eight, each of its form.
    #[inline(never)]
    #[tactic(auto, unfolding(crate::specs::Content::segment_is_gs))]
    pub(crate) fn read_gs(&self) -> Option<GroupHeader<'a>>
        ensures none { IsNone result → segment_is_gs self.now.delims self.now.bytes.now ≡ false }
        ensures some { IfSome result
            (λ _. segment_is_gs self.now.delims self.now.bytes.now ≡ true) }
        ensures header { IfSome result (λ gs. AreReadOfGs self.now.delims self.now.bytes.now gs) }
    {
        let (header, are_all) = self.group_header();
        let count = if are_all { 8 } else { self.element_count() };
        if !header.has_form(count) {
            return None;
        }
        Some(header)
    }

    /// Whether ST can be read: at least two elements, the first two of their form. Where the second
    /// one has its form, there are two.
    #[inline(never)]
    pub(crate) fn is_st(&self) -> bool
        ensures { result ≡ segment_is_st self.now.delims self.now.bytes.now }
    {
        let (set, number) = self.first_two();
        have_st_form(set, number)
    }

    /// ST01 and ST02 of an ST that can be read.
    #[tactic(auto, unfolding(crate::specs::Content::segment_is_st))]
    pub(crate) fn set_header(&self) -> ([u8; 3], SetNo)
        requires { segment_is_st self.now.delims self.now.bytes.now ≡ true }
        ensures set { result.0 ≡ element_of self.now.delims self.now.bytes.now 1 }
        ensures number { bytes_of_set_no result.1 ≡ element_of self.now.delims self.now.bytes.now 2 }
    {
        let (set, number) = self.first_two();
        match SetNo::new(number) {
            Some(number) => (fixed(set), number),
            None => unreachable!(),
        }
    }

    /// What SE says.
    #[tactic(auto, unfolding(crate::specs::Content::set_trailer_of))]
    pub(crate) fn set_trailer(&self) -> SetTrailer<'a>
        ensures { set_trailer_view result ≡ set_trailer_of self.now.delims self.now.bytes.now }
    {
        let (count, number) = self.first_two();
        SetTrailer {
            count: number_of(count),
            number,
        }
    }

    /// What GE says.
    #[tactic(auto, unfolding(crate::specs::Content::group_trailer_of))]
    pub(crate) fn group_trailer(&self) -> GroupTrailer<'a>
        ensures { group_trailer_view result ≡ group_trailer_of self.now.delims self.now.bytes.now }
    {
        let (count_text, number) = self.first_two();
        GroupTrailer {
            count_text,
            count: number_of(count_text),
            number: number_of(number),
        }
    }
}
