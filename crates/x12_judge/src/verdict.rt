//! What a judgement says: of an interchange (TA1), of its functional groups (AK9), of their
//! transaction sets (AK5), segments (AK3) and elements (AK4).

ghost use Rattle.std.specs.Prelude.{◌≡◌};
ghost use Rattle.x12_judge.specs.Set.{set_is_accepted, takes, is_noted};
ghost use Rattle.x12_judge.specs.Verdict.{set_verdict_view};

use arrayvec::ArrayVec;
use x12_envelopes::SetNo;

/// An interchange note code (TA105): 1 to 999.
#[derive(Clone, Copy, PartialEq, Eq)]
pub struct Note(pub u16);

/// Why a functional group is refused (AK905): the first that holds.
#[derive(Clone, Copy, PartialEq, Eq)]
pub enum GroupRefusal {
    /// 1: the functional group isn't supported.
    NotSupported,
    /// 2: the version of the functional group isn't supported.
    VersionNotSupported,
    /// 3: the functional group trailer is missing.
    TrailerMissing,
    /// 4: the control numbers in header and trailer don't match.
    NumbersDiffer,
    /// 5: the number of transaction sets doesn't match the count.
    CountWrong,
}

/// Why a transaction set is rejected (AK502): each that holds. The first is the default, which stands
/// in the places of `SetCodes` that hold none.
#[derive(Clone, Copy, Default, PartialEq, Eq)]
pub enum SetCode {
    /// 1: the transaction set isn't supported.
    #[default]
    NotSupported,
    /// 2: the transaction set trailer is missing.
    TrailerMissing,
    /// 3: the control numbers in header and trailer don't match.
    NumbersDiffer,
    /// 4: the number of segments doesn't match the count.
    CountWrong,
    /// 5: one or more segments are in error.
    SegmentsInError,
    /// 23: the control number isn't unique within the functional group.
    NumberNotUnique,
}

/// How a transaction set fares (AK501).
#[derive(Clone, Copy, PartialEq, Eq)]
pub enum SetResult {
    /// `A`: accepted, no code holds.
    Accepted,
    /// `E`: accepted, but errors were noted. They are all in elements, and the partner is lenient.
    Noted,
    /// `R`: rejected, with its codes.
    Rejected,
}

impl SetResult {
    /// Whether the set is accepted, with or without errors noted: its receiver takes it over.
    pub fn is_accepted(self) -> bool
        ensures { result ≡ takes self }
    {
        match self {
            SetResult::Accepted => true,
            SetResult::Noted => true,
            SetResult::Rejected => false,
        }
    }

    /// Whether the set is accepted with errors noted.
    pub fn is_noted(self) -> bool
        ensures { result ≡ is_noted self }
    {
        match self {
            SetResult::Noted => true,
            _ => false,
        }
    }
}

/// What is wrong with a segment (AK304).
#[derive(Clone, Copy, PartialEq, Eq)]
pub enum SegmentCode {
    /// 1: an identifier that isn't recognized.
    Unrecognized,
    /// 3: a mandatory segment is missing.
    Missing,
    /// 5: the segment exceeds its maximum use.
    ExceedsMaximumUse,
    /// 8: the segment has data element errors.
    ElementErrors,
}

/// What is wrong with an element (AK403): the first that holds.
#[derive(Clone, Copy, PartialEq, Eq)]
pub enum ElementCode {
    /// 1: a mandatory element is missing.
    Missing,
    /// 4: the element is too short.
    TooShort,
    /// 5: the element is too long.
    TooLong,
    /// 6: a character that the element may not hold.
    InvalidCharacter,
    /// 8: an invalid date.
    InvalidDate,
}

/// What an acknowledgment reports of a transaction set: a segment (AK3) or one of its elements
/// (AK4).
#[derive(Clone, Copy)]
pub enum SetNote<'a> {
    /// AK3.
    Segment {
        /// AK301, at most three bytes.
        identifier: &'a [u8],
        /// AK302, the segment's position in its set: ST is 1.
        position: u32,
        /// AK304.
        code: SegmentCode,
    },
    /// AK4, of the segment of the last AK3.
    Element {
        /// AK401, the element's place in its segment, from 1.
        place: u8,
        /// AK402, the number of the data element in the dictionary.
        reference: u16,
        /// AK403.
        code: ElementCode,
        /// AK404, the element as it came: at most 99 bytes, without its second component.
        copy: &'a [u8],
    },
}

/// The codes of a transaction set: at most one of each.
pub type SetCodes = ArrayVec<SetCode, 6>;

/// What a transaction set deserves.
#[derive(Drop)]
pub struct SetVerdict<'a> {
    /// ST01.
    pub set: [u8; 3],
    /// ST02.
    pub number: SetNo,
    /// The bytes from ST through the terminator of the set's last segment.
    pub bytes: &'a [u8],
    /// AK501.
    pub result: SetResult,
    /// AK502 to AK506, in rising order.
    pub codes: SetCodes,
    /// The first eight of its notes, in the order in which they are written.
    pub notes: Vec<SetNote<'a>>,
}

impl<'a> SetVerdict<'a> {
    /// Whether the set is accepted, with or without errors noted (AK501 is `A` or `E`).
    pub fn is_accepted(&self) -> bool
        ensures { result ≡ set_is_accepted (set_verdict_view self.now) }
    {
        self.result.is_accepted()
    }
}

/// What a functional group deserves.
#[derive(Drop)]
pub struct GroupVerdict<'a> {
    /// The group's place among all groups of its interchange, from 1.
    pub place: u16,
    /// GS01.
    pub functional: [u8; 2],
    /// GS02.
    pub sender: &'a [u8],
    /// GS03.
    pub receiver: &'a [u8],
    /// GS06, as it came.
    pub number_text: &'a [u8],
    /// AK902: how many sets the group says that it includes.
    pub included: u32,
    /// AK903: how many sets were received.
    pub received: u32,
    /// AK904: how many sets are accepted, with or without errors noted.
    pub accepted: u32,
    /// AK905, where the whole group is refused.
    pub refused: Option<GroupRefusal>,
    /// The verdict of each set, in their order; none where the group is refused.
    pub sets: Vec<SetVerdict<'a>>,
}

/// What an interchange deserves.
#[derive(Drop)]
pub enum Verdict<'a> {
    /// The whole interchange is refused, with this note (TA105): never 009, never 025.
    Refused(Note),
    /// The verdict of each functional group but those of acknowledgments (FA), in their order.
    Judged(Vec<GroupVerdict<'a>>),
}

/// What an interchange deserves, and whether it may be answered at all.
#[derive(Drop)]
pub struct Judgement<'a> {
    /// Whether the interchange holds TA1s and no group: it is never answered.
    pub silent: bool,
    /// What it deserves.
    pub verdict: Verdict<'a>,
}
