//! The numbers of the codes of a functional acknowledgment (997), as the standard lists them.

ghost use Rattle.std.specs.Prelude.{◌≡◌};
ghost use Rattle.x12_judge.specs.Code.{element_code_number, group_refusal_number};
ghost use Rattle.x12_judge.specs.Code.{segment_code_number, set_code_number};

use crate::verdict::{ElementCode, GroupRefusal, Note, SegmentCode, SetCode};

impl Note {
    /// TA105, the interchange note code: written in three digits.
    pub fn number(self) -> u16
        ensures { result ≡ self.0 }
    {
        self.0
    }
}

impl GroupRefusal {
    /// AK905, the functional group syntax error code.
    pub fn number(self) -> u8
        ensures { result ≡ group_refusal_number self }
    {
        match self {
            GroupRefusal::NotSupported => 1,
            GroupRefusal::VersionNotSupported => 2,
            GroupRefusal::TrailerMissing => 3,
            GroupRefusal::NumbersDiffer => 4,
            GroupRefusal::CountWrong => 5,
        }
    }
}

impl SetCode {
    /// AK502, the transaction set syntax error code.
    pub fn number(self) -> u8
        ensures { result ≡ set_code_number self }
    {
        match self {
            SetCode::NotSupported => 1,
            SetCode::TrailerMissing => 2,
            SetCode::NumbersDiffer => 3,
            SetCode::CountWrong => 4,
            SetCode::SegmentsInError => 5,
            SetCode::NumberNotUnique => 23,
        }
    }
}

impl SegmentCode {
    /// AK304, the segment syntax error code.
    pub fn number(self) -> u8
        ensures { result ≡ segment_code_number self }
    {
        match self {
            SegmentCode::Unrecognized => 1,
            SegmentCode::Missing => 3,
            SegmentCode::ExceedsMaximumUse => 5,
            SegmentCode::ElementErrors => 8,
        }
    }
}

impl ElementCode {
    /// AK403, the data element syntax error code.
    pub fn number(self) -> u8
        ensures { result ≡ element_code_number self }
    {
        match self {
            ElementCode::Missing => 1,
            ElementCode::TooShort => 4,
            ElementCode::TooLong => 5,
            ElementCode::InvalidCharacter => 6,
            ElementCode::InvalidDate => 8,
        }
    }
}
