//! The outline of an interchange (X12.5, X12.6): its TA1s, functional groups and transaction sets,
//! as slices of the bytes that were read.

ghost use Rattle.std.specs.Prelude.{◌≡◌, ◌≤◌, ◌-◌, length, map, take, drop, replicate, IfOk};
ghost use Rattle.x12_envelopes.specs.Fault.{outline_fault_number, outline_fault_place};
ghost use Rattle.x12_envelopes.specs.declared.shape.OutlineFault.TheVariants.{Memory};

use crate::byte::has_length;
use std::alloc::{AllocError, AllocFailed, Global};
use thiserror::Error;

/// What a TA1 says of the interchange that it answers (X12.5, TA104).
#[derive(Clone, Copy, Debug, PartialEq, Eq)]
pub enum AcknowledgmentCode {
    /// `A`: received, and no errors.
    Accepted,
    /// `E`: accepted, and errors noted.
    ErrorsNoted,
    /// `R`: rejected.
    Rejected,
}

/// An interchange acknowledgment, TA1 (X12.5).
#[derive(Clone, Copy, PartialEq, Eq)]
pub struct Ta1 {
    /// TA101, the control number of the interchange that is answered: 0 to 999999999.
    pub icn: u32,
    /// TA102, that interchange's date.
    pub date: [u8; 6],
    /// TA103, that interchange's time.
    pub time: [u8; 4],
    /// TA104.
    pub code: AcknowledgmentCode,
    /// TA105, the note: 0 to 999.
    pub note: u16,
}

/// A transaction set control number as it is spelled (ST02): four to nine bytes. Two are equal where
/// they are spelled alike, and their order is that of their bytes.
#[derive(Clone, Copy, Debug, PartialEq, Eq, PartialOrd, Ord)]
pub struct SetNo {
    /// The number's bytes, then zero bytes.
    pub bytes: [u8; 9],
    /// How many of the bytes are the number's: 4 to 9.
    pub len: u8,
    ghost whole: { length bytes ≡ 9 },
    ghost least: { 4 ≤ len },
    ghost most: { len ≤ 9 },
    ghost padded: { drop len bytes ≡ replicate (9 - len) 0 },
}

impl SetNo {
    ghost use Rattle.std.specs.Prelude.{option_map, Some, None, if◌then◌else◌};
    ghost use Rattle.x12_envelopes.specs.Byte.{text_has_length};
    ghost use Rattle.x12_envelopes.specs.Shape.{bytes_of_set_no};

    /// The control number that a text spells; `None` unless it has four to nine bytes.
    pub fn new(text: &[u8]) -> Option<SetNo>
        ensures { option_map bytes_of_set_no result
            ≡ (if text_has_length 4 9 text.now then Some text.now else None) }
    {
        if !has_length(4, 9, text) {
            return None;
        }
        let mut bytes = [0; 9];
        bytes[..text.len()].copy_from_slice(text);
        Some(SetNo {
            bytes,
            len: text.len() as u8,
        })
    }

    /// The number as it is spelled.
    pub fn as_bytes(&self) -> &[u8]
        ensures { result.now ≡ take self.now.len self.now.bytes }
    {
        let (number, _) = self.bytes.split_at(usize::from(self.len));
        number
    }
}

/// What SE says of its transaction set (X12.6).
#[derive(Clone, Copy)]
pub struct SetTrailer<'a> {
    /// SE01, the number of segments with ST and SE; `None` where it is missing or no number.
    pub count: Option<u32>,
    /// SE02, the transaction set control number, as it came.
    pub number: &'a [u8],
}

/// What GE says of its functional group (X12.6).
#[derive(Clone, Copy)]
pub struct GroupTrailer<'a> {
    /// GE01 as it came: the number of transaction sets.
    pub count_text: &'a [u8],
    /// GE01 as a number; `None` where it is missing or no number.
    pub count: Option<u32>,
    /// GE02, the group control number; `None` where it is missing or no number.
    pub number: Option<u32>,
}

/// A transaction set (X12.6).
#[derive(Clone, Copy)]
pub struct SetView<'a> {
    /// ST01, the transaction set identifier.
    pub set: [u8; 3],
    /// ST02, the transaction set control number.
    pub number: SetNo,
    /// The bytes from the `S` of ST through the terminator of the set's last segment.
    pub bytes: &'a [u8],
    /// How many segments the set has, with ST and SE.
    pub segments: u32,
    /// SE, where it was sent.
    pub trailer: Option<SetTrailer<'a>>,
}

/// A functional group (X12.6).
#[derive(Drop)]
pub struct GroupView<'a> {
    /// GS01, the functional identifier code.
    pub functional: [u8; 2],
    /// GS02, the application sender's code.
    pub sender: &'a [u8],
    /// GS03, the application receiver's code.
    pub receiver: &'a [u8],
    /// GS06, the group control number, as it came.
    pub number_text: &'a [u8],
    /// GS06 as a number: 0 to 999999999.
    pub number: u32,
    /// GS08, the version.
    pub version: &'a [u8],
    /// The transaction sets, in their order.
    pub sets: Vec<SetView<'a>>,
    /// GE, where it was sent.
    pub trailer: Option<GroupTrailer<'a>>,
}

/// The numbers of functional groups (GS06), in their order.
///
/// # Errors
///
/// Want of memory alone.
pub fn group_numbers(alloc: Global, groups: &[GroupView<'_>]) -> Result<Vec<u32>, AllocError>
    ensures { IfOk result (λ ns. ns.items ≡ map (λ g. g.number) groups.now) }
{
    let mut numbers = Vec::new(alloc);
    for group in groups {
        numbers.push(group.number)?;
    }
    Ok(numbers)
}

/// What an interchange holds after ISA.
#[derive(Drop)]
pub struct Outline<'a> {
    /// The interchange acknowledgments, in their order.
    pub tas: Vec<Ta1>,
    /// The functional groups, in their order: at most 32, with at most 400 transaction sets in all.
    pub groups: Vec<GroupView<'a>>,
    /// IEA01, the number of groups; `None` where it is missing or no number.
    pub count: Option<u32>,
    /// IEA02, the interchange control number; `None` where it is missing or no number.
    pub trailer: Option<u32>,
}

/// Why an interchange has no outline: the first fault, with its place as an offset from `ISA`.
#[derive(Clone, Copy, Debug, PartialEq, Eq, Error)]
pub enum OutlineFault {
    /// O1. A control byte in a segment, or a segment that may not stand there.
    #[error("a control byte in a segment, or a misplaced segment, at byte {0}")]
    Structure(usize),
    /// O2. The input ends before a terminator, or before IEA.
    #[error("the interchange ends early, at byte {0}")]
    Premature(usize),
    /// O3. A TA1, GS or ST that can't be read, the 33rd group, or the 401st transaction set.
    #[error("the control segment at byte {0} can not be read, or is one too many")]
    Content(usize),
    /// O4. Want of memory.
    #[error("out of memory")]
    Memory,
}

impl OutlineFault {
    /// The fault's number: `O1` to `O4`.
    pub fn number(&self) -> &'static str
        ensures { result.now ≡ outline_fault_number self.now }
    {
        match self {
            OutlineFault::Structure(_) => "O1",
            OutlineFault::Premature(_) => "O2",
            OutlineFault::Content(_) => "O3",
            OutlineFault::Memory => "O4",
        }
    }

    /// Where the fault stands, as an offset from `ISA`; `None` for want of memory.
    pub fn place(&self) -> Option<usize>
        ensures { result ≡ outline_fault_place self.now }
    {
        match self {
            OutlineFault::Structure(place)
            | OutlineFault::Premature(place)
            | OutlineFault::Content(place) => Some(*place),
            OutlineFault::Memory => None,
        }
    }
}

impl From<AllocError> for OutlineFault {
    ghost from_gives = { λ _ e. e ≡ Memory };

    fn from(_error: AllocError) -> OutlineFault {
        OutlineFault::Memory
    }
}

impl<T: Drop> From<AllocFailed<T>> for OutlineFault {
    ghost from_gives = { λ _ e. e ≡ Memory };

    fn from(_error: AllocFailed<T>) -> OutlineFault {
        OutlineFault::Memory
    }
}
