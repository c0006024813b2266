//! The interchange header, ISA (X12.5): its fields, and the first fault that it has.

ghost use Rattle.std.specs.Prelude.{◌≡◌, ◌+◌, ◌-◌, ◌≤◌, ◌<◌, ◌&&◌, ◌==◌, not, true, length, nat_lt};
ghost use Rattle.std.specs.Prelude.{nat_le, slice_index, slice_range};
ghost use Rattle.std.specs.List.{count_by, list_all, list_any};
ghost use Rattle.x12_envelopes.specs.Byte.{bytes_are_digits};
ghost use Rattle.x12_envelopes.specs.Fault.{header_fault_number};
ghost use Rattle.x12_envelopes.specs.Header.{is_barred, isa_elements, header_is_isa, elements_are_plain};
ghost use Rattle.x12_envelopes.specs.Header.{elements_are_fields, header_of, delimiters_of};

use crate::byte::{are_digits, field, value_of};
use crate::delimiters::Delims;
use crate::party::Party;
use std::error::Error;
use std::fmt;

/// What ISA says of an interchange. Bytes that aren't checked here are checked by the judgement.
#[derive(Clone, Copy, Debug, PartialEq, Eq)]
pub struct Header {
    /// The bytes at offsets 3, 104 and 105.
    pub delims: Delims,
    /// ISA05 and ISA06.
    pub sender: Party,
    /// ISA07 and ISA08.
    pub receiver: Party,
    /// ISA09, the date as YYMMDD.
    pub date: [u8; 6],
    /// ISA10, the time as HHMM.
    pub time: [u8; 4],
    /// ISA11, the interchange standards identifier.
    pub standard: u8,
    /// ISA12, the interchange control version number.
    pub version: [u8; 5],
    /// ISA13, the interchange control number: 0 to 999999999.
    pub icn: u32,
    /// ISA14, whether an acknowledgment is requested.
    pub ack: u8,
    /// ISA15, the usage indicator.
    pub usage: u8,
}

/// Why bytes have no interchange header: the first that holds.
#[derive(Clone, Copy, Debug, PartialEq, Eq)]
pub enum HeaderFault {
    /// H1. More than 1,048,576 bytes.
    TooLong,
    /// H2. Fewer than the 106 bytes of a header.
    TooShort,
    /// H3. No `ISA` in front, or an element separator that isn't in its place.
    NotIsa,
    /// H4. Delimiters that are equal, a letter, a digit or a space; or a separator that is CR, LF.
    BadDelimiters,
    /// H5. A delimiter or a control byte inside a field, or an ISA13 that isn't nine digits.
    BadField,
}

impl fmt::Display for HeaderFault {
    fn fmt<W: fmt::Write>(&self, f: &mut fmt::Formatter<W>) -> fmt::Result {
        f.write_str(match *self {
            HeaderFault::TooLong => "the interchange has more than 1048576 bytes",
            HeaderFault::TooShort => "the interchange has fewer than the 106 bytes of a header",
            HeaderFault::NotIsa =>
                "the header does not begin with ISA, or an element separator is not in its place",
            HeaderFault::BadDelimiters =>
                "the header's delimiters are equal, or one of them can not delimit",
            HeaderFault::BadField =>
                "a field of the header holds a delimiter or a control byte, or ISA13 is no number",
        })
    }
}

impl Error for HeaderFault {}

impl HeaderFault {
    /// The fault's number: `H1` to `H5`.
    pub fn number(&self) -> &'static str
        ensures { result.now ≡ header_fault_number self.now }
    {
        match self {
            HeaderFault::TooLong => "H1",
            HeaderFault::TooShort => "H2",
            HeaderFault::NotIsa => "H3",
            HeaderFault::BadDelimiters => "H4",
            HeaderFault::BadField => "H5",
        }
    }
}

/// The greatest length of an interchange, in bytes: 1,048,576.
pub const MAX_INTERCHANGE_BYTES: usize = 1_048_576;

/// The length of ISA with its terminator, in bytes: 106.
pub const HEADER_BYTES: usize = 106;

/// ISA11 as this product writes it: the X12 standards.
pub const STANDARD: u8 = b'U';

/// ISA12 as this product writes it: version 4, release 1 of the controls.
pub const VERSION: [u8; 5] = *b"00401";

/// ISA05, the sender's qualifier: where it begins and ends, in bytes from the I of ISA.
const SENDER_QUALIFIER: (usize, usize) = (32, 34);

/// ISA06, the sender's identifier.
const SENDER_ID: (usize, usize) = (35, 50);

/// ISA07, the receiver's qualifier.
const RECEIVER_QUALIFIER: (usize, usize) = (51, 53);

/// ISA08, the receiver's identifier.
const RECEIVER_ID: (usize, usize) = (54, 69);

/// ISA09, the date.
const DATE: (usize, usize) = (70, 76);

/// ISA10, the time.
const TIME: (usize, usize) = (77, 81);

/// ISA11, the standard of the controls.
const CONTROL_STANDARD: (usize, usize) = (82, 83);

/// ISA12, the version of the controls.
const CONTROL_VERSION: (usize, usize) = (84, 89);

/// ISA13, the control number.
const CONTROL_NUMBER: (usize, usize) = (90, 99);

/// ISA14, whether an acknowledgment is requested.
const ACK_REQUESTED: (usize, usize) = (100, 101);

/// ISA15, the usage.
const USAGE: (usize, usize) = (102, 103);

/// ISA01 to ISA15, in their order.
const ELEMENTS: [(usize, usize); 15] = [
    (4, 6),
    (7, 17),
    (18, 20),
    (21, 31),
    SENDER_QUALIFIER,
    SENDER_ID,
    RECEIVER_QUALIFIER,
    RECEIVER_ID,
    DATE,
    TIME,
    CONTROL_STANDARD,
    CONTROL_VERSION,
    CONTROL_NUMBER,
    ACK_REQUESTED,
    USAGE,
];

/// Whether a byte stands in front of each range of bytes.
fn stands_before(bytes: &[u8], byte: u8, ranges: &[(usize, usize)]) -> bool
    ensures { result
        ≡ list_all (λ r. nat_le 1 r.0 && nat_lt (r.0 - 1) (length bytes.now)
        && slice_index bytes.now (r.0 - 1) == byte) ranges.now }
{
    ranges.iter().all(|r| 1 <= r.0 && r.0 - 1 < bytes.len() && bytes[r.0 - 1] == byte)
}

/// Whether an element separator stands in front of ISA01 to ISA15, as in front of the first of them.
#[tactic(auto, using(crate::proofs::HeaderElementLemmas::separated))]
fn are_separated(bytes: &[u8]) -> bool
    requires { 106 ≤ length bytes.now }
    ensures { result ≡ list_all (λ e.
        slice_index bytes.now (e.offset - 1) == slice_index bytes.now 3) isa_elements }
{
    stands_before(bytes, bytes[3], &ELEMENTS)
}

/// Whether `ISA` stands in front and the element separator before each element.
#[tactic(auto, unfolding(crate::specs::Header::header_is_isa))]
fn is_isa(bytes: &[u8]) -> bool
    requires { 106 ≤ length bytes.now }
    ensures { result ≡ header_is_isa bytes.now }
{
    let (name, _) = bytes.split_at(3);
    name == b"ISA".as_slice() && are_separated(bytes) && bytes[103] == bytes[3]
}

/// Whether a text holds a delimiter or a byte below 0x20.
pub(crate) fn holds_barred(delims: &Delims, text: &[u8]) -> bool
    ensures { result ≡ list_any (is_barred delims.now) text.now }
{
    text.iter().any(|b| delims.contains(*b) || *b < 0x20)
}

/// How many bytes of a text are a delimiter or a byte below 0x20. Counts them with no branch.
fn barred_count(delims: &Delims, text: &[u8]) -> u8
    requires { length text.now ≤ 255 }
    ensures { result ≡ count_by (is_barred delims.now) text.now }
{
    let mut count = 0;
    for b in text {
        count += u8::from(delims.contains(*b) || *b < 0x20);
    }
    count
}

/// Whether ISA01 to ISA15 hold no delimiter and no byte below 0x20: the only ones between the first
/// separator and the last are then those in front of the elements.
fn are_plain(delims: &Delims, bytes: &[u8]) -> bool
    requires header { 106 ≤ length bytes.now }
    requires isa { header_is_isa bytes.now ≡ true }
    requires delims { delims.now ≡ delimiters_of bytes.now }
    ensures { result ≡ elements_are_plain bytes.now }
{
    usize::from(barred_count(delims, &bytes[3..103])) == ELEMENTS.len()
}

/// Whether ISA01 to ISA15 are fields as they may be.
#[tactic(auto, unfolding(crate::specs::Header::elements_are_fields))]
fn are_fields(delims: &Delims, bytes: &[u8]) -> bool
    requires header { 106 ≤ length bytes.now }
    requires isa { header_is_isa bytes.now ≡ true }
    requires delims { delims.now ≡ delimiters_of bytes.now }
    ensures fields { result ≡ elements_are_fields bytes.now }
    ensures number { result ≡ true → bytes_are_digits (slice_range bytes.now 90 99) ≡ true }
{
    are_plain(delims, bytes) && are_digits(&bytes[CONTROL_NUMBER.0..CONTROL_NUMBER.1])
}

/// Reads the header of an interchange (X12.5), which takes its first 106 bytes, or tells the first
/// of its faults.
#[tactic(auto, unfolding(crate::specs::Header::header_of))]
pub fn read_header(bytes: &[u8]) -> Result<Header, HeaderFault>
    ensures { result ≡ header_of bytes.now }
{
    if bytes.len() > MAX_INTERCHANGE_BYTES {
        return Err(HeaderFault::TooLong);
    }
    if bytes.len() < HEADER_BYTES {
        return Err(HeaderFault::TooShort);
    }
    if !is_isa(bytes) {
        return Err(HeaderFault::NotIsa);
    }
    let delims = Delims {
        element: bytes[3],
        component: bytes[104],
        terminator: bytes[105],
    };
    if !delims.can_delimit() {
        return Err(HeaderFault::BadDelimiters);
    }
    if !are_fields(&delims, bytes) {
        return Err(HeaderFault::BadField);
    }
    Ok(Header {
        delims,
        sender: Party {
            qualifier: field(bytes, SENDER_QUALIFIER.0),
            id: field(bytes, SENDER_ID.0),
        },
        receiver: Party {
            qualifier: field(bytes, RECEIVER_QUALIFIER.0),
            id: field(bytes, RECEIVER_ID.0),
        },
        date: field(bytes, DATE.0),
        time: field(bytes, TIME.0),
        standard: bytes[CONTROL_STANDARD.0],
        version: field(bytes, CONTROL_VERSION.0),
        icn: value_of(&bytes[CONTROL_NUMBER.0..CONTROL_NUMBER.1]),
        ack: bytes[ACK_REQUESTED.0],
        usage: bytes[USAGE.0],
    })
}
