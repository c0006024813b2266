//! An interchange to be written (X12.5, X12.6): what its sender chooses. Its trailers, counts and
//! written text follow from that. GS, ST and data are borrowed: writing copies each byte once.

use crate::delimiters::Delims;
use crate::moment::Moment;
use crate::party::Party;

/// A transaction set to be written. SE follows from it.
#[derive(Drop)]
pub struct SetEnvelope<'a> {
    /// ST: its identifier, then its elements.
    pub header: Vec<&'a [u8]>,
    /// The segments between ST and SE, each its identifier, then its elements.
    pub segments: &'a [Vec<Vec<u8>>],
}

/// A functional group to be written. GE follows from it.
#[derive(Drop)]
pub struct GroupEnvelope<'a> {
    /// GS: its identifier, then its elements.
    pub header: Vec<&'a [u8]>,
    /// The transaction sets, in their order.
    pub sets: Vec<SetEnvelope<'a>>,
}

/// An interchange to be written. ISA and IEA follow from it.
#[derive(Drop)]
pub struct Envelope<'a> {
    /// The delimiters of the whole interchange.
    pub delims: Delims,
    /// ISA05 and ISA06.
    pub sender: Party,
    /// ISA07 and ISA08.
    pub receiver: Party,
    /// ISA09 and ISA10.
    pub at: Moment,
    /// ISA13, the interchange control number: 0 to 999999999.
    pub icn: u32,
    /// ISA14, whether an acknowledgment is requested.
    pub ack: u8,
    /// ISA15, the usage indicator.
    pub usage: u8,
    /// The interchange acknowledgments, TA1, in order: each its identifier, then its elements.
    pub tas: Vec<Vec<Vec<u8>>>,
    /// The functional groups, in their order.
    pub groups: Vec<GroupEnvelope<'a>>,
}
