//! The keys of transaction sets: the interchange that holds them, and their places in it.

use x12_envelopes::Party;

/// The key of a transaction set: its interchange, and its places in it, from 1.
#[derive(Clone, Copy, Debug, PartialEq, Eq, PartialOrd, Ord)]
pub struct SetKey {
    /// The sender of the interchange (ISA05, ISA06).
    pub sender: Party,
    /// The interchange control number (ISA13): 0 to 999999999; that of a submission is 1 or more.
    pub icn: u32,
    /// The place of the functional group in the interchange, from 1; groups of acknowledgments count too.
    pub group: u16,
    /// The place of the transaction set in the group, from 1.
    pub set: u16,
}
