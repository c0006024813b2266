//! What an audit tells of a transaction set.

use x12_acks::SetKey;
use x12_envelopes::Party;
use x12_outbound::Fate;

/// What is found of a submitted transaction set: how it fares at its sender, and what its receiver's
/// postings have of it.
#[derive(Clone, Copy, Debug, PartialEq, Eq)]
pub struct Audit {
    /// Its key.
    pub key: SetKey,
    /// The party that it was submitted to (ISA07, ISA08).
    pub receiver: Party,
    /// How it fares at its sender.
    pub fate: Fate,
    /// How many postings have its key; `None` where the receiver is no station of the network.
    pub posted: Option<u64>,
    /// Whether each of these postings is the submitted transaction set, byte for byte.
    pub intact: bool,
}
