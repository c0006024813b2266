//! What is filed of an interchange that arrived: its bytes, and the reply that was kept.

use x12_envelopes::Party;

/// What is filed of an interchange.
#[derive(Debug, Drop)]
pub struct Filed {
    /// The bytes as they arrived.
    pub bytes: Vec<u8>,
    /// The reply that was kept; `None` where none was due.
    pub reply: Option<Vec<u8>>,
}

/// A filed interchange, with the partner and the number that it is filed under.
#[derive(Debug, Drop)]
pub struct FiledRow {
    /// Who sent it (ISA05, ISA06).
    pub partner: Party,
    /// The interchange control number (ISA13): 1 to 999999999.
    pub icn: u32,
    /// What is filed.
    pub filed: Filed,
}
