//! What was submitted.

/// That a station submitted an interchange.
#[derive(Clone, Copy)]
pub struct Listed {
    /// The station's node.
    pub node: u16,
    /// The interchange control number (ISA13).
    pub icn: u32,
}
