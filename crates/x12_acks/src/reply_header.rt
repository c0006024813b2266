//! What the header segments of a reply (ISA, GS) say of whoever answers.

use x12_envelopes::{Moment, Party};

/// Who answers an interchange, when, and under which control numbers.
#[derive(Clone, Copy)]
pub struct ReplyHeader {
    /// Who answers (ISA05 and ISA06).
    pub me: Party,
    /// When the reply is written (ISA09, ISA10, GS04, GS05).
    pub at: Moment,
    /// ISA13, the interchange control number: 1 to 999999999.
    pub icn: u32,
    /// GS06, the group control number: 1 to 999999999, where the reply has a functional group.
    pub gcn: u32,
}
