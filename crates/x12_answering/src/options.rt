//! What answering is told: who answers and when, the first control numbers, and what is taken from
//! partners.

ghost use Rattle.std.specs.Prelude.{◌<◌, ◌≤◌, IsTrue};
ghost use Rattle.x12_envelopes.specs.Party.{is_plain_party};

use x12_envelopes::{Moment, Party};

/// What answering is told.
#[derive(Drop)]
pub struct Options {
    /// Who answers: the receiver of the interchanges and the sender of the replies.
    pub me: Party,
    /// The first interchange control number: 1 to 999999999.
    pub icn: u32,
    /// The first group control number: 1 to 999999999.
    pub gcn: u32,
    /// When the replies are written.
    pub at: Moment,
    /// Whether sets are accepted whose only errors are in elements, with these noted.
    pub lenient: bool,
    /// GS01 and ST01 of what is taken from every partner, as `PO` and `850`.
    pub pairs: Vec<([u8; 2], [u8; 3])>,
    ghost plain: { IsTrue (is_plain_party me) },
    ghost some_icn: { 0 < icn },
    ghost icn_fits: { icn ≤ 999999999 },
    ghost some_gcn: { 0 < gcn },
    ghost gcn_fits: { gcn ≤ 999999999 },
}
