//! Fates of submitted transaction sets, in a word.

use x12_outbound::Fate;

/// The word of a fate.
pub fn fate_word(fate: Fate) -> &'static str {
    match fate {
        Fate::Pending => "pending",
        Fate::Accepted => "accepted",
        Fate::Noted => "noted",
        Fate::Rejected => "rejected",
    }
}
