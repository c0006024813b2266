//! What takes an interchange: a station or a hub.

ghost use Rattle.std.specs.Prelude.{◌≡◌, ◌⊎◌, ℕ, List, MatchResult, map, option_map};
ghost use Rattle.x12_profile.specs.Interchange.{Bytes};
ghost use Rattle.x12_station.specs.Outgoing.{outgoing_bytes};
ghost use Rattle.x12_spool.specs.Node.{IsAnsweredBy, Offered, offer_view};
ghost use Rattle.x12_spool.specs.declared.node.Reason.{Reason};

use std::alloc::AllocError;
use x12_envelopes::HeaderFault;
use x12_station::{Outgoing, StationFault};

/// What a node says of an interchange.
#[derive(Drop)]
pub enum Answer {
    /// It was taken, and this is to be sent on.
    Sends(Option<Outgoing>),
    /// It isn't taken.
    Refused(Reason),
}

/// A reply, if there is one, to be sent on.
pub(crate) fn sent_on(reply: Option<Vec<u8>>) -> Option<Outgoing>
    ensures { option_map outgoing_bytes result ≡ option_map (λ v. v.items) reply }
{
    match reply {
        Some(reply) => Some(Outgoing::Own(reply)),
        None => None,
    }
}

/// Why a node doesn't take an interchange.
#[derive(Clone, Copy)]
pub enum Reason {
    /// It has no header that can be read.
    NoHeader(HeaderFault),
    /// It stands in the folder of one party, and its header names another as sender.
    AnotherSender,
    /// It may not be submitted.
    NotSubmitted(StationFault),
}

/// What a node has to put by itself.
#[derive(Drop)]
pub struct Offer {
    /// The number of the item in its mailbox, where it is one.
    pub item: Option<u32>,
    /// The interchange.
    pub bytes: Outgoing,
}

/// Why a node did nothing.
#[derive(Clone, Copy)]
pub enum NodeFault {
    /// No control number is left.
    Exhausted,
    /// Its records failed.
    Store,
    /// Memory was missing.
    Memory,
}

impl From<AllocError> for NodeFault {
    ghost from_gives = { λ _ _. Unit {0} };

    fn from(_: AllocError) -> NodeFault {
        NodeFault::Memory
    }
}

/// A station or a hub, over its records.
pub trait Node {
    /// It took these bytes, and sends these: one step of its definition.
    ghost takes: { Self → Self → Bytes → List Bytes → Type 0 };
    /// It doesn't take these bytes, for this reason.
    ghost refuses: { Self → Self → Bytes → Reason → Type 0 };
    /// It heard that an item was taken out of its mailbox.
    ghost frees: { Self → Self → ℕ → Type 0 };
    /// It has these to put, at this tick.
    ghost offers: { Self → Self → ℕ → List Offered → Type 0 };
    /// It is as it was.
    ghost stays: { Self → Self → Type 0 };

    /// An interchange came.
    fn take(&mut self, bytes: &[u8]) -> Result<Answer, NodeFault>
        ensures { MatchResult result
            (IsAnsweredBy takes refuses stays self.old self.new bytes.now)
            (λ _. stays self.old self.new) };

    /// The word came that an item was taken.
    fn free(&mut self, item: u32) -> Result<(), NodeFault>
        ensures { MatchResult result
            (λ _. frees self.old self.new item)
            (λ _. stays self.old self.new) };

    /// What it has to put by itself, at this tick. Where this answers an error, what it had to put may be
    /// lost until a later tick.
    fn offer(&mut self, now: u64) -> Result<Vec<Offer>, NodeFault>
        ensures { MatchResult result
            (λ v. offers self.old self.new now (map offer_view v.items))
            (λ _. stays self.old self.new ⊎ ((lost : List Offered) × offers self.old self.new now lost)) };
}
