//! The hubs whose TA1s a sender believes.
ghost use Rattle.std.specs.Prelude.{◌≡◌};
ghost use Rattle.std.specs.List.{list_any};
ghost use Rattle.x12_judge.specs.Agreement.{is_same_party};
ghost use Rattle.x12_outbound.specs.Hubs.{hubs_of};

use x12_envelopes::Party;

/// The hubs whose TA1s a sender believes: its own, and the one that this is connected to, if there
/// is one.
#[derive(Clone, Copy)]
pub struct Hubs {
    /// The sender's hub.
    pub hub: Party,
    /// The hub that the sender's hub is connected to.
    pub other: Option<Party>,
}

impl Hubs {
    /// Whether a party is one of them.
    pub(crate) fn contain(&self, party: &Party) -> bool
        ensures { result ≡ list_any (is_same_party party.now) (hubs_of self.now) }
    {
        if *party == self.hub {
            return true;
        }
        match self.other {
            Some(other) => *party == other,
            None => false,
        }
    }
}
