//! The names that a script gives to parties.

ghost use Rattle.std.specs.Prelude.{◌≡◌, IsTrue, Some, None, option_map};
ghost use Rattle.x12_envelopes.specs.Party.{is_plain_party};
ghost use Rattle.x12_vanlab.specs.Script.{party_in_word};

use x12_answering::are_capitals_or_digits;
use x12_envelopes::Party;

/// A name: the plain party that it means.
#[derive(Clone, Copy)]
pub(crate) struct Name {
    /// The party.
    pub(crate) party: Party,
    ghost plain: { IsTrue (is_plain_party party) },
}

/// The name that a word is: two to fifteen capital letters and digits. It means the party with the
/// qualifier ZZ.
#[tactic(auto, unfolding(crate::specs::Script::party_in_word))]
pub(crate) fn read_name(word: &[u8]) -> Option<Name>
    ensures { option_map (λ n. n.party) result ≡ party_in_word word.now }
{
    if !are_capitals_or_digits(word) {
        return None;
    }
    let party = Party::new(*b"ZZ", word)?;
    if party.is_plain() {
        Some(Name { party })
    } else {
        None
    }
}

/// The first hub's name.
#[tactic(auto, unfolding(x12_envelopes::specs::Party::is_plain_party))]
pub(crate) fn hub_name() -> Name {
    Name {
        party: Party {
            qualifier: *b"ZZ",
            id: *b"HUB            ",
        },
    }
}

/// The second hub's name.
#[tactic(auto, unfolding(x12_envelopes::specs::Party::is_plain_party))]
pub(crate) fn second_hub_name() -> Name {
    Name {
        party: Party {
            qualifier: *b"ZZ",
            id: *b"HUB2           ",
        },
    }
}

/// A member of a network: the name of a node, and whether it is at the second hub.
#[derive(Clone, Copy)]
pub(crate) struct Member {
    /// The name of the node.
    pub(crate) name: Name,
    /// It is at the second hub.
    pub(crate) at_second: bool,
}
