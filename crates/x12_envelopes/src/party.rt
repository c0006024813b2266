//! A trading partner's address in an interchange: qualifier and identifier (X12.5, ISA05 to ISA08).

ghost use Rattle.std.specs.Prelude.{◌≡◌, ◌≤◌, ◌==◌, length};
ghost use Rattle.std.specs.List.{suffix_len, list_all};
ghost use Rattle.x12_envelopes.specs.Byte.{byte_is_capital_or_digit};
ghost use Rattle.x12_envelopes.specs.Letter.{space};
ghost use Rattle.x12_envelopes.specs.Party.{identifier_of_party, party_of, is_plain_party};

/// A trading partner's address, as ISA05 and ISA06, or ISA07 and ISA08, hold it.
#[derive(Clone, Copy, Debug, PartialEq, Eq, PartialOrd, Ord)]
pub struct Party {
    /// The identifier qualifier, two bytes.
    pub qualifier: [u8; 2],
    /// The identifier, padded with spaces to fifteen bytes.
    pub id: [u8; 15],
}

/// Whether a text is capital letters and digits alone.
fn are_capitals_or_digits(text: &[u8]) -> bool
    ensures { result ≡ list_all byte_is_capital_or_digit text.now }
{
    text.iter()
        .all(|b| b.is_ascii_uppercase() || b.is_ascii_digit())
}

/// Counts the spaces at the end of a text.
fn trailing_spaces(text: &[u8]) -> usize
    ensures count { result ≡ suffix_len (λ b. b == space) text.now }
    ensures within { result ≤ length text.now }
{
    text.iter().rev().take_while(|b| **b == b' ').count()
}

impl Party {
    /// The party with a qualifier and an identifier, which is padded with spaces; `None` where the
    /// identifier is longer than fifteen bytes.
    #[tactic(auto, unfolding(crate::specs::Party::party_of))]
    pub fn new(qualifier: [u8; 2], identifier: &[u8]) -> Option<Party>
        ensures { result ≡ party_of qualifier identifier.now }
    {
        if identifier.len() > 15 {
            return None;
        }
        let mut id = [b' '; 15];
        id[..identifier.len()].copy_from_slice(identifier);
        Some(Party { qualifier, id })
    }

    /// The identifier without the spaces behind it.
    pub fn identifier(&self) -> &[u8]
        ensures { result.now ≡ identifier_of_party self.now }
    {
        let padded: &[u8] = &self.id;
        let (identifier, _) = padded.split_at(padded.len() - trailing_spaces(padded));
        identifier
    }

    /// Whether this is a plain address: capital letters and digits alone, two in the qualifier, two
    /// to fifteen in the identifier.
    #[tactic(auto, unfolding(crate::specs::Party::is_plain_party))]
    pub fn is_plain(&self) -> bool
        ensures { result ≡ is_plain_party self.now }
    {
        are_capitals_or_digits(&self.qualifier)
            && self.identifier().len() >= 2
            && are_capitals_or_digits(self.identifier())
    }
}
