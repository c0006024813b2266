//! Whom bytes from outside name as their sender.

ghost use Rattle.std.specs.Prelude.{◌≡◌, ◌&&◌};
ghost use Rattle.std.specs.List.{list_any};
ghost use Rattle.x12_judge.specs.Agreement.{is_same_party};
ghost use Rattle.x12_profile.specs.X12.{x12};

use x12_envelopes::{Party, read_header};

/// Whether one of these is this party.
pub(crate) fn is_among(parties: &[Party], party: &Party) -> bool
    ensures { result ≡ list_any (is_same_party party.now) parties.now }
{
    for other in parties {
        if party == other {
            return true;
        }
    }
    false
}

/// Whether bytes name one of these parties as their sender.
pub(crate) fn name_one(parties: &[Party], bytes: &[u8]) -> bool
    ensures { result ≡ (x12.has_header bytes.now
        && list_any (is_same_party (x12.sender bytes.now)) parties.now) }
{
    match read_header(bytes) {
        Ok(header) => is_among(parties, &header.sender),
        Err(_) => false,
    }
}
