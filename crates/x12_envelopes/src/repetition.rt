//! The repetition separator of an interchange (X12.5, ISA11 since version 00402 of the controls).

ghost use Rattle.std.specs.Prelude.{◌≡◌, ◌≤◌, ◌<◌};
ghost use Rattle.x12_envelopes.specs.Repetition.{has_repetition, repetition_of};

use crate::byte::number_of;
use crate::header::{Header, STANDARD};

/// Whether a version (ISA12) has the repetition separator in ISA11: 00402 to 00501.
fn has_repetition(version: &[u8]) -> bool
    ensures { result ≡ has_repetition version.now }
{
    match number_of(version) {
        Some(n) => n >= 402 && n <= 501,
        None => false,
    }
}

impl Header {
    /// The repetition separator: ISA11, where ISA12 is from 00402 to 00501 and ISA11 isn't `U`, which
    /// still stands for the X12 standards there. Inside elements it is data like any other byte.
    pub fn repetition(&self) -> Option<u8>
        ensures { result ≡ repetition_of self.now }
    {
        if self.standard != STANDARD && has_repetition(&self.version) {
            return Some(self.standard);
        }
        None
    }
}
