//! Which versions of the interchange controls are taken (X12.5, ISA11 and ISA12).

ghost use Rattle.std.specs.Prelude.{◌≡◌, ◌&&◌, ◌||◌};
ghost use Rattle.x12_judge.specs.Controls.{is_between, is_no_separator, is_of_x12};
ghost use Rattle.x12_judge.specs.Controls.{standard_is_unsupported, version_is_supported};
ghost use Rattle.x12_envelopes.specs.Byte.{number_of_digits};

use x12_envelopes::{Header, number_of};

/// The versions of the interchange controls (ISA12) that a station takes.
#[derive(Clone, Copy)]
pub enum Controls {
    /// 00200 to 00401, with `U` in ISA11.
    Until401,
    /// 00200 to 00501. From 00402 on ISA11 holds the repetition separator, or `U` as before.
    Until501,
}

/// Whether a version (ISA12) is a number between the two, both included.
fn is_version(version: &[u8], least: u32, most: u32) -> bool
    ensures { result ≡ is_between least most (number_of_digits version.now) }
{
    match number_of(version) {
        Some(n) => n >= least && n <= most,
        None => false,
    }
}

/// Whether a byte can't separate repetitions: a space, a digit or a letter.
fn is_no_separator(byte: u8) -> bool
    ensures { result ≡ is_no_separator byte }
{
    byte == b' ' || byte.is_ascii_digit() || byte.is_ascii_alphabetic()
}

/// Whether the newest controls don't take what ISA11 holds beside this version, where it isn't `U`.
fn is_misplaced(header: &Header) -> bool
    ensures { let version = number_of_digits header.now.version in
        result ≡ (is_between 200 401 version || is_between 402 501 version
        && is_no_separator header.now.standard) }
{
    is_version(&header.version, 200, 401)
        || is_version(&header.version, 402, 501) && is_no_separator(header.standard)
}

impl Controls {
    /// Whether a version of the controls (ISA12) is taken.
    pub(crate) fn takes_version(self, version: &[u8]) -> bool
        ensures { result ≡ version_is_supported self version.now }
    {
        match self {
            Controls::Until401 => is_version(version, 200, 401),
            Controls::Until501 => is_version(version, 200, 501),
        }
    }

    /// Whether ISA11 isn't supported.
    pub(crate) fn refuses_standard(self, header: &Header) -> bool
        ensures { result ≡ standard_is_unsupported self header.now }
    {
        if header.standard == b'U' {
            return false;
        }
        match self {
            Controls::Until401 => true,
            Controls::Until501 => is_misplaced(header),
        }
    }
}
