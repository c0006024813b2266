//! Why a control number book refuses a call.
ghost use Rattle.std.specs.Prelude.{◌≡◌, codes};

use thiserror::Error;

/// Why a book gives no number: N1. Fewer numbers are left, up to 999999999, than are asked for.
#[derive(Clone, Copy, Debug, PartialEq, Eq, Error)]
#[error("no control number up to 999999999 is left: go on under another sender identifier")]
pub struct Exhausted;

impl Exhausted {
    /// The number of this refusal in what the program prints: `N1`.
    pub fn number(self) -> &'static str
        ensures { result.now ≡ codes "N1" }
    {
        "N1"
    }
}

/// Why a book isn't raised: N2. A number isn't above all before it, or is above 999999999.
#[derive(Clone, Copy, Debug, PartialEq, Eq, Error)]
#[error("a control number is not new: number again, above all earlier numbers, up to 999999999")]
pub struct NotNew;

impl NotNew {
    /// The number of this refusal in what the program prints: `N2`.
    pub fn number(self) -> &'static str
        ensures { result.now ≡ codes "N2" }
    {
        "N2"
    }
}
