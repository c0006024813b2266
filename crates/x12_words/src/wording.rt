//! A code in words.

ghost use Rattle.std.specs.Prelude.{◌≡◌};

/// A code in words, a row of its family's table: the code, what it says, and what to do about it.
#[derive(Clone, Copy)]
pub struct Wording(
    pub(crate) &'static str,
    pub(crate) &'static str,
    pub(crate) &'static str,
);

impl Wording {
    /// The code in its family, as `5`, `023` or `H2`.
    pub fn code(&self) -> &'static str
        ensures { result.now ≡ self.now.0.now }
    {
        self.0
    }

    /// What it says.
    pub fn words(&self) -> &'static str {
        self.1
    }

    /// What to do about it.
    pub fn action(&self) -> &'static str {
        self.2
    }
}
