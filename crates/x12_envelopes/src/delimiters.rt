//! The three delimiters of an interchange (X12.6).

ghost use Rattle.std.specs.Prelude.{◌≡◌};
ghost use Rattle.x12_envelopes.specs.Byte.{byte_is_line_end};
ghost use Rattle.x12_envelopes.specs.Delimiters.{byte_is_delimiter, byte_is_text};
ghost use Rattle.x12_envelopes.specs.Delimiters.{bytes_are_delimiters};

/// The delimiters of an interchange, as its header shows them: the bytes at offsets 3, 104 and 105.
#[derive(Clone, Copy, Debug, PartialEq, Eq)]
pub struct Delims {
    /// Stands before each element of a segment.
    pub element: u8,
    /// Parts the components of a composite element (ISA16).
    pub component: u8,
    /// Ends each segment.
    pub terminator: u8,
}

/// Whether a byte is a carriage return or a line feed.
pub(crate) fn is_line_end(b: u8) -> bool
    ensures { result ≡ byte_is_line_end b }
{
    b == b'\r' || b == b'\n'
}

/// Whether a byte can't delimit: a letter, a digit or a space.
fn is_text(b: u8) -> bool
    ensures { result ≡ byte_is_text b }
{
    b.is_ascii_alphanumeric() || b == b' '
}

impl Delims {
    /// Whether a byte is one of the three.
    pub fn contains(&self, b: u8) -> bool
        ensures { result ≡ byte_is_delimiter self.now b }
    {
        b == self.element || b == self.component || b == self.terminator
    }

    /// Whether the three can delimit: none is a letter, a digit or a space, no two are equal, and
    /// neither separator is a line end.
    #[tactic(auto, unfolding(crate::specs::Delimiters::bytes_are_delimiters))]
    pub fn can_delimit(&self) -> bool
        ensures { result ≡ bytes_are_delimiters self.now }
    {
        !is_text(self.element)
            && !is_text(self.component)
            && !is_text(self.terminator)
            && self.element != self.component
            && self.element != self.terminator
            && self.component != self.terminator
            && !is_line_end(self.element)
            && !is_line_end(self.component)
    }
}
