//! What the reply to an interchange takes.

/// What the reply to an interchange takes.
#[derive(Clone, Copy, Debug, PartialEq, Eq)]
pub struct Needs {
    /// A reply is due: it takes an interchange control number.
    pub reply: bool,
    /// The reply holds a functional group: it takes a group control number too.
    pub group: bool,
}
