//! The rows of a command line.

/// What a word of a command is.
#[derive(Clone, Copy)]
pub enum Kind {
    /// One that has to be there, by its place.
    One,
    /// As many as there are, by their place.
    Many,
    /// An option with a value.
    Value,
    /// An option that has to be there, with a value of any form: it may begin with a hyphen.
    Wanted,
    /// An option with a value of any form, and what it is where it is left out.
    Default(&'static str),
    /// An option whose value is one of these.
    Choice {
        /// What it may be.
        of: &'static [&'static str],
        /// What it is where it is left out: one of them.
        default: &'static str,
    },
    /// An option with as many values as follow, one at least.
    Values,
    /// An option without a value.
    Flag,
}

/// A word of a command.
#[derive(Clone, Copy)]
pub struct Word {
    /// What it is.
    pub kind: Kind,
    /// By what name its value is asked for; of an option, what stands behind the two hyphens.
    pub name: &'static str,
    /// What stands for its value in the help; of a flag, nothing.
    pub value: &'static str,
    /// What it says.
    pub help: &'static str,
}

/// A command.
#[derive(Clone, Copy)]
pub struct Row {
    /// Its name.
    pub name: &'static str,
    /// What it does.
    pub about: &'static str,
    /// What its help says behind its words.
    pub more: &'static str,
    /// Its words, no two of one name.
    pub words: &'static [Word],
}

/// What has a row: a command of a program.
pub trait HasRow: Copy {
    /// Its row.
    fn row(self) -> Row;
}

/// Commands that the help of a program lists together.
#[derive(Clone, Copy)]
pub struct Group<'r, C> {
    /// What stands above them in the help.
    pub title: &'static str,
    /// The commands, in the order of the help.
    pub commands: &'r [C],
}

/// A program, which wants a command.
#[derive(Clone, Copy)]
pub struct Program<'r, C> {
    /// Its name.
    pub name: &'static str,
    /// Its version.
    pub version: &'static str,
    /// What it does.
    pub about: &'static str,
    /// Its commands, no two of one name.
    pub groups: &'r [Group<'r, C>],
}
