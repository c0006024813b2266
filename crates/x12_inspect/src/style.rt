//! How a result is written.

/// In which form the result is written.
#[derive(Clone, Copy, PartialEq, Eq)]
pub enum Form {
    /// In words.
    Text,
    /// As JSON, one object a line for each interchange.
    Json,
    /// As CSV, a line for each finding of a check. What is shown or explained has none.
    Csv,
}

/// How words are set out.
#[derive(Clone, Copy, PartialEq, Eq)]
pub enum Look {
    /// As a file has them.
    Plain,
    /// As a terminal has them: below what is wrong stand the bytes, with carets below the place.
    Carets,
    /// The same, in colours.
    Colors,
}

/// How a result is written.
#[derive(Clone, Copy)]
pub struct Style<'a> {
    /// In words, as JSON, or as CSV.
    pub form: Form,
    /// How words are set out.
    pub look: Look,
    /// The name of the file, which JSON and CSV tell.
    pub file: &'a str,
    /// Whether nothing is said of what is right, and the name of the file of what isn't.
    pub is_quiet: bool,
}
