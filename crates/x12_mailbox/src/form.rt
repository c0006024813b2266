//! How lines are written.

/// How lines are written.
#[derive(Clone, Copy, PartialEq, Eq)]
pub(crate) enum Form {
    /// In words.
    Words,
    /// One JSON object a line.
    Json,
    /// CSV, after a line with the column names.
    Csv,
}
