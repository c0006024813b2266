//! How the run of a script ends.

/// How the run of a script that was not stopped ended.
#[derive(Clone, Copy, PartialEq, Eq)]
pub enum ScriptStatus {
    /// Each line was carried out, and no line of a report that was written says `BAD`.
    Done,
    /// A line is bad: the run ended there.
    BadLine,
    /// Each line was carried out, and a line of a report that was written says `BAD`: postings
    /// contradict a fate, or aren't what was submitted.
    BadReport,
}
