//! Remarks on a transaction set: which row of the table isn't met, and by which segment.

use crate::element::{Flaw, Rule};

/// A remark on a transaction set. Positions are those of its segments: ST is 1.
#[derive(Clone, Copy)]
pub enum Remark<'r> {
    /// The table has no rows for the set.
    UnknownSet,
    /// The set's rows have no such segment.
    UnknownSegment {
        /// The segment's position.
        position: usize,
        /// Its bytes.
        segment: &'r [u8],
    },
    /// A segment that the set has to have isn't there.
    MissingSegment {
        /// The position of the set's last segment.
        position: usize,
        /// The missing segment's identifier.
        identifier: &'r [u8],
    },
    /// An element isn't as its rule says.
    Element {
        /// The position of its segment.
        position: usize,
        /// Its segment's bytes.
        segment: &'r [u8],
        /// Its rule.
        rule: &'r Rule,
        /// What is wrong.
        flaw: Flaw,
    },
    /// The first element of a segment isn't the number of the segments that it counts.
    Count {
        /// The position of the segment that counts.
        position: usize,
        /// Its bytes.
        segment: &'r [u8],
        /// The identifier of the segments that it counts.
        counted: &'r [u8],
        /// How many there are.
        number: usize,
    },
}
