//! The words of remarks: in which a transaction set differs from a table of rows.

use crate::wording::Wording;

/// What is remarked of a transaction set (`van check --lint`).
pub(crate) static LINT: [Wording; 9] = [
    Wording(
        "1",
        "no rows for this transaction set",
        "give it rows by --table; without rows nothing else is remarked",
    ),
    Wording(
        "2",
        "segment not among the rows of its transaction set",
        "look for it in the partner's guide: leave it out, or add it to the table",
    ),
    Wording("3", "mandatory segment missing", "add the segment"),
    Wording("4", "mandatory data element missing", "fill it in"),
    Wording(
        "5",
        "data element not of its type",
        "write it as its type wants it",
    ),
    Wording(
        "6",
        "data element too short",
        "fill it up to its least length",
    ),
    Wording(
        "7",
        "data element too long",
        "cut it to its greatest length",
    ),
    Wording(
        "8",
        "invalid code value",
        "take a code of the list, or add the partner's codes to the table",
    ),
    Wording(
        "9",
        "count doesn't match the segments",
        "count the segments again",
    ),
];
