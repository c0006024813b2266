//! The words of what a 997 notes of segments and elements (AK304, AK403).

use crate::wording::Wording;

/// What is wrong with a segment (AK304).
pub(crate) static SEGMENT: [Wording; 8] = [
    Wording(
        "1",
        "segment identifier not recognized",
        "use two or three capital letters and digits, the first a letter",
    ),
    Wording(
        "2",
        "unexpected segment",
        "compare the order of segments with the guide",
    ),
    Wording(
        "3",
        "mandatory segment missing",
        "put the segment in at that position",
    ),
    Wording(
        "4",
        "loop occurs too often",
        "compare the loop with the guide",
    ),
    Wording(
        "5",
        "segment exceeds maximum use",
        "leave the further ones out",
    ),
    Wording(
        "6",
        "segment not in the transaction set's definition",
        "leave the segment out",
    ),
    Wording(
        "7",
        "segment not in proper sequence",
        "compare the order of segments with the guide",
    ),
    Wording(
        "8",
        "segment has data element errors",
        "look at the elements that the AK4s name",
    ),
];

/// What is wrong with an element (AK403).
pub(crate) static ELEMENT: [Wording; 10] = [
    Wording("1", "mandatory data element missing", "fill the element in"),
    Wording(
        "2",
        "conditional data element missing",
        "fill the element in, or leave out the one that asks for it",
    ),
    Wording(
        "3",
        "too many data elements",
        "leave the further elements out",
    ),
    Wording(
        "4",
        "data element too short",
        "fill it up to its least length",
    ),
    Wording(
        "5",
        "data element too long",
        "cut it to its greatest length",
    ),
    Wording(
        "6",
        "invalid character in data element",
        "take the character out",
    ),
    Wording(
        "7",
        "invalid code value",
        "use a code of the element's list",
    ),
    Wording(
        "8",
        "invalid date",
        "write a date of the calendar as CCYYMMDD",
    ),
    Wording("9", "invalid time", "write a time as HHMM"),
    Wording(
        "10",
        "exclusion condition violated",
        "leave out one of the two elements",
    ),
];
