//! The words of what a 997 says of a functional group (AK901, AK905).

use crate::wording::Wording;

/// How a group fares (AK901).
pub(crate) static FARES: [Wording; 7] = [
    Wording("A", "accepted", "nothing"),
    Wording(
        "E",
        "accepted, errors noted",
        "look at the notes, and mend what is sent next",
    ),
    Wording(
        "M",
        "rejected, message authentication code failed",
        "look at the keys agreed with the partner",
    ),
    Wording(
        "P",
        "partially accepted, at least one set rejected",
        "look at the sets that are listed as rejected",
    ),
    Wording(
        "R",
        "rejected",
        "look at the code and the listed sets, mend the group and send it again",
    ),
    Wording(
        "W",
        "rejected, assurance failed validity tests",
        "look at the keys agreed with the partner",
    ),
    Wording(
        "X",
        "rejected, content after decryption can't be analyzed",
        "look at the keys agreed with the partner",
    ),
];

/// Why a group is refused (AK905 to AK909).
pub(crate) static REASONS: [Wording; 6] = [
    Wording(
        "1",
        "functional group not supported",
        "agree on the group with the partner",
    ),
    Wording(
        "2",
        "functional group version not supported",
        "write a version into GS08 that the partner takes, as 004010",
    ),
    Wording(
        "3",
        "functional group trailer missing",
        "end the group with GE",
    ),
    Wording(
        "4",
        "group control numbers of header and trailer differ",
        "write GS06 into GE02",
    ),
    Wording(
        "5",
        "number of included transaction sets doesn't match",
        "count the sets of the group into GE01",
    ),
    Wording(
        "6",
        "invalid group control number",
        "write one to nine digits into GS06",
    ),
];
