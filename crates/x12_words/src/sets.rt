//! The words of what a 997 says of a transaction set (AK501 to AK506).

use crate::wording::Wording;

/// How a transaction set fares (AK501).
pub(crate) static FARES: [Wording; 6] = [
    Wording("A", "accepted", "nothing"),
    Wording(
        "E",
        "accepted, errors noted",
        "look at the notes, and mend what is sent next",
    ),
    Wording(
        "M",
        "rejected, message authentication code failed",
        "look at the keys agreed with the partner",
    ),
    Wording(
        "R",
        "rejected",
        "look at the codes and notes, mend the set and send it again",
    ),
    Wording(
        "W",
        "rejected, assurance failed validity tests",
        "look at the keys agreed with the partner",
    ),
    Wording(
        "X",
        "rejected, content after decryption can't be analyzed",
        "look at the keys agreed with the partner",
    ),
];

/// Why a transaction set is rejected (AK502 to AK506).
pub(crate) static REASONS: [Wording; 8] = [
    Wording(
        "1",
        "transaction set not supported",
        "agree on the set with the partner",
    ),
    Wording(
        "2",
        "transaction set trailer missing",
        "end the set with SE",
    ),
    Wording(
        "3",
        "transaction set control numbers of header and trailer differ",
        "write ST02 into SE02",
    ),
    Wording(
        "4",
        "number of included segments doesn't match",
        "count the segments from ST to SE into SE01",
    ),
    Wording(
        "5",
        "one or more segments in error",
        "look at the segments that the AK3s name",
    ),
    Wording(
        "6",
        "missing or invalid transaction set identifier",
        "write the set's three digits into ST01",
    ),
    Wording(
        "7",
        "missing or invalid transaction set control number",
        "write four to nine characters into ST02",
    ),
    Wording(
        "23",
        "transaction set control number not unique in its group",
        "number the sets of a group without repeating",
    ),
];
