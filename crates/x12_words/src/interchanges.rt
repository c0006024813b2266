//! The words of what a TA1 says of an interchange (X12.5, TA104 and TA105).

use crate::wording::Wording;

/// The note of an interchange (TA105).
pub(crate) static NOTES: [Wording; 28] = [
    Wording("000", "no error", "nothing"),
    Wording(
        "001",
        "the interchange control numbers of header and trailer differ",
        "write ISA13's number into IEA02",
    ),
    Wording(
        "002",
        "the interchange standard isn't supported",
        "write U into ISA11, or from version 00402 on a repetition separator",
    ),
    Wording(
        "003",
        "the version of the interchange controls isn't supported",
        "write a version from 00200 to 00501 into ISA12",
    ),
    Wording(
        "004",
        "invalid segment terminator",
        "agree on the segment terminator, and send again",
    ),
    Wording(
        "005",
        "invalid interchange sender qualifier",
        "compare ISA05 with the agreement",
    ),
    Wording(
        "006",
        "invalid interchange sender identifier",
        "compare ISA06 with the agreement",
    ),
    Wording(
        "007",
        "invalid interchange receiver qualifier",
        "compare ISA07 with the agreement",
    ),
    Wording(
        "008",
        "invalid interchange receiver identifier",
        "compare ISA07 and ISA08 with the receiver's address",
    ),
    Wording(
        "009",
        "unknown interchange receiver",
        "the hub has no such station: compare ISA07 and ISA08 with the agreement",
    ),
    Wording(
        "010",
        "invalid authorization information qualifier",
        "compare ISA01 with the agreement",
    ),
    Wording(
        "011",
        "invalid authorization information",
        "compare ISA02 with the agreement",
    ),
    Wording(
        "012",
        "invalid security information qualifier",
        "compare ISA03 with the agreement",
    ),
    Wording(
        "013",
        "invalid security information",
        "compare ISA04 with the agreement",
    ),
    Wording(
        "014",
        "invalid interchange date",
        "write a date YYMMDD into ISA09",
    ),
    Wording(
        "015",
        "invalid interchange time",
        "write a time HHMM into ISA10",
    ),
    Wording(
        "016",
        "invalid interchange standards identifier",
        "write U into ISA11",
    ),
    Wording(
        "017",
        "invalid interchange version identifier",
        "write 00401 into ISA12",
    ),
    Wording(
        "018",
        "invalid interchange control number",
        "write nine digits into ISA13",
    ),
    Wording(
        "019",
        "invalid acknowledgment requested",
        "write 0 or 1 into ISA14",
    ),
    Wording(
        "020",
        "invalid usage indicator",
        "write P, T or I into ISA15",
    ),
    Wording(
        "021",
        "the number of groups doesn't match IEA01",
        "write the number of groups into IEA01",
    ),
    Wording(
        "022",
        "invalid control structure",
        "look for a broken line or a misplaced header or trailer",
    ),
    Wording(
        "023",
        "premature end of the interchange",
        "it was cut off: send it again, whole",
    ),
    Wording(
        "024",
        "invalid interchange content",
        "look at the elements of each GS, ST and TA1",
    ),
    Wording(
        "025",
        "duplicate interchange control number",
        "give each interchange a new number",
    ),
    Wording(
        "026",
        "invalid data element separator",
        "agree on the element separator, and send again",
    ),
    Wording(
        "027",
        "invalid component element separator",
        "agree on the component separator, and send again",
    ),
];

/// How an interchange fares (TA104).
pub(crate) static FARES: [Wording; 3] = [
    Wording("A", "received, no errors", "nothing"),
    Wording(
        "E",
        "received, errors noted",
        "look at the note, and mend what is sent next",
    ),
    Wording(
        "R",
        "rejected",
        "look at the note, mend the interchange and send it under a new number",
    ),
];
