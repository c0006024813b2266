//! The words of faults: why an interchange has no header or outline or goes without a reply, and
//! why a station, a hub or a network refuses.

use crate::wording::Wording;

/// Why an interchange has no header (X12.5, ISA).
pub(crate) static HEADER: [Wording; 5] = [
    Wording(
        "H1",
        "more than 1,048,576 bytes up to the first IEA",
        "ask the sender to cut it, or look for a missing IEA",
    ),
    Wording(
        "H2",
        "fewer than the 106 bytes of a header (ISA)",
        "the transfer was cut off: ask for it again",
    ),
    Wording(
        "H3",
        "it doesn't begin with ISA, or an element of ISA hasn't its fixed length",
        "look at the first 106 bytes: a text editor may have taken spaces out",
    ),
    Wording(
        "H4",
        "the bytes at offsets 3, 104 and 105 can't be the delimiters",
        "look at the first 106 bytes: two are equal, or one is a letter, a digit, a space or a line end",
    ),
    Wording(
        "H5",
        "a delimiter or a control byte inside a field of ISA, or an ISA13 that isn't nine digits",
        "look at the first 106 bytes, and ask the sender to write each field without them",
    ),
];

/// Why an interchange goes without a reply.
pub(crate) static NUMBER: [Wording; 1] = [Wording(
    "N1",
    "a reply is due, and its control number would be above 999999999",
    "start again with lower numbers, as agreed with the partner",
)];

/// Why an interchange has no outline.
pub(crate) static OUTLINE: [Wording; 4] = [
    Wording(
        "O1",
        "a control byte inside a segment, or a segment that may not stand there",
        "look at the segment at that place: a line may be broken, or a header or trailer misplaced",
    ),
    Wording(
        "O2",
        "the interchange ends inside a segment, or before IEA",
        "the transfer was cut off: ask for it again",
    ),
    Wording(
        "O3",
        "a TA1, GS or ST that can't be read, or more than 32 groups or 400 transaction sets",
        "look at the elements of the segment at that place, or ask for smaller interchanges",
    ),
    Wording(
        "O4",
        "memory ran out",
        "try again on a machine with more memory",
    ),
];

/// Why a station refuses.
pub(crate) static STATION: [Wording; 14] = [
    Wording(
        "S1",
        "the receiver is the sender's own address",
        "put the partner's address into ISA07 and ISA08",
    ),
    Wording(
        "S2",
        "no transaction set, or a group without one",
        "leave the empty group out",
    ),
    Wording(
        "S3",
        "a receiver that isn't plain, or a segment that can't be written",
        "use capital letters and digits in the address, and no delimiter or control byte in an element",
    ),
    Wording(
        "S4",
        "bytes without a header that can be read",
        "see H1 to H5",
    ),
    Wording(
        "S5",
        "the sender isn't this station",
        "put the station's own address into ISA05 and ISA06",
    ),
    Wording("S6", "a structure that can't be read", "see O1 to O3"),
    Wording(
        "S7",
        "a TA1, or a group of acknowledgments (FA)",
        "leave it out: the station writes acknowledgments itself",
    ),
    Wording(
        "S8",
        "one transaction set control number (ST02) twice in a group",
        "number the sets of a group without repeating",
    ),
    Wording(
        "S9",
        "more than 400 transaction sets, or more than 1,048,576 bytes",
        "cut it into several interchanges",
    ),
    Wording(
        "S10",
        "a control number that isn't above those used before",
        "give each group a higher number than the one before",
    ),
    Wording(
        "S11",
        "no control number is left",
        "agree with the partner on numbers to start again from",
    ),
    Wording(
        "S12",
        "arriving bytes without a header that can be read",
        "see H1 to H5, and ask the sender",
    ),
    Wording("S13", "the store failed", "look at the disk, and try again"),
    Wording(
        "S14",
        "memory ran out",
        "try again on a machine with more memory",
    ),
];

/// Why a hub refuses.
pub(crate) static HUB: [Wording; 4] = [
    Wording(
        "B1",
        "deposited bytes without a header that can be read",
        "see H1 to H5, which stands behind it",
    ),
    Wording(
        "B2",
        "no item number or interchange number is left up to 999999999",
        "go on with another hub",
    ),
    Wording(
        "B3",
        "the hub's records failed",
        "see to the device, then start the hub again, and look whether the call was done",
    ),
    Wording("B4", "memory ran out", "make the call again"),
];

/// Why a network refuses an event, or isn't made.
pub(crate) static NETWORK: [Wording; 7] = [
    Wording(
        "V1",
        "no packet of this name was sent",
        "take the name of a packet from what the event that sent it printed",
    ),
    Wording(
        "V2",
        "bytes from outside name a node of the network as their sender",
        "submit them at that node, or name another sender",
    ),
    Wording(
        "V3",
        "a node refuses",
        "look at the number of its own that stands behind it",
    ),
    Wording(
        "V4",
        "no such node, or one of the other kind, as the hub where a station is wanted",
        "compare the number with the network's nodes",
    ),
    Wording("V5", "memory ran out", "make the call again"),
    Wording(
        "V6",
        "these nodes make no network",
        "take new nodes, each of a party of its own: one hub or two, and 1 to 16 stations that know these and no other",
    ),
    Wording(
        "V7",
        "no number is left for an event",
        "start another network",
    ),
];

/// Why a node that threads share refuses a call.
pub(crate) static NODE: [Wording; 7] = [
    Wording(
        "L1",
        "no stamp is left",
        "settle the logs, and found the network anew",
    ),
    Wording(
        "L2",
        "the stamp doesn't follow the node's last one",
        "take the next stamp, and no pass of another run",
    ),
    Wording(
        "L3",
        "the node refuses",
        "look at the number of its own that stands behind it",
    ),
    Wording("L4", "memory ran out", "make the call again"),
    Wording(
        "L5",
        "no such packet is on the wire",
        "take the name of a packet that was sent and has not been taken",
    ),
    Wording(
        "L6",
        "bytes from outside name a node as their sender",
        "submit them at that node, or name another sender",
    ),
    Wording(
        "L7",
        "a node of this kind isn't asked so",
        "ask a station for what is a station's, and the hub for what is the hub's",
    ),
];
