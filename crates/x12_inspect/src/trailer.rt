//! What a trailer says beside what was counted, of a set and of a group that have one (X12.6, SE and
//! GE).

use crate::piece::say;
use crate::text::Text;
use x12_envelopes::{Delims, Segment};
use x12_judge::{GroupRefusal, GroupVerdict, SetCode};
use x12_segments::{Compared, Walk};

/// What the trailer of a set says; none where it wasn't sent.
pub(crate) fn trailer_of_set<'a>(delims: &Delims, set: &'a [u8]) -> Option<Compared<'a>> {
    let mut walk = Walk::new(*delims, set);
    while let Some(placed) = walk.step() {
        if placed.compared.is_some() {
            return placed.compared;
        }
    }
    None
}

/// The version that a group names (GS08), and what its trailer says; none where it wasn't sent.
#[derive(Clone, Copy)]
pub(crate) struct GroupEnds<'a> {
    pub version: &'a [u8],
    pub trailer: Option<Compared<'a>>,
}

/// Header and trailer of the group at a place of an interchange, from 1.
pub(crate) fn ends_of_group<'a>(delims: &Delims, bytes: &'a [u8], place: u16) -> GroupEnds<'a> {
    let mut ends = GroupEnds {
        version: &[],
        trailer: None,
    };
    let mut groups = 0u16;
    let mut walk = Walk::new(*delims, bytes);
    while let Some(placed) = walk.step() {
        let read = Segment {
            bytes: placed.bytes,
            delims: *delims,
        };
        let identifier = read.identifier();
        if identifier == b"GS".as_slice() {
            groups = groups.saturating_add(1);
            ends.version = read.element(8);
        }
        if groups > place {
            return ends;
        }
        if groups == place && identifier == b"GE".as_slice() {
            ends.trailer = placed.compared;
            return ends;
        }
    }
    ends
}

/// Adds a count of a trailer beside what was counted, as `SE01 is 5, counted 4`.
fn say_count(words: &mut Text, name: &str, compared: &Compared<'_>) {
    say!(words; name, " is ", compared.count, ", counted ", compared.counted);
}

/// Adds a number of a trailer beside its header's, as `SE02 is 0002, ST02 is 0001`.
fn say_numbers(words: &mut Text, name: &str, of_header: &str, compared: &Compared<'_>) {
    say!(words; name, " is ", compared.number, ", ", of_header, " is ", compared.said);
}

/// Adds what a code of a set was found in, where there is more to say than the code.
pub(crate) fn say_of_set(words: &mut Text, code: SetCode, delims: &Delims, set: &[u8]) {
    if !matches!(code, SetCode::CountWrong | SetCode::NumbersDiffer) {
        return;
    }
    if let Some(compared) = trailer_of_set(delims, set) {
        match code {
            SetCode::CountWrong => say_count(words, "SE01", &compared),
            _ => say_numbers(words, "SE02", "ST02", &compared),
        }
    }
}

/// Adds what a refusal of the group at a place of an interchange was found in.
fn say_of_group(words: &mut Text, why: GroupRefusal, delims: &Delims, bytes: &[u8], place: u16) {
    if matches!(
        why,
        GroupRefusal::NotSupported | GroupRefusal::TrailerMissing
    ) {
        return;
    }
    let ends = ends_of_group(delims, bytes, place);
    if why == GroupRefusal::VersionNotSupported {
        return say!(words; "GS08 is ", ends.version, ", and 004010 is read");
    }
    if let Some(compared) = &ends.trailer {
        match why {
            GroupRefusal::NumbersDiffer => say_numbers(words, "GE02", "GS06", compared),
            _ => say_count(words, "GE01", compared),
        }
    }
}

/// Adds what the refusal of a group of an interchange was found in, where there is more to say than
/// the code.
pub(crate) fn say_refusal(
    words: &mut Text,
    delims: &Delims,
    bytes: &[u8],
    group: &GroupVerdict<'_>,
) {
    if let Some(why) = group.refused {
        say_of_group(words, why, delims, bytes, group.place);
    }
}
