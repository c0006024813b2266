//! What an answer says, as a value: what both printers print of a TA1 or a 997, beside what was sent.

use crate::coded::{Coded, code_of};
use crate::pending::Keyed;
use crate::told::Told;
use std::alloc::{AllocError, Global};
use std::collections::BTreeMap;
use x12_acks::SetKey;
use x12_envelopes::{AcknowledgmentCode, Delims, Segment, Segments, SetView, number_of};
use x12_outbound::Fate;
use x12_sent::{Meaning, SentFile, SentSet};

/// What was sent where a note of a 997 points to, if anything stands there; `None` where the set isn't
/// known.
pub(crate) type Pointed<'a> = Option<Option<&'a [u8]>>;

/// A line of a 997.
#[derive(Clone, Copy)]
pub(crate) enum Line<'a, 'f> {
    /// A listed set (AK2), how it fares (AK5), and whether it was sent; `None` where no file is given.
    Set(Segment<'a>, Segment<'a>, Option<bool>),
    /// A note of a segment of the set before (AK3), and what was sent there.
    Segment(Segment<'a>, Pointed<'f>),
    /// A note of an element of the segment before (AK4), and what was sent there.
    Element(Segment<'a>, Pointed<'f>),
}

/// A set of a file that an answer speaks of.
#[derive(Clone, Copy)]
pub(crate) struct Spoken<'s, 'f> {
    /// The set, with its key.
    pub keyed: Keyed<'s, 'f>,
    /// The fate that it closes with; `None` where it was closed before.
    pub closes: Option<Fate>,
}

/// An answer with all that is said of it.
#[derive(Drop)]
pub(crate) struct Answered<'r, 'a, 'f> {
    /// The answer.
    pub told: &'r Told<'r, 'a>,
    /// Of a 997, the sets that it lists with their notes, in order.
    pub lines: Vec<Line<'a, 'f>>,
    /// The sets of a file that it speaks of; `None` where no file is given, or by another sender.
    pub spoken: Option<Vec<Spoken<'r, 'f>>>,
}

/// The first of the segments with this identifier; empty where there is none.
pub(crate) fn first_named<'a>(
    delims: &Delims,
    segments: Segments<'a>,
    identifier: &[u8],
) -> Segment<'a> {
    let mut segments = segments;
    while let Some(read) = segments.next() {
        if read.identifier() == identifier {
            return read;
        }
    }
    Segment {
        bytes: &[],
        delims: *delims,
    }
}

/// The code of a TA1 (TA104), and what it says.
pub(crate) fn ta1_code(code: AcknowledgmentCode) -> Coded<'static> {
    let letter = match code {
        AcknowledgmentCode::Accepted => b"A",
        AcknowledgmentCode::ErrorsNoted => b"E",
        AcknowledgmentCode::Rejected => b"R",
    };
    code_of("TA104", letter)
}

/// The fate that the next set to close gets, if it has this key.
fn fate_of_next(meaning: &Meaning, closed: usize, key: &SetKey) -> Option<Fate> {
    match meaning.closed.get(closed) {
        Some((next, fate)) if *next == *key => Some(*fate),
        _ => None,
    }
}

/// Adds a set that an answer speaks of, if it stands in the file.
fn push_spoken<'s, 'f>(
    spoken: &mut Vec<Spoken<'s, 'f>>,
    sent: &'s SentFile<'f>,
    key: SetKey,
    closes: Option<Fate>,
) -> Result<(), AllocError> {
    if let Some(set) = sent.set(&key) {
        let keyed = Keyed { key, set };
        spoken.push(Spoken { keyed, closes })?;
    }
    Ok(())
}

/// The sets of a file that an answer speaks of, in order.
fn spoken_of<'s, 'f>(
    alloc: Global,
    sent: &'s SentFile<'f>,
    meaning: &Meaning,
) -> Result<Vec<Spoken<'s, 'f>>, AllocError> {
    let mut spoken = Vec::new(alloc);
    let mut closed = 0usize;
    for (key, _) in &meaning.spoken {
        let closes = fate_of_next(meaning, closed, key);
        closed = closed.saturating_add(usize::from(closes.is_some()));
        push_spoken(&mut spoken, sent, *key, closes)?;
    }
    Ok(spoken)
}

/// The same, where a file is given and the answer is to its sender.
fn spoken_beside<'s, 'f>(
    alloc: Global,
    sent: &'s Option<SentFile<'f>>,
    meaning: &Option<Meaning>,
) -> Result<Option<Vec<Spoken<'s, 'f>>>, AllocError> {
    match (sent, meaning) {
        (Some(sent), Some(meaning)) => Ok(Some(spoken_of(alloc, sent, meaning)?)),
        _ => Ok(None),
    }
}

/// The sets that an answer speaks of, by their numbers (ST02).
#[derive(Drop)]
struct Listed<'s, 'f> {
    /// Whether a file is given, and the answer is to its sender.
    is_known: bool,
    sets: BTreeMap<&'s [u8], SentSet<'s, 'f>>,
}

/// The sets of a file that an answer speaks of, by their numbers.
fn listed_of<'s, 'f>(
    alloc: Global,
    spoken: &Option<Vec<Spoken<'s, 'f>>>,
) -> Result<Listed<'s, 'f>, AllocError> {
    let mut sets = BTreeMap::new(alloc);
    let Some(spoken) = spoken else {
        let is_known = false;
        return Ok(Listed { is_known, sets });
    };
    for one in spoken {
        let set = one.keyed.set;
        sets.insert(set.set.number.as_bytes(), set)?;
    }
    let is_known = true;
    Ok(Listed { is_known, sets })
}

/// Where the lines of a 997 point to in what was sent, as far as they were read.
#[derive(Clone, Copy)]
struct Place<'s, 'f> {
    /// The set that was listed last, if it was sent.
    set: Option<SentSet<'s, 'f>>,
    /// What was sent where the segment that was noted last stands.
    segment: Pointed<'f>,
}

/// The segment at a position as AK3 says it: ST is 1.
fn segment_at<'f>(set: &SentSet<'_, 'f>, position: &[u8]) -> Option<&'f [u8]> {
    let index = (number_of(position)? as usize).checked_sub(1)?;
    set.segments.get(index).copied()
}

/// The element of a segment at a place as AK4 says it.
fn element_at<'f>(delims: &Delims, segment: Option<&'f [u8]>, place: &[u8]) -> Option<&'f [u8]> {
    let read = Segment {
        bytes: segment?,
        delims: *delims,
    };
    Some(read.element(number_of(place)? as usize))
}

/// A listed set, before the segments that stand behind it.
fn set_line<'a, 's, 'f>(
    read: Segment<'a>,
    behind: Segments<'a>,
    listed: &Listed<'s, 'f>,
    place: &mut Place<'s, 'f>,
) -> Line<'a, 'f> {
    let set = listed.sets.get(read.element(2)).copied();
    place.set = set;
    let is_sent = if listed.is_known {
        Some(set.is_some())
    } else {
        None
    };
    Line::Set(read, first_named(&read.delims, behind, b"AK5"), is_sent)
}

/// A note of a segment.
fn segment_line<'a, 'f>(read: Segment<'a>, place: &mut Place<'_, 'f>) -> Line<'a, 'f> {
    let segment = match &place.set {
        Some(set) => Some(segment_at(set, read.element(2))),
        None => None,
    };
    place.segment = segment;
    Line::Segment(read, segment)
}

/// A note of an element.
fn element_line<'a, 'f>(read: Segment<'a>, place: &Place<'_, 'f>) -> Line<'a, 'f> {
    match place.segment {
        Some(segment) => {
            let element = element_at(&read.delims, segment, read.element(1));
            Line::Element(read, Some(element))
        }
        None => Line::Element(read, None),
    }
}

/// The line that a segment of a 997 is, if it is one.
fn line_of<'a, 's, 'f>(
    read: Segment<'a>,
    behind: Segments<'a>,
    listed: &Listed<'s, 'f>,
    place: &mut Place<'s, 'f>,
) -> Option<Line<'a, 'f>> {
    match read.identifier() {
        b"AK2" => Some(set_line(read, behind, listed, place)),
        b"AK3" => Some(segment_line(read, place)),
        b"AK4" => Some(element_line(read, place)),
        _ => None,
    }
}

/// The lines of a 997 beside the sets that it speaks of.
fn lines_of<'a, 'f>(
    alloc: Global,
    delims: &Delims,
    set: &SetView<'a>,
    listed: &Listed<'_, 'f>,
) -> Result<Vec<Line<'a, 'f>>, AllocError> {
    let mut lines = Vec::new(alloc);
    let mut segments = set.segments(delims);
    let mut place = Place {
        set: None,
        segment: None,
    };
    while let Some(read) = segments.next() {
        if let Some(line) = line_of(read, segments, listed, &mut place) {
            lines.push(line)?;
        }
    }
    Ok(lines)
}

/// The same of an answer, where it is the set of a group of acknowledgments.
fn lines_beside<'a, 'f>(
    alloc: Global,
    delims: &Delims,
    set: Option<&SetView<'a>>,
    spoken: &Option<Vec<Spoken<'_, 'f>>>,
) -> Result<Vec<Line<'a, 'f>>, AllocError> {
    let Some(set) = set else {
        return Ok(Vec::new(alloc));
    };
    let listed = listed_of(alloc, spoken)?;
    lines_of(alloc, delims, set, &listed)
}

/// An answer with all that is said of it, beside a file that was sent.
pub(crate) fn answer_beside<'r, 'a, 'f>(
    alloc: Global,
    delims: &Delims,
    told: &'r Told<'r, 'a>,
    sent: &'r Option<SentFile<'f>>,
) -> Result<Answered<'r, 'a, 'f>, AllocError> {
    let spoken = spoken_beside(alloc, sent, &told.meaning)?;
    let lines = lines_beside(alloc, delims, told.set, &spoken)?;
    Ok(Answered {
        told,
        lines,
        spoken,
    })
}
