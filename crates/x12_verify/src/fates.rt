//! Which set of a submission has another fate in two records.

use crate::difference::Difference;
use x12_acks::SetKey;
use x12_envelopes::Party;
use x12_outbound::{Entry, EntryGroup, Fate};

/// A place from 1 of an index from 0.
fn place(index: usize) -> u16 {
    u16::try_from(index).unwrap_or(u16::MAX).saturating_add(1)
}

/// The first set of a group that has another fate: its place, and both fates.
fn other_set(kept: &EntryGroup, due: &EntryGroup) -> Option<(u16, Fate, Fate)> {
    for index in 0..kept.sets.len() {
        let one = kept.sets.get(index)?;
        let other = due.sets.get(index)?;
        if one.fate != other.fate {
            return Some((place(index), one.fate, other.fate));
        }
    }
    None
}

/// How a submission differs: in the fate of a set, or else in what its bytes say.
pub(crate) fn difference_of(me: &Party, kept: &Entry, due: &Entry) -> Difference {
    for index in 0..kept.groups.len() {
        let (Some(one), Some(other)) = (kept.groups.get(index), due.groups.get(index)) else {
            return Difference::Submission(kept.icn);
        };
        if let Some((set, kept_fate, due_fate)) = other_set(one, other) {
            let key = SetKey {
                sender: *me,
                icn: kept.icn,
                group: place(index),
                set,
            };
            return Difference::Fate {
                key,
                kept: kept_fate,
                due: due_fate,
            };
        }
    }
    Difference::Submission(kept.icn)
}
