//! Which sets of a file that was sent are pending.

use std::alloc::{AllocError, Global};
use x12_acks::SetKey;
use x12_outbound::{Entry, EntrySet, Fate};
use x12_sent::{SentFile, SentSet};

/// A set of a file, with its key.
#[derive(Clone, Copy)]
pub(crate) struct Keyed<'s, 'f> {
    /// Its key.
    pub key: SetKey,
    /// The set.
    pub set: SentSet<'s, 'f>,
}

/// The place from 1 of an index.
fn place_of(index: usize) -> u16 {
    u16::try_from(index.saturating_add(1)).unwrap_or(u16::MAX)
}

/// Adds a pending set, if it stands in the file.
fn push_set<'s, 'f>(
    found: &mut Vec<Keyed<'s, 'f>>,
    sent: &'s SentFile<'f>,
    key: SetKey,
) -> Result<(), AllocError> {
    if let Some(set) = sent.set(&key) {
        found.push(Keyed { key, set })?;
    }
    Ok(())
}

/// Adds the pending sets of the group at an index of an interchange.
fn push_group<'s, 'f>(
    found: &mut Vec<Keyed<'s, 'f>>,
    sent: &'s SentFile<'f>,
    icn: u32,
    group: usize,
    sets: &[EntrySet],
) -> Result<(), AllocError> {
    for (set, row) in sets.iter().enumerate() {
        if row.fate == Fate::Pending {
            let key = SetKey {
                sender: *sent.sender(),
                icn,
                group: place_of(group),
                set: place_of(set),
            };
            push_set(found, sent, key)?;
        }
    }
    Ok(())
}

/// Adds the pending sets of an interchange.
fn push_pending<'s, 'f>(
    found: &mut Vec<Keyed<'s, 'f>>,
    sent: &'s SentFile<'f>,
    entry: &Entry,
) -> Result<(), AllocError> {
    for (index, group) in entry.groups.iter().enumerate() {
        push_group(found, sent, entry.icn, index, &group.sets)?;
    }
    Ok(())
}

/// The sets of a file that are pending still, in order.
pub(crate) fn pending_sets<'s, 'f>(
    alloc: Global,
    sent: &'s SentFile<'f>,
) -> Result<Vec<Keyed<'s, 'f>>, AllocError> {
    let mut found = Vec::new(alloc);
    for index in 0..usize::MAX {
        match sent.left().entry_at(index) {
            Some(entry) => push_pending(&mut found, sent, entry)?,
            None => return Ok(found),
        }
    }
    Ok(found)
}
