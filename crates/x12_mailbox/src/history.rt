//! What a station's records hold of submissions, one by one.

use crate::agreeing::station_trouble;
use crate::say::trouble_at;
use crate::stop::Stop;
use std::alloc::{AllocError, Global};
use x12_acks::SetKey;
use x12_envelopes::{Party, read_header};
use x12_outbound::{Entry, EntryGroup, Fate};
use x12_station::{Item, Loaded, Records, StoreFault};

/// What looks at submissions.
pub(crate) trait Look {
    /// A submitted interchange.
    fn look(&mut self, entry: &Entry) -> Result<(), Stop>;
}

/// A submitted transaction set.
#[derive(Clone, Copy)]
pub(crate) struct Submitted {
    /// Its key.
    pub(crate) key: SetKey,
    /// How it fares.
    pub(crate) fate: Fate,
}

/// A place from 1 of an index from 0.
fn place(index: usize) -> u16 {
    u16::try_from(index).unwrap_or(u16::MAX).saturating_add(1)
}

/// Adds the sets of a group.
fn push_group(
    sets: &mut Vec<Submitted>,
    me: &Party,
    icn: u32,
    at: u16,
    group: &EntryGroup,
) -> Result<(), AllocError> {
    let mut index = 0_usize;
    for set in &group.sets {
        let key = SetKey {
            sender: *me,
            icn,
            group: at,
            set: place(index),
        };
        sets.push(Submitted {
            key,
            fate: set.fate,
        })?;
        index = index.saturating_add(1);
    }
    Ok(())
}

/// The sets of a submitted interchange.
pub(crate) fn sets_of(
    alloc: Global,
    me: &Party,
    entry: &Entry,
) -> Result<Vec<Submitted>, AllocError> {
    let mut sets = Vec::new(alloc);
    let mut index = 0_usize;
    for group in &entry.groups {
        push_group(&mut sets, me, entry.icn, place(index), group)?;
        index = index.saturating_add(1);
    }
    Ok(sets)
}

/// Says why records answered nothing.
pub(crate) fn unanswered(rt: &HostRuntime, dir: &str, fault: StoreFault) -> Stop {
    station_trouble(rt, dir, fault.into())
}

/// What a station keeps in memory of its records.
pub(crate) fn loaded<R: Records>(
    rt: &HostRuntime,
    dir: &str,
    records: &mut R,
) -> Result<Loaded, Stop>
    requires { R.valid records.old }
    ensures { R.valid records.new }
{
    match records.load() {
        Ok(loaded) => Ok(loaded),
        Err(fault) => Err(unanswered(rt, dir, fault)),
    }
}

/// Looks at the submission of this number, if there is one whose sets are all settled.
fn look_at_closed<R: Records, L: Look>(
    rt: &HostRuntime,
    dir: &str,
    records: &mut R,
    icn: u32,
    to: &mut L,
) -> Result<(), Stop>
    requires { R.valid records.old }
    ensures { R.valid records.new }
{
    match records.find_closed(icn) {
        Ok(Some(entry)) => to.look(&entry),
        Ok(None) => Ok(()),
        Err(fault) => Err(unanswered(rt, dir, fault)),
    }
}

/// The open submission of this number, if it is the next one.
fn open_one(entries: &[Entry], at: usize, icn: u32) -> Option<&Entry> {
    let entry = entries.get(at)?;
    if entry.icn == icn { Some(entry) } else { None }
}

/// The control number (ISA13) of what has this number of the history, if it was submitted.
fn submitted_number<R: Records>(
    rt: &HostRuntime,
    dir: &str,
    records: &mut R,
    number: u64,
) -> Result<Option<u32>, Stop>
    requires { R.valid records.old }
    ensures { R.valid records.new }
{
    let bytes = match records.find_item(number) {
        Ok(Some(Item::Submitted(bytes))) => bytes,
        Ok(_) => return Ok(None),
        Err(fault) => return Err(unanswered(rt, dir, fault)),
    };
    match read_header(&bytes) {
        Ok(header) => Ok(Some(header.icn)),
        Err(_) => Err(trouble_at(
            rt,
            dir,
            "what was submitted has no header: something else changed it",
        )),
    }
}

/// The submission of this number, open or settled, if there is one.
pub(crate) fn find_entry<R: Records>(
    rt: &HostRuntime,
    dir: &str,
    records: &mut R,
    loaded: &Loaded,
    icn: u32,
) -> Result<Option<Entry>, Stop>
    requires { R.valid records.old }
    ensures { R.valid records.new }
{
    if let Ok(index) = loaded.entries.binary_search_by_key(&icn, |entry| entry.icn) {
        if let Some(entry) = loaded.entries.get(index) {
            return Ok(Some(entry.copied(rt.alloc())?));
        }
    }
    match records.find_closed(icn) {
        Ok(found) => Ok(found),
        Err(fault) => Err(unanswered(rt, dir, fault)),
    }
}

/// Looks at each submission, by rising number. It goes by the history, since the numbers of prepared
/// interchanges may be far apart.
pub(crate) fn look_at_all<R: Records, L: Look>(
    rt: &HostRuntime,
    dir: &str,
    records: &mut R,
    to: &mut L,
) -> Result<(), Stop>
    requires { R.valid records.old }
    ensures { R.valid records.new }
{
    let loaded = loaded(rt, dir, records)?;
    let mut at = 0_usize;
    for number in 1..=loaded.seq {
        if let Some(icn) = submitted_number(rt, dir, records, number)? {
            match open_one(&loaded.entries, at, icn) {
                Some(entry) => {
                    to.look(entry)?;
                    at = at.saturating_add(1);
                }
                None => look_at_closed(rt, dir, records, icn, to)?,
            }
        }
    }
    Ok(())
}
