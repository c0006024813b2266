//! What the stations of folders submitted and posted.

use crate::connecting::whole_path;
use crate::history::{Look, Submitted, look_at_all, sets_of, unanswered};
use crate::opening::{OpensRecords, open_a_station};
use crate::reconciling::ReconcileWords;
use crate::stop::Stop;
use crate::whose::{Whose, read_whose};
use std::alloc::{AllocError, Global};
use std::collections::BTreeMap;
use x12_acks::SetKey;
use x12_envelopes::{Outline, Party, outline, read_header};
use x12_inbound::Posting;
use x12_outbound::Entry;
use x12_station::Records;

/// A submitted set, with its receiver and its bytes.
#[derive(Drop)]
pub(crate) struct Sent {
    pub(crate) set: Submitted,
    pub(crate) receiver: Party,
    bytes: Vec<u8>,
}

/// What one station submitted and posted.
#[derive(Drop)]
pub(crate) struct Books {
    pub(crate) me: Party,
    pub(crate) sent: Vec<Sent>,
    pub(crate) postings: Vec<Posting>,
    /// Which set was submitted under a key.
    sent_at: BTreeMap<SetKey, usize>,
    /// Which postings have a key.
    posted_at: BTreeMap<SetKey, Vec<usize>>,
}

/// What a station submitted, as it is gathered.
#[derive(Drop)]
struct Gathered {
    alloc: Global,
    me: Party,
    sent: Vec<Sent>,
}

/// The bytes of the set at a place; none where there is no such set.
fn bytes_at(alloc: Global, outline: &Outline<'_>, key: &SetKey) -> Result<Vec<u8>, AllocError> {
    let group = usize::from(key.group).saturating_sub(1);
    let set = usize::from(key.set).saturating_sub(1);
    let Some(group) = outline.groups.get(group) else {
        return Ok(Vec::new(alloc));
    };
    match group.sets.get(set) {
        Some(set) => Vec::from_slice(alloc, set.bytes),
        None => Ok(Vec::new(alloc)),
    }
}

impl Gathered {
    /// Adds the sets of a submitted interchange.
    fn add(&mut self, entry: &Entry, outline: &Outline<'_>) -> Result<(), AllocError> {
        for set in sets_of(self.alloc, &self.me, entry)? {
            let bytes = bytes_at(self.alloc, outline, &set.key)?;
            self.sent.push(Sent {
                set,
                receiver: entry.partner,
                bytes,
            })?;
        }
        Ok(())
    }
}

impl Look for Gathered {
    fn look(&mut self, entry: &Entry) -> Result<(), Stop> {
        let Ok(header) = read_header(&entry.bytes) else {
            return Err(Stop::Memory);
        };
        match outline(self.alloc, &entry.bytes, &header) {
            Ok(outline) => Ok(self.add(entry, &outline)?),
            Err(_) => Err(Stop::Memory),
        }
    }
}

/// Which set was submitted under each key.
fn sent_at(alloc: Global, sent: &[Sent]) -> Result<BTreeMap<SetKey, usize>, AllocError> {
    let mut found = BTreeMap::new(alloc);
    for (index, sent) in sent.iter().enumerate() {
        found.insert(sent.set.key, index)?;
    }
    Ok(found)
}

/// Which postings have each key.
fn posted_at(
    alloc: Global,
    postings: &[Posting],
) -> Result<BTreeMap<SetKey, Vec<usize>>, AllocError> {
    let mut found: BTreeMap<SetKey, Vec<usize>> = BTreeMap::new(alloc);
    for (index, posting) in postings.iter().enumerate() {
        if let Some(indices) = found.get_mut(&posting.key) {
            indices.push(index)?;
        } else {
            found.insert(posting.key, vec![in alloc; index]?)?;
        }
    }
    Ok(found)
}

/// What a station submitted and posted.
fn books_of<R: Records>(
    rt: &HostRuntime,
    dir: &str,
    me: Party,
    records: &mut R,
) -> Result<Books, Stop>
    requires { R.valid records.old }
{
    let alloc = rt.alloc();
    let mut gathered = Gathered {
        alloc,
        me,
        sent: Vec::new(alloc),
    };
    look_at_all(rt, dir, records, &mut gathered)?;
    match records.postings() {
        Ok(postings) => Ok(Books {
            me,
            sent_at: sent_at(alloc, &gathered.sent)?,
            posted_at: posted_at(alloc, &postings)?,
            sent: gathered.sent,
            postings,
        }),
        Err(fault) => Err(unanswered(rt, dir, fault)),
    }
}

impl Books {
    /// How many postings have the key of a submitted set, and whether each has its bytes.
    pub(crate) fn compare(&self, sent: &Sent) -> (u64, bool) {
        let mut intact = true;
        let Some(indices) = self.posted_at.get(&sent.set.key) else {
            return (0, intact);
        };
        for index in indices {
            if let Some(posting) = self.postings.get(*index) {
                intact &= posting.bytes == sent.bytes;
            }
        }
        (indices.len() as u64, intact)
    }

    /// Whether the station submitted the set of this key.
    pub(crate) fn has_sent(&self, key: &SetKey) -> bool {
        self.sent_at.contains_key(key)
    }
}

/// The books of a party.
pub(crate) fn books_for<'a>(all: &'a [Books], party: &Party) -> Option<&'a Books> {
    all.iter().find(|books| books.me == *party)
}

/// Whether a folder is among these.
fn has_path(found: &[(String, &str)], path: &str) -> bool {
    for (other, _) in found {
        if other.as_str() == path {
            return true;
        }
    }
    false
}

/// The folders of stations among these, each once, by their paths from the root: a hub has no books.
fn stations_of<'a>(rt: &HostRuntime, dirs: &[&'a str]) -> Result<Vec<(String, &'a str)>, Stop> {
    let mut found: Vec<(String, &'a str)> = Vec::new(rt.alloc());
    for dir in dirs {
        if let Whose::Station(_, _, _) = read_whose(rt, dir)? {
            let path = whole_path(rt, dir)?;
            if !has_path(&found, path.as_str()) {
                found.push((path, *dir))?;
            }
        }
    }
    Ok(found)
}

/// Opens the stations of folders from this one on, and then adds the books of each, the last one first.
/// Each is held open until all are open: so all are read as they were at one moment.
fn add_books<O: OpensRecords>(
    rt: &HostRuntime,
    opens: &O,
    dirs: &[(String, &str)],
    all: &mut Vec<Books>,
) -> Result<(), Stop> {
    let Some(((_, dir), rest)) = dirs.split_first() else {
        return Ok(());
    };
    let station = open_a_station(rt, opens, dir)?;
    let me = station.party();
    let mut records = station.close();
    add_books(rt, opens, rest, all)?;
    Ok(all.push(books_of(rt, dir, me, &mut records)?)?)
}

/// The books of all folders, of which one has to be a station's.
pub(crate) fn all_books<O: OpensRecords>(
    rt: &HostRuntime,
    opens: &O,
    words: &ReconcileWords<'_, '_>,
) -> Result<Vec<Books>, Stop> {
    let alloc = rt.alloc();
    let mut dirs = Vec::from_slice(alloc, &[words.dir])?;
    dirs.extend_from_slice(words.more.unwrap_or(&[]))?;
    let stations = stations_of(rt, &dirs)?;
    if stations.is_empty() {
        drop(open_a_station(rt, opens, words.dir)?.close());
    }
    let mut all = Vec::new(alloc);
    add_books(rt, opens, &stations, &mut all)?;
    all.reverse();
    Ok(all)
}
