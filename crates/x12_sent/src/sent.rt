//! What a sender submitted: the interchanges of a file, and its ledger, in which answers close sets.

ghost use Rattle.std.specs.Prelude.{◌≡◌, IfOk, OnOk, OnErr, IfSome, Some, option_map, map};
ghost use Rattle.x12_envelopes.specs.Writing.{texts};
ghost use Rattle.x12_judge.specs.Agreement.{is_same_party};
ghost use Rattle.x12_acks.specs.Answer.{answer_view};
ghost use Rattle.x12_outbound.specs.Entry.{at_place};
ghost use Rattle.x12_outbound.specs.Ledger.{fates};
ghost use Rattle.x12_outbound.specs.Settling.{target_view};
ghost use Rattle.x12_sent.specs.Closing.{closed_by, evidence_for, IsClosedBy};
ghost use Rattle.x12_sent.specs.Sent.{IsSent, first_sender_of, file_sender, file_ledgers};

use crate::closing::{Ledgers, Meaning};
use crate::submitter::{Refusals, Submitter};
use std::alloc::{AllocError, Global};
use std::collections::BTreeMap;
use x12_acks::{Answer, SetKey};
use x12_envelopes::{Delims, GroupView, Outline, Party, SetView, read_header, split_transmission};
use x12_outbound::Ledger;

/// A transaction set that was sent: its group, the set, and its segments from ST on.
#[derive(Clone, Copy)]
pub struct SentSet<'r, 'a> {
    /// Its group.
    pub group: &'r GroupView<'a>,
    /// The set.
    pub set: &'r SetView<'a>,
    /// Its segments, ST first.
    pub segments: &'r [&'a [u8]],
}

/// An interchange that was sent: its groups, and the segments of each of their sets.
#[derive(Drop)]
pub(crate) struct SentInterchange<'a> {
    groups: Vec<GroupView<'a>>,
    segments: Vec<Vec<Vec<&'a [u8]>>>,
}

/// What stands at a place, from 1.
fn at<'r, T: Drop>(place: u16, items: &'r [T]) -> Option<&'r T>
    ensures { option_map (λ x. x.now) result ≡ at_place place items.now }
{
    let index = usize::from(place).checked_sub(1)?;
    items.get(index)
}

impl<'a> SentInterchange<'a> {
    /// The set at a place in the group at a place.
    fn set(&self, group: u16, set: u16) -> Option<SentSet<'_, 'a>>
        ensures group { IfSome result (λ s. at_place group self.now.groups.items ≡ Some s.group.now) }
        ensures set { IfSome result (λ s.
            at_place set s.group.now.sets.items ≡ Some s.set.now) }
    {
        let found = at(group, &self.groups)?;
        let segments = at(group, &self.segments)?;
        Some(SentSet {
            group: found,
            set: at(set, &found.sets)?,
            segments: at(set, segments)?,
        })
    }
}

/// The segments of a set.
fn segments_of<'a>(
    alloc: Global,
    delims: &Delims,
    set: &SetView<'a>,
) -> Result<Vec<&'a [u8]>, AllocError> {
    let mut list = Vec::new(alloc);
    let mut segments = set.segments(delims);
    while let Some(read) = segments.next() {
        list.push(read.bytes)?;
    }
    Ok(list)
}

/// The segments of each set of a group.
fn segments_in<'a>(
    alloc: Global,
    delims: &Delims,
    group: &GroupView<'a>,
) -> Result<Vec<Vec<&'a [u8]>>, AllocError> {
    let mut sets = Vec::new(alloc);
    for set in &group.sets {
        sets.push(segments_of(alloc, delims, set)?)?;
    }
    Ok(sets)
}

/// An interchange that was read, as it was sent.
pub(crate) fn sent_interchange<'a>(
    alloc: Global,
    delims: &Delims,
    read: Outline<'a>,
) -> Result<SentInterchange<'a>, AllocError> {
    let mut segments = Vec::new(alloc);
    for group in &read.groups {
        segments.push(segments_in(alloc, delims, group)?)?;
    }
    Ok(SentInterchange {
        groups: read.groups,
        segments,
    })
}

/// A party that no interchange names: its identifier is of control bytes.
const NOBODY: Party = Party {
    qualifier: [0, 0],
    id: [0, 0, 0, 0, 0, 0, 0, 0, 0, 0, 0, 0, 0, 0, 0],
};

/// The sender of the first interchange that has a header.
fn first_sender(interchanges: &[&[u8]]) -> Option<Party>
    ensures { result ≡ first_sender_of (texts interchanges.now) }
{
    for bytes in interchanges {
        if let Ok(header) = read_header(bytes) {
            return Some(header.sender);
        }
    }
    None
}

/// A file that a sender submitted, beside which acknowledgments are explained.
#[derive(Drop)]
pub struct SentFile<'a> {
    name: &'a str,
    me: Party,
    interchanges: BTreeMap<u32, SentInterchange<'a>>,
    ledgers: Ledgers,
}

impl<'a> SentFile<'a> {
    /// Reads what a sender submitted in a file of this name: the sender of the first interchange, with
    /// this hub, if it has one. What a station would refuse to submit isn't part of it, and is told;
    /// the answer is whether there is none such.
    pub fn read<T: Refusals>(
        alloc: Global,
        name: &'a str,
        hub: Option<Party>,
        input: &'a [u8],
        refusals: &mut T,
    ) -> Result<(SentFile<'a>, bool), AllocError>
        ensures { IfOk result (λ r. IsSent input.now r.1) }
    {
        let slices = split_transmission(alloc, input)?;
        let me = first_sender(slices.as_slice()).unwrap_or(NOBODY);
        let mut sender = Submitter::new(alloc, me, hub.unwrap_or(NOBODY));
        let mut interchanges = BTreeMap::new(alloc);
        let right = sender.read_each(refusals, slices.as_slice(), &mut interchanges)?;
        let sent = SentFile {
            name,
            me,
            interchanges,
            ledgers: sender.into_ledgers(),
        };
        Ok((sent, right))
    }

    /// The file's name.
    pub fn name(&self) -> &'a str {
        self.name
    }

    /// Whether a party is the file's sender.
    pub fn is_sender(&self, party: &Party) -> bool
        ensures { result ≡ is_same_party (file_sender self.now) party.now }
    {
        self.me == *party
    }

    /// The file's sender.
    pub fn sender(&self) -> &Party
        ensures { result.now ≡ file_sender self.now }
    {
        &self.me
    }

    /// The ledger as the answers left it: what has a pending set.
    pub fn left(&self) -> &Ledger
        ensures { result.now.holds ≡ (file_ledgers self.now).left }
    {
        self.ledgers.left()
    }

    /// The set of this key, and its group; `None` where the file hasn't it.
    pub fn set(&self, key: &SetKey) -> Option<SentSet<'_, 'a>> {
        self.interchanges.get(&key.icn)?.set(key.group, key.set)
    }

    /// What an answer from this party means: the sets that it tells of, and those that it closes, which
    /// are closed from then on.
    pub fn tell(
        &mut self,
        alloc: Global,
        from: &Party,
        answer: &Answer,
    ) -> Result<Meaning, AllocError>
        ensures spoken { IfOk result (λ m. map target_view m.spoken.items
            ≡ closed_by (fates (file_ledgers self.old).whole)
            (evidence_for (file_ledgers self.old).whole from.now (answer_view answer.now))) }
        ensures closed { IfOk result (λ m. map target_view m.closed.items
            ≡ closed_by (fates (file_ledgers self.old).left)
            (evidence_for (file_ledgers self.old).left from.now (answer_view answer.now))) }
        ensures told { OnOk result (IsClosedBy (file_ledgers self.old).left from.now
            (answer_view answer.now) (file_ledgers self.new).left) }
        ensures unchanged { OnErr result
            ((file_ledgers self.new).left ≡ (file_ledgers self.old).left) }
        ensures whole { (file_ledgers self.new).whole ≡ (file_ledgers self.old).whole }
        ensures sender { file_sender self.new ≡ file_sender self.old }
    {
        self.ledgers.tell(alloc, from, answer)
    }
}
