//! The rows of the ledger: submitted interchanges by rising number, each with its schedule.
ghost use Rattle.std.specs.Prelude.{◌≡◌, ◌<◌, ◌==◌, ◌≤◌, ◌-◌, ◌+◌, ◌⊎◌, None, Some, IfOk, IfSome};
ghost use Rattle.std.specs.Prelude.{IfNone, is_some, count_by, filter, length, map, find};
ghost use Rattle.std.specs.Prelude.{slice_get, slice_index_or, option_map};
ghost use Rattle.std.specs.List.{list_any};
ghost use Rattle.std.specs.Arc.{arc_slice_items};
ghost use Rattle.x12_acks.specs.Key.{key_view};
ghost use Rattle.x12_outbound.specs.Fate.{is_pending};
ghost use Rattle.x12_outbound.specs.Hubs.{hubs_of};
ghost use Rattle.x12_outbound.specs.Entry.{set_row, group_row, entry_row, at_place, with_place};
ghost use Rattle.x12_outbound.specs.Entry.{row_is_open};
ghost use Rattle.x12_outbound.specs.Ledger.{row_view, with_set_of, set_row_changed, IcnsRise};
ghost use Rattle.x12_outbound.specs.Ledger.{interchange_in, row_in, numbers_in_rows, can_be_lifted};
ghost use Rattle.x12_outbound.specs.Ledger.{row_is_due, row_sent_if_due};

use crate::entry::{Entry, EntryGroup, EntrySet};
use crate::fate::{Fate, FinalFate};
use crate::hubs::Hubs;
use crate::open_set::OpenSet;
use crate::schedule::Schedule;
use std::alloc::{AllocError, Global};
use std::sync::ArcSlice;
use x12_acks::SetKey;
use x12_envelopes::Party;

/// A submitted interchange, and its schedule.
#[derive(Drop)]
pub(crate) struct Row {
    pub entry: Entry,
    pub schedule: Schedule,
}

/// What is done to the row of a transaction set.
#[derive(Clone, Copy)]
pub(crate) enum Change {
    /// It is lifted, to be settled.
    Lift,
    /// It is laid back as it was.
    Lay,
    /// It is closed with this fate.
    Close(FinalFate),
}

impl EntrySet {
    /// The row after a change.
    fn changed(self, change: Change) -> EntrySet
        ensures { set_row result ≡ set_row_changed change (set_row self) }
    {
        match change {
            Change::Lift => EntrySet { out: true, ..self },
            Change::Lay => EntrySet { out: false, ..self },
            Change::Close(fate) => EntrySet {
                fate: fate.fate(),
                out: false,
                ..self
            },
        }
    }
}

/// The index of a place from 1 in a list of this length; `None` where the list has no such place.
fn index_of(place: u16, len: usize) -> Option<usize>
    ensures within { IfSome result (λ i. (i + 1 ≡ place) × (i < len)) }
    ensures none { IfNone result (place ≤ 0 ⊎ len < place) }
{
    let index = usize::from(place).checked_sub(1)?;
    if index < len { Some(index) } else { None }
}

/// The transaction set at a place from 1.
pub fn set_at(sets: &[EntrySet], place: u16) -> Option<EntrySet>
    ensures { option_map set_row result ≡ at_place place (map set_row sets.now) }
{
    match index_of(place, sets.len()) {
        Some(index) => Some(sets[index]),
        None => None,
    }
}

/// The functional group at a place from 1.
pub fn group_at<'a>(groups: &'a [EntryGroup], place: u16) -> Option<&'a EntryGroup>
    ensures { option_map (λ g. group_row g.now) result ≡ at_place place (map group_row groups.now) }
{
    match index_of(place, groups.len()) {
        Some(index) => Some(&groups[index]),
        None => None,
    }
}

impl Entry {
    /// Whether a transaction set is pending.
    pub fn is_open(&self) -> bool
        ensures { result ≡ row_is_open (entry_row self.now) }
    {
        for group in &self.groups {
            if is_any_pending(&group.sets) {
                return true;
            }
        }
        false
    }
}

/// Whether a transaction set is pending.
fn is_any_pending(sets: &[EntrySet]) -> bool
    ensures { result ≡ list_any (λ s. is_pending s.fate) (map set_row sets.now) }
{
    for set in sets {
        if set.fate == Fate::Pending {
            return true;
        }
    }
    false
}

/// Changes the transaction set at a place from 1; changes nothing where there is none.
fn change_set(sets: &mut [EntrySet], place: u16, change: Change)
    ensures { map set_row sets.new
        ≡ with_place (set_row_changed change) place (map set_row sets.old) }
{
    if let Some(index) = index_of(place, sets.len()) {
        sets[index] = sets[index].changed(change);
    }
}

/// Changes the transaction set at a place of the group at a place, both from 1.
fn change_group(groups: &mut [EntryGroup], group: u16, set: u16, change: Change)
    ensures { map group_row groups.new
        ≡ with_place (λ g. record g { sets = with_place (set_row_changed change) set g.sets }) group
        (map group_row groups.old) }
{
    if let Some(index) = index_of(group, groups.len()) {
        change_set(&mut groups[index].sets, set, change);
    }
}

/// Finds an interchange by its number, among interchanges by rising number.
pub(crate) fn find_row(rows: &[Row], icn: u32) -> Option<usize>
    requires { IcnsRise (map row_view rows.now) }
    ensures found { IfSome result (λ i. (i < length rows.now)
        × ((d : Row) → (row_view (slice_index_or rows.now i d)).interchange.icn ≡ icn)
        × (find (λ r. r.interchange.icn == icn) (map row_view rows.now)
        ≡ slice_get (map row_view rows.now) i)) }
    ensures none { IfNone result
        (find (λ r. r.interchange.icn == icn) (map row_view rows.now) ≡ None) }
{
    rows.binary_search_by_key(&icn, |row| row.entry.icn).ok()
}

/// Changes the transaction set of a key; changes nothing where there is none.
pub(crate) fn change_row(rows: &mut [Row], key: &SetKey, change: Change)
    requires { IcnsRise (map row_view rows.old) }
    ensures { map row_view rows.new
        ≡ map (with_set_of (set_row_changed change) (key_view key.now)) (map row_view rows.old) }
{
    if let Some(index) = find_row(rows, key.icn) {
        change_group(&mut rows[index].entry.groups, key.group, key.set, change);
    }
}

/// The interchange of this number.
#[tactic(auto, unfolding(crate::specs::Ledger::interchange_in))]
pub(crate) fn entry_of<'a>(rows: &'a [Row], icn: u32) -> Option<&'a Entry>
    requires { IcnsRise (map row_view rows.now) }
    ensures { option_map (λ e. entry_row e.now) result
        ≡ interchange_in (map row_view rows.now) icn }
{
    match find_row(rows, icn) {
        Some(index) => Some(&rows[index].entry),
        None => None,
    }
}

/// The transaction set of this key.
#[tactic(auto, unfolding(crate::specs::Ledger::row_in, crate::specs::Entry::set_row_at))]
pub(crate) fn set_of(rows: &[Row], me: &Party, key: &SetKey) -> Option<EntrySet>
    requires { IcnsRise (map row_view rows.now) }
    ensures { option_map set_row result ≡ row_in me.now (map row_view rows.now) (key_view key.now) }
{
    if key.sender != *me {
        return None;
    }
    let Some(entry) = entry_of(rows, key.icn) else {
        return None;
    };
    let Some(group) = group_at(&entry.groups, key.group) else {
        return None;
    };
    set_at(&group.sets, key.set)
}

/// The transaction set of this key, if it is pending and not out, as it is lifted.
#[tactic(auto, unfolding(crate::specs::Ledger::row_in, crate::specs::Entry::set_row_at, crate::specs::Ledger::numbers_in_rows, crate::specs::Ledger::numbers_in))]
pub(crate) fn waiting_set(rows: &[Row], me: &Party, hubs: &Hubs, key: &SetKey) -> Option<OpenSet>
    requires { IcnsRise (map row_view rows.now) }
    ensures lifts { is_some result
        ≡ can_be_lifted (row_in me.now (map row_view rows.now) (key_view key.now)) }
    ensures key { IfSome result (λ o. o.numbers.key ≡ key_view key.now) }
    ensures set { IfSome result (λ o.
        numbers_in_rows me.now (map row_view rows.now) (key_view key.now)
        ≡ Some o.numbers) }
    ensures hubs { IfSome result (λ o. o.hubs ≡ hubs_of hubs.now) }
{
    if key.sender != *me {
        return None;
    }
    let Some(entry) = entry_of(rows, key.icn) else {
        return None;
    };
    let Some(group) = group_at(&entry.groups, key.group) else {
        return None;
    };
    let Some(set) = set_at(&group.sets, key.set) else {
        return None;
    };
    if set.fate != Fate::Pending || set.out {
        return None;
    }
    Some(OpenSet {
        key: *key,
        receiver: entry.partner,
        hubs: *hubs,
        functional: group.functional,
        gcn: group.gcn,
        number: set.number,
    })
}

/// How many interchanges are open.
pub(crate) fn open_rows(rows: &[Row]) -> u64
    ensures { result ≡ count_by (λ r. row_is_open r.interchange) (map row_view rows.now) }
{
    let mut count = 0;
    for row in rows {
        if row.entry.is_open() {
            count += 1;
        }
    }
    count
}

impl Row {
    /// Whether the interchange is open, and due at this tick.
    fn is_due(&self, now: u64) -> bool
        ensures { result ≡ row_is_due now (row_view self.now) }
    {
        self.entry.is_open() && self.schedule.due <= now
    }

    /// Counts the interchange as sent at this tick, if it is due.
    fn send_if_due(&mut self, now: u64)
        ensures { row_view self.new ≡ row_sent_if_due now (row_view self.old) }
    {
        if self.is_due(now) {
            self.schedule = self.schedule.sent(now);
        }
    }
}

/// The bytes of the interchanges that are due at this tick.
pub(crate) fn due_rows(
    alloc: Global,
    rows: &[Row],
    now: u64,
) -> Result<Vec<ArcSlice<u8>>, AllocError>
    ensures { IfOk result (λ v. map arc_slice_items v.items
        ≡ map (λ r. r.interchange.bytes) (filter (row_is_due now) (map row_view rows.now))) }
{
    let mut due = Vec::new(alloc);
    for row in rows {
        if row.is_due(now) {
            due.push(row.entry.bytes.clone()?)?;
        }
    }
    Ok(due)
}

/// Counts the interchanges that are due at this tick as sent.
pub(crate) fn send_due(rows: &mut [Row], now: u64)
    ensures { map row_view rows.new ≡ map (row_sent_if_due now) (map row_view rows.old) }
{
    for i in 0..rows.len() {
        rows[i].send_if_due(now);
    }
}

/// Drops the interchanges that have no pending set.
pub(crate) fn drop_closed(rows: &mut Vec<Row>)
    ensures { map row_view rows.new.items
        ≡ filter (λ r. row_is_open r.interchange) (map row_view rows.old.items) }
{
    rows.retain(|row| row.entry.is_open());
}
