//! Submissions in memory, by rising number.

ghost use Rattle.std.specs.Prelude.{◌≡◌, ◌<◌, ◌==◌, ◌≤◌, ◌+◌, ◌⊎◌, None, IfSome, IfNone, find};
ghost use Rattle.std.specs.Prelude.{◌++◌, ◌∷◌, [], OnOk, OnErr, length, map, slice_get};
ghost use Rattle.std.specs.Prelude.{slice_index_or};
ghost use Rattle.x12_acks.specs.Key.{key_view};
ghost use Rattle.x12_outbound.specs.Entry.{set_row, group_row, entry_row, with_place};
ghost use Rattle.x12_outbound.specs.Settling.{target_view};
ghost use Rattle.x12_station.specs.Memory.{numbered_row, numbered_settled, RowsRise};
ghost use Rattle.x12_station.specs.Memory.{numbered_settled_by};

use std::alloc::{AllocError, Global};
use x12_acks::SetKey;
use x12_outbound::{Entry, EntryGroup, EntrySet, Fate};

/// A submitted interchange, under its number among submissions and first arrivals.
#[derive(Drop)]
pub(crate) struct NumberedEntry {
    pub seq: u64,
    pub entry: Entry,
}

/// The index of a place from 1 in a list of this length; `None` where the list has no such place.
pub(crate) fn index_of(place: u16, len: usize) -> Option<usize>
    ensures within { IfSome result (λ i. (i + 1 ≡ place) × (i < len)) }
    ensures none { IfNone result (place ≤ 0 ⊎ len < place) }
{
    let index = usize::from(place).checked_sub(1)?;
    if index < len { Some(index) } else { None }
}

/// Gives the transaction set at a place from 1 this fate; changes nothing where there is none.
fn settle_set(sets: &mut [EntrySet], place: u16, fate: Fate)
    ensures { map set_row sets.new
        ≡ with_place (λ s. record s { fate = fate }) place (map set_row sets.old) }
{
    if let Some(index) = index_of(place, sets.len()) {
        sets[index].fate = fate;
    }
}

/// Gives the transaction set at a place of the group at a place, both from 1, this fate.
fn settle_group(groups: &mut [EntryGroup], group: u16, set: u16, fate: Fate)
    ensures { map group_row groups.new
        ≡ with_place (λ g. record g {
          sets = with_place (λ s. record s { fate = fate }) set g.sets;
        }) group (map group_row groups.old) }
{
    if let Some(index) = index_of(group, groups.len()) {
        settle_set(&mut groups[index].sets, set, fate);
    }
}

/// Finds a submission by its number.
pub(crate) fn find_row(rows: &[NumberedEntry], icn: u32) -> Option<usize>
    requires { RowsRise (map numbered_row rows.now) }
    ensures found { IfSome result (λ i. (i < length rows.now)
        × ((d : NumberedEntry) → (numbered_row (slice_index_or rows.now i d)).entry.icn ≡ icn)
        × (find (λ n. n.entry.icn == icn) (map numbered_row rows.now)
        ≡ slice_get (map numbered_row rows.now) i)) }
    ensures none { IfNone result
        (find (λ n. n.entry.icn == icn) (map numbered_row rows.now) ≡ None) }
{
    rows.binary_search_by_key(&icn, |row| row.entry.icn).ok()
}

/// Gives the transaction set of a key this fate; changes nothing where there is none.
pub(crate) fn settle_row(rows: &mut [NumberedEntry], key: &SetKey, fate: Fate)
    requires { RowsRise (map numbered_row rows.old) }
    ensures { map numbered_row rows.new
        ≡ map (numbered_settled (key_view key.now, fate)) (map numbered_row rows.old) }
{
    if let Some(index) = find_row(rows, key.icn) {
        settle_group(&mut rows[index].entry.groups, key.group, key.set, fate);
    }
}

/// Gives each of these sets its fate, one after the other.
pub(crate) fn settle(rows: &mut [NumberedEntry], settled: &[(SetKey, Fate)])
    requires { RowsRise (map numbered_row rows.old) }
    ensures { map numbered_row rows.new
        ≡ map (numbered_settled_by (map target_view settled.now)) (map numbered_row rows.old) }
{
    for (key, fate) in settled {
        settle_row(rows, key, *fate);
    }
}

/// Puts a copy of a submission behind the others.
pub(crate) fn add(
    rows: &mut Vec<NumberedEntry>,
    alloc: Global,
    seq: u64,
    entry: &Entry,
) -> Result<(), AllocError>
    ensures ok { OnOk result (map numbered_row rows.new.items
        ≡ map numbered_row rows.old.items
        ++ record { seq = seq; entry = entry_row entry.now } ∷ []) }
    ensures err { OnErr result (rows.new.items ≡ rows.old.items) }
{
    let entry = entry.copied(alloc)?;
    rows.push(NumberedEntry { seq, entry })?;
    Ok(())
}
