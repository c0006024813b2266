//! What a station loads of its records: of open submissions, one after the other.

ghost use Rattle.std.specs.Prelude.{◌≡◌, IfOk, ◌==◌, ◌+◌, ◌++◌, ◌∷◌, ℕ, max, map, List, IsTrue};
ghost use Rattle.std.specs.Prelude.{OnOk};
ghost use Rattle.sqlite.specs.Held.{state};
ghost use Rattle.x12_station.specs.Record.{loaded_view, loaded_of, IsSoundLoaded};
ghost use Rattle.x12_outbound.specs.Entry.{entry_row, group_row};
ghost use Rattle.x12_station.specs.Closed.{above_groups};
ghost use Rattle.x12_station.specs.Stored.{open_entries};
ghost use Rattle.x12_tables.specs.Read.{OnlyReads};
ghost use Rattle.x12_station_records.specs.StationContent.{content_of};
ghost use Rattle.x12_station_records.specs.StationEntries.{IsFit};
ghost use Rattle.x12_station_records.specs.StationOpen.{entries_by, are_between, AreOpen, IsOpened};
ghost use Rattle.x12_station_records.specs.StationOpen.{MayFollow, Pushes};
ghost use Rattle.x12_station_records.specs.StationRead.{StationAnswers, HasValid};

use crate::station_agreements::load_agreements;
use crate::station_numbers::load_numbers;
use crate::station_outbound::find_entry;
use crate::station_outset::load_open_numbers;
use sqlite::{Alter, Connection, Error};
use std::alloc::Global;
use x12_numbers::Book;
use x12_outbound::{Entry, EntryGroup};
use x12_station::Loaded;
use x12_tables::misplaced;

/// What a station keeps in memory. What is out of form or order is a failure of the device.
pub(crate) fn load<S: Alter>(conn: &mut Connection<S>) -> Result<Loaded, Error>
    ensures answers { StationAnswers (λ s l. loaded_view l ≡ loaded_of s) result
        (state S.Store conn.old) (state S.Store conn.new) }
    ensures sound { IfOk result (λ l. IsSoundLoaded (loaded_view l)) }
{
    let numbers = load_numbers(conn)?;
    let agreements = load_agreements(conn)?;
    let entries = load_open(conn, numbers.book)?;
    Ok(Loaded {
        marks: numbers.owner.marks(),
        book: numbers.book,
        seq: numbers.seq,
        agreements,
        entries,
    })
}

/// Open submissions by rising number, and what the numbers of the next one have to reach.
#[derive(Drop)]
struct Opened {
    entries: Vec<Entry>,
    icn: u64,
    gcn: u64,
}

/// Whether the numbers of groups are within these.
pub(crate) fn are_within(groups: &[EntryGroup], least: u64, most: u32) -> bool
    ensures { result ≡ are_between least most (map group_row groups.now) }
{
    for group in groups {
        if u64::from(group.gcn) < least || group.gcn > most {
            return false;
        }
    }
    true
}

/// Whether this is an open submission whose numbers were used, and reach what they have to.
fn may_follow(opened: &Opened, book: Book, entry: &Entry) -> bool
    ensures { IsTrue result →
        MayFollow book opened.now.icn opened.now.gcn (entry_row entry.now) }
{
    if u64::from(entry.icn) < opened.icn || entry.icn > book.interchange() {
        return false;
    }
    are_within(&entry.groups, opened.gcn, book.group()) && entry.is_open()
}

/// The least number that is above those of the groups, and not below this one.
pub(crate) fn above(least: u64, groups: &[EntryGroup]) -> u64
    ensures { result ≡ max least (above_groups (map group_row groups.now)) }
{
    let mut above = least;
    for group in groups {
        above = above.max(u64::from(group.gcn) + 1);
    }
    above
}

/// Puts a submission behind the others.
#[tactic(auto, using(crate::proofs::StationOpenLemmas::pushed, crate::proofs::StationOpenLemmas::pushes))]
fn push(opened: &mut Opened, book: Book, entry: Entry) -> Result<(), Error>
    requires holds { IsOpened book opened.old }
    requires fit { IsFit (entry_row entry) }
    requires follows { MayFollow book opened.old.icn opened.old.gcn (entry_row entry) }
    ensures holds { OnOk result (IsOpened book opened.new) }
    ensures pushed { OnOk result (Pushes (entry_row entry) opened.old opened.new) }
{
    let icn = u64::from(entry.icn) + 1;
    let gcn = above(opened.gcn, &entry.groups);
    opened.entries.push(entry)?;
    opened.icn = icn;
    opened.gcn = gcn;
    Ok(())
}

/// Puts a submission behind the others. One that may not follow is a failure of the device.
fn take_in(opened: &mut Opened, book: Book, entry: Entry) -> Result<(), Error>
    requires holds { IsOpened book opened.old }
    requires fit { IsFit (entry_row entry) }
    ensures holds { OnOk result (IsOpened book opened.new) }
    ensures pushed { OnOk result (Pushes (entry_row entry) opened.old opened.new) }
{
    if !may_follow(opened, book, &entry) {
        return Err(misplaced());
    }
    push(opened, book, entry)
}

/// Whether the submission of this number was put behind the others last.
fn is_loaded(opened: &Opened, icn: u32) -> bool
    ensures { result ≡ (icn + 1 == opened.now.icn) }
{
    u64::from(icn) + 1 == opened.icn
}

/// Looks for the submission of the next number, and puts it behind the others, if that wasn't done
/// before. One that isn't there, or may not follow, is a failure of the device.
fn load_next<S: Alter>(
    conn: &mut Connection<S>,
    opened: &mut Opened,
    book: Book,
    icn: u32,
) -> Result<(), Error>
    requires { IsOpened book opened.old }
    ensures reads { OnlyReads (state S.Store conn.old) (state S.Store conn.new) }
    ensures answered { IsTrue (state S.Store conn.new).is_clean → OnOk result
        (IsTrue (state S.Store conn.old).is_open → IsTrue (state S.Store conn.new).is_open) }
    ensures holds { OnOk result (IsOpened book opened.new) }
    ensures next { let s = content_of (state S.Store conn.old).now.trees in
        HasValid (state S.Store conn.old) → IsTrue (state S.Store conn.new).is_open →
        OnOk result ((ns : List ℕ) →
        map entry_row opened.new.entries.items ++ entries_by s opened.new.icn ns
        ≡ map entry_row opened.old.entries.items ++ entries_by s opened.old.icn (icn ∷ ns)) }
{
    if is_loaded(opened, icn) {
        return Ok(());
    }
    let found = find_entry(conn, icn)?;
    match found {
        Some(entry) => take_in(opened, book, entry),
        None => Err(misplaced()),
    }
}

/// The submissions of these numbers, put together.
fn load_each<S: Alter>(
    conn: &mut Connection<S>,
    alloc: Global,
    book: Book,
    numbers: &[u32],
) -> Result<Vec<Entry>, Error>
    ensures reads { OnlyReads (state S.Store conn.old) (state S.Store conn.new) }
    ensures answered { IsTrue (state S.Store conn.new).is_clean → OnOk result
        (IsTrue (state S.Store conn.old).is_open → IsTrue (state S.Store conn.new).is_open) }
    ensures are_open { IfOk result (λ v. AreOpen book (map entry_row v.items)) }
    ensures loaded { HasValid (state S.Store conn.old) →
        IsTrue (state S.Store conn.new).is_open → IfOk result (λ v. map entry_row v.items
        ≡ entries_by (content_of (state S.Store conn.old).now.trees) 0 numbers.now) }
{
    let mut opened = Opened {
        entries: Vec::new(alloc),
        icn: 0,
        gcn: 0,
    };
    for icn in numbers {
        load_next(conn, &mut opened, book, *icn)?;
    }
    Ok(opened.entries)
}

/// The submissions with a pending set, by rising number. What is out of form or order, or of numbers
/// that weren't used, is a failure of the device.
pub(crate) fn load_open<S: Alter>(conn: &mut Connection<S>, book: Book) -> Result<Vec<Entry>, Error>
    ensures are_open { IfOk result (λ v. AreOpen book (map entry_row v.items)) }
    ensures answers { StationAnswers (λ s v. map entry_row v.items ≡ open_entries s) result
        (state S.Store conn.old) (state S.Store conn.new) }
{
    let numbers = load_open_numbers(conn)?;
    load_each(conn, *numbers.allocator(), book, &numbers)
}
