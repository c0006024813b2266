//! The table of a station's submissions.

ghost use Rattle.std.specs.Prelude.{◌≡◌, IfOk, option_map, Some, IfSome, ℕ};
ghost use Rattle.sqlite.specs.Held.{state};
ghost use Rattle.sql_rows.specs.Kept.{IsPart};
ghost use Rattle.x12_outbound.specs.Entry.{entry_row};
ghost use Rattle.x12_station.specs.Stored.{row_of_entry, submitted_bytes, closed_entry};
ghost use Rattle.x12_station.specs.Stored.{closed_entry_with_group};
ghost use Rattle.x12_station.specs.Record.{IsSoundClosed};
ghost use Rattle.x12_station.specs.Memory.{only_if};
ghost use Rattle.x12_tables.specs.Adopt.{TakesRows};
ghost use Rattle.x12_tables.specs.declared.fault.TableFault.TheVariants.{Memory};
ghost use Rattle.x12_station_records.specs.StationAdopt.{IsSubmission, AreSubmissions};
ghost use Rattle.x12_station_records.specs.StationChange.{Turns, with_submission, RisesByNumber};
ghost use Rattle.x12_station_records.specs.StationClosed.{is_closed, is_named_by};
ghost use Rattle.x12_station_records.specs.StationClosed.{closed_with_number};
ghost use Rattle.x12_station_records.specs.StationEntries.{head_view, first_head, head_numbered};
ghost use Rattle.x12_station_records.specs.StationEntries.{entry_numbered, IsFit};
ghost use Rattle.x12_station_records.specs.StationFinds.{submission_numbered};
ghost use Rattle.x12_station_records.specs.StationPart.{PartGoesOn, SubmitsAll};
ghost use Rattle.x12_station_records.specs.StationRead.{StationAnswers};
ghost use Rattle.x12_station_records.specs.StationTaken.{AreChained};

use crate::station_groups::are_sendable;
use crate::station_outset::{add_groups, find_number, load_groups};
use crate::values::{control_number, key_asked, test_party};
use sql_rows::run;
use sqlite::types::ValueRef;
use sqlite::{Alter, Connection, Error, Row, Transaction};
use std::alloc::Global;
use std::sync::ArcSlice;
use x12_envelopes::Party;
use x12_numbers::Book;
use x12_outbound::Entry;
use x12_station::has_group;
use x12_tables::{
    TableFault, first_value, integer, long_in, misplaced, number_in, party_bytes, party_in_row,
    read,
};

/// Adds a submission without its transaction sets, under this number among submissions and first
/// arrivals.
fn add_submission<S: Alter>(
    tx: &mut Transaction<'_, S>,
    seq: u64,
    entry: &Entry,
) -> Result<(), Error>
    ensures same_reference { tx.new.conn.ghost_name ≡ tx.old.conn.ghost_name }
    ensures part { IsPart (Turns (with_submission (row_of_entry seq (entry_row entry.now)))
        (RisesByNumber (row_of_entry seq (entry_row entry.now)))) result
        (state S.Store tx.old.conn.now) (state S.Store tx.new.conn.now) }
{
    let icn = control_number(entry.icn)?;
    let seq = integer(seq)?;
    let bytes = party_bytes(&entry.partner);
    run(
        tx,
        "INSERT INTO outbound (icn, seq, partner, bytes) VALUES (?1, ?2, ?3, ?4)",
        &[
            ValueRef::Int(icn),
            ValueRef::Int(seq),
            ValueRef::Blob(&bytes),
            ValueRef::Blob(&entry.bytes),
        ],
    )
}

/// Adds a submission under this number among submissions and first arrivals, and its transaction
/// sets as rows from the number `at` on; the next number of a row.
pub(crate) fn submit<S: Alter>(
    tx: &mut Transaction<'_, S>,
    at: u64,
    seq: u64,
    entry: &Entry,
) -> Result<u64, Error>
    ensures same_reference { tx.new.conn.ghost_name ≡ tx.old.conn.ghost_name }
    ensures part { PartGoesOn (λ to. SubmitsAll seq (entry_row entry.now) at to) result
        (state S.Store tx.old.conn.now) (state S.Store tx.new.conn.now) }
{
    add_submission(tx, seq, entry)?;
    add_groups(tx, at, entry)
}

/// The bytes of the submitted interchange of this number, open or closed.
pub(crate) fn find_outbound<S: Alter>(
    conn: &mut Connection<S>,
    icn: u32,
) -> Result<Option<Vec<u8>>, Error>
    ensures { StationAnswers (λ s o. option_map (λ v. v.items) o ≡ submitted_bytes s icn) result
        (state S.Store conn.old) (state S.Store conn.new) }
{
    let rows = read(
        conn,
        "SELECT bytes FROM outbound WHERE icn = ?1",
        &[ValueRef::Int(i64::from(icn))],
    )?;
    first_value(&rows)
}

/// The bytes of the submission of this number among submissions and first arrivals.
pub(crate) fn find_submitted<S: Alter>(
    conn: &mut Connection<S>,
    seq: u64,
) -> Result<Option<Vec<u8>>, Error>
    ensures { StationAnswers (λ s o. option_map (λ v. v.items) o ≡ option_map (λ r. r.bytes)
        (submission_numbered s seq)) result (state S.Store conn.old) (state S.Store conn.new) }
{
    let rows = read(
        conn,
        "SELECT bytes FROM outbound WHERE seq = ?1",
        &[ValueRef::Int(key_asked(seq))],
    )?;
    first_value(&rows)
}

/// The receiver and the bytes of a submission.
#[derive(Drop)]
struct Head {
    partner: Party,
    bytes: Vec<u8>,
}

/// The receiver and the bytes in the first row, if there is one.
fn head_in_rows(rows: &[Row]) -> Result<Option<Head>, Error>
    ensures { IfOk result (λ o. option_map head_view o ≡ first_head rows.now) }
{
    match rows.first() {
        Some(row) => Ok(Some(Head {
            partner: party_in_row(row, 0)?,
            bytes: row.get(1)?,
        })),
        None => Ok(None),
    }
}

/// The receiver and the bytes of the submission of this number, if there is one.
fn find_head<S: Alter>(conn: &mut Connection<S>, icn: u32) -> Result<Option<Head>, Error>
    ensures { StationAnswers (λ s o. option_map head_view o ≡ head_numbered s icn) result
        (state S.Store conn.old) (state S.Store conn.new) }
{
    let rows = read(
        conn,
        "SELECT partner, bytes FROM outbound WHERE icn = ?1",
        &[ValueRef::Int(i64::from(icn))],
    )?;
    head_in_rows(&rows)
}

/// The submission of this number, which has this head. One that can't be sent is a failure of the
/// device.
fn put_together<S: Alter>(conn: &mut Connection<S>, icn: u32, head: Head) -> Result<Entry, Error>
    ensures answers { StationAnswers (λ s e. Some (head_view head) ≡ head_numbered s icn → Some
        (entry_row e) ≡ entry_numbered s icn) result
        (state S.Store conn.old) (state S.Store conn.new) }
    ensures fit { IfOk result (λ e. IsFit (entry_row e)) }
    ensures number { IfOk result (λ e. e.icn ≡ icn) }
{
    let groups = load_groups(conn, icn)?;
    if !are_sendable(&groups) {
        return Err(misplaced());
    }
    Ok(Entry {
        icn,
        partner: head.partner,
        bytes: ArcSlice::from_vec(head.bytes)?,
        groups,
    })
}

/// The submission of this number, open or closed. One that can't be sent is a failure of the device.
pub(crate) fn find_entry<S: Alter>(
    conn: &mut Connection<S>,
    icn: u32,
) -> Result<Option<Entry>, Error>
    ensures answers { StationAnswers (λ s o. option_map entry_row o ≡ entry_numbered s icn) result
        (state S.Store conn.old) (state S.Store conn.new) }
    ensures fit { IfOk result (λ o. IfSome o (λ e. IsFit (entry_row e))) }
    ensures number { IfOk result (λ o. IfSome o (λ e. e.icn ≡ icn)) }
{
    let found = find_head(conn, icn)?;
    match found {
        Some(head) => Ok(Some(put_together(conn, icn, head)?)),
        None => Ok(None),
    }
}

/// The submission, where none of its sets is pending.
fn closed(entry: Entry) -> Option<Entry>
    ensures value { option_map entry_row result ≡ only_if is_closed (entry_row entry) }
    ensures sound { IsFit (entry_row entry) →
        IfSome result (λ e. IsSoundClosed (entry_row e)) }
{
    if entry.is_open() {
        return None;
    }
    Some(entry)
}

/// The submitted interchange of this number, where none of its sets is pending.
pub(crate) fn find_closed<S: Alter>(
    conn: &mut Connection<S>,
    icn: u32,
) -> Result<Option<Entry>, Error>
    ensures answers { StationAnswers (λ s o. option_map entry_row o ≡ closed_entry s icn) result
        (state S.Store conn.old) (state S.Store conn.new) }
    ensures sound { IfOk result (λ o. IfSome o (λ e. IsSoundClosed (entry_row e))) }
{
    let found = find_entry(conn, icn)?;
    match found {
        Some(entry) => Ok(closed(entry)),
        None => Ok(None),
    }
}

/// The closed submission that has a transaction set in a group of this number.
fn find_closed_by_group<S: Alter>(
    conn: &mut Connection<S>,
    gcn: u32,
) -> Result<Option<Entry>, Error>
    ensures answers { StationAnswers (λ s o. option_map entry_row o ≡ closed_with_number s gcn)
        result (state S.Store conn.old) (state S.Store conn.new) }
    ensures sound { IfOk result (λ o. IfSome o (λ e. IsSoundClosed (entry_row e))) }
{
    let number = find_number(conn, gcn)?;
    match number {
        Some(icn) => find_closed(conn, icn),
        None => Ok(None),
    }
}

/// The submission, where it is to this partner and has this group.
fn named(entry: Entry, partner: &Party, functional: [u8; 2], gcn: u32) -> Option<Entry>
    ensures value { option_map entry_row result
        ≡ only_if (is_named_by partner.now functional gcn) (entry_row entry) }
    ensures sound { IsSoundClosed (entry_row entry) →
        IfSome result (λ e. IsSoundClosed (entry_row e)) }
{
    if entry.partner == *partner && has_group(&entry.groups, functional, gcn) {
        Some(entry)
    } else {
        None
    }
}

/// The submitted interchange to this partner that has a group of this code (GS01) and number (GS06),
/// where none of its sets is pending.
pub(crate) fn find_closed_group<S: Alter>(
    conn: &mut Connection<S>,
    partner: &Party,
    functional: [u8; 2],
    gcn: u32,
) -> Result<Option<Entry>, Error>
    ensures answers { StationAnswers (λ s o. option_map entry_row o ≡ closed_entry_with_group s
        partner.now functional gcn) result (state S.Store conn.old) (state S.Store conn.new) }
    ensures sound { IfOk result (λ o. IfSome o (λ e. IsSoundClosed (entry_row e))) }
{
    let found = find_closed_by_group(conn, gcn)?;
    match found {
        Some(entry) => Ok(named(entry, partner, functional, gcn)),
        None => Ok(None),
    }
}

/// Both numbers in a row of a submission's control number, its number among submissions and first
/// arrivals, and its receiver. They are above the last ones, and the control number was used.
fn submission_in_row(row: &Row, last: (u32, u64), book: Book) -> Result<(u32, u64), TableFault>
    ensures is { IfOk result (λ x. IsSubmission book last x row.now) }
    ensures taken { TakesRows ((x : ℕ × ℕ) × IsSubmission book last x row.now) Memory result }
{
    let icn = number_in(row, 0)?;
    let seq = long_in(row, 1)?;
    test_party(row, 2)?;
    if icn <= last.0 || seq <= last.1 || icn > book.interchange() {
        return Err(TableFault::Store);
    }
    Ok((icn, seq))
}

/// Both numbers of each submission.
pub(crate) fn submissions_in_rows(
    alloc: Global,
    rows: &[Row],
    book: Book,
) -> Result<Vec<(u32, u64)>, TableFault>
    ensures are { IfOk result (λ v. AreSubmissions book (0, 0) v.items rows.now) }
    ensures taken { TakesRows (AreChained (IsSubmission book) (0, 0) rows.now) Memory result }
{
    let mut sent = Vec::new(alloc);
    let mut last = (0, 0);
    for row in rows {
        last = submission_in_row(row, last, book)?;
        sent.push(last)?;
    }
    Ok(sent)
}
