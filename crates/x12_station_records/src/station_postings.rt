//! The table of a station's postings.

ghost use Rattle.std.specs.Prelude.{◌≡◌, ◌<◌, ◌^◌, OnOk, map, IfOk, option_map, slice_get, ◌≤◌, ℕ};
ghost use Rattle.std.specs.Prelude.{length};
ghost use Rattle.sqlite.specs.Held.{state};
ghost use Rattle.sqlite.specs.Order.{column};
ghost use Rattle.sql_rows.specs.Kept.{IsPart};
ghost use Rattle.x12_inbound.specs.Posting.{posting_view};
ghost use Rattle.x12_acks.specs.Key.{key_view};
ghost use Rattle.x12_inbound.specs.Register.{posted_in};
ghost use Rattle.x12_outbound.specs.Entry.{at_place};
ghost use Rattle.x12_tables.specs.Adopt.{TakesRows};
ghost use Rattle.x12_tables.specs.Party.{bytes_in};
ghost use Rattle.x12_tables.specs.declared.fault.TableFault.TheVariants.{Memory};
ghost use Rattle.x12_station_records.specs.StationAdopt.{IsKeptPlace, IsSetNumber, IsPosting};
ghost use Rattle.x12_station_records.specs.StationAdopt.{ArePostings};
ghost use Rattle.x12_station_records.specs.StationChange.{Turns, with_posting, HasNextPosting};
ghost use Rattle.x12_station_records.specs.StationPart.{PartGoesOn, AddsPostings};
ghost use Rattle.x12_station_records.specs.StationPostings.{key_shown, posting_shown};
ghost use Rattle.x12_station_records.specs.StationRead.{StationAnswers};

use crate::values::{
    code_in, key_asked, place_in, set_number_in, test_number, test_party, test_place,
};
use sql_rows::run;
use sqlite::types::ValueRef;
use sqlite::{Alter, Connection, Error, Row, Transaction};
use std::alloc::Global;
use x12_acks::SetKey;
use x12_inbound::Posting;
use x12_tables::{TableFault, integer, party_bytes, party_in_row, read};

/// Adds a posting, as the row of this number.
fn add_posting<S: Alter>(
    tx: &mut Transaction<'_, S>,
    at: u64,
    posting: &Posting,
) -> Result<(), Error>
    ensures same_reference { tx.new.conn.ghost_name ≡ tx.old.conn.ghost_name }
    ensures part { IsPart (Turns (with_posting (posting_view posting.now)) (HasNextPosting at))
        result (state S.Store tx.old.conn.now) (state S.Store tx.new.conn.now) }
    ensures few { OnOk result (at < 2 ^ 63) }
{
    let at = integer(at)?;
    let icn = posting.key.icn;
    let sender = party_bytes(&posting.key.sender);
    run(
        tx,
        "INSERT INTO posting (at, icn, grp, place, partner, functional, setid, number, bytes) VALUES (?1, ?2, ?3, ?4, ?5, ?6, ?7, ?8, ?9)",
        &[
            ValueRef::Int(at),
            ValueRef::Int(i64::from(icn)),
            ValueRef::Int(i64::from(posting.key.group)),
            ValueRef::Int(i64::from(posting.key.set)),
            ValueRef::Blob(&sender),
            ValueRef::Blob(&posting.functional),
            ValueRef::Blob(&posting.set),
            ValueRef::Blob(posting.number.as_bytes()),
            ValueRef::Blob(&posting.bytes),
        ],
    )
}

/// Adds postings, as rows from this number on; the next number.
pub(crate) fn add_postings<S: Alter>(
    tx: &mut Transaction<'_, S>,
    at: u64,
    postings: &[Posting],
) -> Result<u64, Error>
    ensures same_reference { tx.new.conn.ghost_name ≡ tx.old.conn.ghost_name }
    ensures part { PartGoesOn (λ to. AddsPostings at (map posting_view postings.now) to) result
        (state S.Store tx.old.conn.now) (state S.Store tx.new.conn.now) }
{
    let mut next = at;
    for posting in postings {
        add_posting(tx, next, posting)?;
        next += 1;
    }
    Ok(next)
}

/// The key in a row of a posting.
fn key_in_row(row: &Row) -> Result<SetKey, Error>
    ensures { IfOk result (λ key. key_view key ≡ key_shown row.now) }
{
    Ok(SetKey {
        sender: party_in_row(row, 0)?,
        icn: row.get(1)?,
        group: place_in(row, 2)?,
        set: place_in(row, 3)?,
    })
}

/// The posting in a row.
fn posting_in_row(row: &Row) -> Result<Posting, Error>
    ensures { IfOk result (λ posting. posting_view posting ≡ posting_shown row.now) }
{
    Ok(Posting {
        key: key_in_row(row)?,
        functional: code_in(row, 4)?,
        set: code_in(row, 5)?,
        number: set_number_in(row, 6)?,
        bytes: row.get(7)?,
    })
}

/// The postings in rows.
fn postings_in_rows(alloc: Global, rows: &[Row]) -> Result<Vec<Posting>, Error>
    ensures { IfOk result (λ v. map posting_view v.items ≡ map posting_shown rows.now) }
{
    let mut postings = Vec::new(alloc);
    for row in rows {
        postings.push(posting_in_row(row)?)?;
    }
    Ok(postings)
}

/// The postings, in the order of their arrival. A row out of form is a failure of the device.
pub(crate) fn postings<S: Alter>(conn: &mut Connection<S>) -> Result<Vec<Posting>, Error>
    ensures { StationAnswers (λ s v. map posting_view v.items ≡ s.postings) result
        (state S.Store conn.old) (state S.Store conn.new) }
{
    let rows = read(
        conn,
        "SELECT partner, icn, grp, place, functional, setid, number, bytes FROM posting ORDER BY at",
        &[],
    )?;
    postings_in_rows(*rows.allocator(), &rows)
}

/// The posting in the first row, if there is one.
fn posting_in_rows(rows: &[Row]) -> Result<Option<Posting>, Error>
    ensures { IfOk result (λ o. option_map posting_view o
        ≡ option_map posting_shown (slice_get rows.now 0)) }
{
    match rows.first() {
        Some(row) => Ok(Some(posting_in_row(row)?)),
        None => Ok(None),
    }
}

/// The posting at this place in the order of arrival, from 1.
pub(crate) fn find_posting<S: Alter>(
    conn: &mut Connection<S>,
    at: u64,
) -> Result<Option<Posting>, Error>
    ensures { StationAnswers (λ s o. option_map posting_view o ≡ at_place at s.postings) result
        (state S.Store conn.old) (state S.Store conn.new) }
{
    let rows = read(
        conn,
        "SELECT partner, icn, grp, place, functional, setid, number, bytes FROM posting WHERE at = ?1",
        &[ValueRef::Int(key_asked(at))],
    )?;
    posting_in_rows(&rows)
}

/// The posting of the transaction set of this key, if it was posted.
pub(crate) fn find_posted<S: Alter>(
    conn: &mut Connection<S>,
    key: &SetKey,
) -> Result<Option<Posting>, Error>
    ensures { StationAnswers (λ s o. option_map posting_view o ≡ posted_in s.postings (key_view
        key.now)) result (state S.Store conn.old) (state S.Store conn.new) }
{
    let sender = party_bytes(&key.sender);
    let rows = read(
        conn,
        "SELECT partner, icn, grp, place, functional, setid, number, bytes FROM posting WHERE icn = ?1 AND grp = ?2 AND place = ?3 AND partner = ?4",
        &[
            ValueRef::Int(i64::from(key.icn)),
            ValueRef::Int(i64::from(key.group)),
            ValueRef::Int(i64::from(key.set)),
            ValueRef::Blob(&sender),
        ],
    )?;
    posting_in_rows(&rows)
}

/// Tests that a column has the place of a group or of a transaction set.
fn test_set_place(row: &Row, at: usize) -> Result<(), TableFault>
    ensures is { OnOk result (IsKeptPlace (column row.now at)) }
    ensures taken { TakesRows (IsKeptPlace (column row.now at)) Memory result }
{
    let _place = place_in(row, at)?;
    Ok(())
}

/// Tests the form of GS01, ST01 and ST02 of a posting.
fn test_codes(row: &Row) -> Result<(), TableFault>
    ensures functional { OnOk result (length (bytes_in (column row.now 4)) ≡ 2) }
    ensures set { OnOk result (length (bytes_in (column row.now 5)) ≡ 3) }
    ensures number { OnOk result (IsSetNumber (column row.now 6)) }
    ensures taken { TakesRows ((length (bytes_in (column row.now 4)) ≡ 2)
        × (length (bytes_in (column row.now 5)) ≡ 3) × IsSetNumber (column row.now 6))
        Memory result }
{
    let _functional: [u8; 2] = code_in(row, 4)?;
    let _set: [u8; 3] = code_in(row, 5)?;
    let _number = set_number_in(row, 6)?;
    Ok(())
}

/// Tests a posting, which has this place.
fn test_posting(row: &Row, place: u64) -> Result<(), TableFault>
    ensures is { OnOk result (IsPosting place row.now) }
    ensures taken { TakesRows (IsPosting place row.now) Memory result }
{
    test_party(row, 0)?;
    test_number(row, 1)?;
    test_set_place(row, 2)?;
    test_set_place(row, 3)?;
    test_codes(row)?;
    test_place(row, 7, place)
}

/// The place of the next posting; the places count from 1.
pub(crate) fn next_posting(rows: &[Row]) -> Result<u64, TableFault>
    ensures postings { IfOk result (λ next. ArePostings 1 next rows.now) }
    ensures few { IfOk result (λ next. next ≤ 2 ^ 63) }
    ensures taken { TakesRows ((next : ℕ) × ArePostings 1 next rows.now) Memory result }
{
    let mut next = 1;
    for row in rows {
        test_posting(row, next)?;
        next += 1;
    }
    Ok(next)
}
