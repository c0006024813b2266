//! The table of a station's first arrivals.

ghost use Rattle.std.specs.Prelude.{◌≡◌, OnOk, [], ◌∷◌, map, IfOk, option_map, IfSome, ℕ, ◌+◌};
ghost use Rattle.std.specs.Prelude.{◌++◌, suc, IsSome, IsSomeAnd};
ghost use Rattle.std.specs.Option.{option_to_list};
ghost use Rattle.std.specs.List.{range_with_len};
ghost use Rattle.std.specs.List.Sorted.{IsPermutation};
ghost use Rattle.sqlite.specs.Held.{state};
ghost use Rattle.sqlite.specs.Values.{bound};
ghost use Rattle.sql_rows.specs.Kept.{IsPart};
ghost use Rattle.x12_inbound.specs.Filing.{filed_under, reply_bytes};
ghost use Rattle.x12_outbound.specs.Settling.{target_view};
ghost use Rattle.x12_station.specs.Stored.{filed_in};
ghost use Rattle.x12_station.specs.Durable.{item_at, item_of_arrival};
ghost use Rattle.x12_station.specs.Record.{history_item};
ghost use Rattle.x12_profile.specs.Edition.{Marks};
ghost use Rattle.x12_station.specs.Stored.{marks_of};
ghost use Rattle.x12_tables.specs.Adopt.{TakesRows};
ghost use Rattle.x12_tables.specs.declared.fault.TableFault.TheVariants.{Memory};
ghost use Rattle.x12_station_records.specs.StationAdopt.{IsArrivalRow, AreArrivals};
ghost use Rattle.x12_station_records.specs.StationChange.{Turns, with_arrival, arrival_of};
ghost use Rattle.x12_station_records.specs.StationChange.{RisesBySeq};
ghost use Rattle.x12_station_records.specs.StationFinds.{filed_shown, kept_of, kept_in};
ghost use Rattle.x12_station_records.specs.StationFinds.{arrival_numbered, item_kept};
ghost use Rattle.x12_station_records.specs.StationPart.{PartGoesOn, FilesAll};
ghost use Rattle.x12_station_records.specs.StationRead.{StationAnswers};
ghost use Rattle.x12_station_records.specs.StationTables.{reply_value};
ghost use Rattle.x12_station_records.specs.StationTaken.{AreChained, AreInTurn};

use crate::station_outbound::find_submitted;
use crate::station_outset::settle;
use crate::station_postings::add_postings;
use crate::values::{key_asked, test_number, test_party};
use sql_rows::run;
use sqlite::types::ValueRef;
use sqlite::{Alter, Connection, Error, Row, Transaction};
use std::alloc::Global;
use x12_acks::SetKey;
use x12_envelopes::Party;
use x12_inbound::{Filed, Kept};
use x12_outbound::Fate;
use x12_station::Item;
use x12_tables::{TableFault, integer, long_in, party_bytes, read};

/// A reply as a table has it; NULL where none was due.
fn reply_ref(reply: &Option<Vec<u8>>) -> ValueRef<'_>
    ensures { bound (result ∷ []) ≡ reply_value (reply_bytes reply.now) ∷ [] }
{
    match reply {
        Some(reply) => ValueRef::Blob(reply),
        None => ValueRef::Null,
    }
}

/// Adds a first arrival without its postings, under this number among submissions and first
/// arrivals.
fn add_arrival<S: Alter>(
    tx: &mut Transaction<'_, S>,
    seq: u64,
    partner: &Party,
    icn: u32,
    filed: &Filed,
) -> Result<(), Error>
    ensures same_reference { tx.new.conn.ghost_name ≡ tx.old.conn.ghost_name }
    ensures part { IsPart (Turns (with_arrival (arrival_of seq
        (filed_under partner.now icn filed.now)))
        (RisesBySeq (arrival_of seq (filed_under partner.now icn filed.now)))) result
        (state S.Store tx.old.conn.now) (state S.Store tx.new.conn.now) }
{
    let seq = integer(seq)?;
    let bytes = party_bytes(partner);
    run(
        tx,
        "INSERT INTO inbound (seq, icn, partner, reply, bytes) VALUES (?1, ?2, ?3, ?4, ?5)",
        &[
            ValueRef::Int(seq),
            ValueRef::Int(i64::from(icn)),
            ValueRef::Blob(&bytes),
            reply_ref(&filed.reply),
            ValueRef::Blob(&filed.bytes),
        ],
    )
}

/// Files a first arrival under this number among submissions and first arrivals, its postings as
/// rows from the number `at` on, and settles transaction sets; the next number of a posting's row.
pub(crate) fn file<S: Alter>(
    tx: &mut Transaction<'_, S>,
    at: u64,
    seq: u64,
    kept: &Kept,
    settled: &[(SetKey, Fate)],
) -> Result<u64, Error>
    ensures same_reference { tx.new.conn.ghost_name ≡ tx.old.conn.ghost_name }
    ensures part { PartGoesOn (λ to. FilesAll seq kept.now (map target_view settled.now) at to) result
        (state S.Store tx.old.conn.now) (state S.Store tx.new.conn.now) }
{
    let (partner, icn, filed, postings) = kept.view();
    add_arrival(tx, seq, partner, icn, filed)?;
    let next = add_postings(tx, at, postings)?;
    settle(tx, settled)?;
    Ok(next)
}

/// What is filed, in an answer of at most one row.
pub(crate) fn filing_in(rows: &[Row]) -> Result<Option<Filed>, Error>
    ensures { IfOk result (λ o. (f : _) → rows.now ≡ option_to_list (option_map filed_shown f) →
        option_map kept_in o ≡ option_map kept_of f) }
{
    match rows.first() {
        Some(row) => Ok(Some(Filed {
            bytes: row.get(0)?,
            reply: row.get(1)?,
        })),
        None => Ok(None),
    }
}

/// What is filed under this partner and interchange number.
pub(crate) fn find_inbound<S: Alter>(
    conn: &mut Connection<S>,
    partner: &Party,
    icn: u32,
) -> Result<Option<Filed>, Error>
    ensures { StationAnswers (λ s o. option_map (λ f. filed_under partner.now icn f) o ≡ filed_in s
        partner.now icn) result (state S.Store conn.old) (state S.Store conn.new) }
{
    let bytes = party_bytes(partner);
    let rows = read(
        conn,
        "SELECT bytes, reply FROM inbound WHERE icn = ?1 AND partner = ?2",
        &[ValueRef::Int(i64::from(icn)), ValueRef::Blob(&bytes)],
    )?;
    filing_in(&rows)
}

/// What is filed, as an item of the history.
fn item_of(filed: Option<Filed>) -> Option<Item>
    ensures { (marks : Marks) (seq : ℕ) → option_map (history_item marks seq) result
        ≡ option_map (item_kept marks seq) (option_map kept_in filed) }
{
    match filed {
        Some(filed) => Some(Item::Came(filed)),
        None => None,
    }
}

/// The first arrival of this number among submissions and first arrivals.
fn find_arrived<S: Alter>(conn: &mut Connection<S>, seq: u64) -> Result<Option<Item>, Error>
    ensures { StationAnswers (λ s o. option_map (history_item (marks_of s.origin) seq) o ≡ option_map
        (item_of_arrival (marks_of s.origin) seq) (arrival_numbered s seq)) result
        (state S.Store conn.old) (state S.Store conn.new) }
{
    let rows = read(
        conn,
        "SELECT bytes, reply FROM inbound WHERE seq = ?1",
        &[ValueRef::Int(key_asked(seq))],
    )?;
    Ok(item_of(filing_in(&rows)?))
}

/// The submission or first arrival of this number, from 1.
pub(crate) fn find_item<S: Alter>(conn: &mut Connection<S>, seq: u64) -> Result<Option<Item>, Error>
    ensures { StationAnswers (λ s o.
        option_map (history_item (marks_of s.origin) seq) o ≡ item_at s seq) result
        (state S.Store conn.old) (state S.Store conn.new) }
{
    let submitted = find_submitted(conn, seq)?;
    match submitted {
        Some(bytes) => Ok(Some(Item::Submitted(bytes))),
        None => find_arrived(conn, seq),
    }
}

/// The number of a first arrival, in a row of that number, which is above the last, its partner and
/// its control number.
fn arrival_in_row(row: &Row, last: u64) -> Result<u64, TableFault>
    ensures is { IfOk result (λ seq. IsArrivalRow last seq row.now) }
    ensures taken { TakesRows ((seq : ℕ) × IsArrivalRow last seq row.now) Memory result }
{
    let seq = long_in(row, 0)?;
    test_party(row, 1)?;
    test_number(row, 2)?;
    if seq <= last {
        return Err(TableFault::Store);
    }
    Ok(seq)
}

/// The numbers of the first arrivals.
pub(crate) fn arrivals_in_rows(alloc: Global, rows: &[Row]) -> Result<Vec<u64>, TableFault>
    ensures are { IfOk result (λ v. AreArrivals 0 v.items rows.now) }
    ensures taken { TakesRows (AreChained IsArrivalRow 0 rows.now) Memory result }
{
    let mut seqs = Vec::new(alloc);
    let mut last = 0;
    for row in rows {
        last = arrival_in_row(row, last)?;
        seqs.push(last)?;
    }
    Ok(seqs)
}

/// The submissions behind the first one, if that has this number among submissions and first
/// arrivals.
fn sent_behind(sent: &[(u32, u64)], number: u64) -> Option<&[(u32, u64)]>
    ensures some { IfSome result (λ rest.
        map (λ x. x.1) sent.now ≡ number ∷ map (λ x. x.1) rest.now) }
    ensures taken { (rest : _) → map (λ x. x.1) sent.now ≡ number ∷ rest → IsSome result }
{
    let (first, rest) = sent.split_first()?;
    if first.1 != number {
        return None;
    }
    Some(rest)
}

/// The numbers behind the first one, if that is this one.
fn numbers_behind(numbers: &[u64], number: u64) -> Option<&[u64]>
    ensures some { IfSome result (λ rest. numbers.now ≡ number ∷ rest.now) }
    ensures taken { (rest : _) → numbers.now ≡ number ∷ rest → IsSome result }
{
    let (first, rest) = numbers.split_first()?;
    if *first != number {
        return None;
    }
    Some(rest)
}

/// What is behind the one of this number, which is the first submission or the first arrival.
fn behind<'a>(
    sent: &'a [(u32, u64)],
    arrived: &'a [u64],
    number: u64,
) -> Option<(&'a [(u32, u64)], &'a [u64])>
    ensures moved { IfSome result (λ x. IsPermutation
        (number ∷ (map (λ y. y.1) x.0.now ++ x.1.now))
        (map (λ y. y.1) sent.now ++ arrived.now)) }
    ensures taken { (left : ℕ) →
        AreInTurn (suc left) number (map (λ y. y.1) sent.now) arrived.now → IsSomeAnd result
        (λ x. AreInTurn left (number + 1) (map (λ y. y.1) x.0.now) x.1.now) }
{
    if let Some(rest) = sent_behind(sent, number) {
        return Some((rest, arrived));
    }
    let rest = numbers_behind(arrived, number)?;
    Some((sent, rest))
}

/// Tests that each number from 1 to the last is that of one submission or of one first arrival.
pub(crate) fn test_order(last: u64, sent: &[(u32, u64)], arrived: &[u64]) -> Result<(), TableFault>
    ensures each { OnOk result (IsPermutation (range_with_len 1 last)
        (map (λ x. x.1) sent.now ++ arrived.now)) }
    ensures taken { TakesRows (AreInTurn last 1 (map (λ x. x.1) sent.now) arrived.now)
        Memory result }
{
    let mut ours = sent;
    let mut theirs = arrived;
    let mut count = 0;
    while count < last {
        count += 1;
        let Some((sent_left, arrived_left)) = behind(ours, theirs, count) else {
            return Err(TableFault::Store);
        };
        ours = sent_left;
        theirs = arrived_left;
    }
    if !ours.is_empty() || !theirs.is_empty() {
        return Err(TableFault::Store);
    }
    Ok(())
}
