//! A station's records in a database that holds their tables.

ghost use Rattle.std.specs.Prelude.{◌≡◌, ◌≢◌, ℕ, [], Err, IfOk, map, IfErr, IsErr, OnOk};
ghost use Rattle.sqlite.specs.Held.{state};
ghost use Rattle.sqlite.specs.State.{HasCleanDisk, Shown};
ghost use Rattle.sql_rows.specs.Query.{IsQuery};
ghost use Rattle.x12_outbound.specs.Hubs.{hubs_of};
ghost use Rattle.x12_tables.specs.Adopt.{Finds, ObeysSchema, Takes, RefusesOlder};
ghost use Rattle.x12_tables.specs.Fault.{RefusesOthers, TellsFailure, fault_of_rows};
ghost use Rattle.x12_tables.specs.declared.fault.RecordsFault.{RecordsFault};
ghost use Rattle.x12_tables.specs.declared.fault.TableFault.{TableFault};
ghost use Rattle.x12_station_records.specs.StationAdopt.{FindsNumbers, FindsOwn, FindsAgreed};
ghost use Rattle.x12_station_records.specs.StationAdopt.{FindsSubmitted, FindsSets, FindsSent};
ghost use Rattle.x12_station_records.specs.StationAdopt.{FindsArrived, FindsOrder, FindsPostings};
ghost use Rattle.x12_station_records.specs.StationAdopt.{FindsHanded, FindsRows, FindsRecords, IsOriginOf};
ghost use Rattle.x12_station_records.specs.StationContent.{content_of};
ghost use Rattle.x12_station_records.specs.StationNumbers.{numbers_view};
ghost use Rattle.x12_station_records.specs.StationSchema.{station_schema};
ghost use Rattle.x12_station_records.specs.StationTaken.{HoldsStation, HoldsStationOf, HoldsStationFrom};
ghost use Rattle.x12_station_records.specs.StationTaken.{HoldsStationBy, HoldsBooked};
ghost use Rattle.x12_station_records.specs.StationTaken.{HoldsSubmitted, HoldsInTurn, HoldsHanded};
ghost use Rattle.x12_station_records.specs.StationTaken.{HoldsOlder, IsOutside, WereLeftOlder, RefusesLeft};

use crate::schema::is_station_schema;
use crate::station_agreements::next_pair;
use crate::station_committing::NextRows;
use crate::station_groups::next_set_of;
use crate::station_inbound::{arrivals_in_rows, test_order};
use crate::station_numbers::{NUMBERS, NumbersRow, numbers_in_rows};
use crate::station_outbound::submissions_in_rows;
use crate::station_owner::{test_marks, test_owner};
use crate::station_postings::next_posting;
use sql_rows::ask;
use sqlite::{Alter, Connection, Row};
use x12_envelopes::Party;
use x12_numbers::Book;
use x12_outbound::Hubs;
use x12_tables::{RecordsFault, TableFault};

/// All rows of a query's answer, where the database has the tables of a station's records; a store
/// that shows others failed in between.
fn look<S: Alter>(conn: &mut Connection<S>, sql: &str) -> Result<Vec<Row>, TableFault>
    requires { IsQuery sql.now }
    ensures ours { Finds (λ db rows. ObeysSchema station_schema db) result
        (state S.Store conn.old) (state S.Store conn.new) }
    ensures shown { HasCleanDisk (state S.Store conn.new) → IfOk result (λ rows. Shown sql.now []
        (state S.Store conn.old) (state S.Store conn.new) rows.items) }
    ensures fails { HasCleanDisk (state S.Store conn.new) → conn.old.schema ≡ station_schema →
        IfErr result (TellsFailure sql.now (state S.Store conn.old) (state S.Store conn.new)) }
    ensures known { (was : ℕ) → result ≢ Err (TableFault.OldVersion was) }
{
    if !is_station_schema(conn.schema()) {
        return Err(TableFault::Store);
    }
    match ask(conn, sql, &[]) {
        Ok(rows) => Ok(rows),
        Err(error) => Err(TableFault::from(error)),
    }
}

/// What the row of numbers says, of a version from this one to the newest.
fn find_numbers<S: Alter>(conn: &mut Connection<S>, oldest: u32) -> Result<NumbersRow, TableFault>
    ensures finds { Finds (FindsNumbers oldest) result
        (state S.Store conn.old) (state S.Store conn.new) }
    ensures taken { Takes (HoldsStationFrom oldest) TableFault.Memory result
        (state S.Store conn.old) (state S.Store conn.new) }
    ensures older { RefusesOlder (HoldsOlder oldest) TableFault.OldVersion TableFault.Memory result
        (state S.Store conn.old) (state S.Store conn.new) }
{
    let rows = look(conn, NUMBERS)?;
    numbers_in_rows(&rows, oldest)
}

/// The number of the next pair of an agreement.
fn find_agreed<S: Alter>(conn: &mut Connection<S>) -> Result<u64, TableFault>
    ensures finds { Finds FindsAgreed result (state S.Store conn.old) (state S.Store conn.new) }
    ensures taken { Takes HoldsStation TableFault.Memory result
        (state S.Store conn.old) (state S.Store conn.new) }
{
    let rows = look(
        conn,
        "SELECT partner, functional, setid, lenient, at FROM agreement ORDER BY at",
    )?;
    next_pair(*rows.allocator(), &rows)
}

/// Both numbers of each submission.
fn find_submitted<S: Alter>(
    conn: &mut Connection<S>,
    book: Book,
) -> Result<Vec<(u32, u64)>, TableFault>
    ensures finds { Finds (λ db sent. FindsSubmitted book db sent.items) result
        (state S.Store conn.old) (state S.Store conn.new) }
    ensures taken { Takes (HoldsBooked book) TableFault.Memory result
        (state S.Store conn.old) (state S.Store conn.new) }
{
    let rows = look(conn, "SELECT icn, seq, partner FROM outbound ORDER BY icn")?;
    submissions_in_rows(*rows.allocator(), &rows, book)
}

/// The place of the next transaction set, behind those of these submissions.
fn find_sets<S: Alter>(
    conn: &mut Connection<S>,
    book: Book,
    sent: &[(u32, u64)],
) -> Result<u64, TableFault>
    ensures finds { Finds (FindsSets book (map (λ x. x.0) sent.now)) result
        (state S.Store conn.old) (state S.Store conn.new) }
    ensures taken { Takes (HoldsSubmitted book (map (λ x. x.0) sent.now)) TableFault.Memory result
        (state S.Store conn.old) (state S.Store conn.new) }
{
    let rows = look(
        conn,
        "SELECT grp, place, functional, gcn, number, fate, icn, at FROM outset ORDER BY at",
    )?;
    next_set_of(*rows.allocator(), &rows, sent, book)
}

/// Both numbers of each submission, and the place of the next transaction set.
fn find_sent<S: Alter>(
    conn: &mut Connection<S>,
    book: Book,
) -> Result<(Vec<(u32, u64)>, u64), TableFault>
    ensures finds { Finds (λ db x. FindsSent book db (x.0.items, x.1)) result
        (state S.Store conn.old) (state S.Store conn.new) }
    ensures taken { Takes (HoldsBooked book) TableFault.Memory result
        (state S.Store conn.old) (state S.Store conn.new) }
{
    let sent = find_submitted(conn, book)?;
    let next = find_sets(conn, book, &sent)?;
    Ok((sent, next))
}

/// The numbers of the first arrivals.
fn find_arrived<S: Alter>(conn: &mut Connection<S>) -> Result<Vec<u64>, TableFault>
    ensures finds { Finds (λ db seqs. FindsArrived db seqs.items) result
        (state S.Store conn.old) (state S.Store conn.new) }
    ensures taken { Takes HoldsStation TableFault.Memory result
        (state S.Store conn.old) (state S.Store conn.new) }
{
    let rows = look(conn, "SELECT seq, partner, icn FROM inbound ORDER BY seq")?;
    arrivals_in_rows(*rows.allocator(), &rows)
}

/// Tests that each number up to the last is that of one of these submissions or of one first
/// arrival.
fn find_order<S: Alter>(
    conn: &mut Connection<S>,
    last: u64,
    sent: &[(u32, u64)],
) -> Result<(), TableFault>
    ensures finds { Finds (λ db done. FindsOrder last (map (λ x. x.1) sent.now) db) result
        (state S.Store conn.old) (state S.Store conn.new) }
    ensures taken { Takes (HoldsInTurn last (map (λ x. x.1) sent.now)) TableFault.Memory result
        (state S.Store conn.old) (state S.Store conn.new) }
{
    let arrived = find_arrived(conn)?;
    test_order(last, sent, &arrived)
}

/// The place of the next posting.
fn find_postings<S: Alter>(conn: &mut Connection<S>) -> Result<u64, TableFault>
    ensures finds { Finds FindsPostings result (state S.Store conn.old) (state S.Store conn.new) }
    ensures taken { Takes HoldsStation TableFault.Memory result
        (state S.Store conn.old) (state S.Store conn.new) }
{
    let rows = look(
        conn,
        "SELECT partner, icn, grp, place, functional, setid, number, at FROM posting ORDER BY at",
    )?;
    next_posting(&rows)
}

/// The place of the next posting, where so many were handed over.
fn find_handed<S: Alter>(conn: &mut Connection<S>, handed: u64) -> Result<u64, TableFault>
    ensures finds { Finds (FindsHanded handed) result (state S.Store conn.old) (state S.Store conn.new) }
    ensures taken { Takes (HoldsHanded handed) TableFault.Memory result
        (state S.Store conn.old) (state S.Store conn.new) }
{
    let next = find_postings(conn)?;
    if handed >= next {
        return Err(TableFault::Store);
    }
    Ok(next)
}

/// Tests the five tables beside these numbers; answers the numbers of the next rows.
fn find_rows<S: Alter>(
    conn: &mut Connection<S>,
    numbers: &NumbersRow,
) -> Result<NextRows, TableFault>
    ensures finds { Finds (FindsRows numbers.now) result
        (state S.Store conn.old) (state S.Store conn.new) }
    ensures taken { Takes (HoldsStationBy (numbers_view numbers.now)) TableFault.Memory result
        (state S.Store conn.old) (state S.Store conn.new) }
{
    let agreement = find_agreed(conn)?;
    let (sent, set) = find_sent(conn, numbers.book)?;
    find_order(conn, numbers.seq, &sent)?;
    let posting = find_handed(conn, numbers.handed)?;
    Ok(NextRows {
        agreement,
        set,
        posting,
    })
}

/// The numbers, of the station of this party at these hubs.
fn find_own<S: Alter>(
    conn: &mut Connection<S>,
    party: &Party,
    hubs: &Hubs,
    oldest: u32,
) -> Result<NumbersRow, RecordsFault>
    ensures finds { Finds (FindsOwn oldest party.now (hubs_of hubs.now)) result
        (state S.Store conn.old) (state S.Store conn.new) }
    ensures other { RefusesOthers (IsOriginOf party.now (hubs_of hubs.now)
        (content_of (state S.Store conn.old).now.trees).origin) result (state S.Store conn.new) }
    ensures taken { Takes (HoldsStationOf oldest party.now (hubs_of hubs.now)) RecordsFault.Memory result
        (state S.Store conn.old) (state S.Store conn.new) }
    ensures older { RefusesOlder (HoldsOlder oldest) RecordsFault.OldVersion RecordsFault.Memory result
        (state S.Store conn.old) (state S.Store conn.new) }
{
    let numbers = find_numbers(conn, oldest)?;
    test_owner(&numbers.owner, party, hubs)?;
    test_marks(&numbers)?;
    Ok(numbers)
}

/// The fault of the tables beside the numbers, whose version is known.
fn rows_fault(fault: TableFault) -> RecordsFault
    ensures { result ≡ fault_of_rows fault }
{
    match fault {
        TableFault::Memory => RecordsFault::Memory,
        _ => RecordsFault::Store,
    }
}

/// Tests all six tables; answers the numbers of the next rows, and what the row of numbers says.
fn find_records<S: Alter>(
    conn: &mut Connection<S>,
    party: &Party,
    hubs: &Hubs,
    oldest: u32,
) -> Result<(NextRows, NumbersRow), RecordsFault>
    ensures finds { Finds (FindsRecords oldest party.now (hubs_of hubs.now)) result
        (state S.Store conn.old) (state S.Store conn.new) }
    ensures other { RefusesOthers (IsOriginOf party.now (hubs_of hubs.now)
        (content_of (state S.Store conn.old).now.trees).origin) result (state S.Store conn.new) }
    ensures taken { Takes (HoldsStationOf oldest party.now (hubs_of hubs.now)) RecordsFault.Memory result
        (state S.Store conn.old) (state S.Store conn.new) }
    ensures older { RefusesOlder (HoldsOlder oldest) RecordsFault.OldVersion RecordsFault.Memory result
        (state S.Store conn.old) (state S.Store conn.new) }
{
    let numbers = find_own(conn, party, hubs, oldest)?;
    match find_rows(conn, &numbers) {
        Ok(next) => Ok((next, numbers)),
        Err(fault) => Err(rows_fault(fault)),
    }
}

/// Finds the records of the station of this party at these hubs, of a version from this one to the
/// newest, in a database with no open transaction; answers the numbers of the next rows, and what the row
/// of numbers says. Nothing is written.
pub(crate) fn test_all<S: Alter>(
    conn: &mut Connection<S>,
    party: &Party,
    hubs: &Hubs,
    oldest: u32,
) -> Result<(NextRows, NumbersRow), RecordsFault>
    ensures outside { OnOk result (IsOutside (state S.Store conn.old)) }
    ensures finds { Finds (FindsRecords oldest party.now (hubs_of hubs.now)) result
        (state S.Store conn.old) (state S.Store conn.new) }
    ensures other { RefusesOthers (IsOriginOf party.now (hubs_of hubs.now)
        (content_of (state S.Store conn.old).now.trees).origin) result (state S.Store conn.new) }
    ensures others { conn.old.schema ≢ station_schema → result ≡ Err RecordsFault.NotOurs }
    ensures taken { HasCleanDisk (state S.Store conn.new) →
        IfErr result (λ e. RefusesLeft oldest party.now (hubs_of hubs.now) e
        (state S.Store conn.old) (state S.Store conn.new)) }
    ensures older { HasCleanDisk (state S.Store conn.new) →
        (was : ℕ) → WereLeftOlder oldest was (state S.Store conn.old) → IsErr result }
    ensures only { HasCleanDisk (state S.Store conn.new) → (was : ℕ) →
        result ≡ Err (RecordsFault.OldVersion was) →
        HoldsOlder oldest was (state S.Store conn.old).now }
{
    if !is_station_schema(conn.schema()) {
        return Err(RecordsFault::NotOurs);
    }
    if !conn.is_autocommit() {
        return Err(RecordsFault::Store);
    }
    find_records(conn, party, hubs, oldest)
}
