//! A hub's records in a database that holds their tables: taken over, and loaded.

ghost use Rattle.std.specs.Prelude.{◌≡◌, ◌≢◌, ◌⊎◌, [], Err, IfOk, IfErr};
ghost use Rattle.sqlite_disk.specs.Disk.{MoreFaults};
ghost use Rattle.sqlite.specs.Held.{state};
ghost use Rattle.sqlite.specs.State.{HasCleanDisk, Shown};
ghost use Rattle.sql_rows.specs.Query.{IsQuery};
ghost use Rattle.x12_hub.specs.Record.{hub_start_view, hub_start_of};
ghost use Rattle.x12_tables.specs.Adopt.{Finds, ObeysSchema, Takes};
ghost use Rattle.x12_tables.specs.Fault.{RefusesOthers, TellsFailure};
ghost use Rattle.x12_tables.specs.declared.fault.RecordsFault.{RecordsFault};
ghost use Rattle.x12_tables.specs.declared.fault.TableFault.{TableFault};
ghost use Rattle.x12_hub_records.specs.HubAdopt.{FindsHubNumbers, FindsOwnHub, FindsEntries};
ghost use Rattle.x12_hub_records.specs.HubAdopt.{FindsDecided, FindsWaiting, FindsItems};
ghost use Rattle.x12_hub_records.specs.HubAdopt.{FindsHubRows, FindsHubRecords, HoldsSoundHub};
ghost use Rattle.x12_hub_records.specs.HubAdopt.{HoldsHubOf, HoldsHubBy, HoldsHubFor};
ghost use Rattle.x12_hub_records.specs.HubAdopt.{WereLeftByHub};
ghost use Rattle.x12_hub_records.specs.HubContent.{hub_content_of, IsValidHub};
ghost use Rattle.x12_hub_records.specs.HubRead.{HubAnswers};
ghost use Rattle.x12_hub_records.specs.HubSchema.{hub_schema};

use crate::decisions::{boxed_nodes, refusal_count};
use crate::directory::{last_entry, load_directory};
use crate::hub_numbers::{HUB_NUMBERS, HubNumbers, hub_numbers_in_rows, load_numbers};
use crate::mailboxes::{load_mailboxes, test_waiting};
use crate::schema::is_hub_schema;
use sql_rows::ask;
use sqlite::{Alter, Connection, Error, Row};
use x12_envelopes::Party;
use x12_hub::HubLoaded;
use x12_tables::{RecordsFault, TableFault, test_party};

/// All rows of a query's answer, where the database has the tables of a hub's records; a store that
/// shows others failed in between.
fn look<S: Alter>(conn: &mut Connection<S>, sql: &str) -> Result<Vec<Row>, TableFault>
    requires { IsQuery sql.now }
    ensures ours { Finds (λ db rows. ObeysSchema hub_schema db) result
        (state S.Store conn.old) (state S.Store conn.new) }
    ensures shown { HasCleanDisk (state S.Store conn.new) → IfOk result (λ rows. Shown sql.now []
        (state S.Store conn.old) (state S.Store conn.new) rows.items) }
    ensures fails { HasCleanDisk (state S.Store conn.new) → conn.old.schema ≡ hub_schema →
        IfErr result (TellsFailure sql.now (state S.Store conn.old) (state S.Store conn.new)) }
{
    if !is_hub_schema(conn.schema()) {
        return Err(TableFault::Store);
    }
    match ask(conn, sql, &[]) {
        Ok(rows) => Ok(rows),
        Err(error) => Err(TableFault::from(error)),
    }
}

/// What the row of numbers says.
fn find_numbers<S: Alter>(conn: &mut Connection<S>) -> Result<HubNumbers, TableFault>
    ensures finds { Finds FindsHubNumbers result (state S.Store conn.old) (state S.Store conn.new) }
    ensures taken { Takes HoldsSoundHub TableFault.Memory result
        (state S.Store conn.old) (state S.Store conn.new) }
{
    let rows = look(conn, HUB_NUMBERS)?;
    hub_numbers_in_rows(&rows)
}

/// The number of the directory's last entry; 0 where there is none.
fn find_last_entry<S: Alter>(conn: &mut Connection<S>) -> Result<u32, TableFault>
    ensures finds { Finds FindsEntries result (state S.Store conn.old) (state S.Store conn.new) }
    ensures taken { Takes HoldsSoundHub TableFault.Memory result
        (state S.Store conn.old) (state S.Store conn.new) }
{
    let rows = look(conn, "SELECT at, party, node FROM directory ORDER BY at")?;
    last_entry(&rows)
}

/// The node that each item was boxed for, or `None` where it was refused, by item number from 1.
fn find_boxed_nodes<S: Alter>(conn: &mut Connection<S>) -> Result<Vec<Option<u16>>, TableFault>
    ensures finds { Finds (λ db nodes. FindsDecided db nodes.items) result
        (state S.Store conn.old) (state S.Store conn.new) }
    ensures taken { Takes HoldsSoundHub TableFault.Memory result
        (state S.Store conn.old) (state S.Store conn.new) }
{
    let rows = look(
        conn,
        "SELECT item, node, refusal IS NULL AS boxed FROM decision ORDER BY item",
    )?;
    boxed_nodes(*rows.allocator(), &rows)
}

/// Tests what waits against the nodes that items were boxed for.
fn find_waiting<S: Alter>(conn: &mut Connection<S>, boxed: &[Option<u16>]) -> Result<(), TableFault>
    ensures finds { Finds (λ db done. FindsWaiting boxed.now db) result
        (state S.Store conn.old) (state S.Store conn.new) }
    ensures taken { Takes (HoldsHubFor boxed.now) TableFault.Memory result
        (state S.Store conn.old) (state S.Store conn.new) }
{
    let rows = look(conn, "SELECT item, node FROM mailbox ORDER BY item")?;
    test_waiting(&rows, boxed)
}

/// Tests the decisions, of which there are as many as the last item number says, and as many
/// refusals as the last interchange number says; and what waits.
fn find_items<S: Alter>(conn: &mut Connection<S>, numbers: &HubNumbers) -> Result<(), TableFault>
    ensures finds { Finds (λ db done. FindsItems numbers.now db) result
        (state S.Store conn.old) (state S.Store conn.new) }
    ensures taken { Takes (HoldsHubBy numbers.now) TableFault.Memory result
        (state S.Store conn.old) (state S.Store conn.new) }
{
    let boxed = find_boxed_nodes(conn)?;
    if boxed.len() != numbers.item as usize {
        return Err(TableFault::Store);
    }
    if refusal_count(&boxed) != numbers.icn as usize {
        return Err(TableFault::Store);
    }
    find_waiting(conn, &boxed)
}

/// Tests the three tables beside the numbers, and that these are the numbers of decisions and
/// refusals; answers the number of the directory's last entry.
fn find_rows<S: Alter>(conn: &mut Connection<S>, numbers: &HubNumbers) -> Result<u32, TableFault>
    ensures finds { Finds (FindsHubRows numbers.now) result
        (state S.Store conn.old) (state S.Store conn.new) }
    ensures taken { Takes (HoldsHubBy numbers.now) TableFault.Memory result
        (state S.Store conn.old) (state S.Store conn.new) }
{
    find_items(conn, numbers)?;
    find_last_entry(conn)
}

/// The numbers, of the hub of this party.
fn find_own<S: Alter>(conn: &mut Connection<S>, party: &Party) -> Result<HubNumbers, RecordsFault>
    ensures finds { Finds (FindsOwnHub party.now) result
        (state S.Store conn.old) (state S.Store conn.new) }
    ensures other { RefusesOthers
        ((hub_content_of (state S.Store conn.old).now.trees).party ≡ party.now)
        result (state S.Store conn.new) }
    ensures taken { Takes (HoldsHubOf party.now) RecordsFault.Memory result
        (state S.Store conn.old) (state S.Store conn.new) }
{
    let numbers = find_numbers(conn)?;
    test_party(&numbers.party, party)?;
    Ok(numbers)
}

/// Tests all four tables; answers the number of the directory's last entry.
fn find_records<S: Alter>(conn: &mut Connection<S>, party: &Party) -> Result<u32, RecordsFault>
    ensures finds { Finds (FindsHubRecords party.now) result
        (state S.Store conn.old) (state S.Store conn.new) }
    ensures other { RefusesOthers
        ((hub_content_of (state S.Store conn.old).now.trees).party ≡ party.now)
        result (state S.Store conn.new) }
    ensures taken { Takes (HoldsHubOf party.now) RecordsFault.Memory result
        (state S.Store conn.old) (state S.Store conn.new) }
{
    let numbers = find_own(conn, party)?;
    Ok(find_rows(conn, &numbers)?)
}

/// Finds the records of this party's hub in a database with no open transaction; answers the number of
/// the directory's last entry. Nothing is written.
pub(crate) fn adopt<S: Alter>(conn: &mut Connection<S>, party: &Party) -> Result<u32, RecordsFault>
    ensures valid { IfOk result (λ last. IsValidHub last (state S.Store conn.new)) }
    ensures finds { Finds (FindsHubRecords party.now) result
        (state S.Store conn.old) (state S.Store conn.new) }
    ensures other { RefusesOthers
        ((hub_content_of (state S.Store conn.old).now.trees).party ≡ party.now)
        result (state S.Store conn.new) }
    ensures others { conn.old.schema ≢ hub_schema → result ≡ Err RecordsFault.NotOurs }
    ensures taken { HasCleanDisk (state S.Store conn.new) →
        WereLeftByHub party.now (state S.Store conn.old) → IfErr result (λ e.
        (e ≡ RecordsFault.Memory)
        ⊎ MoreFaults (state S.Store conn.old).faults (state S.Store conn.new).faults) }
{
    if !is_hub_schema(conn.schema()) {
        return Err(RecordsFault::NotOurs);
    }
    if !conn.is_autocommit() {
        return Err(RecordsFault::Store);
    }
    find_records(conn, party)
}

/// What a hub keeps in memory.
pub(crate) fn load<S: Alter>(conn: &mut Connection<S>) -> Result<HubLoaded, Error>
    ensures { HubAnswers (λ s l. hub_start_view l ≡ hub_start_of s) result
        (state S.Store conn.old) (state S.Store conn.new) }
{
    let directory = load_directory(conn)?;
    let mailboxes = load_mailboxes(conn)?;
    let numbers = load_numbers(conn)?;
    Ok(HubLoaded {
        icn: numbers.icn,
        item: numbers.item,
        directory,
        mailboxes,
    })
}
