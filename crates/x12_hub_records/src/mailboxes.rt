//! The table of what waits in a hub's mailboxes.

ghost use Rattle.std.specs.Prelude.{◌≡◌, IfOk, map, ◌<◌, ◌-◌, ℕ, Some, IsTrue, OnOk, slice_get};
ghost use Rattle.sqlite.specs.Held.{state};
ghost use Rattle.sql_rows.specs.Kept.{IsPart};
ghost use Rattle.x12_hub.specs.Record.{waiting_view};
ghost use Rattle.x12_tables.specs.Adopt.{TakesRows};
ghost use Rattle.x12_tables.specs.Change.{Always};
ghost use Rattle.x12_tables.specs.declared.fault.TableFault.TheVariants.{Memory};
ghost use Rattle.x12_hub_records.specs.HubAdopt.{IsWaiting, AreWaiting};
ghost use Rattle.x12_hub_records.specs.HubChange.{TurnsHub, taken_out, put_in, Adds, RisesWith};
ghost use Rattle.x12_hub_records.specs.HubRead.{HubAnswers, waiting_shown};

use sql_rows::run;
use sqlite::types::ValueRef;
use sqlite::{Alter, Connection, Error, Row, Transaction};
use std::alloc::Global;
use x12_tables::{TableFault, node_in, number_in, read};

/// Takes an item out of its mailbox, if it waits.
pub(crate) fn take<S: Alter>(tx: &mut Transaction<'_, S>, item: u32) -> Result<(), Error>
    ensures same_reference { tx.new.conn.ghost_name ≡ tx.old.conn.ghost_name }
    ensures part { IsPart (TurnsHub (taken_out item) Always) result
        (state S.Store tx.old.conn.now) (state S.Store tx.new.conn.now) }
{
    run(
        tx,
        "DELETE FROM mailbox WHERE item = ?1",
        &[ValueRef::Int(i64::from(item))],
    )
}

/// Adds an item that doesn't wait.
fn add<S: Alter>(tx: &mut Transaction<'_, S>, node: u16, item: u32) -> Result<(), Error>
    ensures same_reference { tx.new.conn.ghost_name ≡ tx.old.conn.ghost_name }
    ensures part { IsPart (Adds node item) result
        (state S.Store tx.old.conn.now) (state S.Store tx.new.conn.now) }
{
    run(
        tx,
        "INSERT INTO mailbox (item, node) VALUES (?1, ?2)",
        &[
            ValueRef::Int(i64::from(item)),
            ValueRef::Int(i64::from(node)),
        ],
    )
}

/// Puts an item into its mailbox, where it stands at most once.
pub(crate) fn put<S: Alter>(tx: &mut Transaction<'_, S>, node: u16, item: u32) -> Result<(), Error>
    ensures same_reference { tx.new.conn.ghost_name ≡ tx.old.conn.ghost_name }
    ensures part { IsPart (TurnsHub (put_in node item) (RisesWith node item)) result
        (state S.Store tx.old.conn.now) (state S.Store tx.new.conn.now) }
{
    take(tx, item)?;
    add(tx, node, item)
}

/// What waits, in a row of an item and its node.
fn waiting_in_row(row: &Row) -> Result<(u16, u32), Error>
    ensures { IfOk result (λ w. waiting_view w ≡ waiting_shown row.now) }
{
    let item = row.get(0)?;
    let node = node_in(row, 1)?;
    Ok((node, item))
}

/// What waits, in rows of an item and its node.
pub(crate) fn waiting_in_rows(alloc: Global, rows: &[Row]) -> Result<Vec<(u16, u32)>, Error>
    ensures { IfOk result (λ v. map waiting_view v.items ≡ map waiting_shown rows.now) }
{
    let mut waiting = Vec::new(alloc);
    for row in rows {
        waiting.push(waiting_in_row(row)?)?;
    }
    Ok(waiting)
}

/// What waits, by rising item number.
pub(crate) fn load_mailboxes<S: Alter>(conn: &mut Connection<S>) -> Result<Vec<(u16, u32)>, Error>
    ensures { HubAnswers (λ s v. map waiting_view v.items ≡ s.waiting) result
        (state S.Store conn.old) (state S.Store conn.new) }
{
    let rows = read(conn, "SELECT item, node FROM mailbox ORDER BY item", &[])?;
    waiting_in_rows(*rows.allocator(), &rows)
}

/// Whether an item was boxed for this node.
fn is_boxed_for(boxed: &[Option<u16>], item: u32, node: u16) -> bool
    ensures is { IsTrue result → slice_get boxed.now (item - 1) ≡ Some (Some node) }
    ensures taken { 0 < item → slice_get boxed.now (item - 1) ≡ Some (Some node) →
        IsTrue result }
{
    let Some(place) = item.checked_sub(1) else {
        return false;
    };
    let Some(Some(boxed_for)) = boxed.get(place as usize) else {
        return false;
    };
    *boxed_for == node
}

/// The item in a row of an item that waits and its node, which is above the last one.
fn waiting_item(row: &Row, last: u32, boxed: &[Option<u16>]) -> Result<u32, TableFault>
    ensures is { IfOk result (λ item. IsWaiting boxed.now last item row.now) }
    ensures taken { TakesRows ((item : ℕ) × IsWaiting boxed.now last item row.now) Memory result }
{
    let item = number_in(row, 0)?;
    let node = node_in(row, 1)?;
    if item <= last || !is_boxed_for(boxed, item, node) {
        return Err(TableFault::Store);
    }
    Ok(item)
}

/// Tests that what waits was boxed so, and rises by its item number.
pub(crate) fn test_waiting(rows: &[Row], boxed: &[Option<u16>]) -> Result<(), TableFault>
    ensures are { OnOk result (AreWaiting boxed.now 0 rows.now) }
    ensures taken { TakesRows (AreWaiting boxed.now 0 rows.now) Memory result }
{
    let mut last = 0;
    for row in rows {
        last = waiting_item(row, last, boxed)?;
    }
    Ok(())
}
