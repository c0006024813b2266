//! The table of a hub's decisions.

ghost use Rattle.std.specs.Prelude.{◌≡◌, IfOk, option_map, ◌<◌, ◌+◌, ℕ, length, Option, IsTrue};
ghost use Rattle.std.specs.Prelude.{is_none};
ghost use Rattle.std.specs.List.{count_by};
ghost use Rattle.sqlite.specs.Held.{state};
ghost use Rattle.sqlite.specs.Order.{column};
ghost use Rattle.sqlite.specs.declared.types.Value.TheVariants.{Null};
ghost use Rattle.sql_rows.specs.Kept.{IsPart};
ghost use Rattle.x12_hub.specs.Hub.{Boxed, Refused, decided};
ghost use Rattle.x12_hub.specs.Record.{decision_view};
ghost use Rattle.x12_hub.specs.Stored.{bytes_at};
ghost use Rattle.x12_tables.specs.Adopt.{TakesRows};
ghost use Rattle.x12_tables.specs.declared.fault.TableFault.TheVariants.{Memory};
ghost use Rattle.x12_hub_records.specs.HubAdopt.{IsDecided, AreDecided, AreDecisions};
ghost use Rattle.x12_hub_records.specs.HubChange.{TurnsHub, decision_of, decided_too, HasNext};
ghost use Rattle.x12_hub_records.specs.HubRead.{HubAnswers, outcome_shown, first_outcome};

use sql_rows::run;
use sqlite::types::ValueRef;
use sqlite::{Alter, Connection, Error, Row, Transaction};
use std::alloc::Global;
use x12_hub::Decision;
use x12_tables::{TableFault, first_value, node_in, number_in, read};

/// Adds the decision that these bytes go into a mailbox, under the next item number.
pub(crate) fn add_boxed<S: Alter>(
    tx: &mut Transaction<'_, S>,
    item: u32,
    bytes: &[u8],
    node: u16,
) -> Result<(), Error>
    ensures same_reference { tx.new.conn.ghost_name ≡ tx.old.conn.ghost_name }
    ensures part { (boxed : _) → IsPart (TurnsHub (decided_too (decision_of bytes.now
        (Boxed node boxed))) (HasNext item))
        result (state S.Store tx.old.conn.now) (state S.Store tx.new.conn.now) }
{
    run(
        tx,
        "INSERT INTO decision (item, node, refusal, bytes) VALUES (?1, ?2, NULL, ?3)",
        &[
            ValueRef::Int(i64::from(item)),
            ValueRef::Int(i64::from(node)),
            ValueRef::Blob(bytes),
        ],
    )
}

/// Adds the decision that these bytes are refused with this reply, under the next item number.
pub(crate) fn add_refused<'a, S: Alter>(
    tx: &mut Transaction<'_, S>,
    item: u32,
    bytes: &'a [u8],
    reply: &'a [u8],
) -> Result<(), Error>
    ensures same_reference { tx.new.conn.ghost_name ≡ tx.old.conn.ghost_name }
    ensures part { IsPart (TurnsHub (decided_too (decision_of bytes.now (Refused reply.now)))
        (HasNext item)) result
        (state S.Store tx.old.conn.now) (state S.Store tx.new.conn.now) }
{
    run(
        tx,
        "INSERT INTO decision (item, node, refusal, bytes) VALUES (?1, NULL, ?2, ?3)",
        &[
            ValueRef::Int(i64::from(item)),
            ValueRef::Blob(reply),
            ValueRef::Blob(bytes),
        ],
    )
}

/// The decision in a row of an item, its node and its refusal.
fn decision_in_row(row: &Row) -> Result<Decision, Error>
    ensures { IfOk result (λ d. decision_view d ≡ outcome_shown row.now) }
{
    let refusal: Option<Vec<u8>> = row.get(2)?;
    if let Some(reply) = refusal {
        return Ok(Decision::Refused(reply));
    }
    Ok(Decision::Boxed {
        node: node_in(row, 1)?,
        item: row.get(0)?,
    })
}

/// The decision in the first row, if there is one.
fn decision_in_rows(rows: &[Row]) -> Result<Option<Decision>, Error>
    ensures { IfOk result (λ o. option_map decision_view o ≡ first_outcome rows.now) }
{
    match rows.first() {
        Some(row) => Ok(Some(decision_in_row(row)?)),
        None => Ok(None),
    }
}

/// The decision on these bytes, if they were decided.
pub(crate) fn find_decision<S: Alter>(
    conn: &mut Connection<S>,
    bytes: &[u8],
) -> Result<Option<Decision>, Error>
    ensures { HubAnswers (λ s o. option_map decision_view o ≡ decided s.decisions bytes.now) result
        (state S.Store conn.old) (state S.Store conn.new) }
{
    let rows = read(
        conn,
        "SELECT item, node, refusal FROM decision WHERE bytes = ?1",
        &[ValueRef::Blob(bytes)],
    )?;
    decision_in_rows(&rows)
}

/// The bytes that were decided under an item number, if it was given.
pub(crate) fn item_bytes<S: Alter>(
    conn: &mut Connection<S>,
    item: u32,
) -> Result<Option<Vec<u8>>, Error>
    ensures { HubAnswers (λ s o. option_map (λ v. v.items) o ≡ bytes_at s.decisions item) result
        (state S.Store conn.old) (state S.Store conn.new) }
{
    let rows = read(
        conn,
        "SELECT bytes FROM decision WHERE item = ?1",
        &[ValueRef::Int(i64::from(item))],
    )?;
    first_value(&rows)
}

fn is_null(row: &Row, at: usize) -> bool
    ensures is { IsTrue result → column row.now at ≡ Null }
    ensures taken { at < length row.now → column row.now at ≡ Null → IsTrue result }
{
    matches!(row.get_ref(at), Ok(ValueRef::Null))
}

/// What a row of an item, a node, and 1 without a refusal, says behind so many decisions: the node
/// that the item was boxed for, or `None` where it was refused.
fn boxed_node(row: &Row, before: usize) -> Result<Option<u16>, TableFault>
    ensures is { IfOk result (λ node. IsDecided (before + 1) node row.now) }
    ensures taken { TakesRows ((node : Option ℕ) × IsDecided (before + 1) node row.now)
        Memory result }
{
    let item = number_in(row, 0)?;
    let unrefused = number_in(row, 2)?;
    if item == 0 || item as usize - 1 != before {
        return Err(TableFault::Store);
    }
    if unrefused == 1 {
        return Ok(Some(node_in(row, 1)?));
    }
    if unrefused != 0 || !is_null(row, 1) {
        return Err(TableFault::Store);
    }
    Ok(None)
}

/// The node that each item was boxed for, or `None` where it was refused, by item number from 1.
pub(crate) fn boxed_nodes(alloc: Global, rows: &[Row]) -> Result<Vec<Option<u16>>, TableFault>
    ensures are { IfOk result (λ v. AreDecided 1 v.items rows.now) }
    ensures taken { TakesRows (AreDecisions 1 rows.now) Memory result }
{
    let mut nodes = Vec::new(alloc);
    for row in rows {
        nodes.push(boxed_node(row, nodes.len())?)?;
    }
    Ok(nodes)
}

/// How many items were refused.
pub(crate) fn refusal_count(boxed: &[Option<u16>]) -> usize
    ensures { result ≡ count_by is_none boxed.now }
{
    boxed.iter().filter(|node| node.is_none()).count()
}
