//! The table of a hub's directory.

ghost use Rattle.std.specs.Prelude.{◌≡◌, IfOk, map, ℕ};
ghost use Rattle.sqlite.specs.Held.{state};
ghost use Rattle.sql_rows.specs.Kept.{IsPart};
ghost use Rattle.x12_hub.specs.Record.{mailbox_view};
ghost use Rattle.x12_tables.specs.Adopt.{TakesRows};
ghost use Rattle.x12_tables.specs.Change.{Always};
ghost use Rattle.x12_tables.specs.declared.fault.TableFault.TheVariants.{Memory};
ghost use Rattle.x12_hub_records.specs.HubAdopt.{IsEntry, AreEntries};
ghost use Rattle.x12_hub_records.specs.HubChange.{TurnsHub, EntersHub, with_entry, enrolled_too};
ghost use Rattle.x12_hub_records.specs.HubChange.{without_party};
ghost use Rattle.x12_hub_records.specs.HubRead.{HubAnswers, entry_shown};

use sql_rows::run;
use sqlite::types::ValueRef;
use sqlite::{Alter, Connection, Error, Row, Transaction};
use std::alloc::Global;
use x12_envelopes::Party;
use x12_tables::{TableFault, node_in, number_in, party_bytes, party_in_row, read};

/// Takes a party's entry out, if it has one.
pub(crate) fn dismiss<S: Alter>(tx: &mut Transaction<'_, S>, party: &Party) -> Result<(), Error>
    ensures same_reference { tx.new.conn.ghost_name ≡ tx.old.conn.ghost_name }
    ensures part { IsPart (TurnsHub (without_party party.now) Always) result
        (state S.Store tx.old.conn.now) (state S.Store tx.new.conn.now) }
{
    let bytes = party_bytes(party);
    run(
        tx,
        "DELETE FROM directory WHERE party = ?1",
        &[ValueRef::Blob(&bytes)],
    )
}

/// Adds an entry for a party that has none, under this number.
fn enter<S: Alter>(
    tx: &mut Transaction<'_, S>,
    at: u32,
    party: &Party,
    node: u16,
) -> Result<(), Error>
    ensures same_reference { tx.new.conn.ghost_name ≡ tx.old.conn.ghost_name }
    ensures part { IsPart (EntersHub at (with_entry party.now node)) result
        (state S.Store tx.old.conn.now) (state S.Store tx.new.conn.now) }
{
    let bytes = party_bytes(party);
    run(
        tx,
        "INSERT INTO directory (at, party, node) VALUES (?1, ?2, ?3)",
        &[
            ValueRef::Int(i64::from(at)),
            ValueRef::Blob(&bytes),
            ValueRef::Int(i64::from(node)),
        ],
    )
}

/// Writes a party's entry anew, behind the others, under this number.
pub(crate) fn enrol<S: Alter>(
    tx: &mut Transaction<'_, S>,
    at: u32,
    party: &Party,
    node: u16,
) -> Result<(), Error>
    ensures same_reference { tx.new.conn.ghost_name ≡ tx.old.conn.ghost_name }
    ensures part { IsPart (EntersHub at (enrolled_too party.now node)) result
        (state S.Store tx.old.conn.now) (state S.Store tx.new.conn.now) }
{
    dismiss(tx, party)?;
    enter(tx, at, party, node)
}

/// The entry in a row of a party and its node.
fn entry_in_row(row: &Row) -> Result<(Party, u16), Error>
    ensures { IfOk result (λ entry. mailbox_view entry ≡ entry_shown row.now) }
{
    let party = party_in_row(row, 0)?;
    let node = node_in(row, 1)?;
    Ok((party, node))
}

/// The entries in rows of a party and its node.
pub(crate) fn entries_in_rows(alloc: Global, rows: &[Row]) -> Result<Vec<(Party, u16)>, Error>
    ensures { IfOk result (λ v. map mailbox_view v.items ≡ map entry_shown rows.now) }
{
    let mut entries = Vec::new(alloc);
    for row in rows {
        entries.push(entry_in_row(row)?)?;
    }
    Ok(entries)
}

/// The directory, in the order of its entries.
pub(crate) fn load_directory<S: Alter>(conn: &mut Connection<S>) -> Result<Vec<(Party, u16)>, Error>
    ensures { HubAnswers (λ s v. map mailbox_view v.items ≡ s.directory) result
        (state S.Store conn.old) (state S.Store conn.new) }
{
    let rows = read(conn, "SELECT party, node FROM directory ORDER BY at", &[])?;
    entries_in_rows(*rows.allocator(), &rows)
}

/// The number in a row of a number, a party and a node, which is above the last one.
fn entry_number(row: &Row, last: u32) -> Result<u32, TableFault>
    ensures is { IfOk result (λ at. IsEntry last at row.now) }
    ensures taken { TakesRows ((at : ℕ) × IsEntry last at row.now) Memory result }
{
    let at = number_in(row, 0)?;
    let ValueRef::Blob(party) = row.get_ref(1)? else {
        return Err(TableFault::Store);
    };
    let _node = node_in(row, 2)?;
    if at <= last || party.len() != 17 {
        return Err(TableFault::Store);
    }
    Ok(at)
}

/// The number of the last entry; 0 where there is none.
pub(crate) fn last_entry(rows: &[Row]) -> Result<u32, TableFault>
    ensures are { IfOk result (λ end. AreEntries 0 end rows.now) }
    ensures taken { TakesRows ((end : ℕ) × AreEntries 0 end rows.now) Memory result }
{
    let mut last = 0;
    for row in rows {
        last = entry_number(row, last)?;
    }
    Ok(last)
}
