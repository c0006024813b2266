//! The tables of a hub's records, made in a database that holds nothing.

ghost use Rattle.std.specs.Prelude.{◌≡◌, ◌≢◌, false, Err, OnOk};
ghost use Rattle.sqlite.specs.Held.{state};
ghost use Rattle.sql_rows.specs.Kept.{IsPart, IsWhole};
ghost use Rattle.x12_tables.specs.Change.{ChangesSeen};
ghost use Rattle.x12_tables.specs.Schema.{no_schema};
ghost use Rattle.x12_tables.specs.declared.fault.RecordsFault.{RecordsFault};
ghost use Rattle.x12_hub_records.specs.HubCreate.{FoundsHub, StartsHub, NewHubRecords};

use sql_rows::run;
use sqlite::types::ValueRef;
use sqlite::{Alter, Connection, Error, Transaction};
use x12_envelopes::Party;
use x12_tables::{RecordsFault, is_no_schema, party_bytes};

/// Makes the four tables, in a database that has none.
fn create_tables<S: Alter>(tx: &mut Transaction<'_, S>) -> Result<(), Error>
    ensures same_reference { tx.new.conn.ghost_name ≡ tx.old.conn.ghost_name }
    ensures part { IsPart FoundsHub result (state S.Store tx.old.conn.now)
        (state S.Store tx.new.conn.now) }
{
    run(
        tx,
        "CREATE TABLE directory (at INTEGER PRIMARY KEY, party BLOB NOT NULL UNIQUE, node INTEGER NOT NULL) STRICT",
        &[],
    )?;
    run(
        tx,
        "CREATE TABLE decision (item INTEGER PRIMARY KEY, node INTEGER, refusal BLOB, bytes BLOB NOT NULL UNIQUE) STRICT",
        &[],
    )?;
    run(
        tx,
        "CREATE TABLE mailbox (item INTEGER PRIMARY KEY REFERENCES decision (item), node INTEGER NOT NULL) STRICT",
        &[],
    )?;
    run(
        tx,
        "CREATE TABLE hubnumber (one INTEGER PRIMARY KEY, version INTEGER NOT NULL, party BLOB NOT NULL, icn INTEGER NOT NULL, item INTEGER NOT NULL) STRICT",
        &[],
    )
}

/// Writes the version of the tables, the hub's party, and that no number was given.
fn start_numbers<S: Alter>(tx: &mut Transaction<'_, S>, party: &Party) -> Result<(), Error>
    ensures same_reference { tx.new.conn.ghost_name ≡ tx.old.conn.ghost_name }
    ensures part { IsPart (StartsHub party.now) result (state S.Store tx.old.conn.now)
        (state S.Store tx.new.conn.now) }
{
    let bytes = party_bytes(party);
    run(
        tx,
        "INSERT INTO hubnumber (one, version, party, icn, item) VALUES (1, 1, ?1, 0, 0)",
        &[ValueRef::Blob(&bytes)],
    )
}

/// Makes the tables, of records that hold nothing, in a database that has none.
fn make_records<S: Alter>(tx: &mut Transaction<'_, S>, party: &Party) -> Result<(), Error>
    ensures same_reference { tx.new.conn.ghost_name ≡ tx.old.conn.ghost_name }
    ensures part { IsPart (ChangesSeen (NewHubRecords party.now)) result
        (state S.Store tx.old.conn.now) (state S.Store tx.new.conn.now) }
{
    create_tables(tx)?;
    start_numbers(tx, party)
}

/// Makes the tables in one transaction, whole or not at all.
fn create_whole<S: Alter>(conn: &mut Connection<S>, party: &Party) -> Result<(), Error>
    requires { conn.old.in_transaction ≡ false }
    ensures mode { conn.new.in_transaction ≡ false }
    ensures whole { IsWhole (NewHubRecords party.now) result (state S.Store conn.old)
        (state S.Store conn.new) }
{
    let mut tx = conn.transaction();
    make_records(&mut tx, party)?;
    tx.commit()
}

/// Makes the tables of this party's hub, in a database that has none and no open transaction.
pub(crate) fn create<S: Alter>(conn: &mut Connection<S>, party: &Party) -> Result<(), RecordsFault>
    ensures mode { OnOk result (conn.new.in_transaction ≡ false) }
    ensures empty { result ≢ Err RecordsFault.NotOurs → conn.old.schema ≡ no_schema }
    ensures ours { result ≡ Err RecordsFault.NotOurs → conn.old.schema ≢ no_schema }
    ensures whole { IsWhole (NewHubRecords party.now) result (state S.Store conn.old)
        (state S.Store conn.new) }
{
    if !is_no_schema(conn.schema()) {
        return Err(RecordsFault::NotOurs);
    }
    if !conn.is_autocommit() {
        return Err(RecordsFault::Store);
    }
    match create_whole(conn, party) {
        Ok(()) => Ok(()),
        Err(error) => Err(RecordsFault::from(error)),
    }
}
