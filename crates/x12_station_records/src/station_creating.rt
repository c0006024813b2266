//! The tables of a station's records, made in a database that holds nothing.

ghost use Rattle.std.specs.Prelude.{◌≡◌, ◌≢◌, false, Err, OnOk};
ghost use Rattle.sqlite.specs.Held.{state};
ghost use Rattle.sql_rows.specs.Kept.{IsPart, IsWhole};
ghost use Rattle.x12_outbound.specs.Hubs.{hubs_of};
ghost use Rattle.x12_tables.specs.Change.{ChangesSeen};
ghost use Rattle.x12_tables.specs.Schema.{no_schema};
ghost use Rattle.x12_tables.specs.declared.fault.RecordsFault.{RecordsFault};
ghost use Rattle.x12_station_records.specs.StationCreate.{FoundsOutbound, FoundsInbound, Founds};
ghost use Rattle.x12_station_records.specs.StationCreate.{Starts, NewRecords};

use crate::values::{other_bytes, other_ref};
use sql_rows::run;
use sqlite::types::ValueRef;
use sqlite::{Alter, Connection, Error, Transaction};
use x12_envelopes::Party;
use x12_outbound::Hubs;
use x12_tables::{RecordsFault, is_no_schema, party_bytes};

/// Makes the tables of numbers, of agreements and of submissions, in a database that has none.
fn create_outbound<S: Alter>(tx: &mut Transaction<'_, S>) -> Result<(), Error>
    ensures same_reference { tx.new.conn.ghost_name ≡ tx.old.conn.ghost_name }
    ensures part { IsPart FoundsOutbound result (state S.Store tx.old.conn.now)
        (state S.Store tx.new.conn.now) }
{
    run(
        tx,
        "CREATE TABLE numbers (one INTEGER PRIMARY KEY, version INTEGER NOT NULL, party BLOB NOT NULL, hub BLOB NOT NULL, other BLOB, icn INTEGER NOT NULL, gcn INTEGER NOT NULL, seq INTEGER NOT NULL, handed INTEGER NOT NULL, noted INTEGER NOT NULL, era INTEGER NOT NULL) STRICT",
        &[],
    )?;
    run(
        tx,
        "CREATE TABLE agreement (at INTEGER PRIMARY KEY, partner BLOB NOT NULL, functional BLOB NOT NULL, lenient INTEGER NOT NULL, setid BLOB NOT NULL, UNIQUE (partner, functional, setid)) STRICT",
        &[],
    )?;
    run(
        tx,
        "CREATE TABLE outbound (icn INTEGER PRIMARY KEY, seq INTEGER NOT NULL, partner BLOB NOT NULL, bytes BLOB NOT NULL) STRICT",
        &[],
    )?;
    run(
        tx,
        "CREATE TABLE outset (at INTEGER PRIMARY KEY, icn INTEGER NOT NULL REFERENCES outbound (icn), grp INTEGER NOT NULL, place INTEGER NOT NULL, gcn INTEGER NOT NULL, functional BLOB NOT NULL, number BLOB NOT NULL, fate INTEGER NOT NULL, UNIQUE (icn, grp, place)) STRICT",
        &[],
    )
}

/// Makes the tables of first arrivals and of postings, and the indexes of transaction sets by group
/// number and by fate, and of submissions by their number.
fn create_inbound<S: Alter>(tx: &mut Transaction<'_, S>) -> Result<(), Error>
    ensures same_reference { tx.new.conn.ghost_name ≡ tx.old.conn.ghost_name }
    ensures part { IsPart FoundsInbound result (state S.Store tx.old.conn.now)
        (state S.Store tx.new.conn.now) }
{
    run(
        tx,
        "CREATE TABLE inbound (seq INTEGER PRIMARY KEY, partner BLOB NOT NULL, icn INTEGER NOT NULL, reply BLOB, bytes BLOB NOT NULL, UNIQUE (partner, icn)) STRICT",
        &[],
    )?;
    run(
        tx,
        "CREATE TABLE posting (at INTEGER PRIMARY KEY, partner BLOB NOT NULL, icn INTEGER NOT NULL, grp INTEGER NOT NULL, place INTEGER NOT NULL, functional BLOB NOT NULL, setid BLOB NOT NULL, number BLOB NOT NULL, bytes BLOB NOT NULL, UNIQUE (partner, icn, grp, place), FOREIGN KEY (partner, icn) REFERENCES inbound (partner, icn)) STRICT",
        &[],
    )?;
    run(tx, "CREATE INDEX outset_group ON outset (gcn)", &[])?;
    run(tx, "CREATE INDEX outset_fate ON outset (fate)", &[])?;
    run(tx, "CREATE INDEX outbound_seq ON outbound (seq)", &[])
}

/// Makes the six tables and their indexes, in a database that has none.
fn create_station_tables<S: Alter>(tx: &mut Transaction<'_, S>) -> Result<(), Error>
    ensures same_reference { tx.new.conn.ghost_name ≡ tx.old.conn.ghost_name }
    ensures part { IsPart Founds result (state S.Store tx.old.conn.now)
        (state S.Store tx.new.conn.now) }
{
    create_outbound(tx)?;
    create_inbound(tx)
}

/// Writes the version of the tables, the station's party and hubs, and that no number was given.
fn start_station<S: Alter>(
    tx: &mut Transaction<'_, S>,
    party: &Party,
    hubs: &Hubs,
) -> Result<(), Error>
    ensures same_reference { tx.new.conn.ghost_name ≡ tx.old.conn.ghost_name }
    ensures part { IsPart (Starts party.now (hubs_of hubs.now)) result
        (state S.Store tx.old.conn.now) (state S.Store tx.new.conn.now) }
{
    let party = party_bytes(party);
    let hub = party_bytes(&hubs.hub);
    let other = other_bytes(&hubs.other);
    run(
        tx,
        "INSERT INTO numbers (one, version, party, hub, other, icn, gcn, seq, handed, noted, era) VALUES (1, 3, ?1, ?2, ?3, 0, 0, 0, 0, 0, 0)",
        &[
            ValueRef::Blob(&party),
            ValueRef::Blob(&hub),
            other_ref(&other),
        ],
    )
}

/// Makes the tables, of records that hold nothing, in a database that has none.
fn make_station_records<S: Alter>(
    tx: &mut Transaction<'_, S>,
    party: &Party,
    hubs: &Hubs,
) -> Result<(), Error>
    ensures same_reference { tx.new.conn.ghost_name ≡ tx.old.conn.ghost_name }
    ensures part { IsPart (ChangesSeen (NewRecords party.now (hubs_of hubs.now))) result
        (state S.Store tx.old.conn.now) (state S.Store tx.new.conn.now) }
{
    create_station_tables(tx)?;
    start_station(tx, party, hubs)
}

/// Makes the tables in one transaction, whole or not at all.
fn create_station_whole<S: Alter>(
    conn: &mut Connection<S>,
    party: &Party,
    hubs: &Hubs,
) -> Result<(), Error>
    requires { conn.old.in_transaction ≡ false }
    ensures mode { conn.new.in_transaction ≡ false }
    ensures whole { IsWhole (NewRecords party.now (hubs_of hubs.now)) result
        (state S.Store conn.old) (state S.Store conn.new) }
{
    let mut tx = conn.transaction();
    make_station_records(&mut tx, party, hubs)?;
    tx.commit()
}

/// Makes the tables of the station of this party at these hubs, in a database that has none and no
/// open transaction.
pub(crate) fn create_station<S: Alter>(
    conn: &mut Connection<S>,
    party: &Party,
    hubs: &Hubs,
) -> Result<(), RecordsFault>
    ensures mode { OnOk result (conn.new.in_transaction ≡ false) }
    ensures empty { result ≢ Err RecordsFault.NotOurs → conn.old.schema ≡ no_schema }
    ensures ours { result ≡ Err RecordsFault.NotOurs → conn.old.schema ≢ no_schema }
    ensures whole { IsWhole (NewRecords party.now (hubs_of hubs.now)) result
        (state S.Store conn.old) (state S.Store conn.new) }
{
    if !is_no_schema(conn.schema()) {
        return Err(RecordsFault::NotOurs);
    }
    if !conn.is_autocommit() {
        return Err(RecordsFault::Store);
    }
    match create_station_whole(conn, party, hubs) {
        Ok(()) => Ok(()),
        Err(error) => Err(RecordsFault::from(error)),
    }
}
