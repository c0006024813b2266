//! A station's records of an older version, which are brought to the newest.

ghost use Rattle.std.specs.Prelude.{◌≡◌, ◌≢◌, ◌⊎◌, ℕ, false, Err, IfOk, IfErr, OnErr};
ghost use Rattle.sqlite.specs.Held.{state};
ghost use Rattle.sqlite.specs.State.{HasCleanDisk, Survives};
ghost use Rattle.sql_rows.specs.Kept.{IsPart, IsWhole, MayBecome, Stays};
ghost use Rattle.x12_outbound.specs.Hubs.{hubs_of};
ghost use Rattle.x12_tables.specs.Change.{ChangesSeen};
ghost use Rattle.x12_tables.specs.Fault.{RefusesOthers};
ghost use Rattle.x12_tables.specs.declared.fault.RecordsFault.{RecordsFault};
ghost use Rattle.x12_station_records.specs.StationAdopt.{IsOriginOf};
ghost use Rattle.x12_station_records.specs.StationContent.{content_of, IsValid};
ghost use Rattle.x12_station_records.specs.StationMigrate.{AreMigrated, Migrates, Renews};
ghost use Rattle.x12_station_records.specs.StationMigrate.{RefusesToMigrate};
ghost use Rattle.x12_station_records.specs.StationSchema.{station_schema};

use crate::station_adopting::test_all;
use crate::station_committing::NextRows;
use crate::station_numbers::{FIRST_VERSION, STATION_VERSION, era_in, noted_in};
use sql_rows::run;
use sqlite::types::ValueRef;
use sqlite::{Alter, Connection, Error, ErrorCode, Transaction};
use x12_envelopes::Party;
use x12_outbound::Hubs;
use x12_tables::{RecordsFault, integer};

/// Writes the newest version, and up to which numbers arrivals are read as before.
fn renew<S: Alter>(tx: &mut Transaction<'_, S>, noted: u64, era: u64) -> Result<(), Error>
    ensures same_reference { tx.new.conn.ghost_name ≡ tx.old.conn.ghost_name }
    ensures part { IsPart (ChangesSeen (Renews noted era)) result (state S.Store tx.old.conn.now)
        (state S.Store tx.new.conn.now) }
{
    let noted = integer(noted)?;
    let era = integer(era)?;
    run(
        tx,
        "UPDATE numbers SET version = 3, noted = ?1, era = ?2",
        &[ValueRef::Int(noted), ValueRef::Int(era)],
    )
}

/// Writes them in one transaction, whole or not at all.
fn renew_whole<S: Alter>(conn: &mut Connection<S>, noted: u64, era: u64) -> Result<(), Error>
    requires { conn.old.in_transaction ≡ false }
    ensures mode { conn.new.in_transaction ≡ false }
    ensures whole { IsWhole (Renews noted era) result
        (state S.Store conn.old) (state S.Store conn.new) }
{
    let mut tx = conn.transaction();
    renew(&mut tx, noted, era)?;
    tx.commit()
}

/// The fault of a transaction that failed.
fn writing_fault(error: &Error) -> RecordsFault
    ensures { (result ≡ RecordsFault.Memory) ⊎ (result ≡ RecordsFault.Store) }
{
    if let Error::SqliteFailure(ErrorCode::OutOfMemory) = error {
        return RecordsFault::Memory;
    }
    RecordsFault::Store
}

/// Brings the records of the station of this party at these hubs to the newest version, in a database
/// with no open transaction; answers the numbers of the next rows, and which version they were of.
pub(crate) fn migrate_station<S: Alter>(
    conn: &mut Connection<S>,
    party: &Party,
    hubs: &Hubs,
) -> Result<(NextRows, u32), RecordsFault>
    ensures valid { IfOk result (λ x. IsValid x.0 (state S.Store conn.new)) }
    ensures migrated { IfOk result (λ x. HasCleanDisk (state S.Store conn.new) →
        AreMigrated x.1 party.now (hubs_of hubs.now)
        (state S.Store conn.old) (state S.Store conn.new)) }
    ensures others { conn.old.schema ≢ station_schema → result ≡ Err RecordsFault.NotOurs }
    ensures other { RefusesOthers (IsOriginOf party.now (hubs_of hubs.now)
        (content_of (state S.Store conn.old).now.trees).origin) result (state S.Store conn.new) }
    ensures known { HasCleanDisk (state S.Store conn.new) → (was : ℕ) →
        result ≢ Err (RecordsFault.OldVersion was) }
    ensures back { HasCleanDisk (state S.Store conn.new) →
        OnErr result (Stays (state S.Store conn.old) (state S.Store conn.new)) }
    ensures crash { Survives (state S.Store conn.old) (state S.Store conn.new)
        (MayBecome Migrates (state S.Store conn.old)) }
    ensures taken { HasCleanDisk (state S.Store conn.new) →
        IfErr result (λ e. RefusesToMigrate party.now (hubs_of hubs.now) e
        (state S.Store conn.old) (state S.Store conn.new)) }
{
    let (next, numbers) = test_all(conn, party, hubs, FIRST_VERSION)?;
    if numbers.version == STATION_VERSION {
        return Ok((next, numbers.version));
    }
    match renew_whole(conn, noted_in(&numbers), era_in(&numbers)) {
        Ok(()) => Ok((next, numbers.version)),
        Err(error) => Err(writing_fault(&error)),
    }
}
