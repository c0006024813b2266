//! Records of a hub in SQLite tables.

ghost use Rattle.std.specs.Prelude.{◌≡◌, ◌≢◌, ◌↔◌, ◌⊎◌, IsTrue, IfOk, IfErr, IsErrAnd, MatchResult};
ghost use Rattle.sqlite_disk.specs.Disk.{MoreFaults};
ghost use Rattle.sqlite.specs.Held.{state};
ghost use Rattle.sqlite.specs.State.{HasCleanDisk, Survives};
ghost use Rattle.sql_rows.specs.Kept.{Stays, MayBecome};
ghost use Rattle.x12_envelopes.specs.declared.party.Party.{Party};
ghost use Rattle.x12_hub.specs.Stored.{hub_nothing_stored};
ghost use Rattle.x12_tables.specs.Adopt.{IsAtRest};
ghost use Rattle.x12_tables.specs.Schema.{no_schema};
ghost use Rattle.x12_tables.specs.declared.fault.RecordsFault.{RecordsFault};
ghost use Rattle.x12_hub_records.specs.HubAdopt.{AreFoundAtHub, WereLeftByHub};
ghost use Rattle.x12_hub_records.specs.HubContent.{hub_content_of, IsValidHub};
ghost use Rattle.x12_hub_records.specs.HubCreate.{NewHubRecords};
ghost use Rattle.x12_hub_records.specs.HubSchema.{hub_schema};

use crate::adopting::{adopt, load};
use crate::committing::commit;
use crate::creating::create;
use crate::decisions::{find_decision, item_bytes};
use crate::hub_numbers::find_owner;
use crate::telling::{hub_fault, tell_hub};
use sqlite::{Alter, Connection};
use x12_envelopes::Party;
use x12_hub::{Decision, HubCommitted, HubLoaded, HubPlan, HubRecords, HubStoreFault};
use x12_tables::RecordsFault;

/// Records of a hub that survive: four tables of a database. A failure shuts the store, and then they
/// answer nothing more: make them anew over the database.
#[derive(Drop)]
pub struct SqliteHubRecords<S: Alter> {
    conn: Connection<S>,
    last: u32,
    failed: u64,
}

impl<S: Alter> SqliteHubRecords<S> {
    /// Records of this party's hub that hold nothing, in tables that are made in the database: all
    /// four, or none.
    ///
    /// A refusal gives the connection back: `NotOurs` where the database has a table, an index or a
    /// view, `Store` where it failed or a transaction is open, `Memory` where memory was missing.
    pub fn create(conn: Connection<S>, party: Party) -> Result<Self, (Connection<S>, RecordsFault)>
        ensures valid { IfOk result (λ r. IsValidHub r.last (state S.Store r.conn)) }
        ensures answers { IfOk result (λ r. HasCleanDisk (state S.Store r.conn) →
            IsTrue (state S.Store r.conn).is_open) }
        ensures nothing { IfOk result (λ r. IsTrue (state S.Store r.conn).is_open →
            hub_content_of (state S.Store r.conn).now.trees ≡ hub_nothing_stored party) }
        ensures unfailed { IfOk result (λ r. r.failed ≡ 0) }
        ensures empty { IfOk result (λ r. conn.schema ≡ no_schema) }
        ensures ours { IfErr result (λ e.
            (e.1 ≡ RecordsFault.NotOurs) ↔ (conn.schema ≢ no_schema)) }
        ensures back { IfErr result (λ e. HasCleanDisk (state S.Store e.0) →
            Stays (state S.Store conn) (state S.Store e.0)) }
        ensures crash { IfErr result (λ e. Survives (state S.Store conn) (state S.Store e.0)
            (MayBecome (NewHubRecords party) (state S.Store conn))) }
    {
        let mut conn = conn;
        match create(&mut conn, &party) {
            Ok(()) => Ok(SqliteHubRecords {
                conn,
                last: 0,
                failed: 0,
            }),
            Err(fault) => Err((conn, fault)),
        }
    }

    /// Records of this party's hub that were made before, found in the database. Each row is tested,
    /// but for the bytes of items and replies, and nothing is written.
    ///
    /// A refusal gives the connection back: `NotOurs` where the tables aren't those of a hub's
    /// records or the row of their version is missing, `Store` where the database failed, a
    /// transaction is open, or a row is out of form or order, `OtherParty` where they are another
    /// hub's (tested before the other tables), `Memory` where memory was missing.
    ///
    /// Sound records of this party's hub that were left in a store that is open, outside a
    /// transaction and without a limit of steps, are taken (`taken`): over a clean disk `Store` then
    /// says that the device failed in this call. Where it didn't, the rows aren't those of sound
    /// records, whose numbers and identifiers have their widths. What `into_connection` gave back is
    /// taken (`left`).
    pub fn adopt(conn: Connection<S>, party: Party) -> Result<Self, (Connection<S>, RecordsFault)>
        ensures valid { IfOk result (λ r. IsValidHub r.last (state S.Store r.conn)) }
        ensures found { IfOk result (λ r. HasCleanDisk (state S.Store r.conn) →
            AreFoundAtHub party (state S.Store conn) (state S.Store r.conn)) }
        ensures unfailed { IfOk result (λ r. r.failed ≡ 0) }
        ensures others { conn.schema ≢ hub_schema →
            IsErrAnd result (λ e. e.1 ≡ RecordsFault.NotOurs) }
        ensures other { IfErr result (λ e. (found wanted : Party) →
            e.1 ≡ RecordsFault.OtherParty found wanted → HasCleanDisk (state S.Store e.0) →
            (hub_content_of (state S.Store conn).now.trees).party ≢ party) }
        ensures back { IfErr result (λ e. HasCleanDisk (state S.Store e.0) →
            Stays (state S.Store conn) (state S.Store e.0)) }
        ensures crash { MatchResult result
            (λ r. Survives (state S.Store conn) (state S.Store r.conn) (λ _. ⊥))
            (λ e. Survives (state S.Store conn) (state S.Store e.0) (λ _. ⊥)) }
        ensures taken { IfErr result (λ e. HasCleanDisk (state S.Store e.0) →
            WereLeftByHub party (state S.Store conn) → (e.1 ≡ RecordsFault.Memory)
            ⊎ MoreFaults (state S.Store conn).faults (state S.Store e.0).faults) }
    {
        let mut conn = conn;
        match adopt(&mut conn, &party) {
            Ok(last) => Ok(SqliteHubRecords {
                conn,
                last,
                failed: 0,
            }),
            Err(error) => Err((conn, error)),
        }
    }

    /// The connection to the database, which is as the records left it: open and at rest, it is one
    /// that `adopt` takes.
    pub fn into_connection(self) -> Connection<S>
        ensures same { result ≡ self.conn }
        ensures left { IsValidHub self.last (state S.Store self.conn) →
            IsAtRest (state S.Store self.conn) →
            WereLeftByHub (hub_content_of (state S.Store self.conn).now.trees).party
            (state S.Store result) }
    {
        self.conn
    }
}

impl<S: Alter> HubRecords for SqliteHubRecords<S> {
    ghost use Rattle.sqlite.specs.Held.{state};
    ghost use Rattle.x12_tables.specs.Law.{clean_of};
    ghost use Rattle.x12_hub_records.specs.HubContent.{hub_content_of, IsValidHub, MayHoldHub};
    ghost use Rattle.x12_hub_records.specs.HubLaw.{hub_sure_of};

    ghost content = { λ s. hub_content_of (state S.Store s.conn).now.trees };

    ghost clean = { λ s. (state S.Store s.conn).is_clean };

    ghost answers = { λ s. (state S.Store s.conn).is_open };

    ghost valid = { λ s. IsValidHub s.last (state S.Store s.conn) };

    ghost failed = { λ s. s.failed };

    ghost may_leave = { λ s. MayHoldHub (state S.Store s.conn) };

    fn commit(&mut self, plan: HubPlan) -> Result<HubCommitted, (HubPlan, HubStoreFault)> {
        match commit(&mut self.conn, &mut self.last, &plan) {
            Ok(()) => Ok(plan.done()),
            Err(error) => Err((plan, hub_fault(&error, &mut self.failed))),
        }
    }

    fn owner(&mut self) -> Result<Party, HubStoreFault> {
        tell_hub(find_owner(&mut self.conn), &mut self.failed)
    }

    fn load(&mut self) -> Result<HubLoaded, HubStoreFault> {
        tell_hub(load(&mut self.conn), &mut self.failed)
    }

    fn find_decision(&mut self, bytes: &[u8]) -> Result<Option<Decision>, HubStoreFault> {
        tell_hub(find_decision(&mut self.conn, bytes), &mut self.failed)
    }

    fn item_bytes(&mut self, item: u32) -> Result<Option<Vec<u8>>, HubStoreFault> {
        tell_hub(item_bytes(&mut self.conn, item), &mut self.failed)
    }

    fn failures(&self) -> u64 {
        self.failed
    }

    ghost answering_is_clean = { λ s is_open. clean_of _ _ (S.Store.shut_if_dirty s.conn.store) is_open };

    ghost sound = { λ s valid is_open. valid.sound is_open };

    ghost left_is_held = { λ s d valid is_open left. hub_sure_of _ d (λ db may. S.Store.settled s.conn.store db is_open may) valid is_open left };
}
