//! Records of a station in SQLite tables.

ghost use Rattle.std.specs.Prelude.{◌≡◌, ◌≢◌, ◌↔◌, ◌∷◌, IsTrue, IfOk, IfErr, IsErrAnd, MatchResult};
ghost use Rattle.std.specs.Prelude.{ℕ, option_to_list};
ghost use Rattle.sqlite.specs.Held.{state};
ghost use Rattle.sqlite.specs.State.{HasCleanDisk, Survives};
ghost use Rattle.sql_rows.specs.Kept.{Stays, MayBecome};
ghost use Rattle.x12_envelopes.specs.declared.party.Party.{Party};
ghost use Rattle.x12_tables.specs.Adopt.{IsAtRest};
ghost use Rattle.x12_tables.specs.Schema.{no_schema};
ghost use Rattle.x12_tables.specs.declared.fault.RecordsFault.{RecordsFault};
ghost use Rattle.x12_station_records.specs.StationAdopt.{AreFoundAtStation};
ghost use Rattle.x12_station_records.specs.StationContent.{content_of, IsValid};
ghost use Rattle.x12_station_records.specs.StationCreate.{NewRecords, new_records};
ghost use Rattle.x12_station_records.specs.StationMigrate.{AreMigrated, Migrates};
ghost use Rattle.x12_station_records.specs.StationMigrate.{RefusesToMigrate};
ghost use Rattle.x12_station_records.specs.StationNumbers.{first_version, newest_version};
ghost use Rattle.x12_station_records.specs.StationSchema.{station_schema};
ghost use Rattle.x12_station_records.specs.StationTaken.{WereLeftByStation, WereLeftOlder};
ghost use Rattle.x12_station_records.specs.StationTaken.{TellsRightly, RefusesLeft};

use crate::station_adopting::test_all;
use crate::station_committing::{NextRows, commit};
use crate::station_creating::create_station;
use crate::station_inbound::{find_inbound, find_item};
use crate::station_loading::load;
use crate::station_migrating::migrate_station;
use crate::station_numbers::{STATION_VERSION, find_owner};
use crate::station_outbound::{find_closed, find_closed_group, find_outbound};
use crate::station_outset::find_fate;
use crate::station_postings::{find_posted, find_posting, postings};
use crate::telling::{station_fault, tell_station};
use sqlite::{Alter, Connection};
use x12_acks::SetKey;
use x12_envelopes::Party;
use x12_inbound::{Filed, Posting};
use x12_outbound::{Entry, Fate, Hubs};
use x12_station::{Committed, Item, Loaded, Owner, Planned, Records, StoreFault};
use x12_tables::RecordsFault;

/// Records of a station that survive: six tables of a database. A failure shuts the store, and then
/// they answer nothing more: make them anew over the database.
#[derive(Drop)]
pub struct SqliteRecords<S: Alter> {
    conn: Connection<S>,
    next: NextRows,
    failed: u64,
}

impl<S: Alter> SqliteRecords<S> {
    /// Records that hold nothing, of the station of this party at this hub, which may be connected
    /// to another one, in tables made in the database: all six with their indexes, or none.
    ///
    /// A refusal gives the connection back: `NotOurs` where the database has a table, an index or a
    /// view, `Store` where it failed or a transaction is open, `Memory` where memory was missing.
    pub fn create(
        conn: Connection<S>,
        party: Party,
        hub: Party,
        other: Option<Party>,
    ) -> Result<Self, (Connection<S>, RecordsFault)>
        ensures valid { IfOk result (λ r. IsValid r.next (state S.Store r.conn)) }
        ensures answers { IfOk result (λ r. HasCleanDisk (state S.Store r.conn) →
            IsTrue (state S.Store r.conn).is_open) }
        ensures nothing { IfOk result (λ r. IsTrue (state S.Store r.conn).is_open →
            content_of (state S.Store r.conn).now.trees
            ≡ new_records party (hub ∷ option_to_list other)) }
        ensures unfailed { IfOk result (λ r. r.failed ≡ 0) }
        ensures empty { IfOk result (λ r. conn.schema ≡ no_schema) }
        ensures ours { IfErr result (λ e.
            (e.1 ≡ RecordsFault.NotOurs) ↔ (conn.schema ≢ no_schema)) }
        ensures back { IfErr result (λ e. HasCleanDisk (state S.Store e.0) →
            Stays (state S.Store conn) (state S.Store e.0)) }
        ensures crash { IfErr result (λ e. Survives (state S.Store conn) (state S.Store e.0)
            (MayBecome (NewRecords party (hub ∷ option_to_list other)) (state S.Store conn))) }
    {
        let mut conn = conn;
        match create_station(&mut conn, &party, &Hubs { hub, other }) {
            Ok(()) => Ok(SqliteRecords {
                conn,
                next: NextRows {
                    agreement: 1,
                    set: 1,
                    posting: 1,
                },
                failed: 0,
            }),
            Err(fault) => Err((conn, fault)),
        }
    }

    /// Records that were made before, found in the database, of the station of this party at this
    /// hub, which may be connected to another one.
    /// Each row is tested, but for the bytes of interchanges, postings and replies, and nothing is
    /// written.
    ///
    /// A refusal gives the connection back: `NotOurs` where the tables aren't those of a station's
    /// records or the row of their version is missing, `OldVersion` with their version where it is an
    /// older one (tested before all that they hold), `Store` where the database failed, a transaction is open,
    /// or a row is out of form or order, `OtherParty` where they are another station's or those at
    /// other hubs (tested before the other tables), `Memory` where memory was missing.
    ///
    /// Sound records of this station at this hub that were left in a store that is open, outside a
    /// transaction and without a limit of steps, are taken (`taken`): over a clean disk `Store` then
    /// says that the device failed in this call. Where it didn't, the rows aren't those of sound
    /// records, whose numbers, codes and identifiers have their widths. What `into_connection` gave
    /// back is taken (`left`).
    pub fn adopt(
        conn: Connection<S>,
        party: Party,
        hub: Party,
        other: Option<Party>,
    ) -> Result<Self, (Connection<S>, RecordsFault)>
        ensures valid { IfOk result (λ r. IsValid r.next (state S.Store r.conn)) }
        ensures found { IfOk result (λ r. HasCleanDisk (state S.Store r.conn) →
            AreFoundAtStation party (hub ∷ option_to_list other)
            (state S.Store conn) (state S.Store r.conn)) }
        ensures never_won_back { IfOk result (λ r. IsTrue (state S.Store r.conn).is_open →
            IsTrue (state S.Store conn).is_open) }
        ensures others { conn.schema ≢ station_schema →
            IsErrAnd result (λ e. e.1 ≡ RecordsFault.NotOurs) }
        ensures other { IfErr result (λ e. HasCleanDisk (state S.Store e.0) →
            TellsRightly newest_version party (hub ∷ option_to_list other)
            (state S.Store conn).now e.1) }
        ensures back { IfErr result (λ e. HasCleanDisk (state S.Store e.0) →
            Stays (state S.Store conn) (state S.Store e.0)) }
        ensures crash { MatchResult result
            (λ r. Survives (state S.Store conn) (state S.Store r.conn) (λ _. ⊥))
            (λ e. Survives (state S.Store conn) (state S.Store e.0) (λ _. ⊥)) }
        // Without a failure, and nothing of an older version; and what was left is refused only for
        // want of memory or of the device, or as one of an older version.
        ensures taken { MatchResult result
            (λ r. (r.failed ≡ 0) × (HasCleanDisk (state S.Store r.conn) →
            (was : ℕ) → WereLeftOlder newest_version was (state S.Store conn) → ⊥))
            (λ e. HasCleanDisk (state S.Store e.0) →
            RefusesLeft newest_version party (hub ∷ option_to_list other) e.1
            (state S.Store conn) (state S.Store e.0)) }
    {
        let mut conn = conn;
        let failed = 0;
        match test_all(&mut conn, &party, &Hubs { hub, other }, STATION_VERSION) {
            Ok((next, _)) => Ok(SqliteRecords { conn, next, failed }),
            Err(error) => Err((conn, error)),
        }
    }

    /// Records that were made before, as `adopt` finds them, but of any version up to the newest: they are
    /// brought to the newest one. Answers which version they were of: where that was the newest, nothing
    /// is written.
    ///
    /// They stand for what they stood for. Version 1 says nothing of how arrivals are read: up to the last
    /// number each was read as before acknowledgments were noted, and goes on to be. In versions 1 and 2
    /// each was judged as before the edition changed, and goes on to be.
    ///
    /// A refusal gives the connection back, and leaves the tables as they were: the faults are those of
    /// `adopt`, but for `OldVersion`. A stop in the call leaves the tables as they were, or all of them of
    /// the newest version.
    pub fn migrate(
        conn: Connection<S>,
        party: Party,
        hub: Party,
        other: Option<Party>,
    ) -> Result<(Self, u32), (Connection<S>, RecordsFault)>
        ensures valid { IfOk result (λ x. IsValid x.0.next (state S.Store x.0.conn)
            × (x.0.failed ≡ 0)) }
        ensures migrated { IfOk result (λ x. HasCleanDisk (state S.Store x.0.conn) →
            AreMigrated x.1 party (hub ∷ option_to_list other)
            (state S.Store conn) (state S.Store x.0.conn)) }
        ensures others { conn.schema ≢ station_schema →
            IsErrAnd result (λ e. e.1 ≡ RecordsFault.NotOurs) }
        ensures other { IfErr result (λ e. HasCleanDisk (state S.Store e.0) →
            TellsRightly first_version party (hub ∷ option_to_list other)
            (state S.Store conn).now e.1) }
        ensures back { IfErr result (λ e. HasCleanDisk (state S.Store e.0) →
            Stays (state S.Store conn) (state S.Store e.0)) }
        ensures crash { MatchResult result
            (λ x. Survives (state S.Store conn) (state S.Store x.0.conn)
            (MayBecome Migrates (state S.Store conn)))
            (λ e. Survives (state S.Store conn) (state S.Store e.0)
            (MayBecome Migrates (state S.Store conn))) }
        ensures taken { IfErr result (λ e. HasCleanDisk (state S.Store e.0) →
            RefusesToMigrate party (hub ∷ option_to_list other) e.1
            (state S.Store conn) (state S.Store e.0)) }
    {
        let mut conn = conn;
        let unfailed = 0;
        match migrate_station(&mut conn, &party, &Hubs { hub, other }) {
            Ok((next, was)) => {
                let records = SqliteRecords {
                    conn,
                    next,
                    failed: unfailed,
                };
                Ok((records, was))
            }
            Err(why) => Err((conn, why)),
        }
    }

    /// The connection to the database, which is as the records left it: open and at rest, it is one
    /// that `adopt` takes.
    pub fn into_connection(self) -> Connection<S>
        ensures same { result ≡ self.conn }
        ensures left { IsValid self.next (state S.Store self.conn) →
            IsAtRest (state S.Store self.conn) →
            WereLeftByStation newest_version
            (content_of (state S.Store self.conn).now.trees).origin.me
            (content_of (state S.Store self.conn).now.trees).origin.hubs (state S.Store result) }
    {
        self.conn
    }
}

impl<S: Alter> Records for SqliteRecords<S> {
    ghost use Rattle.sqlite.specs.Held.{state};
    ghost use Rattle.x12_tables.specs.Law.{clean_of};
    ghost use Rattle.x12_station_records.specs.StationContent.{content_of, IsValid, MayHold};
    ghost use Rattle.x12_station_records.specs.StationLaw.{sure_of};

    ghost content = { λ s. content_of (state S.Store s.conn).now.trees };

    ghost clean = { λ s. (state S.Store s.conn).is_clean };

    ghost answers = { λ s. (state S.Store s.conn).is_open };

    ghost valid = { λ s. IsValid s.next (state S.Store s.conn) };

    ghost failed = { λ s. s.failed };

    ghost may_leave = { λ s. MayHold (state S.Store s.conn) };

    fn commit(&mut self, plan: Planned) -> Result<Committed, (Planned, StoreFault)> {
        match commit(&mut self.conn, &mut self.next, &plan) {
            Ok(()) => Ok(plan.done()),
            Err(error) => Err((plan, station_fault(&error, &mut self.failed))),
        }
    }

    fn owner(&mut self) -> Result<Owner, StoreFault> {
        tell_station(find_owner(&mut self.conn), &mut self.failed)
    }

    fn load(&mut self) -> Result<Loaded, StoreFault> {
        tell_station(load(&mut self.conn), &mut self.failed)
    }

    fn find_inbound(&mut self, partner: &Party, icn: u32) -> Result<Option<Filed>, StoreFault> {
        tell_station(find_inbound(&mut self.conn, partner, icn), &mut self.failed)
    }

    fn find_fate(&mut self, key: &SetKey) -> Result<Option<Fate>, StoreFault> {
        tell_station(find_fate(&mut self.conn, key), &mut self.failed)
    }

    fn find_closed(&mut self, icn: u32) -> Result<Option<Entry>, StoreFault> {
        tell_station(find_closed(&mut self.conn, icn), &mut self.failed)
    }

    fn find_closed_group(
        &mut self,
        partner: &Party,
        functional: [u8; 2],
        gcn: u32,
    ) -> Result<Option<Entry>, StoreFault> {
        tell_station(
            find_closed_group(&mut self.conn, partner, functional, gcn),
            &mut self.failed,
        )
    }

    fn find_outbound(&mut self, icn: u32) -> Result<Option<Vec<u8>>, StoreFault> {
        tell_station(find_outbound(&mut self.conn, icn), &mut self.failed)
    }

    fn find_item(&mut self, seq: u64) -> Result<Option<Item>, StoreFault> {
        tell_station(find_item(&mut self.conn, seq), &mut self.failed)
    }

    fn find_posting(&mut self, at: u64) -> Result<Option<Posting>, StoreFault> {
        tell_station(find_posting(&mut self.conn, at), &mut self.failed)
    }

    fn find_posted(&mut self, key: &SetKey) -> Result<Option<Posting>, StoreFault> {
        tell_station(find_posted(&mut self.conn, key), &mut self.failed)
    }

    fn postings(&mut self) -> Result<Vec<Posting>, StoreFault> {
        tell_station(postings(&mut self.conn), &mut self.failed)
    }

    fn failures(&self) -> u64 {
        self.failed
    }

    ghost answering_is_clean = { λ s is_open. clean_of _ _ (S.Store.shut_if_dirty s.conn.store) is_open };

    ghost sound = { λ s valid is_open. valid.sound is_open };

    ghost left_is_held = { λ s d valid is_open left. sure_of _ d (λ db may. S.Store.settled s.conn.store db is_open may) valid is_open left };
}
