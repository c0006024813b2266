//! The table of a hub's numbers.

ghost use Rattle.std.specs.Prelude.{◌≡◌, IfOk};
ghost use Rattle.sqlite.specs.Held.{state};
ghost use Rattle.sql_rows.specs.Kept.{IsPart};
ghost use Rattle.x12_tables.specs.Adopt.{TakesRows};
ghost use Rattle.x12_tables.specs.Change.{Always};
ghost use Rattle.x12_tables.specs.declared.fault.TableFault.TheVariants.{Memory};
ghost use Rattle.x12_hub_records.specs.HubAdopt.{AreNumbers};
ghost use Rattle.x12_hub_records.specs.HubChange.{TurnsHub, with_last_hub_numbers};
ghost use Rattle.x12_hub_records.specs.HubRead.{HubAnswers};
ghost use Rattle.x12_hub_records.specs.HubTables.{hub_numbers_of};
ghost use Rattle.x12_hub_records.specs.declared.hub_numbers.HubNumbers.{HubNumbers};

use sql_rows::run;
use sqlite::types::ValueRef;
use sqlite::{Alter, Connection, Error, Row, Transaction};
use x12_envelopes::Party;
use x12_tables::{TableFault, number_in, one_row, party_in_row, read};

/// What the row says: whose the records are, the last interchange number and the last item number.
#[derive(Clone, Copy)]
pub(crate) struct HubNumbers {
    pub(crate) party: Party,
    pub(crate) icn: u32,
    pub(crate) item: u32,
}

/// The version of a hub's tables.
const VERSION: u32 = 1;

/// All columns of the row.
pub(crate) const HUB_NUMBERS: &str = "SELECT one, version, party, icn, item FROM hubnumber";

/// What the one row says.
pub(crate) fn hub_numbers_in_rows(rows: &[Row]) -> Result<HubNumbers, TableFault>
    ensures are { IfOk result (λ n. AreNumbers n rows.now) }
    ensures taken { TakesRows ((n : HubNumbers) × AreNumbers n rows.now) Memory result }
{
    let row = one_row(rows, VERSION)?;
    Ok(HubNumbers {
        party: party_in_row(row, 2)?,
        icn: number_in(row, 3)?,
        item: number_in(row, 4)?,
    })
}

/// Writes the last interchange number and the last item number.
pub(crate) fn count<S: Alter>(tx: &mut Transaction<'_, S>, icn: u32, item: u32) -> Result<(), Error>
    ensures same_reference { tx.new.conn.ghost_name ≡ tx.old.conn.ghost_name }
    ensures part { IsPart (TurnsHub (with_last_hub_numbers icn item) Always) result
        (state S.Store tx.old.conn.now) (state S.Store tx.new.conn.now) }
{
    run(
        tx,
        "UPDATE hubnumber SET icn = ?1, item = ?2",
        &[
            ValueRef::Int(i64::from(icn)),
            ValueRef::Int(i64::from(item)),
        ],
    )
}

/// What the row of numbers says.
pub(crate) fn load_numbers<S: Alter>(conn: &mut Connection<S>) -> Result<HubNumbers, Error>
    ensures { HubAnswers (λ s n. n ≡ hub_numbers_of s) result
        (state S.Store conn.old) (state S.Store conn.new) }
{
    let rows = read(conn, HUB_NUMBERS, &[])?;
    Ok(hub_numbers_in_rows(&rows)?)
}

/// Whose the records are.
pub(crate) fn find_owner<S: Alter>(conn: &mut Connection<S>) -> Result<Party, Error>
    ensures { HubAnswers (λ s party. party ≡ s.party) result
        (state S.Store conn.old) (state S.Store conn.new) }
{
    Ok(load_numbers(conn)?.party)
}
