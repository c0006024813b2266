//! A query that only reads.

ghost use Rattle.std.specs.Prelude.{◌≡◌, false, IfOk, IfErr};
ghost use Rattle.sqlite.specs.Held.{state};
ghost use Rattle.sqlite.specs.State.{HasCleanDisk, Survives, Shown, FailsToQuery};
ghost use Rattle.sqlite.specs.Values.{bound};
ghost use Rattle.sql_rows.specs.Kept.{Stays};
ghost use Rattle.sql_rows.specs.Query.{IsQuery};

use sqlite::types::ValueRef;
use sqlite::{Alter, Connection, Error, Row};

/// All rows of a query's answer. Whatever comes back, the database stays as it was.
pub fn ask<S: Alter>(
    conn: &mut Connection<S>,
    sql: &str,
    params: &[ValueRef<'_>],
) -> Result<Vec<Row>, Error>
    requires { IsQuery sql.now }
    ensures shown { HasCleanDisk (state S.Store conn.new) → IfOk result (λ rows. Shown sql.now
        (bound params.now) (state S.Store conn.old) (state S.Store conn.new) rows.items) }
    ensures fails { HasCleanDisk (state S.Store conn.new) → IfErr result (FailsToQuery sql.now
        (bound params.now) (state S.Store conn.old) (state S.Store conn.new)) }
    ensures stays { HasCleanDisk (state S.Store conn.new) →
        Stays (state S.Store conn.old) (state S.Store conn.new) }
    ensures mode { conn.old.in_transaction ≡ false → conn.new.in_transaction ≡ false }
    ensures survives { Survives (state S.Store conn.old) (state S.Store conn.new) (λ _. ⊥) }
{
    conn.query_all(sql, params)
}
