//! A query on records, and whether an error is one of the device.

ghost use Rattle.std.specs.Prelude.{IsTrue, IfOk, OnOk, ◌≡◌, ◌≤◌, false};
ghost use Rattle.sqlite.specs.Held.{state};
ghost use Rattle.sqlite.specs.State.{Shown};
ghost use Rattle.sqlite.specs.Values.{bound};
ghost use Rattle.sql_rows.specs.Query.{IsQuery};
ghost use Rattle.x12_numbers.specs.Count.{CountRose};
ghost use Rattle.x12_tables.specs.Read.{OnlyReads};

use sql_rows::ask;
use sqlite::types::ValueRef;
use sqlite::{Alter, Connection, Error, ErrorCode, Row};

/// All rows of a query's answer, or what the database says where it fails. The text is a SELECT that
/// doesn't read the time.
pub fn read<S: Alter>(
    conn: &mut Connection<S>,
    sql: &str,
    params: &[ValueRef<'_>],
) -> Result<Vec<Row>, Error>
    requires { IsQuery sql.now }
    ensures reads { OnlyReads (state S.Store conn.old) (state S.Store conn.new) }
    ensures answered { IsTrue (state S.Store conn.new).is_clean →
        OnOk result (IsTrue (state S.Store conn.new).is_open) }
    ensures shown { IsTrue (state S.Store conn.new).is_open → IfOk result (λ rows. Shown sql.now
        (bound params.now) (state S.Store conn.old) (state S.Store conn.new) rows.items) }
{
    ask(conn, sql, params)
}

/// Whether the device failed, and not memory was missing. Its failures are counted, up to
/// 18446744073709551615.
pub fn is_device(error: &Error, failed: &mut u64) -> bool
    ensures within { failed.old ≤ failed.new }
    ensures rises { IsTrue result → CountRose failed.old failed.new }
    ensures other { result ≡ false → failed.new ≡ failed.old }
{
    if let Error::SqliteFailure(ErrorCode::OutOfMemory) = error {
        return false;
    }
    *failed = failed.saturating_add(1);
    true
}
