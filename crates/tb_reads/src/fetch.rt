//! The statements that read a desk.

ghost use Rattle.std.specs.Prelude.{◌≡◌, ◌≢◌, List, All, map, Err, IfOk, is_ok};
ghost use Rattle.tb_reads.specs.Prelude.{bound, Columns, FailsOnlyAs, HasCleanDisk, IsFaultless, IsStoreFault, IsWant};
ghost use Rattle.tb_reads.specs.Prelude.{numbered, Shown, state};
ghost use Rattle.tb_reads.specs.Failing.{IsDeskQuery, SeesAsBefore, IsUnchangedOnForm, IsReadFault, IsReadWant};
ghost use Rattle.tb_reads.specs.Fetched.{ShowsRows};
ghost use Rattle.tb_reads.specs.Found.{HasUnreadable, ShowsFirst};
ghost use Rattle.tb_reads.specs.ReadOnly.{IsReadOnly};

use crate::error::ReadError;
use crate::records::{FromRow, all_in, first_in};
use sqlite::types::ValueRef;
use sqlite::{Alter, Connection, Error, Row};
use std::alloc::Global;

/// The rows that a statement returns.
pub(crate) fn fetch_rows<S: Alter>(
    conn: &mut Connection<S>,
    sql: &str,
    params: &[ValueRef<'_>],
) -> Result<Vec<Row>, Error>
    requires { IsDeskQuery sql.now (bound params.now) }
    ensures shown { ShowsRows S.Store conn.old conn.new sql.now (bound params.now) result (λ rows. rows.items) }
    ensures sees { SeesAsBefore S.Store conn.old conn.new }
    ensures fails { FailsOnlyAs IsStoreFault S.Store conn.old conn.new result }
    ensures cause { IsFaultless S.Store conn.old conn.new → FailsOnlyAs IsWant S.Store conn.old conn.new result }
    ensures read_only { IsReadOnly S.Store conn.old conn.new (is_ok result) }
{
    conn.query_all(sql, params)
}

/// The records that the rows of a statement show. `Form` comes exactly where the rows are those of no such list.
pub(crate) fn fetch_all<T: FromRow, S: Alter>(
    alloc: Global,
    conn: &mut Connection<S>,
    sql: &str,
    params: &[ValueRef<'_>],
) -> Result<Vec<T>, ReadError>
    requires { IsDeskQuery sql.now (bound params.now) }
    ensures shown { ShowsRows S.Store conn.old conn.new sql.now (bound params.now) result (λ v.
        numbered T.shown 1 (map T.plain v.items)) }
    ensures form { HasCleanDisk (state S.Store conn.new) → result ≡ Err ReadError.Form → (rows : List Columns)
        × Shown sql.now (bound params.now) (state S.Store conn.old) (state S.Store conn.new) rows
        × ((xs : List T.Plain) → All T.Fits xs → rows ≢ numbered T.shown 1 xs) }
    ensures untouched { IsUnchangedOnForm S.Store conn.old conn.new result }
    ensures sees { SeesAsBefore S.Store conn.old conn.new }
    ensures fails { FailsOnlyAs IsReadFault S.Store conn.old conn.new result }
    ensures cause { IsFaultless S.Store conn.old conn.new → FailsOnlyAs IsReadWant S.Store conn.old conn.new result }
    ensures read_only { IsReadOnly S.Store conn.old conn.new (is_ok result) }
{
    let rows = fetch_rows(conn, sql, params)?;
    all_in(alloc, rows.as_slice())
}

/// The record in the first row of a statement, if there is a row.
pub(crate) fn fetch_first<T: FromRow, S: Alter>(
    conn: &mut Connection<S>,
    sql: &str,
    params: &[ValueRef<'_>],
    number: u64,
) -> Result<Option<T>, ReadError>
    requires { IsDeskQuery sql.now (bound params.now) }
    ensures shown { HasCleanDisk (state S.Store conn.new) → IfOk result (λ found. (rows : List Columns)
        × Shown sql.now (bound params.now) (state S.Store conn.old) (state S.Store conn.new) rows
        × ShowsFirst (λ x. T.shown number (T.plain x)) rows found) }
    ensures form { HasCleanDisk (state S.Store conn.new) → result ≡ Err ReadError.Form → (rows : List Columns)
        × Shown sql.now (bound params.now) (state S.Store conn.old) (state S.Store conn.new) rows
        × HasUnreadable T.Fits (T.shown number) rows }
    ensures sees { SeesAsBefore S.Store conn.old conn.new }
    ensures fails { FailsOnlyAs IsReadFault S.Store conn.old conn.new result }
    ensures cause { IsFaultless S.Store conn.old conn.new → FailsOnlyAs IsReadWant S.Store conn.old conn.new result }
    ensures read_only { IsReadOnly S.Store conn.old conn.new (is_ok result) }
{
    let rows = fetch_rows(conn, sql, params)?;
    first_in(rows.as_slice(), number)
}
