//! The bodies of all revisions, lent one at a time.

ghost use Rattle.std.specs.Prelude.{◌≡◌, ◌≢◌, true, List, map, All, Err, IfOk, IfErr, option_map, Some, None};
ghost use Rattle.std.specs.Borrow.{sem, RestsIfErr};
ghost use Rattle.sqlite.specs.contracts.connection.Connection.{the_row};
ghost use Rattle.tb_reads.specs.Prelude.{desk_schema, HasCleanDisk, IsAscending, Revision, revision_shown};
ghost use Rattle.tb_reads.specs.Prelude.{revision_view, row_if, Shows, state};
ghost use Rattle.tb_reads.specs.Readable.{IsRevision, ComesBefore};
ghost use Rattle.tb_reads.specs.ReadOnly.{IsReadOnly};
ghost use Rattle.tb_reads.specs.Streams.{AreToCome, EndsAs, IsLeft, body_shown, lent_shown};

use crate::error::ReadError;
use crate::records::number_at;
use sqlite::types::ValueRef;
use sqlite::{Alter, Connection, Error, Row, Rows};

/// The body of a revision, lent until the next one is asked for.
#[derive(Clone, Copy, Debug)]
pub struct Body<'a> {
    /// The number of the sentence.
    pub sent: u32,
    /// The number of the revision, from 1 within its sentence.
    pub rev: u32,
    /// The text of the sentence, its blank line included.
    pub body: &'a [u8],
}

/// The body in a row. This needs no memory.
fn body_in(row: &Row) -> Result<Body<'_>, ReadError>
    ensures ok { IfOk result (λ b. row.now ≡ lent_shown b) }
    ensures form { result ≡ Err ReadError.Form → (x : Revision) → IsRevision x → row.now ≢ body_shown x }
    ensures fault { IfErr result (λ e. e ≡ ReadError.Form) }
{
    if row.column_count() != 3 {
        return Err(ReadError::Form);
    }
    let sent = number_at(row, 0)?;
    let rev = number_at(row, 1)?;
    match row.get_ref(2) {
        Ok(ValueRef::Text(body)) => Ok(Body { sent, rev, body }),
        _ => Err(ReadError::Form),
    }
}

/// The bodies of all revisions, by sentence and number. `next_body` hands them out one at a time.
///
/// The rows borrow the connection until they are dropped. They may be dropped at any row, and that changes nothing.
///
/// # Errors
///
/// On the tables of a desk, with no limit on steps, an error is a fault of the store.
pub fn bodies<S: Alter>(conn: &mut Connection<S>) -> Result<Rows<'_, S>, Error>
    ensures* refused { sem 𝓛 (RestsIfErr (the_row S.row S.Store) conn.entry (λ rows. rows.conn.ghost_name) result
        (IsLeft S.Store conn.old result)) }
    ensures same_reference { IfOk result (λ rows. rows.conn.ghost_name ≡ conn.entry.ghost_name) }
    ensures ok { IfOk result (λ rows. HasCleanDisk (state S.Store rows.conn.now)
        → (state S.Store conn.old).now.schema ≡ desk_schema → (xs : List Revision) → All IsRevision xs
        → IsAscending ComesBefore xs
        → Shows revision_view (map revision_shown xs) ((state S.Store conn.old).now.trees 5)
        → AreToCome S.Store rows.conn.now xs) }
    ensures read_only { IfOk result (λ rows. IsReadOnly S.Store conn.old rows.conn.now true) }
{
    conn.query(
        "SELECT sent, rev, body FROM revisions ORDER BY sent, rev",
        &[],
    )
}

// The body in the current row. This needs no memory.
fn body_at<'a, S: Alter>(rows: &'a Rows<'_, S>) -> Result<Option<Body<'a>>, ReadError>
    ensures ok { IfOk result (λ found. option_map lent_shown found ≡ row_if rows.now.has_row rows.now.conn.now) }
    ensures form { result ≡ Err ReadError.Form → (row_if rows.now.has_row rows.now.conn.now ≢ None)
        × ((x : Revision) → IsRevision x → row_if rows.now.has_row rows.now.conn.now ≢ Some (body_shown x)) }
    ensures fault { IfErr result (λ e. e ≡ ReadError.Form) }
{
    match rows.get() {
        Some(row) => Ok(Some(body_in(row)?)),
        None => Ok(None),
    }
}

/// The next body of the rows of `bodies`, or `None` after the last.
///
/// # Errors
///
/// `Form` comes only where the rows are those of no list of revisions. An error of the database, with no limit on
/// steps, comes only of a fault of the store.
pub fn next_body<'conn, 'a, S: Alter>(
    rows: &'a mut Rows<'conn, S>,
) -> Result<Option<Body<'a>>, ReadError>
    ensures* ends { sem 𝓛 (EndsAs S.row S.Store rows.entry result) }
{
    rows.advance()?;
    body_at(rows)
}
