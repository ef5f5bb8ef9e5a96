//! Whether a database has exactly the tables and indexes of a desk.

ghost use Rattle.std.specs.Prelude.{◌≡◌, ◌↔◌, true, false, [], ◌∷◌, Some, None, codes, IsTrue, MatchOption, ◌≢◌, List};
ghost use Rattle.sqlite.specs.Held.{state};
ghost use Rattle.sqlite.specs.Collation.TheVariants.{Binary};
ghost use Rattle.sqlite.specs.declared.types.Value.TheVariants.{Null};
ghost use Rattle.sqlite_value.specs.Keys.{plain};
ghost use Rattle.sqlite_schema.specs.declared.schema.Column.{Column as AnyColumn};
ghost use Rattle.tb_tables.specs.Layout.{key_column, column, unique_index, meta, batches, sentences, revisions, moves};
ghost use Rattle.tb_tables.specs.Layout.{totals, pulled, desk_schema, version_one_schema, ListsDesk};

use sqlite::{Alter, Connection};
use sqlite_items::Items;
use sqlite_schema::schema::{Column, Index, Kind, Table};
use sqlite_value::keys::{Collation, Order};
use sqlite_value::value::Value;

/// Each column of an entry ascends by its bytes.
const PLAIN: Order = Order { digits: 0 };

fn is_null(value: &Value) -> bool
    ensures { IsTrue result ↔ value.now ≡ Null }
{
    matches!(value, Value::Null)
}

fn is_typed(c: &Column, kind: Kind, not_null: bool) -> bool
    ensures { IsTrue result ↔ (c.now.kind ≡ kind) × (c.now.is_strict ≡ true) × (c.now.not_null ≡ not_null) }
{
    c.kind == kind && c.is_strict && c.not_null == not_null
}

fn is_plain(c: &Column) -> bool
    ensures { IsTrue result ↔ (c.now.default ≡ Null) × (c.now.collation ≡ Binary) }
{
    is_null(&c.default) && c.collation == Collation::Binary
}

/// The INTEGER PRIMARY KEY of a table.
fn is_key(c: &Column, name: &[u8]) -> bool
    ensures { IsTrue result ↔ c.now ≡ key_column name.now }
{
    c.name.as_slice() == name && is_typed(c, Kind::Integer, false) && is_plain(c)
}

/// A column that is not null.
fn is_column(c: &Column, name: &[u8], kind: Kind) -> bool
    ensures { IsTrue result ↔ c.now ≡ column name.now kind }
{
    c.name.as_slice() == name && is_typed(c, kind, true) && is_plain(c)
}

fn has_no_rules(t: &Table) -> bool
    ensures { IsTrue result ↔ (t.now.checks ≡ []) × (t.now.references ≡ []) × (t.now.computed ≡ [])
        × (t.now.is_counted ≡ false) }
{
    t.checks.roots.is_empty() && t.references.is_empty() && t.computed.is_empty() && !t.is_counted
}

fn has_no_stamps(t: &Table) -> bool
    ensures { IsTrue result ↔ t.now.stamps ≡ record { places = []; terms = []; formats = [] } }
{
    let stamps = &t.stamps;
    stamps.places.is_empty() && stamps.terms.roots.is_empty() && stamps.formats.is_empty()
}

/// A table with this name and root, without rules beside those of its columns and keys.
fn is_bare(t: &Table, name: &[u8], tree: u32) -> bool
    ensures { IsTrue result ↔ (t.now.name ≡ name.now) × (t.now.tree ≡ tree) × (t.now.checks ≡ [])
        × (t.now.references ≡ []) × (t.now.computed ≡ []) × (t.now.is_counted ≡ false)
        × (t.now.stamps ≡ record { places = []; terms = []; formats = [] }) }
{
    t.name.as_slice() == name && t.tree == tree && has_no_rules(t) && has_no_stamps(t)
}

/// The rowid is the first column, and no other column is unique.
fn is_keyed(t: &Table) -> bool
    ensures { IsTrue result ↔ (t.now.key ≡ Some 0) × (t.now.primary ≡ 0 ∷ []) }
{
    t.key == Some(0) && t.primary.as_slice() == [0usize].as_slice()
}

fn has_no_unique(t: &Table) -> bool
    ensures { IsTrue result ↔ (t.now.uniques ≡ []) × (t.now.orders ≡ []) }
{
    t.uniques.is_empty() && t.orders.is_empty()
}

fn are_places(places: &Items<usize>, wanted: &[usize]) -> bool
    ensures { IsTrue result ↔ places.now ≡ wanted.now }
{
    places.as_slice() == wanted
}

fn is_one_unique(uniques: &[Items<usize>], places: &[usize]) -> bool
    ensures { IsTrue result ↔ uniques.now ≡ places.now ∷ [] }
{
    match uniques {
        [unique] => are_places(unique, places),
        _ => false,
    }
}

fn is_one_order(orders: &[Order]) -> bool
    ensures { IsTrue result ↔ orders.now ≡ plain ∷ [] }
{
    match orders {
        [order] => *order == PLAIN,
        _ => false,
    }
}

/// The columns at these places are unique together, and nothing else is.
fn has_one_unique(t: &Table, places: &[usize]) -> bool
    ensures { IsTrue result ↔ (t.now.uniques ≡ places.now ∷ []) × (t.now.orders ≡ plain ∷ []) }
{
    is_one_unique(t.uniques.as_slice(), places) && is_one_order(t.orders.as_slice())
}

fn is_meta(t: &Table) -> bool
    ensures { IsTrue result ↔ t.now ≡ meta }
{
    match t.columns.as_slice() {
        [version] => {
            is_bare(t, b"meta", 0)
                && t.key.is_none()
                && t.primary.is_empty()
                && has_no_unique(t)
                && is_column(version, b"version", Kind::Integer)
        }
        _ => false,
    }
}

fn are_batch_columns(t: &Table) -> bool
    ensures { IsTrue result ↔ t.now.columns ≡ batches.columns }
{
    match t.columns.as_slice() {
        [no, name, state, worker] => {
            is_key(no, b"no")
                && is_column(name, b"name", Kind::Text)
                && is_column(state, b"state", Kind::Integer)
                && is_column(worker, b"worker", Kind::Text)
        }
        _ => false,
    }
}

fn is_batches(t: &Table) -> bool
    ensures { IsTrue result ↔ t.now ≡ batches }
{
    is_bare(t, b"batches", 1)
        && is_keyed(t)
        && has_one_unique(t, [2usize].as_slice())
        && are_batch_columns(t)
}

fn are_sentence_columns(t: &Table) -> bool
    ensures { IsTrue result ↔ t.now.columns ≡ sentences.columns }
{
    match t.columns.as_slice() {
        [no, sent_id, batch, rev, words] => {
            is_key(no, b"no")
                && is_column(sent_id, b"sent_id", Kind::Text)
                && is_column(batch, b"batch", Kind::Integer)
                && is_column(rev, b"rev", Kind::Integer)
                && is_column(words, b"words", Kind::Integer)
        }
        _ => false,
    }
}

fn is_sentences(t: &Table) -> bool
    ensures { IsTrue result ↔ t.now ≡ sentences }
{
    is_bare(t, b"sentences", 3)
        && is_keyed(t)
        && has_one_unique(t, [2usize].as_slice())
        && are_sentence_columns(t)
}

fn are_revision_columns(t: &Table) -> bool
    ensures { IsTrue result ↔ t.now.columns ≡ revisions.columns }
{
    match t.columns.as_slice() {
        [sent, rev, who, body] => {
            is_column(sent, b"sent", Kind::Integer)
                && is_column(rev, b"rev", Kind::Integer)
                && is_column(who, b"who", Kind::Text)
                && is_column(body, b"body", Kind::Text)
        }
        _ => false,
    }
}

fn is_revisions(t: &Table) -> bool
    ensures { IsTrue result ↔ t.now ≡ revisions }
{
    is_bare(t, b"revisions", 5)
        && t.key.is_none()
        && t.primary.as_slice() == [1usize, 2].as_slice()
        && has_one_unique(t, [1usize, 2].as_slice())
        && are_revision_columns(t)
}

/// The columns after the first two, where these are integers with these names.
fn after_two<'c>(columns: &'c [Column], first: &[u8], second: &[u8]) -> Option<&'c [Column]>
    ensures { MatchOption result ((rest : List AnyColumn)
        → columns.now ≢ column first.now Kind.Integer ∷ column second.now Kind.Integer ∷ rest) (λ rest.
        columns.now ≡ column first.now Kind.Integer ∷ column second.now Kind.Integer ∷ rest.now) }
{
    match columns {
        [a, b, rest @ ..]
            if is_column(a, first, Kind::Integer) && is_column(b, second, Kind::Integer) => Some(
            rest,
        ),
        _ => None,
    }
}

fn is_last_column(columns: &[Column], name: &[u8], kind: Kind) -> bool
    ensures { IsTrue result ↔ columns.now ≡ column name.now kind ∷ [] }
{
    match columns {
        [last] => is_column(last, name, kind),
        _ => false,
    }
}

/// The columns of a move after its number.
fn are_other_move_columns(columns: &[Column]) -> bool
    ensures { IsTrue result ↔ key_column (codes "no") ∷ columns.now ≡ moves.columns }
{
    let Some(from_sent) = after_two(columns, b"kind", b"batch") else {
        return false;
    };
    let Some(from_to) = after_two(from_sent, b"sent", b"from_state") else {
        return false;
    };
    let Some(from_words) = after_two(from_to, b"to_state", b"sentences") else {
        return false;
    };
    let Some(from_who) = after_two(from_words, b"words_out", b"words_in") else {
        return false;
    };
    is_last_column(from_who, b"who", Kind::Text)
}

fn are_move_columns(columns: &[Column]) -> bool
    ensures { IsTrue result ↔ columns.now ≡ moves.columns }
{
    match columns {
        [no, others @ ..] => is_key(no, b"no") && are_other_move_columns(others),
        _ => false,
    }
}

fn is_moves(t: &Table) -> bool
    ensures { IsTrue result ↔ t.now ≡ moves }
{
    is_bare(t, b"moves", 7)
        && is_keyed(t)
        && has_no_unique(t)
        && are_move_columns(t.columns.as_slice())
}

fn are_total_columns(t: &Table) -> bool
    ensures { IsTrue result ↔ t.now.columns ≡ totals.columns }
{
    match t.columns.as_slice() {
        [state, sentences, words] => {
            is_key(state, b"state")
                && is_column(sentences, b"sentences", Kind::Integer)
                && is_column(words, b"words", Kind::Integer)
        }
        _ => false,
    }
}

fn is_totals(t: &Table) -> bool
    ensures { IsTrue result ↔ t.now ≡ totals }
{
    is_bare(t, b"totals", 8) && is_keyed(t) && has_no_unique(t) && are_total_columns(t)
}

fn are_pulled_columns(t: &Table) -> bool
    ensures { IsTrue result ↔ t.now.columns ≡ pulled.columns }
{
    match t.columns.as_slice() {
        [sent] => is_key(sent, b"sent"),
        _ => false,
    }
}

fn is_pulled(t: &Table) -> bool
    ensures { IsTrue result ↔ t.now ≡ pulled }
{
    is_bare(t, b"pulled", 9) && is_keyed(t) && has_no_unique(t) && are_pulled_columns(t)
}

fn are_tables(tables: &[Table]) -> bool
    ensures { IsTrue result ↔ tables.now ≡ desk_schema.tables }
{
    match tables {
        [a, b, c, d, e, f, g] => {
            is_meta(a)
                && is_batches(b)
                && is_sentences(c)
                && is_revisions(d)
                && is_moves(e)
                && is_totals(f)
                && is_pulled(g)
        }
        _ => false,
    }
}

/// The index that SQLite makes for a UNIQUE constraint of a table.
fn is_unique_index(index: &Index, name: &[u8], tree: u32, table: u32, places: &[usize]) -> bool
    ensures { IsTrue result ↔ index.now ≡ unique_index name.now tree table places.now }
{
    index.name.as_slice() == name
        && index.tree == tree
        && index.table == table
        && index.columns.as_slice() == places
        && index.order == PLAIN
        && index.is_unique
}

fn are_indexes(indexes: &[Index]) -> bool
    ensures { IsTrue result ↔ indexes.now ≡ desk_schema.indexes }
{
    match indexes {
        [a, b, c] => {
            is_unique_index(a, b"sqlite_autoindex_batches_1", 2, 1, [2usize].as_slice())
                && is_unique_index(
                    b,
                    b"sqlite_autoindex_sentences_1",
                    4,
                    3,
                    [2usize].as_slice(),
                )
                && is_unique_index(
                    c,
                    b"sqlite_autoindex_revisions_1",
                    6,
                    5,
                    [1usize, 2].as_slice(),
                )
        }
        _ => false,
    }
}

/// Whether a database has exactly the seven tables of a desk, made in this order, and no other table, index or view.
/// They have these columns, kinds and keys.
pub fn has_desk_schema<S: Alter>(conn: &Connection<S>) -> bool
    ensures { IsTrue result ↔ (state S.Store conn.now).now.schema ≡ desk_schema }
{
    let schema = conn.schema();
    are_tables(schema.tables.as_slice())
        && are_indexes(schema.indexes.as_slice())
        && schema.views.is_empty()
}

/// An open database with the schema of a desk lists no other in its file.
pub fn desk_schema_is_listed<S: Alter>(conn: &Connection<S>)
    ensures { IsTrue (state S.Store conn.now).is_open → (state S.Store conn.now).now.schema ≡ desk_schema
        → ListsDesk (state S.Store conn.now).now.trees }
{
    let _schema = conn.schema();
}

fn are_version_one_tables(tables: &[Table]) -> bool
    ensures { IsTrue result ↔ tables.now ≡ version_one_schema.tables }
{
    match tables {
        [a, b, c, d, e, f] => {
            is_meta(a)
                && is_batches(b)
                && is_sentences(c)
                && is_revisions(d)
                && is_moves(e)
                && is_totals(f)
        }
        _ => false,
    }
}

/// Whether a database has exactly the six tables of a desk of version 1, and no other table, index or view. These are
/// those of a desk without the pulled sentences.
pub fn has_version_one_schema<S: Alter>(conn: &Connection<S>) -> bool
    ensures { IsTrue result ↔ (state S.Store conn.now).now.schema ≡ version_one_schema }
{
    let schema = conn.schema();
    are_version_one_tables(schema.tables.as_slice())
        && are_indexes(schema.indexes.as_slice())
        && schema.views.is_empty()
}
