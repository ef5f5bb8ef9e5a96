//! The ten columns of a word line.

ghost use Rattle.std.specs.Prelude.{◌≡◌, slice_index_or};
ghost use Rattle.tb_conllu.specs.Lines.{field as field_at};
ghost use Rattle.tb_conllu.specs.Text.{fields_of};
ghost use Rattle.tb_words.specs.Columns.{column_name, first_filled, value_bytes};

use crate::findings::Value;
use tb_conllu::RowRef;

/// The places of columns, counted from 0.
pub(crate) const ID: usize = 0;

pub(crate) const FORM: usize = 1;

pub(crate) const LEMMA: usize = 2;

pub(crate) const UPOS: usize = 3;

pub(crate) const XPOS: usize = 4;

pub(crate) const FEATS: usize = 5;

pub(crate) const HEAD: usize = 6;

pub(crate) const DEPREL: usize = 7;

pub(crate) const DEPS: usize = 8;

pub(crate) const MISC: usize = 9;

/// The name of a column.
pub(crate) fn name(column: usize) -> &'static str
    ensures { result.now ≡ column_name column }
{
    match column {
        ID => "ID",
        FORM => "FORM",
        LEMMA => "LEMMA",
        UPOS => "UPOS",
        XPOS => "XPOS",
        FEATS => "FEATS",
        HEAD => "HEAD",
        DEPREL => "DEPREL",
        DEPS => "DEPS",
        MISC => "MISC",
        _ => "a column too many",
    }
}

/// The value in a column of a line.
pub(crate) fn field(line: &str, column: usize) -> &str
    ensures { result.now ≡ field_at column line.now }
{
    line.split('\t').nth(column).unwrap_or("")
}

/// What a row has in a column.
pub(crate) fn value_in<'a>(row: &RowRef<'a>, column: usize) -> Value<'a>
    ensures { value_bytes result ≡ slice_index_or (fields_of row.now) column row.now.misc }
{
    match column {
        ID => Value::Id(row.id),
        FORM => Value::Text(row.form),
        LEMMA => Value::Text(row.lemma),
        UPOS => Value::Text(row.upos),
        XPOS => Value::Text(row.xpos),
        FEATS => Value::Text(row.feats),
        HEAD => Value::Head(row.head),
        DEPREL => Value::Text(row.deprel),
        DEPS => Value::Text(row.deps),
        _ => Value::Text(row.misc),
    }
}

/// The first column of a range that is not `_`, though it has to be.
pub(crate) fn filled(row: &RowRef<'_>) -> usize
    ensures { result ≡ first_filled row.now }
{
    if row.lemma != "_" {
        LEMMA
    } else if row.upos != "_" {
        UPOS
    } else if row.xpos != "_" {
        XPOS
    } else if row.head.is_some() {
        HEAD
    } else if row.deprel != "_" {
        DEPREL
    } else {
        DEPS
    }
}
