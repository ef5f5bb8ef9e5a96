//! Whether two sentences are equal, in any types of texts.

ghost use Rattle.std.specs.Prelude.{◌≡◌, ◌↔◌, IsTrue, map};
ghost use Rattle.tb_core.specs.SameRows.{SameFront, SameBack};

use tb_conllu::{BlockOf, RowOf, Text};

fn same_text<T: Text, U: Text>(one: &T, other: &U) -> bool
    ensures { IsTrue result ↔ (T.bytes one.now ≡ U.bytes other.now) }
{
    *one.text() == *other.text()
}

/// ID to FEATS.
fn same_front<T: Text, U: Text>(one: &RowOf<T>, other: &RowOf<U>) -> bool
    ensures { IsTrue result ↔ SameFront one.now other.now }
{
    one.id == other.id
        && same_text(&one.form, &other.form)
        && same_text(&one.lemma, &other.lemma)
        && same_text(&one.upos, &other.upos)
        && same_text(&one.xpos, &other.xpos)
}

/// FEATS to MISC.
fn same_back<T: Text, U: Text>(one: &RowOf<T>, other: &RowOf<U>) -> bool
    ensures { IsTrue result ↔ SameBack one.now other.now }
{
    same_text(&one.feats, &other.feats)
        && one.head == other.head
        && same_text(&one.deprel, &other.deprel)
        && same_text(&one.deps, &other.deps)
        && same_text(&one.misc, &other.misc)
}

fn same_row<T: Text, U: Text>(one: &RowOf<T>, other: &RowOf<U>) -> bool
    ensures { IsTrue result ↔ (one.now ≡ other.now) }
{
    same_front(one, other) && same_back(one, other)
}

/// Whether two lists have as many items, and each two at one place are the same.
macro_rules! are_pairwise {
    ($are_same:ident, $one:ident, $other:ident) => {{
        if $one.len() != $other.len() {
            return false;
        }
        for (i, item) in $one.iter().enumerate() {
            if !$are_same(item, &$other[i]) {
                return false;
            }
        }
        true
    }};
}

fn same_rows<T: Text, U: Text>(one: &[RowOf<T>], other: &[RowOf<U>]) -> bool
    ensures { IsTrue result ↔ (one.now ≡ other.now) }
{
    are_pairwise!(same_row, one, other)
}

fn same_texts<T: Text, U: Text>(one: &[T], other: &[U]) -> bool
    ensures { IsTrue result ↔ (map T.bytes one.now ≡ map U.bytes other.now) }
{
    are_pairwise!(same_text, one, other)
}

/// Whether the sentences have the same comments and the same rows. Takes no memory.
pub(crate) fn same_block<T: Text, U: Text>(one: &BlockOf<T>, other: &BlockOf<U>) -> bool
    ensures { IsTrue result ↔ (one.now ≡ other.now) }
{
    same_texts(&one.comments, &other.comments) && same_rows(&one.rows, &other.rows)
}
