ghost use Rattle.std.specs.Prelude.{◌≡◌};
ghost use Rattle.tb_conllu.specs.Words.{is_word_id, is_word, words_of};

use crate::id::LineId;
use crate::rows::{BlockOf, RowOf};
use crate::text::Text;

fn is_word_line(id: LineId) -> bool
    ensures { result ≡ is_word_id id }
{
    match id {
        LineId::Word(_) => true,
        LineId::Span(..) | LineId::Empty(..) => false,
    }
}

/// Whether the row is a word: neither a range nor an empty node.
///
/// CoNLL-U format page, "Words, Tokens and Empty Nodes".
pub fn is_word_row<T: Text>(row: &RowOf<T>) -> bool
    ensures { result ≡ is_word row.now }
{
    is_word_line(row.id)
}

/// How many words the sentence has. Takes no memory.
pub fn words<T: Text>(block: &BlockOf<T>) -> usize
    ensures { result ≡ words_of block.now }
{
    block.rows.iter().filter(|row| is_word_row(*row)).count()
}
