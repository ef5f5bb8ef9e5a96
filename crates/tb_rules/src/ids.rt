ghost use Rattle.std.specs.Prelude.{◌≡◌, ◌↔◌, IsTrue, ℕ};
ghost use Rattle.tb_conllu.specs.Words.{words_of};
ghost use Rattle.tb_rules.specs.Rows.{EachRowPasses};
ghost use Rattle.tb_rules.specs.Ids.{is_next_id, is_in_place, HasIds};

use tb_conllu::{BlockOf, LineId, RowOf, Text};

/// The rows so far: how many words, and how many empty nodes since the last of them.
#[derive(Clone, Copy)]
struct Came {
    words: usize,
    nodes: usize,
}

fn is_next(id: LineId, came: Came) -> bool
    ensures { (nodes : ℕ → ℕ) → nodes came.words ≡ came.nodes → result ≡ is_next_id came.words nodes id }
{
    match id {
        LineId::Word(n) => n > 0 && n as usize - 1 == came.words,
        LineId::Span(..) => true,
        LineId::Empty(i, k) => i as usize == came.words && k > 0 && k as usize - 1 == came.nodes,
    }
}

fn are_in_place<T: Text>(rows: &[RowOf<T>]) -> bool
    ensures { IsTrue result ↔ EachRowPasses is_in_place rows.now }
{
    let mut words: usize = 0;
    let mut nodes: usize = 0;
    for row in rows {
        if !is_next(row.id, Came { words, nodes }) {
            return false;
        }
        match row.id {
            LineId::Word(_) => {
                words += 1;
                nodes = 0;
            }
            LineId::Span(..) => {}
            LineId::Empty(..) => nodes += 1,
        }
    }
    true
}

/// Whether the rows have the right numbers: words 1 to n, at most 1000, and empty nodes after their words.
pub(crate) fn has_ids<T: Text>(block: &BlockOf<T>, words: usize) -> bool
    requires { words ≡ words_of block.now }
    ensures { IsTrue result ↔ HasIds block.now }
{
    1 <= words && words <= 1000 && are_in_place(&block.rows)
}
