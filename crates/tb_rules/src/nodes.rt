ghost use Rattle.std.specs.Prelude.{◌≡◌, MatchOption};
ghost use Rattle.tb_rules.specs.Rows.{EachRowPasses, IsFirstFault};
ghost use Rattle.tb_rules.specs.Nodes.{is_fine_as_node, node_test};

use tb_conllu::{LineId, RowOf, Text};
use tb_fields::{is_blank_field, is_tag};

fn is_fine<T: Text>(row: &RowOf<T>) -> bool
    ensures { result ≡ is_fine_as_node row.now.id row.now }
{
    match row.id {
        LineId::Word(_) | LineId::Span(..) => true,
        LineId::Empty(..) => row.head.is_none()
            && is_blank_field(row.deprel.text())
            && (is_blank_field(row.upos.text()) || is_tag(row.upos.text())),
    }
}

/// The first empty node at fault, by the number of its row (from 1).
pub(crate) fn node_fault<T: Text>(rows: &[RowOf<T>]) -> Option<usize>
    ensures { MatchOption result (EachRowPasses node_test rows.now) (IsFirstFault node_test rows.now) }
{
    for (i, row) in rows.iter().enumerate() {
        if !is_fine(row) {
            return Some(i + 1);
        }
    }
    None
}
