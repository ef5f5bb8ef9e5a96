ghost use Rattle.std.specs.Prelude.{MatchOption, IfOk, IsOk, All, length, ◌≤◌};
ghost use Rattle.tb_rules.specs.Rows.{EachRowPasses, IsFirstFault};
ghost use Rattle.tb_rules.specs.Feats.{feature_test};

use crate::accepted::Accepted;
use std::alloc::{AllocError, Global};
use tb_conllu::{RowOf, Text};

/// The first row whose FEATS are at fault, by its number (from 1).
pub(crate) fn feature_fault<T: Text>(
    alloc: Global,
    accepted: &mut Accepted,
    rows: &[RowOf<T>],
) -> Result<Option<usize>, AllocError>
    ensures value { IfOk result (λ r. MatchOption r (EachRowPasses feature_test rows.now)
        (IsFirstFault feature_test rows.now)) }
    ensures sure { All (λ r. length r.feats ≤ 32) rows.now → IsOk result }
{
    for (i, row) in rows.iter().enumerate() {
        if !accepted.accept_features(alloc, row.feats.text())? {
            return Ok(Some(i + 1));
        }
    }
    Ok(None)
}
