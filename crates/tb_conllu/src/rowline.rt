//! The row of a word line.

ghost use Rattle.std.specs.Prelude.{◌≡◌, ◌<◌, IfOk, IfErr, ◌||◌};
ghost use Rattle.tb_chars.specs.Spaces.{has_space};
ghost use Rattle.tb_conllu.specs.Lines.{fields, word_code};
ghost use Rattle.tb_conllu.specs.Shape.{IsLineText, IsRowShaped};
ghost use Rattle.tb_conllu.specs.TenFields.{list_of};
ghost use Rattle.tb_conllu.specs.Text.{row_line};

use crate::fields::{TenFields, ten_fields};
use crate::id::LineId;
use crate::ids::{head_of, id_of};
use crate::rows::{RowOf, RowRef};
use crate::spaces::any_loose;
use tb_chars::has_white_space;

pub fn any_field_spaced(p: TenFields<'_>) -> bool
    ensures { result ≡
        (has_space p.entry.upos.now || has_space p.entry.xpos.now || has_space p.entry.feats.now
        || has_space p.entry.head.now || has_space p.entry.deprel.now || has_space p.entry.deps.now) }
{
    has_white_space(p.upos)
        || has_white_space(p.xpos)
        || has_white_space(p.feats)
        || has_white_space(p.head)
        || has_white_space(p.deprel)
        || has_white_space(p.deps)
}

/// Whether one of the fields that may not hold white space holds some.
fn any_spaced(line: &str, p: TenFields<'_>) -> bool
    requires { fields line.now ≡ list_of p }
    ensures { result ≡
        (has_space p.entry.upos.now || has_space p.entry.xpos.now || has_space p.entry.feats.now
        || has_space p.entry.head.now || has_space p.entry.deprel.now || has_space p.entry.deps.now) }
{
    any_loose(line.as_bytes()) && any_field_spaced(p)
}

/// The row of these fields, with its ID and its HEAD as they were read.
#[inline(always)]
pub fn row_from<'a>(p: TenFields<'a>, id: LineId, head: Option<u32>) -> RowRef<'a>
    ensures { result ≡ record {
      id = id;
      form = p.entry.form.now;
      lemma = p.entry.lemma.now;
      upos = p.entry.upos.now;
      xpos = p.entry.xpos.now;
      feats = p.entry.feats.now;
      head = head;
      deprel = p.entry.deprel.now;
      deps = p.entry.deps.now;
      misc = p.entry.misc.now;
    } }
{
    RowOf {
        id,
        form: p.form,
        lemma: p.lemma,
        upos: p.upos,
        xpos: p.xpos,
        feats: p.feats,
        head,
        deprel: p.deprel,
        deps: p.deps,
        misc: p.misc,
    }
}

/// The row of a word line, which borrows its texts; or the least code of the line, which is 4, 5, 6 or 7.
pub fn row_of(line: &str) -> Result<RowRef<'_>, u8>
    ensures ok { IfOk result (λ r. (word_code line.now ≡ 0) × (row_line r ≡ line.now)) }
    ensures shape { IfOk result (λ r. IsLineText line.now → IsRowShaped r) }
    ensures code { IfErr result (λ e. (word_code line.now ≡ e) × (0 < e)) }
{
    let Some(p) = ten_fields(line) else {
        return Err(4);
    };
    let Some(id) = id_of(p.id) else {
        return Err(5);
    };
    if any_spaced(line, p) {
        return Err(6);
    }
    let Some(head) = head_of(p.head) else {
        return Err(7);
    };
    Ok(row_from(p, id, head))
}
