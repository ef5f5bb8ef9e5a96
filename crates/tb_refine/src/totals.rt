//! Rows of the table of totals, as totals of the machine.

ghost use Rattle.std.specs.Prelude.{◌≡◌, [], ◌∷◌, length, map, None, IfSome};

use tb_core::Totals;
use tb_tables::TotalRow;

/// Six numbers of rows, as the machine has them.
fn of_six(a: u32, b: u32, c: u32, d: u32, e: u32, f: u32) -> [u64; 6]
    ensures { result ≡ a ∷ b ∷ c ∷ d ∷ e ∷ f ∷ [] }
{
    [
        u64::from(a),
        u64::from(b),
        u64::from(c),
        u64::from(d),
        u64::from(e),
        u64::from(f),
    ]
}

/// The totals that six rows hold, or none where the rows are not six.
pub fn stored_totals(rows: &[TotalRow]) -> Option<Totals>
    ensures six { IfSome result (λ t. (length rows.now ≡ 6) × (t.sentences ≡ map (λ r. r.sentences) rows.now)
        × (t.words ≡ map (λ r. r.words) rows.now)) }
    ensures lacks { result ≡ None → length rows.now ≡ 6 → ⊥ }
{
    match rows {
        [a, b, c, d, e, f] => Some(Totals {
            sentences: of_six(
                a.sentences,
                b.sentences,
                c.sentences,
                d.sentences,
                e.sentences,
                f.sentences,
            ),
            words: of_six(a.words, b.words, c.words, d.words, e.words, f.words),
        }),
        _ => None,
    }
}
