//! Splits a list of features into its items.

ghost use Rattle.std.specs.Prelude.{◌≡◌, ◌<◌, ◌∷◌, [], length, IfSome, MatchOption};
ghost use Rattle.tb_literal.specs.Items.{pieces};

/// The first piece, and the text after its bar; none where the text is one piece.
pub(crate) fn cut(rest: &str) -> Option<(&str, &str)>
    ensures pieces { MatchOption result (pieces rest.now ≡ rest.now ∷ []) (λ x.
        pieces rest.now ≡ x.0.now ∷ pieces x.1.now) }
    ensures shorter { IfSome result (λ x. length x.1.now < length rest.now) }
{
    rest.split_once('|')
}
