//! The item of a list that has no other.

ghost use Rattle.std.specs.Prelude.{◌≡◌, ◌≢◌, ◌∷◌, [], length, IfOk, IfErr};

/// The item of a list that has no other, or the list.
pub(crate) fn lone<T: Drop>(mut items: Vec<T>) -> Result<T, Vec<T>>
    ensures one { IfOk result (λ item. items.items ≡ item ∷ []) }
    ensures others { IfErr result (λ all. (all.items ≡ items.items) × (length items.items ≢ 1)) }
{
    if items.len() == 1 {
        if let Some(item) = items.pop() {
            return Ok(item);
        }
    }
    Err(items)
}
