//! Tests that several commands share.

ghost use Rattle.std.specs.Prelude.{◌≡◌, ◌+◌, ◌&&◌, nat_le};
ghost use Rattle.tb_core.specs.Names.{is_name};

use crate::{Limits, good_name};

/// Whether both texts are names.
pub(crate) fn good_names(name: &str, user: &str) -> bool
    ensures { result ≡ (is_name name.now && is_name user.now) }
{
    good_name(name) && good_name(user)
}

/// Whether the limits have room for one more move.
pub(crate) fn has_room(limits: &Limits, moves: u64) -> bool
    ensures { result ≡ nat_le (moves + 1) limits.now.moves }
{
    moves < limits.moves
}
