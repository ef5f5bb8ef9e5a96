//! What a desk keeps beside its tables.

ghost use Rattle.std.specs.Prelude.{◌≡◌, ◌≢◌, ◌+◌, ◌<◌, ◌≤◌, Err, IfOk, IfErr};
ghost use Rattle.tb_refine.specs.Prelude.{AnyRefusal};
ghost use Rattle.tb_refine.specs.Faults.{IsNoDevice};

use tb_core::{Fault, Limits, Totals};

/// What a command needs of a desk beside the tables, kept without asking the database.
#[derive(Clone, Copy, Debug)]
pub struct Counters {
    pub limits: Limits,
    /// The number of moves so far.
    pub moves: u32,
    pub totals: Totals,
}

/// The number of the next move, from 1.
///
/// # Errors
///
/// `NotADesk` at 1,000,000,000 moves. A desk at this limit never comes here, since its commands are refused as `Full`.
pub fn next_move(counts: &Counters) -> Result<u32, Fault>
    ensures next { IfOk result (λ n. (n ≡ counts.now.moves + 1) × (n ≤ 1000000000)) }
    ensures never_refuses { (r : AnyRefusal) → result ≢ Err (Fault.Refused r) }
    ensures fails { counts.now.moves < 1000000000 → result ≢ Err Fault.NotADesk }
    ensures cause { IfErr result IsNoDevice }
    ensures fault { IfErr result (λ e. e ≡ Fault.NotADesk) }
{
    if counts.moves >= 1_000_000_000 {
        return Err(Fault::NotADesk);
    }
    Ok(counts.moves + 1)
}
