//! A desk in memory.

ghost use Rattle.std.specs.Prelude.{◌≡◌, false, None, IfOk, IfErr};
ghost use Rattle.tb_store.specs.Prelude.{empty_machine, IsWithin, over_memory, state};
ghost use Rattle.tb_store.specs.Represents.{Represents};

use crate::desk::{Desk, Unmade};
use sqlite::{Connection, MemStore};
use std::alloc::Global;
use tb_core::{Fault, Limits};

impl Desk<MemStore> {
    /// A desk in memory. It is refused for want of memory alone.
    pub fn in_memory(alloc: Global, limits: Limits) -> Result<Desk<MemStore>, Fault>
        requires { IsWithin limits }
        ensures represents { IfOk result (λ d. Represents over_memory d empty_machine) }
        ensures known { IfErr result (λ e. e ≡ Fault.Memory) }
        ensures no_step_limit { IfOk result (λ d. (state over_memory d.conn).step_limit ≡ None) }
        ensures limits { IfOk result (λ d. d.limits ≡ limits) }
        ensures certain { IfOk result (λ d. d.in_doubt ≡ false) }
    {
        let conn = Connection::open_in_memory(alloc)?;
        match Desk::make(alloc, conn, limits) {
            Ok(desk) => Ok(desk),
            Err(Unmade { fault, conn: _ }) => Err(fault),
        }
    }
}
