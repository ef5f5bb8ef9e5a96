//! A desk of version 1 that is taken into use.

ghost use Rattle.std.specs.Prelude.{◌≡◌, ◌≢◌, false, None, IsTrue, IfOk, IfErr};
ghost use Rattle.tb_store.specs.Prelude.{AnyRefusal, AreStored, HasCleanDisk, HasMetaRowids, IsFirstDesk, IsWithin, Machine};
ghost use Rattle.tb_store.specs.Prelude.{state, Survives, tables_of, version_one_schema};
ghost use Rattle.tb_store.specs.Represents.{Represents, unlimited};
ghost use Rattle.tb_store.specs.Handing.{IsNoDeviceIfFaultless, WantsOnTables};

use crate::desk::{Desk, Unmade, without_limit};
use sqlite::{Alter, Connection};
use std::alloc::Global;
use tb_core::{Fault, Limits};

impl<S: Alter> Desk<S> {
    /// The desk of a store that is one of version 1 without pulls. All its tables are read and tested, and then become those
    /// of a desk in one transaction. The connection loses its step limit.
    ///
    /// The rows of all tables are in memory at once, with the texts of all revisions. A fault gives the connection back,
    /// over a desk of version 1 that is as it was. A crash on the way leaves its tables, or the whole tables of the desk.
    ///
    /// # Errors
    ///
    /// `NotADesk`, where the store is not the desk of version 1 of a state without pulls, or the connection is in a
    /// transaction. Then the store is as it was.
    pub fn migrate(alloc: Global, conn: Connection<S>, limits: Limits) -> Result<Desk<S>, Unmade<S>>
        requires within { IsWithin limits }
        ensures migrated { IfOk result (λ d. HasCleanDisk (state S.Store d.conn) → (s : Machine)
            × IsFirstDesk S.Store conn s × Represents S.Store d s) }
        ensures limits { IfOk result (λ d. d.limits ≡ limits) }
        ensures certain { IfOk result (λ d. d.in_doubt ≡ false) }
        ensures no_step_limit { IfOk result (λ d. (state S.Store d.conn).step_limit ≡ None) }
        ensures limit_off { IfErr result (λ u. (state S.Store u.conn).step_limit ≡ None) }
        ensures unfit { IfErr result (λ u. HasCleanDisk (state S.Store u.conn) → u.fault ≡ Fault.NotADesk
            → (s : Machine) → IsFirstDesk S.Store conn s → ⊥) }
        ensures untouched { IfErr result (λ u. HasCleanDisk (state S.Store u.conn) → u.fault ≡ Fault.NotADesk
            → (state S.Store u.conn).now ≡ (state S.Store conn).now) }
        ensures unwritten { IfErr result (λ u. u.fault ≡ Fault.NotADesk
            → Survives (state S.Store (unlimited conn)) (state S.Store u.conn) (λ _. ⊥)) }
        ensures only_desks { IfErr result (λ u. ((s : Machine) → IsFirstDesk S.Store conn s → ⊥)
            → HasCleanDisk (state S.Store u.conn)
            → Survives (state S.Store (unlimited conn)) (state S.Store u.conn) (λ _. ⊥)) }
        ensures never_refuses { IfErr result (λ u. (r : AnyRefusal) → u.fault ≢ Fault.Refused r) }
        ensures output { IfErr result (λ u. u.fault ≢ Fault.Output) }
        ensures wants { IfErr result (λ u. WantsOnTables version_one_schema S.Store conn u.fault) }
        ensures cause { IfErr result (λ u. ((s : Machine) → IsFirstDesk S.Store conn s
            → HasMetaRowids (state S.Store conn).now.trees) → IsNoDeviceIfFaultless S.Store conn u.conn u.fault) }
        ensures autocommit { IfErr result (λ u. conn.in_transaction ≡ false → u.conn.in_transaction ≡ false) }
        ensures again { IfErr result (λ u. HasCleanDisk (state S.Store u.conn)
            → IsTrue (state S.Store u.conn).is_open → (s : Machine) → IsFirstDesk S.Store conn s
            → IsFirstDesk S.Store u.conn s) }
        ensures crash { IfOk result (λ d. Survives (state S.Store (unlimited conn)) (state S.Store d.conn) (λ db.
            (s : Machine) → IsFirstDesk S.Store conn s → AreStored (tables_of s) db)) }
        ensures crash_on_the_way { IfErr result (λ u. Survives (state S.Store (unlimited conn)) (state S.Store u.conn)
            (λ db. (s : Machine) → IsFirstDesk S.Store conn s → AreStored (tables_of s) db)) }
    {
        let mut conn = without_limit(conn);
        match tb_verify::migrate(alloc, &mut conn) {
            Ok(summary) => Ok(Desk::over(alloc, conn, limits, summary)),
            Err(fault) => Err(Unmade { fault, conn }),
        }
    }
}
