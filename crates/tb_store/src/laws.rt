//! Laws of a desk in memory. Each function states a fact about the definitions, and runs nothing.

ghost use Rattle.std.specs.Prelude.{◌≡◌, ◌≢◌, ℕ, List, Result, Err, IsTrue};
ghost use Rattle.sqlite_trees.specs.declared.memory.MemStore.{MemStore};
ghost use Rattle.tb_core.specs.Commands.{Command};
ghost use Rattle.tb_core.specs.declared.refusals.Fault.{Fault};
ghost use Rattle.tb_core.specs.declared.refusals.Fault.TheVariants.{Device};
ghost use Rattle.tb_store.specs.Prelude.{HasRoomIfWritten, Machine, over_memory, state};
ghost use Rattle.tb_store.specs.Kept.{Kept};
ghost use Rattle.tb_store.specs.Represents.{Represents};
ghost use Rattle.tb_store.specs.Calls.{IsDurable};
ghost use Rattle.tb_store.specs.Blaming.{BlamesInDoubtAlone};
ghost use Rattle.tb_store.specs.Questions.{IsQuestion};

/// No question of a desk in memory that represents a state blames the device.
pub fn questions_in_memory_blame_no_device<T>()
    ensures { (d e : Kept MemStore) (s : Machine) (result : Result T Fault)
        → IsQuestion over_memory d e result → Represents over_memory d s → result ≢ Err Device }
{}

/// Where a command on a desk in memory blames the device, the desk is in doubt, and durably represents its state.
///
/// The desk represented this state before. There has to be room for the revisions that an import or a correction
/// writes.
pub fn commands_in_memory_blame_in_doubt_alone<T>()
    ensures any { (d e : Kept MemStore) (s : Machine) (result : Result T Fault)
        → BlamesInDoubtAlone over_memory d e result (λ _ so. so) → Represents over_memory d s
        → result ≡ Err Device → IsTrue e.in_doubt × IsDurable over_memory e s }
    ensures with_room { (d e : Kept MemStore) (s : Machine) (result : Result T Fault)
        (command : Command) (body : List ℕ) (revisions : ℕ)
        → BlamesInDoubtAlone over_memory d e result (λ t so. HasRoomIfWritten d.limits t command body revisions
        (state over_memory d.conn) → so) → Represents over_memory d s
        → HasRoomIfWritten d.limits s command body revisions (state over_memory d.conn)
        → result ≡ Err Device → IsTrue e.in_doubt × IsDurable over_memory e s }
{}
