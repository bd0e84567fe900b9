ghost use Rattle.std.specs.Prelude.{length};
ghost use Rattle.admission.specs.Admission.{RowsSized};

use table::rows::{HeapRow, KindRow, StaticRow, TaskRow};

// The rows of an accepted text.
#[derive(Clone, Copy)]
pub(crate) struct Accepted<'a> {
    pub(crate) heap: HeapRow,
    pub(crate) statics: StaticRow,
    pub(crate) kinds: &'a [KindRow],
    pub(crate) tasks: &'a [TaskRow],
    ghost sized: { RowsSized (record { heap = heap; statics = statics; kinds = kinds.now; tasks = tasks.now }) },
}
