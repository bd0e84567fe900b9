// Tables as text: the writer.
#![tactic(auto)]

ghost use Rattle.std.specs.Prelude.{◌≡◌, length, take, IfOk};
ghost use Rattle.fault.specs.Told.{told};
ghost use Rattle.table.specs.Format.{render};
ghost use Rattle.table.specs.Laws.{OneToOne};
ghost use Rattle.table_writer.specs.Writing.{rows_of, written, left_by, Taken, Written};

mod lines;
mod page;

use fault::{Cause, Fault, Layer};
use table::rows::{HeapRow, KindRow, MAX_KINDS, MAX_TASKS, NO_KIND, NO_TASK, StaticRow, TaskRow};

// Writes a table to the front of a buffer and answers how many bytes that took. Rows are refused where the reader
// refuses their text line by line, since it is the reader that looks at that text; last comes a buffer that is too
// short. A refusal leaves the buffer as it was.
pub fn write(
    heap: HeapRow,
    statics: StaticRow,
    kinds: &[KindRow],
    tasks: &[TaskRow],
    buffer: &mut [u8],
) -> Result<usize, Fault>
    ensures answer { told result ≡ written (rows_of heap statics kinds.now tasks.now) (length buffer.old) }
    ensures buffer { buffer.new ≡ left_by (told result) (render (rows_of heap statics kinds.now tasks.now)) buffer.old }
    ensures back { IfOk result (λ n. Written (rows_of heap statics kinds.now tasks.now) (take n buffer.new)) }
    ensures limits { Taken (rows_of heap statics kinds.now tasks.now) (length buffer.old) (told result) }
    ensures apart { OneToOne }
{
    let page = lines::draw(heap, statics, kinds, tasks);
    let text = page.as_str().as_bytes();
    let mut kinds_read = [NO_KIND; MAX_KINDS];
    let mut tasks_read = [NO_TASK; MAX_TASKS];
    table::read(text, &mut kinds_read, &mut tasks_read)?;
    if text.len() > buffer.len() {
        return Err(Fault::nowhere(Layer::Text, Cause::WrongSize));
    }
    buffer[..text.len()].copy_from_slice(text);
    Ok(text.len())
}
