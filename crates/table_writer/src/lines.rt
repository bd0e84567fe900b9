// The lines of rows on a page.
ghost use Rattle.std.specs.Prelude.{◌≡◌, ℕ, List, [], length, take, codes};
ghost use Rattle.std.specs.List.{flat_map};
ghost use Rattle.table.specs.Format.{line, heap_numbers, static_numbers, kind_numbers, task_numbers, render};
ghost use Rattle.table_writer.specs.Pages.{HasRoom, Puts};
ghost use Rattle.table_writer.specs.Writing.{rows_of};

use crate::page::{Page, put_line};
use table::rows::{HeapRow, KindRow, MAX_KINDS, MAX_TASKS, StaticRow, TaskRow};

// A row that has a line of its own.
trait Row {
    ghost text: { Self → List ℕ };

    // Puts its line on a page.
    fn put(&self, page: &mut Page)
        requires { HasRoom page.old 1 }
        ensures { Puts (text self.now) 1 page.old page.new };
}

impl Row for HeapRow {
    ghost text = { λ r. line (codes "heap") (heap_numbers r) [] };

    fn put(&self, page: &mut Page) {
        put_line(page, "heap", &self.numbers());
    }
}

impl Row for StaticRow {
    ghost text = { λ r. line (codes "static") (static_numbers r) [] };

    fn put(&self, page: &mut Page) {
        put_line(page, "static", &self.numbers());
    }
}

impl Row for KindRow {
    ghost text = { λ r. line (codes "kind") (kind_numbers r) [] };

    fn put(&self, page: &mut Page) {
        put_line(page, "kind", &self.numbers());
    }
}

impl Row for TaskRow {
    ghost text = { λ r. line (codes "task") (task_numbers r) [] };

    fn put(&self, page: &mut Page) {
        put_line(page, "task", &self.numbers());
    }
}

// A line for each row.
fn put_rows<R: Row>(page: &mut Page, rows: &[R])
    requires { HasRoom page.old (length rows.now) }
    ensures { Puts (flat_map R.Row.text rows.now) (length rows.now) page.old page.new }
{
    for row in rows {
        row.put(page);
    }
}

// The text of a table, of which no more kinds and tasks are looked at than one past their limits: those rows are
// refused before the others.
pub(crate) fn draw(heap: HeapRow, statics: StaticRow, kinds: &[KindRow], tasks: &[TaskRow]) -> Page
    ensures { result.bytes ≡ render (rows_of heap statics (take 33 kinds.now) (take 17 tasks.now)) }
{
    let mut page = Page::new();
    heap.put(&mut page);
    statics.put(&mut page);
    put_rows(&mut page, &kinds[..kinds.len().min(MAX_KINDS + 1)]);
    put_rows(&mut page, &tasks[..tasks.len().min(MAX_TASKS + 1)]);
    page
}
