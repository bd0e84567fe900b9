// A page: text that grows at its end, within fixed room.
ghost use Rattle.std.specs.Prelude.{ℕ, [], ◌≤◌, length};
ghost use Rattle.table.specs.Format.{line as line_text};
ghost use Rattle.table_writer.specs.Pages.{HasRoom, Puts};

use arrayvec::ArrayString;
use itoa::Buffer;
use table::rows::{MAX_KINDS, MAX_TASKS};

// The longest line: a word of six letters, seven commas with ten digits each, and a line end.
pub(crate) const LONGEST_LINE: usize = 84;
// Room for two lines, and for one kind and one task more than a table has.
pub(crate) const ROOM: usize = (2 + MAX_KINDS + 1 + MAX_TASKS + 1) * LONGEST_LINE;

pub(crate) type Page = ArrayString<ROOM>;

// Puts down a line: its first word, and its numbers.
pub(crate) fn put_line(page: &mut Page, word: &str, numbers: &[u32])
    requires { HasRoom page.old 1 × ((length word.now ≤ 6) × (length numbers.now ≤ 7)) }
    ensures { Puts (line_text word.now numbers.now []) 1 page.old page.new }
{
    page.push_str(word);
    for n in numbers {
        page.push(',');
        page.push_str(Buffer::new().format(*n));
    }
    page.push('\n');
}
