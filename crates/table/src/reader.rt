// A reader: a place in a text that is lent.
ghost use Rattle.std.specs.Prelude.{ℕ, ◌+◌, ◌≤◌, length};
ghost use Rattle.table.specs.Checking.{Spot, at};

mod lines;
mod moves;

pub(crate) use lines::Row;
use std::marker::Model;

// What is left of a text, and the line and column where that begins. Both fit their 32 bits since no text is
// longer than 8,192 bytes.
#[derive(Drop)]
pub(crate) struct Reader<'a> {
    rest: &'a [u8],
    line: u32,
    column: u32,
}

impl<'a> Model for Reader<'a> {
    ghost Value = { Spot };

    ghost view = { λ r. at r.rest.now r.line r.column };

    ghost invariant = { λ r. (1 ≤ r.column) × (r.line + r.column + length r.rest.now ≤ 8194) };
}
