// Consumers: each is another task of the table. A table is checked for that after all its lines.
ghost use Rattle.std.specs.Prelude.{◌≡◌, ℕ, ◌+◌, ◌≤◌, length, decimal};
ghost use Rattle.fault.specs.Told.{told};
ghost use Rattle.table.specs.Checking.{past as past_of, consumer_column, check_consumers};

use crate::rows::TaskRow;
use fault::{Cause, Fault, Layer};

// How many digits a number has.
fn digits(n: u32) -> u32
    ensures value { result ≡ length (decimal n) }
    ensures few { result ≤ 10 }
{
    n.checked_ilog10().unwrap_or(0) + 1
}

// The column after a comma and a number.
fn past(column: u32, n: u32) -> u32
    requires { column ≤ 1000 }
    ensures value { result ≡ past_of column n }
    ensures near { result ≤ column + 11 }
{
    column + 1 + digits(n)
}

// Where the consumer of a task begins in its line: past the first word, the numbers before it, and a comma.
fn column_of(task: &TaskRow) -> u32
    ensures { result ≡ consumer_column task.now }
{
    let numbers = task.numbers();
    let mut column = 5;
    for n in &numbers[..6] {
        column = past(column, *n);
    }
    column + 1
}

// The first task whose consumer is itself or none of them is refused. Their lines begin at `first`.
pub(crate) fn check(tasks: &[TaskRow], first: u32) -> Result<(), Fault>
    requires { (length tasks.now ≤ 16) × (first ≤ 35) }
    ensures { told result ≡ check_consumers (length tasks.now) 1 first tasks.now }
{
    for (i, task) in tasks.iter().enumerate() {
        let consumer = task.consumer as usize;
        if consumer > tasks.len() || consumer == i + 1 {
            let line = first + i as u32;
            return Err(Fault::in_line(Layer::Text, Cause::OutsideLimits, line, column_of(task)));
        }
    }
    Ok(())
}
