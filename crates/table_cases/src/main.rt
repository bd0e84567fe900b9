// Many table texts in one input, and what each foretells. A case is a line `== NAME BYTES`, that many bytes, and a line end.
#![tactic(auto)]

ghost use Rattle.std.specs.Prelude.{ℕ, ◌-◌, ◌≤◌, length, IfOk};

use releases::{Forecast, foretell};
use std::io::{Read, Write};

// What stands before the first of these bytes, and what stands after it.
fn split_at_byte(text: &[u8], byte: u8) -> (&[u8], &[u8])
    ensures { length result.1.now ≤ length text.now - 1 }
{
    match text.iter().position(|b| *b == byte) {
        Some(i) => (&text[..i], &text[i + 1..]),
        None => (text, &[]),
    }
}

fn number(digits: &[u8]) -> usize {
    digits.iter().fold(0, |n: usize, b| {
        n.saturating_mul(10)
            .saturating_add(b.saturating_sub(b'0') as usize)
    })
}

// The name and the count of bytes of a case.
fn header(line: &[u8]) -> (&[u8], usize) {
    let (_, rest) = split_at_byte(line, b' ');
    let (name, count) = split_at_byte(rest, b' ');
    (name, number(count))
}

// Prints one case, and answers what is left of the input.
fn show_case<'a>(rt: &HostRuntime, input: &'a [u8]) -> anyhow::Result<&'a [u8]>
    ensures { IfOk result (λ rest. length rest.now ≤ length input.now - 1) }
{
    let (line, after) = split_at_byte(input, b'\n');
    let (name, count) = header(line);
    let (text, rest) = after.split_at(count.min(after.len()));
    rt.print("== ")?;
    rt.stdout().write_all(name)?;
    rt.print("\n")?;
    rt.print(Forecast(foretell(text)))?;
    let (_, rest) = split_at_byte(rest, b'\n');
    Ok(rest)
}

fn run(rt: &HostRuntime) -> anyhow::Result<()> {
    let mut input = Vec::new(rt.alloc());
    rt.stdin().read_to_end(&mut input)?;
    let mut rest = input.as_slice();
    while !rest.is_empty() {
        rest = show_case(rt, rest)?;
    }
    Ok(())
}

fn main(rt: HostRuntime) -> anyhow::Result<()> {
    run(&rt)
}
