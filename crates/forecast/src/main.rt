// Reads a table text from standard input and prints what it foretells.
#![tactic(auto)]

use releases::{Forecast, foretell};
use std::io::Read;

fn run(rt: &HostRuntime) -> anyhow::Result<()> {
    let mut text = Vec::new(rt.alloc());
    rt.stdin().read_to_end(&mut text)?;
    let forecast = Forecast(foretell(text.as_slice()));
    rt.print(forecast)?;
    Ok(())
}

fn main(rt: HostRuntime) -> anyhow::Result<()> {
    run(&rt)
}
