// One job from start to finish, each step printed as a person would read it.
#![tactic(auto)]

mod memories;
mod ranks;
mod tables;

use std::io;

fn main(rt: HostRuntime) -> io::Result<()> {
    tables::read_table(&rt)?;
    ranks::rank_tasks(&rt)?;
    tables::admit_table(&rt)?;
    let mut bytes = [165u8; 67];
    memories::clear_spaces(&rt, &mut bytes)?;
    memories::set_words(&rt, &mut bytes)?;
    memories::read_back(&rt, &bytes)
}
