// The tasks of the example go into the queue, and come out by rank.
use queue::{Queue, Rank};
use std::io;

const RANKS: [Rank; 3] = [
    Rank {
        deadline: 100,
        task: 2,
    },
    Rank {
        deadline: 50,
        task: 1,
    },
    Rank {
        deadline: 75,
        task: 3,
    },
];

fn put_rank(rt: &HostRuntime, queue: &mut Queue<Rank>, rank: Rank) -> io::Result<()> {
    let Rank { deadline, task } = rank;
    match queue.put(rank) {
        Ok(()) => println!(rt; "ranks: task {task} with deadline {deadline} is put"),
        Err(fault) => println!(rt; "ranks: task {task} is not put, {fault}"),
    }
}

fn take_rank(rt: &HostRuntime, queue: &mut Queue<Rank>) -> io::Result<()> {
    match queue.take() {
        Some(Rank { task, .. }) => println!(rt;
            "ranks: task {task} is taken, {} left",
            queue.len()
        ),
        None => println!(rt; "ranks: none is left"),
    }
}

pub(crate) fn rank_tasks(rt: &HostRuntime) -> io::Result<()> {
    let mut room = [RANKS[0]; 2];
    let mut queue = Queue::new(&mut room);
    for rank in RANKS {
        put_rank(rt, &mut queue, rank)?;
    }
    for _ in RANKS {
        take_rank(rt, &mut queue)?;
    }
    Ok(())
}
