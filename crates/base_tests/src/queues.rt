use queue::{Queue, Rank, Release, Source, put_all, take_all};
use std::test::Fail;

fn rank(deadline: u32, task: u8) -> Rank {
    Rank { deadline, task }
}

#[test]
fn empty_and_full(rt: HostRuntime) -> Result<(), Fail> {
    let mut none = [rank(0, 0); 0];
    let mut nothing = Queue::new(&mut none);
    assert!(rt; nothing.take().is_none());
    assert!(rt; nothing.put(rank(1, 1)).is_err());
    let mut room = [rank(0, 0); 1];
    let mut queue = Queue::new(&mut room);
    queue.put(rank(5, 5))?;
    assert_eq!(rt;
        queue.put(rank(4, 4)).map_err(|fault| fault.number()),
        Err(26)
    );
    assert_eq!(rt; queue.len(), 1);
    assert_eq!(rt; queue.take(), Some(rank(5, 5)));
    assert_eq!(rt; queue.take(), None);
    Ok(())
}

#[test]
fn ranks_by_deadline_then_number(rt: HostRuntime) -> Result<(), Fail> {
    let ranks = [
        rank(100, 1),
        rank(50, 3),
        rank(50, 2),
        rank(50, 2),
        rank(7, 9),
    ];
    let mut room = [rank(0, 0); 8];
    let mut sorted = [rank(0, 0); 6];
    let mut queue = Queue::new(&mut room);
    put_all(&mut queue, &ranks)?;
    assert_eq!(rt; take_all(&mut queue, &mut sorted), 5);
    assert_eq!(rt;
        sorted,
        [
            rank(7, 9),
            rank(50, 2),
            rank(50, 2),
            rank(50, 3),
            rank(100, 1),
            rank(0, 0),
        ]
    );
    Ok(())
}

#[test]
fn the_collector_is_last_at_its_tick(rt: HostRuntime) -> Result<(), Fail> {
    let collector = Release {
        tick: 100,
        rank: 2,
        source: Source::Collector,
    };
    let mut room = [collector; 3];
    let mut queue = Queue::new(&mut room);
    queue.put(collector)?;
    queue.put(Release {
        tick: 100,
        rank: 2,
        source: Source::Task(200),
    })?;
    queue.put(Release {
        tick: 99,
        rank: 16,
        source: Source::Task(1),
    })?;
    let mut taken = [collector; 3];
    assert_eq!(rt; take_all(&mut queue, &mut taken), 3);
    assert_eq!(rt; taken.map(|release| release.tick), [99, 100, 100]);
    assert_eq!(rt;
        taken.map(|release| release.source),
        [Source::Task(1), Source::Task(200), Source::Collector]
    );
    Ok(())
}
