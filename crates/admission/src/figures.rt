// What admission works out of a table.
use crate::task::Scheduled;
use table::rows::{HeapRow, KindRow, MAX_KINDS, MAX_TASKS, StaticRow};

// The bounds of the heap, once it is known how late a flip can be.
#[derive(Clone, Copy)]
pub struct Room {
    pub space: u32,
    pub handles: u32,
    pub live_words: u64,
    pub live_objects: u64,
    pub lateness: u32,
}

// The bounds of the tasks: the tasks in rank order with their response times, the heap's, the least stretch that holds a whole collection, the collector's period.
#[derive(Clone, Copy)]
pub struct Bounds {
    pub tasks: [Scheduled; MAX_TASKS],
    pub room: Room,
    pub span: u32,
    pub period: u32,
}

// The rows with the tasks in rank order and their response times, the live bounds, the steps of a collection at most, how late a flip can be,
// the least stretch that holds a whole collection, and the collector's period. All 0 where nothing is admitted.
#[derive(Clone, Copy, Default)]
pub struct Figures {
    pub heap: HeapRow,
    pub statics: StaticRow,
    pub kinds: [KindRow; MAX_KINDS],
    pub kind_count: u32,
    pub tasks: [Scheduled; MAX_TASKS],
    pub task_count: u32,
    pub live_words: u32,
    pub live_objects: u32,
    pub steps: u32,
    pub lateness: u32,
    pub span: u32,
    pub period: u32,
}
