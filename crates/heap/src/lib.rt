// Objects behind handles in two semispaces, the calls that tasks make on them, and the collector that moves them step by step.
// The memory is brought to each call that reads or writes words.
#![tactic(auto)]

use arrayvec::ArrayVec;
use kinds::Kind;

mod calls;
mod collector;
mod handles;
mod preparing;
mod questions;

// How a handle stands with the collection.
#[derive(Clone, Copy, PartialEq, Eq, Default, Debug)]
enum State {
    #[default]
    Spare,
    Old,
    Marked,
    Moving,
    New,
}

// An object's kind and its place in memory; the link leads to the next handle of the chain that this one is in.
#[derive(Clone, Copy, PartialEq, Eq, Default, Debug)]
struct Handle {
    kind: u8,
    place: u32,
    link: u16,
    state: State,
}

// The handles by their numbers, row 0 never used and always spare, and the first handle of each chain, 0 for none.
#[derive(Drop)]
struct Table {
    handles: [Handle; 257],
    spare: u16,
    marked: u16,
}

// The words of a space, the handles, and how many words and objects are declared to live at most.
#[derive(Clone, Copy, PartialEq, Eq, Default, Debug)]
pub struct Limits {
    pub space: u16,
    pub handles: u16,
    pub live_words: u16,
    pub live_objects: u16,
}

// The limits, and the kinds, which are numbered from 1.
#[derive(Drop)]
struct Measures {
    limits: Limits,
    kinds: ArrayVec<Kind, 32>,
}

// Sweeping has come to a handle, clearing to a word of the other space.
#[derive(Clone, Copy, PartialEq, Eq, Default, Debug)]
enum Phase {
    #[default]
    Idle,
    Tracing,
    Sweeping(u16),
    Clearing(u16),
}

// The current space begins at `base`: `born` words lie at its top, and `settled` words of finished copies at its bottom.
// Above those goes the copy of the object that moves, its handle 0 for none, of which `done` words are copied.
#[derive(Clone, Copy, PartialEq, Eq, Default, Debug)]
struct Course {
    base: u16,
    born: u16,
    settled: u16,
    mover: u16,
    done: u16,
}

// The steps of a collection, and the objects and words that it took up.
#[derive(Clone, Copy, PartialEq, Eq, Default, Debug)]
pub struct Report {
    pub steps: u32,
    pub objects: u16,
    pub words: u16,
}

// Where the collector stands: whether it has flipped since prepare, and what the collection has taken so far.
#[derive(Clone, Copy, PartialEq, Eq, Default, Debug)]
struct Cycle {
    phase: Phase,
    flipped: bool,
    course: Course,
    tally: Report,
}

// A heap has its measures once it is prepared. Slots hold 0 for none, or a handle.
#[derive(Drop)]
pub struct Heap {
    measures: Option<Measures>,
    table: Table,
    slots: [u16; 192],
    cycle: Cycle,
}

// A task's call.
#[derive(Clone, Copy, PartialEq, Eq, Debug)]
pub enum Call {
    New { slot: u8, kind: u8 },
    Copy { from: u8, to: u8 },
    Drop { slot: u8 },
    Fetch { slot: u8, word: u16, to: u8 },
    Put { slot: u8, word: u16, from: u8 },
    Read { slot: u8, word: u16 },
    Write { slot: u8, word: u16, value: u32 },
    Same { one: u8, other: u8 },
    Kind { slot: u8 },
}

// What a call answers.
#[derive(Clone, Copy, PartialEq, Eq, Debug)]
pub enum Answer {
    Done,
    Absent,
    Number(u32),
    Truth(bool),
}
