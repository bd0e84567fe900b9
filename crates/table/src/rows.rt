// The rows of a table, in the order of their fields in the text, and the limits of each field.
ghost use Rattle.std.specs.Prelude.{◌≡◌};
ghost use Rattle.table.specs.Format.{heap_numbers, static_numbers, kind_numbers, task_numbers};

// The two semispaces: words in each, and handles.
#[derive(Clone, Copy, PartialEq, Eq, Default, Debug)]
pub struct HeapRow {
    pub space: u32,
    pub handles: u32,
}

// What may be born before the dashboard starts, and then lives for good.
#[derive(Clone, Copy, PartialEq, Eq, Default, Debug)]
pub struct StaticRow {
    pub words: u32,
    pub objects: u32,
}

// A kind of object: its size in words, and a map whose bit j is set where word j is a reference.
#[derive(Clone, Copy, PartialEq, Eq, Default, Debug)]
pub struct KindRow {
    pub size: u32,
    pub map: u32,
}

// A periodic task. `words` and `objects` are what one job may allocate; `life` is for how many periods
// that stays alive, or 0 where `consumer`, another task by its number, decides it.
#[derive(Clone, Copy, PartialEq, Eq, Default, Debug)]
pub struct TaskRow {
    pub period: u32,
    pub deadline: u32,
    pub units: u32,
    pub words: u32,
    pub objects: u32,
    pub life: u32,
    pub consumer: u32,
}

impl HeapRow {
    // The numbers of its line.
    pub fn numbers(&self) -> [u32; 2]
        ensures { result ≡ heap_numbers self.now }
    {
        [self.space, self.handles]
    }
}

impl StaticRow {
    // The numbers of its line.
    pub fn numbers(&self) -> [u32; 2]
        ensures { result ≡ static_numbers self.now }
    {
        [self.words, self.objects]
    }
}

impl KindRow {
    // The numbers of its line.
    pub fn numbers(&self) -> [u32; 2]
        ensures { result ≡ kind_numbers self.now }
    {
        [self.size, self.map]
    }
}

impl TaskRow {
    // The numbers of its line.
    pub fn numbers(&self) -> [u32; 7]
        ensures { result ≡ task_numbers self.now }
    {
        [
            self.period,
            self.deadline,
            self.units,
            self.words,
            self.objects,
            self.life,
            self.consumer,
        ]
    }
}

// A row that a list may hold before it is filled.
pub const NO_KIND: KindRow = KindRow { size: 0, map: 0 };

pub const NO_TASK: TaskRow = TaskRow {
    period: 0,
    deadline: 0,
    units: 0,
    words: 0,
    objects: 0,
    life: 0,
    consumer: 0,
};

// Limits of single fields. A deadline is at most its period, and units at most their deadline.
pub const MAX_SPACE: u32 = 8192;

pub const MAX_HANDLES: u32 = 256;

pub const MAX_WORDS: u32 = 8192;

pub const MAX_OBJECTS: u32 = 256;

pub const MAX_SIZE: u32 = 32;

pub const MAX_PERIOD: u32 = 1_000_000;

pub const MAX_LIFE: u32 = 64;

// Limits of a whole table and its text.
pub const MAX_KINDS: usize = 32;

pub const MAX_TASKS: usize = 16;

pub const MAX_TEXT: usize = 8192;

pub const MAX_DIGITS: usize = 10;
