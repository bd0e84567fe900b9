ghost use Rattle.std.specs.Prelude.{◌≡◌};
ghost use Rattle.admission.specs.Demand.{part_of};

// A task as admission reckons with it: its number in the table, its life worked out, and its consumer, 0 for none.
#[derive(Clone, Copy, PartialEq, Eq, Default, Debug)]
pub struct Task {
    pub number: u32,
    pub period: u32,
    pub deadline: u32,
    pub units: u32,
    pub words: u32,
    pub objects: u32,
    pub life: u32,
    pub consumer: u32,
}

// A task, and the response time of its jobs.
#[derive(Clone, Copy, PartialEq, Eq, Default, Debug)]
pub struct Scheduled {
    pub task: Task,
    pub response: u32,
}

// What a job may allocate: words, or objects.
#[derive(Clone, Copy, PartialEq, Eq, Debug)]
pub enum Share {
    Words,
    Objects,
}

impl Share {
    pub(crate) fn of(self, t: &Task) -> u32
        ensures { result ≡ part_of self t.now }
    {
        match self {
            Share::Words => t.words,
            Share::Objects => t.objects,
        }
    }
}
