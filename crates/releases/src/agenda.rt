ghost use Rattle.std.specs.Prelude.{◌≡◌, ℕ, ◌+◌, ◌<◌, ◌≤◌, length, MatchOption};
ghost use Rattle.std.specs.List.{AllByRecursion};
ghost use Rattle.queue.specs.Lists.{held};
ghost use Rattle.queue.specs.Lent.{lent};
ghost use Rattle.queue.specs.Entries.{sooner};
ghost use Rattle.queue.specs.Orders.{inserted};
ghost use Rattle.admission.specs.Sound.{task};
ghost use Rattle.releases.specs.Releases.{Listed, Firsts, Advanced, next, nth, source_at, period_at};

use admission::{Figures, Task};
use queue::{Queue, Release, Source};

// Room for the next release of each task and of the collector.
pub(crate) const SOURCES: usize = 17;

// The next release of each source: the tasks in order, and last the collector.
#[derive(Drop)]
pub(crate) struct Agenda<'a> {
    figures: &'a Figures,
    queue: Queue<'a, Release>,
    ghost listed: { Listed figures.now },
    ghost room: { length (lent queue).entries ≡ 17 },
}

impl<'a> Agenda<'a> {
    // The task of this rank; the collector's is one past the tasks.
    fn task(&self, rank: u8) -> Option<Task>
        ensures { MatchOption result (self.now.figures.now.task_count ≤ rank) (λ t. (rank < self.now.figures.now.task_count) × (t ≡ task self.now.figures.now rank)) }
    {
        let figures = self.figures;
        figures.tasks[..figures.task_count as usize]
            .get(rank as usize)
            .map(|scheduled| scheduled.task)
    }

    // Whoever has this rank.
    fn source(&self, rank: u8) -> Source
        ensures { result ≡ source_at self.now.figures.now rank }
    {
        self.task(rank)
            .map_or(Source::Collector, |task| Source::Task(task.number as u8))
    }

    // The time from one release to the next of whoever has this rank.
    fn period(&self, rank: u8) -> u32
        ensures { result ≡ period_at self.now.figures.now rank }
    {
        self.task(rank)
            .map_or(self.figures.period, |task| task.period)
    }

    // The release after this one, of the same source.
    fn after(&self, release: Release) -> Release
        requires { release.tick ≤ 8000000 }
        ensures { result ≡ next self.now.figures.now release }
    {
        Release {
            tick: release.tick + self.period(release.rank) as u64,
            ..release
        }
    }

    // The first release of whoever has this rank waits.
    fn put_first(&mut self, rank: u8)
        requires { (lent self.old.queue).len < 17 }
        ensures figures { self.new.figures.now ≡ self.old.figures.now }
        ensures len { (lent self.new.queue).len ≡ (lent self.old.queue).len + 1 }
        ensures waits { held (lent self.new.queue) ≡ inserted sooner (nth self.old.figures.now rank 0) (held (lent self.old.queue)) }
    {
        let source = self.source(rank);
        let _ = self.queue.put(Release {
            tick: 0,
            rank,
            source,
        });
    }

    // The first release of each source waits.
    pub(crate) fn new(figures: &'a Figures, room: &'a mut [Release; SOURCES]) -> Agenda<'a>
        requires { Listed figures.now }
        ensures figures { result.figures.now ≡ figures.now }
        ensures len { (lent result.queue).len ≡ figures.now.task_count + 1 }
        ensures firsts { Firsts figures.now (figures.now.task_count + 1) (held (lent result.queue)) }
    {
        let mut agenda = Agenda {
            figures,
            queue: Queue::new(room),
        };
        for rank in 0..=figures.task_count as u8 {
            agenda.put_first(rank);
        }
        agenda
    }

    // Takes the next release, and puts the one after it.
    pub(crate) fn advance(&mut self) -> Option<Release>
        requires { AllByRecursion (λ y. (y.rank ≤ self.old.figures.now.task_count) × (y.tick ≤ 8000000)) (held (lent self.old.queue)) }
        ensures figures { self.new.figures.now ≡ self.old.figures.now }
        ensures len { (lent self.new.queue).len ≡ (lent self.old.queue).len }
        ensures step { MatchOption result ((lent self.old.queue).len ≡ 0) (λ r. Advanced self.old.figures.now (held (lent self.old.queue)) r (held (lent self.new.queue))) }
    {
        let release = self.queue.take()?;
        let after = self.after(release);
        let _ = self.queue.put(after);
        Some(release)
    }
}
