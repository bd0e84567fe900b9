// From rows to figures, or the first bound that breaks.
ghost use Rattle.std.specs.Prelude.{◌≡◌, ◌+◌, ◌≤◌, [], length, IfOk};
ghost use Rattle.fault.specs.Told.{told, refusal};
ghost use Rattle.admission.specs.Admission.{responses, timetabled, padded, no_kind, room_for, weighed, admission, misses_deadline};

use crate::accepted::Accepted;
use crate::bounds::Tasks;
use crate::figures::{Bounds, Figures, Room};
use crate::room::Shared;
use crate::task::{Scheduled, Share, Task};
use fault::{Cause, Fault, Layer};
use table::rows::{KindRow, MAX_KINDS, MAX_PERIOD, MAX_TASKS, NO_KIND};

// The kinds at the front of an array.
fn all_kinds(kinds: &[KindRow]) -> [KindRow; MAX_KINDS]
    requires { length kinds.now ≤ 32 }
    ensures { result ≡ padded 32 no_kind kinds.now }
{
    let mut all = [NO_KIND; MAX_KINDS];
    all[..kinds.len()].copy_from_slice(kinds);
    all
}

impl<'a> Accepted<'a> {
    // A task has no response time: the heap line, the static line and the kinds come before its line.
    fn misses(&self, task: &Task) -> Fault
        requires { task.now.number ≤ 16 }
        ensures { refusal result ≡ misses_deadline (2 + length self.now.kinds.now + task.now.number) }
    {
        let line = 2 + self.kinds.len() as u32 + task.number;
        Fault::in_line(Layer::Admission, Cause::MissesDeadline, line, 0)
    }

    // Each task with its response time; the first that has none is refused.
    fn schedule(&self, tasks: &Tasks) -> Result<[Scheduled; MAX_TASKS], Fault>
        ensures { told result ≡ timetabled (length self.now.kinds.now) tasks.now.list.now (responses [] tasks.now.list.now) }
    {
        let mut scheduled = [Scheduled::default(); MAX_TASKS];
        for (i, task) in tasks.list.iter().enumerate() {
            let response = tasks
                .best(i)
                .settle(task.units, task.deadline)
                .ok_or(self.misses(task))?;
            scheduled[i] = Scheduled {
                task: *task,
                response,
            };
        }
        Ok(scheduled)
    }

    // What the heap has room for beside these tasks, once it is known how late a flip can be.
    fn room_for(&self, tasks: &Tasks<'a>, lateness: u32) -> Shared<'a>
        requires { lateness ≤ 1000000 }
        ensures room { result.room ≡ room_for self.now.heap self.now.statics tasks.now.list.now lateness }
        ensures tasks { result.tasks.list.now ≡ tasks.now.list.now }
    {
        Shared {
            room: Room {
                space: self.heap.space,
                handles: self.heap.handles,
                live_words: tasks.live_bound(Share::Words, self.statics.words),
                live_objects: tasks.live_bound(Share::Objects, self.statics.objects),
                lateness,
            },
            tasks: *tasks,
        }
    }

    // The bounds of the tasks in rank order, or the first that breaks.
    fn weigh(&self, tasks: &Tasks) -> Result<Bounds, Fault>
        ensures value { told result ≡ weighed self.now.heap self.now.statics (length self.now.kinds.now) tasks.now.list.now }
        ensures words { IfOk result (λ b. (b.room.live_words ≤ self.now.heap.space) × (b.room.space ≡ self.now.heap.space)) }
        ensures objects { IfOk result (λ b. (b.room.live_objects ≤ self.now.heap.handles) × (b.room.handles ≡ self.now.heap.handles)) }
    {
        let scheduled = self.schedule(tasks)?;
        let overload = Fault::nowhere(Layer::Admission, Cause::CollectorOverload);
        let lateness = tasks.settle(1, MAX_PERIOD).ok_or(overload)?;
        let shared = self.room_for(tasks, lateness);
        let span = shared.span().ok_or(overload)?;
        if !shared.words_fit(span) {
            return Err(Fault::nowhere(Layer::Admission, Cause::TooFewWords));
        }
        if !shared.handles_fit(span) {
            return Err(Fault::nowhere(Layer::Admission, Cause::TooFewHandles));
        }
        Ok(Bounds {
            tasks: scheduled,
            room: shared.room,
            span,
            period: shared.longest(span),
        })
    }

    // The figures of the table, or the first bound that breaks.
    pub(crate) fn figures(&self) -> Result<Figures, Fault>
        ensures { told result ≡ admission (record { heap = self.now.heap; statics = self.now.statics; kinds = self.now.kinds.now; tasks = self.now.tasks.now }) }
    {
        let ranked = self.rank_tasks();
        let Bounds {
            tasks,
            room,
            span,
            period,
        } = self.weigh(&Tasks { list: &ranked })?;
        Ok(Figures {
            heap: self.heap,
            statics: self.statics,
            kinds: all_kinds(self.kinds),
            kind_count: self.kinds.len() as u32,
            tasks,
            task_count: self.tasks.len() as u32,
            live_words: room.live_words as u32,
            live_objects: room.live_objects as u32,
            steps: room.steps() as u32,
            lateness: room.lateness,
            span,
            period,
        })
    }
}
