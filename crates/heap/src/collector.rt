// The collector's steps. Each writes at most one word of memory, and a refused step is not taken.
ghost use Rattle.std.specs.Prelude.{◌≡◌, false, if◌then◌else◌, MatchResult, ◌==◌, slice_index};
ghost use Rattle.fault.specs.Told.{refusal};
ghost use Rattle.kinds.specs.Maps.{refers};
ghost use Rattle.heap.specs.Handles.{mark_all};
ghost use Rattle.heap.specs.Answers.{absent, of_step, tells, refusal_at, judged};
ghost use Rattle.heap.specs.Calls.{with_table, taken};
ghost use Rattle.heap.specs.Steps.{tallied, moved, passed, phase_after, after_flip, on_bounds, taken_up, advanced, source, next_named, on_next, copy_step, swept, clear_step, step};
ghost use Rattle.heap.specs.Laws.{SmallStep};

use crate::{Course, Cycle, Heap, Phase, Report, Table};
use fault::{Cause, Fault, Layer};
use kinds::Kind;
use memory::{Readable, Writable};

impl Report {
    // One step more, with the objects and words taken up so far.
    fn and_step(self, objects: u16, words: u16) -> Report
        ensures { result ≡ tallied self objects words }
    {
        Report {
            steps: self.steps.saturating_add(1),
            objects,
            words,
        }
    }
}

// The value of a word if it is a reference, 0 otherwise.
fn reference_in(kind: Kind, word: u16, value: u32) -> u32
    ensures { result ≡ (if refers kind word then value else 0) }
{
    if kind.refers(word) { value } else { 0 }
}

impl Table {
    // With none marked, sweeping begins.
    fn phase_after(&self) -> Phase
        ensures { result ≡ phase_after self.now }
    {
        if self.marked == 0 {
            Phase::Sweeping(1)
        } else {
            Phase::Tracing
        }
    }
}

impl Heap {
    // A step is taken.
    fn moved(&mut self, phase: Phase, course: Course, objects: u16, words: u16)
        ensures { self.new ≡ moved self.old phase course objects words }
    {
        let tally = self.cycle.tally.and_step(objects, words);
        self.cycle = Cycle {
            phase,
            course,
            tally,
            ..self.cycle
        };
    }

    // A step that takes nothing up.
    fn passed(&mut self, phase: Phase, course: Course)
        ensures { self.new ≡ passed self.old phase course }
    {
        let tally = self.cycle.tally;
        self.moved(phase, course, tally.objects, tally.words);
    }

    // Old handles in slots are marked in slot order.
    fn mark_slots(&mut self)
        ensures { self.new ≡ with_table self.old (mark_all self.old.table self.old.slots) }
    {
        for object in self.slots {
            self.table.mark(object);
        }
    }

    // The flip: the spaces exchange roles, handles in use become old, and those in slots are marked.
    fn flip(&mut self)
        ensures { self.new ≡ after_flip self.old }
    {
        self.table.age();
        self.mark_slots();
        let space = self.limits().space;
        let base = space.saturating_sub(self.cycle.course.base);
        self.cycle = Cycle {
            phase: self.table.phase_after(),
            flipped: true,
            course: Course {
                base,
                ..Course::default()
            },
            tally: Report {
                steps: 1,
                ..Report::default()
            },
        };
    }

    // The last marked handle starts to move, if the declared live bounds allow.
    #[inline]
    fn take_up(&mut self) -> Result<Option<Report>, Fault>
        ensures answer { tells of_step result ≡ judged (on_bounds self.old) absent }
        ensures heap { self.new ≡ taken (on_bounds self.old) (taken_up self.old) self.old }
    {
        let limits = self.limits();
        let tally = self.cycle.tally;
        let object = self.table.marked;
        let words = tally.words as u32 + self.kind_of(object).size as u32;
        if tally.objects >= limits.live_objects || words > limits.live_words as u32 {
            return Err(Fault::nowhere(Layer::Heap, Cause::LiveBoundPassed));
        }
        self.table.take_up();
        let course = Course {
            mover: object,
            done: 0,
            ..self.cycle.course
        };
        self.moved(Phase::Tracing, course, tally.objects + 1, words as u16);
        Ok(None)
    }

    // One more word of the object that moves is copied: after the last its handle names the copy.
    #[inline]
    fn advance(&mut self)
        ensures { self.new ≡ advanced self.old }
    {
        let course = self.cycle.course;
        if course.done as u32 + 1 < self.kind_of(course.mover).size as u32 {
            let course = Course {
                done: course.done + 1,
                ..course
            };
            self.passed(Phase::Tracing, course);
        } else {
            let next = self.table.phase_after();
            let target = course.base as u32 + course.settled as u32;
            self.table.settle(course.mover, target);
            let course = Course {
                settled: self.cycle.tally.words,
                mover: 0,
                done: 0,
                ..course
            };
            self.passed(next, course);
        }
    }

    // The next word of the object that moves, and the handle that it names, 0 for none and for a number.
    #[tactic(auto, unfolding(crate::specs::Steps::on_next))]
    fn next_word<R: Readable>(&self, memory: &R) -> Result<(u32, u16), Fault>
        ensures { MatchResult result
            (λ p. (on_next self.now (R.Readable.words memory.now) ≡ 0)
            × (p.0 ≡ slice_index (R.Readable.words memory.now) (source self.now))
            × (p.1 ≡ next_named self.now (R.Readable.words memory.now)))
            (λ e. ((on_next self.now (R.Readable.words memory.now) == 0) ≡ false)
            × (refusal e ≡ refusal_at (on_next self.now (R.Readable.words memory.now)) (source self.now))) }
    {
        let course = self.cycle.course;
        let place = self.table.handle(course.mover as usize).place;
        let word = memory.word(place as usize + course.done as usize)?;
        let reference = reference_in(self.kind_of(course.mover), course.done, word);
        let named = self.table.named_by(reference)?;
        Ok((word, named))
    }

    // That word is copied, and an old handle that it names is marked.
    fn copy_word<M: Writable>(&mut self, memory: &mut M) -> Result<Option<Report>, Fault>
        ensures answer { tells of_step result ≡ (copy_step self.old (M.Readable.words memory.old)).told }
        ensures heap { self.new ≡ (copy_step self.old (M.Readable.words memory.old)).heap }
        ensures words { M.Readable.words memory.new ≡ (copy_step self.old (M.Readable.words memory.old)).memory }
    {
        let (word, named) = self.next_word(memory)?;
        let course = self.cycle.course;
        let place = course.base as usize + course.settled as usize + course.done as usize;
        memory.set(place, word)?;
        self.table.mark(named);
        self.advance();
        Ok(None)
    }

    // One handle is swept.
    fn sweep(&mut self, number: u16)
        ensures { self.new ≡ swept self.old number }
    {
        self.table.sweep(number);
        let next = if number < self.limits().handles {
            Phase::Sweeping(number + 1)
        } else {
            Phase::Clearing(0)
        };
        self.passed(next, self.cycle.course);
    }

    // One word of the other space becomes 0; the last answers for the collection.
    fn clear_word<M: Writable>(
        &mut self,
        memory: &mut M,
        word: u16,
    ) -> Result<Option<Report>, Fault>
        ensures answer { tells of_step result ≡ (clear_step self.old (M.Readable.words memory.old) word).told }
        ensures heap { self.new ≡ (clear_step self.old (M.Readable.words memory.old) word).heap }
        ensures words { M.Readable.words memory.new ≡ (clear_step self.old (M.Readable.words memory.old) word).memory }
    {
        let space = self.limits().space;
        let course = self.cycle.course;
        let other = space.saturating_sub(course.base);
        memory.set(other as usize + word as usize, 0)?;
        if word as u32 + 1 < space as u32 {
            self.passed(Phase::Clearing(word + 1), course);
            return Ok(None);
        }
        self.passed(Phase::Idle, course);
        Ok(Some(self.cycle.tally))
    }

    // One step of the collector, by its phase, the object that moves and the chain of marked handles. The last step of a collection
    // answers its steps, objects and words; any other answers absent.
    #[tactic(auto, using(crate::proofs::Small::small_step))]
    pub fn step<M: Writable>(&mut self, memory: &mut M) -> Result<Option<Report>, Fault>
        ensures answer { tells of_step result ≡ (step self.old (M.Readable.words memory.old)).told }
        ensures heap { self.new ≡ (step self.old (M.Readable.words memory.old)).heap }
        ensures words { M.Readable.words memory.new ≡ (step self.old (M.Readable.words memory.old)).memory }
        ensures small { SmallStep self.old (M.Readable.words memory.old) }
    {
        if self.measures.is_none() {
            return Err(Fault::nowhere(Layer::Heap, Cause::Unprepared));
        }
        match (self.cycle.phase, self.cycle.course.mover, self.table.marked) {
            (Phase::Idle, _, _) => {
                self.flip();
                Ok(None)
            }
            (Phase::Tracing, 0, 0) => {
                self.sweep(1);
                Ok(None)
            }
            (Phase::Tracing, 0, _) => self.take_up(),
            (Phase::Tracing, _, _) => self.copy_word(memory),
            (Phase::Sweeping(number), _, _) => {
                self.sweep(number);
                Ok(None)
            }
            (Phase::Clearing(word), _, _) => self.clear_word(memory, word),
        }
    }
}
