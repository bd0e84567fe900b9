// The nine calls. Each is refused for the first reason that the definitions name, and a refused call changes nothing.
ghost use Rattle.std.specs.Prelude.{◌≡◌, ◌<◌, ◌≤◌, true, false, ◌⊎◌, length, MatchOption, MatchResult, ◌==◌, slice_index, slice_index_or, slice_set};
ghost use Rattle.fault.specs.Told.{refusal};
ghost use Rattle.heap.specs.Objects.{no_kind, measures_of, prepared, kind_of, size_in, is_kind, view};
ghost use Rattle.heap.specs.Answers.{ok, num, says, of_unit, of_option, of_answer, tells, in_heap, refusal_at, ruled, judged};
ghost use Rattle.heap.specs.Calls.{on_object, is_tracing, birth_limit, barred, on_reading, on_overwriting, held, spot, with_slot, birth, guarded, taken, kind_held, telling, heap_after, memory_after, calling};
ghost use Rattle.heap.specs.declared.Answer.TheVariants.{Done, Absent, Number, Truth};
ghost use Rattle.heap.specs.declared.Call.TheVariants.{New as calls_new, Copy as calls_copy, Drop as calls_drop, Fetch as calls_fetch, Put as calls_put, Read as calls_read, Write as calls_write, Same as calls_same, Kind as calls_kind};
ghost use Rattle.heap.specs.Laws.{SmallCall};

use crate::{Answer, Call, Course, Heap, Limits, Measures, Phase};
use fault::{Cause, Fault, Layer};
use kinds::Kind;
use memory::{Readable, Writable};

impl Measures {
    // The kind of a number, if there is one.
    pub(crate) fn kind(&self, number: u8) -> Option<Kind>
        ensures { MatchOption result ((is_kind self.now number ≡ false) × (kind_of self.now number ≡ no_kind))
            (λ k. (is_kind self.now number ≡ true) × (k ≡ kind_of self.now number)) }
    {
        let place = number.checked_sub(1)?;
        self.kinds.get(place as usize).copied()
    }
}

impl Heap {
    // All 0 before prepare.
    pub(crate) fn limits(&self) -> Limits
        ensures { result ≡ (measures_of self.now).limits }
    {
        self.measures
            .as_ref()
            .map(|measures| measures.limits)
            .unwrap_or_default()
    }

    // The kind of a number, if there is one; before prepare there is none.
    pub(crate) fn kind_numbered(&self, number: u8) -> Option<Kind>
        ensures { MatchOption result ((is_kind (measures_of self.now) number ≡ false) × (kind_of (measures_of self.now) number ≡ no_kind))
            (λ k. (is_kind (measures_of self.now) number ≡ true) × (k ≡ kind_of (measures_of self.now) number)) }
    {
        self.measures.as_ref()?.kind(number)
    }

    // What a slot of a prepared heap holds.
    fn slot(&self, slot: u8) -> Result<u16, Fault>
        ensures { MatchResult result
            (λ x. (prepared self.now ≡ true) × (slot < 192) × (x ≡ held self.now slot))
            (λ e. ((prepared self.now ≡ false) × (refusal e ≡ in_heap 12))
            ⊎ ((prepared self.now ≡ true) × (192 ≤ slot) × (refusal e ≡ in_heap 13))) }
    {
        if self.measures.is_none() {
            return Err(Fault::nowhere(Layer::Heap, Cause::Unprepared));
        }
        self.slots
            .get(slot as usize)
            .copied()
            .ok_or(Fault::nowhere(Layer::Heap, Cause::NoSuchSlot))
    }

    // A word of an object is wanted, as a reference or as a number.
    #[tactic(auto, unfolding(crate::specs::Calls::on_object))]
    fn want(&self, object: u16, word: u16, reference: bool) -> Result<(), Fault>
        ensures { MatchResult result
            (λ _. on_object (view self.now) object word reference ≡ 0)
            (λ e. (1 < on_object (view self.now) object word reference)
            × (refusal e ≡ in_heap (on_object (view self.now) object word reference))) }
    {
        if object == 0 {
            return Err(Fault::nowhere(Layer::Heap, Cause::EmptySlot));
        }
        let kind = self.kind_of(object);
        if word >= kind.size as u16 {
            return Err(Fault::nowhere(Layer::Heap, Cause::NoSuchWord));
        }
        if kind.refers(word) != reference {
            return Err(Fault::nowhere(Layer::Heap, Cause::WrongSort));
        }
        Ok(())
    }

    // A number word is wanted: its place.
    fn number_word(&self, slot: u8, word: u16) -> Result<usize, Fault>
        ensures { MatchResult result
            (λ p. (barred self.now (calls_read slot word) ≡ 0) × (p ≡ spot self.now slot word))
            (λ e. (1 < barred self.now (calls_read slot word))
            × (refusal e ≡ in_heap (barred self.now (calls_read slot word)))) }
    {
        let object = self.slot(slot)?;
        self.want(object, word, false)?;
        Ok(self.locate(object, word))
    }

    // A reference word is wanted, and another slot: the word's place, and what that slot holds.
    fn reference_word(&self, slot: u8, word: u16, other: u8) -> Result<(usize, u16), Fault>
        ensures { MatchResult result
            (λ p. (barred self.now (calls_fetch slot word other) ≡ 0) × (other < 192)
            × (p.0 ≡ spot self.now slot word) × (p.1 ≡ held self.now other))
            (λ e. (1 < barred self.now (calls_fetch slot word other))
            × (refusal e ≡ in_heap (barred self.now (calls_fetch slot word other)))) }
    {
        let object = self.slot(slot)?;
        let target = self.slot(other)?;
        self.want(object, word, true)?;
        Ok((self.locate(object, word), target))
    }
}

impl Heap {
    // A slot takes what another holds.
    pub fn copy_slot(&mut self, from: u8, to: u8) -> Result<(), Fault>
        ensures answer { tells of_unit result ≡ judged (barred self.old (calls_copy from to)) ok }
        ensures heap { self.new ≡ taken (barred self.old (calls_copy from to)) (with_slot self.old to (held self.old from)) self.old }
    {
        let object = self.slot(from)?;
        self.slot(to)?;
        self.slots[to as usize] = object;
        Ok(())
    }

    // A slot becomes none.
    pub fn drop_slot(&mut self, slot: u8) -> Result<(), Fault>
        ensures answer { tells of_unit result ≡ judged (barred self.old (calls_drop slot)) ok }
        ensures heap { self.new ≡ taken (barred self.old (calls_drop slot)) (with_slot self.old slot 0) self.old }
    {
        self.slot(slot)?;
        self.slots[slot as usize] = 0;
        Ok(())
    }

    // Whether two slots hold one object, or both none.
    pub fn same(&self, one: u8, other: u8) -> Result<bool, Fault>
        ensures { tells says result ≡ judged (barred self.now (calls_same one other)) (says (held self.now one == held self.now other)) }
    {
        let first = self.slot(one)?;
        let second = self.slot(other)?;
        Ok(first == second)
    }

    // The kind of what a slot holds, absent for none.
    pub fn kind(&self, slot: u8) -> Result<Option<u8>, Fault>
        ensures { tells of_option result ≡ judged (barred self.now (calls_kind slot)) (kind_held self.now slot) }
    {
        let object = self.slot(slot)?;
        let kind = self.table.handle(object as usize).kind;
        Ok((object != 0).then_some(kind))
    }

    // The words that may be born between two flips.
    fn birth_limit(&self) -> u16
        ensures value { result ≡ birth_limit self.now }
        ensures small { result ≤ (measures_of self.now).limits.space }
    {
        let limits = self.limits();
        if self.cycle.flipped {
            limits.space.saturating_sub(limits.live_words)
        } else {
            limits.space
        }
    }

    // A slot takes a fresh object of a kind: all its words are 0 already.
    pub fn new_object(&mut self, slot: u8, kind: u8) -> Result<(), Fault>
        ensures answer { tells of_unit result ≡ judged (barred self.old (calls_new slot kind)) ok }
        ensures heap { self.new ≡ taken (barred self.old (calls_new slot kind)) (birth self.old slot kind (size_in (measures_of self.old) kind)) self.old }
    {
        self.slot(slot)?;
        let size = self
            .kind_size(kind)
            .ok_or(Fault::nowhere(Layer::Heap, Cause::NoSuchKind))?;
        let course = self.cycle.course;
        let born = course.born as u32 + size as u32;
        if born > self.birth_limit() as u32 {
            return Err(Fault::nowhere(Layer::Heap, Cause::SpaceFull));
        }
        let number = self.table.spare;
        if number == 0 {
            return Err(Fault::nowhere(Layer::Heap, Cause::NoSpareHandle));
        }
        let top = course.base as u32 + self.limits().space as u32;
        self.table.bear(kind, top - born);
        self.cycle.course = Course {
            born: born as u16,
            ..course
        };
        self.slots[slot as usize] = number;
        Ok(())
    }

    // The number that a word holds.
    pub fn read<R: Readable>(&self, memory: &R, slot: u8, word: u16) -> Result<u32, Fault>
        ensures { tells num result ≡ telling self.now (R.Readable.words memory.now) (calls_read slot word) }
    {
        let place = self.number_word(slot, word)?;
        memory.word(place)
    }

    // A number word takes a value.
    pub fn write<M: Writable>(
        &self,
        memory: &mut M,
        slot: u8,
        word: u16,
        value: u32,
    ) -> Result<(), Fault>
        ensures answer { tells of_unit result ≡ telling self.now (M.Readable.words memory.old) (calls_write slot word value) }
        ensures words { M.Readable.words memory.new ≡ memory_after self.now (M.Readable.words memory.old) (calls_write slot word value) }
    {
        let place = self.number_word(slot, word)?;
        memory.set(place, value)
    }

    // The handle that the reference at a place names.
    #[tactic(auto, unfolding(crate::specs::Calls::on_reading))]
    fn reference_at<R: Readable>(&self, memory: &R, place: usize) -> Result<u16, Fault>
        ensures { MatchResult result
            (λ x. (on_reading self.now.table (R.Readable.words memory.now) place ≡ 0)
            × (place < length (R.Readable.words memory.now)) × (x ≡ slice_index (R.Readable.words memory.now) place))
            (λ e. ((on_reading self.now.table (R.Readable.words memory.now) place == 0) ≡ false)
            × (refusal e ≡ refusal_at (on_reading self.now.table (R.Readable.words memory.now) place) place)) }
    {
        let word = memory.word(place)?;
        self.table.named_by(word)
    }

    // A slot takes what a reference word holds.
    pub fn fetch<R: Readable>(
        &mut self,
        memory: &R,
        slot: u8,
        word: u16,
        to: u8,
    ) -> Result<(), Fault>
        ensures answer { tells of_unit result ≡ telling self.old (R.Readable.words memory.now) (calls_fetch slot word to) }
        ensures heap { self.new ≡ heap_after self.old (R.Readable.words memory.now) (calls_fetch slot word to) }
    {
        let (place, _) = self.reference_word(slot, word, to)?;
        let object = self.reference_at(memory, place)?;
        self.slots[to as usize] = object;
        Ok(())
    }

    // The reference at a place is overwritten. While the collector traces, the handle that stood there is marked if it is old,
    // so that all that was reachable at the flip is traced.
    fn overwrite<M: Writable>(
        &mut self,
        memory: &mut M,
        place: usize,
        object: u16,
    ) -> Result<(), Fault>
        ensures answer { tells of_unit result ≡ ruled (on_overwriting self.old (M.Readable.words memory.old) place) place ok }
        ensures heap { self.new ≡ taken (on_overwriting self.old (M.Readable.words memory.old) place) (guarded self.old (slice_index (M.Readable.words memory.old) place)) self.old }
        ensures words { M.Readable.words memory.new ≡ taken (on_overwriting self.old (M.Readable.words memory.old) place) (slice_set (M.Readable.words memory.old) place object) (M.Readable.words memory.old) }
    {
        if self.cycle.phase != Phase::Tracing {
            return memory.set(place, object as u32);
        }
        let overwritten = self.reference_at(memory, place)?;
        memory.set(place, object as u32)?;
        self.table.mark(overwritten);
        Ok(())
    }

    // A reference word takes what a slot holds.
    pub fn put<M: Writable>(
        &mut self,
        memory: &mut M,
        slot: u8,
        word: u16,
        from: u8,
    ) -> Result<(), Fault>
        ensures answer { tells of_unit result ≡ telling self.old (M.Readable.words memory.old) (calls_put slot word from) }
        ensures heap { self.new ≡ heap_after self.old (M.Readable.words memory.old) (calls_put slot word from) }
        ensures words { M.Readable.words memory.new ≡ memory_after self.old (M.Readable.words memory.old) (calls_put slot word from) }
    {
        let (place, object) = self.reference_word(slot, word, from)?;
        self.overwrite(memory, place, object)
    }
}

// A call that gives nothing is done, one that gives no number answers absent.
impl From<()> for Answer {
    ghost from_gives = { λ _ a. a ≡ Done };

    fn from(_done: ()) -> Answer {
        Answer::Done
    }
}

impl From<u32> for Answer {
    ghost from_gives = { λ n a. a ≡ Number n };

    fn from(number: u32) -> Answer {
        Answer::Number(number)
    }
}

impl From<bool> for Answer {
    ghost from_gives = { λ b a. a ≡ Truth b };

    fn from(truth: bool) -> Answer {
        Answer::Truth(truth)
    }
}

impl From<Option<u8>> for Answer {
    ghost from_gives = { λ o a. MatchOption o (a ≡ Absent) (λ n. a ≡ Number n) };

    fn from(number: Option<u8>) -> Answer {
        match number {
            Some(number) => Answer::Number(number as u32),
            None => Answer::Absent,
        }
    }
}

impl Heap {
    // Any of the nine calls.
    #[tactic(auto, using(crate::proofs::Small::small_call))]
    pub fn call<M: Writable>(&mut self, memory: &mut M, call: Call) -> Result<Answer, Fault>
        ensures answer { tells of_answer result ≡ (calling self.old (M.Readable.words memory.old) call).told }
        ensures heap { self.new ≡ (calling self.old (M.Readable.words memory.old) call).heap }
        ensures words { M.Readable.words memory.new ≡ (calling self.old (M.Readable.words memory.old) call).memory }
        ensures small { SmallCall self.old (M.Readable.words memory.old) call }
    {
        match call {
            Call::New { slot, kind } => self.new_object(slot, kind).map(Answer::from),
            Call::Copy { from, to } => self.copy_slot(from, to).map(Answer::from),
            Call::Drop { slot } => self.drop_slot(slot).map(Answer::from),
            Call::Fetch { slot, word, to } => self.fetch(memory, slot, word, to).map(Answer::from),
            Call::Put { slot, word, from } => self.put(memory, slot, word, from).map(Answer::from),
            Call::Read { slot, word } => self.read(memory, slot, word).map(Answer::from),
            Call::Write { slot, word, value } => self
                .write(memory, slot, word, value)
                .map(Answer::from),
            Call::Same { one, other } => self.same(one, other).map(Answer::from),
            Call::Kind { slot } => self.kind(slot).map(Answer::from),
        }
    }
}
