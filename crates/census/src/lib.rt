// The census: how many objects the slots lead to, and how many words these have. It reads a heap and a memory, and changes neither.
#![tactic(auto)]

ghost use Rattle.std.specs.Prelude.{◌≡◌, ◌<◌, true, ◌≢◌, length, MatchResult};
ghost use Rattle.fault.specs.Told.{told};
ghost use Rattle.census.specs.Counts.{Reachable, LedAstray, Tells};
ghost use Rattle.census.specs.Finds.{named, is_seen, found, nothing, noted, Tidy, Sound, GoesOn, Rooted, Followed, Closed};

use arrayvec::ArrayVec;
use fault::{Cause, Fault, Layer, Place};
use heap::Heap;
use memory::Readable;

#[derive(Clone, Copy, PartialEq, Eq, Debug)]
pub struct Count {
    pub objects: u16,
    pub words: u32,
}

// The handles found so far, each once, in the order in which they were found; and how many words their objects have.
#[derive(Drop)]
struct Finds {
    list: ArrayVec<u16, 257>,
    seen: [bool; 257],
    words: u32,
}

impl Finds {
    fn new() -> Finds
        ensures { result ≡ nothing }
    {
        Finds {
            list: ArrayVec::new(),
            seen: [false; 257],
            words: 0,
        }
    }

    // A handle is found, with an object of so many words.
    fn note(&mut self, number: u16, size: u8)
        requires below { number < 257 }
        requires tidy { Tidy self.old }
        ensures { self.new ≡ noted self.old number size }
    {
        if number != 0 && !self.seen[number as usize] {
            self.list.push(number);
            self.seen[number as usize] = true;
            self.words += size as u32;
        }
    }
}

// A search through a heap over its memory, and what it has found.
#[derive(Drop)]
struct Walk<'a, R> {
    heap: &'a Heap,
    memory: &'a R,
    finds: Finds,
}

impl<'a, R: Readable> Walk<'a, R> {
    // The handle that a word of an object names, 0 for none and for a number word. A word past the end of the memory is 0.
    fn named_by(&self, object: u16, word: u16) -> u32
        ensures { result ≡ named self.now.heap.now (R.Readable.words self.now.memory.now) object word }
    {
        if self.heap.kind_of(object).refers(word) {
            let place = self.heap.locate(object, word);
            self.memory.word(place).unwrap_or(0)
        } else {
            0
        }
    }

    // A number that a slot or a reference word holds is found, unless it is none.
    fn visit(&mut self, number: u32) -> Result<(), Fault>
        requires sound { Sound self.old.heap.now (R.Readable.words self.old.memory.now) self.old.finds }
        requires reached { number ≢ 0 → Reachable self.old.heap.now (R.Readable.words self.old.memory.now) number }
        ensures over { (self.new.heap ≡ self.old.heap) × (self.new.memory ≡ self.old.memory) }
        ensures finds { let h = self.old.heap.now in let m = R.Readable.words self.old.memory.now in
            MatchResult result
            (λ _. GoesOn h m self.old.finds self.new.finds × (number ≢ 0 → is_seen self.new.finds number ≡ true))
            (LedAstray h m) }
    {
        if number != 0 && !self.heap.in_use(number) {
            return Err(Fault::nowhere(Layer::Census, Cause::StrayReference));
        }
        let object = number as u16;
        let size = self.heap.kind_of(object).size;
        self.finds.note(object, size);
        Ok(())
    }

    // What the slots hold is found.
    fn note_slots(&mut self) -> Result<(), Fault>
        requires { Sound self.old.heap.now (R.Readable.words self.old.memory.now) self.old.finds }
        ensures over { (self.new.heap ≡ self.old.heap) × (self.new.memory ≡ self.old.memory) }
        ensures finds { let h = self.old.heap.now in let m = R.Readable.words self.old.memory.now in
            MatchResult result
            (λ _. GoesOn h m self.old.finds self.new.finds × Rooted h self.new.finds (length h.slots))
            (LedAstray h m) }
    {
        for held in self.heap.slots() {
            self.visit(*held as u32)?;
        }
        Ok(())
    }

    // What the reference words of an object name is found.
    fn follow(&mut self, object: u16) -> Result<(), Fault>
        requires sound { Sound self.old.heap.now (R.Readable.words self.old.memory.now) self.old.finds }
        requires here { Reachable self.old.heap.now (R.Readable.words self.old.memory.now) object }
        ensures over { (self.new.heap ≡ self.old.heap) × (self.new.memory ≡ self.old.memory) }
        ensures finds { let h = self.old.heap.now in let m = R.Readable.words self.old.memory.now in
            MatchResult result
            (λ _. GoesOn h m self.old.finds self.new.finds × Followed h m self.new.finds object)
            (LedAstray h m) }
    {
        let kind = self.heap.kind_of(object);
        let mut from = 0;
        for _met in 0..kind.references() {
            let word = kind.next_reference(from);
            self.visit(self.named_by(object, word))?;
            from = word + 1;
        }
        Ok(())
    }

    // Everything that what is found leads to is found.
    fn trace(&mut self) -> Result<(), Fault>
        requires { Sound self.old.heap.now (R.Readable.words self.old.memory.now) self.old.finds }
        ensures over { (self.new.heap ≡ self.old.heap) × (self.new.memory ≡ self.old.memory) }
        ensures finds { let h = self.old.heap.now in let m = R.Readable.words self.old.memory.now in
            MatchResult result
            (λ _. GoesOn h m self.old.finds self.new.finds × Closed h m self.new.finds (length (found self.new.finds)))
            (LedAstray h m) }
    {
        let mut next = 0;
        while let Some(object) = self.finds.list.get(next).copied() {
            self.follow(object)?;
            next += 1;
        }
        Ok(())
    }
}

// How many objects are reachable from the slots, and how many words they have.
pub fn census<R: Readable>(heap: &Heap, memory: &R) -> Result<Count, Fault>
    ensures { Tells heap.now (R.Readable.words memory.now) (told result) }
{
    let extent = heap
        .extent()
        .ok_or(Fault::nowhere(Layer::Census, Cause::Unprepared))?;
    let length = memory.len();
    if length < extent {
        return Err(Fault {
            cause: Cause::PastEnd,
            layer: Layer::Census,
            place: Place::Word(length),
        });
    }
    let mut walk = Walk {
        heap,
        memory,
        finds: Finds::new(),
    };
    walk.note_slots()?;
    walk.trace()?;
    Ok(Count {
        objects: walk.finds.list.len() as u16,
        words: walk.finds.words,
    })
}
