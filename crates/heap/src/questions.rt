// What a heap tells of itself.
ghost use Rattle.std.specs.Prelude.{◌≡◌, ◌≤◌, false};
ghost use Rattle.heap.specs.Handles.{row};
ghost use Rattle.heap.specs.Objects.{kind_of, loc, measures_of};
ghost use Rattle.heap.specs.Answers.{of_option};
ghost use Rattle.heap.specs.Room.{spares_to, spare_handles, free_words, is_idle, kind_size, extent as extent_of, in_use};

use crate::{Heap, Phase, Table};
use kinds::Kind;

impl Table {
    // How many of the handles from 1 to the last are spare.
    fn spares(&self, last: u16) -> u16
        ensures { result ≡ spares_to self.now last }
    {
        let mut spares = 0;
        for i in 0..last {
            if self.is_spare(i as usize + 1) {
                spares += 1;
            }
        }
        spares
    }
}

impl Heap {
    // How many handles are spare.
    pub fn spare_handles(&self) -> u16
        ensures { result ≡ spare_handles self.now }
    {
        self.table.spares(self.limits().handles)
    }

    // How many words of the current space are neither born nor copied since the flip.
    pub fn free_words(&self) -> u16
        ensures { result ≡ free_words self.now }
    {
        let course = self.cycle.course;
        let used = course.born as u32 + course.settled as u32 + course.done as u32;
        (self.limits().space as u32).saturating_sub(used) as u16
    }

    // Whether no collection is under way.
    pub fn is_idle(&self) -> bool
        ensures { result ≡ is_idle self.now.cycle.phase }
    {
        self.cycle.phase == Phase::Idle
    }

    // How many words an object of a kind has; absent where there is no such kind.
    pub fn kind_size(&self, kind: u8) -> Option<u8>
        ensures { of_option result ≡ kind_size self.now kind }
    {
        self.kind_numbered(kind).map(|kind| kind.size)
    }

    // The words of memory that the two spaces take; absent before prepare.
    pub fn extent(&self) -> Option<usize>
        ensures { of_option result ≡ extent_of self.now }
    {
        self.measures
            .as_ref()
            .map(|measures| 2 * measures.limits.space as usize)
    }

    // What the slots hold, 0 for none.
    pub fn slots(&self) -> &[u16]
        ensures { result.now ≡ self.now.slots }
    {
        &self.slots
    }

    // Whether a number is that of a handle in use.
    pub fn in_use(&self, number: u32) -> bool
        ensures value { result ≡ in_use self.now number }
        ensures past { 257 ≤ number → result ≡ false }
    {
        !self.table.is_spare(number as usize)
    }

    // The kind of a handle's object.
    pub fn kind_of(&self, object: u16) -> Kind
        ensures { result ≡ kind_of (measures_of self.now) (row self.now.table object).kind }
    {
        let kind = self.table.handle(object as usize).kind;
        self.kind_numbered(kind).unwrap_or_default()
    }

    // Where a word of a handle's object is: of the object that moves, words already copied are in the copy.
    pub fn locate(&self, object: u16, word: u16) -> usize
        ensures { result ≡ loc self.now.table self.now.cycle.course object word }
    {
        let course = self.cycle.course;
        if object == course.mover && word < course.done {
            course.base as usize + course.settled as usize + word as usize
        } else {
            self.table.handle(object as usize).place as usize + word as usize
        }
    }
}
