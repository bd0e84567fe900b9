// The heap's bounds, and the longest period that keeps them.
ghost use Rattle.std.specs.Prelude.{◌≡◌, ◌≤◌, true};
ghost use Rattle.admission.specs.Admission.{words_fit, handles_fit, fits, steps_of, done_in};
ghost use Rattle.admission.specs.Demand.{Settles};
ghost use Rattle.admission.specs.Search.{least, largest};

use crate::bounds::Tasks;
use crate::figures::Room;
use crate::task::Share;
use table::rows::MAX_PERIOD;

// What the heap has room for, and the tasks that share it.
#[derive(Clone, Copy)]
pub(crate) struct Shared<'a> {
    pub(crate) room: Room,
    pub(crate) tasks: Tasks<'a>,
    ghost words: { room.live_words ≤ 300000000000 },
    ghost objects: { room.live_objects ≤ 300000000000 },
    ghost late: { room.lateness ≤ 1000000 },
}

impl Room {
    // The steps of a collection at most: a flip, an object taken up, a word copied, a handle swept, a word cleared.
    pub(crate) fn steps(&self) -> u64
        requires { (self.now.live_words ≤ 300000000000) × (self.now.live_objects ≤ 300000000000) }
        ensures { result ≡ steps_of self.now }
    {
        1 + self.live_objects + self.live_words + self.handles as u64 + self.space as u64
    }
}

impl<'a> Shared<'a> {
    pub(crate) fn words_fit(&self, period: u32) -> bool
        requires { period ≤ 1000000 }
        ensures { result ≡ words_fit self.now.room self.now.tasks.list.now period }
    {
        let room = self.room;
        let born = self.tasks.births(Share::Words, period + room.lateness);
        room.live_words + born <= room.space as u64
    }

    pub(crate) fn handles_fit(&self, period: u32) -> bool
        requires { period ≤ 1000000 }
        ensures { result ≡ handles_fit self.now.room self.now.tasks.list.now period }
    {
        let room = self.room;
        let born = self.tasks.births(Share::Objects, period + room.lateness);
        room.live_objects + 2 * born <= room.handles as u64
    }

    pub(crate) fn fits(&self, period: u32) -> bool
        requires { period ≤ 1000000 }
        ensures { result ≡ fits self.now.room self.now.tasks.list.now period }
    {
        self.words_fit(period) && self.handles_fit(period)
    }

    // The least stretch that holds a whole collection beside the tasks.
    pub(crate) fn span(&self) -> Option<u32>
        ensures value { result ≡ least (done_in (steps_of self.now.room) self.now.tasks.list.now) 1000000 }
        ensures law { Settles (steps_of self.now.room) self.now.tasks.list.now 1000000 result }
    {
        let steps = self.room.steps();
        if steps > MAX_PERIOD as u64 {
            return None;
        }
        self.tasks.settle(steps as u32, MAX_PERIOD)
    }

    // The longest period from a least one, which keeps the bounds, by bisection: what is born rises with the period. At most 20 turns.
    pub(crate) fn longest(&self, least: u32) -> u32
        requires small { least ≤ 1000000 }
        requires holds { fits self.now.room self.now.tasks.list.now least ≡ true }
        ensures value { result ≡ largest (fits self.now.room self.now.tasks.list.now) least 1000000 }
        ensures bound { result ≤ 1000000 }
    {
        let mut good = least;
        let mut bad = MAX_PERIOD + 1;
        while bad - good > 1 {
            let middle = good + (bad - good) / 2;
            if self.fits(middle) {
                good = middle;
            } else {
                bad = middle;
            }
        }
        good
    }
}
