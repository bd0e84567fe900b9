// How long work takes beside the tasks, and how much the tasks give birth to.
ghost use Rattle.std.specs.Prelude.{◌≡◌, ℕ, ◌+◌, ◌*◌, ◌<◌, ◌≤◌, length, take, MatchOption};
ghost use Rattle.admission.specs.Demand.{up as lifted, RoundsUp, DoneIn, demand, part_of, Settles, Few, Timed, Numbers};
ghost use Rattle.admission.specs.Admission.{done_in, live};
ghost use Rattle.admission.specs.Search.{least};

use crate::task::{Share, Task};

// The least whole number not below p / q.
pub(crate) fn up(p: u32, q: u32) -> u32
    requires some { 1 ≤ q }
    requires small { (q ≤ 2000000) × (p ≤ 2000000) }
    ensures value { result ≡ lifted p q }
    ensures law { RoundsUp p q result }
    ensures small { result ≤ p }
{
    (p + (q - 1)) / q
}

// One in this many parts of a tick, for shares of the time that are rounded down.
const PARTS: u64 = 1 << 40;

// Tasks of a table, the best rank first.
#[derive(Clone, Copy)]
pub(crate) struct Tasks<'a> {
    pub(crate) list: &'a [Task],
    ghost few: { Few list.now },
    ghost timed: { Timed list.now },
    ghost numbers: { Numbers list.now },
}

impl<'a> Tasks<'a> {
    // The first n of them.
    pub(crate) fn best(&self, n: usize) -> Tasks<'a>
        requires { n ≤ length self.now.list.now }
        ensures { result.list.now ≡ take n self.now.list.now }
    {
        Tasks {
            list: &self.list[..n],
        }
    }

    // Below this no stretch is long enough: each task takes at least units / period of every stretch. None where they take it all.
    fn least_stretch(&self, own: u32) -> Option<u64>
        requires some { 1 ≤ own }
        requires small { own ≤ 1000000 }
        ensures { MatchOption result ((k : ℕ) → DoneIn own self.now.list.now k → ⊥) (λ n. (1 ≤ n) × ((k : ℕ) → DoneIn own self.now.list.now k → n ≤ k)) }
    {
        let taken: u64 = self
            .list
            .iter()
            .map(|t| t.units as u64 * PARTS / t.period as u64)
            .sum();
        if taken >= PARTS {
            return None;
        }
        let left = PARTS - taken;
        Some((own as u64 * PARTS).div_ceil(left))
    }

    // The least stretch of 1 to `bound` ticks in which `own` units and the jobs of these tasks are done. Each turn goes from a stretch that is too
    // short to the one that its jobs ask for, so no stretch is tried twice, and one whose jobs ask for no more than `bound` is left at most
    // bound - r times.
    pub(crate) fn settle(&self, own: u32, bound: u32) -> Option<u32>
        requires some { 1 ≤ own }
        requires small { (own ≤ 1000000) × (bound ≤ 1000000) }
        ensures value { result ≡ least (done_in own self.now.list.now) bound }
        ensures law { Settles own self.now.list.now bound result }
    {
        let mut r = self.least_stretch(own)?;
        let found = 'settle: loop {
            if r > bound as u64 {
                return None;
            }
            let mut demand = own as u64;
            for t in self.list {
                demand += up(r as u32, t.period) as u64 * t.units as u64;
            }
            if demand <= r {
                break 'settle r as u32;
            }
            r = demand;
        };
        Some(found)
    }

    // What the tasks give birth to at most in a stretch of time.
    pub(crate) fn births(&self, share: Share, stretch: u32) -> u64
        requires { stretch ≤ 2000000 }
        ensures value { result ≡ demand (part_of share) stretch self.now.list.now }
        ensures small { result ≤ 16 * 16384000000 }
    {
        self.list
            .iter()
            .map(|t| up(stretch, t.period) as u64 * share.of(t) as u64)
            .sum()
    }

    // What is alive at most beside what is static, by the lives of the tasks.
    pub(crate) fn live_bound(&self, share: Share, statics: u32) -> u64
        requires { statics ≤ 8192 }
        ensures value { result ≡ live share statics self.now.list.now }
        ensures small { result ≤ 300000000000 }
    {
        let living: u64 = self
            .list
            .iter()
            .map(|t| t.life as u64 * share.of(t) as u64)
            .sum();
        statics as u64 + living
    }
}
