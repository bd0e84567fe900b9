// A bare heap, and how it is prepared.
ghost use Rattle.std.specs.Prelude.{◌≡◌, true, false, MatchResult};
ghost use Rattle.std.specs.List.{list_all};
ghost use Rattle.fault.specs.Told.{refusal};
ghost use Rattle.kinds.specs.Maps.{fits};
ghost use Rattle.heap.specs.Answers.{of_unit, tells, in_heap};
ghost use Rattle.heap.specs.Start.{limits_fit, measures_fit, spare_row, spare_table, bare, fresh, preparing as prepared_by};

use crate::{Cycle, Handle, Heap, Limits, Measures, Table};
use arrayvec::ArrayVec;
use fault::{Cause, Fault, Layer};
use kinds::Kind;
use memory::{Readable, Writable, zero};
use std::array;

impl Limits {
    fn is_legal(self) -> bool
        ensures { result ≡ limits_fit self }
    {
        (1..=8192).contains(&self.space)
            && (1..=256).contains(&self.handles)
            && self.live_words <= self.space
            && self.live_objects <= self.handles
    }
}

fn all_legal(kinds: &[Kind]) -> bool
    ensures { result ≡ list_all fits kinds.now }
{
    kinds.iter().all(|kind| kind.is_legal())
}

impl Measures {
    // Limits and kinds that are within their own limits.
    #[tactic(auto, using(crate::proofs::Begins::fit_each))]
    fn new(limits: Limits, kinds: &[Kind]) -> Result<Measures, Fault>
        ensures { MatchResult result
            (λ m. (measures_fit limits kinds.now ≡ true) × (m.limits ≡ limits) × (m.kinds.items ≡ kinds.now))
            (λ e. (measures_fit limits kinds.now ≡ false) × (refusal e ≡ in_heap 11)) }
    {
        match ArrayVec::try_from(kinds) {
            Ok(kinds) if limits.is_legal() && !kinds.is_empty() && all_legal(&kinds) => {
                Ok(Measures { limits, kinds })
            }
            _ => Err(Fault::nowhere(Layer::Heap, Cause::WrongMeasures)),
        }
    }
}

// A spare handle leads to the next one, up to the last.
fn spare_handle(number: usize, last: u16) -> Handle
    ensures { result ≡ spare_row last number }
{
    let link = if number < last as usize {
        number as u16 + 1
    } else {
        0
    };
    Handle {
        link,
        ..Handle::default()
    }
}

impl Table {
    // The spare chain reads 1, 2, .. up to the last handle.
    fn spare(last: u16) -> Table
        ensures { result ≡ spare_table last }
    {
        Table {
            handles: array::from_fn(|number| spare_handle(number, last)),
            spare: 1,
            marked: 0,
        }
    }
}

impl Heap {
    // A heap that is not prepared.
    pub fn bare() -> Heap
        ensures { result ≡ bare }
    {
        Heap {
            measures: None,
            table: Table {
                handles: [Handle::default(); 257],
                spare: 0,
                marked: 0,
            },
            slots: [0; 192],
            cycle: Cycle::default(),
        }
    }

    // A heap that begins afresh, the first space current.
    fn fresh(measures: Measures) -> Heap
        ensures { result ≡ fresh measures.limits measures.kinds.items }
    {
        let table = Table::spare(measures.limits.handles);
        Heap {
            measures: Some(measures),
            table,
            slots: [0; 192],
            cycle: Cycle::default(),
        }
    }

    // Both spaces become 0, and the heap begins afresh. Measures outside their limits change nothing; where the memory ends too early
    // the heap is bare, and the zeros written so far stand.
    pub fn prepare<M: Writable>(
        &mut self,
        memory: &mut M,
        limits: Limits,
        kinds: &[Kind],
    ) -> Result<(), Fault>
        ensures answer { tells of_unit result ≡ (prepared_by self.old (M.Readable.words memory.old) limits kinds.now).told }
        ensures heap { self.new ≡ (prepared_by self.old (M.Readable.words memory.old) limits kinds.now).heap }
        ensures words { M.Readable.words memory.new ≡ (prepared_by self.old (M.Readable.words memory.old) limits kinds.now).memory }
    {
        let measures = Measures::new(limits, kinds)?;
        *self = Heap::bare();
        zero(memory, 2 * limits.space as usize)?;
        *self = Heap::fresh(measures);
        Ok(())
    }
}
