// The handle table and its moves. A number past the table reads as a spare handle, and a change there changes nothing.
ghost use Rattle.std.specs.Prelude.{◌≡◌, ◌<◌, ◌≤◌, true, false, if◌then◌else◌, length, MatchOption, MatchResult, slice_index_or};
ghost use Rattle.std.specs.Borrow.{sem};
ghost use Rattle.fault.specs.Told.{refusal};
ghost use Rattle.heap.specs.Lending.{LendsHandle};
ghost use Rattle.heap.specs.Handles.{is_spare, is_old, blank, row, state_of, with_row, stray, linked, named, mark, pop_marked, settle, sweep, pop_spare, age, aged};
ghost use Rattle.heap.specs.Answers.{in_heap};

use crate::{Handle, State, Table};
use fault::{Cause, Fault, Layer};

impl Handle {
    // A link and a state are taken.
    fn link_as(&mut self, link: u16, state: State)
        ensures { self.new ≡ linked self.old link state }
    {
        self.link = link;
        self.state = state;
    }

    // An object that stands in the current space is named.
    fn name_object(&mut self, kind: u8, place: u32)
        ensures { self.new ≡ named self.old kind place }
    {
        self.kind = kind;
        self.place = place;
        self.state = State::New;
    }

    // A handle in use becomes old.
    fn grow_old(&mut self)
        ensures { self.new ≡ age self.old }
    {
        if self.state != State::Spare {
            self.state = State::Old;
        }
    }
}

// The handle of a number, lent, if there is one.
fn lent(handles: &mut [Handle], number: u16) -> Option<&mut Handle>
    ensures here { MatchOption result (length handles.old ≤ number)
        (λ r. (number < length handles.old) × (r.now ≡ slice_index_or handles.old number blank)) }
    ensures* writes_back { sem 𝓛 (LendsHandle handles.entry number result) }
{
    let number = number as usize;
    if number >= handles.len() {
        return None;
    }
    Some(&mut handles[number])
}

impl Table {
    // The handle of a number.
    pub(crate) fn handle(&self, number: usize) -> Handle
        ensures value { result ≡ row self.now number }
        ensures past { 257 ≤ number → result ≡ blank }
    {
        self.handles.get(number).copied().unwrap_or_default()
    }

    // Whether it is spare.
    pub(crate) fn is_spare(&self, number: usize) -> bool
        ensures value { result ≡ is_spare (state_of self.now number) }
        ensures past { 257 ≤ number → result ≡ true }
    {
        self.handles
            .get(number)
            .is_none_or(|handle| handle.state == State::Spare)
    }

    // The handle that a reference word names: 0 for none, or one in use.
    pub(crate) fn named_by(&self, word: u32) -> Result<u16, Fault>
        ensures { MatchResult result
            (λ x. (stray self.now word ≡ false) × (x ≡ word))
            (λ e. (stray self.now word ≡ true) × (refusal e ≡ in_heap 20)) }
    {
        if word != 0 && self.is_spare(word as usize) {
            return Err(Fault::nowhere(Layer::Heap, Cause::StrayReference));
        }
        Ok(word as u16)
    }

    // An old handle goes onto a chain, by its first handle and the state of those on it: the first one then.
    fn chain_old(&mut self, number: u16, first: u16, state: State) -> u16
        ensures table { self.new ≡ (if is_old (state_of self.old number) then with_row self.old number (linked (row self.old number) first state) self.old.spare self.old.marked else self.old) }
        ensures first { result ≡ (if is_old (state_of self.old number) then number else first) }
    {
        match lent(&mut self.handles, number) {
            Some(handle) if handle.state == State::Old => {
                handle.link_as(first, state);
                number
            }
            _ => first,
        }
    }

    // An old handle goes onto the marked chain.
    pub(crate) fn mark(&mut self, number: u16)
        ensures { self.new ≡ mark self.old number }
    {
        self.marked = self.chain_old(number, self.marked, State::Marked);
    }

    // An old handle goes onto the spare chain.
    pub(crate) fn sweep(&mut self, number: u16)
        ensures { self.new ≡ sweep self.old number }
    {
        self.spare = self.chain_old(number, self.spare, State::Spare);
    }

    // The last marked handle leaves its chain and starts to move.
    pub(crate) fn take_up(&mut self)
        ensures { self.new ≡ pop_marked self.old }
    {
        let number = self.marked;
        let next = self.handle(number as usize).link;
        if let Some(handle) = lent(&mut self.handles, number) {
            handle.link_as(next, State::Moving);
        }
        self.marked = next;
    }

    // The handle given back last leaves the spare chain and takes a kind and a place.
    pub(crate) fn bear(&mut self, kind: u8, place: u32)
        ensures { self.new ≡ pop_spare self.old kind place }
    {
        let number = self.spare;
        let next = self.handle(number as usize).link;
        if let Some(handle) = lent(&mut self.handles, number) {
            handle.name_object(kind, place);
        }
        self.spare = next;
    }

    // The handle names its copy.
    pub(crate) fn settle(&mut self, number: u16, place: u32)
        ensures { self.new ≡ settle self.old number place }
    {
        if let Some(handle) = lent(&mut self.handles, number) {
            handle.name_object(handle.kind, place);
        }
    }

    // Every handle in use becomes old, and none is marked.
    pub(crate) fn age(&mut self)
        ensures { self.new ≡ aged self.old }
    {
        for handle in self.handles.iter_mut() {
            handle.grow_old();
        }
        self.marked = 0;
    }
}
