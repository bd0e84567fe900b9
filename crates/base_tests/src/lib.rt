// Examples at the edges of faults, memories and the queue.
#![tactic(auto)]

#[cfg(test)]
mod faults;
#[cfg(test)]
mod memories;
#[cfg(test)]
mod queues;
