// One priority queue, smallest first, in a list that the caller lends.
#![tactic(auto)]

mod entries;
mod order;
mod queue;

pub use entries::{Rank, Release, Source};
pub use order::Order;
pub use queue::Queue;
pub use queue::calls::{put_all, take_all};
