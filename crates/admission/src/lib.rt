// From the rows of a table to the longest period of the collector, or the bound that breaks.
#![tactic(auto)]

mod accepted;
mod bounds;
mod figures;
mod plan;
mod ranks;
mod room;
mod task;
mod work;

pub use figures::Figures;
pub use plan::Plan;
pub use plan::makes::admit;
pub use task::{Scheduled, Task};
