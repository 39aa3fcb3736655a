// Where a lane goes after its act: the stage that follows, or the end and its answer. `advance` goes by the stage; below it stands one
// small function for each way. Uses `acts`, `rows`, `machine` and what stands below them.
#![tactic(auto)]

mod by_stage;
mod going;
mod next;

pub use by_stage::advance;
