// One step of a lane, by value: its act, what the act does to the lent slots, locks and path, and where the lane goes.
// Uses `acts`, `moves` and what stands below them.
#![tactic(auto)]

mod steps;

pub use steps::{step_lane, step_task};
