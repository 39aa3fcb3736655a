// What a lane does next, and the doing of it: the only code that touches the slots, the locks and the path for a step.
// Uses `rows` and what stands below it.
#![tactic(auto)]

mod acts;
mod doing;

pub use acts::{Turn, path_length, places_of};
pub use doing::LentMemory;
