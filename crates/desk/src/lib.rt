// The desk: opening, start and step over lent memory of any length, each with its refusals in order, and the same start and step
// of a table that stands by its type. Uses `standing`, `lanes`, `records`, `kept` and what stands below them.
#![tactic(auto)]

mod lent;
mod opening;
mod starting;
mod stepping;
mod table;

pub use opening::open;
pub use starting::start;
pub use stepping::step;
pub use table::Standing;
