// A lane stepped where it lies, behind a reference: the step by value, and the store of its lane.
// Uses `lanes` and what stands below it.
#![tactic(auto)]

ghost use Rattle.machine.specs.Steps.{step_lane};
ghost use Rattle.acts.specs.Lent.{memory_of};
ghost use Rattle.lanes.specs.Fitting.{LaneFits, Steps};
ghost use Rattle.in_place.specs.InPlace.{Left};

use acts::LentMemory;
use lanes::step_lane;
use linear::End;
use machine::{Lane, Moved};

// One step of a lane where it lies.
pub fn step_in_place(m: &mut LentMemory, lane: &mut Lane, byte: u8) -> Option<End>
    requires { LaneFits m.old.z.sizes (memory_of m.old) lane.old }
    ensures { Left result lane.new m.old m.new (step_lane m.old.z.sizes (memory_of m.old) lane.old byte) }
{
    let s = step_lane(m, *lane, byte);
    *lane = s.lane;
    s.answer
}

// The same for a lane by value: a local, lent for the step and read after it.
pub fn step_local(m: &mut LentMemory, lane: Lane, byte: u8) -> Moved
    requires { LaneFits m.old.z.sizes (memory_of m.old) lane }
    ensures { Steps result m.old m.new (step_lane m.old.z.sizes (memory_of m.old) lane byte) }
{
    let mut l = lane;
    let answer = step_in_place(m, &mut l, byte);
    Moved { lane: l, answer }
}
