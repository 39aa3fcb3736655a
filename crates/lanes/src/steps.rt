// One step of a lane: its act, what the act does to the lent memory, and where the lane goes.
ghost use Rattle.std.specs.Prelude.{◌≡◌, ◌*◌, ◌≤◌, length};
ghost use Rattle.paths.specs.Path.{place_numbers, last_of};
ghost use Rattle.machine.specs.Steps.{step_task, step_lane};
ghost use Rattle.machine.specs.Stages.{path_length};
ghost use Rattle.acts.specs.Lent.{memory_of};
ghost use Rattle.lanes.specs.Fitting.{StepFits, LaneFits, Steps};

use acts::{LentMemory, Turn, path_length};
use machine::{Lane, Moved, Stage, Task};
use moves::advance;
use paths::{Place, last_of};

// The last place on the path of a lane at that stage.
fn last_on(m: &LentMemory, stage: Stage) -> Place
    requires { path_length stage * place_numbers ≤ length m.now.path.now }
    ensures { result ≡ last_of m.now.path.now (path_length stage) }
{
    last_of(m.path, path_length(stage))
}

// The step of a lane that has that task.
#[tactic(auto, unfolding(machine::specs::Steps::step_task))]
pub fn step_task(m: &mut LentMemory, task: Task, byte: u8) -> Moved
    requires { StepFits m.old.z.sizes (memory_of m.old) task }
    ensures { Steps result m.old m.new (step_task m.old.z.sizes (memory_of m.old) task byte) }
{
    let last = last_on(m, task.stage);
    let turn = Turn { z: m.z, task, last };
    let seen = m.perform(turn.act(), byte);
    advance(turn, seen)
}

// The step of a lane: an idle one stays so.
pub fn step_lane(m: &mut LentMemory, lane: Lane, byte: u8) -> Moved
    requires { LaneFits m.old.z.sizes (memory_of m.old) lane }
    ensures { Steps result m.old m.new (step_lane m.old.z.sizes (memory_of m.old) lane byte) }
{
    match lane {
        Lane::Idle => Moved { lane, answer: None },
        Lane::Busy(task) => step_task(m, task, byte),
    }
}
