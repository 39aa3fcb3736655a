// A table that stands, by its type: what a start and a step of a lane leave of it stands again.
ghost use Rattle.std.specs.Prelude.{◌≡◌};
ghost use Rattle.machine.specs.Steps.{step_task};
ghost use Rattle.acts.specs.Fitting.{memory};
ghost use Rattle.lanes.specs.Fitting.{StepFits};
ghost use Rattle.kept.specs.Runs.{Stood};
ghost use Rattle.standing.specs.Tables.{table};

use super::starting::start_lane;
use acts::LentMemory;
use lanes::step_task;
use linear::{End, Request};
use machine::{Lane, Moved, Refusal, Task};
use places::Layout;
use records::{lane_at, set_lane};

// A table that stands: no start or step refuses it with 1, 2 or 9.
#[derive(Drop)]
pub struct Standing<'a> {
    pub z: Layout,
    pub slots: &'a mut [u32],
    pub locks: &'a mut [u32],
    pub lanes: &'a mut [u32],
    pub path: &'a mut [u32],
    ghost stood: { Stood z.sizes (table slots.now locks.now lanes.now path.now) },
}

// The step of a lane that has that task, over the lists that it may change.
fn move_lane(
    z: Layout,
    slots: &mut [u32],
    locks: &mut [u32],
    path: &mut [u32],
    task: Task,
    byte: u8,
) -> Moved
    requires { StepFits z.sizes (memory slots.old locks.old path.old) task }
    ensures { record { memory = memory slots.new locks.new path.new; lane = result.lane; answer = result.answer } ≡ step_task z.sizes (memory slots.old locks.old path.old) task byte }
{
    let mut memory = LentMemory {
        z,
        slots,
        locks,
        path,
    };
    step_task(&mut memory, task, byte)
}

impl Standing<'_> {
    ghost use Rattle.machine.specs.Desk.{called, start_of, step_of};
    ghost use Rattle.desk.specs.Lent.{lent_table, SameLists};

    // A start of a lane: refusals 6, 7 and 10, in that order.
    pub fn start(&mut self, j: u32, request: Request) -> Result<(), Refusal>
        ensures call { called result (lent_table self.new) ≡ start_of self.old.z.sizes (lent_table self.old) j request }
        ensures same { SameLists self.new self.old }
    {
        start_lane(self.z, self.lanes, j, request)
    }

    // A step of a lane: refusals 6 and 8, in that order.
    pub fn step(&mut self, j: u32, byte: u8) -> Result<Option<End>, Refusal>
        ensures call { called result (lent_table self.new) ≡ step_of self.old.z.sizes (lent_table self.old) j byte }
        ensures same { SameLists self.new self.old }
    {
        let (slots, locks) = (&mut *self.slots, &mut *self.locks);
        let (lanes, path) = (&mut *self.lanes, &mut *self.path);
        if self.z.sizes.lanes <= j {
            return Err(Refusal::NoLane);
        }
        match lane_at(lanes, j as usize) {
            Lane::Idle => Err(Refusal::Idle),
            Lane::Busy(task) => {
                let moved = move_lane(self.z, slots, locks, path, task, byte);
                set_lane(lanes, j as usize, moved.lane);
                Ok(moved.answer)
            }
        }
    }
}
