// What a lane by itself owes the standing check: its part in the locks, and what it claims of the slots.
// Uses `rows` and what stands below it.
#![tactic(auto)]

mod held;
mod known;
mod shares;

ghost use Rattle.std.specs.Prelude.{◌≡◌};
ghost use Rattle.machine.specs.Stages.{grip_of, claims_of, claim_key};

use held::three_parts;
use known::no_claims;
use locks::Part;
use machine::{Claims, Grip, Lane, Task};
use paths::Place;
use places::Layout;
pub use shares::{Shares, shares_of};

// A lane in a table, and the last place on its path.
#[derive(Clone, Copy)]
pub struct Seat {
    pub z: Layout,
    pub lane: Lane,
    pub last: Place,
}

// The same of a lane that has a task.
#[derive(Clone, Copy)]
struct TaskSeat {
    z: Layout,
    task: Task,
    last: Place,
}

impl Seat {
    // The lane's part in the locks.
    pub fn grip(self) -> Grip
        ensures { result ≡ grip_of self.z.sizes self.lane self.last }
    {
        let Seat { z, lane, last } = self;
        match lane {
            Lane::Idle => three_parts(Part::NoPart, 0, Part::NoPart, 0, Part::NoPart),
            Lane::Busy(task) => TaskSeat { z, task, last }.grip(),
        }
    }

    // The key that its claims speak of.
    pub fn key(self) -> u32
        ensures { result ≡ claim_key self.lane }
    {
        match self.lane {
            Lane::Idle => 0,
            Lane::Busy(task) => task.key,
        }
    }

    // All that the lane claims.
    pub fn claims(self) -> Claims
        ensures { result ≡ claims_of self.z.sizes self.lane self.last }
    {
        let Seat { z, lane, last } = self;
        match lane {
            Lane::Idle => no_claims(),
            Lane::Busy(task) => TaskSeat { z, task, last }.claims(),
        }
    }
}
