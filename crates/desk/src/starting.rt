// Start: an idle lane begins what it is asked.
ghost use Rattle.std.specs.Prelude.{◌≡◌, ℕ, List, length};
ghost use Rattle.machine.specs.Lane.{lane_words};
ghost use Rattle.machine.specs.Desk.{key_of, called, start_of, begun as Desk·begun, start_lane as Desk·start_lane};
ghost use Rattle.standing.specs.Tables.{table};

use super::lent::upright;
use linear::Request;
use locks::Mode;
use machine::{Lane, Op, Refusal, Side, Stage, Task};
use places::{Layout, MAX_KEY, Sizes};
use records::{is_idle, lane_at, set_lane};

fn key_of(request: Request) -> u32
    ensures { result ≡ key_of request }
{
    match request {
        Request::Read(key) | Request::Delete(key) | Request::Insert(key, _) => key,
    }
}

// The task of a lane that has just started.
fn begun(z: Sizes, request: Request) -> Task
    ensures { result ≡ Desk·begun z request }
{
    match request {
        Request::Read(key) => Task {
            op: Op::Read,
            key,
            value: 0,
            stage: Stage::Take(Side::First, Mode::Reading.grab(z)),
        },
        Request::Delete(key) => Task {
            op: Op::Delete,
            key,
            value: 0,
            stage: Stage::Take(Side::First, Mode::Writing.grab(z)),
        },
        Request::Insert(key, value) => Task {
            op: Op::Insert,
            key,
            value,
            stage: Stage::TakeMain(Mode::Writing.grab(z)),
        },
    }
}

// A start where the table stands: refusals 6, 7 and 10, in that order. It looks at the lanes alone.
#[tactic(auto, unfolding(machine::specs::Desk::start_lane, machine::specs::Desk::started))]
pub(super) fn start_lane(
    z: Layout,
    lanes: &mut [u32],
    j: u32,
    request: Request,
) -> Result<(), Refusal>
    requires { length lanes.old ≡ lane_words z.sizes }
    ensures { (xs ls ps : List ℕ) → called result (table xs ls lanes.new ps) ≡ Desk·start_lane z.sizes (table xs ls lanes.old ps) j request }
{
    if z.sizes.lanes <= j {
        return Err(Refusal::NoLane);
    }
    if !is_idle(lane_at(lanes, j as usize)) {
        return Err(Refusal::Busy);
    }
    if MAX_KEY < key_of(request) {
        return Err(Refusal::BadKey);
    }
    set_lane(lanes, j as usize, Lane::Busy(begun(z.sizes, request)));
    Ok(())
}

// A start over lent memory of any length: refusals 1, 2, 9, 6, 7 and 10, in that order.
pub fn start(
    z: Sizes,
    slots: &[u32],
    locks: &[u32],
    lanes: &mut [u32],
    path: &[u32],
    j: u32,
    request: Request,
) -> Result<(), Refusal>
    ensures { called result (table slots.now locks.now lanes.new path.now) ≡ start_of z (table slots.now locks.now lanes.old path.now) j request }
{
    let z = upright(z, slots, locks, lanes, path)?;
    start_lane(z, lanes, j, request)
}
