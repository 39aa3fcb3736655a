// The lane at its next stage, or its end and answer. Values in, a value out, no memory.
ghost use Rattle.std.specs.Prelude.{◌≡◌, cond, ◌-◌, ◌≤◌, ◌<◌};
ghost use Rattle.slots.specs.Slot.{has_key};
ghost use Rattle.locks.specs.Taking.{grab_of};
ghost use Rattle.machine.specs.Steps.{goes_to, ends, next_column, on_hit, after_write, after_miss, leave, insert_end, after_swing, after_seek};
ghost use Rattle.machine.specs.Sides.{is_last};
ghost use Rattle.machine.specs.Rules.{shared_rows, swing_rows, drops_two};

use super::next::{after_seek, next_column};
use linear::End;
use locks::Mode;
use machine::{Ending, Lane, Moved, Op, Outcome, Side, Stage, Task, Trail, Walk};
use paths::Place;
use places::{Layout, Sizes};
use rows::{drops_two, is_insert, is_last, shared_rows, swing_rows};
use slots::Slot;

pub fn goes_to(task: Task, stage: Stage) -> Moved
    ensures { result ≡ goes_to task stage }
{
    Moved {
        lane: Lane::Busy(Task { stage, ..task }),
        answer: None,
    }
}

// An ended lane is idle.
pub fn ends(end: End) -> Moved
    ensures { result ≡ ends end }
{
    Moved {
        lane: Lane::Idle,
        answer: Some(end),
    }
}

// A look at a slot of a home row for the lane's key.
pub fn seek(z: Layout, task: Task, s: Slot, side: Side, column: u32) -> Moved
    requires { column < z.sizes.columns }
    ensures { result ≡ cond (has_key s task.key) (on_hit task task.op side column s) (goes_to task (next_column z.sizes column (Stage.Seek side) (after_seek z.sizes task side))) }
{
    if s.has_key(task.key) {
        return hit(task, side, column, s);
    }
    let next = next_column(z.sizes, column);
    goes_to(
        task,
        next.map_or_else(|| after_seek(z, task, side), |c| Stage::Seek(side, c)),
    )
}

// A hit: a read takes its value, any other operation writes.
fn hit(task: Task, side: Side, column: u32, s: Slot) -> Moved
    ensures { result ≡ on_hit task task.op side column s }
{
    match task.op {
        Op::Read => goes_to(
            task,
            Stage::Drop(Side::First, Outcome::Hit(side, column, s.value)),
        ),
        _ => goes_to(task, Stage::WriteHit(side, column)),
    }
}

// The first of a pass's releases: the second row's is still to come, or the pass is over.
pub fn drop_first(z: Layout, task: Task, o: Outcome) -> Moved
    ensures { result ≡ cond (drops_two (shared_rows z.sizes task.key) o) (goes_to task (Stage.Drop Side.Second o)) (leave z.sizes task o) }
{
    if drops_two(shared_rows(z, task.key), o) {
        goes_to(task, Stage::Drop(Side::Second, o))
    } else {
        leave(z.sizes, task, o)
    }
}

// A pass has released its rows.
pub fn leave(z: Sizes, task: Task, o: Outcome) -> Moved
    ensures { result ≡ leave z task o }
{
    match o {
        Outcome::Hit(_, _, value) => ends(End::ReadValue(value)),
        Outcome::Wrote(_) => after_write(task),
        Outcome::Filled => goes_to(task, Stage::DropMain(Ending::Yes)),
        Outcome::Miss => ends(after_miss(task.op)),
        Outcome::Picked => goes_to(task, first_next(z)),
        Outcome::Stuck => goes_to(task, Stage::DropMain(Ending::Walked)),
    }
}

fn after_write(task: Task) -> Moved
    ensures { result ≡ after_write task task.op }
{
    if is_insert(task.op) {
        goes_to(task, Stage::DropMain(Ending::Yes))
    } else {
        ends(End::Deleted)
    }
}

fn after_miss(op: Op) -> End
    ensures { result ≡ after_miss op }
{
    match op {
        Op::Read => End::ReadNone,
        _ => End::Deleted,
    }
}

// The search begins, with the first pick's place on its path.
fn first_next(z: Sizes) -> Stage
    ensures { result ≡ Stage.TakeNext (grab_of z Mode.Reading) (record { picks = 0; places = 1 }) }
{
    let t = Trail {
        picks: 0,
        places: 1,
    };
    Stage::TakeNext(Mode::Reading.grab(z), t)
}

pub fn insert_end(e: Ending) -> End
    ensures { result ≡ insert_end e }
{
    match e {
        Ending::Yes => End::InsertYes,
        Ending::Searched(_) => End::InsertSearched,
        Ending::Walked => End::InsertWalked,
    }
}

// The release of a lock of a swing: the other row's is still to come, or the swing is over.
pub fn drop_swing(z: Layout, task: Task, last: Place, side: Side, w: Walk) -> Moved
    requires { 1 ≤ w.places }
    ensures { result ≡ cond (is_last side (swing_rows z.sizes last w).shared) (after_swing z.sizes task last (w.places - 1)) (goes_to task (Stage.DropSwing Side.Second w)) }
{
    if is_last(side, swing_rows(z, last, w).shared) {
        after_swing(z.sizes, task, last, w.places - 1)
    } else {
        goes_to(task, Stage::DropSwing(Side::Second, w))
    }
}

// A swing has released its rows: the place it left is the free one; with none left, the second pass begins.
fn after_swing(z: Sizes, task: Task, last: Place, left: u32) -> Moved
    ensures { result ≡ after_swing z task last left }
{
    let g = Mode::Writing.grab(z);
    if left == 0 {
        let again = Task {
            op: Op::Again,
            ..task
        };
        return goes_to(again, Stage::Take(Side::First, g));
    }
    let w = Walk {
        places: left,
        row: last.row,
        column: last.column,
    };
    goes_to(task, Stage::TakeSwing(Side::First, g, w))
}
