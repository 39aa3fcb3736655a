// What a lane does next. Values in, a value out, no memory.
ghost use Rattle.std.specs.Prelude.{◌≡◌, cond, ◌-◌, ◌≤◌};
ghost use Rattle.places.specs.Table.{lock_of};
ghost use Rattle.machine.specs.Sides.{side_row, is_last};
ghost use Rattle.machine.specs.Rules.{mode_of, row_on, swing_rows, outcome_places, ending_places, written};
ghost use Rattle.machine.specs.Stages.{path_length, places_of, act_of};
ghost use Rattle.acts.specs.Fitting.{StageFits};

use locks::{Mode, main_lock};
use machine::{Act, Ending, Lane, Outcome, Side, Stage, Tail, Task, Walk};
use paths::Place;
use places::Layout;
use rows::{
    is_insert, is_last, mode_of, other_lock, row_lock, row_on, sought_lock, swing_lock, swing_rows,
};
use slots::Slot;

fn outcome_places(o: Outcome) -> u32
    ensures { result ≡ outcome_places o }
{
    match o {
        Outcome::Picked => 1,
        _ => 0,
    }
}

fn ending_places(e: Ending) -> u32
    ensures { result ≡ ending_places e }
{
    match e {
        Ending::Searched(places) => places,
        _ => 0,
    }
}

// A lane with a task at its turn, and the last place on its path.
#[derive(Clone, Copy)]
pub struct Turn {
    pub z: Layout,
    pub task: Task,
    pub last: Place,
}

// How many places of the path store are the lane's.
#[tactic(auto, unfolding(machine::specs::Stages::item_at))]
pub fn path_length(stage: Stage) -> u32
    ensures { result ≡ path_length stage }
{
    match stage {
        Stage::Drop(_, o) => outcome_places(o),
        Stage::DropMain(e) => ending_places(e),
        Stage::TakeNext(_, t)
        | Stage::LookNext(_, t)
        | Stage::PickNext(t)
        | Stage::DropNext(_, t) => t.places,
        Stage::TakeSwing(_, _, w) | Stage::Swing(w) | Stage::DropSwing(_, w) => w.places,
        _ => 0,
    }
}

// The same of a lane: an idle one has none.
pub fn places_of(lane: Lane) -> u32
    ensures { result ≡ places_of lane }
{
    match lane {
        Lane::Idle => 0,
        Lane::Busy(task) => path_length(task.stage),
    }
}

impl Turn {
    // A look at a slot of a row of the key.
    fn see(self, side: Side, column: u32) -> Act
        ensures { result ≡ Act.Look (row_on self.z.sizes self.task.key side) column }
    {
        Act::Look(row_on(self.z, self.task.key, side), column)
    }

    // The write of a slot of a row of the key.
    fn write(self, side: Side, column: u32, s: Slot) -> Act
        ensures { result ≡ Act.Store (row_on self.z.sizes self.task.key side) column s }
    {
        Act::Store(row_on(self.z, self.task.key, side), column, s)
    }

    // The slot that a hit is overwritten with.
    fn written(self) -> Slot
        ensures { result ≡ written self.task.op self.task.key self.task.value }
    {
        if is_insert(self.task.op) {
            Slot::full(self.task.key, self.task.value)
        } else {
            Slot::empty()
        }
    }

    // The release of a row of the key.
    fn drop_row(self, side: Side) -> Act
        ensures { result ≡ Act.Release (lock_of self.z.sizes (row_on self.z.sizes self.task.key side)) (mode_of self.task.op) Tail.Keep }
    {
        Act::Release(
            row_lock(self.z, self.task.key, side),
            mode_of(self.task.op),
            Tail::Keep,
        )
    }

    // The release of a lock of a swing: with the last one its place leaves the path.
    fn drop_swing(self, side: Side, w: Walk) -> Act
        requires { 1 ≤ w.places }
        ensures { result ≡ Act.Release (lock_of self.z.sizes (side_row (swing_rows self.z.sizes self.last w) side)) Mode.Writing (cond (is_last side (swing_rows self.z.sizes self.last w).shared) (Tail.TakeOff (w.places - 1)) Tail.Keep) }
    {
        let lock = swing_lock(self.z, self.last, w, side);
        if is_last(side, swing_rows(self.z, self.last, w).shared) {
            Act::Release(lock, Mode::Writing, Tail::TakeOff(w.places - 1))
        } else {
            Act::Release(lock, Mode::Writing, Tail::Keep)
        }
    }

    // The act of the lane.
    #[tactic(auto, unfolding(machine::specs::Stages::item_at, crate::specs::Fitting::StageFits))]
    pub fn act(self) -> Act
        requires { StageFits self.z.sizes self.task.stage }
        ensures { result ≡ act_of self.z.sizes self.task self.last }
    {
        let Turn { z, task, last } = self;
        match task.stage {
            Stage::TakeMain(g) => Act::Try(main_lock(z.sizes), g),
            Stage::Take(side, g) => Act::Try(row_lock(z, task.key, side), g),
            Stage::Seek(side, column) | Stage::SeekRoom(side, column) => self.see(side, column),
            Stage::WriteHit(side, column) => self.write(side, column, self.written()),
            Stage::WriteRoom(side, column) => self.write(
                side,
                column,
                Slot::full(task.key, task.value),
            ),
            Stage::Pick => Act::PickOne(z.home_one(task.key), z.home_two(task.key)),
            Stage::Drop(side, _) => self.drop_row(side),
            Stage::DropMain(_) => Act::Release(main_lock(z.sizes), Mode::Writing, Tail::Clear),
            Stage::TakeNext(g, _) => Act::Try(other_lock(z, last), g),
            Stage::LookNext(column, _) => Act::Look(last.other_row(z), column),
            Stage::PickNext(t) => Act::PickFrom(last.other_row(z), t.places),
            Stage::DropNext(f, _) => Act::Release(
                sought_lock(z, last, f),
                Mode::Reading,
                Tail::Keep,
            ),
            Stage::TakeSwing(side, g, w) => Act::Try(swing_lock(z, last, w, side), g),
            Stage::Swing(w) => Act::Move(last, w.row, w.column),
            Stage::DropSwing(side, w) => self.drop_swing(side, w),
        }
    }
}
