// The stage that follows a stage of one operation, by what its act saw. Values in, a value out, no memory.
ghost use Rattle.std.specs.Prelude.{◌≡◌, cond, ◌+◌, ◌<◌, ltb, Some, None};
ghost use Rattle.lists.specs.Numbers.{max_number};
ghost use Rattle.slots.specs.Slot.{is_empty};
ghost use Rattle.locks.specs.Taking.{grab_of};
ghost use Rattle.machine.specs.Steps.{next_column, after_second, after_room, after_attempt, after_seek, after_both};
ghost use Rattle.machine.specs.Sides.{is_last};
ghost use Rattle.machine.specs.Rules.{mode_of, swing_rows};

use locks::{Grab, Mode};
use machine::{Ending, Op, Outcome, Side, Stage, Task, Trail, Walk};
use paths::Place;
use places::{Layout, Sizes};
use rows::{is_insert, is_last, mode_of, shared_rows, swing_rows};
use slots::Slot;

// How an operation begins to take a row.
pub fn row_grab(z: Sizes, op: Op) -> Grab
    ensures { result ≡ grab_of z (mode_of op) }
{
    mode_of(op).grab(z)
}

// A look goes through its row one slot a step: the next column, or none past the last.
pub(super) fn next_column(z: Sizes, column: u32) -> Option<u32>
    requires { column < z.columns }
    ensures { result ≡ cond (ltb (column + 1) z.columns) (Some (column + 1)) None }
{
    let next = column + 1;
    (next < z.columns).then_some(next)
}

// The first row lacks the key.
fn after_first(z: Layout, task: Task) -> Stage
    ensures { result ≡ after_seek z.sizes task Side.First }
{
    if shared_rows(z, task.key) {
        Stage::Seek(Side::Second, 0)
    } else {
        Stage::Take(Side::Second, row_grab(z.sizes, task.op))
    }
}

// Neither row has the key.
fn after_second(op: Op) -> Stage
    ensures { result ≡ after_second op }
{
    if is_insert(op) {
        Stage::SeekRoom(Side::First, 0)
    } else {
        Stage::Drop(Side::First, Outcome::Miss)
    }
}

// A row lacks the key.
pub(super) fn after_seek(z: Layout, task: Task, side: Side) -> Stage
    ensures { result ≡ after_seek z.sizes task side }
{
    match side {
        Side::First => after_first(z, task),
        Side::Second => after_second(task.op),
    }
}

// A look at a slot of a home row for room.
pub fn room(z: Sizes, op: Op, s: Slot, side: Side, column: u32) -> Stage
    requires { column < z.columns }
    ensures { result ≡ cond (is_empty s) (Stage.WriteRoom side column) (next_column z column (Stage.SeekRoom side) (after_room op side)) }
{
    if s.is_empty() {
        return Stage::WriteRoom(side, column);
    }
    next_column(z, column).map_or_else(|| after_room(op, side), |c| Stage::SeekRoom(side, c))
}

// Neither row has room.
fn after_both(op: Op) -> Stage
    ensures { result ≡ after_both op }
{
    match op {
        Op::Insert => Stage::Pick,
        _ => Stage::Drop(Side::First, Outcome::Stuck),
    }
}

// A row has no room.
fn after_room(op: Op, side: Side) -> Stage
    ensures { result ≡ after_room op side }
{
    match side {
        Side::First => Stage::SeekRoom(Side::Second, 0),
        Side::Second => after_both(op),
    }
}

// A look at a slot of the row that an attempt is about.
pub fn look_next(z: Sizes, s: Slot, column: u32, t: Trail) -> Stage
    requires { column < z.columns }
    ensures { result ≡ cond (is_empty s) (Stage.DropNext (Some column) t) (next_column z column (λ c. Stage.LookNext c t) (Stage.PickNext t)) }
{
    if s.is_empty() {
        return Stage::DropNext(Some(column), t);
    }
    next_column(z, column).map_or(Stage::PickNext(t), |c| Stage::LookNext(c, t))
}

// One more pick, and one more place.
pub fn picked_next(t: Trail) -> Stage
    requires picks_bound { t.picks < max_number }
    requires places_bound { t.places < max_number }
    ensures { result ≡ Stage.DropNext None (record { picks = t.picks + 1; places = t.places + 1 }) }
{
    let more = Trail {
        picks: t.picks + 1,
        places: t.places + 1,
    };
    Stage::DropNext(None, more)
}

// A free place was found, or a full row.
pub fn after_attempt(z: Layout, last: Place, found: Option<u32>, t: Trail) -> Stage
    ensures { result ≡ after_attempt z.sizes last found t }
{
    match found {
        Some(column) => {
            let w = Walk {
                places: t.places,
                row: last.other_row(z),
                column,
            };
            Stage::TakeSwing(Side::First, Mode::Writing.grab(z.sizes), w)
        }
        None => after_full(z, t),
    }
}

// H+1 attempts are all.
fn after_full(z: Layout, t: Trail) -> Stage
    ensures { result ≡ cond (ltb z.sizes.rows t.picks) (Stage.DropMain (Ending.Searched t.places)) (Stage.TakeNext (grab_of z.sizes Mode.Reading) t) }
{
    if z.sizes.rows < t.picks {
        Stage::DropMain(Ending::Searched(t.places))
    } else {
        Stage::TakeNext(Mode::Reading.grab(z.sizes), t)
    }
}

// A lock of a swing is held.
pub fn after_take(z: Layout, last: Place, side: Side, w: Walk) -> Stage
    ensures { result ≡ cond (is_last side (swing_rows z.sizes last w).shared) (Stage.Swing w) (Stage.TakeSwing Side.Second (grab_of z.sizes Mode.Writing) w) }
{
    if is_last(side, swing_rows(z, last, w).shared) {
        Stage::Swing(w)
    } else {
        Stage::TakeSwing(Side::Second, Mode::Writing.grab(z.sizes), w)
    }
}
