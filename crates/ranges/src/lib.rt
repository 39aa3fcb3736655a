// The range test of a lane: every number is in range for the place in the steps where the lane stands.
// Uses `rows` and what stands below them.
#![tactic(auto)]

ghost use Rattle.std.specs.Prelude.{◌≡◌, ◌+◌, eqb};
ghost use Rattle.lists.specs.Below.{all_of};
ghost use Rattle.locks.specs.Record.{grab_in};
ghost use Rattle.machine.specs.Claims.{outcome_in, ending_in, trail_in, found_in, walk_in};
ghost use Rattle.machine.specs.Sides.{apart_at};
ghost use Rattle.machine.specs.Rules.{only_seeks, writes_hit, is_first_pass, is_second_pass};
ghost use Rattle.machine.specs.Stages.{stage_in, task_in, lane_in};

use locks::Mode;
use machine::{Ending, Lane, Op, Outcome, Side, Stage, Task, Trail, Walk};
use paths::{Place, path_places};
use places::{Layout, MAX_KEY};
use rows::{drops_two, is_insert, mode_of, shared_rows, swing_rows};

// A read or a delete.
fn only_seeks(op: Op) -> bool
    ensures { result ≡ only_seeks op }
{
    matches!(op, Op::Read | Op::Delete)
}

// A delete or an insert.
fn writes_hit(op: Op) -> bool
    ensures { result ≡ writes_hit op }
{
    matches!(op, Op::Delete | Op::Insert | Op::Again)
}

fn is_first_pass(op: Op) -> bool
    ensures { result ≡ is_first_pass op }
{
    op == Op::Insert
}

fn is_second_pass(op: Op) -> bool
    ensures { result ≡ is_second_pass op }
{
    op == Op::Again
}

// Which operation may come to which outcome.
fn outcome_in(z: Layout, op: Op, outcome: Outcome) -> bool
    ensures { result ≡ all_of (outcome_in z.sizes op outcome) }
{
    match outcome {
        Outcome::Hit(_, column, _) => op == Op::Read && column < z.sizes.columns,
        Outcome::Wrote(_) => writes_hit(op),
        Outcome::Filled => is_insert(op),
        Outcome::Miss => only_seeks(op),
        Outcome::Picked => is_first_pass(op),
        Outcome::Stuck => is_second_pass(op),
    }
}

fn ending_in(z: Layout, op: Op, ending: Ending) -> bool
    ensures { result ≡ all_of (ending_in z.sizes op ending) }
{
    match ending {
        Ending::Yes => is_insert(op),
        Ending::Searched(places) => is_first_pass(op) && places == path_places(z),
        Ending::Walked => is_second_pass(op),
    }
}

// The path is one longer than the picks made.
fn one_longer(t: Trail) -> bool
    ensures { result ≡ eqb t.places (t.picks + 1) }
{
    u64::from(t.places) == u64::from(t.picks) + 1
}

fn trail_in(z: Layout, t: Trail) -> bool
    ensures { result ≡ all_of (trail_in z.sizes t) }
{
    t.picks <= z.sizes.rows && one_longer(t)
}

fn found_in(z: Layout, found: Option<u32>, t: Trail) -> bool
    ensures { result ≡ all_of (found_in z.sizes found t) }
{
    match found {
        Some(column) => column < z.sizes.columns && trail_in(z, t),
        None => 1 <= t.picks && t.picks <= z.sizes.rows + 1 && one_longer(t),
    }
}

// The walk has places left, and the free place is in the other row of the last one's key.
fn walk_in(z: Layout, last: Place, w: Walk) -> bool
    ensures { result ≡ all_of (walk_in z.sizes last w) }
{
    1 <= w.places
        && w.places <= z.sizes.rows + 1
        && w.column < z.sizes.columns
        && w.row == last.other_row(z)
}

// Nothing is done at the second of two rows that have one lock.
fn apart_at(side: Side, shared: bool) -> bool
    ensures { result ≡ apart_at side shared }
{
    match side {
        Side::First => true,
        Side::Second => !shared,
    }
}

// The numbers of the stage; last is the last place on the lane's path.
#[tactic(auto, unfolding(machine::specs::Stages::item_at))]
fn stage_in(z: Layout, k: Task, last: Place) -> bool
    ensures { result ≡ all_of (stage_in z.sizes k last k.stage) }
{
    let columns = z.sizes.columns;
    match k.stage {
        Stage::TakeMain(grab) => is_first_pass(k.op) && grab.fits(z.sizes, Mode::Writing),
        Stage::Take(side, grab) => grab.fits(z.sizes, mode_of(k.op))
            && apart_at(side, shared_rows(z, k.key)),
        Stage::Seek(_, column) => column < columns,
        Stage::SeekRoom(_, column) | Stage::WriteRoom(_, column) => is_insert(k.op)
            && column < columns,
        Stage::WriteHit(_, column) => writes_hit(k.op) && column < columns,
        Stage::Pick => is_first_pass(k.op),
        Stage::Drop(side, outcome) => side.choose(true, drops_two(shared_rows(z, k.key), outcome))
            && outcome_in(z, k.op, outcome),
        Stage::DropMain(ending) => ending_in(z, k.op, ending),
        Stage::TakeNext(grab, t) => is_first_pass(k.op)
            && grab.fits(z.sizes, Mode::Reading)
            && trail_in(z, t),
        Stage::LookNext(column, t) => is_first_pass(k.op) && column < columns && trail_in(z, t),
        Stage::PickNext(t) => is_first_pass(k.op) && trail_in(z, t),
        Stage::DropNext(found, t) => is_first_pass(k.op) && found_in(z, found, t),
        Stage::TakeSwing(side, grab, w) => is_first_pass(k.op)
            && grab.fits(z.sizes, Mode::Writing)
            && apart_at(side, swing_rows(z, last, w).shared)
            && walk_in(z, last, w),
        Stage::Swing(w) => is_first_pass(k.op) && walk_in(z, last, w),
        Stage::DropSwing(side, w) => is_first_pass(k.op)
            && apart_at(side, swing_rows(z, last, w).shared)
            && walk_in(z, last, w),
    }
}

// A key is a stroke, only an insert brings a value, and the stage's numbers are in range.
fn task_in(z: Layout, k: Task, last: Place) -> bool
    ensures { result ≡ all_of (task_in z.sizes k last) }
{
    k.key <= MAX_KEY && (is_insert(k.op) || k.value == 0) && stage_in(z, k, last)
}

// A lane's numbers are in range: an idle one has none.
pub fn lane_in(z: Layout, l: Lane, last: Place) -> bool
    ensures { result ≡ all_of (lane_in z.sizes l last) }
{
    match l {
        Lane::Idle => true,
        Lane::Busy(k) => task_in(z, k, last),
    }
}
