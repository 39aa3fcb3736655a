// Where a lane goes after its act, by its stage. Values in, a value out, no memory.
ghost use Rattle.std.specs.Prelude.{◌≡◌};
ghost use Rattle.machine.specs.Steps.{advance};
ghost use Rattle.acts.specs.Fitting.{StageFits};

use super::going::{drop_first, drop_swing, ends, goes_to, insert_end, leave, seek};
use super::next::{after_attempt, after_take, look_next, picked_next, room, row_grab};
use acts::Turn;
use machine::{Moved, Outcome, Seen, Side, Stage};

// The lane after its act, by what the act saw.
#[tactic(auto, unfolding(machine::specs::Steps::advance_at, acts::specs::Fitting::StageFits))]
pub fn advance(turn: Turn, seen: Seen) -> Moved
    requires { StageFits turn.z.sizes turn.task.stage }
    ensures { result ≡ advance turn.z.sizes turn.task turn.last seen }
{
    let Turn { z, task, last } = turn;
    let Seen { tried, slot: s } = seen;
    let to = |stage| goes_to(task, stage);
    match task.stage {
        Stage::TakeMain(_) => to(tried.map_or_else(
            || Stage::Take(Side::First, row_grab(z.sizes, task.op)),
            Stage::TakeMain,
        )),
        Stage::Take(side, _) => to(tried.map_or(Stage::Seek(side, 0), |g| Stage::Take(side, g))),
        Stage::Seek(side, column) => seek(z, task, s, side, column),
        Stage::SeekRoom(side, column) => to(room(z.sizes, task.op, s, side, column)),
        Stage::WriteHit(side, _) => to(Stage::Drop(Side::First, Outcome::Wrote(side))),
        Stage::WriteRoom(..) => to(Stage::Drop(Side::First, Outcome::Filled)),
        Stage::Pick => to(Stage::Drop(Side::First, Outcome::Picked)),
        Stage::Drop(Side::First, o) => drop_first(z, task, o),
        Stage::Drop(Side::Second, o) => leave(z.sizes, task, o),
        Stage::DropMain(e) => ends(insert_end(e)),
        Stage::TakeNext(_, t) => to(tried.map_or(Stage::LookNext(0, t), |g| Stage::TakeNext(g, t))),
        Stage::LookNext(column, t) => to(look_next(z.sizes, s, column, t)),
        Stage::PickNext(t) => to(picked_next(t)),
        Stage::DropNext(found, t) => to(after_attempt(z, last, found, t)),
        Stage::TakeSwing(side, _, w) => match tried {
            Some(g) => to(Stage::TakeSwing(side, g, w)),
            None => to(after_take(z, last, side, w)),
        },
        Stage::Swing(w) => to(Stage::DropSwing(Side::First, w)),
        Stage::DropSwing(side, w) => drop_swing(z, task, last, side, w),
    }
}
