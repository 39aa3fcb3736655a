// A lane's part in the locks, by the place in the steps where it stands.
ghost use Rattle.std.specs.Prelude.{◌≡◌, cond};
ghost use Rattle.locks.specs.declared.Mode.TheVariants.{Reading, Writing};
ghost use Rattle.locks.specs.declared.Part.TheVariants.{NoPart, Tries, Holds};
ghost use Rattle.paths.specs.Path.{other_row};
ghost use Rattle.machine.specs.Sides.{by_side};
ghost use Rattle.machine.specs.Rules.{mode_of, shared_rows, swing_rows, drops_two, sought_row};
ghost use Rattle.machine.specs.Claims.{main_part, second_part, pass_grip, search_grip, walk_grip, both_rows, hit_rows, grip};
ghost use Rattle.machine.specs.Stages.{grip_at};

use super::TaskSeat;
use locks::{Grab, Mode, Part, main_lock};
use machine::{Grip, Op, Outcome, RowPart, Side, Stage, Walk};
use rows::{drops_two, is_insert, mode_of, shared_rows, sought_row, swing_rows};

// A part in main, and parts in two row locks.
pub(super) fn three_parts(main: Part, first: u32, one: Part, second: u32, two: Part) -> Grip
    ensures { result ≡ grip main first one second two }
{
    Grip {
        main,
        one: RowPart {
            lock: first,
            part: one,
        },
        two: RowPart {
            lock: second,
            part: two,
        },
    }
}

// An insert holds main from its first row to its end.
fn main_part(op: Op) -> Part
    ensures { result ≡ main_part op }
{
    if is_insert(op) {
        Part::Holds(Mode::Writing)
    } else {
        Part::NoPart
    }
}

// The second of two rows: no part of its own where both share a lock.
fn second_part(shared: bool, part: Part) -> Part
    ensures { result ≡ second_part shared part }
{
    if shared { Part::NoPart } else { part }
}

impl TaskSeat {
    // These parts in the locks of the two home rows.
    fn pass_grip(self, one: Part, two: Part) -> Grip
        ensures { result ≡ pass_grip self.z.sizes self.task one two }
    {
        let rows = self.z.rows_of(self.task.key);
        three_parts(
            main_part(self.task.op),
            self.z.lock_of(rows.first),
            one,
            self.z.lock_of(rows.second),
            two,
        )
    }

    // Both rows held.
    fn both_rows(self) -> Grip
        ensures { result ≡ both_rows self.z.sizes self.task }
    {
        let held = Part::Holds(mode_of(self.task.op));
        self.pass_grip(held, second_part(shared_rows(self.z, self.task.key), held))
    }

    // A row that is looked through, or that has the key: before the second is taken, the first alone.
    fn hit_rows(self, side: Side) -> Grip
        ensures { result ≡ hit_rows self.z.sizes self.task side }
    {
        let held = Part::Holds(mode_of(self.task.op));
        let second = second_part(shared_rows(self.z, self.task.key), held);
        self.pass_grip(held, side.choose(Part::NoPart, second))
    }

    // A row that is being taken, the second after the first.
    fn take_grip(self, side: Side, grab: Grab) -> Grip
        ensures { result ≡ pass_grip self.z.sizes self.task (by_side side (Tries grab) (Holds (mode_of self.task.op))) (by_side side NoPart (Tries grab)) }
    {
        let tries = Part::Tries(grab);
        let held = Part::Holds(mode_of(self.task.op));
        self.pass_grip(side.choose(tries, held), side.choose(Part::NoPart, tries))
    }

    // Both rows held, or the one that is left to release.
    fn drop_grip(self, side: Side, outcome: Outcome) -> Grip
        ensures { result ≡ pass_grip self.z.sizes self.task (by_side side (Holds (mode_of self.task.op)) NoPart) (by_side side (cond (drops_two (shared_rows self.z.sizes self.task.key) outcome) (Holds (mode_of self.task.op)) NoPart) (Holds (mode_of self.task.op))) }
    {
        let held = Part::Holds(mode_of(self.task.op));
        let drops = drops_two(shared_rows(self.z, self.task.key), outcome);
        self.pass_grip(
            side.choose(held, Part::NoPart),
            side.choose(second_part(!drops, held), held),
        )
    }

    // This part in the lock of a row of the search.
    fn search_grip(self, row: u32, one: Part) -> Grip
        ensures { result ≡ search_grip self.z.sizes row one }
    {
        let lock = self.z.lock_of(row);
        three_parts(Part::Holds(Mode::Writing), lock, one, lock, Part::NoPart)
    }

    fn next_grip(self, one: Part) -> Grip
        ensures { result ≡ search_grip self.z.sizes (other_row self.z.sizes self.last) one }
    {
        self.search_grip(self.last.other_row(self.z), one)
    }

    fn found_grip(self, found: Option<u32>) -> Grip
        ensures { result ≡ search_grip self.z.sizes (sought_row self.z.sizes self.last found) (Holds Reading) }
    {
        self.search_grip(
            sought_row(self.z, self.last, found),
            Part::Holds(Mode::Reading),
        )
    }

    // These parts in the locks of the two rows of a swing.
    fn walk_grip(self, w: Walk, one: Part, two: Part) -> Grip
        ensures { result ≡ walk_grip self.z.sizes self.last w one two }
    {
        let rows = swing_rows(self.z, self.last, w);
        three_parts(
            Part::Holds(Mode::Writing),
            self.z.lock_of(rows.first),
            one,
            self.z.lock_of(rows.second),
            two,
        )
    }

    // Both rows of a swing held.
    fn swing_grip(self, w: Walk) -> Grip
        ensures { result ≡ walk_grip self.z.sizes self.last w (Holds Writing) (second_part (swing_rows self.z.sizes self.last w).shared (Holds Writing)) }
    {
        let held = Part::Holds(Mode::Writing);
        let rows = swing_rows(self.z, self.last, w);
        self.walk_grip(w, held, second_part(rows.shared, held))
    }

    // One of them being taken, the second after the first.
    fn take_swing_grip(self, side: Side, grab: Grab, w: Walk) -> Grip
        ensures { result ≡ walk_grip self.z.sizes self.last w (by_side side (Tries grab) (Holds Writing)) (by_side side NoPart (Tries grab)) }
    {
        let tries = Part::Tries(grab);
        let held = Part::Holds(Mode::Writing);
        self.walk_grip(
            w,
            side.choose(tries, held),
            side.choose(Part::NoPart, tries),
        )
    }

    // Both held, or the one that is left to release.
    fn drop_swing_grip(self, side: Side, w: Walk) -> Grip
        ensures { result ≡ walk_grip self.z.sizes self.last w (by_side side (Holds Writing) NoPart) (by_side side (second_part (swing_rows self.z.sizes self.last w).shared (Holds Writing)) (Holds Writing)) }
    {
        let held = Part::Holds(Mode::Writing);
        let rows = swing_rows(self.z, self.last, w);
        self.walk_grip(
            w,
            side.choose(held, Part::NoPart),
            side.choose(second_part(rows.shared, held), held),
        )
    }

    // The lane's part in the locks.
    #[tactic(auto, unfolding(machine::specs::Stages::item_at))]
    pub(super) fn grip(self) -> Grip
        ensures { result ≡ grip_at self.z.sizes self.task self.last self.task.stage }
    {
        let read = Part::Holds(Mode::Reading);
        let main = main_lock(self.z.sizes);
        match self.task.stage {
            Stage::TakeMain(grab) => three_parts(
                Part::Tries(grab),
                main,
                Part::NoPart,
                main,
                Part::NoPart,
            ),
            Stage::Take(side, grab) => self.take_grip(side, grab),
            Stage::Seek(side, _) | Stage::WriteHit(side, _) => self.hit_rows(side),
            Stage::SeekRoom(..) | Stage::WriteRoom(..) | Stage::Pick => self.both_rows(),
            Stage::Drop(side, outcome) => self.drop_grip(side, outcome),
            Stage::DropMain(_) => self.pass_grip(Part::NoPart, Part::NoPart),
            Stage::TakeNext(grab, _) => self.next_grip(Part::Tries(grab)),
            Stage::LookNext(..) | Stage::PickNext(_) => self.next_grip(read),
            Stage::DropNext(found, _) => self.found_grip(found),
            Stage::TakeSwing(side, grab, w) => self.take_swing_grip(side, grab, w),
            Stage::Swing(w) => self.swing_grip(w),
            Stage::DropSwing(side, w) => self.drop_swing_grip(side, w),
        }
    }
}
