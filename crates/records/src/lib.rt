// The 14 numbers of a lane as lent: the number of each choice and back, the numbers of a stage and back, a lane read and written,
// whether it is idle, and whether 14 numbers are those of a lane. Uses `machine` and what stands below it.
#![tactic(auto)]

ghost use Rattle.std.specs.Prelude.{◌≡◌, eqb, get_or};
ghost use Rattle.locks.specs.Record.{grab_code, grab_noted, grab_from};
ghost use Rattle.machine.specs.Lane.{op_code, side_code, outcome_words, ending_words, found_words, stage_words, with_lane, lane_numbers, lane_words, code_words, in_a_row};
ghost use Rattle.lists.specs.Records.{HasRecord, cell, put};
ghost use Rattle.lists.specs.Below.{all_below};
ghost use Rattle.machine.specs.Back.{op_of, side_of, outcome_of, ending_of, found_of, stage_of, words_at, task_at, lane_at, decodes as Back·decodes};
ghost use Rattle.machine.specs.Stages.{is_idle};
ghost use Rattle.records.specs.StageWords.{as_words};

use locks::Grab;
use machine::{Ending, Lane, Op, Outcome, Side, Stage, Task, Trail, Walk};
use places::{Layout, MAX_LANES};

// How many numbers a lane takes.
pub const LANE_NUMBERS: usize = 14;

// How many the lanes of the largest table take.
pub const MAX_LANE_WORDS: usize = MAX_LANES as usize * LANE_NUMBERS;

// How many numbers the lanes of a table take.
pub fn lane_words(z: Layout) -> usize
    ensures { result ≡ lane_words z.sizes }
{
    z.sizes.lanes as usize * LANE_NUMBERS
}

pub fn op_code(op: Op) -> u32
    ensures { result ≡ op_code op }
{
    match op {
        Op::Read => 1,
        Op::Delete => 2,
        Op::Insert => 3,
        Op::Again => 4,
    }
}

fn op_of(code: u32) -> Op
    ensures { result ≡ op_of code }
{
    match code {
        2 => Op::Delete,
        3 => Op::Insert,
        4 => Op::Again,
        _ => Op::Read,
    }
}

fn side_code(side: Side) -> u32
    ensures { result ≡ side_code side }
{
    match side {
        Side::First => 1,
        Side::Second => 2,
    }
}

fn side_of(code: u32) -> Side
    ensures { result ≡ side_of code }
{
    match code {
        2 => Side::Second,
        _ => Side::First,
    }
}

// The numbers of a stage, 0 where it has no use for one.
#[derive(Clone, Copy, Default)]
struct StageWords {
    code: u32,
    grab: u32,
    noted: u32,
    side: u32,
    column: u32,
    ending: u32,
    picks: u32,
    places: u32,
    free_row: u32,
    free_column: u32,
    seen: u32,
}

impl StageWords {
    fn with_grab(self, grab: Grab) -> StageWords
        ensures { result ≡ record self { grab = grab_code grab; noted = grab_noted grab } }
    {
        StageWords {
            grab: grab.code(),
            noted: grab.noted(),
            ..self
        }
    }

    fn with_side(self, side: Side) -> StageWords
        ensures { result ≡ record self { side = side_code side } }
    {
        StageWords {
            side: side_code(side),
            ..self
        }
    }

    fn with_column(self, column: u32) -> StageWords
        ensures { result ≡ record self { column = column } }
    {
        StageWords { column, ..self }
    }

    fn with_ending(self, ending: u32) -> StageWords
        ensures { result ≡ record self { ending = ending } }
    {
        StageWords { ending, ..self }
    }

    fn with_places(self, places: u32) -> StageWords
        ensures { result ≡ record self { places = places } }
    {
        StageWords { places, ..self }
    }

    fn with_trail(self, trail: Trail) -> StageWords
        ensures { result ≡ record self { picks = trail.picks; places = trail.places } }
    {
        StageWords {
            picks: trail.picks,
            places: trail.places,
            ..self
        }
    }

    fn with_walk(self, walk: Walk) -> StageWords
        ensures { result ≡ record self { places = walk.places; free_row = walk.row; free_column = walk.column } }
    {
        StageWords {
            places: walk.places,
            free_row: walk.row,
            free_column: walk.column,
            ..self
        }
    }
}

// The numbers of a stage that has only its code.
fn coded(code: u32) -> StageWords
    ensures { as_words result ≡ code_words code }
{
    StageWords {
        code,
        ..StageWords::default()
    }
}

// Those of a pass that releases its rows.
fn outcome_words(words: StageWords, outcome: Outcome) -> StageWords
    ensures { as_words result ≡ outcome_words (as_words words) outcome }
{
    match outcome {
        Outcome::Hit(side, column, seen) => StageWords {
            seen,
            ..words.with_ending(1).with_side(side).with_column(column)
        },
        Outcome::Wrote(side) => words.with_ending(2).with_side(side),
        Outcome::Filled => words.with_ending(3),
        Outcome::Miss => words.with_ending(4),
        Outcome::Picked => words.with_ending(5).with_places(1),
        Outcome::Stuck => words.with_ending(6),
    }
}

// Those of an insert's release of main.
fn ending_words(words: StageWords, ending: Ending) -> StageWords
    ensures { as_words result ≡ ending_words (as_words words) ending }
{
    match ending {
        Ending::Yes => words.with_ending(1),
        Ending::Searched(places) => words.with_ending(2).with_places(places),
        Ending::Walked => words.with_ending(3),
    }
}

// Those of what an attempt came to.
fn found_words(words: StageWords, found: Option<u32>) -> StageWords
    ensures { as_words result ≡ found_words (as_words words) found }
{
    match found {
        Some(column) => words.with_ending(1).with_column(column),
        None => words.with_ending(2),
    }
}

// What these numbers are read as.
fn outcome_of(w: StageWords) -> Outcome
    ensures { result ≡ outcome_of (as_words w) }
{
    match w.ending {
        1 => Outcome::Hit(side_of(w.side), w.column, w.seen),
        2 => Outcome::Wrote(side_of(w.side)),
        3 => Outcome::Filled,
        5 => Outcome::Picked,
        6 => Outcome::Stuck,
        _ => Outcome::Miss,
    }
}

fn ending_of(w: StageWords) -> Ending
    ensures { result ≡ ending_of (as_words w) }
{
    match w.ending {
        2 => Ending::Searched(w.places),
        3 => Ending::Walked,
        _ => Ending::Yes,
    }
}

fn found_of(w: StageWords) -> Option<u32>
    ensures { result ≡ found_of (as_words w) }
{
    match w.ending {
        1 => Some(w.column),
        _ => None,
    }
}

impl From<Stage> for StageWords {
    ghost from_gives = { λ stage result. as_words result ≡ stage_words stage };

    fn from(stage: Stage) -> StageWords {
        match stage {
            Stage::TakeMain(grab) => coded(1).with_grab(grab),
            Stage::Take(side, grab) => coded(side.choose(2, 4)).with_grab(grab),
            Stage::Seek(side, column) => coded(side.choose(3, 5)).with_column(column),
            Stage::SeekRoom(side, column) => coded(side.choose(6, 7)).with_column(column),
            Stage::WriteHit(side, column) => coded(8).with_side(side).with_column(column),
            Stage::WriteRoom(side, column) => coded(9).with_side(side).with_column(column),
            Stage::Pick => coded(10),
            Stage::Drop(side, outcome) => outcome_words(coded(side.choose(11, 12)), outcome),
            Stage::DropMain(ending) => ending_words(coded(13), ending),
            Stage::TakeNext(grab, trail) => coded(14).with_grab(grab).with_trail(trail),
            Stage::LookNext(column, trail) => coded(15).with_column(column).with_trail(trail),
            Stage::PickNext(trail) => coded(16).with_trail(trail),
            Stage::DropNext(found, trail) => found_words(coded(17), found).with_trail(trail),
            Stage::TakeSwing(side, grab, walk) => coded(side.choose(18, 19))
                .with_grab(grab)
                .with_walk(walk),
            Stage::Swing(walk) => coded(20).with_walk(walk),
            Stage::DropSwing(side, walk) => coded(side.choose(21, 22)).with_walk(walk),
        }
    }
}

impl From<StageWords> for Stage {
    ghost from_gives = { λ w result. result ≡ stage_of (as_words w) };

    fn from(w: StageWords) -> Stage {
        let grab = Grab::read(w.grab, w.noted);
        let side = side_of(w.side);
        let trail = Trail {
            picks: w.picks,
            places: w.places,
        };
        let walk = Walk {
            places: w.places,
            row: w.free_row,
            column: w.free_column,
        };
        match w.code {
            1 => Stage::TakeMain(grab),
            2 => Stage::Take(Side::First, grab),
            3 => Stage::Seek(Side::First, w.column),
            4 => Stage::Take(Side::Second, grab),
            5 => Stage::Seek(Side::Second, w.column),
            6 => Stage::SeekRoom(Side::First, w.column),
            7 => Stage::SeekRoom(Side::Second, w.column),
            8 => Stage::WriteHit(side, w.column),
            9 => Stage::WriteRoom(side, w.column),
            11 => Stage::Drop(Side::First, outcome_of(w)),
            12 => Stage::Drop(Side::Second, outcome_of(w)),
            13 => Stage::DropMain(ending_of(w)),
            14 => Stage::TakeNext(grab, trail),
            15 => Stage::LookNext(w.column, trail),
            16 => Stage::PickNext(trail),
            17 => Stage::DropNext(found_of(w), trail),
            18 => Stage::TakeSwing(Side::First, grab, walk),
            19 => Stage::TakeSwing(Side::Second, grab, walk),
            20 => Stage::Swing(walk),
            21 => Stage::DropSwing(Side::First, walk),
            22 => Stage::DropSwing(Side::Second, walk),
            // 10, and what is no code.
            _ => Stage::Pick,
        }
    }
}

// The numbers of the stage in record i.
#[tactic(auto, unfolding(lists::specs::Records::cell))]
fn words_at(lanes: &[u32], i: usize) -> StageWords
    requires { HasRecord lane_numbers lanes.now i }
    ensures { as_words result ≡ words_at lanes.now i }
{
    let b = i * LANE_NUMBERS;
    StageWords {
        code: lanes[b],
        grab: lanes[b + 4],
        noted: lanes[b + 5],
        side: lanes[b + 6],
        column: lanes[b + 7],
        ending: lanes[b + 8],
        picks: lanes[b + 9],
        places: lanes[b + 10],
        free_row: lanes[b + 11],
        free_column: lanes[b + 12],
        seen: lanes[b + 13],
    }
}

// The task that record i is read as, where the lane is not idle.
fn task_at(lanes: &[u32], i: usize) -> Task
    requires { HasRecord lane_numbers lanes.now i }
    ensures { result ≡ task_at lanes.now i }
{
    let b = i * LANE_NUMBERS;
    Task {
        op: op_of(lanes[b + 1]),
        key: lanes[b + 2],
        value: lanes[b + 3],
        stage: Stage::from(words_at(lanes, i)),
    }
}

// The lane that record i is read as.
#[tactic(auto, unfolding(machine::specs::Back::lane_at, lists::specs::Records::cell))]
pub fn lane_at(lanes: &[u32], i: usize) -> Lane
    requires { HasRecord lane_numbers lanes.now i }
    ensures { result ≡ lane_at lanes.now i }
{
    if lanes[i * LANE_NUMBERS + 1] == 0 {
        Lane::Idle
    } else {
        Lane::Busy(task_at(lanes, i))
    }
}

// Record i becomes these numbers, in the order of the record.
fn set_numbers(lanes: &mut [u32], i: usize, op: u32, key: u32, value: u32, w: StageWords)
    requires { HasRecord lane_numbers lanes.old i }
    ensures { lanes.new ≡ put lane_numbers lanes.old i (in_a_row op key value (as_words w)) }
{
    let b = i * LANE_NUMBERS;
    lanes[b] = w.code;
    lanes[b + 1] = op;
    lanes[b + 2] = key;
    lanes[b + 3] = value;
    lanes[b + 4] = w.grab;
    lanes[b + 5] = w.noted;
    lanes[b + 6] = w.side;
    lanes[b + 7] = w.column;
    lanes[b + 8] = w.ending;
    lanes[b + 9] = w.picks;
    lanes[b + 10] = w.places;
    lanes[b + 11] = w.free_row;
    lanes[b + 12] = w.free_column;
    lanes[b + 13] = w.seen;
}

#[tactic(auto, unfolding(machine::specs::Lane::with_lane, machine::specs::Lane::numbers_of))]
pub fn set_lane(lanes: &mut [u32], i: usize, l: Lane)
    requires { HasRecord lane_numbers lanes.old i }
    ensures { lanes.new ≡ with_lane lanes.old i l }
{
    match l {
        Lane::Idle => set_numbers(lanes, i, 0, 0, 0, coded(0)),
        Lane::Busy(task) => set_numbers(
            lanes,
            i,
            op_code(task.op),
            task.key,
            task.value,
            StageWords::from(task.stage),
        ),
    }
}

// Record i has these numbers, in the order of the record.
#[tactic(auto, unfolding(lists::specs::Below::all_below, lists::specs::Records::cell))]
fn has_numbers(lanes: &[u32], i: usize, op: u32, key: u32, value: u32, w: StageWords) -> bool
    requires { HasRecord lane_numbers lanes.now i }
    ensures { result ≡ all_below lane_numbers (λ f. eqb (cell lane_numbers lanes.now i f) (get_or (in_a_row op key value (as_words w)) f 0)) }
{
    let b = i * LANE_NUMBERS;
    (lanes[b] == w.code)
        & (lanes[b + 1] == op)
        & (lanes[b + 2] == key)
        & (lanes[b + 3] == value)
        & (lanes[b + 4] == w.grab)
        & (lanes[b + 5] == w.noted)
        & (lanes[b + 6] == w.side)
        & (lanes[b + 7] == w.column)
        & (lanes[b + 8] == w.ending)
        & (lanes[b + 9] == w.picks)
        & (lanes[b + 10] == w.places)
        & (lanes[b + 11] == w.free_row)
        & (lanes[b + 12] == w.free_column)
        & (lanes[b + 13] == w.seen)
}

// The numbers of record i are those of the lane that they are read as.
#[tactic(auto, unfolding(machine::specs::Back::decodes, machine::specs::Lane::numbers_of))]
pub fn decodes(lanes: &[u32], i: usize) -> bool
    requires { HasRecord lane_numbers lanes.now i }
    ensures { result ≡ Back·decodes lanes.now i }
{
    match lane_at(lanes, i) {
        Lane::Idle => has_numbers(lanes, i, 0, 0, 0, coded(0)),
        Lane::Busy(task) => has_numbers(
            lanes,
            i,
            op_code(task.op),
            task.key,
            task.value,
            StageWords::from(task.stage),
        ),
    }
}

// The lane does nothing.
pub fn is_idle(lane: Lane) -> bool
    ensures { result ≡ is_idle lane }
{
    matches!(lane, Lane::Idle)
}
