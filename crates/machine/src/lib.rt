// The machine as 01 says it: a lane and its numbers, its steps, the standing check, and what the desk answers. Definitions and laws,
// no code but a refusal's numbers and the choice by a side. Uses `lists`, `linear`, `places`, `slots`, `locks` and `paths`.
#![tactic(auto)]

mod refusals;
mod sides;

use linear::End;
use locks::{Grab, Mode, Part};
use paths::Place;
use slots::{Fault, Slot};

// What a lane is doing. Again is an insert in its second pass.
#[derive(Clone, Copy, PartialEq, Eq)]
pub enum Op {
    Read,
    Delete,
    Insert,
    Again,
}

// Which of the two home rows, in locking order.
#[derive(Clone, Copy, PartialEq, Eq)]
pub enum Side {
    First,
    Second,
}

// A search: the picks it has made, and the places on its path.
#[derive(Clone, Copy)]
pub struct Trail {
    pub picks: u32,
    pub places: u32,
}

// A walk: the places still on its path, and the free place.
#[derive(Clone, Copy)]
pub struct Walk {
    pub places: u32,
    pub row: u32,
    pub column: u32,
}

// What a pass over the two home rows came to. A read's hit has its column and the value seen.
#[derive(Clone, Copy)]
pub enum Outcome {
    Hit(Side, u32, u32),
    Wrote(Side),
    Filled,
    Miss,
    Picked,
    Stuck,
}

// How an insert ends.
#[derive(Clone, Copy)]
pub enum Ending {
    Yes,
    Searched(u32),
    Walked,
}

// Where a lane stands: its next step is the item named. DropNext has what the attempt came to: a free column, or none in a full row.
#[derive(Clone, Copy)]
pub enum Stage {
    TakeMain(Grab),
    Take(Side, Grab),
    Seek(Side, u32),
    SeekRoom(Side, u32),
    WriteHit(Side, u32),
    WriteRoom(Side, u32),
    Pick,
    Drop(Side, Outcome),
    DropMain(Ending),
    TakeNext(Grab, Trail),
    LookNext(u32, Trail),
    PickNext(Trail),
    DropNext(Option<u32>, Trail),
    TakeSwing(Side, Grab, Walk),
    Swing(Walk),
    DropSwing(Side, Walk),
}

// An operation that is under way.
#[derive(Clone, Copy)]
pub struct Task {
    pub op: Op,
    pub key: u32,
    pub value: u32,
    pub stage: Stage,
}

// "A lane is idle or has an operation."
#[derive(Clone, Copy)]
pub enum Lane {
    Idle,
    Busy(Task),
}

// What a release does to the path: nothing, the place at that index leaves it, or all do.
#[derive(Clone, Copy)]
pub enum Tail {
    Keep,
    TakeOff(u32),
    Clear,
}

// One atomic thing that a step does to the lent memory.
#[derive(Clone, Copy)]
pub enum Act {
    Try(u32, Grab),
    Release(u32, Mode, Tail),
    Look(u32, u32),
    Store(u32, u32, Slot),
    PickOne(u32, u32),
    PickFrom(u32, u32),
    Move(Place, u32, u32),
}

// What the act found: the grab at which a lane that takes a lock goes on, and the slot looked at. None and zeros where the act does neither.
#[derive(Clone, Copy, Default)]
pub struct Seen {
    pub tried: Option<Grab>,
    pub slot: Slot,
}

// A lane after its step, and the answer: None as long as the lane goes on, else how its operation ends.
#[derive(Clone, Copy)]
pub struct Moved {
    pub lane: Lane,
    pub answer: Option<End>,
}

// What a lane claims of one row: its first columns that lack the lane's key, and its first columns that are full.
#[derive(Clone, Copy, Default)]
pub struct RowClaim {
    pub row: u32,
    pub lacking: u32,
    pub full: u32,
}

// What a lane claims of one slot, by row and column.
#[derive(Clone, Copy)]
pub enum SlotClaim {
    NoClaim,
    HasKey(u32, u32),
    HasPair(u32, u32, u32),
    HasRoom(u32, u32),
}

// All that a lane claims of the slots in the rows it holds.
#[derive(Clone, Copy)]
pub struct Claims {
    pub one: RowClaim,
    pub two: RowClaim,
    pub slot: SlotClaim,
}

// A part in a row lock.
#[derive(Clone, Copy)]
pub struct RowPart {
    pub lock: u32,
    pub part: Part,
}

// A lane's part in the locks: in main, and in at most two row locks.
#[derive(Clone, Copy)]
pub struct Grip {
    pub main: Part,
    pub one: RowPart,
    pub two: RowPart,
}

// Why an opening, a start or a step is refused. Unsound names the lowest slot that breaks a rule, and which.
#[derive(Clone, Copy, PartialEq, Eq)]
pub enum Refusal {
    BadSizes,
    BadLengths,
    Unsound(Fault),
    NoLane,
    Busy,
    Idle,
    NotStanding,
    BadKey,
}
