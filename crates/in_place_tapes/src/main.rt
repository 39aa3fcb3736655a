// Steps the lane of 01's whole case where it lies: an insert alone in an empty table. Prints what each step answers, then the
// slots. The stored output is beside src/. Uses `in_place` and what stands below it.
#![tactic(auto)]

ghost use Rattle.std.specs.Prelude.{◌≡◌};
ghost use Rattle.in_place_tapes.specs.Tape.{small_sizes, first_lane, Stands};

use acts::LentMemory;
use in_place::step_local;
use linear::End;
use locks::Mode;
use machine::{Lane, Op, Stage, Task};
use paths::{PLACE_NUMBERS, SPARE_PLACES};
use places::{Layout, Sizes};
use slots::SLOT_NUMBERS;
use std::io;

// The sizes of the whole case, and how many numbers its slots and its path take.
const SMALL: Sizes = Sizes {
    rows: 3,
    columns: 1,
    locks: 3,
    lanes: 1,
};

const SLOT_WORDS: usize = (SMALL.rows * SMALL.columns) as usize * SLOT_NUMBERS;

const PATH_WORDS: usize = (SMALL.rows + SPARE_PLACES) as usize * PLACE_NUMBERS;

#[tactic(auto, unfolding(crate::specs::Tape::after_steps, places::specs::Table::slot_count))]
fn main(rt: HostRuntime) -> io::Result<()> {
    let mut slots = [0u32; SLOT_WORDS];
    let mut locks = [0u32; 8];
    let mut path = [0u32; PATH_WORDS];
    insert_alone(&rt, &mut slots, &mut locks, &mut path)?;
    for n in &slots {
        println!(rt; "{n}")?;
    }
    Ok(())
}

fn say_answer(rt: &impl Print, a: Option<End>) -> io::Result<()> {
    let text = match a {
        None => "goes on",
        Some(End::ReadNone) => "read none",
        Some(End::ReadValue(_)) => "read",
        Some(End::Deleted) => "delete",
        Some(End::InsertYes) => "insert yes",
        Some(End::InsertSearched) => "insert searched",
        Some(End::InsertWalked) => "insert walked",
    };
    println!(rt; "{text}")
}

fn small_layout() -> Layout
    ensures { result.sizes ≡ small_sizes }
{
    Layout { sizes: SMALL }
}

fn first_lane() -> Lane
    ensures { result ≡ first_lane }
{
    Lane::Busy(Task {
        op: Op::Insert,
        key: 1024,
        value: 7,
        stage: Stage::TakeMain(Mode::Writing.grab(small_layout().sizes)),
    })
}

// The insert takes 11 + 2W steps.
fn insert_alone(
    rt: &impl Print,
    slots: &mut [u32],
    locks: &mut [u32],
    path: &mut [u32],
) -> io::Result<()>
    requires { Stands slots.old locks.old path.old first_lane 0 }
{
    let mut m = LentMemory {
        z: small_layout(),
        slots,
        locks,
        path,
    };
    let mut lane = first_lane();
    for _ in 0..13u32 {
        let moved = step_local(&mut m, lane, 0);
        say_answer(rt, moved.answer)?;
        lane = moved.lane;
    }
    Ok(())
}
