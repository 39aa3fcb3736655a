// Runs 01's row cases and some lists of slots, and prints what `places` and `slots` say of each. The stored output is beside
// src/. Uses `places`, `slots` and the numbers of `machine`'s refusals.
#![tactic(auto)]

mod cases;

use cases::{Case, HOMES, ORDER, ROWS, SHAPES, SOUND};
use machine::Refusal;
use places::{Layout, MAX_COLUMNS, MAX_ROWS, Sizes};
use slots::{MAX_SLOT_WORDS, Slots, slot_words};
use std::io;

fn main(rt: HostRuntime) -> io::Result<()> {
    for (rows, key) in ROWS {
        say_rows(&rt, rows, key)?;
    }
    say_all(&rt, &SOUND)?;
    say_all(&rt, &SHAPES)?;
    say_large(&rt)?;
    say_all(&rt, &HOMES)?;
    say_all(&rt, &ORDER)
}

// The home rows of a key, the first and the second.
fn say_rows(rt: &impl Print, rows: u32, key: u32) -> io::Result<()> {
    let sizes = Sizes {
        rows,
        columns: 1,
        locks: 1,
        lanes: 1,
    };
    match Layout::new(sizes) {
        Some(z) => {
            let (one, two) = (z.home_one(key), z.home_two(key));
            println!(rt; "rows {rows} key {key}: {one}, {two}")
        }
        None => {
            let number = Refusal::BadSizes.number();
            println!(rt; "rows {rows} key {key}: refused {number}")
        }
    }
}

fn say_all(rt: &impl Print, cases: &[Case]) -> io::Result<()> {
    for case in cases {
        say(rt, *case)?;
    }
    Ok(())
}

// What the slot check says of a list of slots.
fn say(rt: &impl Print, case: Case) -> io::Result<()> {
    let name = case.name;
    let Err(refusal) = checked(case) else {
        return println!(rt; "{name}: sound");
    };
    let (number, index) = (refusal.number(), refusal.index());
    match refusal {
        Refusal::Unsound(_) => println!(rt; "{name}: refused {number} at slot {index}"),
        _ => println!(rt; "{name}: refused {number}"),
    }
}

#[tactic(auto, using(places::proofs::Limits::slots_few))]
fn checked(case: Case) -> Result<(), Refusal> {
    let sizes = Sizes {
        rows: case.rows,
        columns: case.columns,
        locks: case.rows,
        lanes: 1,
    };
    let z = Layout::new(sizes).ok_or(Refusal::BadSizes)?;
    let numbers = case.slots;
    if numbers.len() != slot_words(z) {
        return Err(Refusal::BadLengths);
    }
    Slots { z, numbers }.check()?;
    Ok(())
}

fn say_large(rt: &impl Print) -> io::Result<()> {
    let mut slots = [0u32; MAX_SLOT_WORDS];
    slots[MAX_SLOT_WORDS - 1] = 1;
    say(
        rt,
        Case {
            name: "the last slot of the largest table",
            rows: MAX_ROWS,
            columns: MAX_COLUMNS,
            slots: &slots,
        },
    )
}
