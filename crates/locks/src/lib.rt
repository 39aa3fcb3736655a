// Locks: the lent lock words, the steps that take a lock for reading or writing, its release, what a lane's part in it adds to it,
// and how far a lane is with taking it in the lane record. Uses `lists` and `places`.
#![tactic(auto)]

mod grabs;
mod parts;
mod taking;
mod words;

pub use taking::{release, take_step};
pub use words::{LOCK_NUMBERS, MAX_LOCK_WORDS, lock_at, lock_words, main_lock};

// A lock: the flag of its writer, the count of its readers.
#[derive(Clone, Copy)]
pub struct Lock {
    pub flag: u32,
    pub count: u32,
}

// What a lock is taken for.
#[derive(Clone, Copy, PartialEq, Eq)]
pub enum Mode {
    Reading,
    Writing,
}

// How far a lane is with taking a lock: R1 to R4 for reading (R2 with the count it noted), W1 and W2 for writing.
#[derive(Clone, Copy, PartialEq, Eq)]
pub enum Grab {
    R1,
    R2(u32),
    R3,
    R4,
    W1,
    W2,
}

// A lock after a step of taking it, and the grab at which the lane goes on: none once the lock is held.
#[derive(Clone, Copy)]
pub struct AfterTry {
    pub lock: Lock,
    pub tried: Option<Grab>,
}

// A lane's part in a lock: none, on the way to taking it, or holding it.
#[derive(Clone, Copy)]
pub enum Part {
    NoPart,
    Tries(Grab),
    Holds(Mode),
}
