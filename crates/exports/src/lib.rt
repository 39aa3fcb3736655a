// The C door: the desk's calls as C functions over plain numbers. docs/C-DOOR.md has the header.
// Uses `desk` and what stands below it.
#![tactic(auto)]

ghost use Rattle.std.specs.Prelude.{◌≡◌, ◌≤◌};
ghost use Rattle.places.specs.Table.{max_slots};
ghost use Rattle.machine.specs.Lane.{lane_numbers};
ghost use Rattle.machine.specs.Desk.{called, open_of, start_of, step_of, number_of, index_of};
ghost use Rattle.standing.specs.Tables.{table};
ghost use Rattle.exports.specs.Door.{sizes, door, open_numbers, step_numbers};

use desk::{open, start, step};
use linear::{End, Request};
use machine::Refusal;
use places::Sizes;
use records::LANE_NUMBERS;

// What opening answers: 01's number, and the slot's index with 3, 4 and 5.
#[repr(C)]
#[derive(Clone, Copy)]
pub struct SgOpened {
    pub number: u32,
    pub index: u32,
}

// What a step answers: 01's number, how the operation ended, and a read's value.
#[repr(C)]
#[derive(Clone, Copy)]
pub struct SgStepped {
    pub number: u32,
    pub end: u32,
    pub value: u32,
}

fn sizes(rows: u32, columns: u32, locks: u32, lanes: u32) -> Sizes
    ensures { result ≡ sizes rows columns locks lanes }
{
    Sizes {
        rows,
        columns,
        locks,
        lanes,
    }
}

// No `From`: it could not ask that the index fits.
fn opened_of(answer: Result<(), Refusal>) -> SgOpened
    requires { index_of answer ≤ max_slots }
    ensures { result ≡ open_numbers answer }
{
    match answer {
        Ok(()) => SgOpened {
            number: 0,
            index: 0,
        },
        Err(refusal) => SgOpened {
            number: refusal.number(),
            index: refusal.index() as u32,
        },
    }
}

impl From<Result<Option<End>, Refusal>> for SgStepped {
    ghost from_gives = { λ answer numbers. numbers ≡ step_numbers answer };

    fn from(answer: Result<Option<End>, Refusal>) -> SgStepped {
        let (number, end, value) = match answer {
            Ok(None) => (0, 0, 0),
            Ok(Some(End::ReadNone)) => (0, 1, 0),
            Ok(Some(End::ReadValue(value))) => (0, 2, value),
            Ok(Some(End::Deleted)) => (0, 3, 0),
            Ok(Some(End::InsertYes)) => (0, 4, 0),
            Ok(Some(End::InsertSearched)) => (0, 5, 0),
            Ok(Some(End::InsertWalked)) => (0, 6, 0),
            Err(refusal) => (refusal.number(), 0, 0),
        };
        SgStepped { number, end, value }
    }
}

// A start of what is asked, as its number.
fn started(
    z: Sizes,
    slots: &[u32],
    words: &[u32],
    records: &mut [u32],
    path: &[u32],
    lane: u32,
    request: Request,
) -> u32
    ensures { called result (table slots.now words.now records.new path.now)
        ≡ door number_of (start_of z (table slots.now words.now records.old path.now) lane request) }
{
    match start(z, slots, words, records, path, lane, request) {
        Ok(()) => 0,
        Err(refusal) => refusal.number(),
    }
}

// How many numbers a lane record takes.
#[unsafe(no_mangle)]
pub extern "C" fn sg_lane_numbers() -> u32
    ensures { result ≡ lane_numbers }
{
    LANE_NUMBERS as u32
}

// Opens a table over lent memory.
#[unsafe(no_mangle)]
pub extern "C" fn sg_open(
    rows: u32,
    columns: u32,
    locks: u32,
    lanes: u32,
    slots: &mut [u32],
    words: &mut [u32],
    records: &mut [u32],
    path: &mut [u32],
) -> SgOpened
    ensures { called result (table slots.new words.new records.new path.new)
        ≡ door open_numbers (open_of (sizes rows columns locks lanes) (table slots.old words.old records.old path.old)) }
{
    let z = sizes(rows, columns, locks, lanes);
    opened_of(open(z, slots, words, records, path))
}

// Starts a read of a key on a lane.
#[unsafe(no_mangle)]
pub extern "C" fn sg_start_read(
    rows: u32,
    columns: u32,
    locks: u32,
    lanes: u32,
    slots: &mut [u32],
    words: &mut [u32],
    records: &mut [u32],
    path: &mut [u32],
    lane: u32,
    key: u32,
) -> u32
    ensures { called result (table slots.new words.new records.new path.new)
        ≡ door number_of (start_of (sizes rows columns locks lanes) (table slots.old words.old records.old path.old) lane (Request.Read key)) }
{
    let z = sizes(rows, columns, locks, lanes);
    started(z, slots, words, records, path, lane, Request::Read(key))
}

// Starts a delete of a key on a lane.
#[unsafe(no_mangle)]
pub extern "C" fn sg_start_delete(
    rows: u32,
    columns: u32,
    locks: u32,
    lanes: u32,
    slots: &mut [u32],
    words: &mut [u32],
    records: &mut [u32],
    path: &mut [u32],
    lane: u32,
    key: u32,
) -> u32
    ensures { called result (table slots.new words.new records.new path.new)
        ≡ door number_of (start_of (sizes rows columns locks lanes) (table slots.old words.old records.old path.old) lane (Request.Delete key)) }
{
    let z = sizes(rows, columns, locks, lanes);
    started(z, slots, words, records, path, lane, Request::Delete(key))
}

// Starts an insert of a key and a value on a lane.
#[unsafe(no_mangle)]
pub extern "C" fn sg_start_insert(
    rows: u32,
    columns: u32,
    locks: u32,
    lanes: u32,
    slots: &mut [u32],
    words: &mut [u32],
    records: &mut [u32],
    path: &mut [u32],
    lane: u32,
    key: u32,
    value: u32,
) -> u32
    ensures { called result (table slots.new words.new records.new path.new)
        ≡ door number_of (start_of (sizes rows columns locks lanes) (table slots.old words.old records.old path.old) lane (Request.Insert key value)) }
{
    let z = sizes(rows, columns, locks, lanes);
    started(
        z,
        slots,
        words,
        records,
        path,
        lane,
        Request::Insert(key, value),
    )
}

// Does one step of a lane; byte is the scheduler's.
#[unsafe(no_mangle)]
pub extern "C" fn sg_step(
    rows: u32,
    columns: u32,
    locks: u32,
    lanes: u32,
    slots: &mut [u32],
    words: &mut [u32],
    records: &mut [u32],
    path: &mut [u32],
    lane: u32,
    byte: u8,
) -> SgStepped
    ensures { called result (table slots.new words.new records.new path.new)
        ≡ door step_numbers (step_of (sizes rows columns locks lanes) (table slots.old words.old records.old path.old) lane byte) }
{
    let z = sizes(rows, columns, locks, lanes);
    step(z, slots, words, records, path, lane, byte).into()
}
