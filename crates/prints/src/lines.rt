// The lines that a job prints, put into an `Out`.
ghost use Rattle.std.specs.Prelude.{◌+◌, ◌≤◌, length};
ghost use Rattle.prints.specs.Put.{Puts};
ghost use Rattle.prints.specs.Lines.{sizes_line, lane_line, value_line, answer_line, refused_line, place_text, pair_line, slot_line, slot_lines, end_lines};

use super::text::Out;
use linear::End;
use places::{Layout, MAX_SLOTS, Sizes};
use slots::{Slot, Slots, slot_at};

// The longest line of sizes.
pub const SIZES_BYTES: usize = 50;

// The longest line of a refusal.
pub const REFUSAL_BYTES: usize = 33;

// The longest line of a slot.
const SLOT_BYTES: usize = 65;

// The longest print of slots.
const SLOTS_BYTES: usize = MAX_SLOTS * SLOT_BYTES;

// The most that the end of a job prints: the slots, and `end`.
pub const END_BYTES: usize = SLOTS_BYTES + 4;

pub fn put_sizes(out: &mut Out, z: Sizes)
    requires { out.old.at + SIZES_BYTES ≤ length out.old.bytes.now }
    ensures { Puts out.old out.new (sizes_line z) }
{
    out.put_labelled(b"sizes ", z.rows);
    out.put_labelled(b" ", z.columns);
    out.put_labelled(b" ", z.locks);
    out.put_labelled(b" ", z.lanes);
    out.put_text(b"\n");
}

// A lane's number, and how its operation ended.
fn put_lane(out: &mut Out, j: u32, end: &[u8])
    requires { out.old.at + 15 + length end.now ≤ length out.old.bytes.now }
    ensures { Puts out.old out.new (lane_line j end.now) }
{
    out.put_labelled(b"lane ", j);
    out.put_text(end);
}

fn put_value(out: &mut Out, j: u32, value: u32)
    requires { out.old.at + 32 ≤ length out.old.bytes.now }
    ensures { Puts out.old out.new (value_line j value) }
{
    out.put_labelled(b"lane ", j);
    out.put_labelled(b" read ", value);
    out.put_text(b"\n");
}

// What a step of lane j prints: nothing where the lane goes on.
pub fn put_answer(out: &mut Out, j: u32, answer: Option<End>)
    requires { out.old.at + 32 ≤ length out.old.bytes.now }
    ensures { Puts out.old out.new (answer_line j answer) }
{
    match answer {
        None => {}
        Some(End::ReadNone) => put_lane(out, j, b" read none\n"),
        Some(End::ReadValue(value)) => put_value(out, j, value),
        Some(End::Deleted) => put_lane(out, j, b" delete\n"),
        Some(End::InsertYes) => put_lane(out, j, b" insert yes\n"),
        Some(End::InsertSearched) => put_lane(out, j, b" insert searched\n"),
        Some(End::InsertWalked) => put_lane(out, j, b" insert walked\n"),
    }
}

// A refusal's number, and the offset of what is refused.
pub fn put_refusal(out: &mut Out, number: u32, offset: u32)
    requires { out.old.at + REFUSAL_BYTES ≤ length out.old.bytes.now }
    ensures { Puts out.old out.new (refused_line number offset) }
{
    out.put_labelled(b"refused ", number);
    out.put_labelled(b" at ", offset);
    out.put_text(b"\n");
}

fn put_place(out: &mut Out, row: u32, column: u32)
    requires { out.old.at + 30 ≤ length out.old.bytes.now }
    ensures { Puts out.old out.new (place_text row column) }
{
    out.put_labelled(b"row ", row);
    out.put_labelled(b" col ", column);
    out.put_text(b" ");
}

fn put_pair(out: &mut Out, row: u32, column: u32, s: Slot)
    requires { out.old.at + SLOT_BYTES ≤ length out.old.bytes.now }
    ensures { Puts out.old out.new (pair_line row column s) }
{
    put_place(out, row, column);
    out.put_stroke(s.key);
    out.put_labelled(b" ", s.value);
    out.put_text(b"\n");
}

// The line of slot i, if it is full.
fn put_slot(out: &mut Out, z: Layout, i: u32, s: Slot)
    requires { out.old.at + SLOT_BYTES ≤ length out.old.bytes.now }
    ensures { Puts out.old out.new (slot_line z.sizes i s) }
{
    if s.is_full() {
        put_pair(out, i / z.sizes.columns, i % z.sizes.columns, s);
    }
}

// The full slots in index order.
fn put_slots(out: &mut Out, slots: Slots)
    requires { out.old.at + SLOTS_BYTES ≤ length out.old.bytes.now }
    ensures { Puts out.old out.new (slot_lines slots.entry.z.sizes slots.entry.numbers.now) }
{
    for i in 0..slots.z.slot_count() {
        put_slot(out, slots.z, i as u32, slot_at(slots.numbers, i));
    }
}

// What the end of a job prints: the full slots, and `end`.
pub fn put_end(out: &mut Out, slots: Slots)
    requires { out.old.at + END_BYTES ≤ length out.old.bytes.now }
    ensures { Puts out.old out.new (end_lines slots.entry.z.sizes slots.entry.numbers.now) }
{
    put_slots(out, slots);
    out.put_text(b"end\n");
}
