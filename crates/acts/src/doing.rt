// The lent memory, and the one atomic thing that a step does to it: the only code that touches it.
#![tactic(auto, unfolding(machine::specs::Steps::perform, crate::specs::Fitting::ActFits, crate::specs::Fitting::TailFits, crate::specs::Fitting::can_move))]

ghost use Rattle.std.specs.Prelude.{◌≡◌, cond, ◌/◌, ◌%◌, ◌≤◌, ◌<◌, eqb};
ghost use Rattle.machine.specs.Steps.{tailed};
ghost use Rattle.acts.specs.Fitting.{memory, MemoryFits, TailFits};

use locks::{Grab, Mode, release, take_step};
use machine::{Act, Seen, Tail};
use paths::{Place, empty_path, set_place};
use places::Layout;
use slots::{Slot, Slots, set_slot};

// The slots, locks and path that are lent to a step, each as long as the sizes call for.
#[derive(Drop)]
pub struct LentMemory<'a> {
    pub z: Layout,
    pub slots: &'a mut [u32],
    pub locks: &'a mut [u32],
    pub path: &'a mut [u32],
    ghost fits: { MemoryFits z.sizes (memory slots.now locks.now path.now) },
}

// What a release does to the path.
fn trim(path: &mut [u32], tail: Tail)
    requires { TailFits path.old tail }
    ensures { path.new ≡ tailed tail path.old }
{
    match tail {
        Tail::Keep => {}
        Tail::TakeOff(i) => set_place(path, i as usize, Place::none()),
        Tail::Clear => empty_path(path),
    }
}

// The row that the first pick's byte names.
fn row_picked(byte: u8, one: u32, two: u32) -> u32
    ensures { result ≡ cond (eqb (byte % 2) 0) one two }
{
    if byte % 2 == 0 { one } else { two }
}

impl LentMemory<'_> {
    ghost use Rattle.places.specs.Table.{slot_index};
    ghost use Rattle.slots.specs.Slot.{with_slot};
    ghost use Rattle.paths.specs.Path.{path_places, with_place};
    ghost use Rattle.machine.specs.Steps.{slot_in, place_of, with_slots, with_path, perform};
    ghost use Rattle.acts.specs.Fitting.{ActFits, can_move};
    ghost use Rattle.acts.specs.Lent.{memory_of, Becomes, Performs};

    // The slot of that row and column.
    fn slot(&self, row: u32, column: u32) -> Slot
        requires row_lt_rows { row < self.now.z.sizes.rows }
        requires column_lt_columns { column < self.now.z.sizes.columns }
        ensures { result ≡ slot_in self.now.z.sizes (memory_of self.now) row column }
    {
        Slots {
            z: self.z,
            numbers: self.slots,
        }
        .at(row, column)
    }

    // The write of that slot.
    #[tactic(auto, using(places::proofs::Limits::slot_in_lem))]
    fn set_slot(&mut self, row: u32, column: u32, s: Slot)
        requires row_lt_rows { row < self.old.z.sizes.rows }
        requires column_lt_columns { column < self.old.z.sizes.columns }
        ensures { Becomes self.old self.new (with_slots (memory_of self.old) (with_slot self.old.slots.now (slot_index self.old.z.sizes row column) s)) }
    {
        set_slot(self.slots, self.z.slot_index(row, column), s);
    }

    // The place of that row and column and the key that stands there, as place i of the path.
    fn pick(&mut self, i: u32, row: u32, column: u32)
        requires i_in_path { i < path_places self.old.z.sizes }
        requires row_lt_rows { row < self.old.z.sizes.rows }
        requires column_lt_columns { column < self.old.z.sizes.columns }
        ensures { Becomes self.old self.new (with_path (memory_of self.old) (with_place self.old.path.now i (place_of self.old.z.sizes (memory_of self.old) row column))) }
    {
        let key = self.slot(row, column).key;
        set_place(self.path, i as usize, Place { row, column, key });
    }

    // A pair still stands where it was seen, and the free place is empty.
    fn can_move(&self, from: Place, row: u32, column: u32) -> bool
        requires { ActFits self.now.z.sizes (memory_of self.now) (Act.Move from row column) }
        ensures { result ≡ can_move self.now.z.sizes self.now.slots.now from row column }
    {
        let slots = Slots {
            z: self.z,
            numbers: self.slots,
        };
        slots.look_for_key(from.row, from.column, from.key) && slots.look_for_room(row, column)
    }

    // One step of taking lock k.
    fn take(&mut self, k: u32, g: Grab) -> Seen
        requires { ActFits self.old.z.sizes (memory_of self.old) (Act.Try k g) }
        ensures { Performs result self.old self.new (perform self.old.z.sizes (Act.Try k g) 0 (memory_of self.old)) }
    {
        Seen {
            tried: take_step(self.z.sizes, self.locks, k as usize, g),
            slot: Slot::empty(),
        }
    }

    // The release of lock k.
    fn release(&mut self, k: u32, mode: Mode, tail: Tail) -> Seen
        requires { ActFits self.old.z.sizes (memory_of self.old) (Act.Release k mode tail) }
        ensures { Performs result self.old self.new (perform self.old.z.sizes (Act.Release k mode tail) 0 (memory_of self.old)) }
    {
        release(self.z.sizes, self.locks, k as usize, mode);
        trim(self.path, tail);
        Seen::default()
    }

    // A look at one slot.
    fn look(&self, row: u32, column: u32) -> Seen
        requires { ActFits self.now.z.sizes (memory_of self.now) (Act.Look row column) }
        ensures { Performs result self.now self.now (perform self.now.z.sizes (Act.Look row column) 0 (memory_of self.now)) }
    {
        Seen {
            tried: None,
            slot: self.slot(row, column),
        }
    }

    // The write of one slot.
    fn store(&mut self, row: u32, column: u32, s: Slot) -> Seen
        requires { ActFits self.old.z.sizes (memory_of self.old) (Act.Store row column s) }
        ensures { Performs result self.old self.new (perform self.old.z.sizes (Act.Store row column s) 0 (memory_of self.old)) }
    {
        self.set_slot(row, column, s);
        Seen::default()
    }

    // The first pick: a place of one of the two rows begins the path.
    fn pick_one(&mut self, one: u32, two: u32, byte: u8) -> Seen
        requires { ActFits self.old.z.sizes (memory_of self.old) (Act.PickOne one two) }
        ensures { Performs result self.old self.new (perform self.old.z.sizes (Act.PickOne one two) byte (memory_of self.old)) }
    {
        self.pick(
            0,
            row_picked(byte, one, two),
            u32::from(byte / 2) % self.z.sizes.columns,
        );
        Seen::default()
    }

    // A pick of the search: a place of that row, as place i of the path.
    fn pick_from(&mut self, row: u32, i: u32, byte: u8) -> Seen
        requires { ActFits self.old.z.sizes (memory_of self.old) (Act.PickFrom row i) }
        ensures { Performs result self.old self.new (perform self.old.z.sizes (Act.PickFrom row i) byte (memory_of self.old)) }
    {
        self.pick(i, row, u32::from(byte) % self.z.sizes.columns);
        Seen::default()
    }

    // A swing: the pair moves, or the step skips.
    fn swing(&mut self, from: Place, row: u32, column: u32) -> Seen
        requires { ActFits self.old.z.sizes (memory_of self.old) (Act.Move from row column) }
        ensures { Performs result self.old self.new (perform self.old.z.sizes (Act.Move from row column) 0 (memory_of self.old)) }
    {
        if self.can_move(from, row, column) {
            let pair = self.slot(from.row, from.column);
            self.set_slot(from.row, from.column, Slot::empty());
            self.set_slot(row, column, pair);
        }
        Seen::default()
    }

    // What an act does to the memory, and what it sees; byte is for picks.
    pub fn perform(&mut self, act: Act, byte: u8) -> Seen
        requires { ActFits self.old.z.sizes (memory_of self.old) act }
        ensures { Performs result self.old self.new (perform self.old.z.sizes act byte (memory_of self.old)) }
    {
        match act {
            Act::Try(k, g) => self.take(k, g),
            Act::Release(k, mode, tail) => self.release(k, mode, tail),
            Act::Look(row, column) => self.look(row, column),
            Act::Store(row, column, s) => self.store(row, column, s),
            Act::PickOne(one, two) => self.pick_one(one, two, byte),
            Act::PickFrom(row, i) => self.pick_from(row, i, byte),
            Act::Move(from, row, column) => self.swing(from, row, column),
        }
    }
}
