// A lane stands: its numbers are those of a lane and in range, and what it claims of the slots is so.
ghost use Rattle.std.specs.Prelude.{◌≡◌, ◌<◌, Bool};
ghost use Rattle.lists.specs.Below.{all_below, all_of};
ghost use Rattle.places.specs.Table.{slot_index};
ghost use Rattle.slots.specs.declared.Slot.{Slot};
ghost use Rattle.slots.specs.Slot.{slot_at};
ghost use Rattle.machine.specs.Standing.{row_stands, slot_stands, claim_tests, lane_stands};
ghost use Rattle.standing.specs.Partial.{lanes_table};
ghost use Rattle.standing.specs.Looks.{Tests};

use super::Lent;
use holds::Seat;
use machine::{Claims, RowClaim, SlotClaim};
use ranges::lane_in;
use records::decodes;
use slots::Slot;

impl Lent<'_> {
    // The first columns of a row pass a test.
    fn row_passes<F: Fn(Slot) -> bool>(self, row: u32, columns: u32, test: F) -> bool
        requires { F.IsAlwaysCallable test }
        ensures { (p : Slot → Bool) → Tests (F.post test) p → result ≡ all_below columns (λ i. p (slot_at self.entry.slots.now (slot_index self.entry.z.sizes row i))) }
    {
        (0..columns).all(|i| test(self.slot_of(row, i)))
    }

    // The first columns of a row lack the key, and its first columns are full.
    #[tactic(auto, unfolding(machine::specs::Standing::row_stands))]
    fn row_stands(self, key: u32, c: RowClaim) -> bool
        ensures { result ≡ row_stands self.entry.z.sizes self.entry.slots.now key c }
    {
        self.row_passes(c.row, c.lacking, |slot| !slot.has_key(key))
            && self.row_passes(c.row, c.full, Slot::is_full)
    }

    #[tactic(auto, unfolding(machine::specs::Standing::slot_stands))]
    fn slot_stands(self, key: u32, c: SlotClaim) -> bool
        ensures { result ≡ slot_stands self.entry.z.sizes self.entry.slots.now key c }
    {
        match c {
            SlotClaim::NoClaim => true,
            SlotClaim::HasKey(row, column) => self.slot_of(row, column).has_key(key),
            SlotClaim::HasPair(row, column, value) => {
                let s = self.slot_of(row, column);
                s.has_key(key) && s.value == value
            }
            SlotClaim::HasRoom(row, column) => self.slot_of(row, column).is_empty(),
        }
    }

    // All that a lane claims is so.
    fn claims_stand(self, key: u32, c: Claims) -> bool
        ensures { result ≡ all_of (claim_tests self.entry.z.sizes self.entry.slots.now key c) }
    {
        self.row_stands(key, c.one) && self.row_stands(key, c.two) && self.slot_stands(key, c.slot)
    }

    // Lane j stands. Its numbers are tested before its claims: the loops over columns are then short.
    #[tactic(auto, unfolding(machine::specs::Standing::lane_stands))]
    pub(crate) fn lane_stands(self, j: usize) -> bool
        requires { j < self.z.sizes.lanes }
        ensures { result ≡ lane_stands self.entry.z.sizes (lanes_table self.entry.slots.now self.entry.lanes.now self.entry.path.now) j }
    {
        if !decodes(self.lanes, j) {
            return false;
        }
        let seat = self.seat(j);
        lane_in(seat.z, seat.lane, seat.last) && self.claims_stand(seat.key(), seat.claims())
    }
}
