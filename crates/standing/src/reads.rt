// Reads of the lent numbers by what a record says: zeros where it points past their end.
ghost use Rattle.std.specs.Prelude.{◌≡◌, ◌<◌};
ghost use Rattle.places.specs.Table.{slot_index};
ghost use Rattle.slots.specs.Slot.{slot_at};
ghost use Rattle.paths.specs.Path.{place_at, last_of};
ghost use Rattle.machine.specs.Back.{lane_at};
ghost use Rattle.machine.specs.Stages.{places_of};

use super::Lent;
use acts::places_of;
use holds::Seat;
use machine::Lane;
use paths::{Place, last_of, path_places, place_at};
use records::lane_at;
use slots::{Slot, slot_at};

impl Lent<'_> {
    // The slot of a row and column.
    #[tactic(auto, using(crate::proofs::Beyond::slot_past), unfolding(places::specs::Table::slot_index))]
    pub(crate) fn slot_of(self, row: u32, column: u32) -> Slot
        ensures { result ≡ slot_at self.entry.slots.now (slot_index self.entry.z.sizes row column) }
    {
        let i = (row as usize) * (self.z.sizes.columns as usize) + (column as usize);
        if i < self.z.slot_count() {
            slot_at(self.slots, i)
        } else {
            Slot::empty()
        }
    }

    // Place i of the path store.
    pub(crate) fn place_of(self, i: usize) -> Place
        ensures { result ≡ place_at self.entry.path.now i }
    {
        if i < path_places(self.z) as usize {
            place_at(self.path, i)
        } else {
            Place::none()
        }
    }

    // Lane j, and the last place on its path.
    pub(crate) fn seat(self, j: usize) -> Seat
        requires { j < self.z.sizes.lanes }
        ensures table { result.z.sizes ≡ self.entry.z.sizes }
        ensures lane { result.lane ≡ lane_at self.entry.lanes.now j }
        ensures last { result.last ≡ last_of self.entry.path.now (places_of (lane_at self.entry.lanes.now j)) }
    {
        let lane = lane_at(self.lanes, j);
        Seat {
            z: self.z,
            lane,
            last: self.last_place(lane),
        }
    }

    // The last place on a lane's path.
    fn last_place(self, lane: Lane) -> Place
        ensures { result ≡ last_of self.entry.path.now (places_of lane) }
    {
        let n = places_of(lane);
        if n <= path_places(self.z) {
            last_of(self.path, n)
        } else {
            Place::none()
        }
    }
}
