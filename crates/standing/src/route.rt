// The path stands: its places are in range and linked, and unused ones are zeros.
ghost use Rattle.std.specs.Prelude.{◌≡◌, ◌-◌, ◌<◌, ◌≤◌};
ghost use Rattle.lists.specs.Below.{sum_below, all_below};
ghost use Rattle.paths.specs.Path.{path_places};
ghost use Rattle.machine.specs.Standing.{place_stands, path_stands, linked, unused};
ghost use Rattle.standing.specs.Partial.{path_table};
ghost use Rattle.standing.specs.Looks.{placed_at, cleared_at, length_at, most_used};

use super::Lent;
use acts::places_of;
use paths::{Place, path_places};
use places::MAX_KEY;
use records::lane_at;

impl Lent<'_> {
    // How many places are on the path.
    fn path_used(self) -> usize
        ensures value { result ≡ sum_below self.entry.z.sizes.lanes (length_at self.entry.lanes.now) }
        ensures upper_bound { result ≤ most_used }
    {
        let mut used = 0;
        for j in 0..self.z.sizes.lanes as usize {
            used += places_of(lane_at(self.lanes, j)) as usize;
        }
        used
    }

    // A place is in range and in a home row of its key.
    #[tactic(auto, unfolding(machine::specs::Standing::place_stands))]
    fn place_stands(self, p: Place) -> bool
        ensures { result ≡ place_stands self.entry.z.sizes p }
    {
        p.row < self.z.sizes.rows
            && p.column < self.z.sizes.columns
            && p.key <= MAX_KEY
            && (p.row == self.z.home_one(p.key) || p.row == self.z.home_two(p.key))
    }

    // The place after place i is in the other row of its key.
    #[tactic(auto, unfolding(machine::specs::Standing::linked))]
    fn linked(self, i: usize) -> bool
        requires { i < most_used }
        ensures { result ≡ linked self.entry.z.sizes self.entry.path.now i }
    {
        let next = self.place_of(i + 1);
        next.row == self.place_of(i).other_row(self.z)
    }

    // Place i is zeros.
    #[tactic(auto, unfolding(machine::specs::Standing::unused))]
    fn unused(self, i: usize) -> bool
        ensures { result ≡ unused self.entry.path.now i }
    {
        let p = self.place_of(i);
        (p.row, p.column, p.key) == (0, 0, 0)
    }

    // The used places stand.
    fn places_stand(self, used: usize) -> bool
        ensures { result ≡ all_below used (placed_at self.entry.z.sizes self.entry.path.now) }
    {
        (0..used).all(|i| self.place_stands(self.place_of(i)))
    }

    // Each used place but the last is linked to the next.
    fn links_stand(self, used: usize) -> bool
        requires { used ≤ most_used }
        ensures { result ≡ all_below (used - 1) (linked self.entry.z.sizes self.entry.path.now) }
    {
        (0..used.saturating_sub(1)).all(|i| self.linked(i))
    }

    // The places past the used ones are zeros.
    fn rest_unused(self, used: usize) -> bool
        ensures { result ≡ all_below (path_places self.entry.z.sizes) (cleared_at self.entry.path.now used) }
    {
        (0..path_places(self.z) as usize).all(|i| i < used || self.unused(i))
    }

    #[tactic(auto, unfolding(machine::specs::Standing::path_stands, crate::specs::Looks::length_at, crate::specs::Looks::placed_at, crate::specs::Looks::cleared_at))]
    pub(crate) fn path_stands(self) -> bool
        ensures { result ≡ path_stands self.entry.z.sizes (path_table self.entry.lanes.now self.entry.path.now) }
    {
        let used = self.path_used();
        self.places_stand(used) && self.links_stand(used) && self.rest_unused(used)
    }
}
