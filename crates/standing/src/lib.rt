// The standing check of a table: its slots, every lane, the path and every lock. Uses `ranges`, `holds`, `acts`, `records`
// and what stands below them.
#![tactic(auto)]

mod claims;
mod counts;
mod reads;
mod route;

ghost use Rattle.std.specs.Prelude.{◌≡◌, ◌+◌};
ghost use Rattle.lists.specs.Below.{all_below};
ghost use Rattle.slots.specs.Sound.{sound};
ghost use Rattle.machine.specs.Standing.{lane_stands, lock_stands, standing};
ghost use Rattle.standing.specs.Tables.{table};
ghost use Rattle.standing.specs.Partial.{lanes_table, locks_table, Lengths};

use places::Layout;
use slots::Slots;

// The numbers of a table, lent to be read: each list is as long as the sizes need.
#[derive(Clone, Copy)]
pub struct Lent<'a> {
    pub z: Layout,
    pub slots: &'a [u32],
    pub locks: &'a [u32],
    pub lanes: &'a [u32],
    pub path: &'a [u32],
    ghost exact: { Lengths z.sizes slots.now locks.now lanes.now path.now },
}

impl Lent<'_> {
    // The slots are sound.
    fn slots_sound(self) -> bool
        ensures { result ≡ sound self.entry.z.sizes self.entry.slots.now }
    {
        let slots = Slots {
            z: self.z,
            numbers: self.slots,
        };
        slots.check().is_ok()
    }

    // Every lane stands.
    fn lanes_stand(self) -> bool
        ensures { result ≡ all_below self.entry.z.sizes.lanes (lane_stands self.entry.z.sizes (lanes_table self.entry.slots.now self.entry.lanes.now self.entry.path.now)) }
    {
        (0..self.z.sizes.lanes as usize).all(|j| self.lane_stands(j))
    }

    // Every lock stands, main too.
    fn locks_stand(self) -> bool
        ensures { result ≡ all_below (self.entry.z.sizes.locks + 1) (lock_stands self.entry.z.sizes (locks_table self.entry.locks.now self.entry.lanes.now self.entry.path.now)) }
    {
        (0..self.z.sizes.locks + 1).all(|k| self.lock_stands(k))
    }

    // The standing check. The lanes are tested before the path and the locks: their numbers are then in range, and the loops over the path short.
    #[tactic(auto, unfolding(machine::specs::Standing::standing, machine::specs::Standing::lane_stands, machine::specs::Standing::path_stands, machine::specs::Standing::lock_stands))]
    pub fn stands(self) -> bool
        ensures { result ≡ standing self.entry.z.sizes (table self.entry.slots.now self.entry.locks.now self.entry.lanes.now self.entry.path.now) }
    {
        self.slots_sound() && self.lanes_stand() && self.path_stands() && self.locks_stand()
    }
}
