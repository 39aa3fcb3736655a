// A lock stands: its flag and its count are what the lanes' parts in it add up to, and nobody reads while another writes.
ghost use Rattle.std.specs.Prelude.{◌≡◌, ◌<◌, ◌≤◌};
ghost use Rattle.machine.specs.Standing.{lock_stands};
ghost use Rattle.standing.specs.Partial.{locks_table};
ghost use Rattle.standing.specs.Parts.{shares_at, shares_to};

use super::Lent;
use holds::{Shares, shares_of};
use locks::lock_at;

impl Lent<'_> {
    // What lane j adds to lock k.
    #[tactic(auto, unfolding(crate::specs::Parts::shares_at, crate::specs::Parts::grip_in))]
    fn lane_shares(self, j: usize, k: u32) -> Shares
        requires { j < self.z.sizes.lanes }
        ensures { result ≡ shares_at self.entry.z.sizes self.entry.lanes.now self.entry.path.now k j }
    {
        shares_of(self.z.sizes, self.seat(j).grip(), k)
    }

    // What all lanes add to lock k.
    fn all_shares(self, k: u32) -> Shares
        ensures { result ≡ shares_to self.entry.z.sizes self.entry.lanes.now self.entry.path.now k self.entry.z.sizes.lanes }
    {
        let mut sum = Shares::default();
        for j in 0..self.z.sizes.lanes as usize {
            sum = sum + self.lane_shares(j, k);
        }
        sum
    }

    #[tactic(auto, unfolding(machine::specs::Standing::lock_stands, locks::specs::Parts::lock_tests, crate::specs::Parts::parts_to, crate::specs::Parts::grip_in))]
    pub(crate) fn lock_stands(self, k: u32) -> bool
        requires { k ≤ self.z.sizes.locks }
        ensures { result ≡ lock_stands self.entry.z.sizes (locks_table self.entry.locks.now self.entry.lanes.now self.entry.path.now) k }
    {
        let lock = lock_at(self.z.sizes, self.locks, k as usize);
        let sum = self.all_shares(k);
        lock.flag == sum.flag
            && sum.flag <= 1
            && lock.count == sum.count
            && (sum.writes == 0 || sum.reads == 0)
    }
}
