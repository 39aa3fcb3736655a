// What a lane's part in the locks adds to each of them.
ghost use Rattle.std.specs.Prelude.{◌≡◌, ℕ};
ghost use Rattle.locks.specs.declared.Part.{Part};
ghost use Rattle.machine.specs.Claims.{on_lock, share};
ghost use Rattle.holds.specs.Shares.{Measures, MeasuresLow, SumsFit, added, shares_of};

use locks::{Part, main_lock};
use machine::Grip;
use places::Sizes;
use std::ops::Add;

// What a lane adds to a lock: to its flag, to its count, to its writers and to its readers.
#[derive(Clone, Copy, Default)]
pub struct Shares {
    pub flag: u32,
    pub count: u32,
    pub writes: u32,
    pub reads: u32,
}

// What one lane adds and what others do, together.
impl Add for Shares {
    type Output = Shares;

    ghost can_add = { λ s t. SumsFit s t };

    ghost add_gives = { λ s t r. r ≡ added s t };

    fn add(self, others: Shares) -> Shares {
        Shares {
            flag: self.flag + others.flag,
            count: self.count + others.count,
            writes: self.writes + others.writes,
            reads: self.reads + others.reads,
        }
    }
}

fn on_lock(k: u32, lock: u32, n: u32) -> u32
    ensures { result ≡ on_lock k lock n }
{
    if k == lock { n } else { 0 }
}

// What a lane adds to lock k, by a measure of which a part has at most 1.
fn share<F: Fn(Part) -> u32>(z: Sizes, g: Grip, k: u32, measure: F) -> u32
    requires callable { F.IsAlwaysCallable measure }
    requires low { MeasuresLow (F.post measure) }
    ensures { (f : Part → ℕ) → Measures (F.post measure) f → result ≡ share z f g k }
{
    on_lock(k, main_lock(z), measure(g.main))
        + on_lock(k, g.one.lock, measure(g.one.part))
        + on_lock(k, g.two.lock, measure(g.two.part))
}

// What a lane adds to lock k.
#[tactic(auto, using(locks::proofs::Measures::flag_low, locks::proofs::Measures::count_low))]
pub fn shares_of(z: Sizes, g: Grip, k: u32) -> Shares
    ensures { result ≡ shares_of z g k }
{
    Shares {
        flag: share(z, g, k, Part::flag),
        count: share(z, g, k, Part::count),
        writes: share(z, g, k, Part::writes),
        reads: share(z, g, k, Part::reads),
    }
}
