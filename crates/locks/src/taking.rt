// A step of taking a lock, and its release. What they do goes by the table's kind of lock; there is one.
ghost use Rattle.std.specs.Prelude.{◌≡◌, ◌≤◌, ◌<◌, length};
ghost use Rattle.locks.specs.Locks.{lock_words, lock_at, with_lock};
ghost use Rattle.locks.specs.Taking.{with_flag, with_count, held, waits, grab_of, try_lock, released};
ghost use Rattle.locks.specs.Parts.{grab_count, mode_count};

use super::words::{lock_at, set_lock};
use super::{AfterTry, Grab, Lock, Mode};
use places::Sizes;

impl Mode {
    // How taking a lock begins.
    #[tactic(auto, unfolding(crate::specs::Taking::grab_of))]
    pub fn grab(self, _z: Sizes) -> Grab
        ensures { result ≡ grab_of _z self }
    {
        match self {
            Mode::Reading => Grab::R1,
            Mode::Writing => Grab::W1,
        }
    }
}

impl Lock {
    fn with_flag(self, flag: u32) -> Lock
        ensures { result ≡ with_flag self flag }
    {
        Lock { flag, ..self }
    }

    fn with_count(self, count: u32) -> Lock
        ensures { result ≡ with_count self count }
    {
        Lock { count, ..self }
    }

    fn held(self) -> AfterTry
        ensures { result ≡ held self }
    {
        AfterTry {
            lock: self,
            tried: None,
        }
    }

    fn waits(self, g: Grab) -> AfterTry
        ensures { result ≡ waits self g }
    {
        AfterTry {
            lock: self,
            tried: Some(g),
        }
    }

    // One step of taking a lock. A lane that has added itself to the count is in it.
    #[tactic(auto, unfolding(crate::specs::Taking::try_lock, crate::specs::Parts::grab_count))]
    fn try_lock(self, _z: Sizes, g: Grab) -> AfterTry
        requires count_bound { self.count < 4294967295 }
        requires g_bound { grab_count g ≤ self.count }
        ensures { result ≡ try_lock _z g self }
    {
        match g {
            Grab::R1 => self.waits(Grab::R2(self.count)),
            Grab::R2(noted) if noted == self.count => {
                self.with_count(self.count + 1).waits(Grab::R3)
            }
            Grab::R2(_) => self.waits(Grab::R1),
            Grab::R3 if self.flag == 0 => self.held(),
            Grab::R3 => self.waits(Grab::R4),
            Grab::R4 => self.with_count(self.count - 1).waits(Grab::R1),
            Grab::W1 if self.flag == 0 => self.with_flag(1).waits(Grab::W2),
            Grab::W1 => self.waits(Grab::W1),
            Grab::W2 if self.count == 0 => self.held(),
            Grab::W2 => self.waits(Grab::W2),
        }
    }

    // A lock once a lane that held it has let it go. A reader is in its count.
    #[tactic(auto, unfolding(crate::specs::Taking::released))]
    fn released(self, _z: Sizes, m: Mode) -> Lock
        requires { mode_count m ≤ self.count }
        ensures { result ≡ released _z m self }
    {
        match m {
            Mode::Reading => self.with_count(self.count - 1),
            Mode::Writing => self.with_flag(0),
        }
    }
}

// One step of taking lock k of the lent locks.
pub fn take_step(z: Sizes, locks: &mut [u32], k: usize, g: Grab) -> Option<Grab>
    requires k_in { k ≤ z.locks }
    requires locks_long { length locks.old ≡ lock_words z }
    requires count_bound { (lock_at z locks.old k).count < 4294967295 }
    requires g_bound { grab_count g ≤ (lock_at z locks.old k).count }
    ensures value { result ≡ (try_lock z g (lock_at z locks.old k)).tried }
    ensures locks_after { locks.new ≡ with_lock z locks.old k (try_lock z g (lock_at z locks.old k)).lock }
{
    let a = lock_at(z, locks, k).try_lock(z, g);
    set_lock(z, locks, k, a.lock);
    a.tried
}

// The release of lock k of the lent locks.
pub fn release(z: Sizes, locks: &mut [u32], k: usize, m: Mode)
    requires k_in { k ≤ z.locks }
    requires locks_long { length locks.old ≡ lock_words z }
    requires m_bound { mode_count m ≤ (lock_at z locks.old k).count }
    ensures { locks.new ≡ with_lock z locks.old k (released z m (lock_at z locks.old k)) }
{
    set_lock(z, locks, k, lock_at(z, locks, k).released(z, m));
}
