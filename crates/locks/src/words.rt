// The lent lock words: how many they are, a lock among them, and its store.
ghost use Rattle.std.specs.Prelude.{◌≡◌, ◌≤◌, length};
ghost use Rattle.locks.specs.Locks.{main_lock, lock_words, lock_at, with_lock};

use super::Lock;
use places::{MAX_ROWS, Sizes};

// How many numbers a lock is.
pub const LOCK_NUMBERS: usize = 2;

// How many numbers the locks of the largest table are.
pub const MAX_LOCK_WORDS: usize = (MAX_ROWS as usize + 1) * LOCK_NUMBERS;

// The main lock stands after the row locks.
pub fn main_lock(z: Sizes) -> u32
    ensures { result ≡ main_lock z }
{
    z.locks
}

// How many numbers the locks of a table are.
#[tactic(auto, unfolding(crate::specs::Locks::lock_words))]
pub fn lock_words(z: Sizes) -> usize
    ensures { result ≡ lock_words z }
{
    (main_lock(z) as usize + 1) * LOCK_NUMBERS
}

#[tactic(auto, unfolding(crate::specs::Locks::lock_words, crate::specs::Locks::lock_at, lists::specs::Records::cell))]
pub fn lock_at(z: Sizes, locks: &[u32], k: usize) -> Lock
    requires k_in { k ≤ z.locks }
    requires locks_long { length locks.now ≡ lock_words z }
    ensures { result ≡ lock_at z locks.now k }
{
    let b = k * LOCK_NUMBERS;
    Lock {
        flag: locks[b],
        count: locks[b + 1],
    }
}

#[tactic(auto, unfolding(crate::specs::Locks::lock_words, crate::specs::Locks::with_lock, lists::specs::Records::put))]
pub(crate) fn set_lock(z: Sizes, locks: &mut [u32], k: usize, w: Lock)
    requires k_in { k ≤ z.locks }
    requires locks_long { length locks.old ≡ lock_words z }
    ensures { locks.new ≡ with_lock z locks.old k w }
{
    let b = k * LOCK_NUMBERS;
    locks[b] = w.flag;
    locks[b + 1] = w.count;
}
