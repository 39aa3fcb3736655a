// The rows and locks that a lane's steps are about: those of its key, of its search and of its walk.
// Uses `places`, `locks`, `paths` and `machine`.
#![tactic(auto)]

ghost use Rattle.std.specs.Prelude.{◌≡◌};
ghost use Rattle.places.specs.Table.{lock_of};
ghost use Rattle.paths.specs.Path.{other_row};
ghost use Rattle.machine.specs.Sides.{side_row, is_last};
ghost use Rattle.machine.specs.Rules.{is_insert, mode_of, row_on, shared_rows, swing_rows, drops_two, sought_row};

use locks::Mode;
use machine::{Op, Outcome, Side, Walk};
use paths::Place;
use places::{Layout, RowPair};

// An insert, in either pass.
pub fn is_insert(op: Op) -> bool
    ensures { result ≡ is_insert op }
{
    matches!(op, Op::Insert | Op::Again)
}

// What an operation takes its rows for.
pub fn mode_of(op: Op) -> Mode
    ensures { result ≡ mode_of op }
{
    match op {
        Op::Read => Mode::Reading,
        _ => Mode::Writing,
    }
}

// One of two rows in locking order.
fn side_row(rows: RowPair, side: Side) -> u32
    ensures { result ≡ side_row rows side }
{
    match side {
        Side::First => rows.first,
        Side::Second => rows.second,
    }
}

// Its lock is the last of the two, or the only one.
pub fn is_last(side: Side, shared: bool) -> bool
    ensures { result ≡ is_last side shared }
{
    match side {
        Side::First => shared,
        Side::Second => true,
    }
}

// A home row of a key, in locking order.
pub fn row_on(z: Layout, key: u32, side: Side) -> u32
    ensures { result ≡ row_on z.sizes key side }
{
    side_row(z.rows_of(key), side)
}

// Its lock.
pub fn row_lock(z: Layout, key: u32, side: Side) -> u32
    ensures { result ≡ lock_of z.sizes (row_on z.sizes key side) }
{
    z.lock_of(row_on(z, key, side))
}

// The home rows of a key have one lock.
pub fn shared_rows(z: Layout, key: u32) -> bool
    ensures { result ≡ shared_rows z.sizes key }
{
    z.rows_of(key).shared
}

// After its first release a pass has still to release the second row's lock.
pub fn drops_two(shared: bool, o: Outcome) -> bool
    ensures { result ≡ drops_two shared o }
{
    match o {
        Outcome::Hit(Side::First, ..) | Outcome::Wrote(Side::First) => false,
        _ => !shared,
    }
}

// The lock of the other row of the last place's key.
pub fn other_lock(z: Layout, last: Place) -> u32
    ensures { result ≡ lock_of z.sizes (other_row z.sizes last) }
{
    z.lock_of(last.other_row(z))
}

// The row that an attempt of the search has looked through, by what it found.
pub fn sought_row(z: Layout, last: Place, found: Option<u32>) -> u32
    ensures { result ≡ sought_row z.sizes last found }
{
    match found {
        Some(_) => last.other_row(z),
        None => last.row,
    }
}

// Its lock.
pub fn sought_lock(z: Layout, last: Place, found: Option<u32>) -> u32
    ensures { result ≡ lock_of z.sizes (sought_row z.sizes last found) }
{
    z.lock_of(sought_row(z, last, found))
}

// The rows of a swing in locking order.
pub fn swing_rows(z: Layout, last: Place, w: Walk) -> RowPair
    ensures { result ≡ swing_rows z.sizes last w }
{
    z.lock_order(last.row, w.row)
}

// The lock of one of them.
pub fn swing_lock(z: Layout, last: Place, w: Walk, side: Side) -> u32
    ensures { result ≡ lock_of z.sizes (side_row (swing_rows z.sizes last w) side) }
{
    z.lock_of(side_row(swing_rows(z, last, w), side))
}
