// Step: a busy lane does its next step.
ghost use Rattle.std.specs.Prelude.{◌≡◌};
ghost use Rattle.machine.specs.Desk.{called, step_of};
ghost use Rattle.standing.specs.Tables.{table};

use super::lent::upright;
use super::table::Standing;
use linear::End;
use machine::Refusal;
use places::Sizes;

// A step over lent memory of any length: refusals 1, 2, 9, 6 and 8, in that order.
pub fn step(
    z: Sizes,
    slots: &mut [u32],
    locks: &mut [u32],
    lanes: &mut [u32],
    path: &mut [u32],
    j: u32,
    byte: u8,
) -> Result<Option<End>, Refusal>
    ensures { called result (table slots.new locks.new lanes.new path.new) ≡ step_of z (table slots.old locks.old lanes.old path.old) j byte }
{
    let z = upright(z, slots, locks, lanes, path)?;
    let mut table = Standing {
        z,
        slots,
        locks,
        lanes,
        path,
    };
    table.step(j, byte)
}
