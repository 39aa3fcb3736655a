// Opening: a table of sound slots is cleared for its lanes, any other is refused as it stands.
ghost use Rattle.std.specs.Prelude.{◌≡◌};
ghost use Rattle.paths.specs.Path.{emptied};
ghost use Rattle.machine.specs.Desk.{called, open_of};
ghost use Rattle.standing.specs.Tables.{table};

use super::lent::layout_of;
use machine::Refusal;
use places::Sizes;
use slots::Slots;

// Every lent number but the slots becomes 0.
#[tactic(auto, unfolding(paths::specs::Path::emptied))]
fn clear(locks: &mut [u32], lanes: &mut [u32], path: &mut [u32])
    ensures locks_after { locks.new ≡ emptied locks.old }
    ensures lanes_after { lanes.new ≡ emptied lanes.old }
    ensures path_after { path.new ≡ emptied path.old }
{
    locks.fill(0);
    lanes.fill(0);
    path.fill(0);
}

// Opens a table over lent memory: refusals 1 to 5, in that order.
pub fn open(
    z: Sizes,
    slots: &[u32],
    locks: &mut [u32],
    lanes: &mut [u32],
    path: &mut [u32],
) -> Result<(), Refusal>
    ensures { called result (table slots.now locks.new lanes.new path.new) ≡ open_of z (table slots.now locks.old lanes.old path.old) }
{
    let z = layout_of(z, slots, locks, lanes, path)?;
    let slots = Slots { z, numbers: slots };
    slots.check()?;
    clear(locks, lanes, path);
    Ok(())
}
