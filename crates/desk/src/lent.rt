// Lent memory before a call: its sizes and lengths, and whether it stands.
ghost use Rattle.std.specs.Prelude.{◌≡◌};
ghost use Rattle.std.specs.Result.{result_map_both};
ghost use Rattle.machine.specs.Desk.{lengths_ok};
ghost use Rattle.standing.specs.Tables.{table};
ghost use Rattle.desk.specs.Tests.{sized, tested};

use locks::lock_words;
use machine::Refusal;
use paths::path_words;
use places::{Layout, Sizes};
use records::lane_words;
use slots::slot_words;
use standing::Lent;

// Every lent length is what the sizes need.
#[tactic(auto, using(crate::proofs::Lengths::lengths_test))]
#[inline(always)]
fn lengths_ok(z: Layout, slots: &[u32], locks: &[u32], lanes: &[u32], path: &[u32]) -> bool
    ensures { result ≡ lengths_ok z.sizes (table slots.now locks.now lanes.now path.now) }
{
    (slots.len() == slot_words(z))
        & (locks.len() == lock_words(z.sizes))
        & (lanes.len() == lane_words(z))
        & (path.len() == path_words(z))
}

// The layout of lent memory: refusals 1 and 2, in that order.
#[tactic(auto, using(crate::proofs::Tested::laid, crate::proofs::Tested::unlaid))]
pub(super) fn layout_of(
    z: Sizes,
    slots: &[u32],
    locks: &[u32],
    lanes: &[u32],
    path: &[u32],
) -> Result<Layout, Refusal>
    ensures { result_map_both (λ l. l.sizes) (λ r. r) result ≡ sized z (table slots.now locks.now lanes.now path.now) }
{
    let z = Layout::new(z).ok_or(Refusal::BadSizes)?;
    if !lengths_ok(z, slots, locks, lanes, path) {
        return Err(Refusal::BadLengths);
    }
    Ok(z)
}

// The layout of a table that stands: refusals 1, 2 and 9, in that order.
#[tactic(auto, using(crate::proofs::Tested::sized_ok, crate::proofs::Tested::sized_long))]
#[inline(always)]
pub(super) fn upright(
    z: Sizes,
    slots: &[u32],
    locks: &[u32],
    lanes: &[u32],
    path: &[u32],
) -> Result<Layout, Refusal>
    ensures { result_map_both (λ l. l.sizes) (λ r. r) result ≡ tested z (table slots.now locks.now lanes.now path.now) }
{
    let z = layout_of(z, slots, locks, lanes, path)?;
    let lent = Lent {
        z,
        slots,
        locks,
        lanes,
        path,
    };
    if !lent.stands() {
        return Err(Refusal::NotStanding);
    }
    Ok(z)
}
