// One record: what it does to the table, and what it prints.
ghost use Rattle.std.specs.Prelude.{◌≡◌, ◌+◌, ◌≤◌, length};
ghost use Rattle.desk.specs.Lent.{lent_table, SameLists};
ghost use Rattle.jobs.specs.Job.{max_bytes, end_text, came_of};
ghost use Rattle.jobs.specs.Obeys.{Said, Obeys};

use super::stop::{Cause, Stop};
use desk::Standing;
use job_records::Record;
use prints::{END_BYTES, Out, put_answer, put_end};
use slots::Slots;
use std::ops::ControlFlow;

// Kind 6: a byte after it is found before anything is printed.
#[tactic(auto, unfolding(crate::specs::Job::end_text))]
fn finish(table: &Standing, job: &[u8], at: usize, out: &mut Out) -> Result<(), Stop>
    requires at_bound { at ≤ max_bytes }
    requires room { out.old.at + END_BYTES ≤ length out.old.bytes.now }
    ensures { Said result out.old out.new (end_text table.now.z.sizes table.now.slots.now job.now at) }
{
    let slots = Slots {
        z: table.z,
        numbers: table.slots,
    };
    if at + 1 < job.len() {
        return Err(Stop::new(Cause::Malformed, at + 1));
    }
    put_end(out, slots);
    Ok(())
}

// The record whose kind byte stands at an offset.
pub(super) fn obey(
    table: &mut Standing,
    job: &[u8],
    at: usize,
    item: Record,
    out: &mut Out,
) -> Result<ControlFlow<()>, Stop>
    requires at_bound { at ≤ max_bytes }
    requires room { out.old.at + END_BYTES ≤ length out.old.bytes.now }
    ensures obeys { Obeys result out.old out.new (lent_table table.new) (came_of table.old.z.sizes (lent_table table.old) job.now at item) }
    ensures same { SameLists table.new table.old }
{
    let refused = |refusal| Stop::new(Cause::Refused(refusal), at);
    match item {
        Record::Opens(_) => Err(Stop::new(Cause::Malformed, at)),
        Record::Starts(j, request) => {
            table.start(j, request).map_err(refused)?;
            Ok(ControlFlow::Continue(()))
        }
        Record::Steps(j, byte) => {
            put_answer(out, j, table.step(j, byte).map_err(refused)?);
            Ok(ControlFlow::Continue(()))
        }
        Record::Ends => {
            finish(table, job, at, out)?;
            Ok(ControlFlow::Break(()))
        }
    }
}
