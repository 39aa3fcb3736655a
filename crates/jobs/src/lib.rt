// The run of a job: its records, one after the other, over a table in local memory, and what they print.
// Uses `desk` for the table, `job_records` for the records, `prints` for the print, and what stands below them.
#![tactic(auto)]

mod doing;
mod stop;

ghost use Rattle.std.specs.Prelude.{◌≡◌, ◌+◌, ◌*◌, ◌≤◌, length};
ghost use Rattle.desk.specs.Lent.{lent_table, SameLists};
ghost use Rattle.job_records.specs.Records.{record_at};
ghost use Rattle.jobs.specs.Prints.{Prints};
ghost use Rattle.jobs.specs.Job.{max_bytes, print_from, job_print, print_of};
ghost use Rattle.jobs.specs.Obeys.{Said};

use desk::Standing;
use doing::obey;
use job_records::{Reader, Record};
use locks::{MAX_LOCK_WORDS, lock_words};
use machine::Refusal;
use paths::{MAX_PATH_WORDS, path_words};
use places::{Layout, MAX_ROWS};
use prints::{END_BYTES, Out, REFUSAL_BYTES, SIZES_BYTES, put_sizes};
use records::{MAX_LANE_WORDS, lane_words};
use slots::{MAX_SLOT_WORDS, slot_words};
use std::ops::ControlFlow;
use stop::{Cause, Stop, put_last};

// The longest job.
pub const MAX_BYTES: usize = 60000;

// How many bytes a job prints for each of its own at most, before its end.
const PRINT_RATE: usize = 8;

// No print is longer: the sizes, what the records print, what the end prints, and a refusal.
pub const OUT_BYTES: usize = SIZES_BYTES + PRINT_RATE * MAX_BYTES + END_BYTES + REFUSAL_BYTES;

// The records of a job from the reader's place on.
fn run_records(table: &mut Standing, mut reader: Reader, out: &mut Out) -> Result<(), Stop>
    requires le_at { 1 ≤ reader.at }
    requires at_in_bounds { reader.at ≤ length reader.job.now }
    requires job_len_bound { length reader.job.now ≤ max_bytes }
    requires out_at_bound { out.old.at ≤ SIZES_BYTES + PRINT_RATE * reader.at }
    requires out_bytes_in_bounds { OUT_BYTES ≤ length out.old.bytes.now }
    ensures said { Said result out.old out.new (print_from (length reader.entry.job.now) table.old.z.sizes (lent_table table.old) reader.entry.job.now reader.entry.at) }
    ensures same { SameLists table.new table.old }
{
    while let Some((at, item)) = reader.next() {
        if obey(table, reader.job, at, item, out)?.is_break() {
            return Ok(());
        }
    }
    Err(Stop::new(Cause::Malformed, reader.at))
}

// A job from its first byte: the sizes, and the records after them over a table of zeros.
#[tactic(auto, using(places::proofs::Limits::slots_few))]
fn run_sizes(job: &[u8], out: &mut Out) -> Result<(), Stop>
    requires job_len_bound { length job.now ≤ max_bytes }
    requires at_start { out.old.at ≡ 0 }
    requires out_bytes_in_bounds { OUT_BYTES ≤ length out.old.bytes.now }
    ensures { Said result out.old out.new (job_print job.now (record_at job.now 0)) }
{
    let mut reader = Reader::new(job);
    let Some((_, Record::Opens(z))) = reader.next() else {
        return Err(Stop::new(Cause::Malformed, 0));
    };
    let z = Layout::new(z).ok_or(Stop::new(Cause::Refused(Refusal::BadSizes), 0))?;
    let mut slots = [0u32; MAX_SLOT_WORDS];
    let mut locks = [0u32; MAX_LOCK_WORDS];
    let mut lanes = [0u32; MAX_LANE_WORDS];
    let mut path = [0u32; MAX_PATH_WORDS];
    let mut table = Standing {
        z,
        slots: &mut slots[..slot_words(z)],
        locks: &mut locks[..lock_words(z.sizes)],
        lanes: &mut lanes[..lane_words(z)],
        path: &mut path[..path_words(z)],
    };
    put_sizes(out, z.sizes);
    run_records(&mut table, reader, out)
}

// Puts what a job prints at the start of out, and answers how many bytes that is.
pub fn run(job: &[u8], out: &mut [u8; OUT_BYTES]) -> usize
    ensures { Prints result out.old out.new (print_of job.now) }
{
    let mut print = Out { bytes: out, at: 0 };
    let done = if MAX_BYTES < job.len() {
        Err(Stop::new(Cause::Malformed, MAX_BYTES))
    } else {
        run_sizes(job, &mut print)
    };
    put_last(done, &mut print);
    print.at
}
