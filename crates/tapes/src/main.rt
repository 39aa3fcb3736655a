// Runs each job of a stored list of tapes and writes its name and its print. Beside src/: stdin is the list, stdout the prints of the
// independent program (tests/independent/README.md says how both are made). Uses `jobs` and `input`.
#![tactic(auto)]

ghost use Rattle.std.specs.Prelude.{◌<◌, length, IfSome};

use jobs::OUT_BYTES;
use std::io::{self, Write};

// One byte more than the longest list.
const LIST_BYTES: usize = 262144;

// The name of a tape, and its job.
#[derive(Clone, Copy)]
struct Tape<'a> {
    name: &'a [u8],
    job: &'a [u8],
}

fn main(rt: HostRuntime) -> io::Result<()> {
    let mut list = [0u8; LIST_BYTES];
    let n = input::fill(&mut rt.reader(), &mut list)?;
    let mut out = io::writer(&rt);
    if n < LIST_BYTES {
        replay(&mut out, &list[..n])
    } else {
        writeln!(out, "bad list")
    }
}

// All the tapes of a list, up to the first that is not whole.
fn replay<W: Write>(out: &mut W, list: &[u8]) -> io::Result<()> {
    let mut rest = list;
    while let Some((tape, after)) = first_tape(rest) {
        replay_tape(out, tape)?;
        rest = after;
    }
    if rest.is_empty() {
        Ok(())
    } else {
        writeln!(out, "bad list")
    }
}

// The first tape of a list, and what follows it: a byte with the length of the name, the name, four bytes with the length of the job, the job.
// None where it is not whole.
fn first_tape(list: &[u8]) -> Option<(Tape<'_>, &[u8])>
    ensures { IfSome result (λ pair. length pair.1.now < length list.now) }
{
    let (name_bytes, rest) = list.split_first()?;
    let (name, rest) = rest.split_at_checked(*name_bytes as usize)?;
    let (job_bytes, rest) = rest.split_first_chunk()?;
    let (job, rest) = rest.split_at_checked(u32::from_le_bytes(*job_bytes) as usize)?;
    Some((Tape { name, job }, rest))
}

fn replay_tape<W: Write>(out: &mut W, tape: Tape<'_>) -> io::Result<()> {
    let mut print = [0u8; OUT_BYTES];
    let n = jobs::run(tape.job, &mut print);
    out.write_all(b"tape ")?;
    out.write_all(tape.name)?;
    out.write_all(b"\n")?;
    out.write_all(&print[..n])
}
