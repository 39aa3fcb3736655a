// Reads a job from standard input and writes what it prints. More than the longest job is read, so that a longer one is seen.
// Uses `jobs` and `input`.
#![tactic(auto)]

use jobs::{MAX_BYTES, OUT_BYTES};
use std::io::{self, Write};

// One byte more than the longest job.
const READ_BYTES: usize = MAX_BYTES + 1;

fn main(rt: HostRuntime) -> io::Result<()> {
    let mut job = [0u8; READ_BYTES];
    let n = input::fill(&mut rt.reader(), &mut job)?;
    let mut out = [0u8; OUT_BYTES];
    let m = jobs::run(&job[..n], &mut out);
    io::writer(&rt).write_all(&out[..m])
}
