// What stops a job before its last record: why, and at which offset.
ghost use Rattle.std.specs.Prelude.{◌≡◌, ◌+◌, ◌^◌, ◌<◌, ◌≤◌, length};
ghost use Rattle.jobs.specs.Obeys.{cause_number, last_line};
ghost use Rattle.prints.specs.Put.{Puts};

use machine::Refusal;
use prints::{Out, REFUSAL_BYTES, put_refusal};

#[derive(Clone, Copy)]
pub(super) enum Cause {
    // What stands there is no record, or not the record that may stand there.
    Malformed,
    Refused(Refusal),
}

impl Cause {
    fn number(self) -> u32
        ensures { result ≡ cause_number self }
    {
        match self {
            Cause::Malformed => 11,
            Cause::Refused(refusal) => refusal.number(),
        }
    }
}

#[derive(Clone, Copy)]
pub(super) struct Stop {
    pub cause: Cause,
    pub at: u32,
}

impl Stop {
    pub fn new(cause: Cause, at: usize) -> Self
        requires { at < 2 ^ 32 }
        ensures { (result.cause ≡ cause) × (result.at ≡ at) }
    {
        Stop {
            cause,
            at: at as u32,
        }
    }
}

// The last line of a job that stops, nothing after one that does not.
pub(super) fn put_last(done: Result<(), Stop>, out: &mut Out)
    requires { out.old.at + REFUSAL_BYTES ≤ length out.old.bytes.now }
    ensures { Puts out.old out.new (last_line done) }
{
    if let Err(Stop { cause, at }) = done {
        put_refusal(out, cause.number(), at);
    }
}
