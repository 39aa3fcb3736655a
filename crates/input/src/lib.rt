// Reads from an input into a buffer. Uses no other crate.
#![tactic(auto)]

ghost use Rattle.std.specs.Prelude.{◌≡◌, ◌<◌, ◌≤◌, length, take, IfOk, IfErr, IsOk};
ghost use Rattle.std.specs.Io.KnownBytes.{Consumes, IsAtEnd};
ghost use Rattle.input.specs.Taken.{TakesSome};

use std::io::{self, Read};

// Reads until the buffer is full or the input ends, and says how many bytes it put at the start of the buffer. Where a read fails, that is the
// answer, and what came before it stands at the start of the buffer.
pub fn fill<R: Read>(from: &mut R, into: &mut [u8]) -> io::Result<usize>
    ensures within { IfOk result (λ n. n ≤ length into.new) }
    ensures bytes { IfOk result (λ n. Consumes (R.remaining from.old) (R.remaining from.new) (take n into.new)) }
    ensures end { IfOk result (λ n. n < length into.new → IsAtEnd (R.remaining from.new)) }
    ensures empty { length into.old ≡ 0 → IsOk result }
    ensures err { IfErr result (λ _. TakesSome (R.remaining from.old) (R.remaining from.new) into.new) }
{
    let mut done = 0;
    while done < into.len() {
        let n = from.read(&mut into[done..])?;
        if n == 0 {
            return Ok(done);
        }
        done += n;
    }
    Ok(done)
}
