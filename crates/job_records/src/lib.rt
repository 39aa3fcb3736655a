// The records of a job: a byte of kind, then a body whose length the kind fixes. What stands at an offset, and the offset after it.
// Uses `linear` and `places`.
#![tactic(auto)]

mod reader;

ghost use Rattle.std.specs.Prelude.{◌≡◌, ◌+◌, ◌<◌, length};
ghost use Rattle.job_records.specs.Records.{number, kind_of, body_length, body_at, record_at};

use linear::Request;
use places::Sizes;
pub use reader::Reader;

#[derive(Clone, Copy)]
pub enum Record {
    // Kind 1.
    Opens(Sizes),
    // Kinds 2, 3 and 4: the lane, and what it is to do.
    Starts(u32, Request),
    // Kind 5: the lane, and the scheduler's byte.
    Steps(u32, u8),
    // Kind 6.
    Ends,
}

// What stands at an offset, and the offset after it.
#[derive(Clone, Copy)]
pub struct Taken {
    pub item: Record,
    pub next: usize,
}

// What a record's first byte says that it is: 1 to 6, in this order.
#[derive(Clone, Copy)]
enum Kind {
    Open,
    Read,
    Delete,
    Insert,
    Step,
    End,
}

// A byte that stands for no kind.
#[derive(Clone, Copy)]
struct UnknownKind;

impl TryFrom<u8> for Kind {
    type Error = UnknownKind;

    ghost try_from_gives = { λ code result. result ≡ kind_of code };

    fn try_from(code: u8) -> Result<Kind, UnknownKind> {
        match code {
            1 => Ok(Kind::Open),
            2 => Ok(Kind::Read),
            3 => Ok(Kind::Delete),
            4 => Ok(Kind::Insert),
            5 => Ok(Kind::Step),
            6 => Ok(Kind::End),
            _ => Err(UnknownKind),
        }
    }
}

impl Kind {
    // How many bytes follow the byte of kind.
    fn body_length(self) -> usize
        ensures { result ≡ body_length self }
    {
        match self {
            Kind::Open => 4,
            Kind::Read | Kind::Delete => 5,
            Kind::Insert => 9,
            Kind::Step => 2,
            Kind::End => 0,
        }
    }

    // The record of this kind whose kind byte stands at an offset, and whose body is there.
    fn body_at(self, job: &[u8], at: usize) -> Record
        requires { at + body_length self < length job.now }
        ensures { result ≡ body_at job.now at self }
    {
        let byte = |i: usize| u32::from(job[at + i]);
        let number = |i: usize| number_at(job, at + i);
        match self {
            Kind::Open => Record::Opens(Sizes {
                rows: byte(1),
                columns: byte(2),
                locks: byte(3),
                lanes: byte(4),
            }),
            Kind::Read => Record::Starts(byte(1), Request::Read(number(2))),
            Kind::Delete => Record::Starts(byte(1), Request::Delete(number(2))),
            Kind::Insert => Record::Starts(byte(1), Request::Insert(number(2), number(6))),
            Kind::Step => Record::Steps(byte(1), job[at + 2]),
            Kind::End => Record::Ends,
        }
    }
}

// A number of four bytes, little-endian.
#[tactic(auto, unfolding(crate::specs::Records::number))]
fn number_at(job: &[u8], at: usize) -> u32
    requires { at + 3 < length job.now }
    ensures { result ≡ number job.now at }
{
    u32::from_le_bytes([job[at], job[at + 1], job[at + 2], job[at + 3]])
}

// The record at an offset: none where no byte stands, at an unknown kind, and where the record is cut short.
#[tactic(auto, unfolding(crate::specs::Records::record_at))]
pub fn record_at(job: &[u8], at: usize) -> Option<Taken>
    ensures { result ≡ record_at job.now at }
{
    let kind = Kind::try_from(*job.get(at)?).ok()?;
    let next = at + kind.body_length() + 1;
    (next <= job.len()).then(|| Taken {
        item: kind.body_at(job, at),
        next,
    })
}
