// A reader of a job: it holds the lent bytes and its place, the offset of the next record.
ghost use Rattle.std.specs.Prelude.{◌≡◌, ◌-◌, length};
ghost use Rattle.std.specs.Iterator.{at_most};
ghost use Rattle.job_records.specs.Records.{record_at};
ghost use Rattle.job_records.specs.Finds.{Finds};

use super::{Record, Taken, record_at};

#[derive(Clone, Copy)]
pub struct Reader<'a> {
    pub job: &'a [u8],
    pub at: usize,
}

impl<'a> Reader<'a> {
    // A reader at the first byte.
    pub fn new(job: &'a [u8]) -> Self
        ensures { (result.job ≡ job.entry) × (result.at ≡ 0) }
    {
        Reader { job, at: 0 }
    }

    // The same bytes, at another place.
    fn moved(self, at: usize) -> Self
        ensures { (result.job ≡ self.entry.job) × (result.at ≡ at) }
    {
        Reader { at, ..self }
    }

    // What stands at the reader's place, and the offset after it.
    pub fn peek(self) -> Option<Taken>
        ensures { result ≡ record_at self.entry.job.now self.entry.at }
    {
        record_at(self.job, self.at)
    }
}

// The records of the job from the reader's place on, each with its offset, up to the first that is missing, cut short or of no kind.
impl Iterator for Reader<'_> {
    type Item = (usize, Record);

    ghost next_gives = { Finds };

    ghost remaining = { λ r. at_most (length r.job.now - r.at) };

    #[tactic(auto, using(crate::proofs::Whole::goes_on_lem))]
    fn next(&mut self) -> Option<(usize, Record)> {
        let at = self.at;
        let taken = self.peek()?;
        *self = self.moved(taken.next);
        Some((at, taken.item))
    }
}
