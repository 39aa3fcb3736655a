// A grab in the lane record: its numbers, what it is read back as, and whether it is in range.
ghost use Rattle.std.specs.Prelude.{◌≡◌};
ghost use Rattle.locks.specs.Record.{grab_code, grab_noted, grab_from, grab_in};

use super::{Grab, Mode};
use places::Sizes;

impl Grab {
    #[tactic(auto, unfolding(crate::specs::Record::grab_code))]
    pub fn code(self) -> u32
        ensures { result ≡ grab_code self }
    {
        match self {
            Grab::R1 => 1,
            Grab::R2(_) => 2,
            Grab::R3 => 3,
            Grab::R4 => 4,
            Grab::W1 => 5,
            Grab::W2 => 6,
        }
    }

    #[tactic(auto, unfolding(crate::specs::Record::grab_noted))]
    pub fn noted(self) -> u32
        ensures { result ≡ grab_noted self }
    {
        match self {
            Grab::R2(noted) => noted,
            _ => 0,
        }
    }

    // The grab with these numbers; of other numbers, the first.
    #[tactic(auto, unfolding(crate::specs::Record::grab_from))]
    pub fn read(code: u32, noted: u32) -> Grab
        ensures { result ≡ grab_from code noted }
    {
        match code {
            2 => Grab::R2(noted),
            3 => Grab::R3,
            4 => Grab::R4,
            5 => Grab::W1,
            6 => Grab::W2,
            _ => Grab::R1,
        }
    }

    // It takes a lock in this mode; a noted count is at most the number of lanes.
    #[tactic(auto, unfolding(crate::specs::Record::grab_in))]
    pub fn fits(self, z: Sizes, mode: Mode) -> bool
        ensures { result ≡ grab_in z mode self }
    {
        match self {
            Grab::R1 | Grab::R3 | Grab::R4 => mode == Mode::Reading,
            Grab::R2(noted) => mode == Mode::Reading && noted <= z.lanes,
            Grab::W1 | Grab::W2 => mode == Mode::Writing,
        }
    }
}
