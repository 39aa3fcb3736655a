// What a lane's part in a lock adds to its flag, to its count, to its writers and to its readers.
ghost use Rattle.std.specs.Prelude.{◌≡◌};
ghost use Rattle.locks.specs.Parts.{part_flag, part_count, part_writes, part_reads};

use super::{Grab, Mode, Part};

impl Part {
    #[tactic(auto, unfolding(crate::specs::Parts::grab_flag))]
    pub fn flag(self) -> u32
        ensures { result ≡ part_flag self }
    {
        match self {
            Part::Tries(Grab::W2) | Part::Holds(Mode::Writing) => 1,
            _ => 0,
        }
    }

    #[tactic(auto, unfolding(crate::specs::Parts::grab_count))]
    pub fn count(self) -> u32
        ensures { result ≡ part_count self }
    {
        match self {
            Part::Tries(Grab::R3 | Grab::R4) | Part::Holds(Mode::Reading) => 1,
            _ => 0,
        }
    }

    pub fn writes(self) -> u32
        ensures { result ≡ part_writes self }
    {
        match self {
            Part::Holds(Mode::Writing) => 1,
            _ => 0,
        }
    }

    pub fn reads(self) -> u32
        ensures { result ≡ part_reads self }
    {
        match self {
            Part::Holds(Mode::Reading) => 1,
            _ => 0,
        }
    }
}
