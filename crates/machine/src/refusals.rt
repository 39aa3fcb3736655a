// A refusal's number in 01's table, the slot that it names, and how a fault of the slots becomes a refusal.
ghost use Rattle.std.specs.Prelude.{◌≡◌};
ghost use Rattle.machine.specs.Desk.{refusal_number, refusal_index};

use super::Refusal;
use slots::Fault;

impl From<Fault> for Refusal {
    ghost use Rattle.machine.specs.declared.Refusal.TheVariants.{Unsound};

    ghost from_gives = { λ fault refusal. refusal ≡ Unsound fault };

    fn from(fault: Fault) -> Refusal {
        Refusal::Unsound(fault)
    }
}

impl Refusal {
    // 3, 4 and 5 are for slots that break a rule.
    pub fn number(self) -> u32
        ensures { result ≡ refusal_number self }
    {
        match self {
            Refusal::BadSizes => 1,
            Refusal::BadLengths => 2,
            Refusal::Unsound(Fault::Misshapen(_)) => 3,
            Refusal::Unsound(Fault::Astray(_)) => 4,
            Refusal::Unsound(Fault::Twice(_)) => 5,
            Refusal::NoLane => 6,
            Refusal::Busy => 7,
            Refusal::Idle => 8,
            Refusal::NotStanding => 9,
            Refusal::BadKey => 10,
        }
    }

    // The slot that breaks a rule; 0 with any other refusal.
    pub fn index(self) -> usize
        ensures { result ≡ refusal_index self }
    {
        match self {
            Refusal::Unsound(Fault::Misshapen(i) | Fault::Astray(i) | Fault::Twice(i)) => i,
            _ => 0,
        }
    }
}
