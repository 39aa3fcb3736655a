// What differs between the two rows by a word alone.
ghost use Rattle.std.specs.Prelude.{◌≡◌};
ghost use Rattle.machine.specs.Sides.{by_side};

use super::Side;

impl Side {
    // One thing for the first row, another for the second.
    pub fn choose<T: Copy>(self, first: T, second: T) -> T
        ensures { result ≡ by_side self first second }
    {
        match self {
            Side::First => first,
            Side::Second => second,
        }
    }
}
