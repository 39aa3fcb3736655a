// The path store: the places whose pairs an insert may move. Uses `lists` and `places`.
#![tactic(auto)]

ghost use Rattle.std.specs.Prelude.{◌≡◌, ◌*◌, ◌≤◌, length};
ghost use Rattle.lists.specs.Records.{HasRecord};
ghost use Rattle.paths.specs.Path.{path_places, place_numbers, path_words, place_at, with_place, no_place, emptied, last_of, other_row};

use places::{Layout, MAX_ROWS};

// How many places a path store has beside one for each row.
pub const SPARE_PLACES: u32 = 2;

// How many numbers a place takes.
pub const PLACE_NUMBERS: usize = 3;

// How many the path store of the largest table takes.
pub const MAX_PATH_WORDS: usize = (MAX_ROWS + SPARE_PLACES) as usize * PLACE_NUMBERS;

// A place on the path: where a pair was seen, and its key.
#[derive(Clone, Copy)]
pub struct Place {
    pub row: u32,
    pub column: u32,
    pub key: u32,
}

// How many places the path store of a table has.
pub fn path_places(z: Layout) -> u32
    ensures { result ≡ path_places z.sizes }
{
    z.sizes.rows + SPARE_PLACES
}

// How many numbers they take.
pub fn path_words(z: Layout) -> usize
    ensures { result ≡ path_words z.sizes }
{
    path_places(z) as usize * PLACE_NUMBERS
}

#[tactic(auto, unfolding(crate::specs::Path::place_at, lists::specs::Records::cell))]
pub fn place_at(path: &[u32], i: usize) -> Place
    requires { HasRecord place_numbers path.now i }
    ensures { result ≡ place_at path.now i }
{
    Place {
        row: path[i * PLACE_NUMBERS],
        column: path[i * PLACE_NUMBERS + 1],
        key: path[i * PLACE_NUMBERS + 2],
    }
}

#[tactic(auto, unfolding(crate::specs::Path::with_place, lists::specs::Records::put))]
pub fn set_place(path: &mut [u32], i: usize, p: Place)
    requires { HasRecord place_numbers path.old i }
    ensures { path.new ≡ with_place path.old i p }
{
    path[i * PLACE_NUMBERS] = p.row;
    path[i * PLACE_NUMBERS + 1] = p.column;
    path[i * PLACE_NUMBERS + 2] = p.key;
}

// The last of n places.
#[tactic(auto, unfolding(crate::specs::Path::last_of))]
pub fn last_of(path: &[u32], n: u32) -> Place
    requires { n * place_numbers ≤ length path.now }
    ensures { result ≡ last_of path.now n }
{
    if n == 0 {
        Place::none()
    } else {
        place_at(path, (n as usize) - 1)
    }
}

// Every place leaves the path.
#[tactic(auto, unfolding(crate::specs::Path::emptied))]
pub fn empty_path(path: &mut [u32])
    ensures { path.new ≡ emptied path.old }
{
    path.fill(0);
}

impl Place {
    // No place: what a place that has left the path is, and the last place of an empty one.
    pub fn none() -> Place
        ensures { result ≡ no_place }
    {
        Place {
            row: 0,
            column: 0,
            key: 0,
        }
    }

    // The other home row of its key.
    #[tactic(auto, unfolding(crate::specs::Path::other_row))]
    pub fn other_row(self, z: Layout) -> u32
        ensures { result ≡ other_row z.sizes self }
    {
        let one = z.home_one(self.key);
        if self.row == one {
            z.home_two(self.key)
        } else {
            one
        }
    }
}
