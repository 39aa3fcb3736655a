// The cases that are run.

// A list of slots, with its name and how many rows and columns it is to have.
#[derive(Clone, Copy)]
pub struct Case<'a> {
    pub name: &'a str,
    pub rows: u32,
    pub columns: u32,
    pub slots: &'a [u32],
}

// A number of rows and a key.
pub const ROWS: [(u32, u32); 8] = [
    (3, 1024),
    (2, 5),
    (4, 8),
    (4, 9),
    (4, 11),
    (64, 8388607),
    (1, 0),
    (65, 0),
];

// Sound slots.
pub const SOUND: [Case<'static>; 5] = [
    Case {
        name: "all empty",
        rows: 2,
        columns: 1,
        slots: &[0, 0, 0, 0, 0, 0],
    },
    Case {
        name: "key 5 in its second row",
        rows: 2,
        columns: 1,
        slots: &[1, 5, 7, 0, 0, 0],
    },
    Case {
        name: "highest key, highest value",
        rows: 3,
        columns: 1,
        slots: &[0, 0, 0, 1, 8388607, 4294967295, 0, 0, 0],
    },
    Case {
        name: "key 0 above an empty slot",
        rows: 2,
        columns: 1,
        slots: &[0, 0, 0, 1, 0, 0],
    },
    Case {
        name: "the table of the walk",
        rows: 4,
        columns: 2,
        slots: &[
            1, 24, 1, 1, 12, 2, 1, 9, 3, 1, 1, 4, 0, 0, 0, 0, 0, 0, 1, 11, 5, 1, 23, 6,
        ],
    },
];

// A slot that is misshapen.
pub const SHAPES: [Case<'static>; 5] = [
    Case {
        name: "mark 2",
        rows: 2,
        columns: 1,
        slots: &[0, 0, 0, 2, 5, 7],
    },
    Case {
        name: "key one too high",
        rows: 2,
        columns: 1,
        slots: &[1, 8388608, 0, 0, 0, 0],
    },
    Case {
        name: "empty with a key",
        rows: 2,
        columns: 1,
        slots: &[0, 5, 0, 0, 0, 0],
    },
    Case {
        name: "empty with a value",
        rows: 2,
        columns: 1,
        slots: &[0, 0, 0, 0, 0, 7],
    },
    Case {
        name: "empty with a key out of range",
        rows: 2,
        columns: 1,
        slots: &[0, 9000000, 0, 0, 0, 0],
    },
];

// A key outside its home rows, or twice.
pub const HOMES: [Case<'static>; 4] = [
    Case {
        name: "key 8 in row 1",
        rows: 4,
        columns: 1,
        slots: &[0, 0, 0, 1, 8, 1, 0, 0, 0, 0, 0, 0],
    },
    Case {
        name: "key 8 in both its rows",
        rows: 4,
        columns: 1,
        slots: &[1, 8, 1, 0, 0, 0, 0, 0, 0, 1, 8, 2],
    },
    Case {
        name: "key 5 twice in a row",
        rows: 2,
        columns: 2,
        slots: &[0, 0, 0, 0, 0, 0, 1, 5, 1, 1, 5, 1],
    },
    Case {
        name: "key 5 in the lowest slot and the highest",
        rows: 2,
        columns: 2,
        slots: &[1, 5, 1, 0, 0, 0, 0, 0, 0, 1, 5, 1],
    },
];

// Where several rules are broken: the lowest slot, and there the lowest number. Then bad sizes, and a bad length.
pub const ORDER: [Case<'static>; 7] = [
    Case {
        name: "astray at 1, mark 2 at 2",
        rows: 4,
        columns: 1,
        slots: &[0, 0, 0, 1, 8, 1, 2, 0, 0, 0, 0, 0],
    },
    Case {
        name: "mark 2 at 1, astray at 2",
        rows: 4,
        columns: 1,
        slots: &[0, 0, 0, 2, 0, 0, 1, 8, 1, 0, 0, 0],
    },
    Case {
        name: "astray and twice at 1",
        rows: 4,
        columns: 1,
        slots: &[1, 8, 1, 1, 8, 1, 0, 0, 0, 0, 0, 0],
    },
    Case {
        name: "mark 2 and astray at 1",
        rows: 4,
        columns: 1,
        slots: &[0, 0, 0, 2, 8, 1, 0, 0, 0, 0, 0, 0],
    },
    Case {
        name: "twice at 2 and at 3",
        rows: 2,
        columns: 2,
        slots: &[1, 5, 1, 1, 6, 1, 1, 6, 1, 1, 5, 1],
    },
    Case {
        name: "9 columns",
        rows: 2,
        columns: 9,
        slots: &[0, 0, 0],
    },
    Case {
        name: "one number short",
        rows: 2,
        columns: 1,
        slots: &[0, 0, 0, 0, 0],
    },
];
