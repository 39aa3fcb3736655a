// What a lane claims of the slots in the rows it holds, by the place in the steps where it stands.
ghost use Rattle.std.specs.Prelude.{◌≡◌};
ghost use Rattle.paths.specs.Path.{other_row};
ghost use Rattle.machine.specs.declared.SlotClaim.TheVariants.{NoClaim, HasKey, HasPair, HasRoom};
ghost use Rattle.machine.specs.Rules.{row_on};
ghost use Rattle.machine.specs.Claims.{no_claims, pass_claims, seek_claims, room_claims, search_claims, drop_claims, found_claims};
ghost use Rattle.machine.specs.Stages.{claims_at};

use super::TaskSeat;
use machine::{Claims, Outcome, RowClaim, Side, SlotClaim, Stage};
use rows::row_on;

pub(super) fn no_claims() -> Claims
    ensures { result ≡ no_claims }
{
    Claims {
        one: RowClaim::default(),
        two: RowClaim::default(),
        slot: SlotClaim::NoClaim,
    }
}

// Of one row of a search: its first columns are full.
fn search_claims(row: u32, full: u32, slot: SlotClaim) -> Claims
    ensures { result ≡ search_claims row full slot }
{
    Claims {
        one: RowClaim {
            row,
            lacking: 0,
            full,
        },
        two: RowClaim::default(),
        slot,
    }
}

impl TaskSeat {
    // Of the first and second home row: columns that lack the key, and columns that are full.
    fn pass_claims(self, lacking: (u32, u32), full: (u32, u32), slot: SlotClaim) -> Claims
        ensures { result ≡ pass_claims self.z.sizes self.task lacking.0 lacking.1 full.0 full.1 slot }
    {
        let rows = self.z.rows_of(self.task.key);
        Claims {
            one: RowClaim {
                row: rows.first,
                lacking: lacking.0,
                full: full.0,
            },
            two: RowClaim {
                row: rows.second,
                lacking: lacking.1,
                full: full.1,
            },
            slot,
        }
    }

    // The same of both home rows, and no slot.
    fn row_claims(self, lacking: (u32, u32), full: (u32, u32)) -> Claims
        ensures { result ≡ pass_claims self.z.sizes self.task lacking.0 lacking.1 full.0 full.1 NoClaim }
    {
        self.pass_claims(lacking, full, SlotClaim::NoClaim)
    }

    fn next_claims(self, full: u32) -> Claims
        ensures { result ≡ search_claims (other_row self.z.sizes self.last) full NoClaim }
    {
        search_claims(self.last.other_row(self.z), full, SlotClaim::NoClaim)
    }

    // A slot to overwrite has the key.
    fn key_claims(self, side: Side, column: u32) -> Claims
        ensures { result ≡ pass_claims self.z.sizes self.task 0 0 0 0 (HasKey (row_on self.z.sizes self.task.key side) column) }
    {
        let row = row_on(self.z, self.task.key, side);
        self.pass_claims((0, 0), (0, 0), SlotClaim::HasKey(row, column))
    }

    // A read's hit has the key and the value seen.
    fn pair_claims(self, side: Side, column: u32, value: u32) -> Claims
        ensures { result ≡ pass_claims self.z.sizes self.task 0 0 0 0 (HasPair (row_on self.z.sizes self.task.key side) column value) }
    {
        let row = row_on(self.z, self.task.key, side);
        self.pass_claims((0, 0), (0, 0), SlotClaim::HasPair(row, column, value))
    }

    // A row that is looked through for the key lacks it so far.
    fn seek_claims(self, side: Side, column: u32) -> Claims
        ensures { result ≡ seek_claims self.z.sizes self.task side column }
    {
        let w = self.z.sizes.columns;
        self.row_claims((side.choose(column, w), side.choose(0, column)), (0, 0))
    }

    // The key is in neither home row, and the slots before this one are full.
    fn room_claims(self, side: Side, column: u32, slot: SlotClaim) -> Claims
        ensures { result ≡ room_claims self.z.sizes self.task side column slot }
    {
        let w = self.z.sizes.columns;
        self.pass_claims(
            (w, w),
            (side.choose(column, w), side.choose(0, column)),
            slot,
        )
    }

    // Of the rows that are still to be released.
    fn drop_claims(self, side: Side, outcome: Outcome) -> Claims
        ensures { result ≡ drop_claims self.z.sizes self.task side outcome }
    {
        let w = self.z.sizes.columns;
        let both = (side.choose(w, 0), w);
        match outcome {
            Outcome::Hit(hit, column, value) => self.pair_claims(hit, column, value),
            Outcome::Wrote(_) | Outcome::Filled => no_claims(),
            Outcome::Miss => self.row_claims(both, (0, 0)),
            Outcome::Picked | Outcome::Stuck => self.row_claims(both, both),
        }
    }

    // Before the release of a row that an attempt of the search has looked through.
    fn found_claims(self, found: Option<u32>) -> Claims
        ensures { result ≡ found_claims self.z.sizes self.last found }
    {
        let row = self.last.other_row(self.z);
        match found {
            Some(column) => search_claims(row, column, SlotClaim::HasRoom(row, column)),
            None => search_claims(self.last.row, self.z.sizes.columns, SlotClaim::NoClaim),
        }
    }

    // A slot to fill is empty.
    fn empty_claims(self, side: Side, column: u32) -> Claims
        ensures { result ≡ room_claims self.z.sizes self.task side column (HasRoom (row_on self.z.sizes self.task.key side) column) }
    {
        let row = row_on(self.z, self.task.key, side);
        self.room_claims(side, column, SlotClaim::HasRoom(row, column))
    }

    // All that the lane claims.
    #[tactic(auto, unfolding(machine::specs::Stages::item_at))]
    pub(super) fn claims(self) -> Claims
        ensures { result ≡ claims_at self.z.sizes self.task self.last self.task.stage }
    {
        let w = self.z.sizes.columns;
        match self.task.stage {
            Stage::Take(side, _) => self.seek_claims(side, 0),
            Stage::Seek(side, column) => self.seek_claims(side, column),
            Stage::SeekRoom(side, column) => self.room_claims(side, column, SlotClaim::NoClaim),
            Stage::WriteHit(side, column) => self.key_claims(side, column),
            Stage::WriteRoom(side, column) => self.empty_claims(side, column),
            Stage::Pick => self.row_claims((w, w), (w, w)),
            Stage::Drop(side, outcome) => self.drop_claims(side, outcome),
            Stage::LookNext(column, _) => self.next_claims(column),
            Stage::PickNext(_) => self.next_claims(w),
            Stage::DropNext(found, _) => self.found_claims(found),
            _ => no_claims(),
        }
    }
}
