use super::pull;
use orders::{ABSENT, ROWS, Table};

// The rows on their way down from a canon: their additions, the floors that these may not pass, and which rows are settled.
// Three arrays and no array of rows: the loops over one of them are compiled to wide instructions, and start, floors and answer are such.
#[derive(Clone, Copy)]
pub struct Rows {
    pub additions: [u32; ROWS],
    pub floors: [u32; ROWS],
    pub settled: [bool; ROWS],
}

impl Rows {
    ghost use Rattle.std.specs.Prelude.{ℕ, ◌≤◌, ◌<◌};
    ghost use Rattle.theory.specs.Limits.{row_limit};
    ghost use Rattle.theory.specs.Lists.{nums};
    ghost use Rattle.theory.specs.Table.{entry};
    ghost use Rattle.theory.specs.Canon.{AtMost};
    ghost use Rattle.orders.specs.Places.{ceiling};
    ghost use Rattle.lowering.specs.Descent.{LeastSlack, Spare, Falls, Settles};

    // The unsettled row with the least amount to fall, and that amount, or none where every row is settled. Rules out a settled row, a
    // row with more to fall than another, another amount, and none while a row is unsettled.
    // Of the table only n is needed, here and in `fall`.
    pub fn least_slack(&self, n: usize) -> Option<(usize, u32)>
        requires { (n ≤ row_limit) × AtMost n (nums self.now.floors) (nums self.now.additions) }
        ensures { LeastSlack n self.now result }
    {
        let mut best: Option<(usize, u32)> = None;
        for i in 0..n {
            if !self.settled[i] {
                let slack = self.additions[i] - self.floors[i];
                if best.is_none_or(|(_, least)| slack < least) {
                    best = Some((i, slack));
                }
            }
        }
        best
    }

    // Every unsettled row falls by the amount d. Rules out a settled row that falls, and another that does not.
    pub fn fall(&mut self, n: usize, d: u32)
        requires { (n ≤ row_limit) × Spare n self.old d }
        ensures { Falls n d self.old self.new }
    {
        for i in 0..n {
            if !self.settled[i] {
                self.additions[i] -= d;
            }
        }
    }

    // Row k is settled, and the floors rise: no row may fall below what keeps its own star a maximum beside row k. Rules out a floor
    // below that, and one above it and above the floor that stood.
    pub fn settle(&mut self, table: &Table<'_>, columns: &[usize; ROWS], k: usize)
        requires inside { (k < table.now.n) × ((i : ℕ) → i < table.now.n → nums columns.now i < table.now.n) }
        requires low { nums self.old.additions k ≤ ceiling }
        ensures { Settles table.now.n (entry table.now.entries.now table.now.n) (nums columns.now) k self.old self.new }
    {
        self.settled[k] = true;
        for i in 0..table.n {
            let j = columns[i];
            let other = table.place(k, j);
            if other != ABSENT {
                let least = pull(other, self.additions[k], table.place(i, j));
                // `max` here makes the whole fall take 1.1 to 1.2 of the time for 32 rows.
                if self.floors[i] < least {
                    self.floors[i] = least;
                }
            }
        }
    }
}
