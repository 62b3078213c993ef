ghost use Rattle.orders.specs.Places.{UnderCeiling};
ghost use Rattle.ways.specs.Heads.{HeadsStand};

use orders::{ROWS, Table};

// A table whose orders are raised by the additions of their rows, with the heads that its columns then have. Rules out an addition above
// the ceiling, and a head that is not the largest raised order of a column that has one.
#[derive(Clone, Copy)]
pub struct Raised<'a> {
    pub table: Table<'a>,
    pub additions: &'a [u32; ROWS],
    pub heads: &'a [i32; ROWS],
    pub ghost under_ceiling: { UnderCeiling table.n additions.now },
    pub ghost heads_stand: { HeadsStand table.entries.now table.n additions.now heads.now },
}

impl Raised<'_> {
    ghost use Rattle.std.specs.Prelude.{ℕ, ◌≤◌, ◌<◌, MatchOption};
    ghost use Rattle.theory.specs.Lists.{nums};
    ghost use Rattle.theory.specs.Canon.{Maximum};
    ghost use Rattle.orders.specs.Tested.{Tells};
    ghost use Rattle.ways.specs.Parts.{size, order_at, added};
    ghost use Rattle.ways.specs.Search.{LeastColumn, NoColumn};

    // Is the place of row i and column j a column maximum? It is when it is present and the raised order is the column's head. The
    // contract rules out an absent place, another row's addition and a test that always says one thing.
    pub(crate) fn tight(&self, i: usize, j: usize) -> bool
        requires { (i < size self.now) × (j < size self.now) }
        ensures { Tells result (Maximum (size self.now) (order_at self.now) (added self.now) i j) }
    {
        let order = self.table.place(i, j);
        orders::tight(order, self.additions[i], self.heads[j])
    }

    // The least column before `own` in which row i has a maximum and whose marked row is eligible. The contract rules out a column passed
    // over, one that is no maximum and one whose row is not eligible.
    pub fn least_column<F: Fn(usize) -> bool>(
        &self,
        rows: &[usize; ROWS],
        i: usize,
        own: usize,
        eligible: F,
    ) -> Option<usize>
        requires { (i < size self.now)
            × (own ≤ size self.now)
            × ((j : ℕ) → j < own → F.pre eligible (nums rows.now j)) }
        ensures { MatchOption
            result
            (NoColumn (size self.now) (order_at self.now) (added self.now) (nums rows.now) (F.post eligible) i own)
            (LeastColumn (size self.now) (order_at self.now) (added self.now) (nums rows.now) (F.post eligible) i own) }
    {
        for j in 0..own {
            if self.tight(i, j) && eligible(rows[j]) {
                return Some(j);
            }
        }
        None
    }
}
