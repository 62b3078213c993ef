ghost use Rattle.orders.specs.Held.{Long};

use super::{LeastGap, NO_GAP, Raised, Way, lesser, lift, narrowed, nearer, share};
use orders::{ROWS, Table};

// A tree of rows: which rows are in it, which columns it has reached, and the nearest way into each of the others, its gap and its giver.
// Two arrays and no array of ways: with one, growing took up to 1.5 times as long on tables with few ties.
#[derive(Drop)]
pub struct Tree {
    pub rows: [bool; ROWS],
    pub reached: [bool; ROWS],
    pub gaps: [u32; ROWS],
    pub givers: [usize; ROWS],
    pub ghost long: { Long rows × Long reached × Long gaps × Long givers },
}

impl Tree {
    ghost use Rattle.std.specs.Prelude.{◌<◌};
    ghost use Rattle.gaps.specs.Steps.{Joining, LookedAt, Rising, RisenBy};

    // One more row joins the tree, and the ways into the unreached columns take it in: the least gap of these columns, or None where no
    // row of the tree has an order in any of them. By the marks `marked`, the row of each column, an unmarked column goes before a marked
    // one with the same gap, which only saves time and is not promised. Rules out a column passed over, and a way into a reached column
    // changed.
    pub fn look(
        &mut self,
        table: &Table<'_>,
        row: usize,
        raised: &Raised,
        marked: &[usize; ROWS],
    ) -> Option<LeastGap>
        requires { Joining table.now.entries.now table.now.n row raised.now }
        ensures { LookedAt table.now.entries.now table.now.n row raised.now self.old self.new result }
    {
        self.rows[row] = true;
        let mut least = LeastGap {
            gap: NO_GAP,
            column: 0,
        };
        let addition = raised.additions[row];
        for j in 0..table.n {
            if !self.reached[j] {
                let order = table.place(row, j);
                let old = Way {
                    gap: self.gaps[j],
                    giver: self.givers[j],
                };
                let way = nearer(old, order, addition, raised.heads[j], row);
                self.gaps[j] = way.gap;
                self.givers[j] = way.giver;
                least = lesser(least, way.gap, j, table.n <= marked[j]);
            }
        }
        if least.gap == NO_GAP {
            None
        } else {
            Some(least)
        }
    }

    // The tree rises: its rows and the reached columns are raised, and the gaps narrowed. Rules out a row or a column of the tree left
    // behind, and one outside raised with it.
    pub fn rise_by(&mut self, n: usize, rise: u32, raised: &mut Raised)
        requires { Rising n rise raised.old self.old.gaps }
        ensures { RisenBy n rise self.old raised.old self.new raised.new }
    {
        if rise == 0 {
            return;
        }
        for i in 0..n {
            raised.additions[i] = raised.additions[i] + share(rise, self.rows[i]);
            raised.heads[i] = lift(raised.heads[i], share(rise, self.reached[i]));
            self.gaps[i] = narrowed(self.gaps[i], rise);
        }
    }
}
