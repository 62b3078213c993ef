ghost use Rattle.orders.specs.Held.{Long};

use gaps::{LeastGap, NO_GAP, Raised, Tree};
use orders::{Marked, ROWS, Table};

// A canon under way: additions with the columns' heads, and the marks of the rows inserted so far; ROWS stands for no mark, since an
// array of Option would be twice as large. That it is ready for row s stays in the clauses of `reach` and `insert`: it is not so any
// more where there turns out to be no complete transversal.
#[derive(Drop)]
pub struct Sapling {
    pub raised: Raised,
    pub marks: Marked,
    pub ghost marked: { Long marks.rows × Long marks.columns },
}

impl Sapling {
    ghost use Rattle.std.specs.Prelude.{◌≡◌, ◌+◌, ◌≤◌, ◌<◌, IfSome};
    ghost use Rattle.theory.specs.Lists.{nums};
    ghost use Rattle.orders.specs.Places.{ceiling};
    ghost use Rattle.growth.specs.Growing.{Bare, FreeIn, SomeWay, Flipped, SomeReady, Met, Inserted};

    // A tree of rows grows from row s, and rises, until an unmarked column is tight for one of its rows: that column, or None where no
    // column is left to reach. Rules out a rise beyond a canon, and an end at a column that no row of the tree is tight in. A loop without
    // a range: which row is next, and whether there is one, is known only at the column reached.
    fn reach(&mut self, table: &Table<'_>, s: usize, tree: &mut Tree) -> Option<usize>
        requires inside { s < table.now.n }
        requires ready { SomeReady table.now.entries.now table.now.n s self.old }
        requires bare { Bare tree.old }
        ensures { Met table.now.entries.now table.now.n s self.old self.new tree.new.givers result }
    {
        let mut row = s;
        loop {
            let LeastGap { gap, column } = tree.look(table, row, &self.raised, &self.marks.rows)?;
            tree.rise_by(table.n, gap, &mut self.raised);
            if table.n <= self.marks.rows[column] {
                return Some(column);
            }
            tree.reached[column] = true;
            tree.gaps[column] = NO_GAP;
            row = self.marks.rows[column];
        }
    }

    // An unmarked column in which row s is tight as it stands, or None where there is none. Tightness is tested first: on tables with few
    // ties it mostly fails, and a test that mostly comes out one way costs the processor least. Rules out a column that is marked, and
    // one in which the row is absent or below the head.
    fn free_column(&self, table: &Table<'_>, s: usize) -> Option<usize>
        requires { (s < table.now.n) × (nums self.now.raised.additions s ≤ ceiling) }
        ensures { IfSome result (FreeIn table.now.entries.now table.now.n s self.now) }
    {
        let addition = self.raised.additions[s];
        for j in 0..table.n {
            let order = table.place(s, j);
            if orders::tight(order, addition, self.raised.heads[j])
                && table.n <= self.marks.rows[j]
            {
                return Some(j);
            }
        }
        None
    }

    // The way back from the unmarked column `end` to row s: each row on the way takes the column that it gives. Rules out a row or a
    // column that loses its mark, and a mark at a place that is not tight. Nothing is counted: the way is followed to its end at row s.
    fn flip(&mut self, s: usize, end: usize, givers: &[usize; ROWS])
        requires { SomeWay s end givers.now self.old.marks }
        ensures { Flipped s end givers.now self.old.marks self.new.marks × (self.new.raised ≡ self.old.raised) }
    {
        let mut j = end;
        let mut i = givers[end];
        while i != s {
            let next = self.marks.columns[i];
            self.marks.rows[j] = i;
            self.marks.columns[i] = j;
            j = next;
            i = givers[next];
        }
        self.marks.rows[j] = s;
        self.marks.columns[s] = j;
    }

    // One more row, row s, gets its mark; None where there is no complete transversal. Where the row is tight in an unmarked column as it
    // stands, it takes that column; else a tree is grown. On tables with many ties most rows need no tree. Rules out a row below s that
    // loses its mark, two rows with one column, additions above a canon's, and None where a complete transversal exists.
    fn insert(&mut self, table: &Table<'_>, s: usize) -> Option<()>
        requires inside { s < table.now.n }
        requires ready { SomeReady table.now.entries.now table.now.n s self.old }
        ensures { Inserted table.now.entries.now table.now.n s (s + 1) self.old self.new result }
    {
        if let Some(column) = self.free_column(table, s) {
            self.marks.rows[column] = s;
            self.marks.columns[s] = column;
            return Some(());
        }
        let mut tree = Tree {
            rows: [false; ROWS],
            reached: [false; ROWS],
            gaps: [NO_GAP; ROWS],
            givers: [0; ROWS],
        };
        let end = self.reach(table, s, &mut tree)?;
        self.flip(s, end, &tree.givers);
        Some(())
    }

    // All rows get their marks, one after the other; None where there is no complete transversal. Rules out what `insert` rules out.
    pub fn insert_all(&mut self, table: &Table<'_>) -> Option<()>
        requires { SomeReady table.now.entries.now table.now.n 0 self.old }
        ensures { Inserted table.now.entries.now table.now.n 0 table.now.n self.old self.new result }
    {
        for s in 0..table.n {
            self.insert(table, s)?;
        }
        Some(())
    }
}
