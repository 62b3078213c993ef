ghost use Rattle.orders.specs.Squares.{Square};

use super::{ABSENT, ROWS, counted, higher, lowest};

// A table of n rows and n columns, row after row. Rules out another count of entries than n × n, and more rows than document 01's limit.
// Additions, marks and columns are handed beside it, and what is known of them stands in the clauses: a call reads one table with now these, now
// those, and changes them between.
#[derive(Clone, Copy)]
pub struct Table<'a> {
    pub entries: &'a [i16],
    pub n: usize,
    pub ghost square: { Square entries.now n },
}

// A column's head, the lowest row that holds it, numbered from 1, and how many rows do; all three are 0 where the column has no order.
// That is what column_heads hands out of such a column (`ColumnHead`, and so C), so there is no Option around it.
#[derive(Clone, Copy)]
pub struct Top {
    pub head: i32,
    pub row: u32,
    pub count: u32,
}

impl Table<'_> {
    ghost use Rattle.std.specs.Prelude.{◌≡◌, ◌<◌};
    ghost use Rattle.theory.specs.Table.{entry};
    ghost use Rattle.orders.specs.Places.{UnderCeiling, TopOf, TopsOf};

    // What stands in row i and column j. Rules out row and column exchanged.
    pub fn place(&self, i: usize, j: usize) -> i16
        requires { (i < self.now.n) × (j < self.now.n) }
        ensures { result ≡ entry self.now.entries.now self.now.n i j }
    {
        self.entries[i * self.n + j]
    }

    // Head, lowest row and count of column j with the additions given. The height begins below every raised order, and is still there where
    // the column has none: an Option would make each of the three functions called ask for it at every row. In the loop the row is
    // counted from 0. Row and count have functions of their own, so that the compiler drops them where a caller asks for the head alone.
    // `ABSENT as i32` is a cast: with `i32::from` the proof did not close. Rules out a head that no order reaches or that one exceeds,
    // another row than the lowest that holds it, a tie left out, and anything but 0 in a column with no order.
    pub fn head(&self, additions: &[u32; ROWS], j: usize) -> Top
        requires { (j < self.now.n) × UnderCeiling self.now.n additions.now }
        ensures { TopOf self.now.entries.now self.now.n additions.now j result }
    {
        let mut height = ABSENT as i32;
        let mut row = 0;
        let mut count = 0;
        for i in 0..self.n {
            let order = self.place(i, j);
            let next = higher(height, order, additions[i]);
            row = lowest(row, height, next, i);
            count = counted(count, height, order, additions[i]);
            height = next;
        }
        if height <= ABSENT as i32 {
            return Top {
                head: 0,
                row: 0,
                count: 0,
            };
        }
        Top {
            head: height,
            row: row as u32 + 1,
            count,
        }
    }

    // Head, lowest row and count of each of the n columns. Rules out what `head` rules out, in every column.
    pub fn heads(&self, additions: &[u32; ROWS]) -> [Top; ROWS]
        requires { UnderCeiling self.now.n additions.now }
        ensures { TopsOf self.now.entries.now self.now.n additions.now result }
    {
        let mut tops = [Top {
            head: 0,
            row: 0,
            count: 0,
        }; ROWS];
        for j in 0..self.n {
            let top = self.head(additions, j);
            tops[j] = top;
        }
        tops
    }
}
