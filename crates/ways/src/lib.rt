#![tactic(auto)]

ghost use Rattle.std.specs.Prelude.{◌+◌, ◌<◌};
ghost use Rattle.theory.specs.Limits.{row_limit};
ghost use Rattle.theory.specs.Lists.{nums};
ghost use Rattle.ways.specs.Parts.{size};
ghost use Rattle.ways.specs.Search.{Unsearched, RowsFrom, Columns, Joined, RowsFoundIn, Scanned, Searched};

mod raised;

use orders::ROWS;
pub use raised::Raised;
use std::array;

// The rows from i on, one after the other. Rules out a row left out, and one before i.
fn rows_from(i: usize) -> [usize; ROWS]
    requires { i < row_limit }
    ensures { RowsFrom row_limit i result }
{
    array::from_fn(|p| i + p)
}

// The rows from which the column of row i can be reached by column maxima, held as they are found: the row at place p of the queue has
// step p + 1 and goes on to the column of row next, which was found before it. Row i itself is the first. Behind the rows found, of
// which there are `count`, the queue holds the later rows that are not found, which have step 0; an array of Option would be twice as
// large. The queue is one array for both, so that a row that joins changes places with another and none is lost.
#[derive(Drop)]
pub struct Ways {
    pub next: [usize; ROWS],
    pub step: [usize; ROWS],
    pub queue: [usize; ROWS],
    pub count: usize,
}

impl Ways {
    // No row is found yet. Rules out a row with a step.
    pub fn new() -> Ways
        ensures { Unsearched row_limit result }
    {
        Ways {
            next: [0; ROWS],
            step: [0; ROWS],
            queue: [0; ROWS],
            count: 0,
        }
    }

    // The row at a place behind those found, of which there are `found`, joins them, with a step to row m, and changes places with the
    // first of those behind. Rules out another row's step or way changed, and a row lost.
    fn join(&mut self, place: usize, m: usize, found: usize)
        requires { (place < row_limit) × (found < row_limit) × (nums self.old.queue place < row_limit) }
        ensures { Joined (record self.old { count = found }) place m (record self.new { count = found + 1 }) }
    {
        let k = self.queue[place];
        self.queue.swap(place, found);
        self.next[k] = m;
        self.step[k] = found + 1;
    }

    // The rows after i that have a maximum in the column of row m join. The rows not yet found are tried, one after the other. The contract
    // rules out a row left out or lost, a row before i, and a row whose way does not lead on to rows found before it.
    // The count stays in a local until the column is scanned: counted up in memory, row by row, it costs a search 1.2 of its time.
    fn scan(&mut self, raised: &Raised<'_>, columns: &[usize; ROWS], i: usize, m: usize)
        requires { Columns raised.now i columns.now
            × (m < size raised.now)
            × (0 < nums self.old.step m)
            × RowsFoundIn raised.now i columns.now self.old }
        ensures { Scanned raised.now i columns.now m self.old self.new }
    {
        let column = columns[m];
        let mut found = self.count;
        for place in found..raised.table.n - i {
            let tight = raised.tight(self.queue[place], column);
            if tight {
                self.join(place, m, found);
                found += 1;
            }
        }
        self.count = found;
    }

    // Rows from i on from which the column of row i can be reached: the columns of the rows found are scanned one after the other, until
    // row `wanted` is found or none is left. The contract rules out a search that stops while the row wanted is not found and a column of
    // a row found is not scanned.
    // The queue grows while it is gone through, so no range says where it ends.
    // The ways are lent by the caller: handed out by value they are copied, which costs the first stars up to 1.4 of the instructions.
    pub fn find(&mut self, raised: &Raised<'_>, columns: &[usize; ROWS], i: usize, wanted: usize)
        requires { Columns raised.now i columns.now × (wanted < size raised.now) × Unsearched (size raised.now) self.old }
        ensures { Searched raised.now i columns.now wanted self.new }
    {
        self.queue = rows_from(i);
        self.join(0, i, 0);
        self.count = 1;
        let mut at = 0;
        while at < self.count && self.step[wanted] == 0 {
            let m = self.queue[at];
            self.scan(raised, columns, i, m);
            at += 1;
        }
    }
}
