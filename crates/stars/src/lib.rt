#![tactic(auto)]

ghost use Rattle.std.specs.Prelude.{◌<◌};
ghost use Rattle.theory.specs.Lists.{nums, ints};
ghost use Rattle.theory.specs.Table.{entry};
ghost use Rattle.theory.specs.Canon.{Heads, Stars};
ghost use Rattle.orders.specs.Places.{Marks};
ghost use Rattle.orders.specs.Held.{CanonBy};
ghost use Rattle.ways.specs.Parts.{size, order_at, added};
ghost use Rattle.stars.specs.Shift.{MaximaIn, Swappable, Swapped, Starred, FirstCandidate};

use orders::{Marked, ROWS, Table};
use ways::{Raised, Ways};

// Rows k and m exchange their columns. Rules out a mark of another row or column changed.
fn swap(marks: &mut Marked, k: usize, m: usize)
    requires { Swappable marks.old.columns k m }
    ensures { Swapped marks.old k m marks.new }
{
    marks.columns.swap(k, m);
    let taken = marks.columns[k];
    let left = marks.columns[m];
    marks.rows[taken] = k;
    marks.rows[left] = m;
}

// Row i takes the first column that the rows before it leave to it, and the marks are shifted along the way from there to the column
// that row i had: at each turn row k has that column, and exchanges it for the column of the next row m, up to row i itself, whose
// step is 1. No column before `first` could be left to row i; once the row of that column is found, row i takes it, and the search
// stops. The contract rules out moving a row before i, and leaving row i at a column when a transversal of maxima with the same columns
// before i has an earlier one.
fn shift(raised: &Raised<'_>, i: usize, first: usize, marks: &mut Marked)
    requires { (i < size raised.now)
        × MaximaIn raised.now marks.old
        × FirstCandidate raised.now marks.old i first }
    ensures { Starred raised.now marks.old i marks.new }
{
    let mut ways = Ways::new();
    ways.find(raised, &marks.columns, i, marks.rows[first]);
    let own = marks.columns[i];
    let earlier = raised.least_column(&marks.rows, i, own, |row| ways.step[row] != 0);
    let j = earlier.unwrap_or(own);
    let mut k = i;
    let mut m = marks.rows[j];
    while ways.step[m] != 1 {
        swap(marks, k, m);
        k = m;
        m = ways.next[m];
    }
}

// Row i comes to the first column that the rows before it leave to it. Most rows are there already: no earlier column in which row i
// has a maximum belongs to a later row, and nothing is searched. Rules out what `shift` rules out.
fn star_row(raised: &Raised<'_>, i: usize, marks: &mut Marked)
    requires { (i < size raised.now) × MaximaIn raised.now marks.old }
    ensures { Starred raised.now marks.old i marks.new }
{
    let own = marks.columns[i];
    let earlier = raised.least_column(&marks.rows, i, own, |row| row >= i);
    if let Some(first) = earlier {
        shift(raised, i, first, marks);
    }
}

// One row after the other comes to the first column that the rows before it leave to it. Rules out what `first_stars` rules out.
fn star_rows(raised: &Raised<'_>, mut marks: Marked) -> [usize; ROWS]
    requires { MaximaIn raised.now marks }
    ensures { Stars (size raised.now) (order_at raised.now) (added raised.now) (nums result) }
{
    for i in 0..raised.table.n {
        star_row(raised, i, &mut marks);
    }
    marks.columns
}

// The columns of the first complete transversal of column maxima, from the marks of any: one row after the other comes to the first
// column that the rows before it leave to it. Each row costs at most a search of n columns over n rows, all of them O(n³). The
// contract rules out every answer but the stars: columns that are no transversal or no maxima, and the marks as they came when
// another transversal of maxima comes before them. Columns are counted from 0.
pub fn first_stars(
    table: &Table<'_>,
    additions: &[u32; ROWS],
    heads: &[i32; ROWS],
    marks: Marked,
) -> [usize; ROWS]
    requires { Heads table.now.n (entry table.now.entries.now table.now.n) (nums additions.now) (ints heads.now)
        × CanonBy table.now.entries.now table.now.n additions.now marks.columns
        × Marks table.now.n (nums marks.rows) (nums marks.columns) }
    ensures { Stars table.now.n (entry table.now.entries.now table.now.n) (nums additions.now) (nums result) }
{
    let raised = Raised {
        table: *table,
        additions,
        heads,
    };
    star_rows(&raised, marks)
}
