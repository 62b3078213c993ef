#![tactic(auto)]

ghost use Rattle.std.specs.Prelude.{◌≡◌, ℕ, ◌+◌, ◌≤◌, ◌<◌, length};
ghost use Rattle.theory.specs.Limits.{row_limit};
ghost use Rattle.theory.specs.Lists.{nums, ints};
ghost use Rattle.theory.specs.Table.{entry};
ghost use Rattle.theory.specs.Canon.{Heads, sum};
ghost use Rattle.orders.specs.Places.{UnderCeiling, Marks};
ghost use Rattle.orders.specs.Held.{CanonBy};
ghost use Rattle.outcome.specs.Completion.{RowsHold, WholeAnswerOf, HandedOut, Slices, Delivered};

use orders::{Marked, ROWS, Table, raise};
use stars::first_stars;

// The heads of all columns, read off the marks: the row marked in a column holds its maximum. Rules out a head that is not the largest
// raised order of its column.
fn heads_of(table: &Table<'_>, additions: &[u32; ROWS], rows: &[usize; ROWS]) -> [i32; ROWS]
    requires { UnderCeiling table.now.n additions.now × RowsHold table.now.entries.now table.now.n additions.now rows.now }
    ensures { Heads table.now.n (entry table.now.entries.now table.now.n) (nums additions.now) (ints result) }
{
    let mut heads = [0; ROWS];
    for j in 0..table.n {
        let i = rows[j];
        heads[j] = raise(table.place(i, j), additions[i]);
    }
    heads
}

// The total of the starred orders as they stand in the table. Rules out orders counted as raised, and a row left out.
fn sum_of(table: &Table<'_>, columns: &[usize; ROWS]) -> i32
    requires { (i : ℕ) → i < table.now.n → nums columns.now i < table.now.n }
    ensures { result ≡ sum table.now.n (entry table.now.entries.now table.now.n) (nums columns.now) }
{
    let mut sum = 0;
    for i in 0..table.n {
        sum += i32::from(table.place(i, columns[i]));
    }
    sum
}

// The columns of the first n rows, numbered from 1. Rules out columns numbered from 0.
fn numbered(n: usize, columns: &[usize; ROWS]) -> [u32; ROWS]
    requires { (n ≤ row_limit) × ((i : ℕ) → i < n → nums columns.now i < n) }
    ensures { (i : ℕ) → i < n → nums result i ≡ nums columns.now i + 1 }
{
    let mut stars = [0; ROWS];
    for i in 0..n {
        stars[i] = columns[i] as u32 + 1;
    }
    stars
}

// The whole answer, held by value until it is copied out.
#[derive(Drop)]
pub struct WholeAnswer {
    pub additions: [u32; ROWS],
    pub stars: [u32; ROWS],
    pub heads: [i32; ROWS],
    pub sum: i32,
}

// The whole answer of a canon, from the marks of any complete transversal of its column maxima. Additions and marks come apart: from stars
// handed in, the marks are there before the additions. Rules out stars that are not the
// first, and heads or a sum of other additions.
pub fn completed(table: &Table<'_>, additions: [u32; ROWS], marks: &Marked) -> WholeAnswer
    requires { CanonBy table.now.entries.now table.now.n additions marks.now.columns
        × Marks table.now.n (nums marks.now.rows) (nums marks.now.columns) }
    ensures { WholeAnswerOf table.now.entries.now table.now.n additions result }
{
    let heads = heads_of(table, &additions, &marks.rows);
    let first = first_stars(table, &additions, &heads, *marks);
    let sum = sum_of(table, &first);
    let stars = numbered(table.n, &first);
    WholeAnswer {
        additions,
        stars,
        heads,
        sum,
    }
}

// The whole answer copied out into the lent slices, which have a place for each row. Rules out a list copied into another's
// slice.
pub fn hand_out(answer: WholeAnswer, adds: &mut [u32], stars: &mut [u32], heads: &mut [i32])
    requires { (length adds.old ≤ row_limit) × (length stars.old ≤ row_limit) × (length heads.old ≤ row_limit) }
    ensures { HandedOut
        answer
        adds.old
        stars.old
        heads.old
        adds.new
        stars.new
        heads.new }
{
    adds.copy_from_slice(&answer.additions[..adds.len()]);
    stars.copy_from_slice(&answer.stars[..stars.len()]);
    heads.copy_from_slice(&answer.heads[..heads.len()]);
}

// The whole answer of a canon, worked out by value and then copied out into the lent slices; returned is the sum. Rules out a
// slice that holds less than the whole of its list. The slices stay three: they are those that the public call was lent, each by itself.
pub fn delivered(
    table: &Table<'_>,
    additions: [u32; ROWS],
    marks: &Marked,
    adds: &mut [u32],
    stars: &mut [u32],
    heads: &mut [i32],
) -> i32
    requires { CanonBy table.now.entries.now table.now.n additions marks.now.columns
        × Marks table.now.n (nums marks.now.rows) (nums marks.now.columns)
        × Slices table.now.n adds.old stars.old heads.old }
    ensures { Delivered table.now.entries.now table.now.n additions result adds.new stars.new heads.new }
{
    let answer = completed(table, additions, marks);
    let sum = answer.sum;
    hand_out(answer, adds, stars, heads);
    sum
}
