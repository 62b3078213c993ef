#![tactic(auto)]

ghost use Rattle.orders.specs.Held.{Startable};
ghost use Rattle.canon.specs.Solving.{SolvedFrom};
ghost use Rattle.canon.specs.Promises.{Solves, FromCanon, FromStars, Judges, ColumnHeads};

use growth::grow;
use handed::{additions_stand, held, listed_marks, tested};
use orders::{ROWS, Refusal, Table};
use outcome::{WholeAnswer, completed, delivered, hand_out};
use routes::{from_additions, from_columns};

// The solver between the tests and the handing out, by value: the least canon from the start with its stars (columns from 1), heads and
// sum, or nothing where no complete transversal exists. Rules out a canon that is not the least from the start, stars that are
// not the first, heads or a sum of other additions, and an answer either way that is not so.
pub fn solved(table: &Table<'_>, start: [u32; ROWS]) -> Option<WholeAnswer>
    requires { Startable table.now.entries.now table.now.n start }
    ensures { SolvedFrom table.now.entries.now table.now.n start result }
{
    let grown = grow(table, start)?;
    Some(completed(table, grown.additions, &grown.marks))
}

// Route 1: the simplest canon of a table, with stars and heads, into the lent slices. Rules out additions that are no canon, or a
// canon with a smaller one beside it in some row; stars that are not the first; a sum that is not the stars'; a refusal but the
// lowest that applies; and a byte written where a refusal is given.
pub fn solve(
    n: usize,
    table: &[i16],
    adds: &mut [u32],
    stars: &mut [u32],
    heads: &mut [i32],
) -> Result<i32, Refusal>
    ensures { Solves n table.now adds.old stars.old heads.old result
        adds.new stars.new heads.new }
{
    tested(n, table, &[adds.len(), stars.len(), heads.len()])?;
    let square = Table { entries: table, n };
    let answer = solved(&square, [0; ROWS]).ok_or(Refusal::NoTransversal)?;
    let sum = answer.sum;
    hand_out(answer, adds, stars, heads);
    Ok(sum)
}

// Route 2: the same from additions that are a canon. Rules out what `solve` rules out, the additions handed back as they came,
// and an answer from additions that are no canon.
pub fn from_canon(
    n: usize,
    table: &[i16],
    given: &[u32],
    adds: &mut [u32],
    stars: &mut [u32],
    heads: &mut [i32],
) -> Result<i32, Refusal>
    ensures { FromCanon n table.now given.now adds.old stars.old heads.old result
        adds.new stars.new heads.new }
{
    tested(
        n,
        table,
        &[given.len(), adds.len(), stars.len(), heads.len()],
    )?;
    if !additions_stand(given) {
        return Err(Refusal::Addition);
    }
    let square = Table { entries: table, n };
    let lowered = from_additions(&square, given)?;
    Ok(delivered(
        &square,
        lowered.additions,
        &lowered.marks,
        adds,
        stars,
        heads,
    ))
}

// Route 3: the same from a transversal of greatest sum. Rules out what `solve` rules out, the stars handed back where others come
// first, and an answer from stars without the greatest sum.
pub fn from_stars(
    n: usize,
    table: &[i16],
    given: &[u32],
    adds: &mut [u32],
    stars: &mut [u32],
    heads: &mut [i32],
) -> Result<i32, Refusal>
    ensures { FromStars n table.now given.now adds.old stars.old heads.old result
        adds.new stars.new heads.new }
{
    tested(
        n,
        table,
        &[given.len(), adds.len(), stars.len(), heads.len()],
    )?;
    let marks = listed_marks(n, given).ok_or(Refusal::StarList)?;
    let square = Table { entries: table, n };
    let additions = from_columns(&square, &marks.columns)?;
    Ok(delivered(&square, additions, &marks, adds, stars, heads))
}

// The yes-or-no: are the additions the simplest canon? Rules out a yes to any other canon, a no to the simplest, and either where
// a refusal is due.
pub fn is_simplest(n: usize, table: &[i16], given: &[u32]) -> Result<bool, Refusal>
    ensures { Judges n table.now given.now result }
{
    tested(n, table, &[given.len()])?;
    if !additions_stand(given) {
        return Err(Refusal::Addition);
    }
    let square = Table { entries: table, n };
    let judged = from_additions(&square, given)?;
    Ok(judged.unchanged)
}

// Head, lowest row and count of every column, with any additions (zeros: the table as it stands), into the lent slices. Rules out a head
// that is not the largest raised order of its column, another row than the lowest that holds it, a row numbered from 0, a tie left
// out, a refusal but the lowest that applies, and a byte written where a refusal is given.
pub fn column_heads(
    n: usize,
    table: &[i16],
    given: &[u32],
    heads: &mut [i32],
    rows: &mut [u32],
    counts: &mut [u32],
) -> Result<(), Refusal>
    ensures { ColumnHeads n table.now given.now heads.old rows.old counts.old result
        heads.new rows.new counts.new }
{
    let lengths = [given.len(), heads.len(), rows.len(), counts.len()];
    tested(n, table, &lengths)?;
    if !additions_stand(given) {
        return Err(Refusal::Addition);
    }
    let square = Table { entries: table, n };
    let tops = square.heads(&held(given));
    for j in 0..n {
        heads[j] = tops[j].head;
        rows[j] = tops[j].row;
        counts[j] = tops[j].count;
    }
    Ok(())
}
