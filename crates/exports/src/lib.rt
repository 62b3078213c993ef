#![tactic(auto)]

ghost use Rattle.std.specs.Prelude.{ℕ, Result};
ghost use Rattle.orders.specs.Refusals.{says};
ghost use Rattle.orders.specs.declared.Refusal.{Refusal};
ghost use Rattle.canon.specs.Answers.{Answer, Verdict, Filled};
ghost use Rattle.canon.specs.Promises.{Solves, FromCanon, FromStars, Judges, ColumnHeads};
ghost use Rattle.reader.specs.Promise.{ReadPromise, lent};
ghost use Rattle.writer.specs.Promise.{WritePromise, model};
ghost use Rattle.printing.specs.Promise.{PrintPromise};
ghost use Rattle.telling.specs.Telling.{itself, no_result, bit};
ghost use Rattle.exports.specs.Told.{Told, ToldRead};

use telling::{tell, tell_read, tell_verdict};

// Route 1. Rules out lists written in each other's places, another N than the caller's, and what tell rules out.
#[unsafe(no_mangle)]
pub extern "C" fn canon_solve(
    n: usize,
    table: &[i16],
    adds: &mut [u32],
    stars: &mut [u32],
    heads: &mut [i32],
    sum: &mut i32,
) -> u32
    ensures { Told
        (λ (a : Answer).
        Solves n table.now adds.old stars.old heads.old a
        adds.new stars.new heads.new)
        says itself result sum.old sum.new }
{
    tell(canon::solve(n, table, adds, stars, heads), sum)
}

// Route 2. Rules out what canon_solve rules out.
#[unsafe(no_mangle)]
pub extern "C" fn canon_from_canon(
    n: usize,
    table: &[i16],
    given: &[u32],
    adds: &mut [u32],
    stars: &mut [u32],
    heads: &mut [i32],
    sum: &mut i32,
) -> u32
    ensures { Told
        (λ (a : Answer).
        FromCanon n table.now given.now adds.old stars.old heads.old a
        adds.new stars.new heads.new)
        says itself result sum.old sum.new }
{
    tell(canon::from_canon(n, table, given, adds, stars, heads), sum)
}

// Route 3. Rules out what canon_solve rules out.
#[unsafe(no_mangle)]
pub extern "C" fn canon_from_stars(
    n: usize,
    table: &[i16],
    given: &[u32],
    adds: &mut [u32],
    stars: &mut [u32],
    heads: &mut [i32],
    sum: &mut i32,
) -> u32
    ensures { Told
        (λ (a : Answer).
        FromStars n table.now given.now adds.old stars.old heads.old a
        adds.new stars.new heads.new)
        says itself result sum.old sum.new }
{
    tell(canon::from_stars(n, table, given, adds, stars, heads), sum)
}

// The yes-or-no. Rules out another N than the caller's, and what tell_verdict rules out.
#[unsafe(no_mangle)]
pub extern "C" fn canon_is_simplest(n: usize, table: &[i16], given: &[u32], yes: &mut u8) -> u32
    ensures { Told (λ (a : Verdict). Judges n table.now given.now a) says bit result yes.old yes.new }
{
    tell_verdict(canon::is_simplest(n, table, given), yes)
}

// Head, lowest row and count of every column. Rules out lists written in each other's places, another N than the caller's, and what
// tell rules out.
#[unsafe(no_mangle)]
pub extern "C" fn canon_column_heads(
    n: usize,
    table: &[i16],
    given: &[u32],
    heads: &mut [i32],
    rows: &mut [u32],
    counts: &mut [u32],
) -> u32
    ensures { Told
        (λ (a : Filled).
        ColumnHeads n table.now given.now heads.old rows.old counts.old a
        heads.new rows.new counts.new)
        says itself result no_result no_result }
{
    let answer = canon::column_heads(n, table, given, heads, rows, counts);
    tell(answer, &mut ())
}

// The reader. Rules out rows' labels in the columns' place, N in the line's, and what tell_read rules out.
#[unsafe(no_mangle)]
pub extern "C" fn canon_read_sheet(
    sheet: &[u8],
    table: &mut [i16],
    rows: &mut [u8],
    cols: &mut [u8],
    n: &mut usize,
    line: &mut usize,
) -> u32
    ensures { ToldRead
        (λ (a : Result ℕ Refusal).
        ReadPromise sheet.now (lent table.old rows.old cols.old)
        (lent table.new rows.new cols.new) (says a))
        says result n.old line.old n.new line.new }
{
    tell_read(reader::read_sheet(sheet, table, rows, cols), n, line)
}

// The writer. Rules out rows' labels in the columns' place, another N than the caller's, and what tell rules out.
#[unsafe(no_mangle)]
pub extern "C" fn canon_write_sheet(
    n: usize,
    table: &[i16],
    rows: &[u8],
    cols: &[u8],
    out: &mut [u8],
    length: &mut usize,
) -> u32
    ensures { Told
        (λ (a : Result ℕ Refusal).
        WritePromise (model n table.now rows.now cols.now) out.old out.new
        (says a))
        says itself result length.old length.new }
{
    tell(writer::write_sheet(n, table, rows, cols, out), length)
}

// The program's whole answer to a sheet. Rules out another text, and what tell rules out.
#[unsafe(no_mangle)]
pub extern "C" fn canon_print(sheet: &[u8], out: &mut [u8], length: &mut usize) -> u32
    ensures { Told (λ (a : Result ℕ Refusal). PrintPromise sheet.now out.old out.new (says a))
        says itself result length.old length.new }
{
    tell(printing::print_answer(sheet, out), length)
}
