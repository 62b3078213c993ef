#![tactic(auto)]

ghost use Rattle.std.specs.Prelude.{[], ◌≤◌, length};
ghost use Rattle.theory.specs.Lists.{nums};
ghost use Rattle.theory.specs.Table.{entry};
ghost use Rattle.theory.specs.Canon.{Ties};
ghost use Rattle.orders.specs.Places.{UnderCeiling};
ghost use Rattle.orders.specs.Refusals.{says};
ghost use Rattle.handed.specs.Handed.{Sound};
ghost use Rattle.printing.specs.Room.{enough};
ghost use Rattle.printing.specs.Promise.{TableSays, SheetSays, Prints, PrintPromise, InputPromise};

use canon::solve;
use index_figure::index;
use lettering::put;
use lines::LABELS;
use orders::{PLACES, ROWS, Refusal, SHEET, Table};
use page::{Figures, put_figures, put_refusal};
use reader::read_sheet;

// As much of an input as tells its answer: one byte more than the longest sheet, so that a longer one is known.
pub const INPUT: usize = SHEET + 1;

// The room of a line: a sign, the ten digits of a number of 32 bits, and a line feed.
const LINE_ROOM: usize = 12;

// The room of a heading: a name of ten bytes, a blank, a count of four digits, and a line feed.
const HEADING_ROOM: usize = 16;

// The sections for which there is room.
const SECTIONS_MOST: usize = 10;

// A room in which every answer fits (`answers_fit` in proofs/Fits): each section is a heading and a line for every row.
pub const ENOUGH: usize = SECTIONS_MOST * (HEADING_ROOM + ROWS * LINE_ROOM);

// How many rows hold the head of each column, under the additions given. Rules out another count, and the lowest row for it.
fn ties_of(table: &Table<'_>, additions: &[u32; ROWS]) -> [u32; ROWS]
    requires { UnderCeiling table.now.n additions.now }
    ensures { Ties table.now.n (entry table.now.entries.now table.now.n) (nums additions.now) (nums result) }
{
    let mut ties = [0; ROWS];
    for j in 0..table.n {
        let top = table.head(additions, j);
        ties[j] = top.count;
    }
    ties
}

// The answer of a table; the ties are counted under the additions found. Rules out figures where no complete transversal exists, and a
// refusal where one does.
fn put_table(table: &Table<'_>, page: &mut [u8]) -> usize
    requires { (Sound table.now.n table.now.entries.now []) × (enough ≤ length page.old) }
    ensures { Prints (TableSays table.now.n table.now.entries.now) page.old page.new result }
{
    let n = table.n;
    let mut adds = [0; ROWS];
    let mut stars = [0; ROWS];
    let mut heads = [0; ROWS];
    let answer = solve(
        n,
        table.entries,
        &mut adds[..n],
        &mut stars[..n],
        &mut heads[..n],
    );
    match answer {
        Ok(sum) => {
            let ties = ties_of(table, &adds);
            let figure = index(table.entries, &adds[..n], &heads[..n]);
            let figures = Figures {
                adds: &adds[..n],
                stars: &stars[..n],
                heads: &heads[..n],
                ties: &ties[..n],
                sum,
                index: figure,
            };
            put_figures(&figures, page)
        }
        Err(refusal) => put_refusal(refusal, page),
    }
}

// The answer of a sheet. Rules out figures of another table than the sheet's.
fn put_answer(sheet: &[u8], page: &mut [u8]) -> usize
    requires { enough ≤ length page.old }
    ensures { Prints (SheetSays sheet.now) page.old page.new result }
{
    let mut table = [0; PLACES];
    let mut rows = [0; LABELS];
    let mut cols = [0; LABELS];
    let read = read_sheet(sheet, &mut table, &mut rows, &mut cols);
    match read {
        Ok(n) => put_table(
            &Table {
                entries: &table[..n * n],
                n,
            },
            page,
        ),
        Err(refusal) => put_refusal(refusal, page),
    }
}

// Reads a sheet, solves its table and writes the printed answer into the lent room; tells the length written, or refusal 12 where
// the answer does not fit, with nothing written. The promise rules out an answer whose sections, counts or figures are not those of
// the sheet's one table, a refusal with another number or line, and a byte touched after the text.
pub fn print_answer(sheet: &[u8], out: &mut [u8]) -> Result<usize, Refusal>
    ensures { PrintPromise sheet.now out.old out.new (says result) }
{
    let mut page = [0u8; ENOUGH];
    let k = put_answer(sheet, &mut page);
    if out.len() < k {
        return Err(Refusal::Room);
    }
    Ok(put(&page[..k], out))
}

// The program's whole work: of an input its first n bytes stand at the front of the buffer, all of them or as many as it holds; the
// printed answer of that input goes to the front of the room, and its length is told. No room is too small and no input too long, so
// nothing is refused here. The promise rules out a buffer that cannot tell an input that is too long from one that just is not, a
// room that some answer does not fit, and all that `print_answer` rules out. Buffer and count stay two: the promise speaks of the byte more
// than a sheet can have (`InputPromise`), which a slice of n bytes would hide.
pub fn print_input(input: &[u8; INPUT], n: usize, room: &mut [u8; ENOUGH]) -> usize
    ensures { InputPromise input.now n room.old room.new result }
{
    let end = n.min(INPUT);
    put_answer(&input[..end], room)
}
