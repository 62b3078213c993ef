#![tactic(auto)]

ghost use Rattle.std.specs.Prelude.{List, ℕ, ◌+◌, ◌*◌, ◌<◌, ◌≤◌, ◌≡◌, length};
ghost use Rattle.std.proofs.Math.Seq.{paste};
ghost use Rattle.theory.specs.Limits.{row_limit};
ghost use Rattle.sheet.specs.Labels.{Labels, width};
ghost use Rattle.fields.specs.Fields.{Finds};
ghost use Rattle.lines.specs.Parts.{HeadingCount, HeadingIs, Holding, Keeps, KeepsFront, LabelKept, OrderIs, Room};

mod size;

use fields::{Front, count_after, line_end, number_field, signed_number};
use orders::{PLACES, ROWS};
use sheet::WIDTH;
pub use size::Size;

// The bytes of a label buffer.
pub const LABELS: usize = WIDTH * ROWS;

// The largest order, without its sign.
const ORDER: usize = orders::ORDER as usize;

// An order with its row and its column, counted from 0.
#[derive(Clone, Copy)]
struct Placed {
    row: usize,
    col: usize,
    order: i16,
}

// The sections of a sheet, in their order; N is known once the rows are read.
#[derive(Clone, Copy)]
pub enum Section {
    Rows,
    Cols(Size),
    Orders(Size),
}

// What the lines so far said, kept until the whole sheet is known to be good: the table, the labels of the rows and of the columns,
// and the first place that no order has reached.
#[derive(Drop)]
pub struct Kept {
    pub table: [i16; PLACES],
    pub rows: [u8; LABELS],
    pub cols: [u8; LABELS],
    pub next: usize,
}

// The order that a line says: its row, its column and the order, each handed the rest of the line. Rules out a row or a column
// outside 1 to N, and row and column exchanged.
fn order_line(size: Size, line: &[u8]) -> Option<Placed>
    ensures { Finds (OrderIs size.n line.now) result }
{
    let row = number_field(line, size.n)?;
    let line = &line[row.taken..];
    let col = number_field(line, size.n)?;
    let order = signed_number(&line[col.taken..], ORDER)?;
    Some(Placed {
        row: row.value - 1,
        col: col.value - 1,
        order,
    })
}

// The line's bytes in place k of the labels, filled up with zero bytes that stand there already. Rules out a byte of another
// label changed.
fn put_label(labels: &mut [u8; LABELS], k: usize, line: &[u8])
    requires { width * k + length line.now ≤ width * row_limit }
    ensures { labels.new ≡ paste labels.old (width * k) line.now (length line.now) }
{
    let at = WIDTH * k;
    // Tried: with copy_from_slice, which calls memcpy for each label, read_sheet takes 1.05 to 1.09 of the time.
    for i in 0..line.len() {
        labels[at + i] = line[i];
    }
}

// Keeps the line as label k, and says whether it was fit: it has the form of a label and is unlike those before it. Rules out a line
// that is not fit and passes, and a fit one that is turned away. What an unfit line leaves in the labels is not said: the walk ends.
fn keep_label(labels: &mut [u8; LABELS], k: usize, line: &[u8]) -> bool
    requires { k < row_limit }
    ensures { (ls : List (List ℕ))
        → Holding labels.old ls
        → length ls ≡ k
        → Labels ls
        → LabelKept ls line.now result labels.new }
{
    if !sheet::label_stands(line) {
        return false;
    }
    put_label(&mut *labels, k, line);
    !sheet::repeated(&*labels, k)
}

impl Section {
    // The count of the section's heading. Rules out another section's heading, and a count of columns that is not N.
    fn heading_count(self, line: &[u8]) -> Option<usize>
        ensures { Finds (HeadingCount self line.now) result }
    {
        match self {
            Section::Rows => count_after(line, b"rows ", 1, ROWS),
            Section::Cols(size) => count_after(line, b"cols ", size.n, size.n),
            Section::Orders(size) => count_after(line, b"orders ", 0, size.n * size.n),
        }
    }

    // The section's heading, found at the front of the rest of the sheet: its count, and the bytes that it takes. Rules out a heading
    // that is not a whole line, and bytes of the next line taken with it.
    pub fn heading(self, rest: &[u8]) -> Option<Front>
        ensures { Finds (HeadingIs self rest.now) result }
    {
        let end = line_end(rest)?;
        let value = self.heading_count(&rest[..end])?;
        let taken = end + 1;
        Some(Front { value, taken })
    }
}

impl Kept {
    // Keeps the line as an order, if it says one at a place that no line before has reached, and says whether it did. Rules out an
    // order at another place or of another value, and a place named twice.
    fn keep_order(&mut self, size: Size, line: &[u8]) -> bool
        ensures { (k : ℕ) → Keeps (Section.Orders size) k self.old line.now result self.new }
    {
        let Some(Placed { row, col, order }) = order_line(size, line) else {
            return false;
        };
        let at = row * size.n + col;
        if at < self.next {
            return false;
        }
        self.table[at] = order;
        self.next = at + 1;
        true
    }

    // Keeps the line as line k of a section, from 0, and says whether it was fit. Rules out a line kept in another section's place.
    fn keep_line(&mut self, section: Section, k: usize, line: &[u8]) -> bool
        requires { Room section k }
        ensures { Keeps section k self.old line.now result self.new }
    {
        match section {
            Section::Rows => keep_label(&mut self.rows, k, line),
            Section::Cols(_) => keep_label(&mut self.cols, k, line),
            Section::Orders(size) => self.keep_order(size, line),
        }
    }

    // Keeps the line at the front of the rest of the sheet as line k of a section, and says how many bytes it takes. Rules out a line
    // that is missing or unended, and bytes of the next line taken with it.
    pub fn keep(&mut self, section: Section, k: usize, rest: &[u8]) -> Option<usize>
        requires { Room section k }
        ensures { KeepsFront section k self.old rest.now result self.new }
    {
        let end = line_end(rest)?;
        if !self.keep_line(section, k, &rest[..end]) {
            return None;
        }
        Some(end + 1)
    }
}
