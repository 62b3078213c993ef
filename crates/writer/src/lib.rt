#![tactic(auto)]

ghost use Rattle.std.specs.Prelude.{◌≡◌, ◌≤◌, length};
ghost use Rattle.orders.specs.Refusals.{says};
ghost use Rattle.lettering.specs.Putting.{Puts};
ghost use Rattle.writer.specs.Parts.{label_section, order_section, text_of};
ghost use Rattle.writer.specs.Promise.{WritePromise, model};

mod labelled;

use labelled::Labelled;
use labels::{LabelBuffer, labels_length, labels_stand, put_labels};
use lettering::{digits, put_heading};
use order_lines::{orders_length, present_count, put_orders};
use orders::{ROWS, Refusal, Table, entries_stand};
use sheet::WIDTH;

// A section of labels in the room. Rules out another count than that of the lines.
fn put_label_section(head: &[u8], labels: &LabelBuffer<'_>, out: &mut [u8]) -> usize
    requires { length (label_section head.now labels.now.n labels.now.bytes.now) ≤ length out.old }
    ensures { Puts (label_section head.now labels.now.n labels.now.bytes.now) out.old out.new result }
{
    let a = put_heading(head, labels.n, out);
    let b = put_labels(labels, &mut out[a..]);
    a + b
}

// The section of orders in the room. Rules out the same.
fn put_order_section(table: &Table<'_>, out: &mut [u8]) -> usize
    requires { length (order_section table.now.n table.now.entries.now) ≤ length out.old }
    ensures { Puts (order_section table.now.n table.now.entries.now) out.old out.new result }
{
    let a = put_heading(b"orders ", present_count(table.entries), out);
    let b = put_orders(table.n, table.entries, &mut out[a..]);
    a + b
}

// The bytes of the sheet. Rules out every other number: refusal 12 is told by it.
#[tactic(auto, using(lettering::proofs::TextLaws::number_short, orders::proofs::Places::square_small))]
fn sheet_length(sheet: &Labelled<'_>) -> usize
    ensures { result ≡ length (text_of sheet.now) }
{
    let head = digits(sheet.table.n) + 6;
    let a = head + labels_length(&sheet.rows);
    let b = head + labels_length(&sheet.cols);
    let c = digits(present_count(sheet.table.entries)) + 8 + orders_length(&sheet.table);
    a + b + c
}

// The sheet in the room: each section in the room that the sections before it left free. Rules out every other text, labels of the rows
// under `cols`, and a byte changed behind the sheet.
fn put_sheet(sheet: &Labelled<'_>, out: &mut [u8]) -> usize
    requires { length (text_of sheet.now) ≤ length out.old }
    ensures { Puts (text_of sheet.now) out.old out.new result }
{
    let mut at = put_label_section(b"rows ", &sheet.rows, out);
    at += put_label_section(b"cols ", &sheet.cols, &mut out[at..]);
    at += put_order_section(&sheet.table, &mut out[at..]);
    at
}

// Writes a sheet and tells its length; or the lowest refusal that applies, with nothing written. The promise rules out a writer that
// writes any but the one sheet of what it was handed, that writes into a room before it knows that the sheet fits, or that touches
// bytes after the sheet. The first three tests are not `tested` of handed: the label buffers have 8 bytes for each row, and are tested
// between N and the entries.
pub fn write_sheet<'a>(
    n: usize,
    table: &'a [i16],
    rows: &'a [u8],
    cols: &'a [u8],
    out: &mut [u8],
) -> Result<usize, Refusal>
    ensures { WritePromise (model n table.now rows.now cols.now) out.old out.new (says result) }
{
    if n == 0 || ROWS < n {
        return Err(Refusal::Size);
    }
    if table.len() != n * n || rows.len() != WIDTH * n || cols.len() != WIDTH * n {
        return Err(Refusal::Length);
    }
    if !entries_stand(table) {
        return Err(Refusal::Entry);
    }
    let sheet = Labelled {
        table: Table { entries: table, n },
        rows: LabelBuffer { bytes: rows, n },
        cols: LabelBuffer { bytes: cols, n },
    };
    if !labels_stand(&sheet.rows) || !labels_stand(&sheet.cols) {
        return Err(Refusal::Label);
    }
    if out.len() < sheet_length(&sheet) {
        return Err(Refusal::Room);
    }
    Ok(put_sheet(&sheet, out))
}
