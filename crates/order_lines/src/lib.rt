#![tactic(auto)]

ghost use Rattle.std.specs.Prelude.{◌≡◌, ◌*◌, ◌<◌, ◌≤◌, not, length};
ghost use Rattle.sheet.specs.Text.{signed};
ghost use Rattle.sheet.specs.Sheet.{is_absent, present_count};
ghost use Rattle.lettering.specs.Putting.{Puts};
ghost use Rattle.order_lines.specs.Parts.{order_bytes, entry_bytes, order_end, value_most, line_most};

use lettering::{digits, put_count, put_value_line};
use orders::{ABSENT, Table};
use sheet::BLANK;

// Is an entry present? Rules out an order taken for an absent place.
fn present(v: i16) -> bool
    ensures { result ≡ not (is_absent v) }
{
    v != ABSENT
}

// The present places of a table. Rules out an absent place counted. A loop is compiled to wide instructions; with a filter that is counted
// writing a sheet takes 1.1 of the instructions.
pub fn present_count(table: &[i16]) -> usize
    ensures { result ≡ present_count table.now }
{
    let mut count: usize = 0;
    for v in table {
        count += usize::from(present(*v));
    }
    count
}

// The bytes of an order. Rules out every other number.
fn value_length(v: i16) -> usize
    ensures { (result ≡ length (signed v)) × (result ≤ value_most) }
{
    usize::from(v < 0) + digits(usize::from(v.unsigned_abs()))
}

// The bytes of the line of place p. Rules out every other number.
fn order_length(n: usize, p: usize, v: i16) -> usize
    requires { p < n * n }
    ensures { (result ≡ length (entry_bytes n p v)) × (result ≤ line_most) }
{
    if !present(v) {
        return 0;
    }
    digits(p / n + 1) + digits(p % n + 1) + value_length(v) + 3
}

// The column and the order of a line. Rules out a column counted from 0.
fn put_order_end(n: usize, p: usize, v: i16, out: &mut [u8]) -> usize
    requires { (1 ≤ n) × (length (order_end n p v) ≤ length out.old) }
    ensures { Puts (order_end n p v) out.old out.new result }
{
    let a = put_count(p % n + 1, BLANK, out);
    let b = put_value_line(i32::from(v), &mut out[a..]);
    a + b
}

// The line of place p in the room; none where the place is absent. Rules out a row counted from 0, and a line for an absent
// place.
fn put_order(n: usize, p: usize, v: i16, out: &mut [u8]) -> usize
    requires { (p < n * n) × (length (entry_bytes n p v) ≤ length out.old) }
    ensures { Puts (entry_bytes n p v) out.old out.new result }
{
    if !present(v) {
        return 0;
    }
    let a = put_count(p / n + 1, BLANK, out);
    let b = put_order_end(n, p, v, &mut out[a..]);
    a + b
}

// The bytes of the order lines. Rules out every other number.
pub fn orders_length(table: &Table<'_>) -> usize
    ensures { (result ≡ length (order_bytes table.now.n 0 table.now.entries.now)) × (result ≤ line_most * length table.now.entries.now) }
{
    let mut sum: usize = 0;
    for (p, v) in table.entries.iter().enumerate() {
        sum += order_length(table.n, p, *v);
    }
    sum
}

// The order lines in the room, row before column. Rules out a present place left out, and lines in another order. It is handed n and the
// entries: what it asks of its caller may not grow, and a `Table` has the limit on n besides.
pub fn put_orders(n: usize, table: &[i16], out: &mut [u8]) -> usize
    requires { (length table.now ≡ n * n) × (length (order_bytes n 0 table.now) ≤ length out.old) }
    ensures { Puts (order_bytes n 0 table.now) out.old out.new result }
{
    let mut at: usize = 0;
    for (p, v) in table.iter().enumerate() {
        at += put_order(n, p, *v, &mut out[at..]);
    }
    at
}
