#![tactic(auto)]

ghost use Rattle.std.specs.Prelude.{◌≤◌, List, ℕ, length};
ghost use Rattle.orders.specs.Refusals.{gives, refusal};
ghost use Rattle.sheet.specs.Text.{ended, signed, text};
ghost use Rattle.lettering.specs.Putting.{Puts};
ghost use Rattle.page.specs.Printed.{printed};
ghost use Rattle.page.specs.Parts.{figures_of, lines, section};

use lettering::{put_count, put_heading, put_value_line};
use orders::Refusal;
use sheet::FEED;

// A number that is printed, with a sign or without.
trait Figure: Copy {
    ghost shown: { Self → List ℕ };

    // The number and a line feed. Rules out another text, and a byte changed behind it.
    fn put_line(self, out: &mut [u8]) -> usize
        requires { length (ended (shown self)) ≤ length out.old }
        ensures { Puts (ended (shown self)) out.old out.new result };
}

impl Figure for u32 {
    ghost shown = { text };

    fn put_line(self, out: &mut [u8]) -> usize {
        put_count(self as usize, FEED, out)
    }
}

impl Figure for i32 {
    ghost shown = { signed };

    fn put_line(self, out: &mut [u8]) -> usize {
        put_value_line(self, out)
    }
}

// The figures of a table: additions, starred columns, heads and ties, the sum and the index figure.
#[derive(Clone, Copy)]
pub struct Figures<'a> {
    pub adds: &'a [u32],
    pub stars: &'a [u32],
    pub heads: &'a [i32],
    pub ties: &'a [u32],
    pub sum: i32,
    pub index: u32,
}

// Numbers, one a line, each in the room that those before it left. Rules out a number left out, two on a line, and a byte changed
// behind them.
#[tactic(auto, using(crate::proofs::Joining::line_room))]
fn put_lines<T: Figure>(values: &[T], out: &mut [u8]) -> usize
    requires { length (lines T.shown values.now) ≤ length out.old }
    ensures { Puts (lines T.shown values.now) out.old out.new result }
{
    let mut at: usize = 0;
    for value in values {
        at += value.put_line(&mut out[at..]);
    }
    at
}

// A section of numbers. Rules out another count than that of the lines.
fn put_section<T: Figure>(head: &[u8], values: &[T], out: &mut [u8]) -> usize
    requires { length (section T.shown head.now values.now) ≤ length out.old }
    ensures { Puts (section T.shown head.now values.now) out.old out.new result }
{
    let a = put_heading(head, values.len(), out);
    let b = put_lines(values, &mut out[a..]);
    a + b
}

// The figures of a table, section after section, each in the room that those before it left. Rules out a section left out, sections in
// another order, and one list under another's name.
pub fn put_figures(figures: &Figures<'_>, page: &mut [u8]) -> usize
    requires { length (printed (gives (figures_of figures.now))) ≤ length page.old }
    ensures { Puts (printed (gives (figures_of figures.now))) page.old page.new result }
{
    let mut at = put_section(b"adds ", figures.adds, page);
    at += put_section(b"stars ", figures.stars, &mut page[at..]);
    at += put_section(b"heads ", figures.heads, &mut page[at..]);
    at += put_section(b"ties ", figures.ties, &mut page[at..]);
    at += put_section(b"sum ", &[figures.sum], &mut page[at..]);
    at += put_section(b"index ", &[figures.index], &mut page[at..]);
    at
}

// A refusal. Rules out a wrong line without its number, and a line number behind another refusal.
pub fn put_refusal(r: Refusal, page: &mut [u8]) -> usize
    requires { length (printed (refusal r)) ≤ length page.old }
    ensures { Puts (printed (refusal r)) page.old page.new result }
{
    match r {
        Refusal::Line(line) => put_heading(b"refused 10 ", line, page),
        _ => put_heading(b"refused ", r.number() as usize, page),
    }
}
