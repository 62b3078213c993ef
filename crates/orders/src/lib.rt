#![tactic(auto)]

ghost use Rattle.std.specs.Prelude.{◌≡◌, ◌*◌, ◌≤◌, ◌<◌, pos, ◌+ℤ◌, ◌≤ℤ◌};
ghost use Rattle.theory.specs.Table.{Present, Order, Entries};
ghost use Rattle.theory.specs.Limits.{row_limit, order_limit};
ghost use Rattle.orders.specs.Refusals.{number_of};
ghost use Rattle.orders.specs.Tested.{Tells};
ghost use Rattle.orders.specs.Places.{ceiling, Square, UnderCeiling, TopOf, TopsOf, Higher, Lowest, Counted};
ghost use Rattle.theory.specs.Table.{entry};

mod marks;
mod table;

pub use marks::Marked;
pub use table::{Table, Top};

// Document 01's limits.
pub const ROWS: usize = 32;

pub const PLACES: usize = ROWS * ROWS;

pub const ABSENT: i16 = -32768;

pub const ORDER: i16 = 100;

pub const HANDED: u32 = 10000;

pub const SHEET: usize = 12288;

// The refusals of document 01, in the order of their numbers.
#[derive(Clone, Copy, Debug, PartialEq, Eq)]
pub enum Refusal {
    Size,
    Length,
    Entry,
    Addition,
    StarList,
    NoTransversal,
    NoCanon,
    NotGreatest,
    TooLong,
    Line(usize),
    Label,
    Room,
}

impl Refusal {
    // Document 01's number of a refusal, under document 01's word: `u32::from(refusal)` would not say which number. `as` does not
    // give it, since one refusal carries its line. Rules out every other number.
    pub fn number(self) -> u32
        ensures { result ≡ number_of self }
    {
        match self {
            Refusal::Size => 1,
            Refusal::Length => 2,
            Refusal::Entry => 3,
            Refusal::Addition => 4,
            Refusal::StarList => 5,
            Refusal::NoTransversal => 6,
            Refusal::NoCanon => 7,
            Refusal::NotGreatest => 8,
            Refusal::TooLong => 9,
            Refusal::Line(_) => 10,
            Refusal::Label => 11,
            Refusal::Room => 12,
        }
    }
}

// Is an entry absent, or an order within the limit? Rules out 101 and −101 let through, and an absent place turned away.
pub fn entry_stands(v: i16) -> bool
    ensures { Tells result (Present v → Order order_limit v) }
{
    if v == ABSENT {
        return true;
    }
    if v < -ORDER {
        return false;
    }
    v <= ORDER
}

// Are all entries of a table absent, or orders within the limit? Every entry is tested, also after one that does not stand: a loop
// with one end is compiled to tests of several entries at once. Rules out an entry passed over.
pub fn entries_stand(table: &[i16]) -> bool
    ensures { Tells result (Entries order_limit table.now) }
{
    let mut all = true;
    for v in table {
        all = all & entry_stands(*v);
    }
    all
}

// An order raised by an addition. Rules out every other number. That an addition is under the ceiling stays a clause, here and below: a
// type around one number would have to stand in every array of additions, which the public calls lend as they are.
pub fn raise(order: i16, addition: u32) -> i32
    requires { addition ≤ ceiling }
    ensures { result ≡ order +ℤ pos addition }
{
    i32::from(order) + addition as i32
}

// How far a height is above an order that does not pass it. Rules out every other number.
pub fn excess(height: i32, order: i16) -> u32
    requires { (order ≤ℤ height) × (height ≤ℤ pos (2 * ceiling)) }
    ensures { order +ℤ pos result ≡ height }
{
    (height - i32::from(order)) as u32
}

// Is an order present and, raised, the head given? Rules out an absent place taken for an order, and another head.
pub fn tight(order: i16, addition: u32, head: i32) -> bool
    requires { addition ≤ ceiling }
    ensures { Tells result (Present order × (order +ℤ pos addition ≡ head)) }
{
    if order == ABSENT {
        return false;
    }
    raise(order, addition) == head
}

// The larger of a height and one more order of the column, raised; an absent place is passed over. Rules out the smaller of the two,
// an absent place taken for an order, and a height of no row.
fn higher(height: i32, order: i16, addition: u32) -> i32
    requires { addition ≤ ceiling }
    ensures { Higher order addition height result }
{
    if order == ABSENT {
        return height;
    }
    let raised = raise(order, addition);
    if raised <= height {
        return height;
    }
    raised
}

// The lowest row that holds the height, once row i is taken in. Rules out a later row where the height stays, and an earlier one where
// it grows.
fn lowest(row: usize, height: i32, next: i32, i: usize) -> usize
    ensures { Lowest row height next i result }
{
    if next <= height {
        return row;
    }
    i
}

// How many rows hold the height, once one more entry of the column is taken in. Rules out an absent place counted, a tie left out, and
// a count that goes on where the height grows.
fn counted(count: u32, height: i32, entry: i16, addition: u32) -> u32
    requires { (count < row_limit) × (addition ≤ ceiling) }
    ensures { Counted entry addition height count result }
{
    if entry == ABSENT {
        return count;
    }
    let raised = raise(entry, addition);
    if raised < height {
        return count;
    }
    if raised == height {
        return count + 1;
    }
    1
}
