#![tactic(auto)]

ghost use Rattle.std.specs.Prelude.{◌≡◌, ◌+◌, ◌*◌, ◌≤◌, ◌<◌, pos, ◌+ℤ◌};
ghost use Rattle.std.specs.Int.Signed.{mag};
ghost use Rattle.theory.specs.Limits.{order_limit};
ghost use Rattle.theory.specs.Table.{Present};
ghost use Rattle.orders.specs.Places.{ceiling};
ghost use Rattle.gaps.specs.Steps.{no_gap, Reckonable, Nearer, Lesser, share, Narrowed};

use orders::ABSENT;

mod raised;
mod tree;

pub use raised::Raised;
pub use tree::Tree;

// What stands for the gap of a column in which no row of the tree has an order. It stays a number among the gaps: an array of Option
// would be twice as large.
pub const NO_GAP: u32 = u32::MAX;

// How far a present raised order is below its column's head. Rules out every other number.
fn gap(order: i16, addition: u32, head: i32) -> u32
    requires { Reckonable order addition head × Present order }
    ensures { order +ℤ pos (addition + result) ≡ head }
{
    orders::excess(head, order) - addition
}

// A way into a column: its gap, and the row that gives it.
#[derive(Clone, Copy)]
pub struct Way {
    pub gap: u32,
    pub giver: usize,
}

// The nearer of a way into a column and the one from one more row. Rules out a way that no row gives, and a farther one.
fn nearer(way: Way, order: i16, addition: u32, head: i32, row: usize) -> Way
    requires { Reckonable order addition head }
    ensures { Nearer order addition head row way.gap way.giver result.gap result.giver }
{
    if order == ABSENT {
        return way;
    }
    let gap = gap(order, addition, head);
    if way.gap <= gap {
        return way;
    }
    Way { gap, giver: row }
}

// The least gap of the columns looked at, and its column.
#[derive(Clone, Copy)]
pub struct LeastGap {
    pub gap: u32,
    pub column: usize,
}

// The lesser of the least gap and that of one more column. Of two that are the same the new one is taken if its column is unmarked,
// since a tree that reaches an unmarked column has come to its end: a marked column has to be nearer, so its gap counts as one more (in
// 64 bits, since one more than NO_GAP is no u32). One comparison decides, so that it can be compiled without a branch. Rules out the
// greater of the two, and a gap with another column's number.
fn lesser(least: LeastGap, gap: u32, column: usize, unmarked: bool) -> LeastGap
    ensures { Lesser least gap column result }
{
    let more = u64::from(!unmarked);
    if u64::from(least.gap) < u64::from(gap) + more {
        return least;
    }
    LeastGap { gap, column }
}

// What a row or a column gets of a rise: all of it in the tree, else nothing. Rules out a rise of what is outside the tree.
fn share(rise: u32, taken: bool) -> u32
    ensures { (result ≡ share rise taken) × (result ≤ rise) }
{
    if taken { rise } else { 0 }
}

// A head raised. Rules out every other head.
fn lift(head: i32, rise: u32) -> i32
    requires { (mag head ≤ ceiling + order_limit) × (rise ≤ 2 * ceiling) }
    ensures { result ≡ head +ℤ pos rise }
{
    head + rise as i32
}

// A gap narrowed, if it is one. Rules out a gap made of what is none.
fn narrowed(gap: u32, rise: u32) -> u32
    requires { gap < no_gap → rise ≤ gap }
    ensures { Narrowed rise gap result }
{
    if gap == NO_GAP { gap } else { gap - rise }
}
