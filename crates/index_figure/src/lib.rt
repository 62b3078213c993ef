#![tactic(auto)]

ghost use Rattle.std.specs.Prelude.{◌≤◌, length};
ghost use Rattle.theory.specs.Table.{Negative};
ghost use Rattle.orders.specs.Tested.{Tells};
ghost use Rattle.index_figure.specs.Parts.{Largest, NegativeIn, ZeroIn, Beyond, HeadsKnown, IndexOf};

use orders::ABSENT;

// The largest of some additions. Rules out a number that is no addition, and one that an addition exceeds.
fn largest(adds: &[u32]) -> u32
    requires { 1 ≤ length adds.now }
    ensures { Largest adds.now result }
{
    adds.iter().copied().max().unwrap()
}

// Is an entry a negative order? Rules out an absent place, or 0, taken for one.
fn negative(v: i16) -> bool
    ensures { Tells result (Negative v) }
{
    v != ABSENT && v < 0
}

// Has a table a negative order? Every entry is tested, with one end, as in `orders::entries_stand`: with `any`, which stops at the first,
// printing a table without negative orders takes more instructions. Rules out an entry passed over.
fn some_negative(table: &[i16]) -> bool
    ensures { Tells result (NegativeIn table.now) }
{
    let mut some = false;
    for v in table {
        some = some | negative(*v);
    }
    some
}

// Is some head 0? Rules out another number than 0, and a head passed over.
fn some_zero(heads: &[i32]) -> bool
    ensures { Tells result (ZeroIn heads.now) }
{
    heads.contains(&0)
}

// What the index figure has beyond the largest addition. Rules out 1 where no head is 0 or an order is negative, and 0 elsewhere.
fn beyond_largest(table: &[i16], heads: &[i32]) -> u32
    ensures { Beyond table.now heads.now result }
{
    if some_negative(table) {
        return 0;
    }
    if some_zero(heads) {
        return 1;
    }
    0
}

// The index figure of a table under additions, whose heads are handed in: Pryce's structural index, or the largest addition where an
// order is negative. Rules out every other number.
pub fn index(table: &[i16], adds: &[u32], heads: &[i32]) -> u32
    requires { HeadsKnown table.now adds.now heads.now }
    ensures { IndexOf table.now adds.now result }
{
    largest(adds) + beyond_largest(table, heads)
}
