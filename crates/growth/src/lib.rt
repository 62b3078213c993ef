#![tactic(auto)]

ghost use Rattle.orders.specs.Places.{UnderCeiling};
ghost use Rattle.orders.specs.Held.{Startable};
ghost use Rattle.growth.specs.Growing.{FirstOf};
ghost use Rattle.growth.specs.Grown.{GrownFrom};

use gaps::Raised;
use orders::{Marked, ROWS, Table};
use sapling::Sapling;

mod sapling;

// The least canon from a start: additions, and the marks of a complete transversal of column maxima.
#[derive(Drop)]
pub struct Grown {
    pub additions: [u32; ROWS],
    pub marks: Marked,
}

// The heads of all columns under the start; None where a column has no order. Rules out a head that no order reaches or that one
// exceeds, and None where every column has an order.
fn first_heads(table: &Table<'_>, start: &[u32; ROWS]) -> Option<[i32; ROWS]>
    requires { UnderCeiling table.now.n start.now }
    ensures { FirstOf table.now.entries.now table.now.n start.now result }
{
    let mut heads = [0; ROWS];
    for j in 0..table.n {
        let top = table.head(start, j);
        if top.row == 0 {
            return None;
        }
        let head = top.head;
        heads[j] = head;
    }
    Some(heads)
}

// The least canon from a start, with a complete transversal of column maxima; None where there is no complete transversal. Rules out
// additions that are no canon, a canon that is not the least, and an answer either way that is not so. That the start is one of this
// table's (`Startable`) stays a clause, as in canon and raising: a type of both would be made for one call each time.
pub fn grow(table: &Table<'_>, start: [u32; ROWS]) -> Option<Grown>
    requires { Startable table.now.entries.now table.now.n start }
    ensures { GrownFrom table.now.entries.now table.now.n start result }
{
    let heads = first_heads(table, &start)?;
    let mut sapling = Sapling {
        raised: Raised {
            additions: start,
            heads,
        },
        marks: Marked {
            rows: [ROWS; ROWS],
            columns: [ROWS; ROWS],
        },
    };
    sapling.insert_all(table)?;
    Some(Grown {
        additions: sapling.raised.additions,
        marks: sapling.marks,
    })
}
