#![tactic(auto)]

ghost use Rattle.std.specs.Prelude.{◌≤◌};
ghost use Rattle.theory.specs.Lists.{nums};
ghost use Rattle.orders.specs.Places.{ceiling};
ghost use Rattle.orders.specs.Held.{LeastBy};
ghost use Rattle.lowering.specs.Descent.{Pull, CanonGiven};

mod rows;

use orders::{ROWS, Table, excess, raise};
use rows::Rows;

// The least addition at which an order is not exceeded by another of its column, raised. Rules out an addition that leaves the
// order exceeded, and a larger one than is needed.
fn pull(other: i16, addition: u32, order: i16) -> u32
    requires { addition ≤ ceiling }
    ensures { Pull other addition order result }
{
    let raised = raise(other, addition);
    if raised <= i32::from(order) {
        return 0;
    }
    excess(raised, order)
}

// From a canon down to the least canon above the floors. Rules out additions that are no canon, that pass a floor, or that a
// smaller canon above the floors has beside them.
pub fn lower(
    table: &Table<'_>,
    columns: &[usize; ROWS],
    canon: [u32; ROWS],
    floors: [u32; ROWS],
) -> [u32; ROWS]
    requires { CanonGiven table.now.entries.now table.now.n columns.now canon floors }
    ensures { LeastBy table.now.entries.now table.now.n (nums floors) result columns.now }
{
    let mut rows = Rows {
        additions: canon,
        floors,
        settled: [false; ROWS],
    };
    while let Some((k, d)) = rows.least_slack(table.n) {
        rows.fall(table.n, d);
        rows.settle(table, columns, k);
    }
    rows.additions
}
