#![tactic(auto)]

ghost use Rattle.std.specs.Prelude.{pos, ◌+ℤ◌};
ghost use Rattle.theory.specs.Limits.{order_limit};
ghost use Rattle.theory.specs.Lists.{nums};
ghost use Rattle.theory.specs.Table.{entry};
ghost use Rattle.theory.specs.Canon.{Transversal, Head};
ghost use Rattle.orders.specs.Held.{Startable};
ghost use Rattle.raising.specs.Climbed.{Climbed};
ghost use Rattle.raising.specs.Rounds.{Round, Wanting, Rounding};

use orders::{ROWS, Table, excess};

// The addition that raises row i's order in a column to the column's head. Rules out one that leaves the order below another, and
// one that lifts it above all.
fn wanted(table: &Table<'_>, additions: &[u32; ROWS], column: usize, i: usize) -> u32
    requires { Wanting table.now.entries.now table.now.n additions.now column i }
    ensures { Head
        table.now.n
        (entry table.now.entries.now table.now.n)
        (nums additions.now)
        column
        (entry table.now.entries.now table.now.n i column +ℤ pos result) }
{
    let own = table.place(i, column);
    let top = table.head(additions, column);
    excess(top.head, own)
}

// One round: each row in turn is raised to the head of the column of its starred order, with the rows before it as they now are;
// whether nothing was changed. Rules out a row lowered, a row left out, a row raised above a canon's addition, and a round that
// changed something taken for one that changed nothing.
fn round(table: &Table<'_>, columns: &[usize; ROWS], additions: &mut [u32; ROWS]) -> bool
    requires { Rounding table.now.entries.now table.now.n columns.now additions.old }
    ensures { Round
        order_limit
        table.now.n
        (entry table.now.entries.now table.now.n)
        (nums columns.now)
        (nums additions.old)
        table.now.n
        result
        (nums additions.new) }
{
    let mut ended = true;
    for i in 0..table.n {
        let addition = wanted(table, additions, columns[i], i);
        if additions[i] < addition {
            additions[i] = addition;
            ended = false;
        }
    }
    ended
}

// The least canon from a start, from the columns of a transversal of greatest sum: from the start, rounds until one changes nothing, at
// most n (and one where there is no row); none where the last has changed something. Rules out additions that are no canon's or not the
// least, stars that are no column maxima taken for such, and a greatest sum denied.
pub fn climb(table: &Table<'_>, columns: &[usize; ROWS], start: [u32; ROWS]) -> Option<[u32; ROWS]>
    requires { Startable table.now.entries.now table.now.n start × Transversal
        table.now.n
        (entry table.now.entries.now table.now.n)
        (nums columns.now) }
    ensures { Climbed table.now.entries.now table.now.n start columns.now result }
{
    let mut additions = start;
    for _rounds in 1..table.n {
        if round(table, columns, &mut additions) {
            return Some(additions);
        }
    }
    round(table, columns, &mut additions).then_some(additions)
}
