#![tactic(auto)]

ghost use Rattle.routes.specs.Routes.{GivenAdditions, ReducedFrom, GivenColumns, RaisedFrom};

use growth::grow;
use handed::{all_present, held};
use lowering::lower;
use orders::{Marked, ROWS, Refusal, Table};
use raising::climb;

// What comes of additions that are a canon: the simplest canon with the marks of its transversal, and whether the additions are it.
#[derive(Clone, Copy)]
pub struct Reduced {
    pub unchanged: bool,
    pub additions: [u32; ROWS],
    pub marks: Marked,
}

// From additions: they are a canon if growing from them changes nothing, and are then lowered. Rules out another verdict on the
// additions, and additions that are not the simplest canon where they are a canon.
pub fn from_additions(table: &Table<'_>, given: &[u32]) -> Result<Reduced, Refusal>
    requires { GivenAdditions table.now.entries.now table.now.n given.now }
    ensures { ReducedFrom table.now.entries.now table.now.n given.now result }
{
    let Some(grown) = grow(table, held(given)) else {
        return Err(Refusal::NoTransversal);
    };
    if &grown.additions[..table.n] != given {
        return Err(Refusal::NoCanon);
    }
    let least = lower(table, &grown.marks.columns, grown.additions, [0; ROWS]);
    Ok(Reduced {
        unchanged: &least[..table.n] == given,
        additions: least,
        marks: grown.marks,
    })
}

// From the columns of a transversal: the rounds of route 3, and where they do not end, growth from zeros tells why. Rules out
// another verdict on the sum, and additions that are not the simplest canon where it is the greatest.
pub fn from_columns(table: &Table<'_>, columns: &[usize; ROWS]) -> Result<[u32; ROWS], Refusal>
    requires { GivenColumns table.now.entries.now table.now.n columns.now }
    ensures { RaisedFrom table.now.entries.now table.now.n columns.now result }
{
    if all_present(table, columns)
        && let Some(additions) = climb(table, columns, [0; ROWS])
    {
        return Ok(additions);
    }
    grow(table, [0; ROWS]).ok_or(Refusal::NoTransversal)?;
    Err(Refusal::NotGreatest)
}
