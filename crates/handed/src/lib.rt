#![tactic(auto)]

ghost use Rattle.std.specs.Prelude.{◌≡◌, ℕ, ◌≤◌, ◌<◌, length};
ghost use Rattle.theory.specs.Limits.{row_limit};
ghost use Rattle.theory.specs.Lists.{nums};
ghost use Rattle.theory.specs.Table.{Present, entry};
ghost use Rattle.orders.specs.Tested.{Tells};
ghost use Rattle.handed.specs.Handed.{Basic, WithinAs, ListedAs};

use orders::{ABSENT, HANDED, Marked, ROWS, Refusal, Table, entries_stand};

// The first of the refusals 1, 2 and 3 that applies, if one does: the size, the table's length and the lengths that are to be n, the
// entries. Rules out a later refusal where an earlier one applies, a length passed over, and a refusal where none applies.
pub fn tested(n: usize, table: &[i16], lengths: &[usize]) -> Result<(), Refusal>
    ensures { Basic n table.now lengths.now result }
{
    if n == 0 || ROWS < n {
        return Err(Refusal::Size);
    }
    if table.len() != n * n || !lengths.iter().all(|length| *length == n) {
        return Err(Refusal::Length);
    }
    if !entries_stand(table) {
        return Err(Refusal::Entry);
    }
    Ok(())
}

// Are all additions handed in within the limit? Rules out 10,001 let through and 10,000 turned away.
pub fn additions_stand(given: &[u32]) -> bool
    ensures { WithinAs given.now result }
{
    given.iter().all(|addition| *addition <= HANDED)
}

// The numbers of a lent slice, held by value. Rules out another number in any place.
pub fn held(given: &[u32]) -> [u32; ROWS]
    requires { length given.now ≤ row_limit }
    ensures { (i : ℕ) → i < length given.now → nums result i ≡ nums given.now i }
{
    let mut kept = [0; ROWS];
    kept[..given.len()].copy_from_slice(given);
    kept
}

// Is the place of each row in its column present? Rules out an absent place overlooked.
pub fn all_present(table: &Table<'_>, columns: &[usize; ROWS]) -> bool
    requires { (i : ℕ) → i < table.now.n → nums columns.now i < table.now.n }
    ensures { Tells
        result
        ((i : ℕ) → i < table.now.n → Present (entry table.now.entries.now table.now.n i (nums columns.now i))) }
{
    (0..table.n).all(|i| table.place(i, columns[i]) != ABSENT)
}

// The marks of a list of stars, which is to have each number from 1 to n once. Rules out a number outside 1 to n or given twice
// that passes, and marks that are not the list's. It takes n alone, and no `Table`: nothing else of the table is read.
pub fn listed_marks(n: usize, given: &[u32]) -> Option<Marked>
    requires { (n ≤ row_limit) × (length given.now ≡ n) }
    ensures { ListedAs n given.now result }
{
    let mut rows = [0; ROWS];
    let mut columns = [0; ROWS];
    let mut taken = [false; ROWS];
    for (i, star) in given.iter().enumerate() {
        let star = *star as usize;
        if star == 0 || n < star || taken[star - 1] {
            return None;
        }
        taken[star - 1] = true;
        rows[star - 1] = i;
        columns[i] = star - 1;
    }
    Some(Marked { rows, columns })
}
