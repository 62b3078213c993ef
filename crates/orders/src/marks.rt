use super::ROWS;

// The marks of a transversal, held both ways: the row of each column and the column of each row, counted from 0.
// Both are looked up at every step, so neither is left to be searched for in the other.
#[derive(Clone, Copy)]
pub struct Marked {
    pub rows: [usize; ROWS],
    pub columns: [usize; ROWS],
}
