ghost use Rattle.std.specs.Prelude.{◌≡◌};

use labels::LabelBuffer;
use orders::Table;

// A table with the labels of its rows and of its columns. Rules out another count of labels than that of the rows.
#[derive(Clone, Copy)]
pub struct Labelled<'a> {
    pub table: Table<'a>,
    pub rows: LabelBuffer<'a>,
    pub cols: LabelBuffer<'a>,
    pub ghost same_rows: { rows.n ≡ table.n },
    pub ghost same_cols: { cols.n ≡ table.n },
}
