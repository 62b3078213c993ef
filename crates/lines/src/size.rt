ghost use Rattle.std.specs.Prelude.{◌≤◌};
ghost use Rattle.theory.specs.Limits.{row_limit};

// N, the rows and the columns of a table. Rules out more rows than document 01's limit.
#[derive(Clone, Copy)]
pub struct Size {
    pub n: usize,
    pub ghost few: { n ≤ row_limit },
}
