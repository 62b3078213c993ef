ghost use Rattle.orders.specs.Held.{Long};

use orders::ROWS;

// The rows' additions, and the heads that the columns have while they rise with them.
#[derive(Drop)]
pub struct Raised {
    pub additions: [u32; ROWS],
    pub heads: [i32; ROWS],
    pub ghost long: { Long additions × Long heads },
}
