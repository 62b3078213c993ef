ghost use Rattle.std.specs.Prelude.{◌*◌, ◌≤◌, length};
ghost use Rattle.sheet.specs.Labels.{width};

use sheet::WIDTH;

// A buffer of n labels, in places of 8 bytes each. Rules out a buffer that has not all n places.
#[derive(Clone, Copy)]
pub struct LabelBuffer<'a> {
    pub bytes: &'a [u8],
    pub n: usize,
    pub ghost long: { width * n ≤ length bytes.now },
}

impl LabelBuffer<'_> {
    ghost use Rattle.std.specs.Prelude.{◌≡◌, ◌<◌};
    ghost use Rattle.sheet.specs.Labels.{slot};

    // The 8 bytes of label k. Rules out those of another place.
    pub fn slot(&self, k: usize) -> &[u8]
        requires { k < self.now.n }
        ensures { result.now ≡ slot self.now.bytes.now k }
    {
        &self.bytes[WIDTH * k..][..WIDTH]
    }
}
