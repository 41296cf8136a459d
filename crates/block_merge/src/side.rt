// One side of a merge.

ghost use Rattle.std.specs.Prelude.{◌≡◌, length};

// The points of a block that are left, by times and values.
#[derive(Clone, Copy)]
pub struct Points<'a> {
    pub times: &'a [i64],
    pub values: &'a [u64],
    ghost same: { length values.now ≡ length times.now },
}
