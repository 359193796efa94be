ghost use Rattle.std.specs.Prelude.{◌≤◌, length};

// Up to 1048576 items in memory that is lent: a length beside it, since no heap is used.
#[derive(Drop)]
pub struct List<'a, T> {
    memory: &'a mut [T],
    len: usize,
    ghost within: { len ≤ length memory.now },
    ghost few: { len ≤ 1048576 },
}

mod methods;
