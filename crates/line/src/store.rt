// The values of all keys.
ghost use Rattle.std.specs.Prelude.{◌≡◌, vec_len};

mod apply;

// One value for each of the 65,536 keys.
#[derive(Drop)]
pub struct Store {
    values: Vec<u32>,
    ghost all: { vec_len values ≡ 65536 },
}
