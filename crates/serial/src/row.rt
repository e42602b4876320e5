// The rows that are printed. They are spelled here, since there can be 65,536 of them and `writeln!` is slow.
ghost use Rattle.std.specs.Prelude.{◌≡◌, [], ◌∷◌, ◌++◌, decimal};

use itoa::write_digits;

// A key, a space, its value and a line break, at the end of the room that is lent.
#[tactic(auto, using(crate::proofs::Rows::value_long, crate::proofs::Rows::key_long))]
pub fn spell<'a>(key: u16, value: u32, room: &'a mut [u8; 17]) -> &'a [u8]
    ensures { result.now ≡ decimal key ++ 32 ∷ (decimal value ++ 10 ∷ []) }
{
    room[16] = b'\n';
    let space = write_digits(u64::from(value), room, 16) - 1;
    room[space] = b' ';
    let start = write_digits(u64::from(key), room, space);
    &room[start..]
}
