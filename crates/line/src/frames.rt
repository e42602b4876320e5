// The orders in the bytes of a log, one after the other.
ghost use Rattle.std.specs.Prelude.{◌≡◌, ◌+◌, [], ◌∷◌, length, drop, MatchOption};
ghost use Rattle.std.specs.Iterator.{item_count};
ghost use Rattle.line.specs.Frames.{frames};
ghost use Rattle.line.specs.Laws.{FramesAll, FramesOnly, CutsAnywhere};

// An iterator over lent bytes; it hands on each order as a part of them.
#[derive(Drop)]
pub struct Frames<'a> {
    rest: &'a [u8],
}

impl<'a> Frames<'a> {
    // What it finds are the orders that were framed, all of them and no others, and wherever the bytes are cut, a first part of them.
    #[tactic(auto, using(crate::proofs::Framing::frames_all, crate::proofs::Framing::frames_only, crate::proofs::Framing::cuts_anywhere))]
    pub fn new(bytes: &'a [u8]) -> Frames<'a>
        ensures is { result.rest.now ≡ bytes.now }
        ensures all { FramesAll }
        ensures only { FramesOnly }
        ensures cuts { CutsAnywhere }
    {
        Frames { rest: bytes }
    }

    // What was not handed on: at the end, the tail that a stop cut.
    pub fn rest(&self) -> &'a [u8]
        ensures { result.now ≡ self.now.rest.now }
    {
        let Frames { rest } = self;
        *rest
    }
}

impl<'a> Iterator for Frames<'a> {
    type Item = &'a [u8];

    // The next order's bytes; none where no whole order follows, and then nothing changes.
    ghost next_gives = { λ s r t. MatchOption r ((frames s.rest.now ≡ []) × (t.rest.now ≡ s.rest.now)) (λ o. (frames s.rest.now ≡ o.now ∷ frames t.rest.now) × (t.rest.now ≡ drop (length o.now + 2) s.rest.now)) };

    ghost remaining = { item_count (λ s. frames s.rest.now) };

    fn next(&mut self) -> Option<&'a [u8]> {
        let [high, low, rest @ ..] = self.rest else {
            return None;
        };
        let len = usize::from(u16::from_be_bytes([*high, *low]));
        if rest.len() < len {
            return None;
        }
        let (order, rest) = rest.split_at(len);
        self.rest = rest;
        Some(order)
    }
}
