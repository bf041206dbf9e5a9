// The tuples of a part of a file, one behind the other, as far as the rules of the frame judge them sound.
ghost use Rattle.std.specs.Prelude.{◌≡◌};
ghost use Rattle.edits.specs.inner.Judged.{Within, StepsTo, left_over};

use crate::is_tuple;
use frame::passing::Located;

// The tuples of a part from a place on, in a byte order.
#[derive(Drop)]
pub struct Judged<'a> {
    pub part: &'a [u8],
    pub msb: bool,
    pub at: usize,
}

// The tuples of a part, from its front.
pub fn tuples(part: &[u8], msb: bool) -> Judged<'_>
    ensures from { (result.part.now ≡ part.now) × (result.at ≡ 0) }
    ensures order { result.msb ≡ msb }
{
    tuples_from(part, 0, msb)
}

// Those from a place on.
pub fn tuples_from(part: &[u8], at: usize, msb: bool) -> Judged<'_>
    ensures from { (result.part.now ≡ part.now) × (result.at ≡ at) }
    ensures order { result.msb ≡ msb }
{
    Judged { part, msb, at }
}

impl<'a> Iterator for Judged<'a> {
    type Item = Located;

    ghost can_next = { Within };

    ghost next_gives = { StepsTo };

    ghost remaining = { left_over };

    fn next(&mut self) -> Option<Located> {
        let at = self.at;
        if !is_tuple(self.part, at, self.msb) {
            return None;
        }
        let whole = frame::length_at(self.part, at, self.msb);
        let code = frame::kind_at(self.part, at, self.msb);
        self.at = at + whole;
        Some(Located { at, whole, code })
    }
}
