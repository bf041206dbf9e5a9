// The tuples of a file, one behind the other.
ghost use Rattle.std.specs.Prelude.{◌≡◌};
ghost use Rattle.frame.specs.inner.Located.{StepsTo, room_left};

use crate::{LEAST, MARKED, kind_at, length_at};

// A tuple in a file: its place, its length and its type.
#[derive(Clone, Copy)]
pub struct Located {
    pub at: usize,
    pub whole: usize,
    pub code: u16,
}

// The tuples of a file from a place on, in a byte order: as far as there is room for each that stands there. Nothing is judged, and so of
// an accepted file these are all its tuples.
#[derive(Drop)]
pub struct Tuples<'a> {
    pub file: &'a [u8],
    pub msb: bool,
    pub at: usize,
}

// The tuples of a marked file, from behind its mark.
pub fn behind_mark(file: &[u8], msb: bool) -> Tuples<'_>
    ensures from { (result.file.now ≡ file.now) × (result.at ≡ 4) }
    ensures order { result.msb ≡ msb }
{
    Tuples {
        file,
        msb,
        at: MARKED,
    }
}

impl<'a> Iterator for Tuples<'a> {
    type Item = Located;

    ghost next_gives = { StepsTo };

    ghost remaining = { room_left };

    fn next(&mut self) -> Option<Located> {
        let at = self.at;
        let left = self.file.len().checked_sub(at)?;
        if left < LEAST {
            return None;
        }
        let whole = length_at(self.file, at, self.msb);
        if left < whole {
            return None;
        }
        let code = kind_at(self.file, at, self.msb);
        self.at = at + whole;
        Some(Located { at, whole, code })
    }
}
