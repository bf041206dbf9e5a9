// The pieces of a file from a place on, one behind the other, to the file's end.
ghost use Rattle.std.specs.Prelude.{◌≡◌};
ghost use Rattle.salvage.specs.inner.Passes.{Ready};
ghost use Rattle.salvage.specs.inner.Onward.{CanGo, StepsTo, left_over};

use crate::{Piece, piece_at};

// The pieces from a place on, in a byte order, and how their tuples are judged.
#[derive(Drop)]
pub(crate) struct Pieces<'a> {
    file: &'a [u8],
    msb: bool,
    dear: bool,
    sums: &'a [u64],
    at: usize,
}

// The pieces of a marked file, where tuples can be judged, from behind its mark.
pub(crate) fn behind_mark<'a>(file: &'a [u8], msb: bool, dear: bool, sums: &'a [u64]) -> Pieces<'a>
    requires { Ready dear msb file.now sums.now }
    ensures can_go { CanGo result }
    ensures from { (result.file.now ≡ file.now) × (result.at ≡ 4) }
    ensures order { result.msb ≡ msb }
{
    Pieces {
        file,
        msb,
        dear,
        sums,
        at: frame::MARKED,
    }
}

impl<'a> Iterator for Pieces<'a> {
    type Item = Piece;

    ghost can_next = { CanGo };

    ghost next_gives = { StepsTo };

    ghost remaining = { left_over };

    fn next(&mut self) -> Option<Piece> {
        if self.at < self.file.len() {
            let piece = piece_at(self.file, self.at, self.msb, self.dear, self.sums);
            self.at = piece.to;
            return Some(piece);
        }
        None
    }
}
