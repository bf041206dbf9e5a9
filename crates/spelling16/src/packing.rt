// The words of a C-16 or a CE-16 ping from bytes to bytes, in the fewest: each stretch of runs as full runs and the remainder, in LSB
// order.
ghost use Rattle.std.specs.Prelude.{◌≡◌, ◌+◌, ◌*◌, ◌≤◌, length};
ghost use Rattle.samples.specs.Words.{all_words};
ghost use Rattle.samples.specs.inner.Narrow.{respelled};
ghost use Rattle.samples.specs.inner.Packing.{packed, PackedAt};

use crate::words::Narrow;

// How many the fewest words are.
pub fn count_packed(part: &[u8], msb: bool) -> usize
    requires { length part.now ≤ 262108 }
    ensures { result ≡ length (packed 256 respelled (all_words 2 msb part.now)) }
{
    spelling::packing::count::<Narrow>(part, msb)
}

// Writes them; the place behind them. Eight bytes more have to be lent: what they hold then is not said, but for what is written there
// next.
pub fn pack_words(part: &[u8], msb: bool, out: &mut [u8], to: usize) -> usize
    requires part_len_bound { length part.now ≤ 262108 }
    requires part_in_bounds { to + 2 * length (packed 256 respelled (all_words 2 msb part.now)) + 8 ≤ length out.old }
    ensures value { result ≡ to + 2 * length (packed 256 respelled (all_words 2 msb part.now)) }
    ensures packed_at { PackedAt 2 out.old to (packed 256 respelled (all_words 2 msb part.now)) out.new result }
{
    spelling::packing::pack::<Narrow>(part, msb, out, to)
}
