// A ping's samples from bytes to bytes, in LSB order: words of two bytes as they stand, angles, C-16 words as U-16 samples.
ghost use Rattle.std.specs.Prelude.{◌≡◌, false, ◌+◌, ◌*◌, ◌≤◌, length};
ghost use Rattle.std.proofs.lemmas.List.Edits.{sets};
ghost use Rattle.layout.specs.Families.{narrow, wide_angles};
ghost use Rattle.samples.specs.Words.{all_words, unwords, all_samples, unsampled};
ghost use Rattle.samples.specs.Runs.{decode, behind};

use crate::words::Narrow;

// Writes the words of a part in LSB order.
pub fn turn_words(part: &[u8], msb: bool, out: &mut [u8], to: usize)
    requires { to + length part.now ≤ length out.old }
    ensures { out.new ≡ sets out.old to (unwords 2 false (all_words 2 msb part.now)) }
{
    spelling::lsb::turn::<Narrow>(part, msb, out, to);
}

// Writes the samples of a U-32-16-angles ping in LSB order.
pub fn turn_angles(part: &[u8], msb: bool, out: &mut [u8], to: usize)
    requires { to + length part.now ≤ length out.old }
    ensures { out.new ≡ sets out.old to (unsampled wide_angles false (all_samples wide_angles msb part.now)) }
{
    let mut at = to;
    for sample in part.chunks_exact(samples::PAIR) {
        order::store4(out, at, false, order::read4(sample, 0, msb));
        order::store2(out, at + 4, false, order::read2(sample, 4, msb));
        order::store2(out, at + 6, false, order::read2(sample, 6, msb));
        at += samples::PAIR;
    }
}

// Writes the samples of a C-16 ping's words as U-16 samples in LSB order, up to where these end: a run passes its samples, a value is
// the next sample's. No number is past two bytes.
pub fn spread_words(part: &[u8], msb: bool, out: &mut [u8], to: usize, end: usize)
    requires part_len_bound { length part.now ≤ 262108 }
    requires part_bound { behind 0 (decode 256 (all_words 2 msb part.now)) ≤ 65536 }
    requires end_value { end ≡ to + length (decode 256 (all_words 2 msb part.now)) * 4 }
    requires end_in_bounds { end ≤ length out.old }
    ensures { out.new ≡ sets out.old to (unsampled narrow false (decode 256 (all_words 2 msb part.now))) }
{
    spelling::lsb::spread::<Narrow>(part, msb, out, to, end);
}
