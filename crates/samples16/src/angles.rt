// Angles: the samples of U-32-16-angles and U-16-angles pings, each a number and two angles of two bytes. Those of U-16-angles pings are
// judged like a U-16 ping's.
ghost use Rattle.std.specs.Prelude.{◌≡◌, ◌-◌, ◌≤◌, ◌⊎◌, length, take};
ghost use Rattle.std.proofs.lemmas.List.Edits.{sets};
ghost use Rattle.layout.specs.Views.{as_verdict};
ghost use Rattle.order.specs.Order.{num_of};
ghost use Rattle.layout.specs.Families.{wide_angles, narrow_angles};
ghost use Rattle.samples.specs.Words.{all_samples};
ghost use Rattle.samples.specs.Lists.{numbers_of, alongship_of, athwartship_of};
ghost use Rattle.samples.specs.inner.Narrow.{AngleRoom};
ghost use Rattle.samples.specs.Judging.{judged_samples};
ghost use Rattle.samples16.specs.inner.Sizes.{angles_of};

use crate::{TRIPLE, WORD};
use layout::Verdict;
use samples::PAIR;

// What the rules say of the samples of a U-32-16-angles ping: its numbers stand where a U-32 ping's do.
pub fn judge_wide(part: &[u8], msb: bool) -> Verdict
    requires { length part.now ≤ 262112 }
    ensures { as_verdict result ≡ judged_samples wide_angles msb part.now }
{
    samples::judge_pairs(part, msb)
}

// The number of a sample: all but its last four bytes.
fn number_in<const N: usize>(sample: &[u8; N], msb: bool) -> u32
    requires { (N ≡ 8) ⊎ (N ≡ 6) }
    ensures { result ≡ num_of msb (take (N - 4) sample.now) }
{
    if N == PAIR {
        return order::read4(sample, 0, msb);
    }
    u32::from(order::read2(sample, 0, msb))
}

// Hands over samples of so many bytes, one at a time: numbers, and the angles alongship and athwartship behind them.
fn read<const N: usize>(
    part: &[u8],
    msb: bool,
    numbers: &mut [u32],
    alongship: &mut [i16],
    athwartship: &mut [i16],
)
    requires size { (N ≡ 8) ⊎ (N ≡ 6) }
    requires room { AngleRoom (all_samples (angles_of N) msb part.now) numbers.old alongship.old athwartship.old }
    ensures numbers_after { numbers.new ≡ sets numbers.old 0 (numbers_of (all_samples (angles_of N) msb part.now)) }
    ensures alongship_after { alongship.new ≡ sets alongship.old 0 (alongship_of (all_samples (angles_of N) msb part.now)) }
    ensures athwartship_after { athwartship.new ≡ sets athwartship.old 0 (athwartship_of (all_samples (angles_of N) msb part.now)) }
{
    let (samples, _) = part.as_chunks::<N>();
    for (i, sample) in samples.iter().enumerate() {
        numbers[i] = number_in(sample, msb);
        alongship[i] = order::signed2(order::read2(sample, N - 2 * WORD, msb));
        athwartship[i] = order::signed2(order::read2(sample, N - WORD, msb));
    }
}

// Hands over the samples of a U-32-16-angles ping.
pub fn read_wide(
    part: &[u8],
    msb: bool,
    numbers: &mut [u32],
    alongship: &mut [i16],
    athwartship: &mut [i16],
)
    requires { AngleRoom (all_samples wide_angles msb part.now) numbers.old alongship.old athwartship.old }
    ensures numbers_after { numbers.new ≡ sets numbers.old 0 (numbers_of (all_samples wide_angles msb part.now)) }
    ensures alongship_after { alongship.new ≡ sets alongship.old 0 (alongship_of (all_samples wide_angles msb part.now)) }
    ensures athwartship_after { athwartship.new ≡ sets athwartship.old 0 (athwartship_of (all_samples wide_angles msb part.now)) }
{
    read::<PAIR>(part, msb, numbers, alongship, athwartship);
}

// Those of a U-16-angles ping; a space behind the last sample is none.
pub fn read_narrow(
    part: &[u8],
    msb: bool,
    numbers: &mut [u32],
    alongship: &mut [i16],
    athwartship: &mut [i16],
)
    requires { AngleRoom (all_samples narrow_angles msb part.now) numbers.old alongship.old athwartship.old }
    ensures numbers_after { numbers.new ≡ sets numbers.old 0 (numbers_of (all_samples narrow_angles msb part.now)) }
    ensures alongship_after { alongship.new ≡ sets alongship.old 0 (alongship_of (all_samples narrow_angles msb part.now)) }
    ensures athwartship_after { athwartship.new ≡ sets athwartship.old 0 (athwartship_of (all_samples narrow_angles msb part.now)) }
{
    read::<TRIPLE>(part, msb, numbers, alongship, athwartship);
}
