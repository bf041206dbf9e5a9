// Writing the samples of a U-16 ping and of angle pings, handed over apart. The loops of `spelling` on numbers of four bytes, and the two
// on angles, are not one: a trait over the two types of numbers, its laws and its contracts would be longer than these bodies.
ghost use Rattle.std.specs.Prelude.{◌≡◌, ◌+◌, ◌*◌, ◌≤◌, length};
ghost use Rattle.std.proofs.lemmas.List.Edits.{sets};
ghost use Rattle.layout.specs.Families.{narrow, wide_angles, narrow_angles};
ghost use Rattle.samples.specs.Words.{unsampled};
ghost use Rattle.samples.specs.Lists.{paired, angled};
ghost use Rattle.samples.specs.inner.Lists.{numbered};
ghost use Rattle.samples.specs.Judging.{first_drop};

use samples16::{PAIR, TRIPLE, WORD};

// The place of the first number that is not above the one before it; as many as there are where all rise.
pub fn first_drop(numbers: &[u16]) -> usize
    ensures { result ≡ first_drop 0 (numbered numbers.now) }
{
    let mut next: u32 = 0;
    for (i, number) in numbers.iter().enumerate() {
        let number = u32::from(*number);
        if number < next {
            return i;
        }
        next = number + 1;
    }
    numbers.len()
}

// Samples, whose numbers and values are handed over apart, as a U-16 ping's.
pub fn write_pairs(numbers: &[u16], values: &[i16], msb: bool, out: &mut [u8], at: usize)
    requires values_len { length values.now ≡ length numbers.now }
    requires numbers_in_bounds { at + 4 * length numbers.now ≤ length out.old }
    ensures { out.new ≡ sets out.old at (unsampled narrow msb (paired 2 numbers.now values.now)) }
{
    let mut to = at;
    // values are indexed, not zipped, as in `spelling`
    for (i, number) in numbers.iter().enumerate() {
        order::store2(out, to, msb, *number);
        order::store2(out, to + WORD, msb, order::pattern2(values[i]));
        to += PAIR;
    }
}

// Samples, whose numbers and angles are handed over apart, as a U-32-16-angles ping's;
pub fn write_wide_angles(
    numbers: &[u32],
    alongship: &[i16],
    athwartship: &[i16],
    msb: bool,
    out: &mut [u8],
    at: usize,
)
    requires alongship_len { length alongship.now ≡ length numbers.now }
    requires athwartship_len { length athwartship.now ≡ length numbers.now }
    requires numbers_in_bounds { at + 8 * length numbers.now ≤ length out.old }
    ensures { out.new ≡ sets out.old at
        (unsampled wide_angles msb (angled numbers.now alongship.now athwartship.now)) }
{
    let mut to = at;
    // angles are indexed, not zipped: zipped, 2,000 samples with wide numbers took 58,069 instructions, so 40,107
    for (i, number) in numbers.iter().enumerate() {
        order::store4(out, to, msb, *number);
        order::store2(out, to + 2 * WORD, msb, order::pattern2(alongship[i]));
        order::store2(out, to + 3 * WORD, msb, order::pattern2(athwartship[i]));
        to += samples::PAIR;
    }
}

// and as a U-16-angles ping's.
pub fn write_narrow_angles(
    numbers: &[u16],
    alongship: &[i16],
    athwartship: &[i16],
    msb: bool,
    out: &mut [u8],
    at: usize,
)
    requires alongship_len { length alongship.now ≡ length numbers.now }
    requires athwartship_len { length athwartship.now ≡ length numbers.now }
    requires numbers_in_bounds { at + 6 * length numbers.now ≤ length out.old }
    ensures { out.new ≡ sets out.old at
        (unsampled narrow_angles msb (angled numbers.now alongship.now athwartship.now)) }
{
    let mut to = at;
    // angles are indexed, not zipped: zipped, 2,000 samples with wide numbers took 58,069 instructions, so 40,107
    for (i, number) in numbers.iter().enumerate() {
        order::store2(out, to, msb, *number);
        order::store2(out, to + WORD, msb, order::pattern2(alongship[i]));
        order::store2(out, to + 2 * WORD, msb, order::pattern2(athwartship[i]));
        to += TRIPLE;
    }
}
