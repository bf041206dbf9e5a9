// Writing a ping's samples, numbers and values handed over apart: in the fewest words of either width, in the fewest C-32 words, and as
// U-32 pairs. What the writers ask of them first.
ghost use Rattle.std.specs.Prelude.{◌≡◌, ◌+◌, ◌*◌, ◌^◌, ◌≤◌, ℤ, map, length};
ghost use Rattle.std.proofs.lemmas.List.Edits.{sets};
ghost use Rattle.order.specs.Order.{pattern_of};
ghost use Rattle.layout.specs.Families.{Family, wide};
ghost use Rattle.samples.specs.Words.{unwords, unsampled};
ghost use Rattle.samples.specs.Lists.{handed_bytes, paired};
ghost use Rattle.samples.specs.Values.{word_for, wordless};
ghost use Rattle.samples.specs.inner.Lists.{numbered, valued, worded};
ghost use Rattle.samples.specs.Runs.{radix, encode_from};
ghost use Rattle.samples.specs.Runs.{behind as numberBehind};
ghost use Rattle.samples.specs.Judging.{first_drop, first_wordless};

use crate::words::{self, Wide, Words};
use samples::{PAIR, WORD};

// Values as they are handed over, and their words.
pub trait Handed {
    ghost kind: { Family };

    type Value: Copy;

    ghost number: { Self.Value → ℤ };

    // The word of a value.
    fn word(value: Self::Value) -> u32
        ensures { result ≡ word_for kind (pattern_of (handed_bytes kind) (number value)) };
}

impl Handed for Wide {
    ghost kind = { wide };

    type Value = i32;

    ghost number = { λ z. z };

    fn word(value: i32) -> u32 {
        order::pattern4(value)
    }
}

// The place of the first number that is not above the one before it; as many as there are where all rise.
pub fn first_drop(numbers: &[u32]) -> usize
    ensures { result ≡ first_drop 0 (numbered numbers.now) }
{
    let mut next: usize = 0;
    for (i, number) in numbers.iter().enumerate() {
        let number = *number as usize;
        if number < next {
            return i;
        }
        next = number + 1;
    }
    numbers.len()
}

// Whether a value has no C-32 word.
fn is_wordless(value: i32) -> bool
    ensures { result ≡ wordless wide (pattern_of 4 value) }
{
    let word = order::pattern4(value);
    samples::is_run(word) | samples::is_bad(word)
}

// The place of the first value that has no C-32 word; as many as there are where all have one.
pub fn first_wordless(values: &[i32]) -> usize
    ensures { result ≡ first_wordless wide (valued 4 values.now) }
{
    values
        .iter()
        .position(|value| is_wordless(*value))
        .unwrap_or(values.len())
}

// The number behind the last sample's; 0 where there is none.
pub fn behind(numbers: &[u32]) -> usize
    ensures value { result ≡ numberBehind 0 (numbered numbers.now) }
    ensures upper_bound { result ≤ 2 ^ 32 }
{
    match numbers.last() {
        Some(number) => *number as usize + 1,
        None => 0,
    }
}

// How many the fewest words of samples with these numbers are, with so many quiet samples behind the last.
pub fn count<W: Words>(numbers: &[u32], quiet: usize) -> usize
    requires numbers_value { first_drop 0 (numbered numbers.now) ≡ length numbers.now }
    requires quiet_bound { quiet ≤ 2 ^ 32 }
    ensures value { result ≡ length (encode_from W.FULL 0 (numbered numbers.now) quiet) }
    ensures upper_bound { result ≤ 2 ^ 33 }
{
    let mut count: usize = 0;
    let mut next: usize = 0;
    for number in numbers {
        let number = *number as usize;
        // the runs of its gap, and the value one word
        count += words::runs::<W>(number - next) + 1;
        next = number + 1;
    }
    count + words::runs::<W>(quiet)
}

// The fewest words of samples, whose numbers and values are handed over apart: each value behind its gap, and so many quiet samples
// behind the last. The place behind them.
pub fn write<W: Words, V: Handed>(
    numbers: &[u32],
    values: &[V::Value],
    quiet: usize,
    msb: bool,
    out: &mut [u8],
    at: usize,
) -> usize
    requires values_len { length values.now ≡ length numbers.now }
    requires values_value { first_drop 0 (paired (handed_bytes V.kind) numbers.now (map V.number values.now)) ≡ length numbers.now }
    requires quiet_in_bounds { at
        + W.WORD * length (encode_from W.FULL 0 (worded V.kind numbers.now (map V.number values.now)) quiet) ≤ length out.old }
    ensures value { result ≡ at + W.WORD * length (encode_from W.FULL 0 (worded V.kind numbers.now (map V.number values.now)) quiet) }
    ensures out_after { out.new ≡ sets out.old at
        (unwords W.WORD msb (encode_from W.FULL 0 (worded V.kind numbers.now (map V.number values.now)) quiet)) }
{
    let mut to = at;
    let mut next: usize = 0;
    // values are indexed, not zipped, so that one test ends a turn: zipped, 2,000 C-16 values took 94,753 instructions, so 78,760
    for (i, number) in numbers.iter().enumerate() {
        let number = *number as usize;
        let word = V::word(values[i]);
        let behind = words::write_gap::<W>(out, to, msb, number - next);
        W::store(out, behind, msb, word);
        to = behind + W::WORD;
        next = number + 1;
    }
    words::write_gap::<W>(out, to, msb, quiet)
}

// How many the fewest words of a C-32 ping with these numbers are.
pub fn count_words(numbers: &[u32], quiet: usize) -> usize
    requires numbers_value { first_drop 0 (numbered numbers.now) ≡ length numbers.now }
    requires quiet_bound { quiet ≤ 2 ^ 32 }
    ensures value { result ≡ length (encode_from radix 0 (numbered numbers.now) quiet) }
    ensures upper_bound { result ≤ 2 ^ 33 }
{
    count::<Wide>(numbers, quiet)
}

// The fewest words of a C-32 ping's samples.
pub fn write_words(
    numbers: &[u32],
    values: &[i32],
    quiet: usize,
    msb: bool,
    out: &mut [u8],
    at: usize,
)
    requires values_len { length values.now ≡ length numbers.now }
    requires values_value { first_drop 0 (paired 4 numbers.now values.now) ≡ length numbers.now }
    requires quiet_in_bounds { at + 4 * length (encode_from radix 0 (worded wide numbers.now values.now) quiet) ≤ length out.old }
    ensures { out.new ≡ sets out.old at
        (unwords 4 msb (encode_from radix 0 (worded wide numbers.now values.now) quiet)) }
{
    write::<Wide, Wide>(numbers, values, quiet, msb, out, at);
}

// Samples, whose numbers and values are handed over apart, as pairs.
pub fn write_pairs(numbers: &[u32], values: &[i32], msb: bool, out: &mut [u8], at: usize)
    requires values_len { length values.now ≡ length numbers.now }
    requires numbers_in_bounds { at + 8 * length numbers.now ≤ length out.old }
    ensures { out.new ≡ sets out.old at (unsampled wide msb (paired 4 numbers.now values.now)) }
{
    let mut to = at;
    // values are indexed, not zipped, so that one test ends a turn: zipped, 2,000 pairs took 27,678 instructions, so 23,631
    for (i, number) in numbers.iter().enumerate() {
        order::store4(out, to, msb, *number);
        order::store4(out, to + WORD, msb, order::pattern4(values[i]));
        to += PAIR;
    }
}
