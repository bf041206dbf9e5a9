// Writing the samples of a C-16 or a CE-16 ping, numbers and values handed over apart, in the fewest words. What the writers ask of them
// first.
ghost use Rattle.std.specs.Prelude.{◌≡◌, ◌+◌, ◌*◌, ◌^◌, ◌≤◌, length};
ghost use Rattle.std.proofs.lemmas.List.Edits.{sets};
ghost use Rattle.layout.specs.Families.{narrow, encoded};
ghost use Rattle.order.specs.Order.{pattern_of};
ghost use Rattle.samples.specs.Words.{unwords};
ghost use Rattle.samples.specs.Lists.{paired};
ghost use Rattle.samples.specs.Values.{code_of, shortened, wordless};
ghost use Rattle.samples.specs.inner.Lists.{numbered, valued, worded};
ghost use Rattle.samples.specs.Runs.{encode_from};
ghost use Rattle.samples.specs.Judging.{first_drop, first_wordless};

use crate::words::Narrow;
use spelling::write::Handed;

// A CE-16 word: what thirteen bits can't hold any more, one in the exponent, how often a magnitude is halved at most, and the sign; the
// least pattern of a negative count.
const THIRTEEN_BITS: u32 = 8192;

const EXPONENT: u32 = 4096;

const HALVINGS: u32 = 6;

const MINUS: u32 = 32768;

const LEAST_NEGATIVE: u32 = 0x8000_0000;

// The longest word.
const MOST_WORD: u32 = 0xffff;

impl Handed for Narrow {
    ghost kind = { narrow };

    type Value = i16;

    ghost number = { λ z. z };

    fn word(value: i16) -> u32 {
        u32::from(order::pattern2(value))
    }
}

// The values of a CE-16 ping, which are counts.
struct Counts;

impl Handed for Counts {
    ghost kind = { encoded };

    type Value = i32;

    ghost number = { λ z. z };

    fn word(count: i32) -> u32 {
        code_of(order::pattern4(count))
    }
}

// Whether a value has no C-16 word.
fn is_wordless(value: i16) -> bool
    ensures { result ≡ wordless narrow (pattern_of 2 value) }
{
    let word = order::pattern2(value);
    samples16::is_run(word) | samples16::is_bad(word, samples16::MOST_BAD)
}

// The place of the first value that has no C-16 word; as many as there are where all have one.
pub fn first_wordless(values: &[i16]) -> usize
    ensures { result ≡ first_wordless narrow (valued 2 values.now) }
{
    values
        .iter()
        .position(|value| is_wordless(*value))
        .unwrap_or(values.len())
}

// A magnitude's word: it is halved until thirteen bits hold it, at most six times. That of one past the limits may be longer than two
// bytes.
fn shorten(value: u32) -> u32
    ensures value { result ≡ shortened 6 value }
    ensures upper_bound { result ≤ value }
{
    let mut rest = value;
    let mut code: u32 = 0;
    for _ in 0..HALVINGS {
        if rest < THIRTEEN_BITS {
            return code + rest;
        }
        rest /= 2;
        code += EXPONENT;
    }
    code + rest
}

// The word of a count, of which this is the pattern: a sign, and the word of its magnitude.
fn code_of(value: u32) -> u32
    ensures { result ≡ code_of value }
{
    if value < LEAST_NEGATIVE {
        return shorten(value);
    }
    MINUS + shorten(0xffff_ffff - value + 1)
}

// Whether a count has no CE-16 word: the word for it is too long, a run's or outside the limits, or stands for another count.
fn is_codeless(count: i32) -> bool
    ensures { result ≡ wordless encoded (pattern_of 4 count) }
{
    let value = order::pattern4(count);
    let code = code_of(value);
    if MOST_WORD < code {
        return true;
    }
    let word = code as u16;
    samples16::is_run(word)
        | samples16::is_bad(word, samples16::MOST_BAD_ENCODED)
        | (order::pattern4(samples16::count_of(word)) != value)
}

// The place of the first count that has no CE-16 word; as many as there are where all have one.
pub fn first_codeless(counts: &[i32]) -> usize
    ensures { result ≡ first_wordless encoded (valued 4 counts.now) }
{
    counts
        .iter()
        .position(|count| is_codeless(*count))
        .unwrap_or(counts.len())
}

// How many the fewest words of samples with these numbers are, with so many quiet samples behind the last.
pub fn count_words(numbers: &[u32], quiet: usize) -> usize
    requires numbers_value { first_drop 0 (numbered numbers.now) ≡ length numbers.now }
    requires quiet_bound { quiet ≤ 2 ^ 32 }
    ensures value { result ≡ length (encode_from 256 0 (numbered numbers.now) quiet) }
    ensures upper_bound { result ≤ 2 ^ 33 }
{
    spelling::write::count::<Narrow>(numbers, quiet)
}

// The fewest words of a C-16 ping's samples: each value behind its gap, and so many quiet samples behind the last. The place behind them.
pub fn write_words(
    numbers: &[u32],
    values: &[i16],
    quiet: usize,
    msb: bool,
    out: &mut [u8],
    at: usize,
) -> usize
    requires values_len { length values.now ≡ length numbers.now }
    requires values_value { first_drop 0 (paired 2 numbers.now values.now) ≡ length numbers.now }
    requires quiet_in_bounds { at + 2 * length (encode_from 256 0 (worded narrow numbers.now values.now) quiet) ≤ length out.old }
    ensures value { result ≡ at + 2 * length (encode_from 256 0 (worded narrow numbers.now values.now) quiet) }
    ensures out_after { out.new ≡ sets out.old at
        (unwords 2 msb (encode_from 256 0 (worded narrow numbers.now values.now) quiet)) }
{
    spelling::write::write::<Narrow, Narrow>(numbers, values, quiet, msb, out, at)
}

// The same of a CE-16 ping's counts, each of which has a word.
pub fn write_codes(
    numbers: &[u32],
    counts: &[i32],
    quiet: usize,
    msb: bool,
    out: &mut [u8],
    at: usize,
) -> usize
    requires counts_len { length counts.now ≡ length numbers.now }
    requires counts_value { first_drop 0 (paired 4 numbers.now counts.now) ≡ length numbers.now }
    requires counts_value_2 { first_wordless encoded (valued 4 counts.now) ≡ length counts.now }
    requires quiet_in_bounds { at + 2 * length (encode_from 256 0 (worded encoded numbers.now counts.now) quiet) ≤ length out.old }
    ensures value { result ≡ at + 2 * length (encode_from 256 0 (worded encoded numbers.now counts.now) quiet) }
    ensures out_after { out.new ≡ sets out.old at
        (unwords 2 msb (encode_from 256 0 (worded encoded numbers.now counts.now) quiet)) }
{
    spelling::write::write::<Narrow, Counts>(numbers, counts, quiet, msb, out, at)
}
