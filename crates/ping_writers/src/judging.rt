// What is asked before a ping is written, and how many bytes it takes.
ghost use Rattle.layout.specs.Views.{as_answer};
ghost use Rattle.std.specs.Prelude.{◌≡◌, false, not, ◌&&◌, ◌^◌, ◌≤◌, eqb, length};
ghost use Rattle.samples.specs.inner.Lists.{numbered};
ghost use Rattle.samples.specs.Runs.{quiet};
ghost use Rattle.samples.specs.Judging.{first_drop, too_short};
ghost use Rattle.content.specs.Forms.{has_length};
ghost use Rattle.pings.specs.Headers.{handed_length};
ghost use Rattle.ping_writers.specs.inner.Judged.{plain_answer, width_by, radix_by, packed_size, packed_answer};

use frame::TAIL;
use layout::Answer;
use layout::codes::Code;
use pings::PingLength;

// The field behind samples or words stands at a multiple of this.
const ALIGNED: usize = 4;

// Whether three counts are the same.
pub fn same(a: usize, b: usize, c: usize) -> bool
    ensures { result ≡ (eqb a b && eqb a c) }
{
    (a == b) & (a == c)
}

// What is said of an uncompressed ping's lists, the smallest of which has n entries, where `first` is the place of the first number that
// doesn't rise and a sample has so many bytes.
pub fn judge_plain(equal: bool, n: usize, first: usize, sample: usize, room: usize) -> Answer
    requires { sample ≤ 8 }
    ensures { as_answer result ≡ plain_answer equal n first sample room }
{
    if !equal {
        return layout::refuse(Code::NotRising, n);
    }
    if samples::MOST < n {
        return layout::refuse(Code::Overfull, 0);
    }
    if n == 0 {
        return layout::refuse(Code::NoSamples, 0);
    }
    if first < n {
        return layout::refuse(Code::NotRising, first);
    }
    // never over what a tuple holds: 32,764 samples of eight bytes just fill one
    let bytes = n * sample;
    let whole = samples::SAMPLES + bytes + bytes % ALIGNED + TAIL;
    if room < whole {
        return layout::refuse(Code::NoRoom, 0);
    }
    layout::accept(1, whole)
}

// Whether there is neither a sample nor a length.
fn is_empty(n: usize, length: PingLength) -> bool
    ensures { result ≡ (eqb n 0 && not (has_length (handed_length length))) }
{
    match length {
        None => n == 0,
        Some(_) => false,
    }
}

// Whether a length ends before a quiet sample behind the last: the sum may pass 32 bits.
fn is_short(numbers: &[u32], length: PingLength) -> bool
    ensures { result ≡ too_short (numbered numbers.now) (handed_length length) }
{
    match length {
        None => false,
        Some(all) => (all as usize) < spelling::write::behind(numbers) + 1,
    }
}

// The quiet samples behind the last that a length says.
pub fn quiet_behind(numbers: &[u32], length: PingLength) -> usize
    requires { too_short (numbered numbers.now) (handed_length length) ≡ false }
    ensures value { result ≡ quiet (numbered numbers.now) (handed_length length) }
    ensures upper_bound { result ≤ 2 ^ 32 }
{
    match length {
        None => 0,
        Some(all) => all as usize - spelling::write::behind(numbers),
    }
}

// How many bytes a compressed ping takes in the fewest words, with so many quiet samples behind the last.
fn count_bytes(numbers: &[u32], quiet: usize, wide: bool) -> usize
    requires numbers_value { first_drop 0 (numbered numbers.now) ≡ length numbers.now }
    requires quiet_bound { quiet ≤ 2 ^ 32 }
    ensures { result ≡ packed_size (width_by wide) (radix_by wide) numbers.now quiet }
{
    if wide {
        let words = spelling::write::count_words(numbers, quiet);
        return samples::WORDS + samples::WORD * words + TAIL;
    }
    let bytes = samples16::WORD * spelling16::write::count_words(numbers, quiet);
    samples::WORDS + bytes + bytes % ALIGNED + TAIL
}

// What is said of a compressed ping's lists, where there are so many values and `wordless` is the place of the first that has no word; its
// words have four bytes, or two.
pub fn judge_packed(
    numbers: &[u32],
    values: usize,
    wordless: usize,
    length: PingLength,
    wide: bool,
    room: usize,
) -> Answer
    ensures { as_answer result ≡ packed_answer (width_by wide) (radix_by wide) numbers.now values wordless (handed_length length) room }
{
    let n = numbers.len();
    if n != values {
        return layout::refuse(Code::NotRising, n.min(values));
    }
    if samples::MOST < values {
        return layout::refuse(Code::Overfull, 0);
    }
    if is_empty(n, length) {
        return layout::refuse(Code::NoSamples, 0);
    }
    let first = spelling::write::first_drop(numbers);
    if first < n {
        return layout::refuse(Code::NotRising, first);
    }
    if wordless < n {
        return layout::refuse(Code::NoWord, wordless);
    }
    if is_short(numbers, length) {
        return layout::refuse(Code::ShortLength, 0);
    }
    let whole = count_bytes(numbers, quiet_behind(numbers, length), wide);
    if frame::MOST < whole {
        return layout::refuse(Code::Overfull, 0);
    }
    if room < whole {
        return layout::refuse(Code::NoRoom, 0);
    }
    layout::accept(1, whole)
}
