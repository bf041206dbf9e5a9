// Samples of two bytes: the words of C-16 and CE-16 pings, the samples of U-16 pings; and the angles of either width. Judging them, and
// handing samples over. `spelling16` writes them.
#![tactic(auto)]

pub mod angles;

ghost use Rattle.std.specs.Prelude.{◌≡◌, false, ◌&&◌, ◌*◌, ◌+◌, ◌%◌, ◌≤◌, ◌<◌, ◌⊎◌, leb, ltb, length, take, map};
ghost use mir.Val.{bool_byte};
ghost use Rattle.std.proofs.lemmas.List.Edits.{sets};
ghost use Rattle.order.specs.Order.{num_of, signed_of};
ghost use Rattle.layout.specs.Views.{as_verdict};
ghost use Rattle.layout.specs.Families.{narrow, narrow_angles, sample_bytes, measures_of};
ghost use Rattle.samples.specs.Words.{all_words, all_samples};
ghost use Rattle.samples.specs.Lists.{handed_bytes, numbers_of, values_of};
ghost use Rattle.samples.specs.inner.Lists.{Room};
ghost use Rattle.samples.specs.inner.Narrow.{plain_by, words_by};
ghost use Rattle.samples.specs.inner.Runs.{samples_by};
ghost use Rattle.samples.specs.Runs.{is_run, run_length, first_bad, samples_from, ends_from, values};
ghost use Rattle.samples.specs.Values.{magnitude, count_of, meant, samples_in, held_words};
ghost use Rattle.samples16.specs.inner.Ranks.{rank_of};
ghost use Rattle.samples16.specs.inner.Sizes.{plain_of};
ghost use Rattle.samples.specs.Judging.{first_drop, dropping, any_bad, judged_samples, judged_words};

use layout::Verdict;
use layout::codes::Code;
use samples::{COUNT, MOST, SAMPLES, WORDS};

// The bytes of a word; of a U-16 ping's sample, and of a U-16-angles ping's.
pub const WORD: usize = 2;

pub const PAIR: usize = 4;

pub const TRIPLE: usize = 6;

// The words of a block that are looked at together.
const BLOCK: usize = 16_384;

// How many values a byte has, and how many a number of two bytes.
const BYTES: u32 = 256;

const NUMBERS: u32 = 65_536;

// The word of a run of 1: longer ones count on from it.
pub const SHORTEST_RUN: u16 = 0xff00;

// The samples below threshold of the longest run.
pub const RUN_SAMPLES: u16 = 256;

// The least pattern outside the limits of a value; the most of a C-16 value, and of a CE-16 value.
const LEAST_BAD: u16 = 0x7f00;

pub const MOST_BAD: u16 = 0x8100;

pub const MOST_BAD_ENCODED: u16 = 0x7fff;

// Whether a word is a run: its upper eight bits are ones.
pub fn is_run(word: u16) -> bool
    ensures { result ≡ is_run 256 word }
{
    SHORTEST_RUN <= word
}

// How many samples below threshold a run stands for.
pub fn run_length(word: u16) -> u16
    ensures { result ≡ run_length 256 word }
{
    word % RUN_SAMPLES + 1
}

// The most pattern outside the limits.
pub fn most_bad(encoded: bool) -> u16
    ensures { result ≡ (measures_of (words_by encoded)).last }
{
    if encoded { MOST_BAD_ENCODED } else { MOST_BAD }
}

// Whether a word is outside the limits, of which this is the most pattern.
pub fn is_bad(word: u16, most: u16) -> bool
    ensures { result ≡ (leb 0x7f00 word && leb word most) }
{
    (LEAST_BAD <= word) & (word <= most)
}

// ---- uncompressed
// The bytes of a sample.
fn sample_bytes(angles: bool) -> usize
    ensures value { result ≡ sample_bytes (plain_by angles) }
    ensures lower_bound { (4 ≤ result) × (result ≤ 6) }
{
    if angles { TRIPLE } else { PAIR }
}

// What is compared in the place of a sample's number: it rises as the number does. The number is read with what stands behind it, and no
// byte is turned: so the compiler loads several at once. In MSB order it is the number's first byte, its second, and its first once
// more, for that is where the bytes stand that were read lowest first.
fn rank(sample: &[u8], msb: bool) -> u32
    requires { 4 ≤ length sample.now }
    ensures { result ≡ rank_of msb (num_of msb (take 2 sample.now)) }
{
    let front = order::read4(sample, 0, false);
    if msb {
        return front % BYTES * NUMBERS + front % NUMBERS;
    }
    front % NUMBERS
}

// Whether a number of a U-16 ping's samples isn't above the one before it, by ranks. There is no return before the end: so the compiler
// judges several at once.
fn drops_pairs(part: &[u8], msb: bool) -> bool
    ensures { result ≡ dropping (all_samples narrow msb part.now) }
{
    let (pairs, _) = part.as_chunks::<PAIR>();
    let Some((start, rest)) = pairs.split_first() else {
        return false;
    };
    let mut last = rank(start, msb);
    let mut bad = false;
    for pair in rest {
        let number = rank(pair, msb);
        bad |= number <= last;
        last = number;
    }
    bad
}

// The same of a U-16-angles ping's: four samples a turn, which was measured faster than one where they stand six bytes apart, and slower
// by a third where they stand four apart.
fn drops_triples(part: &[u8], msb: bool) -> bool
    ensures { result ≡ dropping (all_samples narrow_angles msb part.now) }
{
    let (triples, _) = part.as_chunks::<TRIPLE>();
    let Some((start, rest)) = triples.split_first() else {
        return false;
    };
    let (fours, few) = rest.as_chunks::<4>();
    let mut last = rank(start, msb);
    let mut bad = false;
    for four in fours {
        let first = rank(&four[0], msb);
        let second = rank(&four[1], msb);
        let third = rank(&four[2], msb);
        let fourth = rank(&four[3], msb);
        bad |= (first <= last) | (second <= first) | (third <= second) | (fourth <= third);
        last = fourth;
    }
    for triple in few {
        let next = rank(triple, msb);
        bad |= next <= last;
        last = next;
    }
    bad
}

// Whether a sample number isn't above the one before it: of each kind by a loop of its own, whose step the compiler knows.
fn drops(part: &[u8], msb: bool, angles: bool) -> bool
    ensures { result ≡ dropping (all_samples (plain_by angles) msb part.now) }
{
    if angles {
        return drops_triples(part, msb);
    }
    drops_pairs(part, msb)
}

// Where the first number stands that isn't above the one before it, of samples of so many bytes; behind the last whole sample where none is.
fn find_drop_of<const N: usize>(part: &[u8], msb: bool) -> usize
    requires { (N ≡ 4) ⊎ (N ≡ 6) }
    ensures value { result ≡ N * first_drop 0 (all_samples (plain_of N) msb part.now) }
    ensures upper_bound { result ≤ length part.now }
{
    let (samples, _) = part.as_chunks::<N>();
    let mut least: u32 = 0;
    for (i, sample) in samples.iter().enumerate() {
        let number = u32::from(order::read2(sample, 0, msb));
        let drop = number < least;
        if drop {
            return N * i;
        }
        least = number + 1;
    }
    N * samples.len()
}

// The same of a ping's samples, with angles or without.
fn find_drop(part: &[u8], msb: bool, angles: bool) -> usize
    ensures value { result ≡ sample_bytes (plain_by angles) * first_drop 0 (all_samples (plain_by angles) msb part.now) }
    ensures upper_bound { result ≤ length part.now }
{
    if angles {
        return find_drop_of::<TRIPLE>(part, msb);
    }
    find_drop_of::<PAIR>(part, msb)
}

// What the rules say of the samples of a U-16 or a U-16-angles ping: the part of the file that they fill, with a space behind them where
// there is one.
pub fn judge_samples(part: &[u8], msb: bool, angles: bool) -> Verdict
    requires { length part.now ≤ 262112 }
    ensures { as_verdict result ≡ judged_samples (plain_by angles) msb part.now }
{
    if MOST < part.len() / sample_bytes(angles) {
        return layout::fault(Code::Overfull);
    }
    if drops(part, msb, angles) {
        return layout::fault_at(Code::NotRising, SAMPLES + find_drop(part, msb, angles));
    }
    Ok(())
}

// Hands over the samples of a U-16 ping, one at a time: numbers and signed values.
pub fn read_samples(part: &[u8], msb: bool, numbers: &mut [u32], values: &mut [i32])
    requires { Room (all_samples narrow msb part.now) numbers.old values.old }
    ensures numbers_after { numbers.new ≡ sets numbers.old 0 (numbers_of (all_samples narrow msb part.now)) }
    ensures values_after { values.new ≡ sets values.old 0 (values_of 2 (all_samples narrow msb part.now)) }
{
    let (pairs, _) = part.as_chunks::<PAIR>();
    for (i, pair) in pairs.iter().enumerate() {
        numbers[i] = u32::from(order::read2(pair, 0, msb));
        values[i] = i32::from(order::signed2(order::read2(pair, WORD, msb)));
    }
}

// ---- compressed
// The word that two bytes are.
fn word_in(bytes: &[u8; WORD], msb: bool) -> u16
    ensures { result ≡ num_of msb bytes.now }
{
    order::read2(bytes, 0, msb)
}

// What is seen of words: how many are values, and whether one is outside the limits.
#[derive(Clone, Copy)]
struct Seen {
    values: u32,
    bad: bool,
}

// Looks at the words of a block. Values are counted in 16 bits, as wide as a word, so that the compiler looks at eight at once, which was
// measured three times as fast as in 32: hence blocks.
fn see(words: &[[u8; WORD]], msb: bool, encoded: bool) -> Seen
    requires { length words.now ≤ 16384 }
    ensures values_value { result.values ≡ values 256 (map (num_of msb) words.now) }
    ensures bad_value { result.bad ≡ any_bad (words_by encoded) (map (num_of msb) words.now) }
    ensures values_in_bounds { result.values ≤ length words.now }
{
    let most = most_bad(encoded);
    let mut values: u16 = 0;
    let mut bad = false;
    for bytes in words {
        let word = word_in(bytes, msb);
        values += !is_run(word) as u16;
        bad |= is_bad(word, most);
    }
    Seen {
        values: u32::from(values),
        bad,
    }
}

// Looks at all words, block by block. Inlined, as `judge_words` is: so the compiler knows whether they are CE-16's, and whether words
// outside the limits are asked for. By calls a CE-16 ping was checked in half as many instructions again.
#[inline(always)]
fn look(part: &[u8], msb: bool, encoded: bool) -> Seen
    requires part_len { length part.now % 2 ≡ 0 }
    requires part_len_bound { length part.now ≤ 262108 }
    ensures values_value { result.values ≡ values 256 (all_words 2 msb part.now) }
    ensures bad_value { result.bad ≡ any_bad (words_by encoded) (all_words 2 msb part.now) }
    ensures values_in_bounds { result.values ≤ length part.now }
{
    let (words, _) = part.as_chunks::<WORD>();
    let (blocks, rest) = words.as_chunks::<BLOCK>();
    let mut values: u32 = 0;
    let mut bad = false;
    for block in blocks {
        let seen = see(block, msb, encoded);
        values += seen.values;
        bad |= seen.bad;
    }
    let last = see(rest, msb, encoded);
    Seen {
        values: values + last.values,
        bad: bad | last.bad,
    }
}

// How many bytes of the part that words and a space fill are words, where so many of all are values: the last word is a space where it
// is no run and the number of samples counts the values before it alone.
fn words_end(part: &[u8], msb: bool, count: u32, found: u32) -> usize
    requires in_bounds { 2 ≤ length part.now }
    requires part_len { length part.now % 2 ≡ 0 }
    requires found_value { found ≡ values 256 (all_words 2 msb part.now) }
    ensures part_value { all_words 2 msb (take result part.now) ≡ held_words narrow count (all_words 2 msb part.now) }
    ensures upper_bound { (result ≤ length part.now) × (length part.now ≤ result + 2) × (result % 2 ≡ 0) }
    ensures part_value_2 { values 256 (held_words narrow count (all_words 2 msb part.now))
        + bool_byte (ltb result (length part.now)) ≡ found }
{
    let last = part.len() - WORD;
    if !is_run(order::read2(part, last, msb)) & (count as u64 + 1 == found as u64) {
        return last;
    }
    part.len()
}

// How many bytes of the part are words.
pub fn held(part: &[u8], msb: bool, count: u32) -> usize
    requires in_bounds { 2 ≤ length part.now }
    requires part_len { length part.now % 2 ≡ 0 }
    requires part_len_bound { length part.now ≤ 262108 }
    ensures part_value { all_words 2 msb (take result part.now) ≡ held_words narrow count (all_words 2 msb part.now) }
    ensures upper_bound { (result ≤ length part.now) × (length part.now ≤ result + 2) × (result % 2 ≡ 0) }
{
    words_end(part, msb, count, look(part, msb, false).values)
}

// Where in words the first stands that is outside the limits; behind them all where none is.
fn find_bad(part: &[u8], msb: bool, encoded: bool) -> usize
    ensures value { result ≡ 2 * first_bad (words_by encoded) (all_words 2 msb part.now) }
    ensures upper_bound { result ≤ length part.now }
{
    let most = most_bad(encoded);
    let (words, _) = part.as_chunks::<WORD>();
    for (i, word) in words.iter().enumerate() {
        let bad = is_bad(word_in(word, msb), most);
        if bad {
            return WORD * i;
        }
    }
    WORD * words.len()
}

// What the rules say of a C-16 or a CE-16 ping's words, of which its number of samples counts the values: the part of the file that they
// fill, with a space behind them where there is one. A space is none of them, though it may look like a word outside the limits.
#[inline(always)]
pub fn judge_words(part: &[u8], msb: bool, count: u32, encoded: bool) -> Verdict
    requires in_bounds { 2 ≤ length part.now }
    requires part_len { length part.now % 2 ≡ 0 }
    requires part_len_bound { length part.now ≤ 262108 }
    ensures { as_verdict result ≡ judged_words (words_by encoded) msb count part.now }
{
    let seen = look(part, msb, encoded);
    let found = seen.values;
    let end = words_end(part, msb, count, found);
    let values = found - (end < part.len()) as u32;
    if MOST < values as usize {
        return layout::fault(Code::Overfull);
    }
    if seen.bad {
        let at = find_bad(&part[0..end], msb, encoded);
        if at < end {
            return layout::fault_at(Code::BadWord, WORDS + at);
        }
    }
    if count != values {
        return layout::fault_at(Code::Miscounted, COUNT);
    }
    Ok(())
}

// Whether the last of some words is a run: a ping of these words has a length.
pub fn ends_in_run(part: &[u8], msb: bool) -> bool
    requires in_bounds { 2 ≤ length part.now }
    requires part_len { length part.now % 2 ≡ 0 }
    ensures { result ≡ ends_from 256 false (all_words 2 msb part.now) }
{
    is_run(order::read2(part, part.len() - WORD, msb))
}

// How many samples a word is.
fn samples_of(word: u16) -> u32
    ensures { result ≡ samples_by 256 word }
{
    if is_run(word) {
        u32::from(run_length(word))
    } else {
        1
    }
}

// How many samples words are, runs counted.
pub fn count_samples(part: &[u8], msb: bool) -> u32
    requires { length part.now ≤ 262108 }
    ensures { result ≡ samples_from 256 0 (all_words 2 msb part.now) }
{
    let (words, _) = part.as_chunks::<WORD>();
    words
        .iter()
        .map(|word| samples_of(word_in(word, msb)))
        .sum()
}

// The count of a CE-16 word without its sign: three bits of exponent, twelve of mantissa; with an exponent there is a thirteenth, 1.
fn magnitude_of(word: u16) -> u32
    requires { word < 32768 }
    ensures { (result ≡ magnitude word) × (result ≤ 524224) }
{
    let exponent = word / 4096;
    let mantissa = (word % 4096) as u32;
    if exponent == 0 {
        return mantissa;
    }
    (4096 + mantissa) << (exponent - 1)
}

// The count that a CE-16 word stands for: a sign stands before it.
pub fn count_of(word: u16) -> i32
    ensures { result ≡ count_of word }
{
    if word < 32768 {
        return magnitude_of(word) as i32;
    }
    0 - (magnitude_of(word - 32768) as i32)
}

// The signed value of a word.
pub fn value_of(word: u16, encoded: bool) -> i32
    ensures { result ≡ signed_of (handed_bytes (words_by encoded)) (meant (words_by encoded) word) }
{
    if encoded {
        return count_of(word);
    }
    order::signed2(word) as i32
}

// Hands over the samples of words, one at a time: a run passes its samples, a value is the next sample's.
pub fn read_words(part: &[u8], msb: bool, encoded: bool, numbers: &mut [u32], values: &mut [i32])
    requires part_len_bound { length part.now ≤ 262108 }
    requires room { Room (samples_in (words_by encoded) (all_words 2 msb part.now)) numbers.old values.old }
    ensures numbers_after { numbers.new ≡ sets numbers.old 0
        (numbers_of (samples_in (words_by encoded) (all_words 2 msb part.now))) }
    ensures values_after { values.new ≡ sets values.old 0
        (values_of (handed_bytes (words_by encoded)) (samples_in (words_by encoded) (all_words 2 msb part.now))) }
{
    let (words, _) = part.as_chunks::<WORD>();
    let mut number: u32 = 0;
    let mut entry: usize = 0;
    for bytes in words {
        let word = word_in(bytes, msb);
        if is_run(word) {
            number += u32::from(run_length(word));
        } else {
            numbers[entry] = number;
            values[entry] = value_of(word, encoded);
            entry += 1;
            number += 1;
        }
    }
}
