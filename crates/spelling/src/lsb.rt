// A ping's samples from bytes to bytes, in LSB order: words as they stand, a compressed ping's words as samples. Words of either width,
// and those of U-32 and C-32 pings.
ghost use Rattle.std.specs.Prelude.{◌≡◌, false, ◌+◌, ◌*◌, ◌^◌, ◌<◌, ◌≤◌, length};
ghost use Rattle.std.proofs.lemmas.List.Edits.{sets};
ghost use Rattle.layout.specs.Families.{wide, sample_bytes};
ghost use Rattle.samples.specs.Words.{all_words, unwords, sample_back, unsampled};
ghost use Rattle.samples.specs.Runs.{radix, decode};

use crate::words::{Wide, Words};

// Writes the words of a part in LSB order.
pub fn turn<W: Words>(part: &[u8], msb: bool, out: &mut [u8], to: usize)
    requires { to + length part.now ≤ length out.old }
    ensures { out.new ≡ sets out.old to (unwords W.WORD false (all_words W.WORD msb part.now)) }
{
    let mut at = to;
    for bytes in part.chunks_exact(W::WORD) {
        W::store(out, at, false, W::read(bytes, msb));
        at += W::WORD;
    }
}

// Writes one sample in LSB order.
fn put_pair<W: Words>(out: &mut [u8], at: usize, number: u32, value: u32)
    requires value_bound { value < 256 ^ W.WORD }
    requires at_in_bounds { at + sample_bytes W.family ≤ length out.old }
    ensures { out.new ≡ sets out.old at (sample_back W.family false (number, value)) }
{
    W::store(out, at, false, number);
    W::store(out, at + W::WORD, false, value);
}

// Writes the samples of a compressed ping's words in LSB order, up to where these end: a run passes its samples, a value is the next
// sample's.
pub fn spread<W: Words>(part: &[u8], msb: bool, out: &mut [u8], to: usize, end: usize)
    requires part_len_bound { length part.now ≤ 262108 }
    requires end_value { end ≡ to + length (decode W.FULL (all_words W.WORD msb part.now)) * sample_bytes W.family }
    requires end_in_bounds { end ≤ length out.old }
    ensures { out.new ≡ sets out.old to (unsampled W.family false (decode W.FULL (all_words W.WORD msb part.now))) }
{
    let mut number: u32 = 0;
    let mut at = to;
    let mut left = part;
    // no branch on the kind of word: a run's sample is written over by the next value's, and behind the last value the loop ends
    // not a chunk for each word: the test for the samples' end in it made 74,040 instructions of 66,039, for 2,000 words
    while at < end {
        let (bytes, behind) = left.split_at(W::WORD);
        let word = W::read(bytes, msb);
        let run = W::is_run(word);
        put_pair::<W>(out, at, number, word);
        at += 2 * W::WORD * (!run as usize);
        number += (run as u32) * (word % W::FULL) + 1;
        left = behind;
    }
}

// Writes the words of a U-32 ping in LSB order.
pub fn turn_words(part: &[u8], msb: bool, out: &mut [u8], to: usize)
    requires { to + length part.now ≤ length out.old }
    ensures { out.new ≡ sets out.old to (unwords 4 false (all_words 4 msb part.now)) }
{
    turn::<Wide>(part, msb, out, to);
}

// Writes the samples of a C-32 ping's words as pairs.
pub fn spread_words(part: &[u8], msb: bool, out: &mut [u8], to: usize, end: usize)
    requires part_len_bound { length part.now ≤ 262108 }
    requires end_value { end ≡ to + length (decode radix (all_words 4 msb part.now)) * 8 }
    requires end_in_bounds { end ≤ length out.old }
    ensures { out.new ≡ sets out.old to (unsampled wide false (decode radix (all_words 4 msb part.now))) }
{
    spread::<Wide>(part, msb, out, to, end);
}
