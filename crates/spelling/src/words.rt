// What the words of a compressed ping differ in, those of four bytes and those of two; and what is written of both alike.
ghost use Rattle.std.specs.Prelude.{◌≡◌, ℕ, ◌+◌, ◌-◌, ◌*◌, ◌^◌, ◌<◌, ◌≤◌, length, take};
ghost use Rattle.std.proofs.Common.{rules};
ghost use Rattle.std.proofs.lemmas.List.Edits.{sets};
ghost use Rattle.order.specs.Order.{num_of, bytes_of};
ghost use Rattle.layout.specs.Families.{Family, wide, number_bytes, value_bytes, value_count};
ghost use Rattle.samples.specs.Words.{unwords};
ghost use Rattle.samples.specs.Runs.{is_run, run_length, gap};

// The words of one width. The code that writes them knows them by their measures and laws alone.
pub trait Words {
    // The family whose words they are.
    ghost family: { Family };

    ghost WORD: { ℕ };

    // The bytes of a word.
    const WORD: usize;

    ghost FULL: { ℕ };

    // The samples of the longest run.
    const FULL: u32;

    ghost SHORTEST_RUN: { ℕ };

    // The word of a run of 1: longer ones count on from it.
    const SHORTEST_RUN: u32;

    // How a value's word is spelled when it is written.
    ghost kept: { ℕ → ℕ };

    // The word at the front of bytes.
    fn read(bytes: &[u8], msb: bool) -> u32
        requires { WORD ≤ length bytes.now }
        ensures value { result ≡ num_of msb (take WORD bytes.now) }
        ensures bound { result < 256 ^ WORD };

    // A word stored at a place.
    fn store(out: &mut [u8], at: usize, msb: bool, word: u32)
        requires { at + WORD ≤ length out.old }
        ensures { out.new ≡ sets out.old at (bytes_of msb WORD word) };

    // Whether a word is a run.
    fn is_run(word: u32) -> bool
        requires { word < 256 ^ WORD }
        ensures { result ≡ is_run FULL word };

    // A value's word as it is written.
    fn respell(word: u32) -> u32
        ensures { result ≡ kept word };

    // A word is short, so that eight bytes hold two;
    ghost widths: { (1 < WORD) × (WORD ≤ 4) };

    // a run passes few samples for its width, so that a sample's number fits 32 bits;
    ghost radix: { (1 < FULL) × (FULL ≤ 65536) × (4 * FULL ≤ 65536 * WORD) };

    // a word's upper half is all ones in a run;
    ghost longest: { (1 ≤ SHORTEST_RUN) × (SHORTEST_RUN ≡ (FULL - 1) * FULL) × (SHORTEST_RUN + FULL ≤ 2 ^ 32) };

    // and an uncompressed sample is two words: its number and its value.
    ghost sample: { (number_bytes family ≡ WORD) × (value_bytes family ≡ WORD) × (value_count family ≡ 1) };
}

// The words of a C-32 ping.
pub struct Wide;

impl Words for Wide {
    ghost family = { wide };

    ghost WORD = { 4 };

    const WORD: usize = samples::WORD;

    ghost FULL = { 65536 };

    const FULL: u32 = samples::RUN_SAMPLES;

    ghost SHORTEST_RUN = { 0xffff0000 };

    const SHORTEST_RUN: u32 = 0xffff_0000;

    ghost kept = { λ w. w };

    ghost widths = { Prim.search rules };

    ghost radix = { Prim.search rules };

    ghost longest = { Prim.search rules };

    ghost sample = { Prim.search rules };

    fn read(bytes: &[u8], msb: bool) -> u32 {
        order::read4(bytes, 0, msb)
    }

    fn store(out: &mut [u8], at: usize, msb: bool, word: u32) {
        order::store4(out, at, msb, word)
    }

    fn is_run(word: u32) -> bool {
        samples::is_run(word)
    }

    fn respell(word: u32) -> u32 {
        word
    }
}

// How many samples below threshold a run stands for.
pub fn run_length<W: Words>(word: u32) -> u32
    ensures value { result ≡ run_length W.FULL word }
    ensures upper_bound { result ≤ W.FULL }
{
    word % W::FULL + 1
}

// How many runs a gap of samples below threshold takes: as many as cover it.
pub fn runs<W: Words>(quiet: usize) -> usize
    requires { quiet ≤ 2 ^ 32 }
    ensures value { result ≡ length (gap W.FULL quiet) }
    ensures upper_bound { result ≤ quiet }
{
    // not by div_ceil: with it the words of 2,000 were counted in 70,037 instructions, so in 50,048
    (quiet + (W::FULL as usize - 1)) / W::FULL as usize
}

// The words of a gap of samples below threshold, full runs first and the remainder last; the place behind them.
pub fn write_gap<W: Words>(out: &mut [u8], at: usize, msb: bool, quiet: usize) -> usize
    requires { at + W.WORD * length (gap W.FULL quiet) ≤ length out.old }
    ensures value { result ≡ at + W.WORD * length (gap W.FULL quiet) }
    ensures out_after { out.new ≡ sets out.old at (unwords W.WORD msb (gap W.FULL quiet)) }
{
    let full = W::FULL as usize;
    let mut to = at;
    let mut left = quiet;
    // not counted by quiet / full: so the compiler held a full run for likely, and 2,000 C-16 values took 13.6 µs in place of 5.5
    while full <= left {
        W::store(out, to, msb, W::SHORTEST_RUN + (W::FULL - 1));
        to += W::WORD;
        left -= full;
    }
    if left == 0 {
        return to;
    }
    // a run's lower half is its length less 1
    W::store(out, to, msb, W::SHORTEST_RUN + (left - 1) as u32);
    to + W::WORD
}
