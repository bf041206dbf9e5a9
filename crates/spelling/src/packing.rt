// A compressed ping's words from bytes to bytes, in the fewest: each stretch of runs as full runs and the remainder, in LSB order. Words
// of either width, and those of a C-32 ping.
ghost use Rattle.std.specs.Prelude.{◌≡◌, cond, not, ◌+◌, ◌*◌, ◌≤◌, leb, eqb, length};
ghost use Rattle.samples.specs.Words.{all_words};
ghost use Rattle.samples.specs.Runs.{radix};
ghost use Rattle.samples.specs.inner.Packing.{packed, same, PackedAt};

use crate::words::{self, Wide, Words};

// How many the fewest words are.
pub fn count<W: Words>(part: &[u8], msb: bool) -> usize
    requires { length part.now ≤ 262108 }
    ensures { result ≡ length (packed W.FULL W.kept (all_words W.WORD msb part.now)) }
{
    let mut count: usize = 0;
    let mut quiet: usize = 0;
    // no branch on the kind of word, which nobody can foresee
    for bytes in part.chunks_exact(W::WORD) {
        let word = W::read(bytes, msb);
        let run = W::is_run(word);
        count += (!run as usize) * (words::runs::<W>(quiet) + 1);
        quiet = (run as usize) * (quiet + words::run_length::<W>(word) as usize);
    }
    count + words::runs::<W>(quiet)
}

// Whether a run ends with a word, behind so many quiet samples: a full one, where these and the word's reach its length; before a value
// what remains.
fn ends_run<W: Words>(run: bool, quiet: u32, passed: u32) -> bool
    ensures { result ≡ cond run (leb W.FULL passed) (not (eqb quiet 0)) }
{
    (run & (W::FULL <= passed)) | (!run & (quiet != 0))
}

// Writes them; the place behind them. Eight bytes more have to be lent: what they hold then is not said, but for what is written there
// next.
pub fn pack<W: Words>(part: &[u8], msb: bool, out: &mut [u8], to: usize) -> usize
    requires part_len_bound { length part.now ≤ 262108 }
    requires part_in_bounds { to + W.WORD * length (packed W.FULL W.kept (all_words W.WORD msb part.now)) + 8 ≤ length out.old }
    ensures value { result ≡ to + W.WORD * length (packed W.FULL W.kept (all_words W.WORD msb part.now)) }
    ensures packed_at { PackedAt W.WORD out.old to (packed W.FULL W.kept (all_words W.WORD msb part.now)) out.new result }
{
    let mut at = to;
    let mut quiet: u32 = 0;
    // no branch on the kind of word, which nobody can foresee: a run and the word itself are stored in each turn, and what doesn't
    // stand there is stored over
    for bytes in part.chunks_exact(W::WORD) {
        let word = W::read(bytes, msb);
        let run = W::is_run(word);
        let passed = quiet + words::run_length::<W>(word);
        let ends = ends_run::<W>(run, quiet, passed);
        let length = (run as u32) * W::FULL + (!run as u32) * quiet;
        W::store(out, at, false, W::SHORTEST_RUN - 1 + length);
        at += W::WORD * (ends as usize);
        W::store(out, at, false, W::respell(word));
        at += W::WORD * (!run as usize);
        quiet = (run as u32) * (passed % W::FULL);
    }
    words::write_gap::<W>(out, at, false, quiet as usize)
}

// How many the fewest words of a C-32 ping are.
pub fn count_packed(part: &[u8], msb: bool) -> usize
    requires { length part.now ≤ 262108 }
    ensures { result ≡ length (packed radix same (all_words 4 msb part.now)) }
{
    count::<Wide>(part, msb)
}

// Writes them.
pub fn pack_words(part: &[u8], msb: bool, out: &mut [u8], to: usize) -> usize
    requires part_len_bound { length part.now ≤ 262108 }
    requires part_in_bounds { to + 4 * length (packed radix same (all_words 4 msb part.now)) + 8 ≤ length out.old }
    ensures value { result ≡ to + 4 * length (packed radix same (all_words 4 msb part.now)) }
    ensures packed_at { PackedAt 4 out.old to (packed radix same (all_words 4 msb part.now)) out.new result }
{
    pack::<Wide>(part, msb, out, to)
}
