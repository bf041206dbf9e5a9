// A ping's own rules, by the sums of its file.
ghost use Rattle.std.specs.Prelude.{◌≡◌, ◌+◌, ◌*◌, ◌/◌, ◌%◌, ◌≤◌, ◌<◌, length, take, drop};
ghost use Rattle.layout.specs.Families.{wide};
ghost use Rattle.frame.specs.Files.{limit};
ghost use Rattle.frame.specs.Frames.{tup_at};
ghost use Rattle.samples.specs.Judging.{judged_samples, judged_words};
ghost use Rattle.samples.specs.inner.Narrow.{words_by};
ghost use Rattle.intake.specs.Alone.{alone};
ghost use Rattle.intake.specs.inner.Tallies.{Here, Fits, inner_verdict};
ghost use Rattle.weights.specs.inner.Rows.{Summed};
ghost use Rattle.layout.specs.Answers.{is_fine};
ghost use Rattle.weights.specs.inner.Judging.{family_by, Rising, narrow_by};

use crate::{Kind, between, step_of};
use layout::types;
use samples::{COUNT, MOST, SAMPLES, WORDS};

// The bytes of a ping beside its samples, and beside its words: those before them, its attribute and its backlink.
const BESIDE_SAMPLES: usize = SAMPLES + frame::TAIL;

const BESIDE_WORDS: usize = WORDS + frame::TAIL;

// Whether samples of a kind keep their rules, in so many bytes of the file from a place on: there are no more than a ping may hold, and
// their numbers rise.
fn rise(file: &[u8], msb: bool, kind: Kind, from: usize, size: usize, sums: &[u64]) -> bool
    requires from_value { (from % 4 ≡ 0) × (length file.now ≤ limit) }
    requires rising { Rising kind from size (length file.now) }
    requires summed { Summed msb file.now sums.now }
    ensures { result ≡ is_fine (judged_samples (family_by kind) msb (take size (drop from file.now))) }
{
    let n = size / step_of(kind);
    if MOST < n {
        return false;
    }
    between(file, msb, kind, from, n - 1, sums) == 0
}

// Whether n words of a C-32 ping keep theirs, of which so many are to be values.
fn count4(file: &[u8], msb: bool, from: usize, n: usize, count: u32, sums: &[u64]) -> bool
    requires from_value { (from % 4 ≡ 0) × (length file.now ≤ limit) }
    requires n_in_bounds { from + 4 * n ≤ length file.now }
    requires summed { Summed msb file.now sums.now }
    ensures { result ≡ is_fine (judged_words wide msb count (take (4 * n) (drop from file.now))) }
{
    if MOST < count as usize {
        return false;
    }
    between(file, msb, Kind::C32, from, n, sums) == count as u64
}

// Which of two kinds of two bytes.
fn narrow_kind(encoded: bool) -> Kind
    ensures { result ≡ narrow_by encoded }
{
    if encoded { Kind::CE16 } else { Kind::C16 }
}

// Whether n words of a C-16 or a CE-16 ping keep theirs, with a space behind them where there is one: then the number of samples counts
// the values before it.
fn count2(
    file: &[u8],
    msb: bool,
    encoded: bool,
    from: usize,
    n: usize,
    count: u32,
    sums: &[u64],
) -> bool
    requires from_value { (from % 4 ≡ 0) × (length file.now ≤ limit) }
    requires le_n { (1 ≤ n) × (from + 2 * n ≤ length file.now) }
    requires summed { Summed msb file.now sums.now }
    ensures { result ≡ is_fine (judged_words (words_by encoded) msb count (take (2 * n) (drop from file.now))) }
{
    if MOST < count as usize {
        return false;
    }
    let kind = narrow_kind(encoded);
    let before = between(file, msb, kind, from, n - 1, sums);
    if before == count as u64 {
        return true;
    }
    between(file, msb, kind, from, n, sums) == count as u64
}

// Whether the tuple at a place keeps the rules of its samples; one that is no ping has none.
fn keeps_inner(file: &[u8], at: usize, msb: bool, whole: usize, code: u16, sums: &[u64]) -> bool
    requires here { Here msb file.now at whole code }
    requires fits { Fits whole code }
    requires at_value { (at % 4 ≡ 0) × (length file.now ≤ limit) }
    requires summed { Summed msb file.now sums.now }
    ensures { result ≡ is_fine (inner_verdict msb (tup_at msb (drop at file.now))) }
{
    match code {
        types::PING_U => {
            rise(
                file,
                msb,
                Kind::Pairs,
                at + SAMPLES,
                whole - BESIDE_SAMPLES,
                sums,
            )
        }
        types::PING_C => {
            let count = order::read4(file, at + COUNT, msb);
            count4(
                file,
                msb,
                at + WORDS,
                (whole - BESIDE_WORDS) / 4,
                count,
                sums,
            )
        }
        types::PING_ANGLES => {
            rise(
                file,
                msb,
                Kind::Pairs,
                at + SAMPLES,
                whole - BESIDE_SAMPLES,
                sums,
            )
        }
        types::PING_U16 => {
            rise(
                file,
                msb,
                Kind::Shorts,
                at + SAMPLES,
                whole - BESIDE_SAMPLES,
                sums,
            )
        }
        types::PING_U16_ANGLES => {
            rise(
                file,
                msb,
                Kind::Triples,
                at + SAMPLES,
                whole - BESIDE_SAMPLES,
                sums,
            )
        }
        types::PING_C16 => {
            let count = order::read4(file, at + COUNT, msb);
            count2(
                file,
                msb,
                false,
                at + WORDS,
                (whole - BESIDE_WORDS) / 2,
                count,
                sums,
            )
        }
        types::PING_CE16 => {
            let count = order::read4(file, at + COUNT, msb);
            count2(
                file,
                msb,
                true,
                at + WORDS,
                (whole - BESIDE_WORDS) / 2,
                count,
                sums,
            )
        }
        _ => true,
    }
}

// Whether the tuple at a place keeps the rules that it keeps alone: what `intake::judge_alone` finds fine, found by the sums.
pub fn keeps_alone(file: &[u8], at: usize, msb: bool, sums: &[u64]) -> bool
    requires at_in_bounds { (at ≤ length file.now) × (length file.now ≤ limit) × (at % 4 ≡ 0) }
    requires summed { Summed msb file.now sums.now }
    ensures { result ≡ is_fine (alone msb (drop at file.now)) }
{
    if frame::judge_frame(file, at, msb).is_err() {
        return false;
    }
    let whole = frame::length_at(file, at, msb);
    let code = frame::kind_at(file, at, msb);
    intake::judge_head(file, at, msb, whole, code, code == types::SIGNATURE).is_ok()
        && keeps_inner(file, at, msb, whole, code, sums)
}
