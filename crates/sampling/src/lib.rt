// Sampling: the samples of a ping with values, one at a time, whatever its kind. A loop over them reads no sample twice and keeps none.
#![tactic(auto)]

ghost use Rattle.std.specs.Prelude.{◌≡◌, true, ◌+◌, ◌^◌, ◌≤◌, ◌<◌, length};
ghost use Rattle.layout.specs.Families.{wide};
ghost use Rattle.layout.specs.Types.{shape_of};
ghost use Rattle.samples.specs.inner.Narrow.{words_by};
ghost use Rattle.tuples.specs.Readers.{is_valued};
ghost use Rattle.pings.specs.inner.Handing.{SoundPart};
ghost use Rattle.sampling.specs.inner.Walking.{width_of, SpanOf, WordPassed, SteppedTo, WordValued, ValuedTo};

use layout::types;

// Where a ping's samples stand in its part, from its first byte to the one behind its last.
#[derive(Clone, Copy)]
pub struct Span {
    pub from: usize,
    pub end: usize,
}

// What stands at a place there: a sample with its number and its value, or none for a run of samples below threshold; and the number of
// what stands behind it.
#[derive(Clone, Copy)]
pub struct Stepped {
    pub sample: Option<(u32, i32)>,
    pub next: u32,
}

// Where the samples stand: all of an uncompressed ping's part; of a compressed one's its words, without the space behind them.
pub fn span_of(part: &[u8], msb: bool, code: u16) -> Span
    requires sound_part { SoundPart code msb part.now }
    requires code_value { is_valued code ≡ true }
    ensures { SpanOf code msb part.now result }
{
    match code {
        types::PING_U => Span {
            from: 0,
            end: part.len(),
        },
        types::PING_C => Span {
            from: pings::FIRST_WORD,
            end: part.len(),
        },
        types::PING_U16 => Span {
            from: 0,
            end: part.len(),
        },
        // C-16, CE-16
        _ => Span {
            from: pings::FIRST_WORD,
            end: pings::words_end(part, msb),
        },
    }
}

// The bytes of a sample, or of a word.
pub fn width_of(code: u16) -> usize
    requires { is_valued code ≡ true }
    ensures { (result ≡ width_of (shape_of code)) × (2 ≤ result) × (result ≤ 8) }
{
    match code {
        types::PING_U => samples::PAIR,
        types::PING_C => samples::WORD,
        types::PING_U16 => samples16::PAIR,
        // C-16, CE-16
        _ => samples16::WORD,
    }
}

// A word of four bytes at a sample's number.
fn wide_word(word: u32, number: u32) -> Stepped
    requires { number + 65536 < 2 ^ 32 }
    ensures { WordPassed wide word number result }
{
    if samples::is_run(word) {
        return Stepped {
            sample: None,
            next: number + samples::run_length(word),
        };
    }
    Stepped {
        sample: Some((number, order::signed4(word))),
        next: number + 1,
    }
}

// One of two bytes.
fn narrow_word(word: u16, number: u32, encoded: bool) -> Stepped
    requires { number + 65536 < 2 ^ 32 }
    ensures { WordPassed (words_by encoded) word number result }
{
    if samples16::is_run(word) {
        return Stepped {
            sample: None,
            next: number + samples16::run_length(word) as u32,
        };
    }
    Stepped {
        sample: Some((number, samples16::value_of(word, encoded))),
        next: number + 1,
    }
}

// What stands at a place of the bytes that hold samples. A compressed ping's word there stands at sample `number`, and `next` is the
// number behind it; an uncompressed ping's samples have numbers of their own, and `next` is the number handed over.
pub fn sample_at(held: &[u8], at: usize, number: u32, msb: bool, code: u16) -> Stepped
    requires code_value { is_valued code ≡ true }
    requires code_in_bounds { at + width_of (shape_of code) ≤ length held.now }
    requires number_bound { number + 65536 < 2 ^ 32 }
    ensures { SteppedTo code msb held.now at number result }
{
    match code {
        types::PING_U => Stepped {
            sample: Some((
                order::read4(held, at, msb),
                order::signed4(order::read4(held, at + samples::WORD, msb)),
            )),
            next: number,
        },
        types::PING_C => wide_word(order::read4(held, at, msb), number),
        types::PING_U16 => Stepped {
            sample: Some((
                order::read2(held, at, msb) as u32,
                order::signed2(order::read2(held, at + samples16::WORD, msb)) as i32,
            )),
            next: number,
        },
        types::PING_C16 => narrow_word(order::read2(held, at, msb), number, false),
        // CE-16
        _ => narrow_word(order::read2(held, at, msb), number, true),
    }
}

// A word of four bytes, whatever its number.
fn wide_value(word: u32) -> Option<i32>
    ensures { WordValued wide word result }
{
    (!samples::is_run(word)).then_some(order::signed4(word))
}

// One of two bytes.
fn narrow_value(word: u16, encoded: bool) -> Option<i32>
    ensures { WordValued (words_by encoded) word result }
{
    (!samples16::is_run(word)).then_some(samples16::value_of(word, encoded))
}

// The value that stands at a place of the bytes that hold samples, for those who add values up and ask for no numbers.
pub fn value_at(held: &[u8], at: usize, msb: bool, code: u16) -> Option<i32>
    requires code_value { is_valued code ≡ true }
    requires code_in_bounds { at + width_of (shape_of code) ≤ length held.now }
    ensures { ValuedTo code msb held.now at result }
{
    match code {
        types::PING_U => Some(order::signed4(order::read4(held, at + samples::WORD, msb))),
        types::PING_C => wide_value(order::read4(held, at, msb)),
        types::PING_U16 => Some(
            order::signed2(order::read2(held, at + samples16::WORD, msb)) as i32,
        ),
        types::PING_C16 => narrow_value(order::read2(held, at, msb), false),
        // CE-16
        _ => narrow_value(order::read2(held, at, msb), true),
    }
}
