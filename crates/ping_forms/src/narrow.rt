// The normal form of a C-16 or a CE-16 ping: packed; but a C-16 ping that U-16 can say is U-16.
ghost use Rattle.std.specs.Prelude.{◌≡◌, true, false, ◌+◌, ◌*◌, ◌%◌, ◌≤◌, length, drop, replicate};
ghost use Rattle.std.proofs.lemmas.List.Edits.{sets};
ghost use Rattle.frame.specs.Frames.{tup_at};
ghost use Rattle.layout.specs.Families.{narrow, type_c};
ghost use Rattle.samples.specs.Words.{all_words};
ghost use Rattle.samples.specs.inner.Narrow.{words_by};
ghost use Rattle.content.specs.Forms.{form_bytes};
ghost use Rattle.intake.specs.inner.Sound.{SoundHere};
ghost use Rattle.ping_forms.specs.inner.Parts.{held_at, count_at, WordsEnd, stays, stays_by};
ghost use Rattle.ping_forms.specs.inner.Measured.{Measured};

use crate::{Form, close_form, open_ping};
use layout::types;
use samples16::{PAIR, WORD};

// The samples that numbers of two bytes can say.
const NUMBERED: u32 = 65_536;

// What follows words stands at a multiple of this.
const WORDS_FILL: usize = 4;

// Where the words of a ping end, counted from its first byte: a space behind them is none.
fn words_end(file: &[u8], at: usize, msb: bool, whole: usize, encoded: bool) -> usize
    requires { SoundHere msb file.now at whole (type_c (words_by encoded)) }
    ensures { WordsEnd (words_by encoded) msb file.now at whole result }
{
    let words = &file[at + samples::WORDS..at + (whole - frame::TAIL)];
    let count = order::read4(file, at + samples::COUNT, msb);
    samples::WORDS + samples16::held(words, msb, count)
}

// The type of a ping whose words are encoded, or not.
fn type_of(encoded: bool) -> u16
    ensures { result ≡ type_c (words_by encoded) }
{
    if encoded {
        types::PING_CE16
    } else {
        types::PING_C16
    }
}

// Whether a ping of these words stays compressed.
fn stays_packed(words: &[u8], msb: bool, encoded: bool) -> bool
    requires in_bounds { 2 ≤ length words.now }
    requires words_len { length words.now % 2 ≡ 0 }
    requires words_len_bound { length words.now ≤ 262108 }
    ensures { result ≡ stays_by encoded (all_words 2 msb words.now) }
{
    if encoded {
        return true;
    }
    if samples16::ends_in_run(words, msb) {
        return true;
    }
    NUMBERED < samples16::count_samples(words, msb)
}

// How many bytes it has, and its type.
pub fn measure_form(file: &[u8], at: usize, msb: bool, whole: usize, encoded: bool) -> Form
    requires { SoundHere msb file.now at whole (type_c (words_by encoded)) }
    ensures { Measured msb (tup_at msb (drop at file.now)) whole (type_c (words_by encoded)) result }
{
    let end = words_end(file, at, msb, whole, encoded);
    let words = &file[at + samples::WORDS..at + end];
    if stays_packed(words, msb, encoded) {
        let bytes = WORD * spelling16::packing::count_packed(words, msb);
        return Form {
            bytes: samples::WORDS + (bytes + bytes % WORDS_FILL) + frame::TAIL,
            code: type_of(encoded),
        };
    }
    let count = order::read4(file, at + samples::COUNT, msb) as usize;
    Form {
        bytes: samples::SAMPLES + PAIR * count + frame::TAIL,
        code: types::PING_U16,
    }
}

// Writes a space behind so many bytes, where what follows would stand at no multiple of 4; the place behind it.
fn put_space(out: &mut [u8], at: usize, bytes: usize) -> usize
    requires bytes_in_bounds { at + bytes % 4 ≤ length out.old }
    requires bytes_value { bytes % 2 ≡ 0 }
    ensures value { result ≡ at + bytes % 4 }
    ensures out_after { out.new ≡ sets out.old at (replicate (bytes % 4) 0) }
{
    if bytes % WORDS_FILL == 0 {
        return at;
    }
    order::store2(out, at, false, 0);
    at + WORD
}

// Writes the form of a ping that stays compressed: its words packed, a space where one is needed, then what stands behind them and
// before them; and says how many bytes it has.
fn write_packed(
    file: &[u8],
    at: usize,
    msb: bool,
    whole: usize,
    encoded: bool,
    end: usize,
    out: &mut [u8],
    to: usize,
) -> usize
    requires sound_here { SoundHere msb file.now at whole (type_c (words_by encoded)) }
    requires words_end { WordsEnd (words_by encoded) msb file.now at whole end }
    requires whole_value { stays_by encoded (held_at (words_by encoded) msb file.now at whole) ≡ true }
    requires file_in_bounds { to + length (form_bytes msb (tup_at msb (drop at file.now))) ≤ length out.old }
    ensures value { result ≡ length (form_bytes msb (tup_at msb (drop at file.now))) }
    ensures out_after { out.new ≡ sets out.old to (form_bytes msb (tup_at msb (drop at file.now))) }
{
    let words = &file[at + samples::WORDS..at + end];
    let behind = spelling16::packing::pack_words(words, msb, out, to + samples::WORDS);
    let tail = put_space(out, behind, behind - (to + samples::WORDS));
    let bytes = tail - to + frame::TAIL;
    close_form(file, at + (whole - frame::TAIL), msb, out, tail, bytes);
    open_ping(file, at, msb, out, to, bytes, type_of(encoded));
    let count = order::read4(file, at + samples::COUNT, msb);
    order::store4(out, to + samples::COUNT, false, count);
    bytes
}

// Writes the form of a C-16 ping that U-16 can say, of as many samples as it counts.
fn write_sampled(
    file: &[u8],
    at: usize,
    msb: bool,
    whole: usize,
    end: usize,
    bytes: usize,
    out: &mut [u8],
    to: usize,
)
    requires sound_here { SoundHere msb file.now at whole 10040 }
    requires words_end { WordsEnd narrow msb file.now at whole end }
    requires whole_value { stays narrow (held_at narrow msb file.now at whole) ≡ false }
    requires bytes_value { bytes ≡ 24 + 4 * count_at msb file.now at + 8 }
    requires bytes_in_bounds { to + bytes ≤ length out.old }
    ensures { out.new ≡ sets out.old to (form_bytes msb (tup_at msb (drop at file.now))) }
{
    let words = &file[at + samples::WORDS..at + end];
    let tail = to + (bytes - frame::TAIL);
    open_ping(file, at, msb, out, to, bytes, types::PING_U16);
    spelling16::lsb::spread_words(words, msb, out, to + samples::SAMPLES, tail);
    close_form(file, at + (whole - frame::TAIL), msb, out, tail, bytes);
}

// Writes it, by whether it stays compressed, and says how many bytes it has.
pub fn write_form(
    file: &[u8],
    at: usize,
    msb: bool,
    whole: usize,
    encoded: bool,
    out: &mut [u8],
    to: usize,
) -> usize
    requires sound_here { SoundHere msb file.now at whole (type_c (words_by encoded)) }
    requires file_in_bounds { to + length (form_bytes msb (tup_at msb (drop at file.now))) ≤ length out.old }
    ensures value { result ≡ length (form_bytes msb (tup_at msb (drop at file.now))) }
    ensures out_after { out.new ≡ sets out.old to (form_bytes msb (tup_at msb (drop at file.now))) }
{
    let end = words_end(file, at, msb, whole, encoded);
    if stays_packed(&file[at + samples::WORDS..at + end], msb, encoded) {
        return write_packed(file, at, msb, whole, encoded, end, out, to);
    }
    let count = order::read4(file, at + samples::COUNT, msb) as usize;
    let bytes = samples::SAMPLES + PAIR * count + frame::TAIL;
    write_sampled(file, at, msb, whole, end, bytes, out, to);
    bytes
}
