// The normal form of a C-32 ping: packed where it has a length, else U-32.
ghost use Rattle.std.specs.Prelude.{◌≡◌, true, false, ◌+◌, ◌*◌, ◌≤◌, length, take, drop};
ghost use Rattle.std.proofs.lemmas.List.Edits.{sets};
ghost use Rattle.order.specs.Order.{num_of};
ghost use Rattle.frame.specs.Frames.{tup_at};
ghost use Rattle.samples.specs.Words.{all_words};
ghost use Rattle.samples.specs.Runs.{radix, ends_from};
ghost use Rattle.content.specs.Forms.{form_bytes};
ghost use Rattle.intake.specs.inner.Sound.{SoundHere};
ghost use Rattle.ping_forms.specs.inner.Parts.{part_at};
ghost use Rattle.ping_forms.specs.inner.Measured.{Measured};

use crate::{Form, close_form, open_ping};
use layout::types;
use samples::{PAIR, WORD};

// How many bytes it has, and its type. A ping with a length is measured by its words; any other counts its samples itself, so that they
// are not read.
pub fn measure_form(file: &[u8], at: usize, msb: bool, whole: usize) -> Form
    requires { SoundHere msb file.now at whole 10010 }
    ensures { Measured msb (tup_at msb (drop at file.now)) whole 10010 result }
{
    let tail = whole - frame::TAIL;
    let words = &file[at + samples::WORDS..at + tail];
    if samples::ends_in_run(words, msb) {
        return Form {
            bytes: samples::WORDS
                + WORD * spelling::packing::count_packed(words, msb)
                + frame::TAIL,
            code: types::PING_C,
        };
    }
    let count = order::read4(file, at + samples::COUNT, msb) as usize;
    Form {
        bytes: samples::SAMPLES + PAIR * count + frame::TAIL,
        code: types::PING_U,
    }
}

// Writes the form of a ping with a length: its words packed, then what stands behind them and before them; and says how many bytes it has.
fn write_packed(file: &[u8], at: usize, msb: bool, whole: usize, out: &mut [u8], to: usize) -> usize
    requires sound_here { SoundHere msb file.now at whole 10010 }
    requires whole_value { ends_from radix false (all_words 4 msb (part_at file.now at whole 28)) ≡ true }
    requires file_in_bounds { to + length (form_bytes msb (tup_at msb (drop at file.now))) ≤ length out.old }
    ensures value { result ≡ length (form_bytes msb (tup_at msb (drop at file.now))) }
    ensures out_after { out.new ≡ sets out.old to (form_bytes msb (tup_at msb (drop at file.now))) }
{
    let tail = whole - frame::TAIL;
    let words = &file[at + samples::WORDS..at + tail];
    let end = spelling::packing::pack_words(words, msb, out, to + samples::WORDS);
    let bytes = end - to + frame::TAIL;
    close_form(file, at + tail, msb, out, end, bytes);
    open_ping(file, at, msb, out, to, bytes, types::PING_C);
    let count = order::read4(file, at + samples::COUNT, msb);
    order::store4(out, to + samples::COUNT, false, count);
    bytes
}

// Writes the form of a ping without a length, of as many samples as it counts: U-32, each sample a pair.
fn write_sampled(
    file: &[u8],
    at: usize,
    msb: bool,
    whole: usize,
    bytes: usize,
    out: &mut [u8],
    to: usize,
)
    requires sound_here { SoundHere msb file.now at whole 10010 }
    requires whole_value { ends_from radix false (all_words 4 msb (part_at file.now at whole 28)) ≡ false }
    requires bytes_value { bytes ≡ 24 + 8 * num_of msb (take 4 (drop (at + 24) file.now)) + 8 }
    requires bytes_in_bounds { to + bytes ≤ length out.old }
    ensures { out.new ≡ sets out.old to (form_bytes msb (tup_at msb (drop at file.now))) }
{
    let tail = whole - frame::TAIL;
    let end = to + (bytes - frame::TAIL);
    open_ping(file, at, msb, out, to, bytes, types::PING_U);
    spelling::lsb::spread_words(
        &file[at + samples::WORDS..at + tail],
        msb,
        out,
        to + samples::SAMPLES,
        end,
    );
    close_form(file, at + tail, msb, out, end, bytes);
}

// Writes it, by whether it has a length, and says how many bytes it has.
pub fn write_form(
    file: &[u8],
    at: usize,
    msb: bool,
    whole: usize,
    out: &mut [u8],
    to: usize,
) -> usize
    requires sound_here { SoundHere msb file.now at whole 10010 }
    requires file_in_bounds { to + length (form_bytes msb (tup_at msb (drop at file.now))) ≤ length out.old }
    ensures value { result ≡ length (form_bytes msb (tup_at msb (drop at file.now))) }
    ensures out_after { out.new ≡ sets out.old to (form_bytes msb (tup_at msb (drop at file.now))) }
{
    let tail = whole - frame::TAIL;
    if samples::ends_in_run(&file[at + samples::WORDS..at + tail], msb) {
        return write_packed(file, at, msb, whole, out, to);
    }
    let count = order::read4(file, at + samples::COUNT, msb) as usize;
    let bytes = samples::SAMPLES + PAIR * count + frame::TAIL;
    write_sampled(file, at, msb, whole, bytes, out, to);
    bytes
}
