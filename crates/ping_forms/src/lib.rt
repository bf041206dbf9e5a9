// Ping forms: the normal form of a ping, measured and written: of the 32-bit family in `wide`, of words of two bytes in `narrow`.
#![tactic(auto)]

pub mod narrow;
pub mod plain;
pub mod wide;

ghost use Rattle.std.specs.Prelude.{◌≡◌, true, false, ◌+◌, ◌^◌, ◌≤◌, ◌<◌, length, take, drop};
ghost use Rattle.std.proofs.lemmas.List.Edits.{sets};
ghost use Rattle.order.specs.Order.{num_of};
ghost use Rattle.layout.specs.Types.{ping_row, shape_of};
ghost use Rattle.layout.specs.inner.Codes.{has_words};
ghost use Rattle.turning.specs.Rows.{turned};
ghost use Rattle.frame.specs.Frames.{tup_at};
ghost use Rattle.frame.specs.inner.Framing.{opening_bytes, close_bytes};
ghost use Rattle.content.specs.Forms.{form_bytes};
ghost use Rattle.intake.specs.inner.Sound.{SoundHere};
ghost use Rattle.ping_forms.specs.inner.Measured.{Measured};

use frame::DATA;
use layout::{FIELDS, types};

// What is measured of a tuple's normal form: its bytes and its type.
#[derive(Clone, Copy)]
pub struct Form {
    pub bytes: usize,
    pub code: u16,
}

// The listing of the U-32 ping, whose row is the header of every ping.
const HEADER: usize = 10;

// Writes what stands before a ping's samples: size, type and header.
fn open_ping(file: &[u8], at: usize, msb: bool, out: &mut [u8], to: usize, bytes: usize, code: u16)
    requires at_in_bounds { at + 24 ≤ length file.now }
    requires to_in_bounds { to + 24 ≤ length out.old }
    requires le_bytes { (10 ≤ bytes) × (bytes < 2 ^ 32) }
    ensures { out.new ≡ sets out.old to
        (opening_bytes false bytes code (turned msb ping_row (drop (at + 6) file.now))) }
{
    frame::open_frame(out, to, false, bytes, code);
    turning::turn_row(
        file,
        at + DATA,
        msb,
        &layout::row(HEADER)[0..FIELDS[HEADER]],
        out,
        to + DATA,
    );
}

// Writes what stands behind a form's characters or samples: the attribute, from its place in the file, and the backlink.
pub fn close_form(file: &[u8], from: usize, msb: bool, out: &mut [u8], to: usize, bytes: usize)
    requires from_in_bounds { from + 4 ≤ length file.now }
    requires to_in_bounds { to + 8 ≤ length out.old }
    requires bytes_bound { bytes < 2 ^ 32 }
    ensures { out.new ≡ sets out.old to (close_bytes false bytes (num_of msb (take 4 (drop from file.now)))) }
{
    frame::close_frame(out, to, false, bytes, order::read4(file, from, msb));
}

// Whether the samples of a type are words.
pub fn is_compressed(code: u16) -> bool
    ensures { result ≡ has_words (shape_of code) }
{
    match code {
        types::PING_C => true,
        types::PING_C16 => true,
        types::PING_CE16 => true,
        _ => false,
    }
}

// How many bytes the normal form of a compressed ping has, and its type.
pub fn measure_compressed(file: &[u8], at: usize, msb: bool, whole: usize, code: u16) -> Form
    requires sound_here { SoundHere msb file.now at whole code }
    requires code_value { has_words (shape_of code) ≡ true }
    ensures { Measured msb (tup_at msb (drop at file.now)) whole code result }
{
    match code {
        types::PING_C => wide::measure_form(file, at, msb, whole),
        types::PING_C16 => narrow::measure_form(file, at, msb, whole, false),
        _ => narrow::measure_form(file, at, msb, whole, true),
    }
}

// Writes it, and says how many bytes it has.
pub fn write_compressed(
    file: &[u8],
    at: usize,
    msb: bool,
    whole: usize,
    code: u16,
    out: &mut [u8],
    to: usize,
) -> usize
    requires sound_here { SoundHere msb file.now at whole code }
    requires code_value { has_words (shape_of code) ≡ true }
    requires file_in_bounds { to + length (form_bytes msb (tup_at msb (drop at file.now))) ≤ length out.old }
    ensures value { result ≡ length (form_bytes msb (tup_at msb (drop at file.now))) }
    ensures out_after { out.new ≡ sets out.old to (form_bytes msb (tup_at msb (drop at file.now))) }
{
    match code {
        types::PING_C => wide::write_form(file, at, msb, whole, out, to),
        types::PING_C16 => narrow::write_form(file, at, msb, whole, false, out, to),
        _ => narrow::write_form(file, at, msb, whole, true, out, to),
    }
}
