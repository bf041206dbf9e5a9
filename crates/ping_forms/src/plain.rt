// The normal form of an uncompressed ping: its samples in LSB order, a space behind them 0.
ghost use Rattle.std.specs.Prelude.{◌≡◌, true, false, ◌+◌, ◌≤◌, length, drop};
ghost use Rattle.std.proofs.lemmas.List.Edits.{sets};
ghost use Rattle.layout.specs.Families.{narrow_angles};
ghost use Rattle.layout.specs.Types.{uncompressed, shape_of, lengths_u, fitting};
ghost use Rattle.layout.specs.inner.Codes.{family_of};
ghost use Rattle.frame.specs.Frames.{tup_at};
ghost use Rattle.samples.specs.Words.{all_samples, unsampled, spaced};
ghost use Rattle.content.specs.Forms.{form_bytes};
ghost use Rattle.intake.specs.inner.Sound.{SoundHere};

use crate::{close_form, open_ping};
use layout::types;
use samples16::TRIPLE;

// Writes the samples of a U-16-angles ping, and the space behind an odd number of them.
fn turn_triples(part: &[u8], msb: bool, out: &mut [u8], to: usize)
    requires part_in_bounds { to + length part.now ≤ length out.old }
    requires part_value { fitting (lengths_u narrow_angles) (length part.now + 32) ≡ true }
    ensures { out.new
        ≡ sets out.old to (spaced (unsampled narrow_angles false (all_samples narrow_angles msb part.now))) }
{
    let end = part.len() - part.len() % TRIPLE;
    spelling16::lsb::turn_words(&part[0..end], msb, out, to);
    if end < part.len() {
        order::store2(out, to + end, false, 0);
    }
}

// Writes the samples of a ping, by its type.
fn turn_samples(part: &[u8], msb: bool, code: u16, out: &mut [u8], to: usize)
    requires part_in_bounds { to + length part.now ≤ length out.old }
    requires code_value { shape_of code ≡ uncompressed (family_of code) }
    requires part_value { fitting (lengths_u (family_of code)) (length part.now + 32) ≡ true }
    ensures { out.new ≡ sets out.old to
        (spaced (unsampled (family_of code) false (all_samples (family_of code) msb part.now))) }
{
    match code {
        types::PING_U => spelling::lsb::turn_words(part, msb, out, to),
        types::PING_ANGLES => spelling16::lsb::turn_angles(part, msb, out, to),
        types::PING_U16 => spelling16::lsb::turn_words(part, msb, out, to),
        _ => turn_triples(part, msb, out, to),
    }
}

// Writes the form of an uncompressed ping.
pub fn write_form(
    file: &[u8],
    at: usize,
    msb: bool,
    whole: usize,
    code: u16,
    out: &mut [u8],
    to: usize,
)
    requires sound_here { SoundHere msb file.now at whole code }
    requires code_value { shape_of code ≡ uncompressed (family_of code) }
    requires whole_in_bounds { to + whole ≤ length out.old }
    ensures { out.new ≡ sets out.old to (form_bytes msb (tup_at msb (drop at file.now))) }
{
    let tail = whole - frame::TAIL;
    open_ping(file, at, msb, out, to, whole, code);
    turn_samples(
        &file[at + samples::SAMPLES..at + tail],
        msb,
        code,
        out,
        to + samples::SAMPLES,
    );
    close_form(file, at + tail, msb, out, to + tail, whole);
}
