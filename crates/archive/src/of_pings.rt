// Pings: fields, samples and angles read.
ghost use Rattle.std.specs.Prelude.{Ok, ◌≡◌, List, ℕ, ◌+◌, ◌≤◌, ℤ, length, get_or};
ghost use Rattle.std.proofs.lemmas.List.Edits.{sets};
ghost use Rattle.layout.specs.Answer.{Answer};
ghost use Rattle.pings.specs.Views.{as_ping};
ghost use Rattle.pings.specs.Fields.{ping_numbers, kind_number, length_numbers, read_fields, PingAt};
ghost use Rattle.pings.specs.Readers.{SamplesRead, AnglesRead};
ghost use Rattle.archive.specs.Saying.{head, Said, SaidAlone};
ghost use Rattle.archive.specs.Numbers.{five, told};

use super::{HEAD, tell_answer, tell_found, tell_refusal};
use layout::codes::Code;
use pings::{Ping, PingKind, PingLength};

// The kinds of ping by the numbers of include/hac.h, as C has them.
const U32: u64 = 0;

const C32: u64 = 1;

const U32_16_ANGLES: u64 = 2;

const U16: u64 = 3;

const U16_ANGLES: u64 = 4;

const C16: u64 = 5;

const CE16: u64 = 6;

// The entries of a ping's fields.
const PING: usize = HEAD + 11;

fn kind_number(kind: PingKind) -> u64
    ensures { result ≡ kind_number kind }
{
    match kind {
        PingKind::U32 => U32,
        PingKind::C32 => C32,
        PingKind::U32Angles => U32_16_ANGLES,
        PingKind::U16 => U16,
        PingKind::U16Angles => U16_ANGLES,
        PingKind::C16 => C16,
        PingKind::CE16 => CE16,
    }
}

// Whether a ping has a length, 1 or 0.
fn has_number(length: PingLength) -> u64
    ensures { result ≡ get_or (length_numbers length) 0 0 }
{
    match length {
        None => 0,
        Some(_) => 1,
    }
}

// Its length, or 0.
fn length_number(length: PingLength) -> u64
    ensures { result ≡ get_or (length_numbers length) 1 0 }
{
    match length {
        None => 0,
        Some(all) => u64::from(all),
    }
}

// Tells the fields of a ping.
fn tell_ping(answer: &mut [u64], ping: Ping) -> u8
    requires { head + 11 ≤ length answer.old }
    ensures value { result ≡ 0 }
    ensures answer_after { answer.new
        ≡ sets answer.old 0 (told ping_numbers read_fields (as_ping (Ok ping))) }
{
    let header = ping.header;
    let fields = [
        header.time_fraction as u64,
        header.time_cpu as u64,
        header.software_channel_identifier.0 as u64,
        header.transmitter_mode as u64,
        header.ping_number as u64,
        order::pattern4(header.detected_bottom_range) as u64,
        order::pattern4(ping.attribute) as u64,
        kind_number(ping.kind),
        ping.values as u64,
        has_number(ping.length),
        length_number(ping.length),
    ];
    tell_found(answer, layout::accept(1, 0), &fields)
}

#[unsafe(no_mangle)]
pub extern "C" fn hac_read_ping(file: &[u8], place: usize, answer: &mut [u64]) -> u8
    ensures { SaidAlone 11 (told ping_numbers read_fields) (PingAt file.now place)
        answer.old result answer.new }
{
    if answer.len() < PING {
        return Code::NoRoom as u8;
    }
    match pings::read_ping(file, place) {
        Ok(ping) => tell_ping(answer, ping),
        Err(refusal) => tell_refusal(answer, refusal),
    }
}

#[unsafe(no_mangle)]
pub extern "C" fn hac_read_samples(
    file: &[u8],
    place: usize,
    numbers: &mut [u32],
    values: &mut [i32],
    answer: &mut [u64],
) -> u8
    ensures { Said 0 five
        (λ (a : Answer) (m : List ℕ × List ℤ).
        SamplesRead file.now place numbers.old values.old a m.0 m.1)
        answer.old (numbers.old, values.old) result
        answer.new (numbers.new, values.new) }
{
    if answer.len() < HEAD {
        return Code::NoRoom as u8;
    }
    tell_answer(answer, pings::read_samples(file, place, numbers, values))
}

#[unsafe(no_mangle)]
pub extern "C" fn hac_read_angles(
    file: &[u8],
    place: usize,
    numbers: &mut [u32],
    alongship: &mut [i16],
    athwartship: &mut [i16],
    answer: &mut [u64],
) -> u8
    ensures { Said 0 five
        (λ (a : Answer) (m : List ℕ × List ℤ × List ℤ).
        AnglesRead file.now place numbers.old alongship.old athwartship.old a
        m.0 m.1 m.2)
        answer.old (numbers.old, alongship.old, athwartship.old) result
        answer.new (numbers.new, alongship.new, athwartship.new) }
{
    if answer.len() < HEAD {
        return Code::NoRoom as u8;
    }
    tell_answer(
        answer,
        pings::read_angles(file, place, numbers, alongship, athwartship),
    )
}
