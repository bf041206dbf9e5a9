// Pings: reading a listed ping's fields, samples and angles at any place of any file; `ping_writers` writes pings. What is the own of each
// type stands in its module.
#![tactic(auto)]

pub mod of_c16;
pub mod of_ce16;
pub mod of_pairs;
pub mod of_u16;
pub mod of_u16_angles;
pub mod of_u32_16_angles;
pub mod of_words;

ghost use Rattle.std.specs.Prelude.{◌≡◌, Ok, true, ◌+◌, ◌-◌, ◌%◌, ◌≤◌, length, take, drop};
ghost use Rattle.std.proofs.lemmas.List.Edits.{sets};
ghost use Rattle.samples.specs.Words.{all_words};
ghost use Rattle.samples.specs.Lists.{numbers_of, values_of, alongship_of, athwartship_of};
ghost use Rattle.samples.specs.Runs.{radix, ping_length};
ghost use Rattle.samples.specs.inner.Lists.{Room};
ghost use Rattle.samples.specs.inner.Narrow.{AngleRoom};
ghost use Rattle.layout.specs.Views.{as_answer};
ghost use Rattle.layout.specs.Families.{wide, narrow};
ghost use Rattle.layout.specs.Types.{ping_row, shape_of, is_ping};
ghost use Rattle.rows.specs.Places.{places_from};
ghost use Rattle.turning.specs.Rows;
ghost use Rattle.tuples.specs.Readers.{is_valued, is_angled};
ghost use Rattle.tuples.specs.inner.Opening.{Readable};
ghost use Rattle.pings.specs.Headers.{told_length};
ghost use Rattle.pings.specs.Readers.{SamplesRead, AnglesRead};
ghost use Rattle.pings.specs.Views.{as_ping};
ghost use Rattle.pings.specs.Fields.{header_of, kind_of_ping, ping_fields, PingAt};
ghost use Rattle.pings.specs.inner.Handing.{part_words, part_samples, part_length, part_width, SoundPart, Handed, HandedAngles};

use layout::codes::Code;
use layout::{Answer, Refusal, SoftwareChannel, types};

// Where words stand in what is behind a header: behind the number of samples.
pub const FIRST_WORD: usize = samples::WORDS - samples::SAMPLES;

// The fields before a ping's samples: TR Tables 6 and 19 to 24.
#[derive(Clone, Copy)]
pub struct PingHeader {
    pub time_fraction: u16,
    pub time_cpu: u32,
    pub software_channel_identifier: SoftwareChannel,
    pub transmitter_mode: u16,
    pub ping_number: u32,
    pub detected_bottom_range: i32,
}

impl PingHeader {
    // Where the fields stand, in bytes from the tuple's first.
    pub const TIME_FRACTION: usize = 6;

    pub const TIME_CPU: usize = 8;

    pub const SOFTWARE_CHANNEL_IDENTIFIER: usize = 12;

    pub const TRANSMITTER_MODE: usize = 14;

    pub const PING_NUMBER: usize = 16;

    pub const DETECTED_BOTTOM_RANGE: usize = 20;

    // These in the row's order.
    pub fn places() -> [usize; 6]
        ensures { result ≡ places_from ping_row 6 }
    {
        [
            PingHeader::TIME_FRACTION,
            PingHeader::TIME_CPU,
            PingHeader::SOFTWARE_CHANNEL_IDENTIFIER,
            PingHeader::TRANSMITTER_MODE,
            PingHeader::PING_NUMBER,
            PingHeader::DETECTED_BOTTOM_RANGE,
        ]
    }
}

// The ways in which a ping's samples are stored.
#[derive(Clone, Copy)]
pub enum PingKind {
    U32,
    C32,
    U32Angles,
    U16,
    U16Angles,
    C16,
    CE16,
}

// A ping's length, where it ends in a run: how many samples it has, runs counted. Any other ping has none.
pub type PingLength = Option<u32>;

// What a ping's fields are: its header, attribute, kind, number of values and length.
#[derive(Clone, Copy)]
pub struct Ping {
    pub header: PingHeader,
    pub attribute: i32,
    pub kind: PingKind,
    pub values: usize,
    pub length: PingLength,
}

// What reading a ping's fields gives: these, or a refusal.
pub type PingRead = Result<Ping, Refusal>;

// ---- what stands between a ping's header and its attribute, its part
// How many of its samples have values, or angles: a compressed ping's number of samples says it, of any other ping its bytes.
fn count_values(part: &[u8], msb: bool, code: u16) -> usize
    requires { SoundPart code msb part.now }
    ensures { result ≡ length (part_samples (shape_of code) msb part.now) }
{
    match code {
        types::PING_U => part.len() / samples::PAIR,
        types::PING_ANGLES => part.len() / samples::PAIR,
        types::PING_U16 => part.len() / samples16::PAIR,
        types::PING_U16_ANGLES => part.len() / samples16::TRIPLE,
        // C-32, C-16, CE-16
        _ => order::read4(part, 0, msb) as usize,
    }
}

// Where the words of a C-16 or a CE-16 ping end in its part: a space behind them is none.
pub fn words_end(part: &[u8], msb: bool) -> usize
    requires { (8 ≤ length part.now) × (length part.now % 4 ≡ 0) × (length part.now ≤ 262112) }
    ensures part_value { all_words 2 msb (take (result - 4) (drop 4 part.now)) ≡ part_words narrow msb part.now }
    ensures lower_bound { (6 ≤ result) × (result ≤ length part.now) × (result % 2 ≡ 0) }
{
    let count = order::read4(part, 0, msb);
    FIRST_WORD + samples16::held(&part[FIRST_WORD..part.len()], msb, count)
}

// ---- samples
// Reads the samples of a part into slices that have room for them.
fn take_samples(part: &[u8], msb: bool, code: u16, numbers: &mut [u32], values: &mut [i32])
    requires sound_part { SoundPart code msb part.now }
    requires code_value { is_valued code ≡ true }
    requires room { Room (part_samples (shape_of code) msb part.now) numbers.old values.old }
    ensures numbers_after { numbers.new ≡ sets numbers.old 0 (numbers_of (part_samples (shape_of code) msb part.now)) }
    ensures values_after { values.new ≡ sets values.old 0
        (values_of (part_width (shape_of code)) (part_samples (shape_of code) msb part.now)) }
{
    match code {
        types::PING_U => samples::read_pairs(part, msb, numbers, values),
        types::PING_C => {
            samples::read_words(&part[FIRST_WORD..part.len()], msb, numbers, values)
        }
        types::PING_U16 => samples16::read_samples(part, msb, numbers, values),
        types::PING_C16 => {
            let end = words_end(part, msb);
            samples16::read_words(&part[FIRST_WORD..end], msb, false, numbers, values)
        }
        // CE-16
        _ => {
            let end = words_end(part, msb);
            samples16::read_words(&part[FIRST_WORD..end], msb, true, numbers, values)
        }
    }
}

// Hands over the samples of a part; 19 where either slice is short.
fn hand_samples(
    part: &[u8],
    msb: bool,
    code: u16,
    numbers: &mut [u32],
    values: &mut [i32],
) -> Answer
    requires sound_part { SoundPart code msb part.now }
    requires code_value { is_valued code ≡ true }
    ensures { Handed (part_width (shape_of code)) (part_samples (shape_of code) msb part.now) numbers.old
        values.old (as_answer result) numbers.new values.new }
{
    let n = count_values(part, msb, code);
    if numbers.len() < n {
        return layout::refuse(Code::NoRoom, 0);
    }
    if values.len() < n {
        return layout::refuse(Code::NoRoom, 0);
    }
    take_samples(part, msb, code, numbers, values);
    layout::accept(1, n)
}

// Reads a listed ping's samples into two lent slices: numbers and signed values, one entry a sample; 9 for a ping with angles.
pub fn read_samples(file: &[u8], place: usize, numbers: &mut [u32], values: &mut [i32]) -> Answer
    ensures { SamplesRead file.now place numbers.old values.old (as_answer result) numbers.new
        values.new }
{
    let found = tuples::open_valued(file, place)?;
    let part = &file[place + samples::SAMPLES..place + found.whole - frame::TAIL];
    hand_samples(part, found.msb, found.code, numbers, values)
}

// ---- angles
// Reads the angles of a part into slices that have room for them.
fn take_angles(
    part: &[u8],
    msb: bool,
    code: u16,
    numbers: &mut [u32],
    alongship: &mut [i16],
    athwartship: &mut [i16],
)
    requires code_value { is_angled code ≡ true }
    requires angle_room { AngleRoom (part_samples (shape_of code) msb part.now) numbers.old alongship.old athwartship.old }
    ensures numbers_after { numbers.new ≡ sets numbers.old 0 (numbers_of (part_samples (shape_of code) msb part.now)) }
    ensures alongship_after { alongship.new ≡ sets alongship.old 0 (alongship_of (part_samples (shape_of code) msb part.now)) }
    ensures athwartship_after { athwartship.new ≡ sets athwartship.old 0
        (athwartship_of (part_samples (shape_of code) msb part.now)) }
{
    match code {
        types::PING_ANGLES => {
            samples16::angles::read_wide(part, msb, numbers, alongship, athwartship)
        }
        // U-16-angles
        _ => samples16::angles::read_narrow(part, msb, numbers, alongship, athwartship),
    }
}

// Hands over the angles of a part; 19 where one of the slices is short.
fn hand_angles(
    part: &[u8],
    msb: bool,
    code: u16,
    numbers: &mut [u32],
    alongship: &mut [i16],
    athwartship: &mut [i16],
) -> Answer
    requires sound_part { SoundPart code msb part.now }
    requires code_value { is_angled code ≡ true }
    ensures { HandedAngles (part_samples (shape_of code) msb part.now) numbers.old alongship.old
        athwartship.old (as_answer result) numbers.new alongship.new athwartship.new }
{
    let n = count_values(part, msb, code);
    if numbers.len() < n {
        return layout::refuse(Code::NoRoom, 0);
    }
    if alongship.len() < n {
        return layout::refuse(Code::NoRoom, 0);
    }
    if athwartship.len() < n {
        return layout::refuse(Code::NoRoom, 0);
    }
    take_angles(part, msb, code, numbers, alongship, athwartship);
    layout::accept(1, n)
}

// Reads the angles of a listed ping that has angles into three lent slices: numbers, and the angles alongship and athwartship, one entry
// a sample; 9 for a ping with values.
pub fn read_angles(
    file: &[u8],
    place: usize,
    numbers: &mut [u32],
    alongship: &mut [i16],
    athwartship: &mut [i16],
) -> Answer
    ensures { AnglesRead file.now place numbers.old alongship.old athwartship.old (as_answer result)
        numbers.new alongship.new athwartship.new }
{
    let found = tuples::open_angled(file, place)?;
    let part = &file[place + samples::SAMPLES..place + found.whole - frame::TAIL];
    hand_angles(part, found.msb, found.code, numbers, alongship, athwartship)
}

// ---- fields
// The header of the ping at a place.
fn header_at(file: &[u8], place: usize, msb: bool) -> PingHeader
    requires { place + 24 ≤ length file.now }
    ensures { result ≡ header_of (Rows.values_of msb ping_row (drop (place + 6) file.now)) }
{
    PingHeader {
        time_fraction: order::read2(file, place + PingHeader::TIME_FRACTION, msb),
        time_cpu: order::read4(file, place + PingHeader::TIME_CPU, msb),
        software_channel_identifier: SoftwareChannel(order::read2(
            file,
            place + PingHeader::SOFTWARE_CHANNEL_IDENTIFIER,
            msb,
        )),
        transmitter_mode: order::read2(file, place + PingHeader::TRANSMITTER_MODE, msb),
        ping_number: order::read4(file, place + PingHeader::PING_NUMBER, msb),
        detected_bottom_range: tuples::signed4_at(
            file,
            place + PingHeader::DETECTED_BOTTOM_RANGE,
            msb,
        ),
    }
}

// The kind of a listed ping.
fn kind_of(code: u16) -> PingKind
    requires { is_ping code ≡ true }
    ensures { result ≡ kind_of_ping code }
{
    match code {
        types::PING_U => PingKind::U32,
        types::PING_C => PingKind::C32,
        types::PING_ANGLES => PingKind::U32Angles,
        types::PING_U16 => PingKind::U16,
        types::PING_U16_ANGLES => PingKind::U16Angles,
        types::PING_C16 => PingKind::C16,
        _ => PingKind::CE16,
    }
}

// The length of a C-32 ping by its part.
fn length_of(part: &[u8], msb: bool) -> PingLength
    requires { (8 ≤ length part.now) × (length part.now % 4 ≡ 0) × (length part.now ≤ 262112) }
    ensures { result ≡ told_length (ping_length radix (part_words wide msb part.now)) }
{
    let words = &part[FIRST_WORD..part.len()];
    if samples::ends_in_run(words, msb) {
        return Some(samples::count_samples(words, msb));
    }
    None
}

// The same of a C-16 or a CE-16 ping.
fn length_of16(part: &[u8], msb: bool) -> PingLength
    requires { (8 ≤ length part.now) × (length part.now % 4 ≡ 0) × (length part.now ≤ 262112) }
    ensures { result ≡ told_length (ping_length 256 (part_words narrow msb part.now)) }
{
    let end = words_end(part, msb);
    let words = &part[FIRST_WORD..end];
    if samples16::ends_in_run(words, msb) {
        return Some(samples16::count_samples(words, msb));
    }
    None
}

// The length of a ping by its part: an uncompressed one has none.
fn length_by(part: &[u8], msb: bool, code: u16) -> PingLength
    requires { SoundPart code msb part.now }
    ensures { result ≡ told_length (part_length (shape_of code) msb part.now) }
{
    match code {
        types::PING_C => length_of(part, msb),
        types::PING_C16 => length_of16(part, msb),
        types::PING_CE16 => length_of16(part, msb),
        _ => None,
    }
}

// The fields of a ping that keeps its own rules.
fn fields_at(file: &[u8], place: usize, msb: bool, whole: usize, code: u16) -> Ping
    requires { Readable is_ping file.now place msb whole code }
    ensures { as_ping (Ok result) ≡ ping_fields file.now place }
{
    let end = place + whole - frame::TAIL;
    let part = &file[place + samples::SAMPLES..end];
    Ping {
        header: header_at(file, place, msb),
        attribute: tuples::signed4_at(file, end, msb),
        kind: kind_of(code),
        values: count_values(part, msb, code),
        length: length_by(part, msb, code),
    }
}

// Reads a listed ping's fields: what the reader of its samples or angles would refuse is refused here too.
pub fn read_ping(file: &[u8], place: usize) -> PingRead
    ensures { PingAt file.now place (as_ping result) }
{
    let found = tuples::open_ping(file, place)?;
    Ok(fields_at(file, place, found.msb, found.whole, found.code))
}
