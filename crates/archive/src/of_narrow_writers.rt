// Pings of 16 bits written: U-16, U-16-angles, C-16 and CE-16.
ghost use Rattle.layout.specs.Families.{narrow, encoded, narrow_angles};
ghost use Rattle.ping_writers.specs.Writers.{WrittenU, WrittenC, WrittenA};
ghost use Rattle.archive.specs.Saying.{Said};
ghost use Rattle.archive.specs.Numbers.{five, header_with, handed_by};

use super::{HEAD, handed, tell_answer};
use layout::codes::Code;

#[unsafe(no_mangle)]
pub extern "C" fn hac_write_u16(
    time_fraction: u16,
    time_cpu: u32,
    software_channel_identifier: u16,
    transmitter_mode: u16,
    ping_number: u32,
    detected_bottom_range: i32,
    tuple_attribute: i32,
    numbers: &[u16],
    values: &[i16],
    msb: bool,
    out: &mut [u8],
    answer: &mut [u64],
) -> u8
    ensures { Said 0 five
        (WrittenU narrow msb
        (header_with time_fraction time_cpu software_channel_identifier transmitter_mode ping_number detected_bottom_range)
        tuple_attribute numbers.now values.now out.old)
        answer.old out.old result answer.new out.new }
{
    if answer.len() < HEAD {
        return Code::NoRoom as u8;
    }
    let header = handed::header_of(
        time_fraction,
        time_cpu,
        software_channel_identifier,
        transmitter_mode,
        ping_number,
        detected_bottom_range,
    );
    tell_answer(
        answer,
        ping_writers::write_u16(header, tuple_attribute, numbers, values, msb, out),
    )
}

#[unsafe(no_mangle)]
pub extern "C" fn hac_write_u16_angles(
    time_fraction: u16,
    time_cpu: u32,
    software_channel_identifier: u16,
    transmitter_mode: u16,
    ping_number: u32,
    detected_bottom_range: i32,
    tuple_attribute: i32,
    numbers: &[u16],
    alongship: &[i16],
    athwartship: &[i16],
    msb: bool,
    out: &mut [u8],
    answer: &mut [u64],
) -> u8
    ensures { Said 0 five
        (WrittenA narrow_angles msb
        (header_with time_fraction time_cpu software_channel_identifier transmitter_mode ping_number detected_bottom_range)
        tuple_attribute numbers.now alongship.now athwartship.now out.old)
        answer.old out.old result answer.new out.new }
{
    if answer.len() < HEAD {
        return Code::NoRoom as u8;
    }
    let header = handed::header_of(
        time_fraction,
        time_cpu,
        software_channel_identifier,
        transmitter_mode,
        ping_number,
        detected_bottom_range,
    );
    tell_answer(
        answer,
        ping_writers::write_u16_angles(
            header,
            tuple_attribute,
            numbers,
            alongship,
            athwartship,
            msb,
            out,
        ),
    )
}

#[unsafe(no_mangle)]
pub extern "C" fn hac_write_c16(
    time_fraction: u16,
    time_cpu: u32,
    software_channel_identifier: u16,
    transmitter_mode: u16,
    ping_number: u32,
    detected_bottom_range: i32,
    tuple_attribute: i32,
    numbers: &[u32],
    values: &[i16],
    has_length: bool,
    ping_length: u32,
    msb: bool,
    out: &mut [u8],
    answer: &mut [u64],
) -> u8
    ensures { Said 0 five
        (WrittenC narrow msb
        (header_with time_fraction time_cpu software_channel_identifier transmitter_mode ping_number detected_bottom_range)
        tuple_attribute numbers.now values.now (handed_by has_length ping_length) out.old)
        answer.old out.old result answer.new out.new }
{
    if answer.len() < HEAD {
        return Code::NoRoom as u8;
    }
    let header = handed::header_of(
        time_fraction,
        time_cpu,
        software_channel_identifier,
        transmitter_mode,
        ping_number,
        detected_bottom_range,
    );
    let length = handed::handed_length(has_length, ping_length);
    tell_answer(
        answer,
        ping_writers::write_c16(header, tuple_attribute, numbers, values, length, msb, out),
    )
}

#[unsafe(no_mangle)]
pub extern "C" fn hac_write_ce16(
    time_fraction: u16,
    time_cpu: u32,
    software_channel_identifier: u16,
    transmitter_mode: u16,
    ping_number: u32,
    detected_bottom_range: i32,
    tuple_attribute: i32,
    numbers: &[u32],
    values: &[i32],
    has_length: bool,
    ping_length: u32,
    msb: bool,
    out: &mut [u8],
    answer: &mut [u64],
) -> u8
    ensures { Said 0 five
        (WrittenC encoded msb
        (header_with time_fraction time_cpu software_channel_identifier transmitter_mode ping_number detected_bottom_range)
        tuple_attribute numbers.now values.now (handed_by has_length ping_length) out.old)
        answer.old out.old result answer.new out.new }
{
    if answer.len() < HEAD {
        return Code::NoRoom as u8;
    }
    let header = handed::header_of(
        time_fraction,
        time_cpu,
        software_channel_identifier,
        transmitter_mode,
        ping_number,
        detected_bottom_range,
    );
    let length = handed::handed_length(has_length, ping_length);
    tell_answer(
        answer,
        ping_writers::write_ce16(header, tuple_attribute, numbers, values, length, msb, out),
    )
}
