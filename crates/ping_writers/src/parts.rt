// The parts that every ping has: what stands before its samples and behind them.
ghost use Rattle.std.specs.Prelude.{◌≡◌, ◌+◌, ◌-◌, ◌%◌, ◌^◌, ◌≤◌, ◌<◌, length, replicate};
ghost use Rattle.std.proofs.lemmas.List.Edits.{sets};
ghost use Rattle.order.specs.Order.{bytes_of, pattern_of};
ghost use Rattle.layout.specs.Types.{ping_row};
ghost use Rattle.turning.specs.Rows.{encode};
ghost use Rattle.frame.specs.inner.Framing.{opening_bytes, close_bytes};
ghost use Rattle.pings.specs.Headers.{head_of};

use frame::TAIL;
use pings::PingHeader;

// Writes a ping's header.
fn write_header(out: &mut [u8], msb: bool, header: PingHeader)
    requires { 24 ≤ length out.old }
    ensures { out.new ≡ sets out.old 6 (encode msb ping_row (head_of header)) }
{
    order::store2(out, PingHeader::TIME_FRACTION, msb, header.time_fraction);
    order::store4(out, PingHeader::TIME_CPU, msb, header.time_cpu);
    order::store2(
        out,
        PingHeader::SOFTWARE_CHANNEL_IDENTIFIER,
        msb,
        header.software_channel_identifier.0,
    );
    order::store2(
        out,
        PingHeader::TRANSMITTER_MODE,
        msb,
        header.transmitter_mode,
    );
    order::store4(out, PingHeader::PING_NUMBER, msb, header.ping_number);
    order::store4(
        out,
        PingHeader::DETECTED_BOTTOM_RANGE,
        msb,
        order::pattern4(header.detected_bottom_range),
    );
}

// Writes what stands before a ping's samples: size, type and header.
pub fn write_opening(out: &mut [u8], msb: bool, whole: usize, code: u16, header: PingHeader)
    requires in_bounds { 24 ≤ length out.old }
    requires le_whole { (10 ≤ whole) × (whole < 2 ^ 32) }
    ensures { out.new ≡ sets out.old 0 (opening_bytes msb whole code (encode msb ping_row (head_of header))) }
{
    frame::open_frame(out, 0, msb, whole, code);
    write_header(out, msb, header);
}

// Writes what stands before a compressed ping's words: there its number of samples is behind the header.
pub fn write_packed_opening(
    out: &mut [u8],
    msb: bool,
    whole: usize,
    code: u16,
    header: PingHeader,
    n: usize,
)
    requires in_bounds { 28 ≤ length out.old }
    requires le_whole { (10 ≤ whole) × (whole < 2 ^ 32) }
    requires n_bound { n < 2 ^ 32 }
    ensures { out.new ≡ sets (sets out.old 0 (opening_bytes msb whole code (encode msb ping_row (head_of header)))) 24
        (bytes_of msb 4 n) }
{
    write_opening(out, msb, whole, code, header);
    order::store4(out, samples::COUNT, msb, n as u32);
}

// Writes the space between the place where samples end and that of the attribute: two bytes, or none.
fn write_space(out: &mut [u8], msb: bool, end: usize, until: usize)
    requires end_le_until { (end ≤ until) × (until < end + 4) × ((until - end) % 2 ≡ 0) }
    requires until_in_bounds { until ≤ length out.old }
    ensures { out.new ≡ sets out.old end (replicate (until - end) 0) }
{
    if end == until {
        return;
    }
    order::store2(out, end, msb, 0);
}

// Writes what stands behind a ping's samples: the space, the attribute and the backlink.
pub fn write_closing(out: &mut [u8], msb: bool, end: usize, whole: usize, attribute: i32)
    requires end_bound { (end + 8 ≤ whole) × (whole < end + 12) × ((whole - 8 - end) % 2 ≡ 0) }
    requires whole_in_bounds { (whole ≤ length out.old) × (whole < 2 ^ 32) }
    ensures { out.new ≡ sets (sets out.old end (replicate (whole - 8 - end) 0)) (whole - 8)
        (close_bytes msb whole (pattern_of 4 attribute)) }
{
    write_space(out, msb, end, whole - TAIL);
    tuples::put_tail(out, msb, whole, attribute);
}
