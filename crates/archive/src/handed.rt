// What a ping writer is handed apart: the fields of a header, and whether there is a length.
ghost use Rattle.std.specs.Prelude.{◌≡◌};
ghost use Rattle.pings.specs.Headers.{handed_length};
ghost use Rattle.archive.specs.Numbers.{header_with, handed_by};

use layout::SoftwareChannel;
use pings::{PingHeader, PingLength};

// The header of the fields that are handed over.
pub fn header_of(
    time_fraction: u16,
    time_cpu: u32,
    software_channel_identifier: u16,
    transmitter_mode: u16,
    ping_number: u32,
    detected_bottom_range: i32,
) -> PingHeader
    ensures { result
        ≡ header_with time_fraction time_cpu software_channel_identifier transmitter_mode ping_number detected_bottom_range }
{
    PingHeader {
        time_fraction,
        time_cpu,
        software_channel_identifier: SoftwareChannel(software_channel_identifier),
        transmitter_mode,
        ping_number,
        detected_bottom_range,
    }
}

// The length that is handed over: its number is not looked at where there is none.
pub fn handed_length(has_length: bool, ping_length: u32) -> PingLength
    ensures { handed_length result ≡ handed_by has_length ping_length }
{
    has_length.then_some(ping_length)
}
