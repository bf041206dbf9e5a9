// Made from views/records.txt by views/make.
// Threshold, type 10100: TR Table 8.
#![tactic(auto, unfolding(layout::specs::Types::listings, layout::specs::Types::among, layout::specs::Types::listing_of))]

ghost use Rattle.std.specs.Prelude.{◌≡◌};
ghost use Rattle.tuples.specs.Readers.{row_of};
ghost use Rattle.rows.specs.Integers.{integers_from, patterns};
ghost use Rattle.rows.specs.Places.{places_of};
ghost use Rattle.layout.specs.Views.{as_answer};
ghost use Rattle.threshold.specs.Threshold.{threshold_of, threshold_integers, ThresholdAt, ThresholdWritten, as_read};

use layout::{Answer, Refusal, SoftwareChannel, types};

#[derive(Clone, Copy)]
pub struct Threshold {
    pub time_fraction: u16,
    pub time_cpu: u32,
    pub software_channel_identifier: SoftwareChannel,
    pub tvg_max_range: u16,
    pub tvg_min_range: u16,
    pub tvt_evaluation_mode: u16,
    pub tvt_evaluation_interval: u16,
    pub tvt_evaluation_no_of_pings: u16,
    pub tvt_evaluation_starting_tvt_ping_number: u32,
    pub tvt_offset_parameter_or_constant_threshold: u32,
    pub tvt_amplification_parameter: u32,
    pub tuple_attribute: i32,
}

// What reading gives: the record, or a refusal.
pub type ThresholdRead = Result<Threshold, Refusal>;

impl Threshold {
    pub const CODE: u16 = types::THRESHOLD;

    // The bytes of its tuple.
    pub const LENGTH: usize = 44;

    // Where its fields stand, in bytes from the tuple's first.
    pub const TIME_FRACTION: usize = 6;

    pub const TIME_CPU: usize = 8;

    pub const SOFTWARE_CHANNEL_IDENTIFIER: usize = 12;

    pub const TVG_MAX_RANGE: usize = 14;

    pub const TVG_MIN_RANGE: usize = 16;

    pub const TVT_EVALUATION_MODE: usize = 18;

    pub const TVT_EVALUATION_INTERVAL: usize = 20;

    pub const TVT_EVALUATION_NO_OF_PINGS: usize = 22;

    pub const TVT_EVALUATION_STARTING_TVT_PING_NUMBER: usize = 24;

    pub const TVT_OFFSET_PARAMETER_OR_CONSTANT_THRESHOLD: usize = 28;

    pub const TVT_AMPLIFICATION_PARAMETER: usize = 32;

    pub const TUPLE_ATTRIBUTE: usize = 36;

    // The record of these fields.
    pub fn new(
        time_fraction: u16,
        time_cpu: u32,
        software_channel_identifier: SoftwareChannel,
        tvg_max_range: u16,
        tvg_min_range: u16,
        tvt_evaluation_mode: u16,
        tvt_evaluation_interval: u16,
        tvt_evaluation_no_of_pings: u16,
        tvt_evaluation_starting_tvt_ping_number: u32,
        tvt_offset_parameter_or_constant_threshold: u32,
        tvt_amplification_parameter: u32,
        tuple_attribute: i32,
    ) -> Threshold
        ensures { result ≡ record {
          time_fraction = time_fraction;
          time_cpu = time_cpu;
          software_channel_identifier = software_channel_identifier;
          tvg_max_range = tvg_max_range;
          tvg_min_range = tvg_min_range;
          tvt_evaluation_mode = tvt_evaluation_mode;
          tvt_evaluation_interval = tvt_evaluation_interval;
          tvt_evaluation_no_of_pings = tvt_evaluation_no_of_pings;
          tvt_evaluation_starting_tvt_ping_number = tvt_evaluation_starting_tvt_ping_number;
          tvt_offset_parameter_or_constant_threshold = tvt_offset_parameter_or_constant_threshold;
          tvt_amplification_parameter = tvt_amplification_parameter;
          tuple_attribute = tuple_attribute;
        } }
    {
        Threshold {
            time_fraction,
            time_cpu,
            software_channel_identifier,
            tvg_max_range,
            tvg_min_range,
            tvt_evaluation_mode,
            tvt_evaluation_interval,
            tvt_evaluation_no_of_pings,
            tvt_evaluation_starting_tvt_ping_number,
            tvt_offset_parameter_or_constant_threshold,
            tvt_amplification_parameter,
            tuple_attribute,
        }
    }

    // The places of its fields in the row's order, then its length, and 0: it has no other.
    pub fn places() -> [usize; 14]
        ensures { result ≡ places_of 10100 }
    {
        [
            Threshold::TIME_FRACTION,
            Threshold::TIME_CPU,
            Threshold::SOFTWARE_CHANNEL_IDENTIFIER,
            Threshold::TVG_MAX_RANGE,
            Threshold::TVG_MIN_RANGE,
            Threshold::TVT_EVALUATION_MODE,
            Threshold::TVT_EVALUATION_INTERVAL,
            Threshold::TVT_EVALUATION_NO_OF_PINGS,
            Threshold::TVT_EVALUATION_STARTING_TVT_PING_NUMBER,
            Threshold::TVT_OFFSET_PARAMETER_OR_CONSTANT_THRESHOLD,
            Threshold::TVT_AMPLIFICATION_PARAMETER,
            Threshold::TUPLE_ATTRIBUTE,
            Threshold::LENGTH,
            0,
        ]
    }

    // The record of a row's numbers, each by the lower bytes of its width.
    pub fn of(numbers: [u32; 12]) -> Threshold
        ensures { result ≡ threshold_of (integers_from (row_of 10100 0) numbers 0) }
    {
        Threshold {
            time_fraction: rows::unsigned2(numbers[0]),
            time_cpu: rows::unsigned4(numbers[1]),
            software_channel_identifier: SoftwareChannel(rows::unsigned2(numbers[2])),
            tvg_max_range: rows::unsigned2(numbers[3]),
            tvg_min_range: rows::unsigned2(numbers[4]),
            tvt_evaluation_mode: rows::unsigned2(numbers[5]),
            tvt_evaluation_interval: rows::unsigned2(numbers[6]),
            tvt_evaluation_no_of_pings: rows::unsigned2(numbers[7]),
            tvt_evaluation_starting_tvt_ping_number: rows::unsigned4(numbers[8]),
            tvt_offset_parameter_or_constant_threshold: rows::unsigned4(numbers[9]),
            tvt_amplification_parameter: rows::unsigned4(numbers[10]),
            tuple_attribute: rows::signed4(numbers[11]),
        }
    }

    // The numbers of the row, in its order, the attribute last; a signed one as its pattern.
    pub fn numbers(self) -> [u32; 12]
        ensures { result ≡ patterns (row_of 10100 0) (threshold_integers self) }
    {
        [
            rows::of_unsigned2(self.time_fraction),
            self.time_cpu,
            rows::of_unsigned2(self.software_channel_identifier.0),
            rows::of_unsigned2(self.tvg_max_range),
            rows::of_unsigned2(self.tvg_min_range),
            rows::of_unsigned2(self.tvt_evaluation_mode),
            rows::of_unsigned2(self.tvt_evaluation_interval),
            rows::of_unsigned2(self.tvt_evaluation_no_of_pings),
            self.tvt_evaluation_starting_tvt_ping_number,
            self.tvt_offset_parameter_or_constant_threshold,
            self.tvt_amplification_parameter,
            rows::of_signed4(self.tuple_attribute),
        ]
    }

    // Reads the tuple at a place of a file.
    pub fn read(file: &[u8], place: usize) -> ThresholdRead
        ensures { ThresholdAt file.now place (as_read result) }
    {
        let mut numbers = [0u32; 12];
        rows::read_row(file, place, Threshold::CODE, &mut numbers)?;
        Ok(Threshold::of(numbers))
    }

    // Writes the tuple; 19 alone refuses it.
    pub fn write(self, msb: bool, out: &mut [u8]) -> Answer
        ensures { ThresholdWritten msb self out.old (as_answer result) out.new }
    {
        rows::write_row(Threshold::CODE, &self.numbers(), &[], msb, out)
    }
}
