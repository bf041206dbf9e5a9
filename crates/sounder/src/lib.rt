// Made from views/records.txt by views/make.
// Sounder, type 100: TR Table 2. An echosounder, of Biosonics. Its remarks, 30 characters, stand beside it; to write others is
// refused by 9 at 0.
#![tactic(auto, unfolding(layout::specs::Types::listings, layout::specs::Types::among, layout::specs::Types::listing_of))]

ghost use Rattle.std.specs.Prelude.{◌≡◌};
ghost use Rattle.tuples.specs.Readers.{row_of};
ghost use Rattle.rows.specs.Integers.{integers_from, patterns};
ghost use Rattle.rows.specs.Places.{places_of};
ghost use Rattle.layout.specs.Views.{as_answer};
ghost use Rattle.sounder.specs.Sounder.{sounder_of, sounder_integers, SounderAt, SounderWritten, as_read};

use layout::{Answer, DocumentId, Refusal, types};
use tuples::Part;

#[derive(Clone, Copy)]
pub struct Sounder {
    pub number_of_software_channels: u16,
    pub echosounder_document_identifier: DocumentId,
    pub sound_speed: u16,
    pub ping_interval: u16,
    pub transmitter_attenuation_setting: i16,
    pub multiplexing_mode: u16,
    pub blanking_at_tvg_max_range: i16,
    pub tvg_max_range: u16,
    pub blanking_up_to_range: u16,
    pub calibrator_signal: i16,
    pub calibrator_mode: u16,
    pub calibrator_separator: u16,
    pub tuple_attribute: i32,
}

// What reading gives: the record and the place of its remarks, or a refusal.
pub type SounderRead = Result<(Sounder, Part), Refusal>;

impl Sounder {
    pub const CODE: u16 = types::SOUNDER;

    // The bytes of its tuple.
    pub const LENGTH: usize = 72;

    // Where its fields stand, in bytes from the tuple's first.
    pub const NUMBER_OF_SOFTWARE_CHANNELS: usize = 6;

    pub const ECHOSOUNDER_DOCUMENT_IDENTIFIER: usize = 8;

    pub const SOUND_SPEED: usize = 12;

    pub const PING_INTERVAL: usize = 14;

    pub const TRANSMITTER_ATTENUATION_SETTING: usize = 16;

    pub const MULTIPLEXING_MODE: usize = 18;

    pub const BLANKING_AT_TVG_MAX_RANGE: usize = 20;

    pub const TVG_MAX_RANGE: usize = 22;

    pub const BLANKING_UP_TO_RANGE: usize = 24;

    pub const CALIBRATOR_SIGNAL: usize = 26;

    pub const CALIBRATOR_MODE: usize = 28;

    pub const CALIBRATOR_SEPARATOR: usize = 30;

    pub const REMARKS: usize = 32;

    pub const TUPLE_ATTRIBUTE: usize = 64;

    // The record of these fields.
    pub fn new(
        number_of_software_channels: u16,
        echosounder_document_identifier: DocumentId,
        sound_speed: u16,
        ping_interval: u16,
        transmitter_attenuation_setting: i16,
        multiplexing_mode: u16,
        blanking_at_tvg_max_range: i16,
        tvg_max_range: u16,
        blanking_up_to_range: u16,
        calibrator_signal: i16,
        calibrator_mode: u16,
        calibrator_separator: u16,
        tuple_attribute: i32,
    ) -> Sounder
        ensures { result ≡ record {
          number_of_software_channels = number_of_software_channels;
          echosounder_document_identifier = echosounder_document_identifier;
          sound_speed = sound_speed;
          ping_interval = ping_interval;
          transmitter_attenuation_setting = transmitter_attenuation_setting;
          multiplexing_mode = multiplexing_mode;
          blanking_at_tvg_max_range = blanking_at_tvg_max_range;
          tvg_max_range = tvg_max_range;
          blanking_up_to_range = blanking_up_to_range;
          calibrator_signal = calibrator_signal;
          calibrator_mode = calibrator_mode;
          calibrator_separator = calibrator_separator;
          tuple_attribute = tuple_attribute;
        } }
    {
        Sounder {
            number_of_software_channels,
            echosounder_document_identifier,
            sound_speed,
            ping_interval,
            transmitter_attenuation_setting,
            multiplexing_mode,
            blanking_at_tvg_max_range,
            tvg_max_range,
            blanking_up_to_range,
            calibrator_signal,
            calibrator_mode,
            calibrator_separator,
            tuple_attribute,
        }
    }

    // The places of its fields in the row's order, then its length, and 0: it has no other.
    pub fn places() -> [usize; 16]
        ensures { result ≡ places_of 100 }
    {
        [
            Sounder::NUMBER_OF_SOFTWARE_CHANNELS,
            Sounder::ECHOSOUNDER_DOCUMENT_IDENTIFIER,
            Sounder::SOUND_SPEED,
            Sounder::PING_INTERVAL,
            Sounder::TRANSMITTER_ATTENUATION_SETTING,
            Sounder::MULTIPLEXING_MODE,
            Sounder::BLANKING_AT_TVG_MAX_RANGE,
            Sounder::TVG_MAX_RANGE,
            Sounder::BLANKING_UP_TO_RANGE,
            Sounder::CALIBRATOR_SIGNAL,
            Sounder::CALIBRATOR_MODE,
            Sounder::CALIBRATOR_SEPARATOR,
            Sounder::REMARKS,
            Sounder::TUPLE_ATTRIBUTE,
            Sounder::LENGTH,
            0,
        ]
    }

    // The record of a row's numbers, each by the lower bytes of its width.
    pub fn of(numbers: [u32; 13]) -> Sounder
        ensures { result ≡ sounder_of (integers_from (row_of 100 0) numbers 0) }
    {
        Sounder {
            number_of_software_channels: rows::unsigned2(numbers[0]),
            echosounder_document_identifier: DocumentId(rows::unsigned4(numbers[1])),
            sound_speed: rows::unsigned2(numbers[2]),
            ping_interval: rows::unsigned2(numbers[3]),
            transmitter_attenuation_setting: rows::signed2(numbers[4]),
            multiplexing_mode: rows::unsigned2(numbers[5]),
            blanking_at_tvg_max_range: rows::signed2(numbers[6]),
            tvg_max_range: rows::unsigned2(numbers[7]),
            blanking_up_to_range: rows::unsigned2(numbers[8]),
            calibrator_signal: rows::signed2(numbers[9]),
            calibrator_mode: rows::unsigned2(numbers[10]),
            calibrator_separator: rows::unsigned2(numbers[11]),
            tuple_attribute: rows::signed4(numbers[12]),
        }
    }

    // The numbers of the row, in its order, the attribute last; a signed one as its pattern.
    pub fn numbers(self) -> [u32; 13]
        ensures { result ≡ patterns (row_of 100 0) (sounder_integers self) }
    {
        [
            rows::of_unsigned2(self.number_of_software_channels),
            self.echosounder_document_identifier.0,
            rows::of_unsigned2(self.sound_speed),
            rows::of_unsigned2(self.ping_interval),
            rows::of_signed2(self.transmitter_attenuation_setting),
            rows::of_unsigned2(self.multiplexing_mode),
            rows::of_signed2(self.blanking_at_tvg_max_range),
            rows::of_unsigned2(self.tvg_max_range),
            rows::of_unsigned2(self.blanking_up_to_range),
            rows::of_signed2(self.calibrator_signal),
            rows::of_unsigned2(self.calibrator_mode),
            rows::of_unsigned2(self.calibrator_separator),
            rows::of_signed4(self.tuple_attribute),
        ]
    }

    // Reads the tuple at a place of a file.
    pub fn read(file: &[u8], place: usize) -> SounderRead
        ensures { SounderAt file.now place (as_read result) }
    {
        let mut numbers = [0u32; 13];
        let remarks = rows::read_row(file, place, Sounder::CODE, &mut numbers)?;
        Ok((Sounder::of(numbers), remarks))
    }

    // Writes the tuple; 9 unless there are 30 characters of remarks, then 19.
    pub fn write(self, remarks: &[u8], msb: bool, out: &mut [u8]) -> Answer
        ensures { SounderWritten msb self remarks.now out.old (as_answer result) out.new }
    {
        rows::write_row(Sounder::CODE, &self.numbers(), remarks, msb, out)
    }
}
