// Made from views/records.txt by views/make.
// Ek500Sounder, type 200: TR Table 3. An echosounder of the other maker, the EK-500 of Simrad. The start of its super layer is
// one signed number of four bytes at 30: nothing is aligned. Its remarks, 30 characters, stand beside it; to write others is
// refused by 9 at 0.
#![tactic(auto, unfolding(layout::specs::Types::listings, layout::specs::Types::among, layout::specs::Types::listing_of))]

ghost use Rattle.std.specs.Prelude.{◌≡◌};
ghost use Rattle.tuples.specs.Readers.{row_of};
ghost use Rattle.rows.specs.Integers.{integers_from, patterns};
ghost use Rattle.rows.specs.Places.{places_of};
ghost use Rattle.layout.specs.Views.{as_answer};
ghost use Rattle.ek500_sounder.specs.Ek500Sounder.{ek500_sounder_of, ek500_sounder_integers, Ek500SounderAt, Ek500SounderWritten, as_read};

use layout::{Answer, DocumentId, Refusal, types};
use tuples::Part;

#[derive(Clone, Copy)]
pub struct Ek500Sounder {
    pub number_of_software_channels: u16,
    pub echosounder_document_identifier: DocumentId,
    pub sound_speed: u16,
    pub ping_mode: u16,
    pub ping_interval: u16,
    pub transmit_power: u16,
    pub noise_margin: u16,
    pub sample_range: u16,
    pub super_layer_type: u16,
    pub super_layer_number: u16,
    pub super_layer_range: u16,
    pub super_layer_start: i32,
    pub super_layer_margin: u16,
    pub super_layer_sv_threshold: i16,
    pub ek_500_version: u32,
    pub tuple_attribute: i32,
}

// What reading gives: the record and the place of its remarks, or a refusal.
pub type Ek500SounderRead = Result<(Ek500Sounder, Part), Refusal>;

impl Ek500Sounder {
    pub const CODE: u16 = types::EK500_SOUNDER;

    // The bytes of its tuple.
    pub const LENGTH: usize = 80;

    // Where its fields stand, in bytes from the tuple's first.
    pub const NUMBER_OF_SOFTWARE_CHANNELS: usize = 6;

    pub const ECHOSOUNDER_DOCUMENT_IDENTIFIER: usize = 8;

    pub const SOUND_SPEED: usize = 12;

    pub const PING_MODE: usize = 14;

    pub const PING_INTERVAL: usize = 16;

    pub const TRANSMIT_POWER: usize = 18;

    pub const NOISE_MARGIN: usize = 20;

    pub const SAMPLE_RANGE: usize = 22;

    pub const SUPER_LAYER_TYPE: usize = 24;

    pub const SUPER_LAYER_NUMBER: usize = 26;

    pub const SUPER_LAYER_RANGE: usize = 28;

    pub const SUPER_LAYER_START: usize = 30;

    pub const SUPER_LAYER_MARGIN: usize = 34;

    pub const SUPER_LAYER_SV_THRESHOLD: usize = 36;

    pub const EK_500_VERSION: usize = 38;

    pub const REMARKS: usize = 42;

    pub const TUPLE_ATTRIBUTE: usize = 72;

    // The record of these fields.
    pub fn new(
        number_of_software_channels: u16,
        echosounder_document_identifier: DocumentId,
        sound_speed: u16,
        ping_mode: u16,
        ping_interval: u16,
        transmit_power: u16,
        noise_margin: u16,
        sample_range: u16,
        super_layer_type: u16,
        super_layer_number: u16,
        super_layer_range: u16,
        super_layer_start: i32,
        super_layer_margin: u16,
        super_layer_sv_threshold: i16,
        ek_500_version: u32,
        tuple_attribute: i32,
    ) -> Ek500Sounder
        ensures { result ≡ record {
          number_of_software_channels = number_of_software_channels;
          echosounder_document_identifier = echosounder_document_identifier;
          sound_speed = sound_speed;
          ping_mode = ping_mode;
          ping_interval = ping_interval;
          transmit_power = transmit_power;
          noise_margin = noise_margin;
          sample_range = sample_range;
          super_layer_type = super_layer_type;
          super_layer_number = super_layer_number;
          super_layer_range = super_layer_range;
          super_layer_start = super_layer_start;
          super_layer_margin = super_layer_margin;
          super_layer_sv_threshold = super_layer_sv_threshold;
          ek_500_version = ek_500_version;
          tuple_attribute = tuple_attribute;
        } }
    {
        Ek500Sounder {
            number_of_software_channels,
            echosounder_document_identifier,
            sound_speed,
            ping_mode,
            ping_interval,
            transmit_power,
            noise_margin,
            sample_range,
            super_layer_type,
            super_layer_number,
            super_layer_range,
            super_layer_start,
            super_layer_margin,
            super_layer_sv_threshold,
            ek_500_version,
            tuple_attribute,
        }
    }

    // The places of its fields in the row's order, then its length, and 0: it has no other.
    pub fn places() -> [usize; 19]
        ensures { result ≡ places_of 200 }
    {
        [
            Ek500Sounder::NUMBER_OF_SOFTWARE_CHANNELS,
            Ek500Sounder::ECHOSOUNDER_DOCUMENT_IDENTIFIER,
            Ek500Sounder::SOUND_SPEED,
            Ek500Sounder::PING_MODE,
            Ek500Sounder::PING_INTERVAL,
            Ek500Sounder::TRANSMIT_POWER,
            Ek500Sounder::NOISE_MARGIN,
            Ek500Sounder::SAMPLE_RANGE,
            Ek500Sounder::SUPER_LAYER_TYPE,
            Ek500Sounder::SUPER_LAYER_NUMBER,
            Ek500Sounder::SUPER_LAYER_RANGE,
            Ek500Sounder::SUPER_LAYER_START,
            Ek500Sounder::SUPER_LAYER_MARGIN,
            Ek500Sounder::SUPER_LAYER_SV_THRESHOLD,
            Ek500Sounder::EK_500_VERSION,
            Ek500Sounder::REMARKS,
            Ek500Sounder::TUPLE_ATTRIBUTE,
            Ek500Sounder::LENGTH,
            0,
        ]
    }

    // The record of a row's numbers, each by the lower bytes of its width.
    pub fn of(numbers: [u32; 16]) -> Ek500Sounder
        ensures { result ≡ ek500_sounder_of (integers_from (row_of 200 0) numbers 0) }
    {
        Ek500Sounder {
            number_of_software_channels: rows::unsigned2(numbers[0]),
            echosounder_document_identifier: DocumentId(rows::unsigned4(numbers[1])),
            sound_speed: rows::unsigned2(numbers[2]),
            ping_mode: rows::unsigned2(numbers[3]),
            ping_interval: rows::unsigned2(numbers[4]),
            transmit_power: rows::unsigned2(numbers[5]),
            noise_margin: rows::unsigned2(numbers[6]),
            sample_range: rows::unsigned2(numbers[7]),
            super_layer_type: rows::unsigned2(numbers[8]),
            super_layer_number: rows::unsigned2(numbers[9]),
            super_layer_range: rows::unsigned2(numbers[10]),
            super_layer_start: rows::signed4(numbers[11]),
            super_layer_margin: rows::unsigned2(numbers[12]),
            super_layer_sv_threshold: rows::signed2(numbers[13]),
            ek_500_version: rows::unsigned4(numbers[14]),
            tuple_attribute: rows::signed4(numbers[15]),
        }
    }

    // The numbers of the row, in its order, the attribute last; a signed one as its pattern.
    pub fn numbers(self) -> [u32; 16]
        ensures { result ≡ patterns (row_of 200 0) (ek500_sounder_integers self) }
    {
        [
            rows::of_unsigned2(self.number_of_software_channels),
            self.echosounder_document_identifier.0,
            rows::of_unsigned2(self.sound_speed),
            rows::of_unsigned2(self.ping_mode),
            rows::of_unsigned2(self.ping_interval),
            rows::of_unsigned2(self.transmit_power),
            rows::of_unsigned2(self.noise_margin),
            rows::of_unsigned2(self.sample_range),
            rows::of_unsigned2(self.super_layer_type),
            rows::of_unsigned2(self.super_layer_number),
            rows::of_unsigned2(self.super_layer_range),
            rows::of_signed4(self.super_layer_start),
            rows::of_unsigned2(self.super_layer_margin),
            rows::of_signed2(self.super_layer_sv_threshold),
            self.ek_500_version,
            rows::of_signed4(self.tuple_attribute),
        ]
    }

    // Reads the tuple at a place of a file.
    pub fn read(file: &[u8], place: usize) -> Ek500SounderRead
        ensures { Ek500SounderAt file.now place (as_read result) }
    {
        let mut numbers = [0u32; 16];
        let remarks = rows::read_row(file, place, Ek500Sounder::CODE, &mut numbers)?;
        Ok((Ek500Sounder::of(numbers), remarks))
    }

    // Writes the tuple; 9 unless there are 30 characters of remarks, then 19.
    pub fn write(self, remarks: &[u8], msb: bool, out: &mut [u8]) -> Answer
        ensures { Ek500SounderWritten msb self remarks.now out.old (as_answer result) out.new }
    {
        rows::write_row(Ek500Sounder::CODE, &self.numbers(), remarks, msb, out)
    }
}
