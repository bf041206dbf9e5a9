// Made from views/records.txt by views/make.
// Attitude, type 40: TR Table 10. A platform's. Software channel 65535 means all channels, here alone.
#![tactic(auto, unfolding(layout::specs::Types::listings, layout::specs::Types::among, layout::specs::Types::listing_of))]

ghost use Rattle.std.specs.Prelude.{◌≡◌};
ghost use Rattle.tuples.specs.Readers.{row_of};
ghost use Rattle.rows.specs.Integers.{integers_from, patterns};
ghost use Rattle.rows.specs.Places.{places_of};
ghost use Rattle.layout.specs.Views.{as_answer};
ghost use Rattle.attitude.specs.Attitude.{attitude_of, attitude_integers, AttitudeAt, AttitudeWritten, as_read};

use layout::{Answer, Refusal, SoftwareChannel, types};

#[derive(Clone, Copy)]
pub struct Attitude {
    pub time_fraction: u16,
    pub time_cpu: u32,
    pub software_channel_identifier: SoftwareChannel,
    pub platform_referred_to: u16,
    pub alongship_offset: i16,
    pub athwartship_offset: i16,
    pub pitch: i16,
    pub roll: i16,
    pub heave: i16,
    pub tuple_attribute: i32,
}

// What reading gives: the record, or a refusal.
pub type AttitudeRead = Result<Attitude, Refusal>;

impl Attitude {
    pub const CODE: u16 = types::ATTITUDE;

    // The bytes of its tuple.
    pub const LENGTH: usize = 36;

    // Where its fields stand, in bytes from the tuple's first.
    pub const TIME_FRACTION: usize = 6;

    pub const TIME_CPU: usize = 8;

    pub const SOFTWARE_CHANNEL_IDENTIFIER: usize = 12;

    pub const PLATFORM_REFERRED_TO: usize = 14;

    pub const ALONGSHIP_OFFSET: usize = 16;

    pub const ATHWARTSHIP_OFFSET: usize = 18;

    pub const PITCH: usize = 20;

    pub const ROLL: usize = 22;

    pub const HEAVE: usize = 24;

    pub const TUPLE_ATTRIBUTE: usize = 28;

    // The record of these fields.
    pub fn new(
        time_fraction: u16,
        time_cpu: u32,
        software_channel_identifier: SoftwareChannel,
        platform_referred_to: u16,
        alongship_offset: i16,
        athwartship_offset: i16,
        pitch: i16,
        roll: i16,
        heave: i16,
        tuple_attribute: i32,
    ) -> Attitude
        ensures { result ≡ record {
          time_fraction = time_fraction;
          time_cpu = time_cpu;
          software_channel_identifier = software_channel_identifier;
          platform_referred_to = platform_referred_to;
          alongship_offset = alongship_offset;
          athwartship_offset = athwartship_offset;
          pitch = pitch;
          roll = roll;
          heave = heave;
          tuple_attribute = tuple_attribute;
        } }
    {
        Attitude {
            time_fraction,
            time_cpu,
            software_channel_identifier,
            platform_referred_to,
            alongship_offset,
            athwartship_offset,
            pitch,
            roll,
            heave,
            tuple_attribute,
        }
    }

    // The places of its fields in the row's order, then its length, and 0: it has no other.
    pub fn places() -> [usize; 12]
        ensures { result ≡ places_of 40 }
    {
        [
            Attitude::TIME_FRACTION,
            Attitude::TIME_CPU,
            Attitude::SOFTWARE_CHANNEL_IDENTIFIER,
            Attitude::PLATFORM_REFERRED_TO,
            Attitude::ALONGSHIP_OFFSET,
            Attitude::ATHWARTSHIP_OFFSET,
            Attitude::PITCH,
            Attitude::ROLL,
            Attitude::HEAVE,
            Attitude::TUPLE_ATTRIBUTE,
            Attitude::LENGTH,
            0,
        ]
    }

    // The record of a row's numbers, each by the lower bytes of its width.
    pub fn of(numbers: [u32; 10]) -> Attitude
        ensures { result ≡ attitude_of (integers_from (row_of 40 0) numbers 0) }
    {
        Attitude {
            time_fraction: rows::unsigned2(numbers[0]),
            time_cpu: rows::unsigned4(numbers[1]),
            software_channel_identifier: SoftwareChannel(rows::unsigned2(numbers[2])),
            platform_referred_to: rows::unsigned2(numbers[3]),
            alongship_offset: rows::signed2(numbers[4]),
            athwartship_offset: rows::signed2(numbers[5]),
            pitch: rows::signed2(numbers[6]),
            roll: rows::signed2(numbers[7]),
            heave: rows::signed2(numbers[8]),
            tuple_attribute: rows::signed4(numbers[9]),
        }
    }

    // The numbers of the row, in its order, the attribute last; a signed one as its pattern.
    pub fn numbers(self) -> [u32; 10]
        ensures { result ≡ patterns (row_of 40 0) (attitude_integers self) }
    {
        [
            rows::of_unsigned2(self.time_fraction),
            self.time_cpu,
            rows::of_unsigned2(self.software_channel_identifier.0),
            rows::of_unsigned2(self.platform_referred_to),
            rows::of_signed2(self.alongship_offset),
            rows::of_signed2(self.athwartship_offset),
            rows::of_signed2(self.pitch),
            rows::of_signed2(self.roll),
            rows::of_signed2(self.heave),
            rows::of_signed4(self.tuple_attribute),
        ]
    }

    // Reads the tuple at a place of a file.
    pub fn read(file: &[u8], place: usize) -> AttitudeRead
        ensures { AttitudeAt file.now place (as_read result) }
    {
        let mut numbers = [0u32; 10];
        rows::read_row(file, place, Attitude::CODE, &mut numbers)?;
        Ok(Attitude::of(numbers))
    }

    // Writes the tuple; 19 alone refuses it.
    pub fn write(self, msb: bool, out: &mut [u8]) -> Answer
        ensures { AttitudeWritten msb self out.old (as_answer result) out.new }
    {
        rows::write_row(Attitude::CODE, &self.numbers(), &[], msb, out)
    }
}
