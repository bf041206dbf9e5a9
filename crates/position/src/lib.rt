// Made from views/records.txt by views/make.
// Position, type 20: TR Table 7. Its time fraction is signed, here alone.
#![tactic(auto, unfolding(layout::specs::Types::listings, layout::specs::Types::among, layout::specs::Types::listing_of))]

ghost use Rattle.std.specs.Prelude.{◌≡◌};
ghost use Rattle.tuples.specs.Readers.{row_of};
ghost use Rattle.rows.specs.Integers.{integers_from, patterns};
ghost use Rattle.rows.specs.Places.{places_of};
ghost use Rattle.layout.specs.Views.{as_answer};
ghost use Rattle.position.specs.Position.{position_of, position_integers, PositionAt, PositionWritten, as_read};

use layout::{Answer, Refusal, types};

#[derive(Clone, Copy)]
pub struct Position {
    pub time_fraction: i16,
    pub time_cpu: u32,
    pub gps_time: u32,
    pub positioning_system: u16,
    pub latitude: i32,
    pub longitude: i32,
    pub tuple_attribute: i32,
}

// What reading gives: the record, or a refusal.
pub type PositionRead = Result<Position, Refusal>;

impl Position {
    pub const CODE: u16 = types::POSITION;

    // The bytes of its tuple.
    pub const LENGTH: usize = 36;

    // Where its fields stand, in bytes from the tuple's first.
    pub const TIME_FRACTION: usize = 6;

    pub const TIME_CPU: usize = 8;

    pub const GPS_TIME: usize = 12;

    pub const POSITIONING_SYSTEM: usize = 16;

    pub const LATITUDE: usize = 20;

    pub const LONGITUDE: usize = 24;

    pub const TUPLE_ATTRIBUTE: usize = 28;

    // The record of these fields.
    pub fn new(
        time_fraction: i16,
        time_cpu: u32,
        gps_time: u32,
        positioning_system: u16,
        latitude: i32,
        longitude: i32,
        tuple_attribute: i32,
    ) -> Position
        ensures { result ≡ record {
          time_fraction = time_fraction;
          time_cpu = time_cpu;
          gps_time = gps_time;
          positioning_system = positioning_system;
          latitude = latitude;
          longitude = longitude;
          tuple_attribute = tuple_attribute;
        } }
    {
        Position {
            time_fraction,
            time_cpu,
            gps_time,
            positioning_system,
            latitude,
            longitude,
            tuple_attribute,
        }
    }

    // The places of its fields in the row's order, then its length, and 0: it has no other.
    pub fn places() -> [usize; 9]
        ensures { result ≡ places_of 20 }
    {
        [
            Position::TIME_FRACTION,
            Position::TIME_CPU,
            Position::GPS_TIME,
            Position::POSITIONING_SYSTEM,
            Position::LATITUDE,
            Position::LONGITUDE,
            Position::TUPLE_ATTRIBUTE,
            Position::LENGTH,
            0,
        ]
    }

    // The record of a row's numbers, each by the lower bytes of its width.
    pub fn of(numbers: [u32; 7]) -> Position
        ensures { result ≡ position_of (integers_from (row_of 20 0) numbers 0) }
    {
        Position {
            time_fraction: rows::signed2(numbers[0]),
            time_cpu: rows::unsigned4(numbers[1]),
            gps_time: rows::unsigned4(numbers[2]),
            positioning_system: rows::unsigned2(numbers[3]),
            latitude: rows::signed4(numbers[4]),
            longitude: rows::signed4(numbers[5]),
            tuple_attribute: rows::signed4(numbers[6]),
        }
    }

    // The numbers of the row, in its order, the attribute last; a signed one as its pattern.
    pub fn numbers(self) -> [u32; 7]
        ensures { result ≡ patterns (row_of 20 0) (position_integers self) }
    {
        [
            rows::of_signed2(self.time_fraction),
            self.time_cpu,
            self.gps_time,
            rows::of_unsigned2(self.positioning_system),
            rows::of_signed4(self.latitude),
            rows::of_signed4(self.longitude),
            rows::of_signed4(self.tuple_attribute),
        ]
    }

    // Reads the tuple at a place of a file.
    pub fn read(file: &[u8], place: usize) -> PositionRead
        ensures { PositionAt file.now place (as_read result) }
    {
        let mut numbers = [0u32; 7];
        rows::read_row(file, place, Position::CODE, &mut numbers)?;
        Ok(Position::of(numbers))
    }

    // Writes the tuple; 19 alone refuses it.
    pub fn write(self, msb: bool, out: &mut [u8]) -> Answer
        ensures { PositionWritten msb self out.old (as_answer result) out.new }
    {
        rows::write_row(Position::CODE, &self.numbers(), &[], msb, out)
    }
}
