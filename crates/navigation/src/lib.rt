// Made from views/records.txt by views/make.
// Navigation, type 30: TR Table 9.
#![tactic(auto, unfolding(layout::specs::Types::listings, layout::specs::Types::among, layout::specs::Types::listing_of))]

ghost use Rattle.std.specs.Prelude.{◌≡◌};
ghost use Rattle.tuples.specs.Readers.{row_of};
ghost use Rattle.rows.specs.Integers.{integers_from, patterns};
ghost use Rattle.rows.specs.Places.{places_of};
ghost use Rattle.layout.specs.Views.{as_answer};
ghost use Rattle.navigation.specs.Navigation.{navigation_of, navigation_integers, NavigationAt, NavigationWritten, as_read};

use layout::{Answer, Refusal, types};

#[derive(Clone, Copy)]
pub struct Navigation {
    pub time_fraction: u16,
    pub time_cpu: u32,
    pub navigation_system: u16,
    pub heading: i16,
    pub navigation_speed: u16,
    pub tuple_attribute: i32,
}

// What reading gives: the record, or a refusal.
pub type NavigationRead = Result<Navigation, Refusal>;

impl Navigation {
    pub const CODE: u16 = types::NAVIGATION;

    // The bytes of its tuple.
    pub const LENGTH: usize = 28;

    // Where its fields stand, in bytes from the tuple's first.
    pub const TIME_FRACTION: usize = 6;

    pub const TIME_CPU: usize = 8;

    pub const NAVIGATION_SYSTEM: usize = 12;

    pub const HEADING: usize = 14;

    pub const NAVIGATION_SPEED: usize = 16;

    pub const TUPLE_ATTRIBUTE: usize = 20;

    // The record of these fields.
    pub fn new(
        time_fraction: u16,
        time_cpu: u32,
        navigation_system: u16,
        heading: i16,
        navigation_speed: u16,
        tuple_attribute: i32,
    ) -> Navigation
        ensures { result ≡ record {
          time_fraction = time_fraction;
          time_cpu = time_cpu;
          navigation_system = navigation_system;
          heading = heading;
          navigation_speed = navigation_speed;
          tuple_attribute = tuple_attribute;
        } }
    {
        Navigation {
            time_fraction,
            time_cpu,
            navigation_system,
            heading,
            navigation_speed,
            tuple_attribute,
        }
    }

    // The places of its fields in the row's order, then its length, and 0: it has no other.
    pub fn places() -> [usize; 8]
        ensures { result ≡ places_of 30 }
    {
        [
            Navigation::TIME_FRACTION,
            Navigation::TIME_CPU,
            Navigation::NAVIGATION_SYSTEM,
            Navigation::HEADING,
            Navigation::NAVIGATION_SPEED,
            Navigation::TUPLE_ATTRIBUTE,
            Navigation::LENGTH,
            0,
        ]
    }

    // The record of a row's numbers, each by the lower bytes of its width.
    pub fn of(numbers: [u32; 6]) -> Navigation
        ensures { result ≡ navigation_of (integers_from (row_of 30 0) numbers 0) }
    {
        Navigation {
            time_fraction: rows::unsigned2(numbers[0]),
            time_cpu: rows::unsigned4(numbers[1]),
            navigation_system: rows::unsigned2(numbers[2]),
            heading: rows::signed2(numbers[3]),
            navigation_speed: rows::unsigned2(numbers[4]),
            tuple_attribute: rows::signed4(numbers[5]),
        }
    }

    // The numbers of the row, in its order, the attribute last; a signed one as its pattern.
    pub fn numbers(self) -> [u32; 6]
        ensures { result ≡ patterns (row_of 30 0) (navigation_integers self) }
    {
        [
            rows::of_unsigned2(self.time_fraction),
            self.time_cpu,
            rows::of_unsigned2(self.navigation_system),
            rows::of_signed2(self.heading),
            rows::of_unsigned2(self.navigation_speed),
            rows::of_signed4(self.tuple_attribute),
        ]
    }

    // Reads the tuple at a place of a file.
    pub fn read(file: &[u8], place: usize) -> NavigationRead
        ensures { NavigationAt file.now place (as_read result) }
    {
        let mut numbers = [0u32; 6];
        rows::read_row(file, place, Navigation::CODE, &mut numbers)?;
        Ok(Navigation::of(numbers))
    }

    // Writes the tuple; 19 alone refuses it.
    pub fn write(self, msb: bool, out: &mut [u8]) -> Answer
        ensures { NavigationWritten msb self out.old (as_answer result) out.new }
    {
        rows::write_row(Navigation::CODE, &self.numbers(), &[], msb, out)
    }
}
