// Made from views/records.txt by views/make.
// RunEnd, type 65517: TR Table 16.
#![tactic(auto, unfolding(layout::specs::Types::listings, layout::specs::Types::among, layout::specs::Types::listing_of))]

ghost use Rattle.std.specs.Prelude.{◌≡◌};
ghost use Rattle.tuples.specs.Readers.{row_of};
ghost use Rattle.rows.specs.Integers.{integers_from, patterns};
ghost use Rattle.rows.specs.Places.{places_of};
ghost use Rattle.layout.specs.Views.{as_answer};
ghost use Rattle.run_end.specs.RunEnd.{run_end_of, run_end_integers, RunEndAt, RunEndWritten, as_read};

use layout::{Answer, Refusal, types};

#[derive(Clone, Copy)]
pub struct RunEnd {
    pub time_fraction: u16,
    pub time_cpu: u32,
    pub tuple_attribute: i32,
}

// What reading gives: the record, or a refusal.
pub type RunEndRead = Result<RunEnd, Refusal>;

impl RunEnd {
    pub const CODE: u16 = types::RUN_END;

    // The bytes of its tuple.
    pub const LENGTH: usize = 20;

    // Where its fields stand, in bytes from the tuple's first.
    pub const TIME_FRACTION: usize = 6;

    pub const TIME_CPU: usize = 8;

    pub const TUPLE_ATTRIBUTE: usize = 12;

    // The record of these fields.
    pub fn new(time_fraction: u16, time_cpu: u32, tuple_attribute: i32) -> RunEnd
        ensures { result ≡ record {
          time_fraction = time_fraction;
          time_cpu = time_cpu;
          tuple_attribute = tuple_attribute;
        } }
    {
        RunEnd {
            time_fraction,
            time_cpu,
            tuple_attribute,
        }
    }

    // The places of its fields in the row's order, then its length, and 0: it has no other.
    pub fn places() -> [usize; 5]
        ensures { result ≡ places_of 65517 }
    {
        [
            RunEnd::TIME_FRACTION,
            RunEnd::TIME_CPU,
            RunEnd::TUPLE_ATTRIBUTE,
            RunEnd::LENGTH,
            0,
        ]
    }

    // The record of a row's numbers, each by the lower bytes of its width.
    pub fn of(numbers: [u32; 3]) -> RunEnd
        ensures { result ≡ run_end_of (integers_from (row_of 65517 0) numbers 0) }
    {
        RunEnd {
            time_fraction: rows::unsigned2(numbers[0]),
            time_cpu: rows::unsigned4(numbers[1]),
            tuple_attribute: rows::signed4(numbers[2]),
        }
    }

    // The numbers of the row, in its order, the attribute last; a signed one as its pattern.
    pub fn numbers(self) -> [u32; 3]
        ensures { result ≡ patterns (row_of 65517 0) (run_end_integers self) }
    {
        [
            rows::of_unsigned2(self.time_fraction),
            self.time_cpu,
            rows::of_signed4(self.tuple_attribute),
        ]
    }

    // Reads the tuple at a place of a file.
    pub fn read(file: &[u8], place: usize) -> RunEndRead
        ensures { RunEndAt file.now place (as_read result) }
    {
        let mut numbers = [0u32; 3];
        rows::read_row(file, place, RunEnd::CODE, &mut numbers)?;
        Ok(RunEnd::of(numbers))
    }

    // Writes the tuple; 19 alone refuses it.
    pub fn write(self, msb: bool, out: &mut [u8]) -> Answer
        ensures { RunEndWritten msb self out.old (as_answer result) out.new }
    {
        rows::write_row(RunEnd::CODE, &self.numbers(), &[], msb, out)
    }
}
