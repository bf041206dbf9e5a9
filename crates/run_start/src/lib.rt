// Made from views/records.txt by views/make.
// RunStart, type 65516: TR Table 15.
#![tactic(auto, unfolding(layout::specs::Types::listings, layout::specs::Types::among, layout::specs::Types::listing_of))]

ghost use Rattle.std.specs.Prelude.{◌≡◌};
ghost use Rattle.tuples.specs.Readers.{row_of};
ghost use Rattle.rows.specs.Integers.{integers_from, patterns};
ghost use Rattle.rows.specs.Places.{places_of};
ghost use Rattle.layout.specs.Views.{as_answer};
ghost use Rattle.run_start.specs.RunStart.{run_start_of, run_start_integers, RunStartAt, RunStartWritten, as_read};

use layout::{Answer, Refusal, types};

#[derive(Clone, Copy)]
pub struct RunStart {
    pub time_fraction: u16,
    pub time_cpu: u32,
    pub tuple_attribute: i32,
}

// What reading gives: the record, or a refusal.
pub type RunStartRead = Result<RunStart, Refusal>;

impl RunStart {
    pub const CODE: u16 = types::RUN_START;

    // The bytes of its tuple.
    pub const LENGTH: usize = 20;

    // Where its fields stand, in bytes from the tuple's first.
    pub const TIME_FRACTION: usize = 6;

    pub const TIME_CPU: usize = 8;

    pub const TUPLE_ATTRIBUTE: usize = 12;

    // The record of these fields.
    pub fn new(time_fraction: u16, time_cpu: u32, tuple_attribute: i32) -> RunStart
        ensures { result ≡ record {
          time_fraction = time_fraction;
          time_cpu = time_cpu;
          tuple_attribute = tuple_attribute;
        } }
    {
        RunStart {
            time_fraction,
            time_cpu,
            tuple_attribute,
        }
    }

    // The places of its fields in the row's order, then its length, and 0: it has no other.
    pub fn places() -> [usize; 5]
        ensures { result ≡ places_of 65516 }
    {
        [
            RunStart::TIME_FRACTION,
            RunStart::TIME_CPU,
            RunStart::TUPLE_ATTRIBUTE,
            RunStart::LENGTH,
            0,
        ]
    }

    // The record of a row's numbers, each by the lower bytes of its width.
    pub fn of(numbers: [u32; 3]) -> RunStart
        ensures { result ≡ run_start_of (integers_from (row_of 65516 0) numbers 0) }
    {
        RunStart {
            time_fraction: rows::unsigned2(numbers[0]),
            time_cpu: rows::unsigned4(numbers[1]),
            tuple_attribute: rows::signed4(numbers[2]),
        }
    }

    // The numbers of the row, in its order, the attribute last; a signed one as its pattern.
    pub fn numbers(self) -> [u32; 3]
        ensures { result ≡ patterns (row_of 65516 0) (run_start_integers self) }
    {
        [
            rows::of_unsigned2(self.time_fraction),
            self.time_cpu,
            rows::of_signed4(self.tuple_attribute),
        ]
    }

    // Reads the tuple at a place of a file.
    pub fn read(file: &[u8], place: usize) -> RunStartRead
        ensures { RunStartAt file.now place (as_read result) }
    {
        let mut numbers = [0u32; 3];
        rows::read_row(file, place, RunStart::CODE, &mut numbers)?;
        Ok(RunStart::of(numbers))
    }

    // Writes the tuple; 19 alone refuses it.
    pub fn write(self, msb: bool, out: &mut [u8]) -> Answer
        ensures { RunStartWritten msb self out.old (as_answer result) out.new }
    {
        rows::write_row(RunStart::CODE, &self.numbers(), &[], msb, out)
    }
}
