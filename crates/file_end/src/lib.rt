// Made from views/records.txt by views/make.
// FileEnd, type 65534: TR Table 17. Its possible data, 2 bytes or 6, 10, 14 and so on, stand beside it when it is read. It is
// written with 2 bytes of them, all 0.
#![tactic(auto, unfolding(layout::specs::Types::listings, layout::specs::Types::among, layout::specs::Types::listing_of))]

ghost use Rattle.std.specs.Prelude.{◌≡◌};
ghost use Rattle.tuples.specs.Readers.{row_of};
ghost use Rattle.rows.specs.Integers.{integers_from, patterns};
ghost use Rattle.rows.specs.Places.{places_of};
ghost use Rattle.layout.specs.Views.{as_answer};
ghost use Rattle.file_end.specs.FileEnd.{file_end_of, file_end_integers, FileEndAt, FileEndWritten, as_read};

use layout::{Answer, Refusal, types};
use tuples::Part;

#[derive(Clone, Copy)]
pub struct FileEnd {
    pub time_fraction: u16,
    pub time_cpu: u32,
    pub closing_mode: u16,
    pub tuple_attribute: i32,
}

// What reading gives: the record and the place of its data, or a refusal.
pub type FileEndRead = Result<(FileEnd, Part), Refusal>;

impl FileEnd {
    pub const CODE: u16 = types::FILE_END;

    // The bytes of its shortest tuple, and by how many another is longer, once or more.
    pub const LEAST: usize = 24;

    pub const STEP: usize = 4;

    // Where its fields stand, in bytes from the tuple's first.
    pub const TIME_FRACTION: usize = 6;

    pub const TIME_CPU: usize = 8;

    pub const CLOSING_MODE: usize = 12;

    pub const DATA: usize = 14;

    // The record of these fields.
    pub fn new(
        time_fraction: u16,
        time_cpu: u32,
        closing_mode: u16,
        tuple_attribute: i32,
    ) -> FileEnd
        ensures { result ≡ record {
          time_fraction = time_fraction;
          time_cpu = time_cpu;
          closing_mode = closing_mode;
          tuple_attribute = tuple_attribute;
        } }
    {
        FileEnd {
            time_fraction,
            time_cpu,
            closing_mode,
            tuple_attribute,
        }
    }

    // The places of its fields in the row's order, in its shortest tuple, then the length of that, and the step to longer ones.
    pub fn places() -> [usize; 7]
        ensures { result ≡ places_of 65534 }
    {
        [
            FileEnd::TIME_FRACTION,
            FileEnd::TIME_CPU,
            FileEnd::CLOSING_MODE,
            FileEnd::DATA,
            FileEnd::LEAST - frame::TAIL,
            FileEnd::LEAST,
            FileEnd::STEP,
        ]
    }

    // The record of a row's numbers, each by the lower bytes of its width.
    pub fn of(numbers: [u32; 4]) -> FileEnd
        ensures { result ≡ file_end_of (integers_from (row_of 65534 0) numbers 0) }
    {
        FileEnd {
            time_fraction: rows::unsigned2(numbers[0]),
            time_cpu: rows::unsigned4(numbers[1]),
            closing_mode: rows::unsigned2(numbers[2]),
            tuple_attribute: rows::signed4(numbers[3]),
        }
    }

    // The numbers of the row, in its order, the attribute last; a signed one as its pattern.
    pub fn numbers(self) -> [u32; 4]
        ensures { result ≡ patterns (row_of 65534 0) (file_end_integers self) }
    {
        [
            rows::of_unsigned2(self.time_fraction),
            self.time_cpu,
            rows::of_unsigned2(self.closing_mode),
            rows::of_signed4(self.tuple_attribute),
        ]
    }

    // Reads the tuple at a place of a file.
    pub fn read(file: &[u8], place: usize) -> FileEndRead
        ensures { FileEndAt file.now place (as_read result) }
    {
        let mut numbers = [0u32; 4];
        let data = rows::read_row(file, place, FileEnd::CODE, &mut numbers)?;
        Ok((FileEnd::of(numbers), data))
    }

    // Writes the tuple with 2 zeros behind its fields; 19 alone refuses it.
    pub fn write(self, msb: bool, out: &mut [u8]) -> Answer
        ensures { FileEndWritten msb self out.old (as_answer result) out.new }
    {
        rows::write_row(FileEnd::CODE, &self.numbers(), &[0u8; 2], msb, out)
    }
}
