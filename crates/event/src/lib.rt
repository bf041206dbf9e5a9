// Made from views/records.txt by views/make.
// Event, type 10110: TR Table 11. An event marker. Its text, a multiple of four characters and not none, stands beside it; to
// write another is refused by 9 at 0, one that makes the tuple too long by 11 at 0.
#![tactic(auto, unfolding(layout::specs::Types::listings, layout::specs::Types::among, layout::specs::Types::listing_of))]

ghost use Rattle.std.specs.Prelude.{◌≡◌};
ghost use Rattle.tuples.specs.Readers.{row_of};
ghost use Rattle.rows.specs.Integers.{integers_from, patterns};
ghost use Rattle.rows.specs.Places.{places_of};
ghost use Rattle.layout.specs.Views.{as_answer};
ghost use Rattle.event.specs.Event.{event_of, event_integers, EventAt, EventWritten, as_read};

use layout::{Answer, Refusal, types};
use tuples::Part;

#[derive(Clone, Copy)]
pub struct Event {
    pub time_fraction: u16,
    pub time_cpu: u32,
    pub tuple_attribute: i32,
}

// What reading gives: the record and the place of its text, or a refusal.
pub type EventRead = Result<(Event, Part), Refusal>;

impl Event {
    pub const CODE: u16 = types::EVENT;

    // The bytes of its shortest tuple, and by how many another is longer, once or more.
    pub const LEAST: usize = 24;

    pub const STEP: usize = 4;

    // Where its fields stand, in bytes from the tuple's first.
    pub const TIME_FRACTION: usize = 6;

    pub const TIME_CPU: usize = 8;

    pub const TEXT: usize = 12;

    // The record of these fields.
    pub fn new(time_fraction: u16, time_cpu: u32, tuple_attribute: i32) -> Event
        ensures { result ≡ record {
          time_fraction = time_fraction;
          time_cpu = time_cpu;
          tuple_attribute = tuple_attribute;
        } }
    {
        Event {
            time_fraction,
            time_cpu,
            tuple_attribute,
        }
    }

    // The places of its fields in the row's order, in its shortest tuple, then the length of that, and the step to longer ones.
    pub fn places() -> [usize; 6]
        ensures { result ≡ places_of 10110 }
    {
        [
            Event::TIME_FRACTION,
            Event::TIME_CPU,
            Event::TEXT,
            Event::LEAST - frame::TAIL,
            Event::LEAST,
            Event::STEP,
        ]
    }

    // The record of a row's numbers, each by the lower bytes of its width.
    pub fn of(numbers: [u32; 3]) -> Event
        ensures { result ≡ event_of (integers_from (row_of 10110 0) numbers 0) }
    {
        Event {
            time_fraction: rows::unsigned2(numbers[0]),
            time_cpu: rows::unsigned4(numbers[1]),
            tuple_attribute: rows::signed4(numbers[2]),
        }
    }

    // The numbers of the row, in its order, the attribute last; a signed one as its pattern.
    pub fn numbers(self) -> [u32; 3]
        ensures { result ≡ patterns (row_of 10110 0) (event_integers self) }
    {
        [
            rows::of_unsigned2(self.time_fraction),
            self.time_cpu,
            rows::of_signed4(self.tuple_attribute),
        ]
    }

    // Reads the tuple at a place of a file.
    pub fn read(file: &[u8], place: usize) -> EventRead
        ensures { EventAt file.now place (as_read result) }
    {
        let mut numbers = [0u32; 3];
        let text = rows::read_row(file, place, Event::CODE, &mut numbers)?;
        Ok((Event::of(numbers), text))
    }

    // Writes the tuple; 9 unless there are 4 characters of text or more by steps of 4, 11 where the tuple is too long, then 19.
    pub fn write(self, text: &[u8], msb: bool, out: &mut [u8]) -> Answer
        ensures { EventWritten msb self text.now out.old (as_answer result) out.new }
    {
        rows::write_row(Event::CODE, &self.numbers(), text, msb, out)
    }
}
