// Rows: the record of any type, read as the numbers of its row and written from them. Each record's view stands on these two calls.
#![tactic(auto)]

ghost use Rattle.std.specs.Prelude.{◌≡◌, ◌+◌, ◌%◌, ◌^◌, ◌≤◌, ◌<◌, length, drop};
ghost use Rattle.std.proofs.lemmas.List.Edits.{sets};
ghost use Rattle.order.specs.Order.{signed_of, pattern_of};
ghost use Rattle.layout.specs.Views.{as_answer};
ghost use Rattle.layout.specs.Fields.{size, many};
ghost use Rattle.layout.specs.inner.Codes.{rowed};
ghost use Rattle.turning.specs.Rows.{values_of, numbers_in};
ghost use Rattle.tuples.specs.Readers.{records_of};
ghost use Rattle.tuples.specs.inner.Opening.{Readable};
ghost use Rattle.rows.specs.inner.Listed.{listed_fields};
ghost use Rattle.rows.specs.Readers.{RowAt};
ghost use Rattle.rows.specs.Views.{as_row};
ghost use Rattle.rows.specs.Writers.{RowWritten};

use layout::codes::Code;
use layout::{Answer, FIELDS, Refusal};
use tuples::Part;

// The bytes of a tuple around its fields and characters: data size and type, attribute and backlink.
const AROUND: usize = frame::DATA + frame::TAIL;

// What reading gives: the numbers are in lent memory, and where the characters stand; or a refusal.
pub type RowRead = Result<Part, Refusal>;

// Where a channel's row is parted, and an EK-500 sounder's: so many fields, of so many bytes and with so many numbers, stand before that
// place. Both makers' channels have as many fields and bytes there.
const CHANNEL_FIELDS: usize = 14;

const CHANNEL_BYTES: usize = 36;

const CHANNEL_NUMBERS: usize = 13;

const EK500_CHANNEL_NUMBERS: usize = 14;

const EK500_FIELDS: usize = 8;

const EK500_BYTES: usize = 18;

const EK500_NUMBERS: usize = 8;

// Reads the numbers of a row of more than fifteen fields, one part behind the other: the compiler makes plain loads of a loop over fifteen
// at most. Of a channel,
fn read_channel(file: &[u8], at: usize, msb: bool, numbers: &mut [u32])
    requires listed_fields_in_bounds { at + size (listed_fields 3) ≤ length file.now }
    requires listed_fields_in_bounds_2 { many (listed_fields 3) ≤ length numbers.old }
    ensures { numbers.new
        ≡ sets numbers.old 0 (numbers_in (values_of msb (listed_fields 3) (drop at file.now))) }
{
    let row = layout::row(3);
    turning::read_row(file, at, msb, &row[0..CHANNEL_FIELDS], numbers, 0);
    turning::read_row(
        file,
        at + CHANNEL_BYTES,
        msb,
        &row[CHANNEL_FIELDS..FIELDS[3]],
        numbers,
        CHANNEL_NUMBERS,
    );
}

// of an EK-500's channel,
fn read_ek500_channel(file: &[u8], at: usize, msb: bool, numbers: &mut [u32])
    requires listed_fields_in_bounds { at + size (listed_fields 4) ≤ length file.now }
    requires listed_fields_in_bounds_2 { many (listed_fields 4) ≤ length numbers.old }
    ensures { numbers.new
        ≡ sets numbers.old 0 (numbers_in (values_of msb (listed_fields 4) (drop at file.now))) }
{
    let row = layout::row(4);
    turning::read_row(file, at, msb, &row[0..CHANNEL_FIELDS], numbers, 0);
    turning::read_row(
        file,
        at + CHANNEL_BYTES,
        msb,
        &row[CHANNEL_FIELDS..FIELDS[4]],
        numbers,
        EK500_CHANNEL_NUMBERS,
    );
}

// and of an EK-500.
fn read_ek500_sounder(file: &[u8], at: usize, msb: bool, numbers: &mut [u32])
    requires listed_fields_in_bounds { at + size (listed_fields 2) ≤ length file.now }
    requires listed_fields_in_bounds_2 { many (listed_fields 2) ≤ length numbers.old }
    ensures { numbers.new
        ≡ sets numbers.old 0 (numbers_in (values_of msb (listed_fields 2) (drop at file.now))) }
{
    let row = layout::row(2);
    turning::read_row(file, at, msb, &row[0..EK500_FIELDS], numbers, 0);
    turning::read_row(
        file,
        at + EK500_BYTES,
        msb,
        &row[EK500_FIELDS..FIELDS[2]],
        numbers,
        EK500_NUMBERS,
    );
}

// Reads the numbers of a row, by its listing. Each arm names its row by a constant, and how many fields it has before its dots: so that
// the compiler, which takes `turning::read_row` into each arm for it is short, makes plain loads of the loop over it.
fn read_listed(file: &[u8], at: usize, msb: bool, listing: usize, numbers: &mut [u32])
    requires listing_lt_rowed { listing < rowed }
    requires listing_in_bounds { at + size (listed_fields listing) ≤ length file.now }
    requires listing_in_bounds_2 { many (listed_fields listing) ≤ length numbers.old }
    ensures { numbers.new
        ≡ sets numbers.old 0 (numbers_in (values_of msb (listed_fields listing) (drop at file.now))) }
{
    match listing {
        0 => turning::read_row(file, at, msb, &layout::row(0)[0..FIELDS[0]], numbers, 0),
        1 => turning::read_row(file, at, msb, &layout::row(1)[0..FIELDS[1]], numbers, 0),
        2 => read_ek500_sounder(file, at, msb, numbers),
        3 => read_channel(file, at, msb, numbers),
        4 => read_ek500_channel(file, at, msb, numbers),
        5 => turning::read_row(file, at, msb, &layout::row(5)[0..FIELDS[5]], numbers, 0),
        6 => turning::read_row(file, at, msb, &layout::row(6)[0..FIELDS[6]], numbers, 0),
        7 => turning::read_row(file, at, msb, &layout::row(7)[0..FIELDS[7]], numbers, 0),
        8 => turning::read_row(file, at, msb, &layout::row(8)[0..FIELDS[8]], numbers, 0),
        9 => turning::read_row(file, at, msb, &layout::row(9)[0..FIELDS[9]], numbers, 0),
        10 => turning::read_row(file, at, msb, &layout::row(10)[0..FIELDS[10]], numbers, 0),
        11 => turning::read_row(file, at, msb, &layout::row(11)[0..FIELDS[11]], numbers, 0),
        12 => turning::read_row(file, at, msb, &layout::row(12)[0..FIELDS[12]], numbers, 0),
        13 => turning::read_row(file, at, msb, &layout::row(13)[0..FIELDS[13]], numbers, 0),
        _ => turning::read_row(file, at, msb, &layout::row(14)[0..FIELDS[14]], numbers, 0),
    }
}

// Reads the record of the tuple that was opened; 19 at 0 for fewer numbers than it has.
fn take_row(
    file: &[u8],
    place: usize,
    code: u16,
    msb: bool,
    whole: usize,
    numbers: &mut [u32],
) -> RowRead
    requires { Readable (records_of code) file.now place msb whole code }
    ensures { RowAt code file.now place numbers.old (as_row result) numbers.new }
{
    let listing = layout::listing_of(code);
    let measure = layout::measure(listing);
    let many = measure[layout::NUMBERS];
    if numbers.len() <= many {
        return layout::refuse(Code::NoRoom, 0);
    }
    read_listed(file, place + frame::DATA, msb, listing, numbers);
    numbers[many] = order::read4(file, place + whole - frame::TAIL, msb);
    Ok(Part {
        place: place + frame::DATA + measure[layout::BEFORE],
        length: whole - AROUND - measure[layout::BARE],
    })
}

// Reads the record of a type at a place of a file: its numbers in the row's order, the attribute last, a signed one as its pattern.
pub fn read_row(file: &[u8], place: usize, code: u16, numbers: &mut [u32]) -> RowRead
    ensures { RowAt code file.now place numbers.old (as_row result) numbers.new }
{
    let found = tuples::open_record(file, place, code)?;
    take_row(file, place, code, found.msb, found.whole, numbers)
}

// Writes the record of a type from the numbers of its row, in its order, the attribute last, and its characters.
pub fn write_row(code: u16, numbers: &[u32], text: &[u8], msb: bool, out: &mut [u8]) -> Answer
    ensures { RowWritten code numbers.now text.now msb out.old (as_answer result) out.new }
{
    if !tuples::is_record(code) {
        return layout::refuse(Code::Unfit, 0);
    }
    let measure = layout::measure(layout::listing_of(code));
    let many = measure[layout::NUMBERS];
    if numbers.len() <= many {
        return layout::refuse(Code::Unfit, 0);
    }
    let bare = measure[layout::BARE];
    let whole = bare + text.len() + AROUND;
    if !layout::fits(code, whole) {
        return layout::refuse(Code::Unfit, 0);
    }
    if frame::MOST < whole {
        return layout::refuse(Code::Overfull, 0);
    }
    let attribute = order::signed4(numbers[many]);
    // the characters are the row's own, or stand behind its fields
    if bare < measure[layout::SIZE] {
        return tuples::write_tuple(code, whole, numbers, text, &[], attribute, msb, out);
    }
    tuples::write_tuple(code, whole, numbers, &[], text, attribute, msb, out)
}

// A field of a view by a number of its row: the lower bytes of its width, signed or not.
pub fn unsigned2(n: u32) -> u16
    ensures { result ≡ n % 256 ^ 2 }
{
    (n % 65536) as u16
}

pub fn unsigned4(n: u32) -> u32
    ensures { result ≡ n % 256 ^ 4 }
{
    n
}

pub fn signed2(n: u32) -> i16
    ensures { result ≡ signed_of 2 (n % 256 ^ 2) }
{
    order::signed2(unsigned2(n))
}

pub fn signed4(n: u32) -> i32
    ensures { result ≡ signed_of 4 (n % 256 ^ 4) }
{
    order::signed4(unsigned4(n))
}

// A number of a row by a view's field.
pub fn of_unsigned2(n: u16) -> u32
    ensures { result ≡ n }
{
    n as u32
}

pub fn of_signed2(z: i16) -> u32
    ensures { result ≡ pattern_of 2 z }
{
    of_unsigned2(order::pattern2(z))
}

pub fn of_signed4(z: i32) -> u32
    ensures { result ≡ pattern_of 4 z }
{
    order::pattern4(z)
}
