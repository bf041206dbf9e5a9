// Records: read and written by a type code and the numbers of its row, in one layout, so that a caller reads, alters and writes back.
ghost use Rattle.std.specs.Prelude.{List, ℕ};
ghost use Rattle.rows.specs.Readers.{answer_numbers, row_fields, RowAt};
ghost use Rattle.rows.specs.Writers.{RowWritten};
ghost use Rattle.archive.specs.Saying.{Said};
ghost use Rattle.archive.specs.Numbers.{five, told};

use super::{HEAD, tell_answer, tell_found, tell_refusal};
use layout::codes::Code;

// The entries of a record that was read: behind the answer's numbers, where its characters stand and how many they are.
const RECORD: usize = HEAD + 2;

#[unsafe(no_mangle)]
pub extern "C" fn hac_read_record(
    file: &[u8],
    place: usize,
    code: u16,
    numbers: &mut [u32],
    answer: &mut [u64],
) -> u8
    ensures { Said 2 (told answer_numbers row_fields) (RowAt code file.now place numbers.old)
        answer.old numbers.old result answer.new numbers.new }
{
    if answer.len() < RECORD {
        return Code::NoRoom as u8;
    }
    match rows::read_row(file, place, code, numbers) {
        Ok(text) => {
            let fields = [text.place as u64, text.length as u64];
            tell_found(answer, layout::accept(1, 0), &fields)
        }
        Err(refusal) => tell_refusal(answer, refusal),
    }
}

#[unsafe(no_mangle)]
pub extern "C" fn hac_write_record(
    code: u16,
    numbers: &[u32],
    text: &[u8],
    msb: bool,
    out: &mut [u8],
    answer: &mut [u64],
) -> u8
    ensures { Said 0 five (RowWritten code numbers.now text.now msb out.old)
        answer.old out.old result answer.new out.new }
{
    if answer.len() < HEAD {
        return Code::NoRoom as u8;
    }
    tell_answer(answer, rows::write_row(code, numbers, text, msb, out))
}
