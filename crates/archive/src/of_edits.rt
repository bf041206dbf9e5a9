// A file written anew with its index: the index written, tuples appended, a tuple removed.
ghost use Rattle.edits.specs.Edits.{Indexed, Appended, Removed};
ghost use Rattle.archive.specs.Saying.{Said};
ghost use Rattle.archive.specs.Numbers.{five};

use super::{HEAD, tell_answer};
use layout::codes::Code;

#[unsafe(no_mangle)]
pub extern "C" fn hac_index(file: &[u8], out: &mut [u8], answer: &mut [u64]) -> u8
    ensures { Said 0 five (Indexed file.now out.old)
        answer.old out.old result answer.new out.new }
{
    if answer.len() < HEAD {
        return Code::NoRoom as u8;
    }
    tell_answer(answer, edits::index(file, out))
}

#[unsafe(no_mangle)]
pub extern "C" fn hac_append(file: &[u8], tuples: &[u8], out: &mut [u8], answer: &mut [u64]) -> u8
    ensures { Said 0 five (Appended file.now tuples.now out.old)
        answer.old out.old result answer.new out.new }
{
    if answer.len() < HEAD {
        return Code::NoRoom as u8;
    }
    tell_answer(answer, edits::append(file, tuples, out))
}

#[unsafe(no_mangle)]
pub extern "C" fn hac_remove(file: &[u8], place: usize, out: &mut [u8], answer: &mut [u64]) -> u8
    ensures { Said 0 five (Removed file.now place out.old)
        answer.old out.old result answer.new out.new }
{
    if answer.len() < HEAD {
        return Code::NoRoom as u8;
    }
    tell_answer(answer, edits::remove(file, place, out))
}
