// A whole file, decoded.
ghost use Rattle.std.specs.Prelude.{◌≤◌, length};
ghost use Rattle.hexlines.specs.Lines.{bytes};
ghost use Rattle.hexlines.specs.Programs.{file_program};
ghost use Rattle.hexlines.specs.Printing.{most_printed};
ghost use Rattle.hexlines.specs.inner.Printing.{Put};

use crate::{print_answer, space};

// Prints a file's normal form, or its refusal.
pub fn print(printed: &mut [u8], file: &[u8]) -> usize
    requires { most_printed ≤ length printed.old }
    ensures { Put printed.old 0 (file_program (bytes file.now)) result printed.new }
{
    let mut form = space();
    let answer = normal::normalise(file, &mut form);
    print_answer(printed, answer, &form)
}
