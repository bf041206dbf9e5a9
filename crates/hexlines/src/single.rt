// A mark and one tuple, decoded.
ghost use Rattle.std.specs.Prelude.{◌≤◌, length};
ghost use Rattle.hexlines.specs.Lines.{bytes};
ghost use Rattle.hexlines.specs.Programs.{tuple_program};
ghost use Rattle.hexlines.specs.Printing.{most_printed};
ghost use Rattle.hexlines.specs.inner.Printing.{Put};

use crate::{print_answer, space};

// Prints the normal form of a mark and one tuple, or its refusal.
// Beside `whole::print`: one function for both would take the normaliser and, in its contract, all that the two promise; it's no plainer.
pub fn print(printed: &mut [u8], file: &[u8]) -> usize
    requires { most_printed ≤ length printed.old }
    ensures { Put printed.old 0 (tuple_program (bytes file.now)) result printed.new }
{
    let mut form = space();
    let answer = normal::normalise_tuple(file, &mut form);
    print_answer(printed, answer, &form)
}
