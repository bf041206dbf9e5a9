// Readings: what a viewer is shown for each sample number of a ping.
ghost use Rattle.layout.specs.Answer.{Answer};
ghost use Rattle.std.specs.Prelude.{List, Float, ℕ};
ghost use Rattle.readings.specs.Readings.{ReadingsTold};
ghost use Rattle.archive.specs.Saying.{Said};
ghost use Rattle.archive.specs.Numbers.{five};

use super::{HEAD, tell_answer};
use layout::codes::Code;

#[unsafe(no_mangle)]
pub extern "C" fn hac_readings(
    file: &[u8],
    place: usize,
    first: usize,
    cases: &mut [u8],
    doubles: &mut [f64],
    answer: &mut [u64],
) -> u8
    ensures { Said 0 five
        (λ (a : Answer) (m : List ℕ × List Float).
        ReadingsTold file.now place first cases.old doubles.old a m.0 m.1)
        answer.old (cases.old, doubles.old) result
        answer.new (cases.new, doubles.new) }
{
    if answer.len() < HEAD {
        return Code::NoRoom as u8;
    }
    tell_answer(
        answer,
        readings::readings(file, place, first, cases, doubles),
    )
}
