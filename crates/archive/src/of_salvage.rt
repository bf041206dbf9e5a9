// Salvage: what is kept of a damaged recording.
ghost use Rattle.salvage.specs.Outcome.{Outcome};
ghost use Rattle.std.specs.Prelude.{List, ℕ};
ghost use Rattle.salvage.specs.Salvage.{salvage_numbers, salvage_fields, Salvaged};
ghost use Rattle.archive.specs.Saying.{Said};
ghost use Rattle.archive.specs.Numbers.{told};

use super::{HEAD, tell_found, tell_refusal};
use layout::codes::Code;

// The entries of a salvage.
const SALVAGE: usize = HEAD + 2;

#[unsafe(no_mangle)]
pub extern "C" fn hac_salvage(
    file: &[u8],
    out: &mut [u8],
    table: &mut [usize],
    answer: &mut [u64],
) -> u8
    ensures { Said 2 (told salvage_numbers salvage_fields)
        (λ (o : Outcome) (m : List ℕ × List ℕ).
        Salvaged file.now out.old table.old o m.0 m.1)
        answer.old (out.old, table.old) result
        answer.new (out.new, table.new) }
{
    if answer.len() < SALVAGE {
        return Code::NoRoom as u8;
    }
    match salvage::salvage(file, out, table) {
        Ok(saved) => {
            let fields = [saved.ranges as u64, saved.tried as u64];
            tell_found(answer, Ok(saved.counts), &fields)
        }
        Err(refusal) => tell_refusal(answer, refusal),
    }
}
