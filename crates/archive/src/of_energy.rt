// Energies: the echo energy of a ping, and of all pings of a file.
ghost use Rattle.layout.specs.Answer.{Answer};
ghost use Rattle.std.specs.Prelude.{List, ℕ};
ghost use Rattle.energy.specs.Energy.{energy_numbers, energy_fields, EnergyTold, EnergiesTold};
ghost use Rattle.archive.specs.Saying.{Said, SaidAlone};
ghost use Rattle.archive.specs.Numbers.{five, told};

use super::{HEAD, tell_answer, tell_found, tell_refusal};
use layout::codes::Code;

// The entries of an energy.
const ENERGY: usize = HEAD + 1;

#[unsafe(no_mangle)]
pub extern "C" fn hac_energy(file: &[u8], place: usize, answer: &mut [u64]) -> u8
    ensures { SaidAlone 1 (told energy_numbers energy_fields) (EnergyTold file.now place)
        answer.old result answer.new }
{
    if answer.len() < ENERGY {
        return Code::NoRoom as u8;
    }
    match energy::energy(file, place) {
        Ok(told) => {
            let fields = [told.units];
            tell_found(answer, Ok(told.counts), &fields)
        }
        Err(refusal) => tell_refusal(answer, refusal),
    }
}

#[unsafe(no_mangle)]
pub extern "C" fn hac_energies(
    file: &[u8],
    places: &mut [usize],
    energies: &mut [u64],
    codes: &mut [u8],
    answer: &mut [u64],
) -> u8
    ensures { Said 0 five
        (λ (a : Answer) (m : List ℕ × List ℕ × List ℕ).
        EnergiesTold file.now places.old energies.old codes.old a
        m.0 m.1 m.2)
        answer.old (places.old, energies.old, codes.old) result
        answer.new (places.new, energies.new, codes.new) }
{
    if answer.len() < HEAD {
        return Code::NoRoom as u8;
    }
    tell_answer(answer, energy::energies(file, places, energies, codes))
}
