// Settings: which thresholds and attitudes held at each ping.
ghost use Rattle.layout.specs.Answer.{Answer};
ghost use Rattle.std.specs.Prelude.{List, ℕ};
ghost use Rattle.settings.specs.Settings.{SettingsTold};
ghost use Rattle.archive.specs.Saying.{Said};
ghost use Rattle.archive.specs.Numbers.{five};

use super::{HEAD, tell_answer};
use layout::codes::Code;

#[unsafe(no_mangle)]
pub extern "C" fn hac_settings(
    file: &[u8],
    pings: &mut [usize],
    thresholds: &mut [usize],
    attitudes: &mut [usize],
    answer: &mut [u64],
) -> u8
    ensures { Said 0 five
        (λ (a : Answer) (m : List ℕ × List ℕ × List ℕ).
        SettingsTold file.now pings.old thresholds.old attitudes.old a
        m.0 m.1 m.2)
        answer.old (pings.old, thresholds.old, attitudes.old) result
        answer.new (pings.new, thresholds.new, attitudes.new) }
{
    if answer.len() < HEAD {
        return Code::NoRoom as u8;
    }
    tell_answer(
        answer,
        settings::settings(file, pings, thresholds, attitudes),
    )
}
