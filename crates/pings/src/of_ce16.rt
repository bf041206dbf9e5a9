// What is a CE-16 ping's own, type 10050: TR Table 24. The places of its header are those of `PingHeader`.
ghost use Rattle.std.specs.Prelude.{◌≡◌, [], ◌∷◌};
ghost use Rattle.layout.specs.Types.{lengths_of, least_of, step_of};

use layout::types;

pub const CODE: u16 = types::PING_CE16;

// The bytes of its shortest tuple, and by what step it may be longer.
pub const LEAST: usize = 40;

pub const STEP: usize = 4;

// The place of its number of samples, and of its first word, of two bytes; the last word may have a space of two bytes behind it.
pub const NUMBER_OF_SAMPLES: usize = samples::COUNT;

pub const WORDS: usize = samples::WORDS;

// Its lengths: the least, and the step.
pub fn lengths() -> [usize; 2]
    ensures { result ≡ least_of (lengths_of 10050) ∷ step_of (lengths_of 10050) ∷ [] }
{
    [LEAST, STEP]
}
