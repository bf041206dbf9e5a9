// What is a C-32 ping's own, type 10010: TR Table 20. The places of its header are those of `PingHeader`.
ghost use Rattle.std.specs.Prelude.{◌≡◌, [], ◌∷◌};
ghost use Rattle.layout.specs.Types.{lengths_of, least_of, step_of};

use layout::types;

pub const CODE: u16 = types::PING_C;

// The bytes of its shortest tuple, and by what step it may be longer.
pub const LEAST: usize = 40;

pub const STEP: usize = 4;

// The place of its number of samples, and of its first word.
pub const NUMBER_OF_SAMPLES: usize = samples::COUNT;

pub const WORDS: usize = samples::WORDS;

// Its lengths: the least, and the step.
pub fn lengths() -> [usize; 2]
    ensures { result ≡ least_of (lengths_of 10010) ∷ step_of (lengths_of 10010) ∷ [] }
{
    [LEAST, STEP]
}
