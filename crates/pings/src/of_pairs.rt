// What is a U-32 ping's own, type 10000: TR Table 6. The places of its header are those of `PingHeader`.
ghost use Rattle.std.specs.Prelude.{◌≡◌, [], ◌∷◌};
ghost use Rattle.layout.specs.Types.{lengths_of, least_of, step_of};

use layout::types;

pub const CODE: u16 = types::PING_U;

// The bytes of its shortest tuple, and by what step it may be longer.
pub const LEAST: usize = 40;

pub const STEP: usize = 8;

// The place of its first pair, a sample number and a value of four bytes each.
pub const PAIRS: usize = samples::SAMPLES;

// Its lengths: the least, and the step.
pub fn lengths() -> [usize; 2]
    ensures { result ≡ least_of (lengths_of 10000) ∷ step_of (lengths_of 10000) ∷ [] }
{
    [LEAST, STEP]
}
