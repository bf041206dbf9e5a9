// What is a U-16 ping's own, type 10030: TR Table 21. The places of its header are those of `PingHeader`.
ghost use Rattle.std.specs.Prelude.{◌≡◌, [], ◌∷◌};
ghost use Rattle.layout.specs.Types.{lengths_of, least_of, step_of};

use layout::types;

pub const CODE: u16 = types::PING_U16;

// The bytes of its shortest tuple, and by what step it may be longer.
pub const LEAST: usize = 36;

pub const STEP: usize = 4;

// The place of its first sample: a number and a value of two bytes each.
pub const SAMPLES: usize = samples::SAMPLES;

// Its lengths: the least, and the step.
pub fn lengths() -> [usize; 2]
    ensures { result ≡ least_of (lengths_of 10030) ∷ step_of (lengths_of 10030) ∷ [] }
{
    [LEAST, STEP]
}
