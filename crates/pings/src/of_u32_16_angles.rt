// What is a U-32-16-angles ping's own, type 10001: TR Table 19. The places of its header are those of `PingHeader`.
ghost use Rattle.std.specs.Prelude.{◌≡◌, [], ◌∷◌};
ghost use Rattle.layout.specs.Types.{lengths_of, least_of, step_of};

use layout::types;

pub const CODE: u16 = types::PING_ANGLES;

// The bytes of its shortest tuple, and by what step it may be longer.
pub const LEAST: usize = 40;

pub const STEP: usize = 8;

// The place of its first sample: a number of four bytes, and the angles alongship and athwartship of two bytes each.
pub const SAMPLES: usize = samples::SAMPLES;

// Its lengths: the least, and the step.
pub fn lengths() -> [usize; 2]
    ensures { result ≡ least_of (lengths_of 10001) ∷ step_of (lengths_of 10001) ∷ [] }
{
    [LEAST, STEP]
}
