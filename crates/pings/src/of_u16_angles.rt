// What is a U-16-angles ping's own, type 10031: TR Table 22. The places of its header are those of `PingHeader`.
ghost use Rattle.std.specs.Prelude.{◌≡◌, [], ◌∷◌};
ghost use Rattle.layout.specs.Types.{lengths_of, least_of, step_of, more_of};

use layout::types;

pub const CODE: u16 = types::PING_U16_ANGLES;

// The bytes of its shortest tuple, of one sample and a space of two bytes. An odd number of samples has such a space behind it, an even
// one has none: so a tuple is longer by steps of two samples, 12 bytes, or by such steps and MORE bytes, which are a second sample less
// the space.
pub const LEAST: usize = 40;

pub const STEP: usize = 12;

pub const MORE: usize = 4;

// The place of its first sample: a number, and the angles alongship and athwartship, of two bytes each.
pub const SAMPLES: usize = samples::SAMPLES;

// Its lengths: the least, the step, and how many bytes more there may be.
pub fn lengths() -> [usize; 3]
    ensures { result ≡ least_of (lengths_of 10031) ∷ step_of (lengths_of 10031) ∷ more_of (lengths_of 10031) ∷ [] }
{
    [LEAST, STEP, MORE]
}
