// Quantities: what the samples of a channel are, and in which units a ping stores them.
#![tactic(auto)]

ghost use Rattle.std.specs.Prelude.{◌≡◌};
ghost use Rattle.quantities.specs.Quantities.{quantity_by, per_volt, per_decibel};
ghost use Rattle.quantities.specs.inner.Codes.{family_of};

use layout::{Maker, types};

// What the samples of a channel are: volts, volume backscattering strength, target strength, or none of these.
#[derive(Clone, Copy)]
pub enum Quantity {
    Volts,
    Sv,
    Ts,
    Other,
}

// TR's types of data sample: Biosonics', and the EK-500's.
const VOLTS: u16 = 0;

const SV: u16 = 1;

const TS: u16 = 2;

const EK500_SV: u16 = 2;

const EK500_TS: u16 = 3;

// What a maker's type of data sample is.
pub fn quantity_by(maker: Maker, samples: u16) -> Quantity
    ensures { result ≡ quantity_by maker samples }
{
    match maker {
        Maker::Biosonics => match samples {
            VOLTS => Quantity::Volts,
            SV => Quantity::Sv,
            TS => Quantity::Ts,
            _ => Quantity::Other,
        },
        Maker::Simrad => match samples {
            EK500_SV => Quantity::Sv,
            EK500_TS => Quantity::Ts,
            _ => Quantity::Other,
        },
    }
}

// How many of the units of a ping's values are one volt,
pub fn per_volt(code: u16) -> u32
    ensures { result ≡ per_volt (family_of code) }
{
    match code {
        types::PING_U16 => 1_000,
        types::PING_C16 => 1_000,
        types::PING_CE16 => 10_000,
        types::PING_ANGLES => 0,
        types::PING_U16_ANGLES => 0,
        _ => 1_000_000,
    }
}

// and how many are one decibel.
pub fn per_decibel(code: u16) -> u32
    ensures { result ≡ per_decibel (family_of code) }
{
    match code {
        types::PING_U16 => 100,
        types::PING_C16 => 100,
        types::PING_CE16 => 1_000,
        types::PING_ANGLES => 0,
        types::PING_U16_ANGLES => 0,
        _ => 1_000_000,
    }
}
