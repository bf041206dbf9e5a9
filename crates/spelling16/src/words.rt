// The words of C-16 and CE-16 pings, and the values of a U-16 ping: what the code that writes words of either width asks of them.
ghost use Rattle.std.proofs.Common.{rules};
ghost use Rattle.layout.specs.Families.{narrow};
ghost use Rattle.samples.specs.inner.Narrow.{respelled};

use spelling::words::Words;

// CE-16's second spelling of 0.
const MINUS_ZERO: u32 = 0x8000;

// Words of two bytes.
pub struct Narrow;

impl Words for Narrow {
    ghost family = { narrow };

    ghost WORD = { 2 };

    const WORD: usize = samples16::WORD;

    ghost FULL = { 256 };

    const FULL: u32 = samples16::RUN_SAMPLES as u32;

    ghost SHORTEST_RUN = { 0xff00 };

    const SHORTEST_RUN: u32 = samples16::SHORTEST_RUN as u32;

    ghost kept = { respelled };

    ghost widths = { Prim.search rules };

    ghost radix = { Prim.search rules };

    ghost longest = { Prim.search rules };

    ghost sample = { Prim.search rules };

    fn read(bytes: &[u8], msb: bool) -> u32 {
        u32::from(order::read2(bytes, 0, msb))
    }

    fn store(out: &mut [u8], at: usize, msb: bool, word: u32) {
        order::store2(out, at, msb, (word % 65536) as u16)
    }

    fn is_run(word: u32) -> bool {
        samples16::is_run(word as u16)
    }

    // No C-16 word within the limits is CE-16's second spelling of 0, so that it needn't be known which ping it is.
    fn respell(word: u32) -> u32 {
        word * ((word != MINUS_ZERO) as u32)
    }
}
