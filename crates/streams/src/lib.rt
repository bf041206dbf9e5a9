// Streams of bytes, read as far as there is space.
#![tactic(auto)]

ghost use Rattle.std.specs.Prelude.{◌≡◌, IfOk, IfSome, length, take};
ghost use Rattle.std.specs.Io.{ReadsAtMost};

use std::io;
use std::io::Read;

// Reads until the space is full or the input ends, and answers how many bytes were read.
pub fn read_full<R: Read>(reader: &mut R, space: &mut [u8]) -> io::Result<usize>
    ensures within { ReadsAtMost result space.new }
    ensures bytes { IfOk result (λ n. IfSome (R.remaining reader.old) (λ xs. take n space.new ≡ take (length space.old) xs)) }
{
    let mut filled = 0;
    while filled < space.len() {
        let n = reader.read(&mut space[filled..])?;
        if n == 0 {
            return Ok(filled);
        }
        filled += n;
    }
    Ok(filled)
}
