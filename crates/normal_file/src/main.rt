// Program one: reads a file as lines of hexadecimal from standard input and prints its normal form, or why there is none.
#![tactic(auto)]

ghost use Rattle.std.specs.Prelude.{◌≡◌, OnOk, IfSome, length};
ghost use Rattle.std.specs.Io.KnownBytes.{Appends};
ghost use Rattle.hexlines.specs.Programs.{normal_file};

use std::io;
use std::io::{Read, Write};

// Space for the text, and for what is printed in its place. As a function, it keeps its zeros out of the proofs of those who call it.
fn space() -> [u8; hexlines::ENOUGH]
    ensures { 196609 ≡ length result }
{
    [0; hexlines::ENOUGH]
}

// Prints what the program prints of the whole input.
fn run<R: Read, W: Write>(input: &mut R, output: &mut W) -> io::Result<()>
    ensures { OnOk result (IfSome (R.remaining input.old)
        (λ text. Appends (W.contents output.old) (W.contents output.new) (normal_file text))) }
{
    let mut text = space();
    let n = streams::read_full(input, &mut text)?;
    let printed = hexlines::normal_file(&mut text, n);
    output.write_all(&text[..printed])
}

fn main(rt: HostRuntime) -> io::Result<()> {
    run(&mut rt.stdin(), &mut rt.stdout())
}
