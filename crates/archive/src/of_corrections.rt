// Corrections beside the deposit: where the ping of a channel and a number stands, and in which of two files.
ghost use Rattle.std.specs.Prelude.{◌≡◌, [], ◌∷◌, ◌++◌, ◌+◌, ◌≤◌, length};
ghost use Rattle.std.proofs.lemmas.List.Edits.{sets};
ghost use Rattle.layout.specs.Answers.{accepting};
ghost use Rattle.corrections.specs.Corrections.{found_numbers, found_fields, PingFound};
ghost use Rattle.archive.specs.Saying.{head, SaidAlone};
ghost use Rattle.archive.specs.Numbers.{five, told};

use super::{HEAD, tell_found};
use layout::SoftwareChannel;
use layout::codes::Code;

// The entries of finding a ping.
const FOUND: usize = HEAD + 2;

// Tells a ping that was found: its file's mark, where it stands, and how many bytes it has.
fn tell_part(answer: &mut [u64], mark: u8, from: usize, bytes: usize) -> u8
    requires { head + 2 ≤ length answer.old }
    ensures value { result ≡ 0 }
    ensures answer_after { answer.new ≡ sets answer.old 0 (five (accepting 1 bytes) ++ (mark ∷ from ∷ [])) }
{
    let fields = [u64::from(mark), from as u64];
    tell_found(answer, layout::accept(1, bytes), &fields)
}

#[unsafe(no_mangle)]
pub extern "C" fn hac_find_ping(
    deposit: &[u8],
    corrections: &[u8],
    channel: u16,
    number: u32,
    answer: &mut [u64],
) -> u8
    ensures { SaidAlone 2 (told found_numbers found_fields)
        (PingFound deposit.now corrections.now (record { 0 = channel }) number)
        answer.old result answer.new }
{
    if answer.len() < FOUND {
        return Code::NoRoom as u8;
    }
    match corrections::find_ping(deposit, corrections, SoftwareChannel(channel), number) {
        Ok(held) => tell_part(answer, held.source.mark(), held.span.from, held.span.length),
        Err(refused) => {
            let fields = [u64::from(refused.mark())];
            tell_found(answer, Err(refused.refusal), &fields)
        }
    }
}
