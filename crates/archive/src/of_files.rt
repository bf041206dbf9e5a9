// Whole files: the check, the walk, a ping's parents, the normal form.
ghost use Rattle.std.specs.Prelude.{◌≡◌, ◌+◌, ◌≤◌, length, get_or};
ghost use Rattle.std.proofs.lemmas.List.Edits.{sets};
ghost use Rattle.frame.specs.Views.{as_step};
ghost use Rattle.frame.specs.Steps.{step_numbers, step_fields, SteppedForward, SteppedBackward};
ghost use Rattle.intake.specs.Check.{Checked};
ghost use Rattle.intake.specs.Asking.{asked_numbers, asked_fields, AskedFor};
ghost use Rattle.normal.specs.Normaliser.{Normalised};
ghost use Rattle.normal.specs.Single.{NormalisedTuple};
ghost use Rattle.archive.specs.Saying.{head, Said, SaidAlone};
ghost use Rattle.archive.specs.Numbers.{five, told};

use super::{HEAD, tell_answer, tell_found, tell_refusal};
use frame::{Step, Walk};
use layout::codes::Code;

// The entries of a step and of asking.
const STEP: usize = HEAD + 4;

const ASK: usize = HEAD + 6;

#[unsafe(no_mangle)]
pub extern "C" fn hac_check(file: &[u8], answer: &mut [u64]) -> u8
    ensures { SaidAlone 0 five (Checked file.now) answer.old result answer.new }
{
    if answer.len() < HEAD {
        return Code::NoRoom as u8;
    }
    tell_answer(answer, intake::check(file))
}

// Tells what a step finds.
fn tell_step(answer: &mut [u64], step: Step) -> u8
    requires { head + 4 ≤ length answer.old }
    ensures value { result ≡ get_or (told step_numbers step_fields (as_step step)) 0 0 }
    ensures answer_after { answer.new ≡ sets answer.old 0 (told step_numbers step_fields (as_step step)) }
{
    match step {
        Ok(Some(tuple)) => {
            let fields = [
                tuple.place as u64,
                tuple.length as u64,
                tuple.kind as u64,
                tuple.next.at as u64,
            ];
            tell_found(answer, layout::accept(1, 0), &fields)
        }
        Ok(None) => tell_answer(answer, layout::accept(0, 0)),
        Err(refusal) => tell_refusal(answer, refusal),
    }
}

#[unsafe(no_mangle)]
pub extern "C" fn hac_forward(file: &[u8], place: usize, answer: &mut [u64]) -> u8
    ensures { SaidAlone 4 (told step_numbers step_fields) (SteppedForward file.now place)
        answer.old result answer.new }
{
    if answer.len() < STEP {
        return Code::NoRoom as u8;
    }
    tell_step(answer, Walk { at: place }.forward(file))
}

#[unsafe(no_mangle)]
pub extern "C" fn hac_backward(file: &[u8], place: usize, answer: &mut [u64]) -> u8
    ensures { SaidAlone 4 (told step_numbers step_fields) (SteppedBackward file.now place)
        answer.old result answer.new }
{
    if answer.len() < STEP {
        return Code::NoRoom as u8;
    }
    tell_step(answer, Walk { at: place }.backward(file))
}

#[unsafe(no_mangle)]
pub extern "C" fn hac_ask(file: &[u8], place: usize, answer: &mut [u64]) -> u8
    ensures { SaidAlone 6 (told asked_numbers asked_fields) (AskedFor file.now place)
        answer.old result answer.new }
{
    if answer.len() < ASK {
        return Code::NoRoom as u8;
    }
    match intake::ask(file, place) {
        Ok(parents) => {
            let fields = [
                parents.channel.0 as u64,
                parents.channel_place as u64,
                parents.sampling_rate as u64,
                parents.sample_type as u64,
                parents.sounder.0 as u64,
                parents.sounder_place as u64,
            ];
            tell_found(answer, Ok(parents.counts), &fields)
        }
        Err(refusal) => tell_refusal(answer, refusal),
    }
}

#[unsafe(no_mangle)]
pub extern "C" fn hac_normalise(file: &[u8], out: &mut [u8], answer: &mut [u64]) -> u8
    ensures { Said 0 five (Normalised file.now out.old)
        answer.old out.old result answer.new out.new }
{
    if answer.len() < HEAD {
        return Code::NoRoom as u8;
    }
    tell_answer(answer, normal::normalise(file, out))
}

#[unsafe(no_mangle)]
pub extern "C" fn hac_normalise_tuple(file: &[u8], out: &mut [u8], answer: &mut [u64]) -> u8
    ensures { Said 0 five (NormalisedTuple file.now out.old)
        answer.old out.old result answer.new out.new }
{
    if answer.len() < HEAD {
        return Code::NoRoom as u8;
    }
    tell_answer(answer, normal::normalise_tuple(file, out))
}
