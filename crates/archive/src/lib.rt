// The C boundary: each public call of the library, exported on numbers and slices of numbers alone. A call tells its answer in lent
// entries: code, place, tuples, length and identifiers compared, then, where it accepts, what it found; it hands the code back too.
// Where fewer entries are lent than it may tell it does nothing and hands 19 back. include/hac.h says all this to those who call.
#![tactic(auto)]

mod handed;
mod of_corrections;
mod of_edits;
mod of_energy;
mod of_files;
mod of_narrow_writers;
mod of_pings;
mod of_readings;
mod of_records;
mod of_salvage;
mod of_settings;
mod of_wide_writers;

ghost use Rattle.std.specs.Prelude.{◌≡◌, [], ◌∷◌, ◌++◌, ◌+◌, ◌≤◌, length};
ghost use Rattle.std.proofs.lemmas.List.Edits.{sets};
ghost use Rattle.layout.specs.Answers.{numbers};
ghost use Rattle.layout.specs.Code.{number};
ghost use Rattle.layout.specs.Views.{as_answer};
ghost use Rattle.layout.specs.Answer.{Refused};
ghost use Rattle.archive.specs.Saying.{head};
ghost use Rattle.archive.specs.Numbers.{five};

use layout::{Answer, Counts, Refusal};

// The entries of an answer's own numbers; a call's fields stand behind them.
const HEAD: usize = 5;

// Tells numbers from an entry on.
fn tell(answer: &mut [u64], at: usize, numbers: &[u64])
    requires { at + length numbers.now ≤ length answer.old }
    ensures { answer.new ≡ sets answer.old at numbers.now }
{
    answer[at..at + numbers.len()].copy_from_slice(numbers);
}

// Tells an answer's own numbers.
fn tell_head(answer: &mut [u64], code: u64, place: usize, counts: Counts)
    requires { head ≤ length answer.old }
    ensures { answer.new
        ≡ sets answer.old 0 (code ∷ place ∷ counts.tuples ∷ counts.written ∷ counts.compared ∷ []) }
{
    let numbers = [
        code,
        place as u64,
        counts.tuples as u64,
        counts.written as u64,
        counts.compared as u64,
    ];
    tell(answer, 0, &numbers);
}

// Tells a refusal, which counts nothing.
fn tell_refusal(answer: &mut [u64], refusal: Refusal) -> u8
    requires { head ≤ length answer.old }
    ensures value { result ≡ number refusal.code }
    ensures answer_after { answer.new ≡ sets answer.old 0 (five (Refused (number refusal.code) refusal.place)) }
{
    let code = refusal.code.number();
    let nothing = Counts {
        tuples: 0,
        written: 0,
        compared: 0,
    };
    tell_head(answer, u64::from(code), refusal.place, nothing);
    code
}

// Tells an answer.
fn tell_answer(answer: &mut [u64], said: Answer) -> u8
    requires { head ≤ length answer.old }
    ensures value { result ≡ (numbers (as_answer said)).code }
    ensures answer_after { answer.new ≡ sets answer.old 0 (five (as_answer said)) }
{
    match said {
        Ok(counts) => {
            tell_head(answer, 0, 0, counts);
            0
        }
        Err(refusal) => tell_refusal(answer, refusal),
    }
}

// Tells an answer, and the fields of what was found.
fn tell_found(answer: &mut [u64], said: Answer, fields: &[u64]) -> u8
    requires { head + length fields.now ≤ length answer.old }
    ensures value { result ≡ (numbers (as_answer said)).code }
    ensures answer_after { answer.new ≡ sets answer.old 0 (five (as_answer said) ++ fields.now) }
{
    let code = tell_answer(answer, said);
    tell(answer, HEAD, fields);
    code
}
