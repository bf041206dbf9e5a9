// Energy: the echo energy of a ping, and of all pings of a file, in linear units.
#![tactic(auto)]

ghost use Rattle.layout.specs.Views.{as_answer};
ghost use Rattle.energy.specs.Views.{as_echo};
ghost use Rattle.std.specs.Prelude.{◌≡◌, true, ◌≤◌, length};
ghost use Rattle.std.proofs.lemmas.List.Edits.{sets};
ghost use Rattle.layout.specs.Types.{shape_of};
ghost use Rattle.links.specs.Links.{most_channels};
ghost use Rattle.tuples.specs.Readers.{is_valued};
ghost use Rattle.quantities.specs.inner.Codes.{family_of};
ghost use Rattle.sampling.specs.inner.Walking.{values_left};
ghost use Rattle.linked.specs.inner.Here.{SpotHere};
ghost use Rattle.linear.specs.inner.Values.{all_values};
ghost use Rattle.energy.specs.Energy.{is_sv, sum_in, code_in, places_of, energies_of, codes_of, EnergyTold, EnergiesTold};
ghost use Rattle.energy.specs.inner.Sums.{summed_of};
ghost use Rattle.energy.specs.inner.Telling.{echo_here, Roomy};

use frame::passing::{self, Located};
use layout::codes::Code;
use layout::{Answer, Counts, Refusal};
use linear::LEVELS;
use linked::Spot;
use links::{CHANNELS, Row};
use quantities::Quantity;

// The energy of a ping in units of 10^-14, with what the file's acceptance counts.
#[derive(Clone, Copy)]
pub struct Told {
    pub units: u64,
    pub counts: Counts,
}

// What is told of a ping: its energy, or a refusal.
pub type Echo = Result<Told, Refusal>;

// The linear values of the samples that bytes hold, added up; or the place among them of the first outside -150 to 0 dB.
fn sum_up(values: &[u64; LEVELS], held: &[u8], msb: bool, code: u16) -> Result<u64, usize>
    requires values_value { (values.now ≡ all_values) × (is_valued code ≡ true) }
    requires held_len_bound { (length held.now ≤ 262112) × (length (values_left (shape_of code) msb held.now) ≤ 32764) }
    ensures { result ≡ summed_of (family_of code) (values_left (shape_of code) msb held.now) }
{
    let width = sampling::width_of(code);
    let unit = linear::unit_of(code);
    let mut sum: u64 = 0;
    let mut nth: usize = 0;
    for piece in held.chunks_exact(width) {
        let Some(value) = sampling::value_at(piece, 0, msb, code) else {
            continue;
        };
        let loud = 0 < value;
        if loud {
            return Err(nth);
        }
        let depth = linear::negated_of(value) * unit;
        if linear::QUIETEST < depth {
            return Err(nth);
        }
        sum += linear::linear_below(values, depth);
        nth += 1;
    }
    Ok(sum)
}

fn is_sv(quantity: Quantity) -> bool
    ensures { result ≡ is_sv quantity }
{
    matches!(quantity, Quantity::Sv)
}

// What is told of a linked ping: 28 for angles or a channel that isn't Sv, 29 for a value outside, or its energy.
fn echo_of(values: &[u64; LEVELS], file: &[u8], ping: Spot, counts: Counts) -> Echo
    requires values_value { values.now ≡ all_values }
    requires spot_here { SpotHere file.now ping }
    ensures { as_echo result ≡ echo_here file.now ping counts }
{
    let at = ping.at;
    let code = ping.code;
    let msb = ping.msb;
    let quantity = ping.quantity;
    if !tuples::is_valued(code) {
        return layout::refuse(Code::NotSv, at);
    }
    if !is_sv(quantity) {
        return layout::refuse(Code::NotSv, at);
    }
    let end = at + ping.whole - frame::TAIL;
    let part = &file[at + samples::SAMPLES..end];
    let span = sampling::span_of(part, msb, code);
    let from = span.from;
    let until = span.end;
    match sum_up(values, &part[from..until], msb, code) {
        Err(nth) => layout::refuse(Code::OutsideLevels, nth),
        Ok(units) => Ok(Told { units, counts }),
    }
}

// The echo energy of the ping at a place. The refusals of asking for its channel, then 28 at the ping, then 29 at a value's place in the
// list.
pub fn energy(file: &[u8], place: usize) -> Echo
    ensures { EnergyTold file.now place (as_echo result) }
{
    let counts = intake::check(file)?;
    let Some(ping) = linked::find(file, place) else {
        return layout::refuse(Code::Unfit, place);
    };
    let mut values = [0u64; LEVELS];
    linear::fill_values(&mut values);
    echo_of(&values, file, ping, counts)
}

// The energy that is told, 0 where none is,
fn units_in(echo: Echo) -> u64
    ensures { result ≡ sum_in (as_echo echo) }
{
    match echo {
        Ok(told) => told.units,
        Err(_) => 0,
    }
}

// and the code, 0 where an energy is.
fn code_in(echo: Echo) -> u8
    ensures { result ≡ code_in (as_echo echo) }
{
    match echo {
        Ok(_) => 0,
        Err(refusal) => refusal.code.number(),
    }
}

// Fills the three slices for an accepted file, tuple by tuple; the rows are lent for the channels declared so far.
fn fill_with(
    values: &[u64; LEVELS],
    file: &[u8],
    counts: Counts,
    places: &mut [usize],
    energies: &mut [u64],
    codes: &mut [u8],
    rows: &mut [Row; CHANNELS],
    notes: &mut [u16; CHANNELS],
)
    requires values_value { (values.now ≡ all_values) × (length rows.old ≡ most_channels) }
    requires roomy { Roomy file.now counts (length places.old) (length energies.old) (length codes.old) }
    ensures places_after { places.new ≡ sets places.old 0 (places_of file.now) }
    ensures energies_after { energies.new ≡ sets energies.old 0 (energies_of file.now) }
    ensures codes_after { codes.new ≡ sets codes.old 0 (codes_of file.now) }
{
    let msb = frame::is_msb(file);
    let mut used: usize = 0;
    let mut row: usize = 0;
    for tuple in passing::behind_mark(file, msb) {
        let Located { at, whole, code } = tuple;
        if intake::is_ping(code) {
            let quantity = linked::quantity_at(file, at, msb, used, rows, notes);
            let ping = Spot {
                at,
                msb,
                whole,
                code,
                quantity,
            };
            let echo = echo_of(values, file, ping, counts);
            places[row] = at;
            energies[row] = units_in(echo);
            codes[row] = code_in(echo);
            row += 1;
        }
        used = linked::keep(file, at, msb, whole, code, used, rows, notes);
    }
}

// The same, with tables of its own.
fn fill(file: &[u8], counts: Counts, places: &mut [usize], energies: &mut [u64], codes: &mut [u8])
    requires { Roomy file.now counts (length places.old) (length energies.old) (length codes.old) }
    ensures places_after { places.new ≡ sets places.old 0 (places_of file.now) }
    ensures energies_after { energies.new ≡ sets energies.old 0 (energies_of file.now) }
    ensures codes_after { codes.new ≡ sets codes.old 0 (codes_of file.now) }
{
    let mut values = [0u64; LEVELS];
    linear::fill_values(&mut values);
    let mut rows = [links::BLANK; CHANNELS];
    let mut notes = [0u16; CHANNELS];
    fill_with(
        &values, file, counts, places, energies, codes, &mut rows, &mut notes,
    );
}

// The echo energies of all listed pings, in file order: the place of each, and what asking for it alone says, its energy and code 0, or 0
// and its code. The check's refusals, then 19 where one slice is too short; a refusal leaves every element.
pub fn energies(file: &[u8], places: &mut [usize], energies: &mut [u64], codes: &mut [u8]) -> Answer
    ensures { EnergiesTold file.now places.old energies.old codes.old (as_answer result)
        places.new energies.new codes.new }
{
    let counts = intake::check(file)?;
    let n = linked::count_pings(file);
    if places.len() < n {
        return layout::refuse(Code::NoRoom, 0);
    }
    if energies.len() < n {
        return layout::refuse(Code::NoRoom, 0);
    }
    if codes.len() < n {
        return layout::refuse(Code::NoRoom, 0);
    }
    fill(file, counts, places, energies, codes);
    Ok(Counts {
        tuples: counts.tuples,
        written: n,
        compared: counts.compared,
    })
}
