// Readings: what a viewer is shown for each sample number of a ping, as a double with its kind.
#![tactic(auto)]

ghost use Rattle.layout.specs.Views.{as_answer};
ghost use Rattle.std.specs.Prelude.{◌≡◌, true, [], map, ◌+◌, ◌≤◌, ◌<◌, length, replicate};
ghost use Rattle.layout.specs.Types.{shape_of, is_ping};
ghost use Rattle.pings.specs.inner.Handing.{part_samples};
ghost use Rattle.tuples.specs.Readers.{is_valued};
ghost use Rattle.quantities.specs.inner.Codes.{family_of};
ghost use Rattle.sampling.specs.inner.Walking.{handed_left, stepped};
ghost use Rattle.linked.specs.inner.Here.{part_at, SpotHere};
ghost use Rattle.readings.specs.Double.{double_of};
ghost use Rattle.readings.specs.Reading.{cased, divisor_of, reading_of, has_readings, case_in, double_in, no_double};
ghost use Rattle.readings.specs.Readings.{readings_from, shorter, ReadingsTold, PageTold};
ghost use Rattle.readings.specs.inner.Laying.{put, laid, HandedOver, shown_by, shown_all};

use layout::codes::Code;
use layout::{Answer, Counts};
use linked::Spot;
use quantities::Quantity;
use sampling::Stepped;

// A reading: silent, or a double in volts, of volume backscattering strength or of target strength in decibels.
#[derive(Clone, Copy)]
pub enum Reading {
    Silent,
    Volts(f64),
    Sv(f64),
    Ts(f64),
}

// How many readings a page has.
pub const PAGE: usize = 64;

// A reading of a page;
#[derive(Clone, Copy)]
pub struct Shown {
    pub reading: Reading,
}

// and a page of them, by value, with the answer.
#[derive(Clone, Copy)]
pub struct Page {
    pub answer: Answer,
    pub readings: [Shown; PAGE],
}

// The numbers of a reading's cases.
pub const SILENT: u8 = 0;

pub const VOLTS: u8 = 1;

pub const SV: u8 = 2;

pub const TS: u8 = 3;

// The double nearest to the quotient: the value is converted without loss, and one division rounds.
fn quotient(value: i32, divisor: u32) -> f64
    requires { 0 < divisor }
    ensures { result ≡ double_of value divisor }
{
    (value as f64) / (divisor as f64)
}

// A sample number as a place.
fn wide(number: u32) -> usize
    ensures { result ≡ number }
{
    number as usize
}

// The divisor of a ping's values, by what the samples are.
fn divisor_of(quantity: Quantity, code: u16) -> u32
    requires { is_valued code ≡ true }
    ensures { (result ≡ divisor_of quantity (family_of code)) × (0 < result) }
{
    match quantity {
        Quantity::Volts => quantities::per_volt(code),
        Quantity::Sv => quantities::per_decibel(code),
        Quantity::Ts => quantities::per_decibel(code),
        Quantity::Other => 1,
    }
}

// The reading of a value, by what the channel's samples are.
fn reading_of(quantity: Quantity, value: i32, divisor: u32) -> Reading
    requires { 0 < divisor }
    ensures { result ≡ cased quantity (double_of value divisor) }
{
    match quantity {
        Quantity::Volts => Reading::Volts(quotient(value, divisor)),
        Quantity::Sv => Reading::Sv(quotient(value, divisor)),
        Quantity::Ts => Reading::Ts(quotient(value, divisor)),
        Quantity::Other => Reading::Silent,
    }
}

// A reading in numbers: its case,
fn case_of(reading: Reading) -> u8
    ensures { result ≡ case_in reading }
{
    match reading {
        Reading::Silent => SILENT,
        Reading::Volts(_) => VOLTS,
        Reading::Sv(_) => SV,
        Reading::Ts(_) => TS,
    }
}

// and its double.
fn double_of(reading: Reading) -> f64
    ensures { result ≡ double_in reading }
{
    match reading {
        Reading::Silent => 0.0,
        Reading::Volts(x) => x,
        Reading::Sv(x) => x,
        Reading::Ts(x) => x,
    }
}

// Silence everywhere.
fn clear(cases: &mut [u8], doubles: &mut [f64])
    requires { length cases.old ≡ length doubles.old }
    ensures cases_after { cases.new ≡ replicate (length cases.old) 0 }
    ensures doubles_after { doubles.new ≡ replicate (length cases.old) no_double }
{
    cases.fill(SILENT);
    doubles.fill(0.0);
}

// Lays a reading at its sample number, in slices whose first entry is that of the first number.
fn put_reading(cases: &mut [u8], doubles: &mut [f64], first: usize, number: usize, reading: Reading)
    requires { length cases.old ≡ length doubles.old }
    ensures cases_after { cases.new ≡ put first cases.old number (case_in reading) }
    ensures doubles_after { doubles.new ≡ put first doubles.old number (double_in reading) }
{
    if first <= number {
        let i = number - first;
        if i < cases.len() {
            cases[i] = case_of(reading);
            doubles[i] = double_of(reading);
        }
    }
}

// Lays the reading of a step over samples; a run has none.
fn lay_step(
    it: Stepped,
    quantity: Quantity,
    divisor: u32,
    first: usize,
    cases: &mut [u8],
    doubles: &mut [f64],
)
    requires divisor_nonzero { 0 < divisor }
    requires cases_len { length cases.old ≡ length doubles.old }
    ensures cases_after { cases.new ≡ laid (λ v. case_in (cased quantity (double_of v divisor))) first cases.old (stepped it []) }
    ensures doubles_after { doubles.new ≡ laid (λ v. double_in (cased quantity (double_of v divisor))) first doubles.old (stepped it []) }
{
    if let Some((number, value)) = it.sample {
        put_reading(
            cases,
            doubles,
            first,
            wide(number),
            reading_of(quantity, value, divisor),
        );
    }
}

// Lays the readings of the samples that bytes hold.
fn lay(
    held: &[u8],
    msb: bool,
    code: u16,
    quantity: Quantity,
    first: usize,
    cases: &mut [u8],
    doubles: &mut [f64],
)
    requires code_value { (is_valued code ≡ true) × (length held.now ≤ 262112) }
    requires cases_len { length cases.old ≡ length doubles.old }
    ensures cases_after { cases.new ≡ laid (λ v. case_in (reading_of quantity (family_of code) v)) first cases.old
        (handed_left (shape_of code) msb 0 held.now) }
    ensures doubles_after { doubles.new ≡ laid (λ v. double_in (reading_of quantity (family_of code) v)) first doubles.old
        (handed_left (shape_of code) msb 0 held.now) }
{
    let width = sampling::width_of(code);
    let divisor = divisor_of(quantity, code);
    let mut number: u32 = 0;
    for i in 0..held.len() / width {
        let it = sampling::sample_at(held, i * width, number, msb, code);
        lay_step(it, quantity, divisor, first, cases, doubles);
        number = it.next;
    }
}

// Fills slices of one length with the readings of a linked ping that has them.
fn fill(file: &[u8], ping: Spot, first: usize, cases: &mut [u8], doubles: &mut [f64])
    requires spot_here { SpotHere file.now ping }
    requires code_value { is_valued ping.code ≡ true }
    requires cases_len { length cases.old ≡ length doubles.old }
    ensures cases_after { cases.new ≡ map case_in (readings_from ping.quantity (family_of ping.code)
        (part_samples (shape_of ping.code) ping.msb (part_at file.now ping.at ping.whole)) first
        (length cases.old)) }
    ensures doubles_after { doubles.new ≡ map double_in (readings_from ping.quantity (family_of ping.code)
        (part_samples (shape_of ping.code) ping.msb (part_at file.now ping.at ping.whole)) first
        (length cases.old)) }
{
    let at = ping.at;
    let code = ping.code;
    let quantity = ping.quantity;
    let end = at + ping.whole - frame::TAIL;
    let part = &file[at + samples::SAMPLES..end];
    let span = sampling::span_of(part, ping.msb, code);
    let from = span.from;
    let until = span.end;
    clear(cases, doubles);
    lay(
        &part[from..until],
        ping.msb,
        code,
        quantity,
        first,
        cases,
        doubles,
    );
}

// Whether a listed ping of a type has readings, by what its channel's samples are.
fn has_readings(quantity: Quantity, code: u16) -> bool
    requires { is_ping code ≡ true }
    ensures { result ≡ has_readings quantity (family_of code) }
{
    if !tuples::is_valued(code) {
        return false;
    }
    match quantity {
        Quantity::Volts => true,
        Quantity::Sv => true,
        Quantity::Ts => true,
        Quantity::Other => false,
    }
}

// Hands over the readings of a linked ping, as many as both slices have entries; 30 at a ping that has none.
fn hand_over(
    file: &[u8],
    ping: Spot,
    counts: Counts,
    first: usize,
    cases: &mut [u8],
    doubles: &mut [f64],
) -> Answer
    requires { SpotHere file.now ping }
    ensures { HandedOver file.now ping counts first cases.old doubles.old (as_answer result) cases.new
        doubles.new }
{
    let at = ping.at;
    let quantity = ping.quantity;
    if !has_readings(quantity, ping.code) {
        return layout::refuse(Code::NoReading, at);
    }
    let n = cases.len().min(doubles.len());
    fill(file, ping, first, &mut cases[0..n], &mut doubles[0..n]);
    Ok(Counts {
        tuples: counts.tuples,
        written: n,
        compared: counts.compared,
    })
}

// The readings of the ping at a place, one for each sample number from the first on, as many as both slices have entries: its case in one,
// its double in the other. Refused as asking for the ping's channel is; then by 30 at the ping.
pub fn readings(
    file: &[u8],
    place: usize,
    first: usize,
    cases: &mut [u8],
    doubles: &mut [f64],
) -> Answer
    ensures { ReadingsTold file.now place first cases.old doubles.old (as_answer result) cases.new
        doubles.new }
{
    let counts = intake::check(file)?;
    let Some(ping) = linked::find(file, place) else {
        return layout::refuse(Code::Unfit, place);
    };
    hand_over(file, ping, counts, first, cases, doubles)
}

// The reading of a case and a double.
fn show(case: u8, double: f64) -> Shown
    ensures { result ≡ shown_by case double }
{
    let reading = match case {
        VOLTS => Reading::Volts(double),
        SV => Reading::Sv(double),
        TS => Reading::Ts(double),
        _ => Reading::Silent,
    };
    Shown { reading }
}

// Those of a page.
fn show_all(cases: [u8; PAGE], doubles: [f64; PAGE]) -> [Shown; PAGE]
    ensures { result ≡ shown_all cases doubles }
{
    let mut page = [Shown {
        reading: Reading::Silent,
    }; PAGE];
    for (i, it) in page.iter_mut().enumerate() {
        *it = show(cases[i], doubles[i]);
    }
    page
}

// A page of readings of the ping at a place, from a sample number on; all silent where asking for them is refused.
pub fn page_at(file: &[u8], place: usize, first: usize) -> Page
    ensures { PageTold file.now place first result }
{
    let mut cases = [SILENT; PAGE];
    let mut doubles = [0.0; PAGE];
    let answer = readings(file, place, first, &mut cases, &mut doubles);
    Page {
        answer,
        readings: show_all(cases, doubles),
    }
}
