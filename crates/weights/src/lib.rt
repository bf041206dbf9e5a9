// Sums over a file's words and samples, block by block: by them a ping's own rules are judged without reading it whole, so that a file
// in which many pings seem to start one within another is judged fast.
#![tactic(auto)]

pub mod judging;
mod weigh;

ghost use Rattle.std.specs.Prelude.{◌≡◌, ◌+◌, ◌*◌, ◌%◌, ◌<◌, ◌≤◌, length};
ghost use Rattle.frame.specs.Files.{limit};
ghost use Rattle.weights.specs.inner.Weights.{step_by, block_by, span_by, beyond_by, There, weight_at};
ghost use Rattle.weights.specs.inner.Rows.{rows, kind_at, base_at, entries, RowOf, SummedTo, Summed};

// What is weighed: the words of C-32, C-16 and CE-16 pings; the numbers of samples every eight, four and six bytes.
#[derive(Clone, Copy)]
pub enum Kind {
    C32,
    C16,
    CE16,
    Pairs,
    Shorts,
    Triples,
}

// Rows of sums, one for each kind and each place where its first can stand, and the entries of a row: one for each block of 16 KiB that a
// file can have, and one.
const ROWS: usize = 9;

const ENTRIES: usize = 1025;

pub const SUMS: usize = ROWS * ENTRIES;

// A block's bytes, of which a kind's things fill as many as they fit in whole.
const BLOCK: usize = 16_384;

// How far apart the things of a kind are, in bytes; how far beyond one that is weighed is looked at.
fn step_of(kind: Kind) -> usize
    ensures { result ≡ step_by kind }
{
    match kind {
        Kind::C32 | Kind::Shorts => 4,
        Kind::C16 | Kind::CE16 => 2,
        Kind::Pairs => 8,
        Kind::Triples => 6,
    }
}

fn ahead_of(kind: Kind) -> usize
    ensures { result ≡ beyond_by kind }
{
    match kind {
        Kind::C32 | Kind::C16 | Kind::CE16 => 0,
        Kind::Pairs | Kind::Shorts | Kind::Triples => step_of(kind),
    }
}

// How many are a block, and its bytes.
fn block_of(kind: Kind) -> usize
    ensures { result ≡ block_by kind }
{
    BLOCK / step_of(kind)
}

fn bytes_of(kind: Kind) -> usize
    ensures { result ≡ span_by kind }
{
    step_of(kind) * block_of(kind)
}

// The row that has the sums of a kind whose things stand at a place and so many bytes apart.
fn row_of(kind: Kind, at: usize) -> usize
    requires { at % 4 ≡ 0 }
    ensures { RowOf kind at result }
{
    match kind {
        Kind::C32 => 0,
        Kind::C16 => 1,
        Kind::CE16 => 2,
        Kind::Pairs => 3 + at % 8 / 4,
        Kind::Shorts => 5,
        Kind::Triples => 6 + at % 6 / 2,
    }
}

// Sums a row up: behind each whole block stands the weight of all before it.
fn fill_row(file: &[u8], msb: bool, kind: Kind, base: usize, row: usize, sums: &mut [u64])
    requires in_bounds { (4 ≤ length file.now) × (length file.now ≤ limit) }
    requires row_lt_rows { (row < rows) × (base ≤ 4) }
    requires row_value { kind_at row ≡ kind }
    requires row_value_2 { base_at row ≡ base }
    requires summed_to { SummedTo msb file.now sums.old row }
    ensures { SummedTo msb file.now sums.new (row + 1) }
{
    let block = block_of(kind);
    let bytes = bytes_of(kind);
    let ahead = ahead_of(kind);
    let mut at = ENTRIES * row;
    sums[at] = 0;
    let mut sum: u64 = 0;
    let mut from = base;
    while bytes + ahead <= file.len() - from {
        sum += weigh::weigh(file, msb, kind, from, block);
        from += bytes;
        at += 1;
        sums[at] = sum;
    }
}

// The rows of words;
fn fill_words(file: &[u8], msb: bool, sums: &mut [u64])
    requires in_bounds { (4 ≤ length file.now) × (length file.now ≤ limit) }
    requires summed_to { SummedTo msb file.now sums.old 0 }
    ensures { SummedTo msb file.now sums.new 3 }
{
    fill_row(file, msb, Kind::C32, 0, 0, sums);
    fill_row(file, msb, Kind::C16, 0, 1, sums);
    fill_row(file, msb, Kind::CE16, 0, 2, sums);
}

// those of samples every eight and every four bytes;
fn fill_pairs(file: &[u8], msb: bool, sums: &mut [u64])
    requires in_bounds { (4 ≤ length file.now) × (length file.now ≤ limit) }
    requires summed_to { SummedTo msb file.now sums.old 3 }
    ensures { SummedTo msb file.now sums.new 6 }
{
    fill_row(file, msb, Kind::Pairs, 0, 3, sums);
    fill_row(file, msb, Kind::Pairs, 4, 4, sums);
    fill_row(file, msb, Kind::Shorts, 0, 5, sums);
}

// those of samples every six.
fn fill_triples(file: &[u8], msb: bool, sums: &mut [u64])
    requires in_bounds { (4 ≤ length file.now) × (length file.now ≤ limit) }
    requires summed_to { SummedTo msb file.now sums.old 6 }
    ensures { SummedTo msb file.now sums.new 9 }
{
    fill_row(file, msb, Kind::Triples, 0, 6, sums);
    fill_row(file, msb, Kind::Triples, 2, 7, sums);
    fill_row(file, msb, Kind::Triples, 4, 8, sums);
}

// Sums a file up, row by row.
pub fn fill(file: &[u8], msb: bool, sums: &mut [u64])
    requires in_bounds { (4 ≤ length file.now) × (length file.now ≤ limit) }
    requires sums_len { length sums.old ≡ entries * rows }
    ensures { Summed msb file.now sums.new }
{
    fill_words(file, msb, sums);
    fill_pairs(file, msb, sums);
    fill_triples(file, msb, sums);
}

// The weight of the first n things of a row.
fn first(file: &[u8], msb: bool, kind: Kind, row: usize, base: usize, n: usize, sums: &[u64]) -> u64
    requires row_lt_rows { (row < rows) × (length file.now ≤ limit) }
    requires row_value { kind_at row ≡ kind }
    requires row_value_2 { base_at row ≡ base }
    requires there { There kind base n (length file.now) }
    requires summed { Summed msb file.now sums.now }
    ensures { result ≡ weight_at kind msb file.now base n }
{
    let block = block_of(kind);
    let j = n / block;
    let from = base + bytes_of(kind) * j;
    sums[ENTRIES * row + j] + weigh::weigh(file, msb, kind, from, n % block)
}

// The weight of n things of a kind from a place on.
fn between(file: &[u8], msb: bool, kind: Kind, at: usize, n: usize, sums: &[u64]) -> u64
    requires at_value { (at % 4 ≡ 0) × (length file.now ≤ limit) }
    requires there { There kind at n (length file.now) }
    requires summed { Summed msb file.now sums.now }
    ensures { result ≡ weight_at kind msb file.now at n }
{
    let row = row_of(kind, at);
    let step = step_of(kind);
    let base = at % step;
    let i = at / step;
    let behind = first(file, msb, kind, row, base, i + n, sums);
    behind - first(file, msb, kind, row, base, i, sums)
}
