// Salvage: what is kept of a damaged recording. From behind the mark a tuple is looked for at one offset after the other: behind a tuple
// that is kept, and 4 bytes further on where none is. The kept tuples are written behind the mark, and a table lists the ranges that are
// kept and dropped.
#![tactic(auto)]

ghost use Rattle.std.specs.Prelude.{◌≡◌, true, cond, ◌+◌, ◌-◌, ◌*◌, ◌≤◌, ◌<◌, length, drop};
ghost use Rattle.std.proofs.lemmas.List.Edits.{sets};
ghost use Rattle.frame.specs.Files.{limit, marked, is_msb};
ghost use Rattle.intake.specs.Alone.{alone};
ghost use Rattle.weights.specs.inner.Rows.{entries, rows};
ghost use Rattle.layout.specs.Answers.{is_fine};
ghost use Rattle.salvage.specs.Views.{as_outcome};
ghost use Rattle.salvage.specs.Pieces.{piece_at, kept_in};
ghost use Rattle.salvage.specs.Salvage.{output_of, row_of, rows_of, report_of, Salvaged};
ghost use Rattle.salvage.specs.inner.Passes.{Ready, Few, Within, Roomy, growing, closed, size_kept, sums_first, sums_past, sums_of};

mod pieces;

use layout::codes::Code;
use layout::{Class, Counts, Refusal, refuse};
use pieces::behind_mark;

// What is saved of a file: its ranges, the offsets tried, the tuples kept and the bytes written.
#[derive(Clone, Copy)]
pub struct Saved {
    pub ranges: usize,
    pub tried: usize,
    pub counts: Counts,
}

// What salvage says: what it saved, or a refusal.
pub type Outcome = Result<Saved, Refusal>;

// Bytes of a file that are kept or dropped: those of one offset where a tuple was looked for, or a range of them.
#[derive(Clone, Copy)]
struct Piece {
    kept: bool,
    from: usize,
    to: usize,
}

// What is counted so far.
#[derive(Clone, Copy)]
struct Sums {
    tuples: usize,
    written: usize,
    ranges: usize,
    tried: usize,
}

// From an offset where nothing is kept to the next.
const STRIDE: usize = 4;

// A file is dear to judge where the pings that seem to start in it have so many times its bytes.
const OFTEN: usize = 8;

// The entries of a range's row in the table: whether it is kept, and its two places.
const ROW: usize = 3;

const FROM: usize = 1;

const TO: usize = 2;

// The bytes of the ping that seems to start at a place: none where it isn't of their class, or its frame's rules don't hold.
fn seeming(file: &[u8], at: usize, msb: bool) -> usize
    requires { at + 16 ≤ length file.now }
    ensures { result ≤ 262144 }
{
    if !layout::in_class(Class::Ping, frame::kind_at(file, at, msb)) {
        return 0;
    }
    if frame::judge_frame(file, at, msb).is_err() {
        return 0;
    }
    frame::length_at(file, at, msb)
}

// Whether it would take long to judge every tuple by reading it: pings of many times the file's bytes seem to start in it, one within
// another, as nobody records them. No promise rests on it: it says only how tuples are judged.
fn is_dear(file: &[u8], msb: bool) -> bool
    requires { (4 ≤ length file.now) × (length file.now ≤ limit) }
{
    // before it a tuple has room
    let end = (file.len() + 1).saturating_sub(frame::LEAST);
    let places = end.saturating_sub(frame::MARKED).div_ceil(STRIDE);
    let mut bytes = 0;
    // places are counted: `step_by` passes the bytes between them one by one, which a long file pays (docs/LOOK-BACK.md)
    for i in 0..places {
        bytes += seeming(file, frame::MARKED + STRIDE * i, msb);
    }
    OFTEN * file.len() < bytes
}

// Sums a file up where it would else take long to judge. Says whether it did.
fn sum_up(file: &[u8], msb: bool, sums: &mut [u64]) -> bool
    requires in_bounds { (4 ≤ length file.now) × (length file.now ≤ limit) }
    requires sums_len { length sums.old ≡ entries * rows }
    ensures { Ready result msb file.now sums.new }
{
    if !is_dear(file, msb) {
        return false;
    }
    weights::fill(file, msb, sums);
    true
}

// Whether a tuple is kept at an offset: by the sums, where there are some, or else by reading it. All offsets tried are divisible by 4,
// as the sums ask for.
fn is_kept(file: &[u8], at: usize, msb: bool, dear: bool, sums: &[u64]) -> bool
    requires at_in_bounds { at ≤ length file.now }
    requires ready { Ready dear msb file.now sums.now }
    ensures { result ≡ is_fine (alone msb (drop at file.now)) }
{
    if dear {
        if at % STRIDE == 0 {
            return weights::judging::keeps_alone(file, at, msb, sums);
        }
    }
    intake::judge_alone(file, at, msb).is_ok()
}

// The piece at an offset: the tuple that is kept there, or the bytes to the next offset.
fn piece_at(file: &[u8], at: usize, msb: bool, dear: bool, sums: &[u64]) -> Piece
    requires at_in_bounds { at < length file.now }
    requires ready { Ready dear msb file.now sums.now }
    ensures { result ≡ piece_at msb file.now at }
{
    if is_kept(file, at, msb, dear, sums) {
        let whole = frame::length_at(file, at, msb);
        return Piece {
            kept: true,
            from: at,
            to: at + whole,
        };
    }
    let end = file.len();
    if STRIDE < end - at {
        return Piece {
            kept: false,
            from: at,
            to: at + STRIDE,
        };
    }
    Piece {
        kept: false,
        from: at,
        to: end,
    }
}

// The range that stands open behind a piece: a piece of its kind makes it longer, and another opens a new one.
fn grow(range: Piece, next: Piece) -> Piece
    ensures { result ≡ growing range next }
{
    if next.kept == range.kept {
        return Piece {
            kept: range.kept,
            from: range.from,
            to: next.to,
        };
    }
    next
}

// The bytes of a piece that are kept.
fn size_kept(p: Piece) -> usize
    requires { p.from < p.to }
    ensures value { result ≡ size_kept p }
    ensures upper_bound { result ≤ p.to - p.from }
{
    if p.kept { p.to - p.from } else { 0 }
}

impl Sums {
    // Of the first piece, behind the mark.
    fn first(p: Piece) -> Sums
        requires { Within p limit }
        ensures { result ≡ sums_first p }
    {
        Sums {
            tuples: p.kept as usize,
            written: frame::MARKED + size_kept(p),
            ranges: 1,
            tried: 1,
        }
    }

    // Past a piece, with the range that stands open before it.
    fn past(self, range: Piece, next: Piece) -> Sums
        requires few { Few self next.from }
        requires within { Within next limit }
        ensures { result ≡ sums_past self range next }
    {
        Sums {
            tuples: self.tuples + (next.kept as usize),
            written: self.written + size_kept(next),
            ranges: self.ranges + ((next.kept != range.kept) as usize),
            tried: self.tried + 1,
        }
    }
}

// Stores the row of a range.
fn put_row(table: &mut [usize], i: usize, range: Piece)
    requires { i + 3 ≤ length table.old }
    ensures { table.new ≡ sets table.old i (row_of range) }
{
    table[i] = range.kept as usize;
    table[i + FROM] = range.from;
    table[i + TO] = range.to;
}

// Closes the range that stands open before a piece of the other kind: its row is stored. Says where the next row goes.
fn close(table: &mut [usize], i: usize, range: Piece, next: Piece) -> usize
    requires { i + 3 ≤ length table.old }
    ensures value { result ≡ i + length (rows_of (closed range next)) }
    ensures table_after { table.new ≡ sets table.old i (rows_of (closed range next)) }
{
    if next.kept == range.kept {
        return i;
    }
    put_row(table, i, range);
    i + ROW
}

// Writes the bytes of a piece that is kept. Says where the next go.
fn put_kept(file: &[u8], p: Piece, out: &mut [u8], to: usize) -> usize
    requires within { Within p (length file.now) }
    requires p_in_bounds { to + size_kept p ≤ length out.old }
    ensures value { result ≡ to + size_kept p }
    ensures out_after { out.new ≡ sets out.old to (kept_in file.now p) }
{
    if p.kept {
        let size = p.to - p.from;
        turning::copy(file, p.from, size, out, to);
        return to + size;
    }
    to
}

// Measures the salvage of a file, piece by piece.
fn measure_file(file: &[u8], dear: bool, sums: &[u64]) -> Sums
    requires in_bounds { (4 ≤ length file.now) × (length file.now ≤ limit) }
    requires ready { Ready dear (is_msb file.now) file.now sums.now }
    ensures { result ≡ sums_of file.now }
{
    let mut pieces = behind_mark(file, frame::is_msb(file), dear, sums);
    let Some(mut range) = pieces.next() else {
        return Sums {
            tuples: 0,
            written: frame::MARKED,
            ranges: 0,
            tried: 0,
        };
    };
    let mut measured = Sums::first(range);
    for next in pieces {
        measured = measured.past(range, next);
        range = grow(range, next);
    }
    measured
}

// Writes the salvage of a file, piece by piece: the mark and the kept tuples, and the row of each range.
fn write_all(file: &[u8], out: &mut [u8], table: &mut [usize], dear: bool, sums: &[u64])
    requires roomy { Roomy file.now (length out.old) (length table.old) }
    requires ready { Ready dear (is_msb file.now) file.now sums.now }
    ensures out_after { out.new ≡ sets out.old 0 (output_of file.now) }
    ensures table_after { table.new ≡ sets table.old 0 (report_of file.now) }
{
    let msb = frame::is_msb(file);
    order::store4(out, 0, msb, frame::MARK);
    let mut pieces = behind_mark(file, msb, dear, sums);
    let Some(mut range) = pieces.next() else {
        return;
    };
    let mut to = put_kept(file, range, out, frame::MARKED);
    let mut i = 0;
    for next in pieces {
        to = put_kept(file, next, out, to);
        i = close(table, i, range, next);
        range = grow(range, next);
    }
    put_row(table, i, range);
}

// The salvage of a file with its mark, within the limit: 27, 19; then all is written.
fn save(file: &[u8], out: &mut [u8], table: &mut [usize], dear: bool, sums: &[u64]) -> Outcome
    requires file_value { (marked file.now ≡ true) × (length file.now ≤ limit) }
    requires ready { Ready dear (is_msb file.now) file.now sums.now }
    ensures { Salvaged file.now out.old table.old (as_outcome result) out.new table.new }
{
    let measured = measure_file(file, dear, sums);
    if table.len() / ROW < measured.ranges {
        return refuse(Code::ShortTable, 0);
    }
    if out.len() < measured.written {
        return refuse(Code::NoRoom, 0);
    }
    write_all(file, out, table, dear, sums);
    let counts = Counts {
        tuples: measured.tuples,
        written: measured.written,
        compared: 0,
    };
    Ok(Saved {
        ranges: measured.ranges,
        tried: measured.tried,
        counts,
    })
}

// Salvages a file: 1, 2, 27, 19; or the mark and the kept tuples in out, and a row for each range in the table. A refusal leaves every
// element of both.
pub fn salvage(file: &[u8], out: &mut [u8], table: &mut [usize]) -> Outcome
    ensures { Salvaged file.now out.old table.old (as_outcome result) out.new table.new }
{
    if frame::LIMIT < file.len() {
        return refuse(Code::OverLimit, 0);
    }
    if !frame::is_marked(file) {
        return refuse(Code::NoMark, 0);
    }
    let mut sums = [0; weights::SUMS];
    let dear = sum_up(file, frame::is_msb(file), &mut sums);
    save(file, out, table, dear, &sums)
}
