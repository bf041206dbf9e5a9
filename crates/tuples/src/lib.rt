// Tuples: what every reader finds at a place, and how every writer frames what it writes.
#![tactic(auto)]

ghost use Rattle.std.specs.Prelude.{◌≡◌, Bool, [], ℕ, ◌+◌, ◌-◌, ◌^◌, ◌≤◌, ◌<◌, length, take, drop};
ghost use Rattle.std.proofs.lemmas.List.Edits.{sets};
ghost use Rattle.order.specs.Order.{num_of, signed_of, pattern_of};
ghost use Rattle.layout.specs.Views.{as_answer};
ghost use Rattle.layout.specs.Types.{shape_of};
ghost use Rattle.layout.specs.Types.{is_ping};
ghost use Rattle.tuples.specs.Readers.{is_record, records_of, is_valued, is_angled};
ghost use Rattle.frame.specs.inner.Framing.{close_bytes};
ghost use Rattle.tuples.specs.inner.Opening.{FoundTuple, FoundAs, OpenedAs};
ghost use Rattle.tuples.specs.Writers.{Written, plain_bytes};
ghost use Rattle.tuples.specs.inner.Framing.{handed_values, Handable};

use frame::{DATA, TAIL, Walk};
use layout::codes::Code;
use layout::{Answer, Refusal, types};

// A tuple that a reader finds: the file's byte order, its length and its type.
#[derive(Clone, Copy)]
pub struct Opened {
    pub msb: bool,
    pub whole: usize,
    pub code: u16,
}

// Where characters stand in the file that was read.
#[derive(Clone, Copy)]
pub struct Part {
    pub place: usize,
    pub length: usize,
}

// Finds the tuple at a place, whatever its type: a forward step's refusals, 3 at the end.
fn find(file: &[u8], place: usize) -> Result<Opened, Refusal>
    ensures { FoundAs file.now place result }
{
    let walk = Walk { at: place };
    match walk.forward(file)? {
        Some(tuple) => Ok(Opened {
            msb: frame::is_msb(file),
            whole: tuple.length,
            code: tuple.kind,
        }),
        None => layout::refuse(Code::CutShort, place),
    }
}

// Opens the tuple that was found: 9 for a type not asked for, then its own rules.
fn open_found(file: &[u8], place: usize, found: Opened, asked: bool) -> Result<Opened, Refusal>
    requires { FoundTuple file.now place found.msb found.whole found.code }
    ensures { (asks : ℕ → Bool) → asks found.code ≡ asked → OpenedAs asks file.now place result }
{
    if !asked {
        return layout::refuse(Code::Unfit, place);
    }
    match intake::judge_own(file, place, found.msb, found.whole, found.code) {
        Err(flaw) => Err(flaw.at(place)),
        Ok(()) => Ok(found),
    }
}

// Whether a type is a record's: listed, and no ping's.
pub fn is_record(code: u16) -> bool
    ensures { result ≡ is_record code }
{
    if intake::is_ping(code) {
        return false;
    }
    layout::listing_of(code) < layout::LISTED
}

// Whether a reader of the records of one type asks for a tuple of a type.
fn asks_record(asked: u16, code: u16) -> bool
    ensures { result ≡ records_of asked code }
{
    if !is_record(asked) {
        return false;
    }
    code == asked
}

// Opens the tuple at a place for a reader of the records of one type: 9 for every tuple, where the type is no record's.
pub fn open_record(file: &[u8], place: usize, asked: u16) -> Result<Opened, Refusal>
    ensures { OpenedAs (records_of asked) file.now place result }
{
    let found = find(file, place)?;
    open_found(file, place, found, asks_record(asked, found.code))
}

// Opens the tuple at a place for a reader of listed pings, of any type.
pub fn open_ping(file: &[u8], place: usize) -> Result<Opened, Refusal>
    ensures { OpenedAs is_ping file.now place result }
{
    let found = find(file, place)?;
    open_found(file, place, found, intake::is_ping(found.code))
}

// Whether a type is that of a listed ping whose samples have a value each.
pub fn is_valued(code: u16) -> bool
    ensures { result ≡ is_valued code }
{
    match code {
        types::PING_U => true,
        types::PING_C => true,
        types::PING_U16 => true,
        types::PING_C16 => true,
        types::PING_CE16 => true,
        _ => false,
    }
}

// The same of one whose samples have two angles each.
fn is_angled(code: u16) -> bool
    ensures { result ≡ is_angled code }
{
    match code {
        types::PING_ANGLES => true,
        types::PING_U16_ANGLES => true,
        _ => false,
    }
}

// Opens the tuple at a place for a reader of samples.
pub fn open_valued(file: &[u8], place: usize) -> Result<Opened, Refusal>
    ensures { OpenedAs is_valued file.now place result }
{
    let found = find(file, place)?;
    open_found(file, place, found, is_valued(found.code))
}

// Opens the tuple at a place for a reader of angles.
pub fn open_angled(file: &[u8], place: usize) -> Result<Opened, Refusal>
    ensures { OpenedAs is_angled file.now place result }
{
    let found = find(file, place)?;
    open_found(file, place, found, is_angled(found.code))
}

// A signed number of four bytes.
pub fn signed4_at(file: &[u8], at: usize, msb: bool) -> i32
    requires { at + 4 ≤ length file.now }
    ensures { result ≡ signed_of 4 (num_of msb (take 4 (drop at file.now))) }
{
    order::signed4(order::read4(file, at, msb))
}

// Writes what stands behind the fields of a tuple that fills memory from its first byte on: its attribute, signed, and its backlink.
pub fn put_tail(out: &mut [u8], msb: bool, whole: usize, attribute: i32)
    requires { (8 ≤ whole) × (whole ≤ length out.old) × (whole < 2 ^ 32) }
    ensures { out.new ≡ sets out.old (whole - 8) (close_bytes msb whole (pattern_of 4 attribute)) }
{
    frame::close_frame(out, whole - TAIL, msb, whole, order::pattern4(attribute));
}

// Writes a tuple of a row where there is room: its numbers in order, its remark, the characters behind its fields, its attribute.
fn put_tuple(
    code: u16,
    whole: usize,
    numbers: &[u32],
    remark: &[u8],
    behind: &[u8],
    attribute: i32,
    msb: bool,
    out: &mut [u8],
)
    requires handable { Handable (shape_of code) numbers.now remark.now behind.now whole }
    requires whole_in_bounds { whole ≤ length out.old }
    ensures { out.new ≡ sets out.old 0
        (plain_bytes msb code (handed_values (shape_of code) numbers.now remark.now behind.now
        (pattern_of 4 attribute))) }
{
    let row = layout::row(layout::listing_of(code));
    frame::open_frame(out, 0, msb, whole, code);
    turning::write_row(&row, numbers, remark, msb, out, DATA);
    turning::copy(behind, 0, behind.len(), out, whole - TAIL - behind.len());
    put_tail(out, msb, whole, attribute);
}

// Writes a tuple of a row; 19 where the memory lent is short.
pub fn write_tuple(
    code: u16,
    whole: usize,
    numbers: &[u32],
    remark: &[u8],
    behind: &[u8],
    attribute: i32,
    msb: bool,
    out: &mut [u8],
) -> Answer
    requires { Handable (shape_of code) numbers.now remark.now behind.now whole }
    ensures { Written [] (plain_bytes msb code
        (handed_values (shape_of code) numbers.now remark.now behind.now (pattern_of 4 attribute)))
        out.old (as_answer result) out.new }
{
    if out.len() < whole {
        return layout::refuse(Code::NoRoom, 0);
    }
    put_tuple(code, whole, numbers, remark, behind, attribute, msb, out);
    layout::accept(1, whole)
}
