// Corrections beside the deposit: the ping of a software channel and a ping number, as a part of the file that it is from.
#![tactic(auto)]

ghost use Rattle.std.specs.Prelude.{◌≡◌, drop};
ghost use Rattle.frame.specs.Frames.{kind_at, tup_at};
ghost use Rattle.content.specs.Items.{item_of};
ghost use Rattle.intake.specs.inner.Sound.{SoundHere, Accepts};
ghost use Rattle.corrections.specs.Corrections.{wanted, ping_in, chosen, found_of, part_of, PingFound, CorrectedBy};
ghost use Rattle.corrections.specs.Views.{source_mark, whose_mark, as_spot, held_as, as_found};
ghost use Rattle.corrections.specs.inner.Spans.{Inside, Within};

use frame::passing;
use layout::codes::Code;
use layout::{Refusal, SoftwareChannel};

// Which of the two files something is from.
#[derive(Clone, Copy, Debug, PartialEq, Eq)]
pub enum Source {
    Deposit,
    Corrections,
}

// The bytes of a ping in a file: from where on, and how many.
#[derive(Clone, Copy, Debug, PartialEq, Eq)]
pub struct Span {
    pub from: usize,
    pub length: usize,
}

// The bytes of a ping in the file that it is from.
#[derive(Clone, Copy, Debug, PartialEq, Eq)]
pub struct Held {
    pub source: Source,
    pub span: Span,
}

// A refusal, and whose it is: a file's, or that neither holds the ping.
#[derive(Clone, Copy, Debug, PartialEq, Eq)]
pub struct FileRefusal {
    pub source: Option<Source>,
    pub refusal: Refusal,
}

// Where the bytes stand, or why none are found.
pub type Found = Result<Held, FileRefusal>;

// The marks: of neither file, of the deposit, of the corrections.
pub const NEITHER: u8 = 0;

pub const DEPOSIT: u8 = 1;

pub const CORRECTIONS: u8 = 2;

// The code of a part.
const ACCEPTED: u8 = 0;

impl Source {
    // The mark of a file.
    pub fn mark(self) -> u8
        ensures { result ≡ source_mark self }
    {
        match self {
            Source::Deposit => DEPOSIT,
            Source::Corrections => CORRECTIONS,
        }
    }
}

impl FileRefusal {
    // Whose refusal it is.
    pub fn mark(self) -> u8
        ensures { result ≡ whose_mark self.source }
    {
        match self.source {
            Some(source) => source.mark(),
            None => NEITHER,
        }
    }
}

// The place of a ping's number behind its first byte; what the attribute of an edited ping is.
const NUMBER: usize = 16;

const EDITED: u32 = 1;

// Whether the tuple at a place is a ping of a channel and a number; where only edited ones are wanted, with attribute 1.
fn is_wanted(
    file: &[u8],
    at: usize,
    msb: bool,
    whole: usize,
    channel: SoftwareChannel,
    number: u32,
    edited: bool,
) -> bool
    requires { SoundHere msb file.now at whole (kind_at msb (drop at file.now)) }
    ensures { result ≡ wanted edited channel number (item_of msb (tup_at msb (drop at file.now))) }
{
    if !intake::is_ping(frame::kind_at(file, at, msb)) {
        return false;
    }
    let named = intake::named_at(file, at, msb);
    if named.0 != channel.0 {
        return false;
    }
    if order::read4(file, at + NUMBER, msb) != number {
        return false;
    }
    if !edited {
        return true;
    }
    order::read4(file, at + whole - frame::TAIL, msb) == EDITED
}

// The first such ping of an accepted file.
fn find(file: &[u8], channel: SoftwareChannel, number: u32, edited: bool) -> Option<Span>
    requires { Accepts file.now }
    ensures value { as_spot result ≡ ping_in edited file.now channel number }
    ensures inside { Inside file.now (as_spot result) }
{
    let msb = frame::is_msb(file);
    for tuple in passing::behind_mark(file, msb) {
        if is_wanted(file, tuple.at, msb, tuple.whole, channel, number, edited) {
            return Some(Span {
                from: tuple.at,
                length: tuple.whole,
            });
        }
    }
    None
}

// The corrections' ping before the deposit's.
fn choose(corrected: Option<Span>, deposited: Option<Span>) -> Found
    ensures { as_found result ≡ chosen (as_spot corrected) (as_spot deposited) }
{
    if let Some(span) = corrected {
        return Ok(Held {
            source: Source::Corrections,
            span,
        });
    }
    if let Some(span) = deposited {
        return Ok(Held {
            source: Source::Deposit,
            span,
        });
    }
    Err(FileRefusal {
        source: None,
        refusal: Refusal {
            code: Code::NotHeld,
            place: 0,
        },
    })
}

// The deposit's refusal, the corrections', or what is found in them.
fn look(deposit: &[u8], corrections: &[u8], channel: SoftwareChannel, number: u32) -> Found
    ensures value { as_found result ≡ found_of deposit.now corrections.now channel number }
    ensures within { Within deposit.now corrections.now (as_found result) }
{
    if let Err(refusal) = intake::check(deposit) {
        return Err(FileRefusal {
            source: Some(Source::Deposit),
            refusal,
        });
    }
    if let Err(refusal) = intake::check(corrections) {
        return Err(FileRefusal {
            source: Some(Source::Corrections),
            refusal,
        });
    }
    let corrected = find(corrections, channel, number, true);
    let deposited = find(deposit, channel, number, false);
    choose(corrected, deposited)
}

// Where the ping of a channel and a number stands: in the corrections, with attribute 1, or else in the deposit. Refused, each with its
// file's mark: by the deposit's check, by the corrections'; 31 at 0 where neither holds it.
pub fn find_ping(deposit: &[u8], corrections: &[u8], channel: SoftwareChannel, number: u32) -> Found
    ensures { PingFound deposit.now corrections.now channel number (as_found result) }
{
    look(deposit, corrections, channel, number)
}

// The bytes of what was found, in the file that it is from.
fn part<'a>(deposit: &'a [u8], corrections: &'a [u8], held: Held) -> &'a [u8]
    requires { Within deposit.now corrections.now (held_as held.source held.span) }
    ensures { result.now ≡ part_of deposit.now corrections.now (held_as held.source held.span) }
{
    let Span { from, length } = held.span;
    match held.source {
        Source::Corrections => &corrections[from..from + length],
        Source::Deposit => &deposit[from..from + length],
    }
}

// The ping's own bytes, as a part of the file that it is from, with that file's mark, code 0 and place 0; refused as find_ping does, with
// an empty part.
pub fn corrected<'a>(
    deposit: &'a [u8],
    corrections: &'a [u8],
    channel: SoftwareChannel,
    number: u32,
    mark: &mut u8,
    code: &mut u8,
    place: &mut usize,
) -> &'a [u8]
    ensures { CorrectedBy deposit.now corrections.now channel number mark.new code.new
        place.new result.now }
{
    match look(deposit, corrections, channel, number) {
        Ok(held) => {
            *mark = held.source.mark();
            *code = ACCEPTED;
            *place = 0;
            part(deposit, corrections, held)
        }
        Err(refused) => {
            *mark = refused.mark();
            *code = refused.refusal.code.number();
            *place = refused.refusal.place;
            &deposit[..0]
        }
    }
}
