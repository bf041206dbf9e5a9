// Pings written into lent memory: a writer for each of the seven types. Each asks the rules first, and where one is broken nothing is
// written.
#![tactic(auto)]

pub mod judging;
pub mod parts;

ghost use Rattle.layout.specs.Views.{as_answer};
ghost use Rattle.layout.specs.Families.{wide, narrow, encoded, wide_angles, narrow_angles};
ghost use Rattle.pings.specs.Headers.{handed_length};
ghost use Rattle.ping_writers.specs.Writers.{WrittenU, WrittenC, WrittenA};

use layout::{Answer, types};
use pings::{PingHeader, PingLength};
use samples::{SAMPLES, WORDS};

// Writes a U-32 ping.
pub fn write_u32(
    header: PingHeader,
    attribute: i32,
    numbers: &[u32],
    values: &[i32],
    msb: bool,
    out: &mut [u8],
) -> Answer
    ensures { WrittenU wide msb header attribute numbers.now values.now out.old (as_answer result) out.new }
{
    let n = numbers.len();
    let least = n.min(values.len());
    let first = spelling::write::first_drop(numbers);
    let counts = judging::judge_plain(n == values.len(), least, first, samples::PAIR, out.len())?;
    let whole = counts.written;
    parts::write_opening(out, msb, whole, types::PING_U, header);
    spelling::write::write_pairs(numbers, values, msb, out, SAMPLES);
    parts::write_closing(out, msb, SAMPLES + samples::PAIR * n, whole, attribute);
    Ok(counts)
}

// Writes a U-16 ping.
pub fn write_u16(
    header: PingHeader,
    attribute: i32,
    numbers: &[u16],
    values: &[i16],
    msb: bool,
    out: &mut [u8],
) -> Answer
    ensures { WrittenU narrow msb header attribute numbers.now values.now out.old (as_answer result) out.new }
{
    let n = numbers.len();
    let least = n.min(values.len());
    let first = spelling16::plain::first_drop(numbers);
    let counts = judging::judge_plain(n == values.len(), least, first, samples16::PAIR, out.len())?;
    let whole = counts.written;
    parts::write_opening(out, msb, whole, types::PING_U16, header);
    spelling16::plain::write_pairs(numbers, values, msb, out, SAMPLES);
    parts::write_closing(out, msb, SAMPLES + samples16::PAIR * n, whole, attribute);
    Ok(counts)
}

// Writes a U-32-16-angles ping.
pub fn write_u32_16_angles(
    header: PingHeader,
    attribute: i32,
    numbers: &[u32],
    alongship: &[i16],
    athwartship: &[i16],
    msb: bool,
    out: &mut [u8],
) -> Answer
    ensures { WrittenA wide_angles msb header attribute numbers.now alongship.now athwartship.now
        out.old (as_answer result) out.new }
{
    let n = numbers.len();
    let equal = judging::same(n, alongship.len(), athwartship.len());
    let least = n.min(alongship.len().min(athwartship.len()));
    let first = spelling::write::first_drop(numbers);
    let counts = judging::judge_plain(equal, least, first, samples::PAIR, out.len())?;
    let whole = counts.written;
    parts::write_opening(out, msb, whole, types::PING_ANGLES, header);
    spelling16::plain::write_wide_angles(numbers, alongship, athwartship, msb, out, SAMPLES);
    parts::write_closing(out, msb, SAMPLES + samples::PAIR * n, whole, attribute);
    Ok(counts)
}

// Writes a U-16-angles ping.
pub fn write_u16_angles(
    header: PingHeader,
    attribute: i32,
    numbers: &[u16],
    alongship: &[i16],
    athwartship: &[i16],
    msb: bool,
    out: &mut [u8],
) -> Answer
    ensures { WrittenA narrow_angles msb header attribute numbers.now alongship.now athwartship.now
        out.old (as_answer result) out.new }
{
    let n = numbers.len();
    let equal = judging::same(n, alongship.len(), athwartship.len());
    let least = n.min(alongship.len().min(athwartship.len()));
    let first = spelling16::plain::first_drop(numbers);
    let counts = judging::judge_plain(equal, least, first, samples16::TRIPLE, out.len())?;
    let whole = counts.written;
    parts::write_opening(out, msb, whole, types::PING_U16_ANGLES, header);
    spelling16::plain::write_narrow_angles(numbers, alongship, athwartship, msb, out, SAMPLES);
    parts::write_closing(out, msb, SAMPLES + samples16::TRIPLE * n, whole, attribute);
    Ok(counts)
}

// Writes a C-32 ping, its samples and its length in the fewest words.
pub fn write_c32(
    header: PingHeader,
    attribute: i32,
    numbers: &[u32],
    values: &[i32],
    length: PingLength,
    msb: bool,
    out: &mut [u8],
) -> Answer
    ensures { WrittenC wide msb header attribute numbers.now values.now (handed_length length) out.old (as_answer result)
        out.new }
{
    let wordless = spelling::write::first_wordless(values);
    let counts = judging::judge_packed(numbers, values.len(), wordless, length, true, out.len())?;
    let whole = counts.written;
    let quiet = judging::quiet_behind(numbers, length);
    parts::write_packed_opening(out, msb, whole, types::PING_C, header, numbers.len());
    spelling::write::write_words(numbers, values, quiet, msb, out, WORDS);
    parts::write_closing(out, msb, whole - frame::TAIL, whole, attribute);
    Ok(counts)
}

// Writes a C-16 ping, its samples and its length in the fewest words.
pub fn write_c16(
    header: PingHeader,
    attribute: i32,
    numbers: &[u32],
    values: &[i16],
    length: PingLength,
    msb: bool,
    out: &mut [u8],
) -> Answer
    ensures { WrittenC narrow msb header attribute numbers.now values.now (handed_length length) out.old (as_answer result)
        out.new }
{
    let wordless = spelling16::write::first_wordless(values);
    let counts = judging::judge_packed(numbers, values.len(), wordless, length, false, out.len())?;
    let whole = counts.written;
    let quiet = judging::quiet_behind(numbers, length);
    parts::write_packed_opening(out, msb, whole, types::PING_C16, header, numbers.len());
    let end = spelling16::write::write_words(numbers, values, quiet, msb, out, WORDS);
    parts::write_closing(out, msb, end, whole, attribute);
    Ok(counts)
}

// Writes a CE-16 ping, its counts and its length in the fewest words.
pub fn write_ce16(
    header: PingHeader,
    attribute: i32,
    numbers: &[u32],
    counts: &[i32],
    length: PingLength,
    msb: bool,
    out: &mut [u8],
) -> Answer
    ensures { WrittenC encoded msb header attribute numbers.now counts.now (handed_length length) out.old (as_answer result)
        out.new }
{
    let codeless = spelling16::write::first_codeless(counts);
    let said = judging::judge_packed(numbers, counts.len(), codeless, length, false, out.len())?;
    let whole = said.written;
    let quiet = judging::quiet_behind(numbers, length);
    parts::write_packed_opening(out, msb, whole, types::PING_CE16, header, numbers.len());
    let end = spelling16::write::write_codes(numbers, counts, quiet, msb, out, WORDS);
    parts::write_closing(out, msb, end, whole, attribute);
    Ok(said)
}
