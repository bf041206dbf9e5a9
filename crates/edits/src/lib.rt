// Edits: a file written anew with its index: the index written, tuples appended, a tuple removed.
#![tactic(auto)]

ghost use Rattle.std.specs.Prelude.{◌≡◌, true, false, ◌+◌, ◌≤◌, ◌<◌, length, drop, replicate};
ghost use Rattle.std.proofs.lemmas.List.Edits.{sets};
ghost use Rattle.layout.specs.Views.{as_answer};
ghost use Rattle.frame.specs.Files.{limit};
ghost use Rattle.frame.specs.Frames.{allowed, frames};
ghost use Rattle.intake.specs.Check.{check_file};
ghost use Rattle.intake.specs.inner.Sound.{Accepts};
ghost use Rattle.intake.specs.inner.Tallies.{tables};
ghost use Rattle.intake.specs.inner.Views.{as_turned};
ghost use Rattle.index.specs.Index.{types_of, before_end};
ghost use Rattle.index.specs.inner.Flags.{flag_all, flagged_types};
ghost use Rattle.edits.specs.Edits.{tuples_in, appended_file, removed_file, Indexed, Appended, Removed};
ghost use Rattle.edits.specs.inner.Parts.{is_tuple, is_dropped, kept_length, kept_tuples, kept_of, Divides, all_of, result_of};
ghost use Rattle.edits.specs.inner.Parts.{Surveyed, Stretch, Cut, SizeOf, Rewritten};
ghost use Rattle.edits.specs.inner.Judging.{Ready, PartTo, SaidBehind};
ghost use Rattle.edits.specs.inner.Places.{Sought, Taken};

mod judged;

use frame::passing;
use index::FLAGS;
use intake::{Tally, Turned};
use layout::codes::Code;
use layout::{Answer, Class, Counts, types};
use links::{CHANNELS, Row, SOUNDERS};
use std::ops::ControlFlow::{Break, Continue};

// How many bytes a result has, and its index.
#[derive(Clone, Copy)]
struct Size {
    whole: usize,
    index: usize,
}

// What is found of a part: the bytes of the tuples kept of it, and where its tuples end.
#[derive(Clone, Copy)]
struct Found {
    kept: usize,
    end: usize,
}

// Whether a tuple stands at a place of a part.
fn is_tuple(part: &[u8], at: usize, msb: bool) -> bool
    requires { at ≤ length part.now }
    ensures { result ≡ is_tuple msb (drop at part.now) }
{
    frame::judge_frame(part, at, msb).is_ok()
}

// How many bytes of a tuple are kept: none of the index class.
fn kept_length(code: u16, whole: usize) -> usize
    ensures { result ≡ kept_length code whole }
{
    if layout::in_class(Class::Index, code) {
        return 0;
    }
    whole
}

// Copies a part's tuples but those of the index class, and says where they end.
fn copy_kept(part: &[u8], msb: bool, out: &mut [u8], to: usize) -> usize
    requires { to + length (kept_tuples msb part.now) ≤ length out.old }
    ensures value { result ≡ to + length (kept_tuples msb part.now) }
    ensures out_after { out.new ≡ sets out.old to (kept_tuples msb part.now) }
{
    let mut next = to;
    for tuple in judged::tuples(part, msb) {
        let kept = kept_length(tuple.code, tuple.whole);
        turning::copy(part, tuple.at, kept, out, next);
        next += kept;
    }
    next
}

// Where the end of file starts in a part; where it has none, where its tuples end.
fn find_end(part: &[u8], msb: bool) -> usize
    ensures { result ≡ length (frames msb (before_end (tuples_in msb part.now))) }
{
    let mut end = 0;
    for tuple in judged::tuples(part, msb) {
        if tuple.code == types::FILE_END {
            return tuple.at;
        }
        end = tuple.at + tuple.whole;
    }
    end
}

// Whether the tuple at a place of a part is dropped: one of the index class stands there.
fn is_dropped(part: &[u8], at: usize, msb: bool) -> bool
    requires { at ≤ length part.now }
    ensures { result ≡ is_dropped msb (drop at part.now) }
{
    if is_tuple(part, at, msb) {
        return layout::in_class(Class::Index, frame::kind_at(part, at, msb));
    }
    false
}

// Where the stretch of a part ends that starts at a place, with a tuple that is kept or bytes that are none: before the next tuple of
// the index class, else at the part's end.
fn stretch_end(part: &[u8], from: usize, msb: bool) -> usize
    requires from_in_bounds { from < length part.now }
    requires part_value { is_dropped msb (drop from part.now) ≡ false }
    ensures { Stretch msb part.now from result }
{
    for tuple in judged::tuples_from(part, from, msb) {
        if layout::in_class(Class::Index, tuple.code) {
            return tuple.at;
        }
    }
    part.len()
}

// Judges what is kept of a part of a result of so many bytes, stretch by stretch, as the check would where the tally stands.
fn judge_part(
    part: &[u8],
    total: usize,
    msb: bool,
    from: Tally,
    sounders: &mut [Row; SOUNDERS],
    channels: &mut [Row; CHANNELS],
    notes: &mut [u16; CHANNELS],
) -> Turned
    requires ready { Ready from (tables sounders.old channels.old) }
    requires part_bound { from.at + length (kept_of msb part.now) ≤ limit }
    ensures { PartTo msb total part.now from
        (tables sounders.old channels.old)
        (as_turned result)
        (tables sounders.new channels.new) }
{
    let mut w = from;
    let mut at = 0;
    // It goes on by a dropped tuple or by a stretch: an iterator over stretches would hold this same step, and the loop be no shorter.
    while at < part.len() {
        if is_dropped(part, at, msb) {
            at += frame::length_at(part, at, msb);
        } else {
            let end = stretch_end(part, at, msb);
            let until = w.at + (end - at);
            w = intake::run_on(
                &part[..end],
                at,
                total,
                msb,
                w,
                until,
                sounders,
                channels,
                notes,
            )?;
            at = end;
        }
    }
    Continue(w)
}

// What the check would say from the index on, which has so many bytes and stands where the tally does, before the last part. Where
// nothing is kept before it, it would stand where a signature has to.
fn judge_back(
    last: &[u8],
    size: Size,
    msb: bool,
    from: Tally,
    sounders: &mut [Row; SOUNDERS],
    channels: &mut [Row; CHANNELS],
    notes: &mut [u16; CHANNELS],
) -> Answer
    requires ready { Ready from (tables sounders.old channels.old) }
    requires last_bound { from.at + size.index + length (kept_of msb last.now) ≤ limit }
    requires index_value { allowed size.index ≡ true }
    ensures { SaidBehind msb size.whole last.now size.index from
        (tables sounders.old channels.old)
        (as_answer result) }
{
    if from.count == 0 {
        return layout::refuse(Code::MisplacedSignature, from.at);
    }
    let w = intake::pass_index(from, size.index);
    match judge_part(last, size.whole, msb, w, sounders, channels, notes) {
        Continue(next) => layout::refuse(Code::NoEnd, next.at),
        Break(answer) => answer,
    }
}

// What the check would say of a result in parts, which stands in no memory yet.
fn judge_result(first: &[u8], second: &[u8], last: &[u8], msb: bool, size: Size) -> Answer
    requires divides { Divides msb first.now }
    requires size_of { SizeOf msb first.now second.now last.now size }
    requires whole_le_limit { size.whole ≤ limit }
    ensures { as_answer result ≡ check_file (result_of msb first.now second.now last.now) }
{
    let mut sounders = [links::BLANK; SOUNDERS];
    let mut channels = [links::BLANK; CHANNELS];
    let mut notes = [0u16; CHANNELS];
    let total = size.whole;
    let begin = Tally::begin();
    let w = match judge_part(
        first,
        total,
        msb,
        begin,
        &mut sounders,
        &mut channels,
        &mut notes,
    ) {
        Continue(w) => w,
        Break(answer) => return answer,
    };
    let v = match judge_part(
        second,
        total,
        msb,
        w,
        &mut sounders,
        &mut channels,
        &mut notes,
    ) {
        Continue(v) => v,
        Break(answer) => return answer,
    };
    judge_back(last, size, msb, v, &mut sounders, &mut channels, &mut notes)
}

// Flags the types of a part's tuples, and measures what is kept of them.
fn survey(part: &[u8], msb: bool, flags: &mut [u8; FLAGS]) -> Found
    ensures { Surveyed msb part.now flags.old result.kept result.end flags.new }
{
    let mut kept = 0;
    let mut end = 0;
    for tuple in judged::tuples(part, msb) {
        index::flag_type(flags, tuple.code);
        kept += kept_length(tuple.code, tuple.whole);
        end = tuple.at + tuple.whole;
    }
    Found { kept, end }
}

// Measures a result in parts, and flags the types of all its tuples. Behind bytes that don't divide nothing stands.
fn measure(first: &[u8], second: &[u8], last: &[u8], msb: bool, flags: &mut [u8; FLAGS]) -> Size
    requires cut { Cut msb first.now second.now last.now }
    requires flags_value { flags.old ≡ replicate 8192 0 }
    ensures size_of { SizeOf msb first.now second.now last.now result }
    ensures flags_after { flags.new ≡ flag_all (replicate 8192 0)
        (all_of msb first.now second.now last.now) }
{
    let a = survey(first, msb, flags);
    let b = survey(second, msb, flags);
    let z = survey(last, msb, flags);
    let index = index::index_length(index::count_types(flags));
    let front = frame::MARKED + a.kept + b.kept;
    if b.end < second.len() {
        return Size {
            whole: front + (second.len() - b.end),
            index,
        };
    }
    Size {
        whole: front + index + z.kept,
        index,
    }
}

// Writes a result in parts, each of which divides: the mark, what is kept before the index, the index, and what is kept behind it.
fn write_result(
    first: &[u8],
    second: &[u8],
    last: &[u8],
    msb: bool,
    size: Size,
    flags: &[u8; FLAGS],
    out: &mut [u8],
)
    requires cut { Cut msb first.now second.now last.now }
    requires divides { Divides msb second.now }
    requires size_of { SizeOf msb first.now second.now last.now size }
    requires whole_in_bounds { size.whole ≤ length out.old }
    requires flags_value { flagged_types flags.now ≡ types_of (all_of msb first.now second.now last.now) }
    ensures { out.new ≡ sets out.old 0
        (result_of msb first.now second.now last.now) }
{
    order::store4(out, 0, msb, frame::MARK);
    let middle = copy_kept(first, msb, out, frame::MARKED);
    let end = copy_kept(second, msb, out, middle);
    index::write_index(flags, msb, out, end);
    copy_kept(last, msb, out, end + size.index);
}

// Hands back a result in parts, of the edited file that counts so much: what the check would say of it, then 19, then it is written.
fn rewrite(
    first: &[u8],
    second: &[u8],
    last: &[u8],
    msb: bool,
    counts: Counts,
    out: &mut [u8],
) -> Answer
    requires { Cut msb first.now second.now last.now }
    ensures { Rewritten (result_of msb first.now second.now last.now) counts out.old
        (as_answer result)
        out.new }
{
    let mut flags = [0u8; FLAGS];
    let size = measure(first, second, last, msb, &mut flags);
    if frame::LIMIT < size.whole {
        return layout::refuse(Code::OverLimit, 0);
    }
    judge_result(first, second, last, msb, size)?;
    if out.len() < size.whole {
        return layout::refuse(Code::NoRoom, 0);
    }
    write_result(first, second, last, msb, size, &flags, out);
    Ok(Counts {
        tuples: counts.tuples,
        written: size.whole,
        compared: counts.compared,
    })
}

// An accepted file, that counts so much, with bytes put behind its tuples before the index and the end of file.
fn insert(file: &[u8], bytes: &[u8], counts: Counts, out: &mut [u8]) -> Answer
    requires taken { Taken file.now counts }
    requires bytes_len_bound { length bytes.now ≤ limit }
    ensures { Rewritten (appended_file file.now bytes.now) counts out.old (as_answer result) out.new }
{
    let msb = frame::is_msb(file);
    let end = frame::MARKED + find_end(&file[frame::MARKED..], msb);
    rewrite(
        &file[frame::MARKED..end],
        bytes,
        &file[end..],
        msb,
        counts,
        out,
    )
}

// A file with its index written afresh: the check's refusals, the result's, then 19; a refusal leaves every byte of out.
pub fn index(file: &[u8], out: &mut [u8]) -> Answer
    ensures { Indexed file.now out.old (as_answer result) out.new }
{
    let counts = intake::check(file)?;
    insert(file, &file[..0], counts, out)
}

// A file with tuples put before its end of file, and its index written afresh: the check's refusals, the result's, then 19; a refusal
// leaves every byte of out.
pub fn append(file: &[u8], bytes: &[u8], out: &mut [u8]) -> Answer
    ensures { Appended file.now bytes.now out.old (as_answer result) out.new }
{
    let counts = intake::check(file)?;
    if frame::LIMIT < bytes.len() {
        return layout::refuse(Code::OverLimit, 0);
    }
    insert(file, bytes, counts, out)
}

// The first place between an accepted file's tuples that isn't before another place; the file's end where that is behind it.
fn find_place(file: &[u8], place: usize) -> usize
    requires { Accepts file.now }
    ensures { Sought file.now place result }
{
    let msb = frame::is_msb(file);
    for tuple in passing::behind_mark(file, msb) {
        if place <= tuple.at {
            return tuple.at;
        }
    }
    file.len()
}

// An accepted file, that counts so much, without the tuple at a place.
fn cut_out(file: &[u8], at: usize, counts: Counts, out: &mut [u8]) -> Answer
    requires taken { Taken file.now counts }
    requires sought { Sought file.now at at }
    requires at_in_bounds { at < length file.now }
    ensures { Rewritten (removed_file file.now at) counts out.old (as_answer result) out.new }
{
    let msb = frame::is_msb(file);
    let next = at + frame::length_at(file, at, msb);
    let end = next + find_end(&file[next..], msb);
    rewrite(
        &file[frame::MARKED..at],
        &file[next..end],
        &file[end..],
        msb,
        counts,
        out,
    )
}

// A file without the tuple at a place, and its index written afresh: the check's refusals, 3 where no tuple starts there, the result's
// refusals, then 19; a refusal leaves every byte of out.
pub fn remove(file: &[u8], place: usize, out: &mut [u8]) -> Answer
    ensures { Removed file.now place out.old (as_answer result) out.new }
{
    let counts = intake::check(file)?;
    if find_place(file, place) != place {
        return layout::refuse(Code::CutShort, place);
    }
    if place == file.len() {
        return layout::refuse(Code::CutShort, place);
    }
    cut_out(file, place, counts, out)
}
