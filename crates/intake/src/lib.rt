// Intake: the check of a file, and asking for a ping's channel and sounder.
#![tactic(auto)]

ghost use Rattle.std.specs.Prelude.{◌≡◌, ◌+◌, ◌-◌, ◌^◌, ◌<◌, ◌≤◌, length, drop, true, ◌&&◌, ◌||◌};
ghost use Rattle.layout.specs.Types;
ghost use Rattle.layout.specs.Answer.{Accepted};
ghost use Rattle.layout.specs.Views.{as_verdict, as_answer};
ghost use Rattle.links.specs.inner.Views.{as_linked};
ghost use Rattle.intake.specs.Views.{as_asked};
ghost use Rattle.intake.specs.inner.Views.{as_turned};
ghost use Rattle.layout.specs.Types.{in_class, is_ping};
ghost use Rattle.frame.specs.Frames.{tup_at, allowed};
ghost use Rattle.frame.specs.Files.{limit};
ghost use Rattle.links.specs.Links.{most_channels, Steady};
ghost use Rattle.intake.specs.inner.Tallies.{Here, Fits, head_verdict, inner_verdict, own_verdict, sounder_at, channel_at, named_at};
ghost use Rattle.intake.specs.inner.Tallies.{link_told, turn_told, tally_begin, tally_past, Standing, Held, tables, Sized};
ghost use Rattle.intake.specs.inner.Tallies.{course_of, TurnedTo, PassedIndex, RanTo, RunTo, AskIn, ask_where};
ghost use Rattle.intake.specs.Alone.{alone};
ghost use Rattle.intake.specs.Check.{check_file, ending, Checked};
ghost use Rattle.intake.specs.Asking.{AskedFor, ask_accepted};

use layout::codes::Code;
use layout::{
    Answer, Class, Counts, DocumentId, Maker, Refusal, Says, SoftwareChannel, Verdict, types,
};
use links::{CHANNELS, Channel, LinkVerdict, Row, SOUNDERS, Sounder};
use std::ops::ControlFlow;

// The places of the fields that link tuples, behind a tuple's first byte.
const NUMBER_OF_CHANNELS: usize = 6;

const OWN_CHANNEL: usize = 6;

const IDENTIFIER: usize = 6;

const DOCUMENT: usize = 8;

const SAMPLING_RATE: usize = 12;

const SAMPLE_TYPE: usize = 16;

const NAMED_CHANNEL: usize = 12;

// Where all may be named, as in an attitude, this means all channels.
pub const ALL_CHANNELS: u16 = 65535;

// What asking gives: both identifiers and both tuples' places, the channel's sampling rate and type of data sample, and what the
// file's acceptance counts.
#[derive(Clone, Copy)]
pub struct Parents {
    pub channel: SoftwareChannel,
    pub channel_place: usize,
    pub sampling_rate: u32,
    pub sample_type: u16,
    pub sounder: DocumentId,
    pub sounder_place: usize,
    pub counts: Counts,
}

// Where the check stands: its place in the file, the tuples counted, the identifiers compared, the sounders and the channels declared,
// the row where the next channel is looked for first, the classes seen.
#[derive(Clone, Copy)]
pub struct Tally {
    pub at: usize,
    pub count: usize,
    pub compared: usize,
    pub sounders: usize,
    pub channels: usize,
    pub near: usize,
    pub position: bool,
    pub sounder: bool,
    pub channel: bool,
    pub ping: bool,
}

// A turn takes the tally past a tuple, or ends the check.
pub type Turned = ControlFlow<Answer, Tally>;

// 7, then 9 and 8, of the tuple at a place.
pub fn judge_head(
    file: &[u8],
    at: usize,
    msb: bool,
    whole: usize,
    code: u16,
    first: bool,
) -> Verdict
    requires { Here msb file.now at whole code }
    ensures { as_verdict result ≡ head_verdict msb first (tup_at msb (drop at file.now)) }
{
    let signs = code == types::SIGNATURE;
    if signs != first {
        return layout::fault(Code::MisplacedSignature);
    }
    if !layout::fits(code, whole) {
        return layout::fault(Code::Unfit);
    }
    if code != types::SIGNATURE {
        return Ok(());
    }
    if !layout::is_known(order::read2(file, at + IDENTIFIER, msb)) {
        return layout::fault(Code::UnknownIdentifier);
    }
    Ok(())
}

// What the sounder tuple of a maker at a place declares.
fn sounder_at(file: &[u8], at: usize, msb: bool, maker: Maker) -> Sounder
    requires { at + 16 ≤ length file.now }
    ensures { result ≡ sounder_at msb file.now at maker }
{
    Sounder {
        doc: DocumentId(order::read4(file, at + DOCUMENT, msb)),
        says: order::read2(file, at + NUMBER_OF_CHANNELS, msb),
        maker,
    }
}

// What the channel tuple of a maker at a place declares.
pub fn channel_at(file: &[u8], at: usize, msb: bool, maker: Maker) -> Channel
    requires { at + 18 ≤ length file.now }
    ensures { result ≡ channel_at msb file.now at maker }
{
    Channel {
        id: SoftwareChannel(order::read2(file, at + OWN_CHANNEL, msb)),
        parent: DocumentId(order::read4(file, at + DOCUMENT, msb)),
        rate: order::read4(file, at + SAMPLING_RATE, msb),
        samples: order::read2(file, at + SAMPLE_TYPE, msb),
        maker,
    }
}

// The channel that the tuple at a place names.
pub fn named_at(file: &[u8], at: usize, msb: bool) -> SoftwareChannel
    requires { at + 16 ≤ length file.now }
    ensures { result ≡ named_at msb file.now at }
{
    SoftwareChannel(order::read2(file, at + NAMED_CHANNEL, msb))
}

// 12, 14 and 13, of the tuple where the tally stands, which is this place of a part of the file.
fn judge_links(
    part: &[u8],
    from: usize,
    msb: bool,
    w: Tally,
    whole: usize,
    code: u16,
    sounders: &[Row],
    channels: &[Row],
    notes: &[u16],
) -> LinkVerdict
    requires here { Here msb part.now from whole code }
    requires fits { Fits whole code }
    requires held { Held w (tables sounders.now channels.now) }
    requires most_channels_in_bounds { most_channels ≤ length notes.now }
    ensures { as_linked result ≡ link_told msb (drop from part.now) w
        (tables sounders.now channels.now) }
{
    match layout::says_of(code) {
        Says::Nothing => Ok(0),
        Says::Sounder(maker) => {
            let it = sounder_at(part, from, msb, maker);
            links::judge_sounder(sounders, w.sounders, it)
        }
        Says::Channel(maker) => {
            let it = channel_at(part, from, msb, maker);
            links::judge_channel(sounders, w.sounders, channels, w.channels, it)
        }
        Says::NamesOrAll => {
            let id = named_at(part, from, msb);
            if id.0 == ALL_CHANNELS {
                return Ok(0);
            }
            links::judge_name(channels, w.channels, id, w.near, notes)
        }
        Says::Names => {
            links::judge_name(
                channels,
                w.channels,
                named_at(part, from, msb),
                w.near,
                notes,
            )
        }
    }
}

// 11; 23, or 24 and 25: of the tuple at a place.
fn judge_inner(file: &[u8], at: usize, msb: bool, whole: usize, code: u16) -> Verdict
    requires here { Here msb file.now at whole code }
    requires fits { Fits whole code }
    ensures { as_verdict result ≡ inner_verdict msb (tup_at msb (drop at file.now)) }
{
    let until = at + whole - frame::TAIL;
    match code {
        types::PING_U => samples::judge_pairs(&file[at + samples::SAMPLES..until], msb),
        types::PING_C => {
            let count = order::read4(file, at + samples::COUNT, msb);
            samples::judge_words(&file[at + samples::WORDS..until], msb, count)
        }
        types::PING_ANGLES => {
            samples16::angles::judge_wide(&file[at + samples::SAMPLES..until], msb)
        }
        types::PING_U16 => {
            samples16::judge_samples(&file[at + samples::SAMPLES..until], msb, false)
        }
        types::PING_U16_ANGLES => {
            samples16::judge_samples(&file[at + samples::SAMPLES..until], msb, true)
        }
        types::PING_C16 => {
            let count = order::read4(file, at + samples::COUNT, msb);
            samples16::judge_words(&file[at + samples::WORDS..until], msb, count, false)
        }
        types::PING_CE16 => {
            let count = order::read4(file, at + samples::COUNT, msb);
            samples16::judge_words(&file[at + samples::WORDS..until], msb, count, true)
        }
        _ => Ok(()),
    }
}

// What the rules say of the tuple where the tally stands, which is this place of a part of the file: 4; 3, 5, 3, 6; 7; 9, 8; 12, 14,
// 13; 11; 23, or 24 and 25.
fn judge(
    part: &[u8],
    from: usize,
    msb: bool,
    w: Tally,
    sounders: &[Row],
    channels: &[Row],
    notes: &[u16],
) -> LinkVerdict
    requires from_in_bounds { from ≤ length part.now }
    requires held { Held w (tables sounders.now channels.now) }
    requires most_channels_in_bounds { most_channels ≤ length notes.now }
    ensures { as_linked result ≡ turn_told msb (drop from part.now) w
        (tables sounders.now channels.now) }
{
    if part.len() == from {
        return layout::fault(Code::NoEnd);
    }
    frame::judge_frame(part, from, msb)?;
    let whole = frame::length_at(part, from, msb);
    let code = frame::kind_at(part, from, msb);
    judge_head(part, from, msb, whole, code, w.count == 0)?;
    let compared = judge_links(part, from, msb, w, whole, code, sounders, channels, notes)?;
    // what judges samples isn't inlined, and so it is called for pings alone
    if is_ping(code) {
        judge_inner(part, from, msb, whole, code)?;
    }
    Ok(compared)
}

// A tuple's own rules, whatever stands before it: 9 and 8, then those of its samples. A signature that stands first breaks no 7.
pub fn judge_own(file: &[u8], at: usize, msb: bool, whole: usize, code: u16) -> Verdict
    requires { Here msb file.now at whole code }
    ensures { as_verdict result ≡ own_verdict msb (tup_at msb (drop at file.now)) }
{
    judge_head(file, at, msb, whole, code, code == types::SIGNATURE)?;
    judge_inner(file, at, msb, whole, code)
}

// A tuple by itself, whatever stands around it: the rules of its frame, then its own.
pub fn judge_alone(file: &[u8], at: usize, msb: bool) -> Verdict
    requires { at ≤ length file.now }
    ensures { as_verdict result ≡ alone msb (drop at file.now) }
{
    frame::judge_frame(file, at, msb)?;
    let whole = frame::length_at(file, at, msb);
    let code = frame::kind_at(file, at, msb);
    judge_own(file, at, msb, whole, code)
}

// Either of two.
fn either(a: bool, b: bool) -> bool
    ensures { result ≡ a || b }
{
    if a { true } else { b }
}

// The row behind the last channel found; a tuple that links nothing leaves it. No promise rests on it: it says only where to look
// first.
fn nearer(near: usize, compared: usize) -> usize {
    if compared == 0 {
        return near;
    }
    compared
}

impl Tally {
    // Behind the mark.
    pub fn begin() -> Tally
        ensures { result ≡ tally_begin }
    {
        Tally {
            at: frame::MARKED,
            count: 0,
            compared: 0,
            sounders: 0,
            channels: 0,
            near: 0,
            position: false,
            sounder: false,
            channel: false,
            ping: false,
        }
    }

    // Past a tuple, which is counted with its class and with the identifiers compared to link it.
    fn past(self, whole: usize, code: u16, compared: usize) -> Tally
        requires { (self.at + whole < 2 ^ 32) × (self.count < 2 ^ 32) × (self.compared + compared < 2 ^ 32) }
        ensures { result ≡ tally_past self whole code compared result.near }
    {
        Tally {
            at: self.at + whole,
            count: self.count + 1,
            compared: self.compared + compared,
            sounders: self.sounders,
            channels: self.channels,
            near: nearer(self.near, compared),
            position: either(self.position, layout::in_class(Class::Position, code)),
            sounder: either(self.sounder, layout::in_class(Class::Sounder, code)),
            channel: either(self.channel, layout::in_class(Class::Channel, code)),
            ping: either(self.ping, layout::in_class(Class::Ping, code)),
        }
    }

    // Whether each of the four classes was seen.
    fn complete(self) -> bool
        ensures { result ≡ self.position && self.sounder && self.channel && self.ping }
    {
        if self.position {
            if self.sounder {
                if self.channel {
                    return self.ping;
                }
            }
        }
        false
    }
}

// 15, 16 and 17, behind the end of file, in a file of so many bytes.
fn end(total: usize, w: Tally, sounders: &[Row], channels: &[Row]) -> Answer
    requires sounders_in_bounds { w.sounders ≤ length sounders.now }
    requires channels_in_bounds { w.channels ≤ length channels.now }
    ensures { as_answer result ≡ ending total (course_of w (tables sounders.now channels.now)) }
{
    let at = w.at;
    if at < total {
        return layout::refuse(Code::BehindEnd, at);
    }
    if !w.complete() {
        return layout::refuse(Code::ClassAbsent, total);
    }
    let wrong = links::first_wrong(sounders, w.sounders, channels, w.channels);
    if wrong < w.sounders {
        let place = links::wide(sounders[wrong][links::PLACE]);
        return layout::refuse(Code::WrongCount, place);
    }
    Ok(Counts {
        tuples: w.count,
        written: 0,
        compared: w.compared,
    })
}

// Whether a tuple of a type code may declare: it is of the sounders' or of the channels' class. It spares all others a look at what
// their type says.
fn may_declare(code: u16) -> bool
    ensures { result ≡ in_class Types.sounder code || in_class Types.channel code }
{
    either(
        layout::in_class(Class::Sounder, code),
        layout::in_class(Class::Channel, code),
    )
}

// One turn, in a file of so many bytes in all: the tuple where the tally stands, which is this place of a part of the file, is judged,
// its declaration is kept with its place in the file, and the tally passes it.
fn turn(
    part: &[u8],
    from: usize,
    total: usize,
    msb: bool,
    w: Tally,
    sounders: &mut [Row; SOUNDERS],
    channels: &mut [Row; CHANNELS],
    notes: &mut [u16; CHANNELS],
) -> Turned
    requires standing { Standing w }
    requires steady { Steady (course_of w (tables sounders.old channels.old)).links }
    requires at_le_limit { w.at ≤ limit }
    requires from_in_bounds { from ≤ length part.now }
    requires sized { Sized (tables sounders.old channels.old) }
    ensures { TurnedTo msb total (drop from part.now) w
        (tables sounders.old channels.old)
        (as_turned result)
        (tables sounders.new channels.new) }
{
    let at = w.at;
    match judge(part, from, msb, w, sounders, channels, notes) {
        Err(flaw) => ControlFlow::Break(Err(flaw.at(at))),
        Ok(compared) => {
            let whole = frame::length_at(part, from, msb);
            let code = frame::kind_at(part, from, msb);
            let mut next = w.past(whole, code, compared);
            if !may_declare(code) {
                if code == types::FILE_END {
                    return ControlFlow::Break(end(total, next, sounders, channels));
                }
                return ControlFlow::Continue(next);
            }
            match layout::says_of(code) {
                Says::Nothing => ControlFlow::Continue(next),
                Says::Names => ControlFlow::Continue(next),
                Says::NamesOrAll => ControlFlow::Continue(next),
                Says::Sounder(maker) => {
                    let it = sounder_at(part, from, msb, maker);
                    links::put_sounder(sounders, w.sounders, it, at);
                    next.sounders = w.sounders + 1;
                    ControlFlow::Continue(next)
                }
                Says::Channel(maker) => {
                    let it = channel_at(part, from, msb, maker);
                    links::put_channel(channels, w.channels, it, at);
                    links::note_row(notes, it.id, w.channels);
                    next.channels = w.channels + 1;
                    ControlFlow::Continue(next)
                }
            }
        }
    }
}

// The turn over a tuple of the index class, of so many bytes, that stands in no part: it is counted, and declares nothing.
pub fn pass_index(w: Tally, whole: usize) -> Tally
    requires standing { Standing w }
    requires count_nonzero { 0 < w.count }
    requires at_le_limit { w.at ≤ limit }
    requires whole_value { allowed whole ≡ true }
    ensures { PassedIndex w whole result }
{
    Tally {
        at: w.at + whole,
        count: w.count + 1,
        compared: w.compared,
        sounders: w.sounders,
        channels: w.channels,
        near: w.near,
        position: w.position,
        sounder: w.sounder,
        channel: w.channel,
        ping: w.ping,
    }
}

// Turns, one by one, over a part of a file of so many bytes, from the tuple where the tally stands, which is this place of the part,
// until it stands at a place of the file or the check ends. The one loop of turns there is, so that the turn is inlined into it.
pub fn run_on(
    part: &[u8],
    from: usize,
    total: usize,
    msb: bool,
    start: Tally,
    until: usize,
    sounders: &mut [Row; SOUNDERS],
    channels: &mut [Row; CHANNELS],
    notes: &mut [u16; CHANNELS],
) -> Turned
    requires standing { Standing start }
    requires steady { Steady (course_of start (tables sounders.old channels.old)).links }
    requires from_in_bounds { from ≤ length part.now }
    requires from_bound { start.at + (length part.now - from) ≤ limit }
    requires sized { Sized (tables sounders.old channels.old) }
    ensures { RanTo msb total until (drop from part.now) start
        (tables sounders.old channels.old)
        (as_turned result)
        (tables sounders.new channels.new) }
{
    let mut w = start;
    let mut at = from;
    while w.at != until {
        match turn(part, at, total, msb, w, sounders, channels, notes) {
            ControlFlow::Continue(next) => {
                at += next.at - w.at;
                w = next;
            }
            ControlFlow::Break(answer) => {
                return ControlFlow::Break(answer);
            }
        }
    }
    ControlFlow::Continue(w)
}

// The turns of a whole file, from its mark until the tally stands at a place or the check ends.
fn run(
    file: &[u8],
    msb: bool,
    until: usize,
    sounders: &mut [Row; SOUNDERS],
    channels: &mut [Row; CHANNELS],
    notes: &mut [u16; CHANNELS],
) -> Turned
    requires in_bounds { 4 ≤ length file.now }
    requires file_len_bound { length file.now ≤ limit }
    requires sized { Sized (tables sounders.old channels.old) }
    ensures { RunTo msb file.now until (as_turned result)
        (tables sounders.new channels.new) }
{
    let begin = Tally::begin();
    run_on(
        file,
        frame::MARKED,
        file.len(),
        msb,
        begin,
        until,
        sounders,
        channels,
        notes,
    )
}

// The check of a file: 1, 2; tuple by tuple as `judge` orders them; 15, 16, 17. It accepts with the tuples and the
// identifiers compared.
pub fn check(file: &[u8]) -> Answer
    ensures { Checked file.now (as_answer result) }
{
    if frame::LIMIT < file.len() {
        return layout::refuse(Code::OverLimit, 0);
    }
    if !frame::is_marked(file) {
        return layout::refuse(Code::NoMark, 0);
    }
    let msb = frame::is_msb(file);
    let mut sounders = [links::BLANK; SOUNDERS];
    let mut channels = [links::BLANK; CHANNELS];
    let mut notes = [0u16; CHANNELS];
    match run(
        file,
        msb,
        file.len(),
        &mut sounders,
        &mut channels,
        &mut notes,
    ) {
        ControlFlow::Continue(_) => layout::refuse(Code::NoEnd, file.len()),
        ControlFlow::Break(answer) => answer,
    }
}

// Whether a type code is a listed ping's.
pub fn is_ping(code: u16) -> bool
    ensures { result ≡ is_ping code }
{
    match code {
        types::PING_U => true,
        types::PING_C => true,
        types::PING_ANGLES => true,
        types::PING_U16 => true,
        types::PING_U16_ANGLES => true,
        types::PING_C16 => true,
        types::PING_CE16 => true,
        _ => false,
    }
}

// The parents of the ping where the tally stands in an accepted file, by the declarations before it; 9 where no listed ping is there.
fn ask_here(
    file: &[u8],
    msb: bool,
    w: Tally,
    counts: Counts,
    sounders: &[Row],
    channels: &[Row],
) -> Result<Parents, Refusal>
    requires { AskIn msb file.now w (tables sounders.now channels.now) }
    ensures { as_asked result ≡ ask_where msb file.now counts (course_of w (tables sounders.now channels.now)) }
{
    let at = w.at;
    if !is_ping(frame::kind_at(file, at, msb)) {
        return layout::refuse(Code::Unfit, at);
    }
    let channel = named_at(file, at, msb);
    let found = links::find_channel(channels, w.channels, channel);
    let row = channels[found];
    let sounder = DocumentId(row[links::PARENT]);
    let over = links::find_sounder(sounders, w.sounders, sounder);
    Ok(Parents {
        channel,
        channel_place: links::wide(row[links::PLACE]),
        sampling_rate: row[links::RATE],
        sample_type: links::narrow(row[links::SAMPLES]),
        sounder,
        sounder_place: links::wide(sounders[over][links::PLACE]),
        counts,
    })
}

// Goes to a place of an accepted file, tuple by tuple, keeping the declarations before it.
fn ask_accepted(file: &[u8], place: usize, counts: Counts) -> Result<Parents, Refusal>
    requires { check_file file.now ≡ Accepted counts }
    ensures { as_asked result ≡ ask_accepted file.now place counts }
{
    let msb = frame::is_msb(file);
    let mut sounders = [links::BLANK; SOUNDERS];
    let mut channels = [links::BLANK; CHANNELS];
    let mut notes = [0u16; CHANNELS];
    match run(file, msb, place, &mut sounders, &mut channels, &mut notes) {
        ControlFlow::Continue(w) => ask_here(file, msb, w, counts, &sounders, &channels),
        ControlFlow::Break(_) => layout::refuse(Code::Unfit, place),
    }
}

// Asks for a ping's channel and sounder: the check's refusals for the whole file, then 9 where no listed ping starts.
pub fn ask(file: &[u8], place: usize) -> Result<Parents, Refusal>
    ensures { AskedFor file.now place (as_asked result) }
{
    let counts = check(file)?;
    ask_accepted(file, place, counts)
}
