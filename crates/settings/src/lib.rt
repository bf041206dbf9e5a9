// Settings: for each listed ping of a file, in file order, the threshold and the attitude that govern it.
#![tactic(auto)]

ghost use Rattle.std.specs.Prelude.{◌≡◌, ◌+◌, ◌≤◌, ◌<◌, ◌^◌, length, drop};
ghost use Rattle.std.proofs.lemmas.List.Edits.{sets};
ghost use Rattle.layout.specs.Views.{as_answer};
ghost use Rattle.frame.specs.Frames.{tup_at};
ghost use Rattle.links.specs.Links.{id_of, Apart, most_channels};
ghost use Rattle.links.specs.inner.Tables.{channels_in};
ghost use Rattle.intake.specs.inner.Sound.{SoundHere};
ghost use Rattle.settings.specs.Settings.{role_of, settings_of, pings_of, thresholds_of, attitudes_of, SettingsTold};
ghost use Rattle.settings.specs.inner.Tables.{line_of, held_by, rows_by, lines_by, Room, Stands, told_by, rows_told};
ghost use Rattle.settings.specs.inner.Tables.{RowRoom, Roomy, no_lines};

use frame::passing::{self, Located};
use layout::codes::Code;
use layout::{Answer, Counts, Says, SoftwareChannel};
use links::{CHANNELS, Channel, Row};

// A tuple's part: a ping, a threshold or an attitude of a channel; an attitude for all channels; a channel's own tuple; any other.
#[derive(Clone, Copy)]
pub enum Role {
    Ping(SoftwareChannel),
    Threshold(SoftwareChannel),
    Attitude(SoftwareChannel),
    ForAll,
    Declares(Channel),
    Other,
}

// The channels declared so far, the place of the last attitude for all, and the row where the next channel is looked for first.
#[derive(Clone, Copy)]
struct Held {
    channels: usize,
    every: usize,
    near: usize,
}

// What governs a ping: the places of a threshold and of an attitude, 0 for none.
#[derive(Clone, Copy)]
struct Told {
    threshold: usize,
    attitude: usize,
}

// A channel's line: the places of its last threshold and of its last attitude, 0 for none.
type Line = [usize; 2];

const THRESHOLD: usize = 0;

const ATTITUDE: usize = 1;

// The part of a tuple.
fn role_at(file: &[u8], tuple: Located, msb: bool) -> Role
    requires { SoundHere msb file.now tuple.at tuple.whole tuple.code }
    ensures { result ≡ role_of msb (tup_at msb (drop tuple.at file.now)) }
{
    match layout::says_of(tuple.code) {
        Says::Nothing => Role::Other,
        Says::Sounder(_) => Role::Other,
        Says::Channel(maker) => Role::Declares(intake::channel_at(file, tuple.at, msb, maker)),
        Says::NamesOrAll => {
            let named = intake::named_at(file, tuple.at, msb);
            if named.0 == intake::ALL_CHANNELS {
                return Role::ForAll;
            }
            Role::Attitude(named)
        }
        Says::Names => {
            let named = intake::named_at(file, tuple.at, msb);
            if intake::is_ping(tuple.code) {
                return Role::Ping(named);
            }
            Role::Threshold(named)
        }
    }
}

// The line of the channel that a tuple names; 0 where it names none.
fn line_of(role: Role, h: Held, rows: &[Row], notes: &[u16]) -> usize
    requires channels_in_bounds { h.channels ≤ length rows.now }
    requires apart { Apart id_of (channels_in h.channels rows.now) }
    requires most_channels_in_bounds { most_channels ≤ length notes.now }
    ensures { result ≡ line_of role h.channels rows.now }
{
    match role {
        Role::Ping(c) => links::find_near(rows, h.channels, c, h.near, notes),
        Role::Threshold(c) => links::find_near(rows, h.channels, c, h.near, notes),
        Role::Attitude(c) => links::find_near(rows, h.channels, c, h.near, notes),
        Role::ForAll => 0,
        Role::Declares(_) => 0,
        Role::Other => 0,
    }
}

// What governs a ping of the channel on a line; of any other tuple nothing is told.
#[tactic(auto, using(crate::proofs::Holds::max_later))]
fn told_of(role: Role, line: usize, h: Held, lines: &[Line; CHANNELS]) -> Option<Told>
    requires { line < most_channels }
    ensures { result ≡ told_by role line h lines.now }
{
    match role {
        Role::Ping(_) => {
            let last = lines[line];
            Some(Told {
                threshold: last[THRESHOLD],
                attitude: last[ATTITUDE].max(h.every),
            })
        }
        _ => None,
    }
}

// Stores what is told of the tuple at a place, and says where the next row goes.
fn put_row(
    pings: &mut [usize],
    thresholds: &mut [usize],
    attitudes: &mut [usize],
    row: usize,
    at: usize,
    told: Option<Told>,
) -> usize
    requires row_bound { row < 2 ^ 32 }
    requires row_room { RowRoom told row (length pings.old) (length thresholds.old) (length attitudes.old) }
    ensures value { result ≡ row + length (rows_told at told) }
    ensures pings_after { pings.new ≡ sets pings.old row (pings_of (rows_told at told)) }
    ensures thresholds_after { thresholds.new ≡ sets thresholds.old row (thresholds_of (rows_told at told)) }
    ensures attitudes_after { attitudes.new ≡ sets attitudes.old row (attitudes_of (rows_told at told)) }
{
    match told {
        None => row,
        Some(it) => {
            pings[row] = at;
            thresholds[row] = it.threshold;
            attitudes[row] = it.attitude;
            row + 1
        }
    }
}

// Keeps what the tuple at a place sets or declares.
fn keep(
    role: Role,
    at: usize,
    line: usize,
    h: Held,
    rows: &mut [Row; CHANNELS],
    notes: &mut [u16; CHANNELS],
    lines: &mut [Line; CHANNELS],
) -> Held
    requires at_bound { (at < 2 ^ 32) × (line < most_channels) × (h.channels ≤ most_channels) }
    requires room { Room role h }
    ensures value { result ≡ held_by role at h result.near }
    ensures stands { Stands role at }
    ensures rows_after { rows.new ≡ rows_by role at h rows.old }
    ensures lines_after { lines.new ≡ lines_by role at line lines.old }
{
    let channels = h.channels;
    match role {
        Role::Ping(_) => Held {
            channels,
            every: h.every,
            near: line + 1,
        },
        Role::Threshold(_) => {
            lines[line] = [at, lines[line][ATTITUDE]];
            Held {
                channels,
                every: h.every,
                near: line + 1,
            }
        }
        Role::Attitude(_) => {
            lines[line] = [lines[line][THRESHOLD], at];
            Held {
                channels,
                every: h.every,
                near: line + 1,
            }
        }
        Role::ForAll => Held {
            channels,
            every: at,
            near: h.near,
        },
        Role::Declares(it) => {
            links::put_channel(rows, channels, it, at);
            links::note_row(notes, it.id, channels);
            Held {
                channels: channels + 1,
                every: h.every,
                near: h.near,
            }
        }
        Role::Other => Held {
            channels,
            every: h.every,
            near: h.near,
        },
    }
}

// Fills the three slices for an accepted file, tuple by tuple; the tables are lent for what is kept, the lines blank.
fn fill_with(
    file: &[u8],
    pings: &mut [usize],
    thresholds: &mut [usize],
    attitudes: &mut [usize],
    rows: &mut [Row; CHANNELS],
    notes: &mut [u16; CHANNELS],
    lines: &mut [Line; CHANNELS],
)
    requires roomy { Roomy file.now (length pings.old) (length thresholds.old) (length attitudes.old) }
    requires rows_len { (length rows.old ≡ most_channels) × (lines.old ≡ no_lines) }
    ensures pings_after { pings.new ≡ sets pings.old 0 (pings_of (settings_of file.now)) }
    ensures thresholds_after { thresholds.new ≡ sets thresholds.old 0 (thresholds_of (settings_of file.now)) }
    ensures attitudes_after { attitudes.new ≡ sets attitudes.old 0 (attitudes_of (settings_of file.now)) }
{
    let msb = frame::is_msb(file);
    let mut h = Held {
        channels: 0,
        every: 0,
        near: 0,
    };
    let mut row: usize = 0;
    for tuple in passing::behind_mark(file, msb) {
        let role = role_at(file, tuple, msb);
        let line = line_of(role, h, rows, notes);
        let told = told_of(role, line, h, lines);
        row = put_row(pings, thresholds, attitudes, row, tuple.at, told);
        h = keep(role, tuple.at, line, h, rows, notes, lines);
    }
}

// The same, with tables of its own.
fn fill(file: &[u8], pings: &mut [usize], thresholds: &mut [usize], attitudes: &mut [usize])
    requires { Roomy file.now (length pings.old) (length thresholds.old) (length attitudes.old) }
    ensures pings_after { pings.new ≡ sets pings.old 0 (pings_of (settings_of file.now)) }
    ensures thresholds_after { thresholds.new ≡ sets thresholds.old 0 (thresholds_of (settings_of file.now)) }
    ensures attitudes_after { attitudes.new ≡ sets attitudes.old 0 (attitudes_of (settings_of file.now)) }
{
    let mut rows = [links::BLANK; CHANNELS];
    let mut notes = [0u16; CHANNELS];
    let mut lines = [[0usize; 2]; CHANNELS];
    fill_with(
        file, pings, thresholds, attitudes, &mut rows, &mut notes, &mut lines,
    );
}

// Which settings held at each listed ping, in file order: its place, that of the last threshold before it for its channel and that of
// the last attitude before it for its channel or for all, 0 for none. The check's refusals, then 19 where one slice is too short; a
// refusal leaves every element.
pub fn settings(
    file: &[u8],
    pings: &mut [usize],
    thresholds: &mut [usize],
    attitudes: &mut [usize],
) -> Answer
    ensures { SettingsTold file.now pings.old thresholds.old attitudes.old (as_answer result)
        pings.new thresholds.new attitudes.new }
{
    let counts = intake::check(file)?;
    let n = linked::count_pings(file);
    let room = pings.len().min(thresholds.len()).min(attitudes.len());
    if room < n {
        return layout::refuse(Code::NoRoom, 0);
    }
    fill(file, pings, thresholds, attitudes);
    Ok(Counts {
        tuples: counts.tuples,
        written: n,
        compared: counts.compared,
    })
}
