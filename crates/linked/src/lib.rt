// Linked: the listed pings of an accepted file, each with what its channel's samples are.
#![tactic(auto)]

ghost use Rattle.std.specs.Prelude.{◌≡◌, [], ◌+◌, ◌^◌, ◌≤◌, ◌<◌, length, get_or};
ghost use Rattle.links.specs.Links.{Apart, id_of, place_of, most_channels};
ghost use Rattle.links.specs.inner.Tables.{channel_of, channels_in};
ghost use Rattle.intake.specs.inner.Tallies.{named_at};
ghost use Rattle.intake.specs.inner.Sound.{SoundHere, Accepts};
ghost use Rattle.quantities.specs.Quantities.{quantity_of};
ghost use Rattle.linked.specs.Linked.{linked_of};
ghost use Rattle.linked.specs.inner.Here.{new_here, Past, FoundAt};

use frame::passing;
use layout::Says;
use links::{CHANNELS, Row};
use quantities::{Quantity, quantity_by};

// A linked ping: its place, the file's byte order, its length and its type code, and what its channel's samples are.
#[derive(Clone, Copy)]
pub struct Spot {
    pub at: usize,
    pub msb: bool,
    pub whole: usize,
    pub code: u16,
    pub quantity: Quantity,
}

// What the samples of the ping at a place are, by the rows of the channels declared before it, of which so many are used.
pub fn quantity_at(
    file: &[u8],
    at: usize,
    msb: bool,
    used: usize,
    rows: &[Row],
    notes: &[u16],
) -> Quantity
    requires at_in_bounds { at + 16 ≤ length file.now }
    requires used_in_bounds { used ≤ length rows.now }
    requires apart { Apart id_of (channels_in (used) rows.now) }
    requires rows_bound { place_of id_of (named_at msb file.now at).0 (channels_in (used) rows.now) < used }
    requires most_channels_in_bounds { most_channels ≤ length notes.now }
    ensures { result ≡ quantity_of (get_or (channels_in (used) rows.now)
        (place_of id_of (named_at msb file.now at).0 (channels_in (used) rows.now)) (channel_of [])) }
{
    let named = intake::named_at(file, at, msb);
    let found = links::find_near(rows, used, named, 0, notes);
    let row = rows[found];
    quantity_by(
        layout::maker_of(row[links::MAKER]),
        links::narrow(row[links::SAMPLES]),
    )
}

// Past the tuple at a place: a channel that it declares is kept on the next row. How many rows are used then.
pub fn keep(
    file: &[u8],
    at: usize,
    msb: bool,
    whole: usize,
    code: u16,
    used: usize,
    rows: &mut [Row; CHANNELS],
    notes: &mut [u16; CHANNELS],
) -> usize
    requires sound_here { SoundHere msb file.now at whole code }
    requires at_bound { at < 2 ^ 32 }
    requires at_bound_2 { used + length (new_here msb file.now at) ≤ most_channels }
    requires rows_len { length rows.old ≡ most_channels }
    ensures { Past used rows.old (new_here msb file.now at) result rows.new }
{
    match layout::says_of(code) {
        Says::Nothing => used,
        Says::Sounder(_) => used,
        Says::Names => used,
        Says::NamesOrAll => used,
        Says::Channel(maker) => {
            let it = intake::channel_at(file, at, msb, maker);
            links::put_channel(rows, used, it, at);
            links::note_row(notes, it.id, used);
            used + 1
        }
    }
}

// How many listed pings an accepted file has.
pub fn count_pings(file: &[u8]) -> usize
    requires { Accepts file.now }
    ensures { result ≡ length (linked_of file.now) }
{
    let msb = frame::is_msb(file);
    let mut n: usize = 0;
    for tuple in passing::behind_mark(file, msb) {
        if intake::is_ping(tuple.code) {
            n += 1;
        }
    }
    n
}

// The same as `find`, with the tables lent.
fn find_with(
    file: &[u8],
    place: usize,
    rows: &mut [Row; CHANNELS],
    notes: &mut [u16; CHANNELS],
) -> Option<Spot>
    requires accepts { Accepts file.now }
    requires rows_len { length rows.old ≡ most_channels }
    ensures { FoundAt file.now place result }
{
    let msb = frame::is_msb(file);
    let mut used: usize = 0;
    for tuple in passing::behind_mark(file, msb) {
        if tuple.at == place && intake::is_ping(tuple.code) {
            let quantity = quantity_at(file, tuple.at, msb, used, rows, notes);
            return Some(Spot {
                at: tuple.at,
                msb,
                whole: tuple.whole,
                code: tuple.code,
                quantity,
            });
        }
        used = keep(
            file,
            tuple.at,
            msb,
            tuple.whole,
            tuple.code,
            used,
            rows,
            notes,
        );
    }
    None
}

// The listed ping at a place of an accepted file, with what its channel's samples are.
pub fn find(file: &[u8], place: usize) -> Option<Spot>
    requires { Accepts file.now }
    ensures { FoundAt file.now place result }
{
    let mut rows = [links::BLANK; CHANNELS];
    let mut notes = [0u16; CHANNELS];
    find_with(file, place, &mut rows, &mut notes)
}
