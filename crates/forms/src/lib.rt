// Forms: the normal form of one tuple, measured and written.
#![tactic(auto)]

ghost use Rattle.std.specs.Prelude.{◌≡◌, false, ◌+◌, ◌^◌, ◌≤◌, ◌<◌, length, drop};
ghost use Rattle.std.proofs.lemmas.List.Edits.{sets};
ghost use Rattle.layout.specs.Fields.{size};
ghost use Rattle.layout.specs.Types.{unlisted, shape_of};
ghost use Rattle.layout.specs.inner.Codes.{place_in, rowed};
ghost use Rattle.turning.specs.Rows.{turned};
ghost use Rattle.frame.specs.Frames.{tup_at};
ghost use Rattle.frame.specs.inner.Framing.{opening_bytes};
ghost use Rattle.content.specs.Forms.{form_bytes};
ghost use Rattle.intake.specs.inner.Tallies.{Fits};
ghost use Rattle.intake.specs.inner.Sound.{SoundHere};
ghost use Rattle.ping_forms.specs.inner.Measured.{Measured};
ghost use Rattle.forms.specs.inner.Parts.{listed_fields, first_listings, Rowed};

use frame::DATA;
use layout::{Class, FIELDS, types};
use ping_forms::Form;

// The places of an event's characters and of an end of file's data bytes.
const EVENT_TEXT: usize = 12;

const END_DATA: usize = 14;

// How many bytes the normal form of the tuple at a place has, and its type: none for the index class, whose own type stands for it.
pub fn measure_form(file: &[u8], at: usize, msb: bool, whole: usize, code: u16) -> Form
    requires { SoundHere msb file.now at whole code }
    ensures { Measured msb (tup_at msb (drop at file.now)) whole code result }
{
    if layout::in_class(Class::Index, code) {
        return Form { bytes: 0, code };
    }
    if ping_forms::is_compressed(code) {
        return ping_forms::measure_compressed(file, at, msb, whole, code);
    }
    Form { bytes: whole, code }
}

// Writes the fields of a tuple of a listed type, by its listing. Each arm names its row by a constant, and how many fields it has before
// its dots: so that the compiler makes plain loads and stores of the loop over it, if it has fifteen fields at most. It does so where it
// takes these functions into their one caller, and that only up to some size: so they are two. Of the signature and of what declares,
fn turn_first(file: &[u8], at: usize, msb: bool, listing: usize, out: &mut [u8], to: usize)
    requires listing_lt_first_listings { listing < first_listings }
    requires listing_in_bounds { at + size (listed_fields listing) ≤ length file.now }
    requires listing_in_bounds_2 { to + size (listed_fields listing) ≤ length out.old }
    ensures { out.new ≡ sets out.old to (turned msb (listed_fields listing) (drop at file.now)) }
{
    match listing {
        0 => turning::turn_row(file, at, msb, &layout::row(0)[0..FIELDS[0]], out, to),
        1 => turning::turn_row(file, at, msb, &layout::row(1)[0..FIELDS[1]], out, to),
        2 => turning::turn_row(file, at, msb, &layout::row(2)[0..FIELDS[2]], out, to),
        3 => turning::turn_row(file, at, msb, &layout::row(3)[0..FIELDS[3]], out, to),
        _ => turning::turn_row(file, at, msb, &layout::row(4)[0..FIELDS[4]], out, to),
    }
}

// and of any that a row reads.
fn turn_listed(file: &[u8], at: usize, msb: bool, listing: usize, out: &mut [u8], to: usize)
    requires listing_lt_rowed { listing < rowed }
    requires listing_in_bounds { at + size (listed_fields listing) ≤ length file.now }
    requires listing_in_bounds_2 { to + size (listed_fields listing) ≤ length out.old }
    ensures { out.new ≡ sets out.old to (turned msb (listed_fields listing) (drop at file.now)) }
{
    match listing {
        5 => turning::turn_row(file, at, msb, &layout::row(5)[0..FIELDS[5]], out, to),
        6 => turning::turn_row(file, at, msb, &layout::row(6)[0..FIELDS[6]], out, to),
        7 => turning::turn_row(file, at, msb, &layout::row(7)[0..FIELDS[7]], out, to),
        8 => turning::turn_row(file, at, msb, &layout::row(8)[0..FIELDS[8]], out, to),
        9 => turning::turn_row(file, at, msb, &layout::row(9)[0..FIELDS[9]], out, to),
        10 => turning::turn_row(file, at, msb, &layout::row(10)[0..FIELDS[10]], out, to),
        11 => turning::turn_row(file, at, msb, &layout::row(11)[0..FIELDS[11]], out, to),
        12 => turning::turn_row(file, at, msb, &layout::row(12)[0..FIELDS[12]], out, to),
        13 => turning::turn_row(file, at, msb, &layout::row(13)[0..FIELDS[13]], out, to),
        14 => turning::turn_row(file, at, msb, &layout::row(14)[0..FIELDS[14]], out, to),
        _ => turn_first(file, at, msb, listing, out, to),
    }
}

// Writes what stands before a form's characters or samples: size, type and the fields of a listing.
fn open_form(
    file: &[u8],
    at: usize,
    msb: bool,
    listing: usize,
    out: &mut [u8],
    to: usize,
    bytes: usize,
    code: u16,
)
    requires listing_lt_rowed { listing < rowed }
    requires listing_in_bounds { at + 6 + size (listed_fields listing) ≤ length file.now }
    requires listing_in_bounds_2 { to + 6 + size (listed_fields listing) ≤ length out.old }
    requires le_bytes { (10 ≤ bytes) × (bytes < 2 ^ 32) }
    ensures { out.new ≡ sets out.old to
        (opening_bytes false bytes code (turned msb (listed_fields listing) (drop (at + 6) file.now))) }
{
    frame::open_frame(out, to, false, bytes, code);
    turn_listed(file, at + DATA, msb, listing, out, to + DATA);
}

// Where the characters of a tuple begin, behind its fields: where its attribute stands, for a type that has none.
fn text_place(whole: usize, code: u16) -> usize
    requires rowed { Rowed code }
    requires fits { Fits whole code }
    ensures value { result ≡ 6 + size (listed_fields (place_in code)) }
    ensures result_bound { result + 8 ≤ whole }
{
    match code {
        types::EVENT => EVENT_TEXT,
        types::FILE_END => END_DATA,
        _ => whole - frame::TAIL,
    }
}

// Writes the form of a tuple that a row reads: its fields turned, its characters or data bytes as they stand.
fn write_row(
    file: &[u8],
    at: usize,
    msb: bool,
    whole: usize,
    code: u16,
    listing: usize,
    out: &mut [u8],
    to: usize,
)
    requires sound_here { SoundHere msb file.now at whole code }
    requires rowed { Rowed code }
    requires listing_value { listing ≡ place_in code }
    requires whole_in_bounds { to + whole ≤ length out.old }
    ensures { out.new ≡ sets out.old to (form_bytes msb (tup_at msb (drop at file.now))) }
{
    let text = text_place(whole, code);
    let tail = whole - frame::TAIL;
    open_form(file, at, msb, listing, out, to, whole, code);
    turning::copy(file, at + text, tail - text, out, to + text);
    ping_forms::close_form(file, at + tail, msb, out, to + tail, whole);
}

// Writes the form of an unlisted tuple: its data as they stand.
fn write_raw(file: &[u8], at: usize, msb: bool, whole: usize, code: u16, out: &mut [u8], to: usize)
    requires sound_here { SoundHere msb file.now at whole code }
    requires code_value { shape_of code ≡ unlisted }
    requires whole_in_bounds { to + whole ≤ length out.old }
    ensures { out.new ≡ sets out.old to (form_bytes msb (tup_at msb (drop at file.now))) }
{
    frame::open_frame(out, to, false, whole, code);
    turning::copy(file, at + DATA, whole - frame::FRAME, out, to + DATA);
    order::store4(out, to + whole - frame::BACKLINK, false, whole as u32);
}

// Writes the normal form of the tuple at a place, and says how many bytes it has.
pub fn write_form(
    file: &[u8],
    at: usize,
    msb: bool,
    whole: usize,
    code: u16,
    out: &mut [u8],
    to: usize,
) -> usize
    requires sound_here { SoundHere msb file.now at whole code }
    requires file_in_bounds { to + length (form_bytes msb (tup_at msb (drop at file.now))) ≤ length out.old }
    ensures value { result ≡ length (form_bytes msb (tup_at msb (drop at file.now))) }
    ensures out_after { out.new ≡ sets out.old to (form_bytes msb (tup_at msb (drop at file.now))) }
{
    if layout::in_class(Class::Index, code) {
        return 0;
    }
    if ping_forms::is_compressed(code) {
        return ping_forms::write_compressed(file, at, msb, whole, code, out, to);
    }
    if intake::is_ping(code) {
        ping_forms::plain::write_form(file, at, msb, whole, code, out, to);
        return whole;
    }
    let listing = layout::listing_of(code);
    if listing == layout::LISTED {
        write_raw(file, at, msb, whole, code, out, to);
        return whole;
    }
    write_row(file, at, msb, whole, code, listing, out, to);
    whole
}
