// Index: the types of a file's tuples, kept as flags, counted, and written as the Index 1 tuple of TR Table 14.
#![tactic(auto)]

ghost use Rattle.std.specs.Prelude.{◌≡◌, ◌+◌, ◌*◌, ◌%◌, ◌^◌, ◌≤◌, ◌<◌, length};
ghost use Rattle.std.proofs.lemmas.List.Edits.{sets};
ghost use Rattle.std.specs.Iterator.{YieldsFirst, item_count};
ghost use Rattle.samples.specs.Words.{unwords};
ghost use Rattle.frame.specs.Frames.{frame, length_of};
ghost use Rattle.index.specs.Index.{spaced, index_tuple};
ghost use Rattle.index.specs.inner.Flags.{flagged, flag_outside, flagged_from, flagged_types, Blank, opening_of};

use layout::Class;

// The types that there are, and the bytes of a flag for each.
const TYPES: usize = 65_536;

pub const FLAGS: usize = 8_192;

// The type of the Index 1 tuple.
pub const INDEX_1: u16 = 65_406;

// Its bytes but for the list, and the place of its list.
const BARE: usize = 20;

const LIST: usize = 12;

// Whether a type is flagged.
#[tactic(auto, unfolding(crate::specs::inner::Flags::flagged))]
fn is_flagged(flags: &[u8; FLAGS], code: usize) -> bool
    requires { code < 65536 }
    ensures { result ≡ flagged flags.now code }
{
    (flags[code / 8] >> (code % 8)) % 2 == 1
}

// Flags a tuple's type, unless it is of the index class, which no index lists.
pub fn flag_type(flags: &mut [u8; FLAGS], code: u16)
    ensures { flags.new ≡ flag_outside flags.old code }
{
    if layout::in_class(Class::Index, code) {
        return;
    }
    let k = usize::from(code);
    let at = k / 8;
    flags[at] |= 1 << (k % 8);
}

// The type to look at behind one: past a byte without flags at once, since most are, and a file has few types.
fn skip(flags: &[u8; FLAGS], code: usize) -> usize
    requires { code < 65536 }
    ensures { Blank flags.now (code + 1) result }
{
    let at = code / 8;
    if flags[at] == 0 {
        return 8 * at + 8;
    }
    code + 1
}

// The flagged types, ascending.
#[derive(Drop)]
struct TypesFrom<'a> {
    flags: &'a [u8; FLAGS],
    from: usize,
}

impl<'a> Iterator for TypesFrom<'a> {
    type Item = u16;

    ghost next_gives = { YieldsFirst (λ s. flagged_from s.flags.now s.from) };

    ghost remaining = { item_count (λ s. flagged_from s.flags.now s.from) };

    fn next(&mut self) -> Option<u16> {
        while self.from < TYPES {
            let code = self.from;
            if is_flagged(self.flags, code) {
                self.from = code + 1;
                return Some(code as u16);
            }
            self.from = skip(self.flags, code);
        }
        None
    }
}

// All of them.
#[tactic(auto, unfolding(crate::specs::inner::Flags::flagged_types))]
fn types(flags: &[u8; FLAGS]) -> TypesFrom<'_>
    ensures { flagged_from result.flags.now result.from ≡ flagged_types flags.now }
{
    TypesFrom { flags, from: 0 }
}

// How many types are flagged.
pub fn count_types(flags: &[u8; FLAGS]) -> usize
    ensures { result ≡ length (flagged_types flags.now) }
{
    types(flags).count()
}

// How many bytes the index of so many types has.
pub fn index_length(types: usize) -> usize
    requires { types ≤ 65536 }
    ensures { result ≡ 20 + 2 * (types + types % 2) }
{
    BARE + 2 * (types + types % 2)
}

// Writes the flagged types, ascending, and says where they end.
fn write_types(flags: &[u8; FLAGS], msb: bool, out: &mut [u8], to: usize) -> usize
    requires { to + 2 * length (flagged_types flags.now) ≤ length out.old }
    ensures value { result ≡ to + 2 * length (flagged_types flags.now) }
    ensures out_after { out.new ≡ sets out.old to (unwords 2 msb (flagged_types flags.now)) }
{
    let mut q = to;
    for code in types(flags) {
        order::store2(out, q, msb, code);
        q += 2;
    }
    q
}

// Writes them with a space of 0 behind an odd number, and says where they end.
fn write_spaced(flags: &[u8; FLAGS], msb: bool, out: &mut [u8], to: usize) -> usize
    requires { to + 2 * length (spaced (flagged_types flags.now)) ≤ length out.old }
    ensures value { result ≡ to + 2 * length (spaced (flagged_types flags.now)) }
    ensures out_after { out.new ≡ sets out.old to (unwords 2 msb (spaced (flagged_types flags.now))) }
{
    let q = write_types(flags, msb, out, to);
    if (q - to) / 2 % 2 == 0 {
        return q;
    }
    order::store2(out, q, msb, 0);
    q + 2
}

// Writes what stands before the types: data size, type, time fraction 0 and time 0.
fn write_opening(out: &mut [u8], to: usize, msb: bool, whole: usize)
    requires to_in_bounds { to + 12 ≤ length out.old }
    requires le_whole { (10 ≤ whole) × (whole < 2 ^ 32) }
    ensures { out.new ≡ sets out.old to (opening_of msb whole) }
{
    frame::open_frame(out, to, msb, whole, INDEX_1);
    order::store2(out, to + frame::DATA, msb, 0);
    order::store4(out, to + frame::DATA + 2, msb, 0);
}

// Writes the index of the flagged types.
pub fn write_index(flags: &[u8; FLAGS], msb: bool, out: &mut [u8], to: usize)
    requires { to + length_of (index_tuple msb (flagged_types flags.now)) ≤ length out.old }
    ensures { out.new ≡ sets out.old to (frame msb (index_tuple msb (flagged_types flags.now))) }
{
    let whole = index_length(count_types(flags));
    write_opening(out, to, msb, whole);
    let end = write_spaced(flags, msb, out, to + LIST);
    frame::close_frame(out, end, msb, whole, 0);
}
