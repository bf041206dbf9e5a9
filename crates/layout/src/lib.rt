// The listed types as constant tables: their codes, classes, lengths, rows and what they say to other tuples. The three kinds of
// identifier. What is said of a tuple and of a call.
#![tactic(auto)]

pub mod codes;
pub mod types;

ghost use Rattle.std.specs.Prelude.{◌≡◌, ◌+◌, ◌^◌, ◌<◌, [], get_or, Ok, Err};
ghost use Rattle.layout.specs.Answers.{counts};
ghost use Rattle.layout.specs.Class.{class_number};
ghost use Rattle.layout.specs.Fields.{known};
ghost use Rattle.layout.specs.Types.{in_class, listed, lengths_of, says_of, fitting, same_maker};
ghost use Rattle.layout.specs.inner.Codes.{place_in, rowed, row_codes, measures, maker_number, maker_of};

use codes::Code;

// What an acceptance counts: the tuples of what was handed in, the bytes or samples written, the identifiers compared while linking
// the tuples of a file.
#[derive(Clone, Copy)]
pub struct Counts {
    pub tuples: usize,
    pub written: usize,
    pub compared: usize,
}

// Why a call refuses: the code of the first broken rule, and its place.
#[derive(Clone, Copy, Debug, PartialEq, Eq)]
pub struct Refusal {
    pub code: Code,
    pub place: usize,
}

// What intake says: it accepts and counts, or it refuses.
pub type Answer = Result<Counts, Refusal>;

// What is wrong with one tuple: the code of its first broken rule, with a place counted from the tuple's first byte.
#[derive(Clone, Copy, Debug, PartialEq, Eq)]
pub struct Flaw {
    pub code: Code,
    pub offset: usize,
}

// What is said of one tuple.
pub type Verdict = Result<(), Flaw>;

// The classes of type codes.
#[derive(Clone, Copy, Debug, PartialEq, Eq)]
pub enum Class {
    Position,
    Sounder,
    Channel,
    Ping,
    Index,
}

// Names an echosounder tuple.
#[derive(Clone, Copy)]
pub struct DocumentId(pub u32);

// Names a channel tuple.
#[derive(Clone, Copy)]
pub struct SoftwareChannel(pub u16);

// The hardware channel of an echosounder. It names no tuple.
#[derive(Clone, Copy)]
pub struct Transceiver(pub u16);

// Who made an echosounder: Biosonics, or Simrad, whose is the EK-500.
#[derive(Clone, Copy, Debug, PartialEq, Eq)]
pub enum Maker {
    Biosonics,
    Simrad,
}

// What the tuples of a type say to the others: nothing; they declare a maker's sounder or channel; they name a channel; or they name
// one, or all.
#[derive(Clone, Copy)]
pub enum Says {
    Nothing,
    Sounder(Maker),
    Channel(Maker),
    Names,
    NamesOrAll,
}

// The signature's identifier, as it is written; and the number that TR's table prints in its place, which some recorders write.
pub const IDENTIFIER: u16 = 44204;

pub const PRINTED_IDENTIFIER: u16 = 44201;

// The makers' numbers in a table of declarations.
const BIOSONICS: u32 = 0;

const SIMRAD: u32 = 1;

// The listed types; those of them that are read and turned by their rows, which come first; and the longest of these rows. The pings
// behind them have the row of the U-32 ping.
pub const LISTED: usize = 20;

pub const ROWED: usize = 15;

pub const ROW: usize = 27;

// The first and the last type code of each class, in the order of `Class`.
const CLASSES: [[u16; 2]; 5] = [
    [20, 29],
    [100, 999],
    [1000, 9999],
    [10000, 10099],
    [65406, 65515],
];

// The fields of each listed type, behind its type and before its attribute: 2 and 4 a number of as many bytes, s and S a signed
// one, c thirty characters, z a space of two bytes, i the signature's identifier; a dot ends a row.
const ROWS: [[u8; ROW]; ROWED] = [
    *b"i224.......................",
    *b"2422s2s22s22cz.............",
    *b"24222222222S2s4c...........",
    *b"244222z44ssss2222222sss44cz",
    *b"2442244ssss22222222s2sz44cz",
    *b"s442zSS....................",
    *b"242s2z.....................",
    *b"2422sssssz.................",
    *b"24222222444................",
    *b"24.........................",
    *b"24224S.....................",
    *b"24224S4....................",
    *b"24.........................",
    *b"24.........................",
    *b"242........................",
];

// How many fields each row has: its codes before the dots.
pub const FIELDS: [usize; ROWED] = [4, 14, 16, 27, 27, 7, 6, 10, 11, 2, 6, 7, 2, 2, 3];

// What each listed type measures: of its row the numbers, the bytes before its characters, the bytes but for these and all bytes; its
// least length, and by what step it may be longer: a step of 0 allows the one length alone; and the bytes more that it may be longer
// besides, or 0.
const MEASURES: [[usize; 7]; LISTED] = [
    [3, 10, 10, 10, 24, 0, 0],
    [12, 26, 28, 58, 72, 0, 0],
    [15, 36, 36, 66, 80, 0, 0],
    [24, 62, 64, 94, 108, 0, 0],
    [24, 62, 64, 94, 108, 0, 0],
    [6, 22, 22, 22, 36, 0, 0],
    [5, 14, 14, 14, 28, 0, 0],
    [9, 22, 22, 22, 36, 0, 0],
    [11, 30, 30, 30, 44, 0, 0],
    [2, 6, 6, 6, 24, 4, 0],
    [6, 18, 18, 18, 40, 8, 0],
    [7, 22, 22, 22, 40, 4, 0],
    [2, 6, 6, 6, 20, 0, 0],
    [2, 6, 6, 6, 20, 0, 0],
    [3, 8, 8, 8, 24, 4, 0],
    [6, 18, 18, 18, 40, 8, 0],
    [6, 18, 18, 18, 36, 4, 0],
    [6, 18, 18, 18, 40, 12, 4],
    [7, 22, 22, 22, 40, 4, 0],
    [7, 22, 22, 22, 40, 4, 0],
];

// The places of these seven.
pub const NUMBERS: usize = 0;

pub const BEFORE: usize = 1;

pub const BARE: usize = 2;

pub const SIZE: usize = 3;

const LEAST: usize = 4;

const STEP: usize = 5;

const MORE: usize = 6;

// A fault at a tuple's first byte.
pub fn fault<T>(code: Code) -> Result<T, Flaw>
    ensures { result ≡ Err (record { code = code; offset = 0 }) }
{
    fault_at(code, 0)
}

// A fault at a byte counted from a tuple's first.
pub fn fault_at<T>(code: Code, offset: usize) -> Result<T, Flaw>
    ensures { result ≡ Err (record { code = code; offset = offset }) }
{
    Err(Flaw { code, offset })
}

impl Flaw {
    // The refusal for it of the tuple at a place.
    pub fn at(self, place: usize) -> Refusal
        requires { place + self.offset < 2 ^ 64 }
        ensures { result ≡ record { code = self.code; place = place + self.offset } }
    {
        Refusal {
            code: self.code,
            place: place + self.offset,
        }
    }
}

// An acceptance by a call that checks no file, and so compares nothing.
pub fn accept(tuples: usize, written: usize) -> Answer
    ensures { result ≡ Ok (counts tuples written) }
{
    Ok(Counts {
        tuples,
        written,
        compared: 0,
    })
}

// A refusal.
pub fn refuse<T>(code: Code, place: usize) -> Result<T, Refusal>
    ensures { result ≡ Err (record { code = code; place = place }) }
{
    Err(Refusal { code, place })
}

// Whether a number may be read as the signature's identifier.
pub fn is_known(identifier: u16) -> bool
    ensures { result ≡ known identifier }
{
    if identifier == IDENTIFIER {
        return true;
    }
    identifier == PRINTED_IDENTIFIER
}

// Whether a type code is of a class: the table by a constant place for each, as in `row`.
pub fn in_class(class: Class, code: u16) -> bool
    ensures { result ≡ in_class (class_number class) code }
{
    let bounds = match class {
        Class::Position => CLASSES[0],
        Class::Sounder => CLASSES[1],
        Class::Channel => CLASSES[2],
        Class::Ping => CLASSES[3],
        Class::Index => CLASSES[4],
    };
    (bounds[0] <= code) & (code <= bounds[1])
}

// The listing of a type code: its place among the listed types, LISTED where it is none of theirs.
pub fn listing_of(code: u16) -> usize
    ensures { result ≡ place_in code }
{
    match code {
        types::SIGNATURE => 0,
        types::SOUNDER => 1,
        types::EK500_SOUNDER => 2,
        types::CHANNEL => 3,
        types::EK500_CHANNEL => 4,
        types::POSITION => 5,
        types::NAVIGATION => 6,
        types::ATTITUDE => 7,
        types::THRESHOLD => 8,
        types::EVENT => 9,
        types::PING_U => 10,
        types::PING_C => 11,
        types::RUN_START => 12,
        types::RUN_END => 13,
        types::FILE_END => 14,
        types::PING_ANGLES => 15,
        types::PING_U16 => 16,
        types::PING_U16_ANGLES => 17,
        types::PING_C16 => 18,
        types::PING_CE16 => 19,
        _ => LISTED,
    }
}

// What the tables say of a listing, by a constant place each: the compiler keeps no table, and ROWS[listing] would build all of it at
// each call. Its row
pub fn row(listing: usize) -> [u8; ROW]
    requires { listing < rowed }
    ensures { result ≡ get_or row_codes listing [] }
{
    match listing {
        0 => ROWS[0],
        1 => ROWS[1],
        2 => ROWS[2],
        3 => ROWS[3],
        4 => ROWS[4],
        5 => ROWS[5],
        6 => ROWS[6],
        7 => ROWS[7],
        8 => ROWS[8],
        9 => ROWS[9],
        10 => ROWS[10],
        11 => ROWS[11],
        12 => ROWS[12],
        13 => ROWS[13],
        _ => ROWS[14],
    }
}

// and what it measures.
pub fn measure(listing: usize) -> [usize; 7]
    requires { listing < listed }
    ensures { result ≡ get_or measures listing [] }
{
    match listing {
        0 => MEASURES[0],
        1 => MEASURES[1],
        2 => MEASURES[2],
        3 => MEASURES[3],
        4 => MEASURES[4],
        5 => MEASURES[5],
        6 => MEASURES[6],
        7 => MEASURES[7],
        8 => MEASURES[8],
        9 => MEASURES[9],
        10 => MEASURES[10],
        11 => MEASURES[11],
        12 => MEASURES[12],
        13 => MEASURES[13],
        14 => MEASURES[14],
        15 => MEASURES[15],
        16 => MEASURES[16],
        17 => MEASURES[17],
        18 => MEASURES[18],
        _ => MEASURES[19],
    }
}

// What the tuples of a type code say to the others.
pub fn says_of(code: u16) -> Says
    ensures { result ≡ says_of code }
{
    match code {
        types::SOUNDER => Says::Sounder(Maker::Biosonics),
        types::EK500_SOUNDER => Says::Sounder(Maker::Simrad),
        types::CHANNEL => Says::Channel(Maker::Biosonics),
        types::EK500_CHANNEL => Says::Channel(Maker::Simrad),
        types::ATTITUDE => Says::NamesOrAll,
        types::THRESHOLD => Says::Names,
        types::PING_U => Says::Names,
        types::PING_C => Says::Names,
        types::PING_ANGLES => Says::Names,
        types::PING_U16 => Says::Names,
        types::PING_U16_ANGLES => Says::Names,
        types::PING_C16 => Says::Names,
        types::PING_CE16 => Says::Names,
        _ => Says::Nothing,
    }
}

// A maker as the number that a table keeps,
pub fn number_of(maker: Maker) -> u32
    ensures value { result ≡ maker_number maker }
    ensures maker_value { maker_of (maker_number maker) ≡ maker }
{
    match maker {
        Maker::Biosonics => BIOSONICS,
        Maker::Simrad => SIMRAD,
    }
}

// and the maker of such a number.
pub fn maker_of(number: u32) -> Maker
    ensures { result ≡ maker_of number }
{
    if number == BIOSONICS {
        return Maker::Biosonics;
    }
    Maker::Simrad
}

// Whether a number stands for a maker.
pub fn is_maker(number: u32, maker: Maker) -> bool
    ensures { result ≡ same_maker (maker_of number) maker }
{
    maker_of(number) == maker
}

// Whether a tuple of a type code may be so long: any length will do for a type that isn't listed.
pub fn fits(code: u16, length: usize) -> bool
    ensures { result ≡ fitting (lengths_of code) length }
{
    let listing = listing_of(code);
    if LISTED <= listing {
        return true;
    }
    let measure = measure(listing);
    let least = measure[LEAST];
    let step = measure[STEP];
    if step == 0 {
        return length == least;
    }
    if length < least {
        return false;
    }
    let over = (length - least) % step;
    (over == 0) | (over == measure[MORE])
}
