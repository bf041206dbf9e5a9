// HAC files: checked, walked both ways, linked, read, as values, as readings and as energies, written, edited, salvaged and brought to
// one normal form. The whole library under one name.
//
// A file is lent as a slice of bytes and may hold anything; a place is a byte offset in it. Every call answers for every argument and
// asks for nothing. It accepts, or it refuses by one code with a place: the first rule broken, in the order of docs/RULES.md. A refused
// call leaves all lent memory as it was; an accepted one leaves what stands past what it wrote. `msb` is the byte order that a writer
// is asked for: most significant byte first where it is true. Codes are named by `Code`, type codes in `types`.
#![tactic(auto)]

// What a call says: `Ok` with the tuples counted, the length written and the identifiers compared, or `Err` with a refusal, a code and a
// place. Code::number gives a code's number.
pub use layout::codes::Code;
pub use layout::{Answer, Counts, Refusal, types};

// Three kinds of identifier that are never taken for one another.
pub use layout::{DocumentId, SoftwareChannel, Transceiver};

// check(file): 1, 2; tuple by tuple 4, 3, 5, 3, 6, 7, 9, 8, 12, 14, 13, 11, then 23, or 24 and 25, each of these three at the byte of
// its first offender; behind the end of file 15, 16, 17. Accepts with the file's tuples, length 0 and the identifiers compared while
// linking. Promise: `Checked`, crates/intake/specs/Check.antt.
pub use intake::check;

// The walk: a state that a step takes and hands back. Walk { at }.forward(file) and .backward(file) give a tuple (place, length, type
// code, next state), none at the end, or a refusal at the step's place: 1, 2, 3, 5, 3, 6. Promises: `SteppedForward`, `SteppedBackward`,
// crates/frame/specs/Steps.antt.
pub use frame::{Step, Tuple, Walk};

// ask(file, place): the channel and the sounder of the ping at a place, both identifiers and both tuples' places, the channel's
// sampling rate and type of data sample, with what the check counts. Refuses as the check does, then by 9 where no listed ping starts.
// Promise: `AskedFor`, crates/intake/specs/Asking.antt.
pub use intake::{Parents, ask};

// settings(file, pings, thresholds, attitudes): which settings held at each listed ping, in file order, an entry of all three slices for
// each: its place, the place of the last threshold before it for its channel, and that of the last attitude before it for its channel or
// for all; 0 for none. File order decides, and clocks don't. Refuses as the check does, then by 19 at 0 where one of the slices is short.
// Accepts with the file's tuples, the number of pings as the length, and the identifiers compared. Promise: `SettingsTold`,
// crates/settings/specs/Settings.antt; what the rows mean, and that they hang on nothing behind a ping: `Settings`,
// crates/settings/specs/Governing.antt.
pub use settings::settings;

// energy(file, place): the echo energy of the ping at a place in units of 10^-14, the linear values of its samples added up, with what the
// check counts; a silent ping's is 0. Refuses as ask does; then by 28 at the ping where it has angles or its channel isn't Sv; then by 29
// for the first value outside -150 to 0 dB, at its place in the list of samples. Promise: `EnergyTold`, crates/energy/specs/Energy.antt;
// what a linear value is: crates/linear/specs/Linear.antt; that a louder sample never gives less: `Linears`,
// crates/linear/specs/Results.antt.
// energies(file, places, energies, codes): those of all listed pings, in file order, an entry of all three slices for each: its place, its
// energy and 0, or 0 and the code that energy gives there. Refuses as the check does, then by 19 at 0 where one of the slices is short.
// Accepts with the file's tuples, the number of pings as the length, and the identifiers compared. Promise: `EnergiesTold`, there.
pub use energy::{Echo, Told, energies, energy};

// readings(file, place, first, cases, doubles): what a viewer is shown of the ping at a place, for each sample number from the first on, as
// many as both slices have entries: silent, volts, Sv or TS (SILENT, VOLTS, SV, TS) in one, the double in the other. Refuses as ask does;
// then by 30 at the ping where it has angles or its channel is neither volts nor Sv nor TS. Accepts with the file's tuples, the number of
// readings as the length, and the identifiers compared. Promise: `ReadingsTold`, crates/readings/specs/Readings.antt; what a reading is:
// crates/readings/specs/Reading.antt.
// page_at(file, place, first): the same of 64 numbers, by value, as the enum `Reading`; of a refusal all are silent. Promise: `PageTold`,
// there.
pub use readings::{PAGE, Page, Reading, SILENT, SV, Shown, TS, VOLTS, page_at, readings};

// find_ping(deposit, corrections, channel, number): where the ping of a channel and a number stands: the first in file order in the
// corrections with attribute 1, else the first in the deposit, whatever its attribute; its place and its length. Refuses, each with its
// file's mark, as the check of the deposit does, then as that of the corrections; then by 31 at 0 where neither holds it. Promise:
// `PingFound`, crates/corrections/specs/Corrections.antt.
// corrected(deposit, corrections, channel, number, mark, code, place): the same ping's own bytes, as a part of the file that it is from:
// nothing is copied. Tells the mark of that file (DEPOSIT, CORRECTIONS), code 0 and place 0; or a refusal's mark, code and place, with an
// empty part. Promise: `CorrectedBy`, there; what a part is, and when which file wins: `Corrections`,
// crates/corrections/specs/Parts.antt.
pub use corrections::{
    CORRECTIONS, DEPOSIT, FileRefusal, Found, Held, NEITHER, Source, Span, corrected, find_ping,
};

// Pings are of seven kinds. With values: U-32 (10000) and U-16 (10030) uncompressed, C-32 (10010), C-16 (10040) and CE-16 (10050)
// compressed. With angles, uncompressed: U-32-16-angles (10001) and U-16-angles (10031).

// read_ping(file, place): header, attribute, kind, number of values and length of a listed ping of any kind; of one with angles the number
// of its samples. The length is the number of all samples, runs counted, of a compressed ping that ends in a run, so that one without
// samples always has it; an uncompressed ping, and a compressed one that ends in a value, have none. Refuses as a forward step does, 3 at
// the end; then 9 for another type; 9, 11; 23 at the byte of the first number that doesn't rise, or 24 at that of the first word outside
// the limits, 25 at the number of samples. Promise: `PingAt`, crates/pings/specs/Fields.antt.
pub use pings::{Ping, PingHeader, PingKind, PingLength, PingRead, read_ping};

// What is the own of each of the seven types, as constants: the places of the header (PingHeader::TIME_FRACTION and so on, in the row's
// order PingHeader::places()); code, least length and step, and where samples stand, or number of samples and words. `of_pairs` is
// U-32's, `of_words` C-32's.
pub use pings::{of_c16, of_ce16, of_pairs, of_u16, of_u16_angles, of_u32_16_angles, of_words};

// read_samples(file, place, numbers, values): the samples of a ping with values, an entry of both slices for each; the length is their
// number. A value of 16 bits keeps its sign; CE-16's are handed over as counts. Refuses as read_ping does, but a ping with angles is
// another type, 9; then by 19 at 0 where either slice is short. Promise: `SamplesRead`, crates/pings/specs/Readers.antt.
pub use pings::read_samples;

// read_angles(file, place, numbers, alongship, athwartship): the samples of a ping with angles, an entry of all three slices for each; the
// length is their number. Refuses as read_ping does, but a ping with values is another type, 9; then by 19 at 0 where one of the slices is
// short. Promise: `AnglesRead`, crates/pings/specs/Readers.antt.
pub use pings::read_angles;

// write_u32 and write_u16(header, attribute, numbers, values, msb, out): a ping as pairs of number and value, of four bytes each or of two.
// Refuse by 23 at the smaller of unequal counts; 11 (count); 22 without samples; 23 at the first number not above the one before it; 11
// (the tuple's bytes); 19. Promise: `WrittenU`, crates/ping_writers/specs/Writers.antt.
// write_u32_16_angles and write_u16_angles(header, attribute, numbers, alongship, athwartship, msb, out): a ping as triples of number and
// angles, the number of four bytes or of two. Refuse as these do, by 23 first at the smallest of three counts. Promise: `WrittenA`, there.
// write_c32, write_c16 and write_ce16(header, attribute, numbers, values, length, msb, out): a ping in the fewest words, with a length up
// to it in runs behind the last value, without one none there; a CE-16 ping's values are counts. Refuse by 23 at the smaller of unequal
// counts; 11 (count); 22 with neither samples nor a length; 23 at the first number not above the one before it; 21 at the first value that
// has no word of the kind; 26 for a length under the last number plus 2, or of 0 without samples; 11 (the tuple's bytes); 19. Promise:
// `WrittenC`, there.
pub use ping_writers::{
    write_c16, write_c32, write_ce16, write_u16, write_u16_angles, write_u32, write_u32_16_angles,
};

// read_row(file, place, code, numbers): the record of a type at a place as the numbers of its row, in its order, the attribute last, a
// signed one as its pattern, an entry each, and where its characters stand (`Part`). Refuses as a forward step does, 3 at the end; 9 for
// another type, and for every tuple where the type is no record's; 9, 8; then 19 at 0 for fewer numbers than the record has. Promise:
// `RowAt`, crates/rows/specs/Readers.antt.
// write_row(code, numbers, text, msb, out): the same written, each number by the lower bytes of its width. Refuses by 9 at 0 where the
// type is no record's, for fewer numbers than the record has and for characters that it can't hold; 11 at 0 where the tuple would be
// over 262,144 bytes; 19. Promise: `RowWritten`, crates/rows/specs/Writers.antt.
pub use rows::{RowRead, read_row, write_row};

// The records: views of these two, a type each. T::read(file, place) gives the record, and where its characters stand, or a refusal: as
// read_row refuses, but for 19. T::write(record, msb, out) refuses by 19 alone; with remarks by 9 at 0 where they are not thirty
// characters, before 19; an event's text by 9 where it is no multiple of four characters or none, 11 where the tuple would be over
// 262,144 bytes, both at 0, before 19. T::new makes a record of its fields, T::of of the numbers of its row, and T::numbers(record) gives
// these. T::CODE, its length (T::LENGTH, or T::LEAST and T::STEP) and a constant for the place of each field and of the characters are
// the type's own; T::places() has them all in the row's order. Promises: `TAt` and `TWritten`, in the specs of the record's crate;
// `integers_from` and `patterns`, crates/rows/specs/Integers.antt; `places_of`, crates/rows/specs/Places.antt.
pub use tuples::Part;

// made by views/make
pub use attitude::{Attitude, AttitudeRead};
pub use channel::{Channel, ChannelRead};
pub use ek500_channel::{Ek500Channel, Ek500ChannelRead};
pub use ek500_sounder::{Ek500Sounder, Ek500SounderRead};
pub use event::{Event, EventRead};
pub use file_end::{FileEnd, FileEndRead};
pub use navigation::{Navigation, NavigationRead};
pub use position::{Position, PositionRead};
pub use run_end::{RunEnd, RunEndRead};
pub use run_start::{RunStart, RunStartRead};
pub use signature::{Signature, SignatureRead};
pub use sounder::{Sounder, SounderRead};
pub use threshold::{Threshold, ThresholdRead};
// up to here

// normalise(file, out): the file's normal form. There a ping of U-32 or C-32 is C-32 in the fewest words where it has a length and U-32
// where it has none; one of U-16 or C-16 is C-16 in the fewest words where it has a length or a number past 65,535, else U-16; a CE-16
// ping is CE-16 in the fewest words; one with angles keeps its type. Just before the end of file it has its index, over its own tuples, and
// no other tuple of the index class. Refuses as the check does; then by 18 at the first unlisted tuple, index class apart, of an MSB
// file; 20 where the normal form, its index counted, is over the limit of a file; 19. Accepts with the file's tuples, the bytes written
// and the identifiers compared in the file handed in.
// Promise: `Normalised`, crates/normal/specs/Normaliser.antt; demand 3: crates/normal/specs/Demand.antt.
pub use normal::normalise;

// normalise_tuple(file, out): the normal form of a mark and one tuple, whatever would stand around it: 1, 2; 3, 5, 3, 6, 9, 8, 11
// at 4; 23, or 24 and 25, at their bytes; 15 for bytes behind it; 18; 19. Promise: `NormalisedTuple`, crates/normal/specs/Single.antt.
pub use normal::normalise_tuple;

// index(file, out): the file written anew with its index, the Index 1 tuple of TR Table 14, just before the end of file: each type of the
// file's tuples outside the index class once, ascending; whatever tuples of the index class there were are dropped. append(file, bytes,
// out): with the tuples of the bytes handed in put before it. remove(file, place, out): without the tuple at a place. Each hands back a
// whole file in the file's own byte order. Each refuses as the check does; remove then by 3 at the place where no tuple starts there,
// append by 1 at 0 where the bytes alone are over the limit; then with the code and the place that the check would give the result, before
// anything is written; then by 19. Accepts with the tuples and the identifiers compared of the file handed in, and the bytes written.
// Promises: `Indexed`, `Appended`, `Removed`, crates/edits/specs/Edits.antt; what a result holds: `Edits`, crates/edits/specs/Results.antt.
pub use edits::{append, index, remove};

// salvage(file, out, table): what is kept of a damaged recording. From 4 on a tuple is looked for: behind a tuple that is kept, else 4
// bytes further on. It is kept where 3, 5, 3, 6 hold of its frame and, if its type is listed, its own rules: 9, 8, 11, and 23 or 24, 25.
// Links, classes and the order of tuples aren't judged. out gets the mark and the kept tuples as they stand; table gets three entries for
// each range, in file order: 1 for kept or 0 for dropped, the place of its first byte, the place behind its last; neighbours of one kind
// are one range. Refuses at 0 by 1; 2; 27 where the table has fewer entries than three for each range; 19. Saves with the number of
// ranges, the offsets tried, and as counts the tuples kept and the bytes written. Promise: `Salvaged`, crates/salvage/specs/Salvage.antt;
// what it means for the ranges, the output and a second salvage: `Salvages`, crates/salvage/specs/Calls.antt.
pub use salvage::{Outcome, Saved, salvage};
