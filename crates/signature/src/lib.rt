// Made from views/records.txt by views/make.
// Signature, type 65535: TR Table 18. Its identifier is no field: 44204 and 44201 are read, and 44204 is written.
#![tactic(auto, unfolding(layout::specs::Types::listings, layout::specs::Types::among, layout::specs::Types::listing_of))]

ghost use Rattle.std.specs.Prelude.{◌≡◌};
ghost use Rattle.tuples.specs.Readers.{row_of};
ghost use Rattle.rows.specs.Integers.{integers_from, patterns};
ghost use Rattle.rows.specs.Places.{places_of};
ghost use Rattle.layout.specs.Views.{as_answer};
ghost use Rattle.signature.specs.Signature.{signature_of, signature_integers, SignatureAt, SignatureWritten, as_read};

use layout::{Answer, Refusal, types};

#[derive(Clone, Copy)]
pub struct Signature {
    pub hac_version: u16,
    pub acquisition_software_version: u16,
    pub acquisition_software_identifier: u32,
    pub tuple_attribute: i32,
}

// What reading gives: the record, or a refusal.
pub type SignatureRead = Result<Signature, Refusal>;

impl Signature {
    pub const CODE: u16 = types::SIGNATURE;

    // The bytes of its tuple.
    pub const LENGTH: usize = 24;

    // Where its fields stand, in bytes from the tuple's first.
    pub const IDENTIFIER: usize = 6;

    pub const HAC_VERSION: usize = 8;

    pub const ACQUISITION_SOFTWARE_VERSION: usize = 10;

    pub const ACQUISITION_SOFTWARE_IDENTIFIER: usize = 12;

    pub const TUPLE_ATTRIBUTE: usize = 16;

    // The record of these fields.
    pub fn new(
        hac_version: u16,
        acquisition_software_version: u16,
        acquisition_software_identifier: u32,
        tuple_attribute: i32,
    ) -> Signature
        ensures { result ≡ record {
          hac_version = hac_version;
          acquisition_software_version = acquisition_software_version;
          acquisition_software_identifier = acquisition_software_identifier;
          tuple_attribute = tuple_attribute;
        } }
    {
        Signature {
            hac_version,
            acquisition_software_version,
            acquisition_software_identifier,
            tuple_attribute,
        }
    }

    // The places of its fields in the row's order, then its length, and 0: it has no other.
    pub fn places() -> [usize; 7]
        ensures { result ≡ places_of 65535 }
    {
        [
            Signature::IDENTIFIER,
            Signature::HAC_VERSION,
            Signature::ACQUISITION_SOFTWARE_VERSION,
            Signature::ACQUISITION_SOFTWARE_IDENTIFIER,
            Signature::TUPLE_ATTRIBUTE,
            Signature::LENGTH,
            0,
        ]
    }

    // The record of a row's numbers, each by the lower bytes of its width.
    pub fn of(numbers: [u32; 4]) -> Signature
        ensures { result ≡ signature_of (integers_from (row_of 65535 0) numbers 0) }
    {
        Signature {
            hac_version: rows::unsigned2(numbers[0]),
            acquisition_software_version: rows::unsigned2(numbers[1]),
            acquisition_software_identifier: rows::unsigned4(numbers[2]),
            tuple_attribute: rows::signed4(numbers[3]),
        }
    }

    // The numbers of the row, in its order, the attribute last; a signed one as its pattern.
    pub fn numbers(self) -> [u32; 4]
        ensures { result ≡ patterns (row_of 65535 0) (signature_integers self) }
    {
        [
            rows::of_unsigned2(self.hac_version),
            rows::of_unsigned2(self.acquisition_software_version),
            self.acquisition_software_identifier,
            rows::of_signed4(self.tuple_attribute),
        ]
    }

    // Reads the tuple at a place of a file.
    pub fn read(file: &[u8], place: usize) -> SignatureRead
        ensures { SignatureAt file.now place (as_read result) }
    {
        let mut numbers = [0u32; 4];
        rows::read_row(file, place, Signature::CODE, &mut numbers)?;
        Ok(Signature::of(numbers))
    }

    // Writes the tuple; 19 alone refuses it.
    pub fn write(self, msb: bool, out: &mut [u8]) -> Answer
        ensures { SignatureWritten msb self out.old (as_answer result) out.new }
    {
        rows::write_row(Signature::CODE, &self.numbers(), &[], msb, out)
    }
}
