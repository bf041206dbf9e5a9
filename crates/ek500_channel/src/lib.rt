// Made from views/records.txt by views/make.
// Ek500Channel, type 2000: TR Table 5. A channel of an EK-500, which names an echosounder of that maker. Its remarks, 30
// characters, stand beside it; to write others is refused by 9 at 0.
#![tactic(auto, unfolding(layout::specs::Types::listings, layout::specs::Types::among, layout::specs::Types::listing_of))]

ghost use Rattle.std.specs.Prelude.{◌≡◌};
ghost use Rattle.tuples.specs.Readers.{row_of};
ghost use Rattle.rows.specs.Integers.{integers_from, patterns};
ghost use Rattle.rows.specs.Places.{places_of};
ghost use Rattle.layout.specs.Views.{as_answer};
ghost use Rattle.ek500_channel.specs.Ek500Channel.{ek500_channel_of, ek500_channel_integers, Ek500ChannelAt, Ek500ChannelWritten, as_read};

use layout::{Answer, DocumentId, Refusal, SoftwareChannel, Transceiver, types};
use tuples::Part;

#[derive(Clone, Copy)]
pub struct Ek500Channel {
    pub software_channel_identifier: SoftwareChannel,
    pub echosounder_document_identifier: DocumentId,
    pub sampling_rate: u32,
    pub type_of_data_sample: u16,
    pub transceiver_channel_number: Transceiver,
    pub acoustic_frequency: u32,
    pub installation_depth_of_transducer: u32,
    pub alongship_angle_offset_of_the_transducer_face: i16,
    pub athwartship_angle_offset_of_the_transducer_face: i16,
    pub alongship_angle_offset_of_the_main_axis_of_the_acoustic_beam: i16,
    pub athwartship_angle_offset_of_the_main_axis_of_the_acoustic_beam: i16,
    pub absorption_of_sound: u16,
    pub pulse_length_mode: u16,
    pub bandwidth_mode: u16,
    pub max_power: u16,
    pub alongship_angle_sensitivity: u16,
    pub athwartship_angle_sensitivity: u16,
    pub alongship_3_db_beamwidth_of_the_transducer: u16,
    pub athwartship_3_db_beamwidth_of_the_transducer: u16,
    pub two_way_beam_angle: i16,
    pub calibration_transducer_gain: u16,
    pub bottom_detection_minimum_level: i16,
    pub bottom_window_min_depth: u32,
    pub bottom_window_max_depth: u32,
    pub tuple_attribute: i32,
}

// What reading gives: the record and the place of its remarks, or a refusal.
pub type Ek500ChannelRead = Result<(Ek500Channel, Part), Refusal>;

impl Ek500Channel {
    pub const CODE: u16 = types::EK500_CHANNEL;

    // The bytes of its tuple.
    pub const LENGTH: usize = 108;

    // Where its fields stand, in bytes from the tuple's first.
    pub const SOFTWARE_CHANNEL_IDENTIFIER: usize = 6;

    pub const ECHOSOUNDER_DOCUMENT_IDENTIFIER: usize = 8;

    pub const SAMPLING_RATE: usize = 12;

    pub const TYPE_OF_DATA_SAMPLE: usize = 16;

    pub const TRANSCEIVER_CHANNEL_NUMBER: usize = 18;

    pub const ACOUSTIC_FREQUENCY: usize = 20;

    pub const INSTALLATION_DEPTH_OF_TRANSDUCER: usize = 24;

    pub const ALONGSHIP_ANGLE_OFFSET_OF_THE_TRANSDUCER_FACE: usize = 28;

    pub const ATHWARTSHIP_ANGLE_OFFSET_OF_THE_TRANSDUCER_FACE: usize = 30;

    pub const ALONGSHIP_ANGLE_OFFSET_OF_THE_MAIN_AXIS_OF_THE_ACOUSTIC_BEAM: usize = 32;

    pub const ATHWARTSHIP_ANGLE_OFFSET_OF_THE_MAIN_AXIS_OF_THE_ACOUSTIC_BEAM: usize = 34;

    pub const ABSORPTION_OF_SOUND: usize = 36;

    pub const PULSE_LENGTH_MODE: usize = 38;

    pub const BANDWIDTH_MODE: usize = 40;

    pub const MAX_POWER: usize = 42;

    pub const ALONGSHIP_ANGLE_SENSITIVITY: usize = 44;

    pub const ATHWARTSHIP_ANGLE_SENSITIVITY: usize = 46;

    pub const ALONGSHIP_3_DB_BEAMWIDTH_OF_THE_TRANSDUCER: usize = 48;

    pub const ATHWARTSHIP_3_DB_BEAMWIDTH_OF_THE_TRANSDUCER: usize = 50;

    pub const TWO_WAY_BEAM_ANGLE: usize = 52;

    pub const CALIBRATION_TRANSDUCER_GAIN: usize = 54;

    pub const BOTTOM_DETECTION_MINIMUM_LEVEL: usize = 56;

    pub const BOTTOM_WINDOW_MIN_DEPTH: usize = 60;

    pub const BOTTOM_WINDOW_MAX_DEPTH: usize = 64;

    pub const REMARKS: usize = 68;

    pub const TUPLE_ATTRIBUTE: usize = 100;

    // The record of these fields.
    pub fn new(
        software_channel_identifier: SoftwareChannel,
        echosounder_document_identifier: DocumentId,
        sampling_rate: u32,
        type_of_data_sample: u16,
        transceiver_channel_number: Transceiver,
        acoustic_frequency: u32,
        installation_depth_of_transducer: u32,
        alongship_angle_offset_of_the_transducer_face: i16,
        athwartship_angle_offset_of_the_transducer_face: i16,
        alongship_angle_offset_of_the_main_axis_of_the_acoustic_beam: i16,
        athwartship_angle_offset_of_the_main_axis_of_the_acoustic_beam: i16,
        absorption_of_sound: u16,
        pulse_length_mode: u16,
        bandwidth_mode: u16,
        max_power: u16,
        alongship_angle_sensitivity: u16,
        athwartship_angle_sensitivity: u16,
        alongship_3_db_beamwidth_of_the_transducer: u16,
        athwartship_3_db_beamwidth_of_the_transducer: u16,
        two_way_beam_angle: i16,
        calibration_transducer_gain: u16,
        bottom_detection_minimum_level: i16,
        bottom_window_min_depth: u32,
        bottom_window_max_depth: u32,
        tuple_attribute: i32,
    ) -> Ek500Channel
        ensures { result ≡ record {
          software_channel_identifier = software_channel_identifier;
          echosounder_document_identifier = echosounder_document_identifier;
          sampling_rate = sampling_rate;
          type_of_data_sample = type_of_data_sample;
          transceiver_channel_number = transceiver_channel_number;
          acoustic_frequency = acoustic_frequency;
          installation_depth_of_transducer = installation_depth_of_transducer;
          alongship_angle_offset_of_the_transducer_face = alongship_angle_offset_of_the_transducer_face;
          athwartship_angle_offset_of_the_transducer_face = athwartship_angle_offset_of_the_transducer_face;
          alongship_angle_offset_of_the_main_axis_of_the_acoustic_beam = alongship_angle_offset_of_the_main_axis_of_the_acoustic_beam;
          athwartship_angle_offset_of_the_main_axis_of_the_acoustic_beam =
              athwartship_angle_offset_of_the_main_axis_of_the_acoustic_beam;
          absorption_of_sound = absorption_of_sound;
          pulse_length_mode = pulse_length_mode;
          bandwidth_mode = bandwidth_mode;
          max_power = max_power;
          alongship_angle_sensitivity = alongship_angle_sensitivity;
          athwartship_angle_sensitivity = athwartship_angle_sensitivity;
          alongship_3_db_beamwidth_of_the_transducer = alongship_3_db_beamwidth_of_the_transducer;
          athwartship_3_db_beamwidth_of_the_transducer = athwartship_3_db_beamwidth_of_the_transducer;
          two_way_beam_angle = two_way_beam_angle;
          calibration_transducer_gain = calibration_transducer_gain;
          bottom_detection_minimum_level = bottom_detection_minimum_level;
          bottom_window_min_depth = bottom_window_min_depth;
          bottom_window_max_depth = bottom_window_max_depth;
          tuple_attribute = tuple_attribute;
        } }
    {
        Ek500Channel {
            software_channel_identifier,
            echosounder_document_identifier,
            sampling_rate,
            type_of_data_sample,
            transceiver_channel_number,
            acoustic_frequency,
            installation_depth_of_transducer,
            alongship_angle_offset_of_the_transducer_face,
            athwartship_angle_offset_of_the_transducer_face,
            alongship_angle_offset_of_the_main_axis_of_the_acoustic_beam,
            athwartship_angle_offset_of_the_main_axis_of_the_acoustic_beam,
            absorption_of_sound,
            pulse_length_mode,
            bandwidth_mode,
            max_power,
            alongship_angle_sensitivity,
            athwartship_angle_sensitivity,
            alongship_3_db_beamwidth_of_the_transducer,
            athwartship_3_db_beamwidth_of_the_transducer,
            two_way_beam_angle,
            calibration_transducer_gain,
            bottom_detection_minimum_level,
            bottom_window_min_depth,
            bottom_window_max_depth,
            tuple_attribute,
        }
    }

    // The places of its fields in the row's order, then its length, and 0: it has no other.
    pub fn places() -> [usize; 28]
        ensures { result ≡ places_of 2000 }
    {
        [
            Ek500Channel::SOFTWARE_CHANNEL_IDENTIFIER,
            Ek500Channel::ECHOSOUNDER_DOCUMENT_IDENTIFIER,
            Ek500Channel::SAMPLING_RATE,
            Ek500Channel::TYPE_OF_DATA_SAMPLE,
            Ek500Channel::TRANSCEIVER_CHANNEL_NUMBER,
            Ek500Channel::ACOUSTIC_FREQUENCY,
            Ek500Channel::INSTALLATION_DEPTH_OF_TRANSDUCER,
            Ek500Channel::ALONGSHIP_ANGLE_OFFSET_OF_THE_TRANSDUCER_FACE,
            Ek500Channel::ATHWARTSHIP_ANGLE_OFFSET_OF_THE_TRANSDUCER_FACE,
            Ek500Channel::ALONGSHIP_ANGLE_OFFSET_OF_THE_MAIN_AXIS_OF_THE_ACOUSTIC_BEAM,
            Ek500Channel::ATHWARTSHIP_ANGLE_OFFSET_OF_THE_MAIN_AXIS_OF_THE_ACOUSTIC_BEAM,
            Ek500Channel::ABSORPTION_OF_SOUND,
            Ek500Channel::PULSE_LENGTH_MODE,
            Ek500Channel::BANDWIDTH_MODE,
            Ek500Channel::MAX_POWER,
            Ek500Channel::ALONGSHIP_ANGLE_SENSITIVITY,
            Ek500Channel::ATHWARTSHIP_ANGLE_SENSITIVITY,
            Ek500Channel::ALONGSHIP_3_DB_BEAMWIDTH_OF_THE_TRANSDUCER,
            Ek500Channel::ATHWARTSHIP_3_DB_BEAMWIDTH_OF_THE_TRANSDUCER,
            Ek500Channel::TWO_WAY_BEAM_ANGLE,
            Ek500Channel::CALIBRATION_TRANSDUCER_GAIN,
            Ek500Channel::BOTTOM_DETECTION_MINIMUM_LEVEL,
            Ek500Channel::BOTTOM_WINDOW_MIN_DEPTH,
            Ek500Channel::BOTTOM_WINDOW_MAX_DEPTH,
            Ek500Channel::REMARKS,
            Ek500Channel::TUPLE_ATTRIBUTE,
            Ek500Channel::LENGTH,
            0,
        ]
    }

    // The record of a row's numbers, each by the lower bytes of its width.
    pub fn of(numbers: [u32; 25]) -> Ek500Channel
        ensures { result ≡ ek500_channel_of (integers_from (row_of 2000 0) numbers 0) }
    {
        Ek500Channel {
            software_channel_identifier: SoftwareChannel(rows::unsigned2(numbers[0])),
            echosounder_document_identifier: DocumentId(rows::unsigned4(numbers[1])),
            sampling_rate: rows::unsigned4(numbers[2]),
            type_of_data_sample: rows::unsigned2(numbers[3]),
            transceiver_channel_number: Transceiver(rows::unsigned2(numbers[4])),
            acoustic_frequency: rows::unsigned4(numbers[5]),
            installation_depth_of_transducer: rows::unsigned4(numbers[6]),
            alongship_angle_offset_of_the_transducer_face: rows::signed2(numbers[7]),
            athwartship_angle_offset_of_the_transducer_face: rows::signed2(numbers[8]),
            alongship_angle_offset_of_the_main_axis_of_the_acoustic_beam: rows::signed2(numbers[9]),
            athwartship_angle_offset_of_the_main_axis_of_the_acoustic_beam: rows::signed2(
                numbers[10],
            ),
            absorption_of_sound: rows::unsigned2(numbers[11]),
            pulse_length_mode: rows::unsigned2(numbers[12]),
            bandwidth_mode: rows::unsigned2(numbers[13]),
            max_power: rows::unsigned2(numbers[14]),
            alongship_angle_sensitivity: rows::unsigned2(numbers[15]),
            athwartship_angle_sensitivity: rows::unsigned2(numbers[16]),
            alongship_3_db_beamwidth_of_the_transducer: rows::unsigned2(numbers[17]),
            athwartship_3_db_beamwidth_of_the_transducer: rows::unsigned2(numbers[18]),
            two_way_beam_angle: rows::signed2(numbers[19]),
            calibration_transducer_gain: rows::unsigned2(numbers[20]),
            bottom_detection_minimum_level: rows::signed2(numbers[21]),
            bottom_window_min_depth: rows::unsigned4(numbers[22]),
            bottom_window_max_depth: rows::unsigned4(numbers[23]),
            tuple_attribute: rows::signed4(numbers[24]),
        }
    }

    // The numbers of the row, in its order, the attribute last; a signed one as its pattern.
    pub fn numbers(self) -> [u32; 25]
        ensures { result ≡ patterns (row_of 2000 0) (ek500_channel_integers self) }
    {
        [
            rows::of_unsigned2(self.software_channel_identifier.0),
            self.echosounder_document_identifier.0,
            self.sampling_rate,
            rows::of_unsigned2(self.type_of_data_sample),
            rows::of_unsigned2(self.transceiver_channel_number.0),
            self.acoustic_frequency,
            self.installation_depth_of_transducer,
            rows::of_signed2(self.alongship_angle_offset_of_the_transducer_face),
            rows::of_signed2(self.athwartship_angle_offset_of_the_transducer_face),
            rows::of_signed2(self.alongship_angle_offset_of_the_main_axis_of_the_acoustic_beam),
            rows::of_signed2(self.athwartship_angle_offset_of_the_main_axis_of_the_acoustic_beam),
            rows::of_unsigned2(self.absorption_of_sound),
            rows::of_unsigned2(self.pulse_length_mode),
            rows::of_unsigned2(self.bandwidth_mode),
            rows::of_unsigned2(self.max_power),
            rows::of_unsigned2(self.alongship_angle_sensitivity),
            rows::of_unsigned2(self.athwartship_angle_sensitivity),
            rows::of_unsigned2(self.alongship_3_db_beamwidth_of_the_transducer),
            rows::of_unsigned2(self.athwartship_3_db_beamwidth_of_the_transducer),
            rows::of_signed2(self.two_way_beam_angle),
            rows::of_unsigned2(self.calibration_transducer_gain),
            rows::of_signed2(self.bottom_detection_minimum_level),
            self.bottom_window_min_depth,
            self.bottom_window_max_depth,
            rows::of_signed4(self.tuple_attribute),
        ]
    }

    // Reads the tuple at a place of a file.
    pub fn read(file: &[u8], place: usize) -> Ek500ChannelRead
        ensures { Ek500ChannelAt file.now place (as_read result) }
    {
        let mut numbers = [0u32; 25];
        let remarks = rows::read_row(file, place, Ek500Channel::CODE, &mut numbers)?;
        Ok((Ek500Channel::of(numbers), remarks))
    }

    // Writes the tuple; 9 unless there are 30 characters of remarks, then 19.
    pub fn write(self, remarks: &[u8], msb: bool, out: &mut [u8]) -> Answer
        ensures { Ek500ChannelWritten msb self remarks.now out.old (as_answer result) out.new }
    {
        rows::write_row(Ek500Channel::CODE, &self.numbers(), remarks, msb, out)
    }
}
