// Made from views/records.txt by views/make.
// Channel, type 1000: TR Table 4. A channel of a Biosonics echosounder, which names one of that maker. Its remarks, 30
// characters, stand beside it; to write others is refused by 9 at 0.
#![tactic(auto, unfolding(layout::specs::Types::listings, layout::specs::Types::among, layout::specs::Types::listing_of))]

ghost use Rattle.std.specs.Prelude.{◌≡◌};
ghost use Rattle.tuples.specs.Readers.{row_of};
ghost use Rattle.rows.specs.Integers.{integers_from, patterns};
ghost use Rattle.rows.specs.Places.{places_of};
ghost use Rattle.layout.specs.Views.{as_answer};
ghost use Rattle.channel.specs.Channel.{channel_of, channel_integers, ChannelAt, ChannelWritten, as_read};

use layout::{Answer, DocumentId, Refusal, SoftwareChannel, Transceiver, types};
use tuples::Part;

#[derive(Clone, Copy)]
pub struct Channel {
    pub software_channel_identifier: SoftwareChannel,
    pub echosounder_document_identifier: DocumentId,
    pub sampling_rate: u32,
    pub type_of_data_sample: u16,
    pub time_varied_gain_mode: u16,
    pub transceiver_channel_number: Transceiver,
    pub acoustic_frequency: u32,
    pub installation_depth_of_transducer: u32,
    pub alongship_angle_offset_of_the_transducer_face: i16,
    pub athwartship_angle_offset_of_the_transducer_face: i16,
    pub alongship_angle_offset_of_the_main_axis_of_the_acoustic_beam: i16,
    pub athwartship_angle_offset_of_the_main_axis_of_the_acoustic_beam: i16,
    pub absorption_of_sound: u16,
    pub pulse_length: u16,
    pub bandwidth: u16,
    pub calibration_source_level: u16,
    pub beamwidth_3_db_of_the_transducer_beam: u16,
    pub beam_pattern: u16,
    pub wide_beam_drop_off: u16,
    pub calibration_receiving_sensitivity: i16,
    pub receiver_gain: i16,
    pub bottom_detection_minimum_level: i16,
    pub bottom_window_min: u32,
    pub bottom_window_max: u32,
    pub tuple_attribute: i32,
}

// What reading gives: the record and the place of its remarks, or a refusal.
pub type ChannelRead = Result<(Channel, Part), Refusal>;

impl Channel {
    pub const CODE: u16 = types::CHANNEL;

    // The bytes of its tuple.
    pub const LENGTH: usize = 108;

    // Where its fields stand, in bytes from the tuple's first.
    pub const SOFTWARE_CHANNEL_IDENTIFIER: usize = 6;

    pub const ECHOSOUNDER_DOCUMENT_IDENTIFIER: usize = 8;

    pub const SAMPLING_RATE: usize = 12;

    pub const TYPE_OF_DATA_SAMPLE: usize = 16;

    pub const TIME_VARIED_GAIN_MODE: usize = 18;

    pub const TRANSCEIVER_CHANNEL_NUMBER: usize = 20;

    pub const ACOUSTIC_FREQUENCY: usize = 24;

    pub const INSTALLATION_DEPTH_OF_TRANSDUCER: usize = 28;

    pub const ALONGSHIP_ANGLE_OFFSET_OF_THE_TRANSDUCER_FACE: usize = 32;

    pub const ATHWARTSHIP_ANGLE_OFFSET_OF_THE_TRANSDUCER_FACE: usize = 34;

    pub const ALONGSHIP_ANGLE_OFFSET_OF_THE_MAIN_AXIS_OF_THE_ACOUSTIC_BEAM: usize = 36;

    pub const ATHWARTSHIP_ANGLE_OFFSET_OF_THE_MAIN_AXIS_OF_THE_ACOUSTIC_BEAM: usize = 38;

    pub const ABSORPTION_OF_SOUND: usize = 40;

    pub const PULSE_LENGTH: usize = 42;

    pub const BANDWIDTH: usize = 44;

    pub const CALIBRATION_SOURCE_LEVEL: usize = 46;

    pub const BEAMWIDTH_3_DB_OF_THE_TRANSDUCER_BEAM: usize = 48;

    pub const BEAM_PATTERN: usize = 50;

    pub const WIDE_BEAM_DROP_OFF: usize = 52;

    pub const CALIBRATION_RECEIVING_SENSITIVITY: usize = 54;

    pub const RECEIVER_GAIN: usize = 56;

    pub const BOTTOM_DETECTION_MINIMUM_LEVEL: usize = 58;

    pub const BOTTOM_WINDOW_MIN: usize = 60;

    pub const BOTTOM_WINDOW_MAX: usize = 64;

    pub const REMARKS: usize = 68;

    pub const TUPLE_ATTRIBUTE: usize = 100;

    // The record of these fields.
    pub fn new(
        software_channel_identifier: SoftwareChannel,
        echosounder_document_identifier: DocumentId,
        sampling_rate: u32,
        type_of_data_sample: u16,
        time_varied_gain_mode: u16,
        transceiver_channel_number: Transceiver,
        acoustic_frequency: u32,
        installation_depth_of_transducer: u32,
        alongship_angle_offset_of_the_transducer_face: i16,
        athwartship_angle_offset_of_the_transducer_face: i16,
        alongship_angle_offset_of_the_main_axis_of_the_acoustic_beam: i16,
        athwartship_angle_offset_of_the_main_axis_of_the_acoustic_beam: i16,
        absorption_of_sound: u16,
        pulse_length: u16,
        bandwidth: u16,
        calibration_source_level: u16,
        beamwidth_3_db_of_the_transducer_beam: u16,
        beam_pattern: u16,
        wide_beam_drop_off: u16,
        calibration_receiving_sensitivity: i16,
        receiver_gain: i16,
        bottom_detection_minimum_level: i16,
        bottom_window_min: u32,
        bottom_window_max: u32,
        tuple_attribute: i32,
    ) -> Channel
        ensures { result ≡ record {
          software_channel_identifier = software_channel_identifier;
          echosounder_document_identifier = echosounder_document_identifier;
          sampling_rate = sampling_rate;
          type_of_data_sample = type_of_data_sample;
          time_varied_gain_mode = time_varied_gain_mode;
          transceiver_channel_number = transceiver_channel_number;
          acoustic_frequency = acoustic_frequency;
          installation_depth_of_transducer = installation_depth_of_transducer;
          alongship_angle_offset_of_the_transducer_face = alongship_angle_offset_of_the_transducer_face;
          athwartship_angle_offset_of_the_transducer_face = athwartship_angle_offset_of_the_transducer_face;
          alongship_angle_offset_of_the_main_axis_of_the_acoustic_beam = alongship_angle_offset_of_the_main_axis_of_the_acoustic_beam;
          athwartship_angle_offset_of_the_main_axis_of_the_acoustic_beam =
              athwartship_angle_offset_of_the_main_axis_of_the_acoustic_beam;
          absorption_of_sound = absorption_of_sound;
          pulse_length = pulse_length;
          bandwidth = bandwidth;
          calibration_source_level = calibration_source_level;
          beamwidth_3_db_of_the_transducer_beam = beamwidth_3_db_of_the_transducer_beam;
          beam_pattern = beam_pattern;
          wide_beam_drop_off = wide_beam_drop_off;
          calibration_receiving_sensitivity = calibration_receiving_sensitivity;
          receiver_gain = receiver_gain;
          bottom_detection_minimum_level = bottom_detection_minimum_level;
          bottom_window_min = bottom_window_min;
          bottom_window_max = bottom_window_max;
          tuple_attribute = tuple_attribute;
        } }
    {
        Channel {
            software_channel_identifier,
            echosounder_document_identifier,
            sampling_rate,
            type_of_data_sample,
            time_varied_gain_mode,
            transceiver_channel_number,
            acoustic_frequency,
            installation_depth_of_transducer,
            alongship_angle_offset_of_the_transducer_face,
            athwartship_angle_offset_of_the_transducer_face,
            alongship_angle_offset_of_the_main_axis_of_the_acoustic_beam,
            athwartship_angle_offset_of_the_main_axis_of_the_acoustic_beam,
            absorption_of_sound,
            pulse_length,
            bandwidth,
            calibration_source_level,
            beamwidth_3_db_of_the_transducer_beam,
            beam_pattern,
            wide_beam_drop_off,
            calibration_receiving_sensitivity,
            receiver_gain,
            bottom_detection_minimum_level,
            bottom_window_min,
            bottom_window_max,
            tuple_attribute,
        }
    }

    // The places of its fields in the row's order, then its length, and 0: it has no other.
    pub fn places() -> [usize; 28]
        ensures { result ≡ places_of 1000 }
    {
        [
            Channel::SOFTWARE_CHANNEL_IDENTIFIER,
            Channel::ECHOSOUNDER_DOCUMENT_IDENTIFIER,
            Channel::SAMPLING_RATE,
            Channel::TYPE_OF_DATA_SAMPLE,
            Channel::TIME_VARIED_GAIN_MODE,
            Channel::TRANSCEIVER_CHANNEL_NUMBER,
            Channel::ACOUSTIC_FREQUENCY,
            Channel::INSTALLATION_DEPTH_OF_TRANSDUCER,
            Channel::ALONGSHIP_ANGLE_OFFSET_OF_THE_TRANSDUCER_FACE,
            Channel::ATHWARTSHIP_ANGLE_OFFSET_OF_THE_TRANSDUCER_FACE,
            Channel::ALONGSHIP_ANGLE_OFFSET_OF_THE_MAIN_AXIS_OF_THE_ACOUSTIC_BEAM,
            Channel::ATHWARTSHIP_ANGLE_OFFSET_OF_THE_MAIN_AXIS_OF_THE_ACOUSTIC_BEAM,
            Channel::ABSORPTION_OF_SOUND,
            Channel::PULSE_LENGTH,
            Channel::BANDWIDTH,
            Channel::CALIBRATION_SOURCE_LEVEL,
            Channel::BEAMWIDTH_3_DB_OF_THE_TRANSDUCER_BEAM,
            Channel::BEAM_PATTERN,
            Channel::WIDE_BEAM_DROP_OFF,
            Channel::CALIBRATION_RECEIVING_SENSITIVITY,
            Channel::RECEIVER_GAIN,
            Channel::BOTTOM_DETECTION_MINIMUM_LEVEL,
            Channel::BOTTOM_WINDOW_MIN,
            Channel::BOTTOM_WINDOW_MAX,
            Channel::REMARKS,
            Channel::TUPLE_ATTRIBUTE,
            Channel::LENGTH,
            0,
        ]
    }

    // The record of a row's numbers, each by the lower bytes of its width.
    pub fn of(numbers: [u32; 25]) -> Channel
        ensures { result ≡ channel_of (integers_from (row_of 1000 0) numbers 0) }
    {
        Channel {
            software_channel_identifier: SoftwareChannel(rows::unsigned2(numbers[0])),
            echosounder_document_identifier: DocumentId(rows::unsigned4(numbers[1])),
            sampling_rate: rows::unsigned4(numbers[2]),
            type_of_data_sample: rows::unsigned2(numbers[3]),
            time_varied_gain_mode: rows::unsigned2(numbers[4]),
            transceiver_channel_number: Transceiver(rows::unsigned2(numbers[5])),
            acoustic_frequency: rows::unsigned4(numbers[6]),
            installation_depth_of_transducer: rows::unsigned4(numbers[7]),
            alongship_angle_offset_of_the_transducer_face: rows::signed2(numbers[8]),
            athwartship_angle_offset_of_the_transducer_face: rows::signed2(numbers[9]),
            alongship_angle_offset_of_the_main_axis_of_the_acoustic_beam: rows::signed2(
                numbers[10],
            ),
            athwartship_angle_offset_of_the_main_axis_of_the_acoustic_beam: rows::signed2(
                numbers[11],
            ),
            absorption_of_sound: rows::unsigned2(numbers[12]),
            pulse_length: rows::unsigned2(numbers[13]),
            bandwidth: rows::unsigned2(numbers[14]),
            calibration_source_level: rows::unsigned2(numbers[15]),
            beamwidth_3_db_of_the_transducer_beam: rows::unsigned2(numbers[16]),
            beam_pattern: rows::unsigned2(numbers[17]),
            wide_beam_drop_off: rows::unsigned2(numbers[18]),
            calibration_receiving_sensitivity: rows::signed2(numbers[19]),
            receiver_gain: rows::signed2(numbers[20]),
            bottom_detection_minimum_level: rows::signed2(numbers[21]),
            bottom_window_min: rows::unsigned4(numbers[22]),
            bottom_window_max: rows::unsigned4(numbers[23]),
            tuple_attribute: rows::signed4(numbers[24]),
        }
    }

    // The numbers of the row, in its order, the attribute last; a signed one as its pattern.
    pub fn numbers(self) -> [u32; 25]
        ensures { result ≡ patterns (row_of 1000 0) (channel_integers self) }
    {
        [
            rows::of_unsigned2(self.software_channel_identifier.0),
            self.echosounder_document_identifier.0,
            self.sampling_rate,
            rows::of_unsigned2(self.type_of_data_sample),
            rows::of_unsigned2(self.time_varied_gain_mode),
            rows::of_unsigned2(self.transceiver_channel_number.0),
            self.acoustic_frequency,
            self.installation_depth_of_transducer,
            rows::of_signed2(self.alongship_angle_offset_of_the_transducer_face),
            rows::of_signed2(self.athwartship_angle_offset_of_the_transducer_face),
            rows::of_signed2(self.alongship_angle_offset_of_the_main_axis_of_the_acoustic_beam),
            rows::of_signed2(self.athwartship_angle_offset_of_the_main_axis_of_the_acoustic_beam),
            rows::of_unsigned2(self.absorption_of_sound),
            rows::of_unsigned2(self.pulse_length),
            rows::of_unsigned2(self.bandwidth),
            rows::of_unsigned2(self.calibration_source_level),
            rows::of_unsigned2(self.beamwidth_3_db_of_the_transducer_beam),
            rows::of_unsigned2(self.beam_pattern),
            rows::of_unsigned2(self.wide_beam_drop_off),
            rows::of_signed2(self.calibration_receiving_sensitivity),
            rows::of_signed2(self.receiver_gain),
            rows::of_signed2(self.bottom_detection_minimum_level),
            self.bottom_window_min,
            self.bottom_window_max,
            rows::of_signed4(self.tuple_attribute),
        ]
    }

    // Reads the tuple at a place of a file.
    pub fn read(file: &[u8], place: usize) -> ChannelRead
        ensures { ChannelAt file.now place (as_read result) }
    {
        let mut numbers = [0u32; 25];
        let remarks = rows::read_row(file, place, Channel::CODE, &mut numbers)?;
        Ok((Channel::of(numbers), remarks))
    }

    // Writes the tuple; 9 unless there are 30 characters of remarks, then 19.
    pub fn write(self, remarks: &[u8], msb: bool, out: &mut [u8]) -> Answer
        ensures { ChannelWritten msb self remarks.now out.old (as_answer result) out.new }
    {
        rows::write_row(Channel::CODE, &self.numbers(), remarks, msb, out)
    }
}
