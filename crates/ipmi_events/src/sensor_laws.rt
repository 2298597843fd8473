//! Laws of the lines and blocks of sensors. They follow from the definitions, so they hold for any code that writes
//! such a text.
ghost use Rattle.ipmi_events.specs.SensorLaws.{SensorBlockExists, SensorBlockIsUnique, SensorLineExists, SensorLineIsUnique};

/// A record has at most one line of its sensor for a reading, so the result of `sensor_line` is the only one.
pub fn one_sensor_line()
    ensures { SensorLineIsUnique }
{
    ipmi_text::laws::one_decimal_of_a_value();
    ipmi_records::laws::one_reading_column();
    ipmi_records::laws::one_sdr_line();
}

/// A record has at most one block of its sensor for an id and a reading, so the result of `sensor_block` is the only
/// one.
pub fn one_sensor_block()
    ensures { SensorBlockIsUnique }
{
    ipmi_records::laws::one_reading_column();
    ipmi_records::laws::one_text_of_thresholds();
    ipmi_records::laws::one_sdr_block();
}

/// Each record has a line of its sensor for each reading.
pub fn each_record_has_a_sensor_line()
    ensures { SensorLineExists }
{
    ipmi_text::laws::each_value_has_a_decimal();
    ipmi_records::laws::each_record_has_columns();
    ipmi_records::laws::each_record_has_texts();
}

/// Each record has a block of its sensor for each id and reading.
pub fn each_record_has_a_sensor_block()
    ensures { SensorBlockExists }
{
    ipmi_records::laws::each_record_has_columns();
    ipmi_records::laws::each_record_has_texts();
}
