//! Worked metrics of sensors of the example image, of its event log, and of records made from others.
use ipmi_command_line::Filters;
use ipmi_commands::RequestLimits;
use ipmi_image::{Image, ImageController};
use ipmi_metrics::{Dialect, metrics_text};
use ipmi_sensors::{FoundSensors, Sought, find_sensors};
use std::alloc::{AllocError, Global};
use std::process::Abort;

/// Three temperatures, a fan, a voltage, a power, two currents, a temperature below zero, one of another controller, two power supplies,
/// and a record with a fault. The name of the last sensor has a quote, a backslash and an accented letter.
const MACHINE: &str = "ipmi-image 1
sdr 0007 000a 070051013420000103017f680101950a950a3f3f000100000100000000000780a010ff005a5550050a0f0202000000c9435055312054656d70
sdr 000a 000d 0a0051013620000437027f680101950a950a3f3f000100000100000000000780a010ff005a5550050a0f0202000000cb4f75746c65742054656d70
sdr 000d 000f 0d0051013420000714017f680101950a950a3f3f000100000100000000000780a010ff005a5550050a0f0202000000c956524d312054656d70
sdr 000f 0015 0f0051012f2000091d017f680401950a950a3f3f001200004b00000000000780a010ff00fffefd04080c0202000000c446616e31
sdr 0015 001b 150051012f20000f07017f680201950a950a3f3f000400000600000000e00780a010ff00faf5f0646e780202000000c450313256
sdr 001b 001d 1b005101352000150a017f400b01950a950a0000000600000800000000000780a010ff000000000000000202000000ca5053553120496e707574
sdr 001d 001e 1d005101372000170a017f400301950a950a0000000500000100000000f00780a010ff000000000000000202000000cc505355312043757272656e74
sdr 001e 001f 1e005101372000180a027f400301950a950a0000000500000100000000f00780a010ff000000000000000202000000cc505355322043757272656e74
sdr 001f 0024 1f0051013620001907027f400101950a950a0000800100000100000000000780a0107f800000000000000202000000cb5369676e65642054656d70
sdr 0024 0027 24005101352c007007067f400101950a950a0000000100000100000000000780a010ff000000000000000202000000ca4f746865722054656d70
sdr 0027 0028 27005102262000410a026740086f00000000ff00c000000100000000000000cb5053553220537461746530
sdr 0028 0029 280051021e2000420a016740086f00000000ff00c000000100000000000000c3225ce9
sdr 0029 ffff 2900510100
reading 0 01 2d400000
reading 0 04 52400800
reading 0 07 57401800
reading 0 09 78400000
reading 0 0f c8400000
reading 0 15 17400000
reading 0 17 28400000
reading 0 18 00000000
reading 0 19 f6400000
reading 0 41 00400900
reading 0 42 00400000
end
";

/// The info of the event log of the example image: 22 entries, and 3D20h bytes free.
const LOG: [u8; 14] = [
    0x51, 0x16, 0x00, 0x20, 0x3d, 0xd2, 0xf5, 0x53, 0x65, 0x00, 0xf1, 0x53, 0x65, 0x0a,
];

/// The values are those of the factors: a fan has 75 per unit, the voltage 0.06, the power 8, and the currents 0.1. Readings of -10 have
/// format 2. An upper critical threshold is passed by 000Dh, an upper non-critical one by 000Ah, and the input of 0027h is lost.
const VALUES: &str = r#"# HELP ipmi_temperature_celsius What a sensor measures, in degrees Celsius.
# TYPE ipmi_temperature_celsius gauge
ipmi_temperature_celsius{id="7",name="CPU1 Temp"} 45
ipmi_temperature_celsius{id="10",name="Outlet Temp"} 82
ipmi_temperature_celsius{id="13",name="VRM1 Temp"} 87
ipmi_temperature_celsius{id="31",name="Signed Temp"} -10
ipmi_temperature_celsius{id="36",name="Other Temp"} NaN
# HELP ipmi_temperature_state How a sensor is: 0 is nominal, 1 a warning, 2 critical, NaN not known.
# TYPE ipmi_temperature_state gauge
ipmi_temperature_state{id="7",name="CPU1 Temp"} 0
ipmi_temperature_state{id="10",name="Outlet Temp"} 1
ipmi_temperature_state{id="13",name="VRM1 Temp"} 2
ipmi_temperature_state{id="31",name="Signed Temp"} 0
ipmi_temperature_state{id="36",name="Other Temp"} NaN
# HELP ipmi_fan_speed_rpm What a sensor measures, in rotations per minute.
# TYPE ipmi_fan_speed_rpm gauge
ipmi_fan_speed_rpm{id="15",name="Fan1"} 9000
# HELP ipmi_fan_speed_state How a sensor is: 0 is nominal, 1 a warning, 2 critical, NaN not known.
# TYPE ipmi_fan_speed_state gauge
ipmi_fan_speed_state{id="15",name="Fan1"} 0
# HELP ipmi_voltage_volts What a sensor measures, in volts.
# TYPE ipmi_voltage_volts gauge
ipmi_voltage_volts{id="21",name="P12V"} 12
# HELP ipmi_voltage_state How a sensor is: 0 is nominal, 1 a warning, 2 critical, NaN not known.
# TYPE ipmi_voltage_state gauge
ipmi_voltage_state{id="21",name="P12V"} 0
# HELP ipmi_current_amperes What a sensor measures, in amperes.
# TYPE ipmi_current_amperes gauge
ipmi_current_amperes{id="29",name="PSU1 Current"} 4
ipmi_current_amperes{id="30",name="PSU2 Current"} NaN
# HELP ipmi_current_state How a sensor is: 0 is nominal, 1 a warning, 2 critical, NaN not known.
# TYPE ipmi_current_state gauge
ipmi_current_state{id="29",name="PSU1 Current"} 0
ipmi_current_state{id="30",name="PSU2 Current"} NaN
# HELP ipmi_power_watts What a sensor measures, in watts.
# TYPE ipmi_power_watts gauge
ipmi_power_watts{id="27",name="PSU1 Input"} 184
# HELP ipmi_power_state How a sensor is: 0 is nominal, 1 a warning, 2 critical, NaN not known.
# TYPE ipmi_power_state gauge
ipmi_power_state{id="27",name="PSU1 Input"} 0
# HELP ipmi_sensor_value What another sensor measures, in a unit of its own; NaN if it only has states.
# TYPE ipmi_sensor_value gauge
ipmi_sensor_value{id="39",name="PSU2 State0",type="Power Supply"} NaN
ipmi_sensor_value{id="40",name="\"\\é",type="Power Supply"} NaN
# HELP ipmi_sensor_state How a sensor is: 0 is nominal, 1 a warning, 2 critical, NaN not known.
# TYPE ipmi_sensor_state gauge
ipmi_sensor_state{id="39",name="PSU2 State0",type="Power Supply"} 2
ipmi_sensor_state{id="40",name="\"\\é",type="Power Supply"} 0
"#;

/// The thresholds are 5Ah, 55h, 50h, 05h, 0Ah and 0Fh of temperatures, FFh, FEh, FDh, 04h, 08h and 0Ch of the fan, and FAh, F5h, F0h, 64h,
/// 6Eh and 78h of the voltage. The other records have none that is readable.
const THRESHOLDS: &str = r#"# HELP ipmi_sensor_threshold The value of a readable threshold.
# TYPE ipmi_sensor_threshold gauge
ipmi_sensor_threshold{id="7",name="CPU1 Temp",threshold="upper_non_recoverable"} 90
ipmi_sensor_threshold{id="7",name="CPU1 Temp",threshold="upper_critical"} 85
ipmi_sensor_threshold{id="7",name="CPU1 Temp",threshold="upper_non_critical"} 80
ipmi_sensor_threshold{id="7",name="CPU1 Temp",threshold="lower_non_recoverable"} 5
ipmi_sensor_threshold{id="7",name="CPU1 Temp",threshold="lower_critical"} 10
ipmi_sensor_threshold{id="7",name="CPU1 Temp",threshold="lower_non_critical"} 15
ipmi_sensor_threshold{id="10",name="Outlet Temp",threshold="upper_non_recoverable"} 90
ipmi_sensor_threshold{id="10",name="Outlet Temp",threshold="upper_critical"} 85
ipmi_sensor_threshold{id="10",name="Outlet Temp",threshold="upper_non_critical"} 80
ipmi_sensor_threshold{id="10",name="Outlet Temp",threshold="lower_non_recoverable"} 5
ipmi_sensor_threshold{id="10",name="Outlet Temp",threshold="lower_critical"} 10
ipmi_sensor_threshold{id="10",name="Outlet Temp",threshold="lower_non_critical"} 15
ipmi_sensor_threshold{id="13",name="VRM1 Temp",threshold="upper_non_recoverable"} 90
ipmi_sensor_threshold{id="13",name="VRM1 Temp",threshold="upper_critical"} 85
ipmi_sensor_threshold{id="13",name="VRM1 Temp",threshold="upper_non_critical"} 80
ipmi_sensor_threshold{id="13",name="VRM1 Temp",threshold="lower_non_recoverable"} 5
ipmi_sensor_threshold{id="13",name="VRM1 Temp",threshold="lower_critical"} 10
ipmi_sensor_threshold{id="13",name="VRM1 Temp",threshold="lower_non_critical"} 15
ipmi_sensor_threshold{id="15",name="Fan1",threshold="upper_non_recoverable"} 19125
ipmi_sensor_threshold{id="15",name="Fan1",threshold="upper_critical"} 19050
ipmi_sensor_threshold{id="15",name="Fan1",threshold="upper_non_critical"} 18975
ipmi_sensor_threshold{id="15",name="Fan1",threshold="lower_non_recoverable"} 300
ipmi_sensor_threshold{id="15",name="Fan1",threshold="lower_critical"} 600
ipmi_sensor_threshold{id="15",name="Fan1",threshold="lower_non_critical"} 900
ipmi_sensor_threshold{id="21",name="P12V",threshold="upper_non_recoverable"} 15
ipmi_sensor_threshold{id="21",name="P12V",threshold="upper_critical"} 14.7
ipmi_sensor_threshold{id="21",name="P12V",threshold="upper_non_critical"} 14.4
ipmi_sensor_threshold{id="21",name="P12V",threshold="lower_non_recoverable"} 6
ipmi_sensor_threshold{id="21",name="P12V",threshold="lower_critical"} 6.6
ipmi_sensor_threshold{id="21",name="P12V",threshold="lower_non_critical"} 7.2
"#;

const RECORDS: &str = r#"# HELP ipmi_sensor_info What the record of a sensor says of it.
# TYPE ipmi_sensor_info gauge
ipmi_sensor_info{id="7",name="CPU1 Temp",entity_id="3",entity_instance="1",lun="0",number="1",type="Temperature"} 1
ipmi_sensor_info{id="10",name="Outlet Temp",entity_id="55",entity_instance="2",lun="0",number="4",type="Temperature"} 1
ipmi_sensor_info{id="13",name="VRM1 Temp",entity_id="20",entity_instance="1",lun="0",number="7",type="Temperature"} 1
ipmi_sensor_info{id="15",name="Fan1",entity_id="29",entity_instance="1",lun="0",number="9",type="Fan"} 1
ipmi_sensor_info{id="21",name="P12V",entity_id="7",entity_instance="1",lun="0",number="15",type="Voltage"} 1
ipmi_sensor_info{id="27",name="PSU1 Input",entity_id="10",entity_instance="1",lun="0",number="21",type="Other Units-based Sensor"} 1
ipmi_sensor_info{id="29",name="PSU1 Current",entity_id="10",entity_instance="1",lun="0",number="23",type="Current"} 1
ipmi_sensor_info{id="30",name="PSU2 Current",entity_id="10",entity_instance="2",lun="0",number="24",type="Current"} 1
ipmi_sensor_info{id="31",name="Signed Temp",entity_id="7",entity_instance="2",lun="0",number="25",type="Temperature"} 1
ipmi_sensor_info{id="36",name="Other Temp",entity_id="7",entity_instance="6",lun="0",number="112",type="Temperature"} 1
ipmi_sensor_info{id="39",name="PSU2 State0",entity_id="10",entity_instance="2",lun="0",number="65",type="Power Supply"} 1
ipmi_sensor_info{id="40",name="\"\\é",entity_id="10",entity_instance="1",lun="0",number="66",type="Power Supply"} 1
"#;

const END: &str =
    r#"# HELP ipmi_sdr_faulty_records Sensor data records with a fault, of which nothing else is said.
# TYPE ipmi_sdr_faulty_records gauge
ipmi_sdr_faulty_records 1
# HELP ipmi_sel_entries Entries of the event log.
# TYPE ipmi_sel_entries gauge
ipmi_sel_entries 22
# HELP ipmi_sel_free_space_bytes Bytes that are free in the event log; 65535 is that or more.
# TYPE ipmi_sel_free_space_bytes gauge
ipmi_sel_free_space_bytes 15648
# HELP ipmi_up 1 if all sensors could be asked, else 0.
# TYPE ipmi_up gauge
ipmi_up{collector="ipmi"} 1
"#;

/// Nothing was found, not even the log.
const NOTHING: &str =
    r#"# HELP ipmi_sdr_faulty_records Sensor data records with a fault, of which nothing else is said.
# TYPE ipmi_sdr_faulty_records gauge
ipmi_sdr_faulty_records 0
# HELP ipmi_up 1 if all sensors could be asked, else 0.
# TYPE ipmi_up gauge
ipmi_up{collector="ipmi"} 0
"#;

/// A sensor in LUN 3, of number 01h. Its readings are a rate, degrees C per second.
const RATE: &str = "ipmi-image 1
sdr 0023 ffff 230051013420030107057f400101950a950a0000180100000100000000000780a010ff000000000000000202000000c94c554e332054656d70
reading 3 01 22400000
end
";

const RATE_METRICS: &str =
    r#"# HELP ipmi_sensor_value What another sensor measures, in a unit of its own; NaN if it only has states.
# TYPE ipmi_sensor_value gauge
ipmi_sensor_value{id="35",name="LUN3 Temp",type="Temperature"} 34
# HELP ipmi_sensor_state How a sensor is: 0 is nominal, 1 a warning, 2 critical, NaN not known.
# TYPE ipmi_sensor_state gauge
ipmi_sensor_state{id="35",name="LUN3 Temp",type="Temperature"} 0
# HELP ipmi_sensor_info What the record of a sensor says of it.
# TYPE ipmi_sensor_info gauge
ipmi_sensor_info{id="35",name="LUN3 Temp",entity_id="7",entity_instance="5",lun="3",number="1",type="Temperature"} 1
# HELP ipmi_sdr_faulty_records Sensor data records with a fault, of which nothing else is said.
# TYPE ipmi_sdr_faulty_records gauge
ipmi_sdr_faulty_records 0
# HELP ipmi_up 1 if all sensors could be asked, else 0.
# TYPE ipmi_up gauge
ipmi_up{collector="ipmi"} 1
"#;

/// The sensors that a search finds in an image.
fn sensors_in(rt: &impl Abort, alloc: Global, image: &str) -> FoundSensors {
    let image = Image::read(alloc, image.as_bytes()).expect(rt, image);
    let mut ctl = ImageController::new(image);
    let filters = Filters::new(alloc);
    let mut found = FoundSensors::new(alloc);
    let limits = RequestLimits::new(64, 5);
    let sought = Sought::Sensors(&filters);
    find_sensors(alloc, &mut ctl, limits, sought, None, &mut found).expect(rt, "sensors");
    drop(ctl);
    drop(filters);
    found
}

/// Asserts the metrics of an image: these texts, one after another.
fn assert_metrics(
    rt: &impl Abort,
    alloc: Global,
    image: &str,
    info: Option<&[u8; 14]>,
    is_up: bool,
    dialect: Dialect,
    wanted: &[&str],
) {
    let found = sensors_in(rt, alloc, image);
    let text = metrics_text(alloc, &found, info, is_up, dialect).expect(rt, "memory");
    let mut rest = text.as_str();
    for part in wanted {
        rest = rest.strip_prefix(*part).expect(rt, rest);
    }
    assert!(rt; rest.is_empty(), "{rest} is printed too");
    drop(text);
    drop(found);
}

#[test]
fn each_family_is_whole(rt: HostRuntime) {
    let wanted = [VALUES, THRESHOLDS, RECORDS, END];
    let dialect = Dialect::Prometheus;
    assert_metrics(&rt, rt.alloc(), MACHINE, Some(&LOG), true, dialect, &wanted);
}

#[test]
fn open_metrics_have_an_end(rt: HostRuntime) {
    let wanted = [VALUES, THRESHOLDS, RECORDS, END, "# EOF\n"];
    let dialect = Dialect::OpenMetrics;
    assert_metrics(&rt, rt.alloc(), MACHINE, Some(&LOG), true, dialect, &wanted);
}

#[test]
fn families_without_samples_are_left_out(rt: HostRuntime) {
    let alloc = rt.alloc();
    let dialect = Dialect::Prometheus;
    let empty = "ipmi-image 1\nend\n";
    assert_metrics(&rt, alloc, empty, None, false, dialect, &[NOTHING]);
    assert_metrics(&rt, alloc, RATE, None, true, dialect, &[RATE_METRICS]);
}

/// The metrics of `RATE`, where memory may be refused at any request.
fn metrics_of_rate(alloc: Global) -> Result<String, AllocError> {
    let Ok(image) = Image::read(alloc, RATE.as_bytes()) else {
        return Err(AllocError);
    };
    let mut ctl = ImageController::new(image);
    let filters = Filters::new(alloc);
    let mut found = FoundSensors::new(alloc);
    let limits = RequestLimits::new(64, 5);
    let sought = Sought::Sensors(&filters);
    match find_sensors(alloc, &mut ctl, limits, sought, None, &mut found) {
        Ok(()) => metrics_text(alloc, &found, None, true, Dialect::Prometheus),
        Err(_) => Err(AllocError),
    }
}

/// With ample memory the text is returned.
#[test]
fn not_always_out_of_memory(rt: HostRuntime) {
    let text = metrics_of_rate(rt.alloc()).expect(&rt, "memory");
    assert!(&rt; text.as_str() == RATE_METRICS, "{text}");
}

/// With memory refused the text is returned, or the call fails when out of memory.
#[test]
fn memory_may_be_refused(rt: HostRuntime) {
    if let Ok(text) = metrics_of_rate(rt.alloc()) {
        assert!(&rt; text.as_str() == RATE_METRICS, "{text}");
    }
}
