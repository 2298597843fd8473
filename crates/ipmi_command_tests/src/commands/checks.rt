//! Checks of sensors: the verdict, and the text.
use super::over_images::scripted;
use crate::writers::assert_written_text;
use ipmi_bus::Code;
use ipmi_check::{Detail, Standing, Verdict, check_text, text_without_memory};
use ipmi_command_line::Filters;
use ipmi_commands::RequestLimits;
use ipmi_image::{Image, ImageController, Item, Lack};
use ipmi_sensors::{FoundSensors, Sought, find_sensors};
use std::alloc::{AllocError, Global};
use std::process::Abort;

/// A temperature sensor with number 01h, a FRU device, and a power supply with number 10h. The readings follow.
const SENSORS: &str = "ipmi-image 1
sdr 0001 0002 CPU_TEMP
sdr 0002 0004 020051110f200180000000000a0100c450535531
sdr 0004 ffff 040051021f2000100a016740086f0f0000000f00c000000100000000000000c450535531
";

/// The same, where another controller owns the power supply.
const OTHER_OWNER: &str = "ipmi-image 1
sdr 0001 0002 CPU_TEMP
sdr 0002 0004 020051110f200180000000000a0100c450535531
sdr 0004 ffff 040051021f2200100a016740086f0f0000000f00c000000100000000000000c450535531
";

/// A temperature sensor, and a record of a sensor that is too short.
const SHORT: &str = "ipmi-image 1
sdr 0001 0005 CPU_TEMP
sdr 0005 ffff 0500510100
";

/// A FRU device only.
const NO_SENSOR: &str = "ipmi-image 1
sdr 0002 ffff 020051110f200180000000000a0100c450535531
";

/// What a search found in the image of these records and readings, and whether it failed. The first calls have these moods, and
/// each record may be retried once.
fn search(
    rt: &impl Abort,
    alloc: Global,
    records: &str,
    readings: &str,
    moods: &str,
) -> (FoundSensors, bool) {
    let image = format!(in alloc; "{records}{readings}end\n").expect(rt, "memory");
    let mut ctl = scripted(rt, alloc, image.as_str(), moods);
    let filters = Filters::new(alloc);
    let limits = RequestLimits::new(32, 1);
    let mut found = FoundSensors::new(alloc);
    let sought = Sought::Sensors(&filters);
    let has_failed = find_sensors(alloc, &mut ctl, limits, sought, None, &mut found).is_err();
    drop(ctl);
    drop(filters);
    drop(image);
    (found, has_failed)
}

/// Asserts the status and the text of a check. `moods` are those of the first calls.
fn assert_check(
    rt: &impl Abort,
    alloc: Global,
    records: &str,
    readings: &str,
    moods: &str,
    status: u8,
    wanted: &str,
) {
    let (found, has_failed) = search(rt, alloc, records, readings, moods);
    let why = if has_failed {
        Some("gave up | a")
    } else {
        None
    };
    let verdict = Verdict::of(&found, &[], has_failed);
    assert!(rt;
        verdict.status() == status,
        "{wanted}: {}",
        verdict.status()
    );
    let text = check_text(alloc, &found, &[], why, Detail::Plain).expect(rt, "memory");
    assert_written_text(rt, &text, wanted);
    drop(text);
    drop(found);
}

#[test]
fn all_is_sound(rt: HostRuntime) {
    let readings = "reading 0 01 2dc00000\nreading 0 10 00c00100\n";
    let wanted = "IPMI OK - 2 sensors\n";
    assert_check(&rt, rt.alloc(), SENSORS, readings, "", 0, wanted);
}

/// A temperature at or above the upper non-critical threshold.
#[test]
fn one_sensor_needs_a_look(rt: HostRuntime) {
    let readings = "reading 0 01 2dc00800\nreading 0 10 00c00100\n";
    let wanted = "IPMI WARNING - 1 of 2 sensors: CPU Temp (45 degrees C, unc)
warning: CPU Temp (45 degrees C, unc)
";
    assert_check(&rt, rt.alloc(), SENSORS, readings, "", 1, wanted);
}

/// A temperature at or above the upper critical threshold, and a power supply whose input is lost.
#[test]
fn two_sensors_need_help(rt: HostRuntime) {
    let readings = "reading 0 01 2dc01000\nreading 0 10 00c00900\n";
    let wanted = "IPMI CRITICAL - 2 of 2 sensors: CPU Temp (45 degrees C, ucr), ..
critical: CPU Temp (45 degrees C, ucr)
critical: PSU1 (Presence detected, Power Supply input lost (AC/DC))
";
    assert_check(&rt, rt.alloc(), SENSORS, readings, "", 2, wanted);
}

/// A warning does not count beside a critical sensor.
#[test]
fn the_worst_counts(rt: HostRuntime) {
    let readings = "reading 0 01 2dc00800\nreading 0 10 00c00900\n";
    let wanted =
        "IPMI CRITICAL - 1 of 2 sensors: PSU1 (Presence detected, Power Supply input lost (AC/DC)); warnings: 1
warning: CPU Temp (45 degrees C, unc)
critical: PSU1 (Presence detected, Power Supply input lost (AC/DC))
";
    assert_check(&rt, rt.alloc(), SENSORS, readings, "", 2, wanted);
}

#[test]
fn sensors_without_a_reading_are_counted(rt: HostRuntime) {
    let readings = "reading 0 01 2dc00000\n";
    let wanted = "IPMI OK - 2 sensors; without a reading: 1\n";
    assert_check(&rt, rt.alloc(), SENSORS, readings, "", 0, wanted);
    let wanted = "IPMI OK - 2 sensors; of other owners: 1\n";
    assert_check(&rt, rt.alloc(), OTHER_OWNER, readings, "", 0, wanted);
}

#[test]
fn without_a_reading_nothing_is_known(rt: HostRuntime) {
    let wanted = "IPMI UNKNOWN - no sensor has a reading; without a reading: 2\n";
    assert_check(&rt, rt.alloc(), SENSORS, "", "", 3, wanted);
}

/// The image lacks the reading of the power supply, which may be critical.
#[test]
fn a_reading_that_was_not_captured_is_unknown(rt: HostRuntime) {
    let alloc = rt.alloc();
    let readings = "reading 0 01 2dc00000\n";
    let (found, has_failed) = search(&rt, alloc, SENSORS, readings, "");
    let (lun, number) = (0, 0x10);
    let lacks = [Lack {
        item: Item::Reading { lun, number },
        code: Code(0xD4),
    }];
    let status = Verdict::of(&found, &lacks, has_failed).status();
    assert!(&rt; status == 3, "{status}");
    let text = check_text(alloc, &found, &lacks, None, Detail::Plain).expect(&rt, "memory");
    let wanted = "IPMI UNKNOWN - a record can't be judged; not judged: 1
unknown: record 0004 can't be judged
";
    assert_written_text(&rt, &text, wanted);
    drop(text);
    drop(found);
}

/// A record with a fault may be one of a sensor in trouble.
#[test]
fn a_record_with_a_fault_is_unknown(rt: HostRuntime) {
    let wanted = "IPMI UNKNOWN - a record can't be judged; warnings: 1; not judged: 1
warning: CPU Temp (45 degrees C, unc)
unknown: record 0005 can't be judged
";
    let readings = "reading 0 01 2dc00800\n";
    assert_check(&rt, rt.alloc(), SHORT, readings, "", 3, wanted);
    let wanted = "IPMI CRITICAL - 1 of 1 sensor: CPU Temp (45 degrees C, ucr); not judged: 1
critical: CPU Temp (45 degrees C, ucr)
unknown: record 0005 can't be judged
";
    let readings = "reading 0 01 2dc01000\n";
    assert_check(&rt, rt.alloc(), SHORT, readings, "", 2, wanted);
}

#[test]
fn without_a_sensor_nothing_is_known(rt: HostRuntime) {
    let wanted = "IPMI UNKNOWN - there is no sensor to check\n";
    assert_check(&rt, rt.alloc(), NO_SENSOR, "", "", 3, wanted);
}

/// The second record is given up after the first sensor was read, or the reading of the first sensor.
#[test]
fn a_failure_is_never_ok(rt: HostRuntime) {
    let readings = "reading 0 01 2dc00000\n";
    let wanted = "IPMI UNKNOWN - gave up / a\n";
    assert_check(&rt, rt.alloc(), SENSORS, readings, ".....BB", 3, wanted);
    assert_check(&rt, rt.alloc(), SENSORS, readings, "....BB", 3, wanted);
    let readings = "reading 0 01 2dc00800\n";
    let wanted = "IPMI UNKNOWN - gave up / a; warnings: 1
warning: CPU Temp (45 degrees C, unc)
";
    assert_check(&rt, rt.alloc(), SENSORS, readings, ".....BB", 3, wanted);
    let readings = "reading 0 01 2dc01000\n";
    let wanted = "IPMI CRITICAL - 1 of 1 sensor: CPU Temp (45 degrees C, ucr); gave up / a
critical: CPU Temp (45 degrees C, ucr)
";
    assert_check(&rt, rt.alloc(), SENSORS, readings, ".....BB", 2, wanted);
}

/// A sensor and a record with a fault: the id of each, whether its record can be read, its reading, and its standing.
#[test]
fn what_was_found_is_there(rt: HostRuntime) {
    let alloc = rt.alloc();
    let (found, has_failed) = search(&rt, alloc, SHORT, "reading 0 01 2dc01000\n", "");
    assert!(&rt; !has_failed, "failed");
    let [sensor, short] = found.as_slice() else {
        panic!(&rt; "two were found");
    };
    assert!(&rt; sensor.id() == 1 && short.id() == 5, "ids");
    assert!(&rt; sensor.view().is_ok() && short.view().is_err(), "views");
    assert!(&rt;
        sensor.reading().is_some() && short.reading().is_none(),
        "readings"
    );
    assert!(&rt; Standing::of(sensor, &[]) == Standing::Critical, "a sensor");
    assert!(&rt;
        Standing::of(short, &[]) == Standing::Unknown,
        "a record with a fault"
    );
    drop(found);
}

#[test]
fn without_memory_a_critical_sensor_still_counts(rt: HostRuntime) {
    let critical = text_without_memory(Verdict::Critical);
    assert!(&rt; critical == "IPMI CRITICAL - out of memory\n", "{critical}");
    let unknown = text_without_memory(Verdict::Ok);
    assert!(&rt; unknown == "IPMI UNKNOWN - out of memory\n", "{unknown}");
}

/// What may happen at a call: all bytes, one byte, busy, a lost reservation, a part that is too long, and a refusal.
const MOODS: [&str; 6] = [".", "1", "B", "C", "L", "R"];

/// Moods of twelve calls, which a linear congruential generator chooses.
fn moods_of(rt: &impl Abort, alloc: Global, seed: u32) -> String {
    let mut moods = String::new(alloc);
    let mut state = seed;
    for _ in 0..12 {
        state = state.wrapping_mul(1_103_515_245).wrapping_add(12_345);
        let place = (state >> 16) as usize % 6;
        moods.push_str(MOODS[place]).expect(rt, "memory");
    }
    moods
}

/// A thousand checks of a critical sensor, each with other troubles.
#[test]
fn with_troubles_a_critical_sensor_is_never_ok(rt: HostRuntime) {
    let alloc = rt.alloc();
    for seed in 0..1000 {
        let moods = moods_of(&rt, alloc, seed);
        let readings = "reading 0 01 2dc00800\nreading 0 10 00c00900\n";
        let (found, has_failed) = search(&rt, alloc, SENSORS, readings, moods.as_str());
        let status = Verdict::of(&found, &[], has_failed).status();
        assert!(&rt; status >= 2, "{moods}: {status}");
        drop(found);
        drop(moods);
    }
}

/// Voltages in units of 0.06. The first name is `A'B=C|D`. Of the second only the lower critical and non-critical thresholds are readable,
/// and of the third none. The fourth has no reading, and the fifth no thresholds.
const VOLTAGES: &str = "ipmi-image 1
sdr 0015 0016 150051013220000f07017f680201950a950a3f3f000400000600000000e00780a010ff00faf5f0646e780202000000c74127423d437c44
sdr 0016 0017 160051012e20001007017f680201950a950a033f000400000600000000e00780a010ff00faf5f0646e780202000000c3503556
sdr 0017 0018 170051012f20001107017f680201950a950a0000000400000600000000e00780a010ff00faf5f0646e780202000000c450335633
sdr 0018 0019 180051012f20001207017f680201950a950a3f3f000400000600000000e00780a010ff00faf5f0646e780202000000c450315638
sdr 0019 ffff 190051012f20001307017f68026f950a950a3f3f000400000600000000e00780a010ff00faf5f0646e780202000000c456424154
";

/// The data of `VOLTAGES`. An end that is not readable is left out.
const VOLTAGE_DATA: &str =
    "IPMI OK - 5 sensors; without a reading: 1 | 'A''B/C/D'=12;7.2:14.4;6.6:14.7 'P5V'=3;7.2:;6.6: 'P3V3'=6;;\n";

/// Asserts the text of a check with performance data.
fn assert_data(rt: &impl Abort, alloc: Global, records: &str, readings: &str, wanted: &str) {
    let (found, _) = search(rt, alloc, records, readings, "");
    let text = check_text(alloc, &found, &[], None, Detail::PerformanceData).expect(rt, "memory");
    assert_written_text(rt, &text, wanted);
    drop(text);
    drop(found);
}

#[test]
fn performance_data_end_the_first_line(rt: HostRuntime) {
    let alloc = rt.alloc();
    let readings = "reading 0 01 2dc00000\nreading 0 10 00c00100\n";
    let wanted = "IPMI OK - 2 sensors | 'CPU Temp'=45;:85;:90\n";
    assert_data(&rt, alloc, SENSORS, readings, wanted);
    let readings = "reading 0 01 5cc01800\nreading 0 10 00c00100\n";
    let wanted =
        "IPMI CRITICAL - 1 of 2 sensors: CPU Temp (92 degrees C, ucr) | 'CPU Temp'=92;:85;:90
critical: CPU Temp (92 degrees C, ucr)
";
    assert_data(&rt, alloc, SENSORS, readings, wanted);
}

/// Raw readings C8h, 32h and 64h.
#[test]
fn performance_data_have_the_thresholds_that_can_be_read(rt: HostRuntime) {
    let readings = "reading 0 0f c8c00000
reading 0 10 32c00000
reading 0 11 64c00000
reading 0 13 c8c00000
";
    assert_data(&rt, rt.alloc(), VOLTAGES, readings, VOLTAGE_DATA);
}

/// No sensor with thresholds has a reading.
#[test]
fn without_performance_data_there_is_no_bar(rt: HostRuntime) {
    let readings = "reading 0 10 00c00100\n";
    let wanted = "IPMI OK - 2 sensors; without a reading: 1\n";
    assert_data(&rt, rt.alloc(), SENSORS, readings, wanted);
}

/// The text of a check of `VOLTAGES` with performance data, where memory may be refused at any request.
fn checked_voltages(alloc: Global) -> Result<Vec<u8>, AllocError> {
    let image = format!(in alloc; "{VOLTAGES}reading 0 0f c8c00000\nend\n")?;
    let Ok(image) = Image::read(alloc, image.as_bytes()) else {
        return Err(AllocError);
    };
    let mut ctl = ImageController::new(image);
    let filters = Filters::new(alloc);
    let mut found = FoundSensors::new(alloc);
    let limits = RequestLimits::new(32, 1);
    let sought = Sought::Sensors(&filters);
    match find_sensors(alloc, &mut ctl, limits, sought, None, &mut found) {
        Ok(()) => check_text(alloc, &found, &[], None, Detail::PerformanceData),
        Err(_) => Err(AllocError),
    }
}

/// What `checked_voltages` returns.
const CHECKED: &str =
    "IPMI OK - 5 sensors; without a reading: 4 | 'A''B/C/D'=12;7.2:14.4;6.6:14.7\n";

/// With ample memory the text is returned.
#[test]
fn not_always_out_of_memory(rt: HostRuntime) {
    let text = checked_voltages(rt.alloc()).expect(&rt, "memory");
    assert_written_text(&rt, &text, CHECKED);
}

/// With memory refused the text is returned, or the call fails when out of memory.
#[test]
fn memory_may_be_refused(rt: HostRuntime) {
    if let Ok(text) = checked_voltages(rt.alloc()) {
        assert_written_text(&rt, &text, CHECKED);
    }
}
