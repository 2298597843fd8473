//! Sensor data records of each length: a line or a block of a record with part of its name, a line that the record is too
//! short, or a fault of the image.
use super::answers::assert_answer;
use super::outcome::assert_outcome;
use super::over_images::outcome_over;
use crate::cases::first_line;
use crate::command_line::lines::read_line;
use ipmi_fixtures::{CPU_TEMP, CPU_TEMP_BLOCK, PSU1};
use std::alloc::Global;
use std::process::Abort;

/// An image of the first `len` bytes of `CPU_TEMP`. The fifth byte is adapted to the length.
fn cut_sensor(rt: &impl Abort, alloc: Global, len: usize) -> String {
    let after = len.saturating_sub(5);
    let body = hex::encode(alloc, CPU_TEMP.get(5..len).expect(rt, "a body")).expect(rt, "memory");
    format!(in alloc;
        "ipmi-image 1\nsdr 0001 ffff 01005101{after:02x}{body}\nreading 0 01 2dc00000\nend\n"
    ).expect(rt, "memory")
}

/// The part of its name in the first `len` bytes.
fn cut_name(rt: &impl Abort, len: usize) -> &'static str {
    "CPU Temp"
        .get(..len.saturating_sub(48))
        .expect(rt, "a name")
}

/// Asserts the outcome of the words over the first `len` bytes, after this many calls.
fn assert_outcome_of_sensor(
    rt: &impl Abort,
    alloc: Global,
    words: &str,
    len: usize,
    calls: u32,
    wanted: &str,
) {
    let image = cut_sensor(rt, alloc, len);
    let outcome = outcome_over(rt, alloc, words, image.as_str());
    let (status, rest) = first_line(rt, wanted);
    let wanted = format!(in alloc; "{status} {calls}\n{rest}").expect(rt, "memory");
    let case = format!(in alloc; "{words}: {len} bytes").expect(rt, "memory");
    assert_outcome(rt, alloc, outcome, wanted.as_str(), case.as_str());
}

/// Asserts that a record without its whole body has a line but no name, and that `fru` names no device for it.
fn assert_too_short(rt: &impl Abort, alloc: Global, len: usize, calls: u32, calls_of_fru: u32) {
    let line = "0\n--\nrecord 0001h: body too short\n";
    let unnamed = "1\nno record named CPU Temp\n--\n";
    let device_0 = "0\n--\nFRU 0\nnot present\n\n";
    assert_outcome_of_sensor(rt, alloc, "sdr,list", len, calls, line);
    assert_outcome_of_sensor(rt, alloc, "sdr,get,CPU Temp", len, calls, unnamed);
    assert_outcome_of_sensor(rt, alloc, "fru", len, calls_of_fru, device_0);
}

// A full sensor record has 48 bytes before its name. The reservation takes a call, the header of five bytes another,
// and each part of up to 32 bytes one more. `fru` first asks for the size of device 0.
#[test]
fn a_sensor_record_of_fewer_than_48_bytes_has_no_name(rt: HostRuntime) {
    assert_too_short(&rt, rt.alloc(), 5, 2, 3);
    for len in 6..38 {
        assert_too_short(&rt, rt.alloc(), len, 3, 4);
    }
    for len in 38..48 {
        assert_too_short(&rt, rt.alloc(), len, 4, 5);
    }
}

/// Asserts the line of a record whose name is cut short. It takes as many calls as a whole record.
fn assert_line(rt: &impl Abort, alloc: Global, len: usize) {
    let name = cut_name(rt, len);
    let line = format!(in alloc; "0\n--\n{name:<16} | 45 degrees C      | ok\n").expect(
        rt, "memory",
    );
    assert_outcome_of_sensor(rt, alloc, "sdr,list", len, 5, line.as_str());
}

/// Asserts its block, found by that name.
fn assert_block(rt: &impl Abort, alloc: Global, len: usize) {
    let name = cut_name(rt, len);
    let words = format!(in alloc; "sdr,get,{name}").expect(rt, "memory");
    let block = CPU_TEMP_BLOCK
        .replace(alloc, "CPU Temp", name)
        .expect(rt, "memory");
    let wanted = format!(in alloc; "0\n--\n{block}").expect(rt, "memory");
    assert_outcome_of_sensor(rt, alloc, words.as_str(), len, 5, wanted.as_str());
}

// A reservation, the header, the body in two parts, of 32 bytes and of 11 to 19, and the reading.
#[test]
fn a_sensor_record_of_48_bytes_or_more_is_listed_and_named(rt: HostRuntime) {
    for len in 48..57 {
        assert_line(&rt, rt.alloc(), len);
    }
    for len in 48..57 {
        assert_block(&rt, rt.alloc(), len);
    }
}

/// An image of the first `len` bytes of `PSU1`. The fifth byte is adapted to the length.
fn cut_locator(rt: &impl Abort, alloc: Global, len: usize) -> String {
    let after = len.saturating_sub(5);
    let body = hex::encode(alloc, PSU1.get(5..len).expect(rt, "a body")).expect(rt, "memory");
    format!(in alloc; "ipmi-image 1\nsdr 0001 ffff 01005111{after:02x}{body}\nend\n").expect(
        rt, "memory",
    )
}

/// Asserts the output of `fru` over the first `len` bytes, after device 0, which is not present.
fn assert_devices_of_locator(
    rt: &impl Abort,
    alloc: Global,
    len: usize,
    calls: u32,
    devices: &str,
) {
    let image = cut_locator(rt, alloc, len);
    let outcome = outcome_over(rt, alloc, "fru", image.as_str());
    let wanted = format!(in alloc; "0 {calls}\n--\nFRU 0\nnot present\n\n{devices}").expect(
        rt, "memory",
    );
    assert_outcome(rt, alloc, outcome, wanted.as_str(), image.as_str());
}

/// Asserts that device 1 is printed with the part of its name in the first `len` bytes.
fn assert_device_name(rt: &impl Abort, alloc: Global, len: usize) {
    let name = "PSU1".get(..len.saturating_sub(16)).expect(rt, "a name");
    let devices = format!(in alloc; "FRU 1 ({name})\nnot present\n\n").expect(rt, "memory");
    assert_devices_of_locator(rt, alloc, len, 5, devices.as_str());
}

// A locator has 16 bytes before its name. There is a call for the size of device 0, the reservation, the header, the
// bytes after it, if there are any, and the size of device 1.
#[test]
fn a_locator_cut_short_is_passed_or_printed(rt: HostRuntime) {
    assert_devices_of_locator(&rt, rt.alloc(), 5, 3, "");
    for len in 6..16 {
        assert_devices_of_locator(&rt, rt.alloc(), len, 4, "");
    }
    for len in 16..21 {
        assert_device_name(&rt, rt.alloc(), len);
    }
}

const COMMANDS: &str = "sdr info
sdr get Foo
sel
sel list last 1
fru
fru print 0";

/// Asserts that the words fail with the fault of the image.
fn assert_image_fault(rt: &impl Abort, alloc: Global, image: &str, words: &str, wanted: &str) {
    let line = read_line(rt, alloc, words);
    let case = format!(in alloc; "{words}: {image}").expect(rt, "memory");
    assert_answer(rt, alloc, line, image.as_bytes(), wanted, case.as_str());
}

/// The same for each of the commands, over the first `len` bytes of `CPU_TEMP` with the fifth byte unchanged.
fn assert_image_fault_of_each_command(rt: &impl Abort, alloc: Global, len: usize, wanted: &str) {
    let digits = hex::encode(alloc, CPU_TEMP.get(..len).expect(rt, "bytes")).expect(rt, "memory");
    let image = format!(in alloc; "ipmi-image 1\nsdr 0001 ffff {digits}\nend\n").expect(
        rt, "memory",
    );
    for words in COMMANDS.lines() {
        assert_image_fault(rt, alloc, image.as_str(), words, wanted);
    }
}

// The fifth byte of a record is the number of bytes after its header. Without any byte the line is invalid.
#[test]
fn a_record_of_fewer_bytes_than_it_says_is_a_fault_of_the_image(rt: HostRuntime) {
    assert_image_fault_of_each_command(&rt, rt.alloc(), 0, "3\nimage line 2: not a line\n--\n");
    for len in 1..56 {
        assert_image_fault_of_each_command(&rt, rt.alloc(), len, "3\nimage line 2: length\n--\n");
    }
}
