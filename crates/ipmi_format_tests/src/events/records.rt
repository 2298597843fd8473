//! Records that several tests use, and the table of their sensors.
use ipmi_events::Sensors;
use ipmi_fixtures::CPU_TEMP;
use std::alloc::Global;
use std::process::Abort;

/// Records after `CPU_TEMP`, one per line: a compact one of four sensors, starting with number 10h; an event-only one of
/// three, starting with 30h; a second record of sensor 12h; one that is too short for its type; a good one of the same
/// sensor, 40h; an event-only one of five sensors, starting with FEh, of a software id at LUN 3; a FRU locator; compact
/// ones with a share count of 0, without a name, and with a share count of 1; one without its last byte.
const RECORDS: &str = "0200510220200010200100000c6f0000000000000000000401000000000000c544494d4d20
03005103102000301d01040313190000c446616e20
0400510220200012200100000c6f0000000000000000000000000000000000c54c61746572
0500510103200040
06005102202000402001000001070000000000000000000100000000000000c5496e6c6574
070051031241f3fe1d01126f05000000c64167656e7420
080051110f200180000000000a0100c450535531
090051021b200050200100000c6f0000000000000000000000000000000000c0
0a00510221200060200100000c6f0000000000000000000100000000000000c653696e676c65
0b00510222200070200100000c6f0000000000000000000100000000000000c7437574206f66";

/// The concatenated bytes of `CPU_TEMP` and the other records.
fn record_bytes(rt: &impl Abort, alloc: Global) -> Vec<u8> {
    let mut bytes = CPU_TEMP.to_vec(alloc).expect(rt, "memory");
    for line in RECORDS.lines() {
        let part = hex::decode(alloc, line).expect(rt, line);
        bytes.extend_from_slice(&part).expect(rt, "memory");
    }
    bytes
}

/// The sensors of the records.
pub(crate) fn sensors(rt: &impl Abort, alloc: Global) -> Sensors {
    let bytes = record_bytes(rt, alloc);
    Sensors::of(alloc, bytes).expect(rt, "memory")
}
