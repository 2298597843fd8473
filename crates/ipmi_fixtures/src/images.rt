//! Images as texts.

/// Sensor data records 0001h, 0002h and 0003h, of OEM type C0h: 6, 7 and 5 bytes.
pub const THREE_ROWS: &str = "ipmi-image 1
sdr 0001 0002 010051c001aa
sdr 0002 0003 020051c002bbcc
sdr 0003 ffff 030051c000
end
";
