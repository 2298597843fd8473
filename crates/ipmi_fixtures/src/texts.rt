//! The texts of the records. They were put together by hand, from the tables of the standard and the layout of each line.

/// The block of `CPU_TEMP` with the reading 2Dh. Scanning is enabled, and no threshold is crossed.
pub const CPU_TEMP_BLOCK: &str = "Record: 0001h
Type: full
Name: CPU Temp
Owner: 20h LUN 0
Sensor: 01h
Entity: 3.1
Kind: Temperature
Event type: 01h
Reading: 45 degrees C
Status: ok
Upper non-recoverable: 95 degrees C
Upper critical: 90 degrees C
Upper non-critical: 85 degrees C

";

/// The block of `PSU1`.
pub const PSU1_BLOCK: &str = "Record: 0002h
Type: FRU locator
Name: PSU1
Address: 20h
Entity: 10.1

";

/// The block of `INFO`.
pub const INFO_BLOCK: &str = "Version: 0x51
Records: 3
Free Space: 1024
Last Addition: 1987-01-05 18:48:33
Last Erase: unspecified
Overflow: no
Support: 0x02
";
