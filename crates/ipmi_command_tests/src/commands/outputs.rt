//! Outputs of commands over the saved images that more than one test expects.

/// The output of `sel list last 2` over the log.
pub(super) const NEWEST: &str =
    "0002 | +536870912 s | Temperature #0x30 | Upper Non-critical going high | Deasserted
0003 | unspecified | OEM record 0xc0 | 001357 | 010203040506
";

/// The output of `fru print 0` over the inventory.
pub(super) const INVENTORY: &str = "FRU 0
Chassis Type: Rack Mount Chassis

";

/// The output of `fru` over the two locators.
pub(super) const INVENTORIES: &str = "FRU 0
Chassis Type: Rack Mount Chassis

FRU 1 (PSU1)
FRU fault: header short

FRU 2 (PSU2)
Chassis fault: outside

";
