//! The extension codes in event data 2 and 3 (IPMI v2.0, table 42-3).
ghost use Rattle.std.specs.Prelude.{◌≡◌, ◌&&◌, map};
ghost use Rattle.ipmi_events.specs.Extensions.{bits_of, fields_of, fields_of_second, fields_of_third, is_of, said_by, value_in};

use crate::event_data::{Byte, EventData};
use crate::specific::{ACPI_STATES, ACPI_STATES_OR_UNKNOWN, FRU_STATE};
use crate::table::RESERVED;

/// The bits of a field in its byte.
#[derive(Clone, Copy)]
pub(crate) enum Bits {
    All,
    Bit7,
    From7To4,
    From6To0,
    From5To0,
    From5To4,
    From4To3,
    From3To0,
    From2To0,
    Bit5,
    Bit4,
    Bit3,
    Bit2,
    Bit1,
    Bit0,
}

/// How a field is printed.
#[derive(Clone, Copy)]
pub(crate) enum Form {
    /// As words from a table. A code without words is printed in hex after the field's code label, or not at all if that
    /// is empty.
    Words,
    /// As its label if its bit is set. Otherwise it is not printed.
    Flag,
    /// As words if the table has words for it, otherwise as a decimal number.
    Decimal,
    /// As a byte in hex.
    Hex,
}

/// A field of an extension code: bits of event data 2 or 3 for some offsets of a sensor type.
#[derive(Clone, Copy)]
pub(crate) struct Field {
    sensor_type: u8,
    first_offset: u8,
    last_offset: u8,
    bits: Bits,
    /// The label, printed before the words or the number.
    pub(crate) label: &'static str,
    pub(crate) form: Form,
    /// The words of its codes. For most decimal fields there are none.
    pub(crate) words: &'static [&'static str],
    /// The label of a code without words. Empty for the only field of a byte, which is then printed whole.
    pub(crate) code_label: &'static str,
}

/// Configuration errors of a power supply.
const POWER_SUPPLY_ERRORS: [&str; 5] = [
    "Vendor mismatch",
    "Revision mismatch",
    "Processor missing",
    "Power Supply rating mismatch",
    "Voltage rating mismatch",
];

/// System firmware errors.
const FIRMWARE_ERRORS: [&str; 14] = [
    "Unspecified",
    "No system memory is physically installed in the system",
    "No usable system memory",
    "Unrecoverable hard-disk/ATAPI/IDE device failure",
    "Unrecoverable system-board failure",
    "Unrecoverable diskette subsystem failure",
    "Unrecoverable hard-disk controller failure",
    "Unrecoverable PS/2 or USB keyboard failure",
    "Removable boot media not found",
    "Unrecoverable video controller failure",
    "No video device detected",
    "Firmware (BIOS) ROM corruption detected",
    "CPU voltage mismatch",
    "CPU speed matching failure",
];

/// System firmware progress codes.
const FIRMWARE_STAGES: [&str; 26] = [
    "Unspecified",
    "Memory initialization",
    "Hard-disk initialization",
    "Secondary processor(s) initialization",
    "User authentication",
    "User-initiated system setup",
    "USB resource configuration",
    "PCI resource configuration",
    "Option ROM initialization",
    "Video initialization",
    "Cache initialization",
    "SM Bus initialization",
    "Keyboard controller initialization",
    "Embedded controller/management controller initialization",
    "Docking station attachment",
    "Enabling docking station",
    "Docking station ejection",
    "Disabling docking station",
    "Calling operating system wake-up vector",
    "Starting operating system boot process",
    "Baseboard or motherboard initialization",
    RESERVED,
    "Floppy initialization",
    "Keyboard test",
    "Pointing device test",
    "Primary processor initialization",
];

/// Event directions.
const DIRECTIONS: [&str; 2] = ["deassertion", "assertion"];

/// Kinds of processor numbers.
const PROCESSOR_NUMBERS: [&str; 2] = ["Entity Instance number", "Vendor-specific processor number"];

/// Actions on the auxiliary log.
const LOG_ENTRY_ACTIONS: [&str; 6] = [
    "entry added",
    "entry added because event did not map to standard IPMI event",
    "entry added along with one or more corresponding SEL entries",
    "log cleared",
    "log disabled",
    "log enabled",
];

/// Auxiliary logs.
const LOG_TYPES: [&str; 3] = ["MCA Log", "OEM 1", "OEM 2"];

/// The position of an event in a pair of events.
const OF_PAIR: [&str; 2] = ["first of pair", "second of pair"];

/// Time stamp clocks.
const CLOCKS: [&str; 2] = ["SEL Timestamp Clock updated", "SDR Timestamp Clock updated"];

/// Causes of a restart, as in Get System Restart Cause (section 28.11).
const RESTART_CAUSES: [&str; 12] = [
    "unknown",
    "Chassis Control command",
    "reset via pushbutton",
    "power-up via power pushbutton",
    "Watchdog expiration",
    "OEM",
    "automatic power-up: always restore",
    "automatic power-up: restore previous power state",
    "reset via PEF",
    "power-cycle via PEF",
    "soft reset",
    "power-up via RTC wakeup",
];

/// Kinds of slots and connectors.
const SLOT_TYPES: [&str; 13] = [
    "PCI",
    "Drive Array",
    "External Peripheral Connector",
    "Docking",
    "other standard internal expansion slot",
    "slot associated with entity specified by Entity ID for sensor",
    "AdvancedTCA",
    "DIMM/memory device",
    "FAN",
    "PCI Express",
    "SCSI (parallel)",
    "SATA / SAS",
    "USB",
];

/// Interrupts of the watchdog timer.
const WATCHDOG_INTERRUPTS: [&str; 16] = [
    "none",
    "SMI",
    "NMI",
    "Messaging Interrupt",
    RESERVED,
    RESERVED,
    RESERVED,
    RESERVED,
    RESERVED,
    RESERVED,
    RESERVED,
    RESERVED,
    RESERVED,
    RESERVED,
    RESERVED,
    "unspecified",
];

/// Uses of the watchdog timer.
const WATCHDOG_USES: [&str; 16] = [
    RESERVED,
    "BIOS FRB2",
    "BIOS/POST",
    "OS Load",
    "SMS/OS",
    "OEM",
    RESERVED,
    RESERVED,
    RESERVED,
    RESERVED,
    RESERVED,
    RESERVED,
    RESERVED,
    RESERVED,
    RESERVED,
    "unspecified",
];

/// Whether a FRU device is logical.
const LOGICAL_DEVICES: [&str; 2] = ["not a logical FRU device", "logical FRU device"];

/// User ids that do not identify a user.
const UNSPECIFIED_USER: [&str; 1] = ["unspecified"];

/// Why a session was deactivated.
const SESSION_ENDS: [&str; 4] = [
    "Session deactivated by unspecified cause",
    "Session deactivated by Close Session command",
    "Session deactivated by timeout",
    "Session deactivated by configuration change",
];

/// Version changes.
const VERSION_CHANGES: [&str; 24] = [
    "unspecified",
    "management controller device ID",
    "management controller firmware revision",
    "management controller device revision",
    "management controller manufacturer ID",
    "management controller IPMI version",
    "management controller auxiliary firmware ID",
    "management controller firmware boot block",
    "other management controller firmware",
    "system firmware (EFI / BIOS) change",
    "SMBIOS change",
    "operating system change",
    "operating system loader change",
    "service or diagnostic partition change",
    "management software agent change",
    "management software application change",
    "management software middleware change",
    "programmable hardware change",
    "board/FRU module change",
    "board/FRU component change",
    "board/FRU replaced with equivalent version",
    "board/FRU replaced with newer version",
    "board/FRU replaced with older version",
    "board/FRU hardware configuration change",
];

/// Causes of a FRU state change.
const FRU_STATE_CAUSES: [&str; 16] = [
    "Normal State Change",
    "Change Commanded by software external to FRU",
    "State Change due to operator changing a Handle latch",
    "State Change due to operator pressing the hot swap push button",
    "State Change due to FRU programmatic action",
    "Communication Lost",
    "Communication Lost due to local failure",
    "State Change due to unexpected extraction",
    "State Change due to operator intervention/update",
    "Unable to compute IPMB address",
    "Unexpected Deactivation",
    RESERVED,
    RESERVED,
    RESERVED,
    RESERVED,
    "State Change, Cause Unknown",
];

/// The empty table of a flag or a number.
const NO_WORDS: [&str; 0] = [];

/// A row of the table of fields. The code label is last, if there is one.
macro_rules! field {
    ($type:literal, $first:literal, $last:literal, $bits:ident, $label:literal, $form:ident,
        $words:ident) => {
        field!($type, $first, $last, $bits, $label, $form, $words, "")
    };
    ($type:literal, $first:literal, $last:literal, $bits:ident, $label:literal, $form:ident,
        $words:ident, $code_label:literal) => {
        Field {
            sensor_type: $type,
            first_offset: $first,
            last_offset: $last,
            bits: Bits::$bits,
            label: $label,
            form: Form::$form,
            words: &$words,
            code_label: $code_label,
        }
    };
}

/// The fields of event data 2, by sensor type, first and last offset, and bits.
const SECOND: &[Field] = &[
    field!(
        0x05,
        0x04,
        0x04,
        All,
        "network controller ",
        Decimal,
        NO_WORDS
    ),
    field!(0x0F, 0x00, 0x00, All, "", Words, FIRMWARE_ERRORS),
    field!(0x0F, 0x01, 0x02, All, "", Words, FIRMWARE_STAGES),
    field!(0x10, 0x00, 0x00, All, "memory module ", Decimal, NO_WORDS),
    field!(0x10, 0x01, 0x01, All, "event type ", Hex, NO_WORDS),
    field!(0x10, 0x06, 0x06, All, "processor ", Decimal, NO_WORDS),
    field!(
        0x12,
        0x03,
        0x03,
        From7To4,
        "",
        Words,
        LOG_ENTRY_ACTIONS,
        "log entry action "
    ),
    field!(
        0x12,
        0x03,
        0x03,
        From3To0,
        "",
        Words,
        LOG_TYPES,
        "log type "
    ),
    field!(
        0x12,
        0x04,
        0x04,
        Bit5,
        "Diagnostic Interrupt (NMI)",
        Flag,
        NO_WORDS
    ),
    field!(0x12, 0x04, 0x04, Bit4, "OEM action", Flag, NO_WORDS),
    field!(0x12, 0x04, 0x04, Bit3, "power cycle", Flag, NO_WORDS),
    field!(0x12, 0x04, 0x04, Bit2, "reset", Flag, NO_WORDS),
    field!(0x12, 0x04, 0x04, Bit1, "power off", Flag, NO_WORDS),
    field!(0x12, 0x04, 0x04, Bit0, "Alert", Flag, NO_WORDS),
    field!(0x12, 0x05, 0x05, Bit7, "", Words, OF_PAIR),
    field!(0x12, 0x05, 0x05, From3To0, "", Words, CLOCKS, "clock type "),
    field!(0x19, 0x00, 0x00, All, "requested ", Words, ACPI_STATES),
    field!(0x1D, 0x07, 0x07, From3To0, "cause ", Words, RESTART_CAUSES),
    field!(0x21, 0x00, 0x09, From6To0, "", Words, SLOT_TYPES),
    field!(
        0x23,
        0x00,
        0x08,
        From7To4,
        "interrupt type ",
        Words,
        WATCHDOG_INTERRUPTS,
        "interrupt type "
    ),
    field!(
        0x23,
        0x00,
        0x08,
        From3To0,
        "timer use ",
        Words,
        WATCHDOG_USES,
        "timer use "
    ),
    field!(0x28, 0x00, 0x00, All, "sensor ", Hex, NO_WORDS),
    field!(0x28, 0x04, 0x04, All, "sensor ", Hex, NO_WORDS),
    field!(0x28, 0x05, 0x05, Bit7, "", Words, LOGICAL_DEVICES),
    field!(0x28, 0x05, 0x05, From4To3, "LUN ", Decimal, NO_WORDS),
    field!(
        0x28,
        0x05,
        0x05,
        From2To0,
        "private bus ",
        Decimal,
        NO_WORDS
    ),
    field!(
        0x2A,
        0x00,
        0x03,
        From5To0,
        "user ",
        Decimal,
        UNSPECIFIED_USER
    ),
    field!(0x2B, 0x00, 0x07, All, "", Words, VERSION_CHANGES),
    field!(
        0x2C,
        0x00,
        0x07,
        From7To4,
        "",
        Words,
        FRU_STATE_CAUSES,
        "cause "
    ),
    field!(
        0x2C,
        0x00,
        0x07,
        From3To0,
        "was ",
        Words,
        FRU_STATE,
        "was state "
    ),
];

/// The fields of event data 3, by sensor type, first and last offset, and bits.
const THIRD: &[Field] = &[
    field!(0x08, 0x06, 0x06, From3To0, "", Words, POWER_SUPPLY_ERRORS),
    field!(0x0C, 0x00, 0x0A, All, "memory module ", Decimal, NO_WORDS),
    field!(
        0x10,
        0x01,
        0x01,
        Bit5,
        "all events of the type",
        Flag,
        NO_WORDS
    ),
    field!(0x10, 0x01, 0x01, Bit4, "", Words, DIRECTIONS),
    field!(0x10, 0x01, 0x01, From3To0, "offset ", Decimal, NO_WORDS),
    field!(
        0x10,
        0x05,
        0x05,
        All,
        "SEL filled, percent ",
        Decimal,
        NO_WORDS
    ),
    field!(0x10, 0x06, 0x06, Bit7, "", Words, PROCESSOR_NUMBERS),
    field!(
        0x19,
        0x00,
        0x00,
        All,
        "at the time ",
        Words,
        ACPI_STATES_OR_UNKNOWN
    ),
    field!(0x1D, 0x07, 0x07, All, "channel ", Decimal, NO_WORDS),
    field!(0x21, 0x00, 0x09, All, "slot ", Decimal, NO_WORDS),
    field!(
        0x28,
        0x05,
        0x05,
        All,
        "FRU device ID or address ",
        Hex,
        NO_WORDS
    ),
    field!(0x2A, 0x01, 0x01, From5To4, "", Words, SESSION_ENDS),
    field!(0x2A, 0x00, 0x03, From3To0, "channel ", Decimal, NO_WORDS),
];

/// The fields of event data 2.
fn second_fields() -> &'static [Field]
    ensures { map said_by result.now ≡ fields_of_second }
{
    SECOND
}

/// The fields of event data 3.
fn third_fields() -> &'static [Field]
    ensures { map said_by result.now ≡ fields_of_third }
{
    THIRD
}

/// The fields of a byte of event data.
#[tactic(auto, unfolding(crate::specs::Extensions::fields_of))]
pub(crate) fn fields_of(byte: Byte) -> &'static [Field]
    ensures { map said_by result.now ≡ fields_of byte }
{
    match byte {
        Byte::Two => second_fields(),
        Byte::Three => third_fields(),
    }
}

impl Bits {
    /// The number in these bits of a byte.
    pub(crate) fn of(self, byte: u8) -> u8
        ensures { result ≡ bits_of self byte }
    {
        match self {
            Bits::All => byte,
            Bits::Bit7 => byte >> 7,
            Bits::From7To4 => byte >> 4,
            Bits::From6To0 => byte & 0x7F,
            Bits::From5To0 => byte & 0x3F,
            Bits::From5To4 => byte >> 4 & 0x03,
            Bits::From4To3 => byte >> 3 & 0x03,
            Bits::From3To0 => byte & 0x0F,
            Bits::From2To0 => byte & 0x07,
            Bits::Bit5 => byte >> 5 & 0x01,
            Bits::Bit4 => byte >> 4 & 0x01,
            Bits::Bit3 => byte >> 3 & 0x01,
            Bits::Bit2 => byte >> 2 & 0x01,
            Bits::Bit1 => byte >> 1 & 0x01,
            Bits::Bit0 => byte & 0x01,
        }
    }
}

impl Field {
    /// Whether an event has this field, according to its sensor type and offset.
    pub(crate) fn is_of(&self, event: &EventData) -> bool
        ensures { result ≡ is_of (said_by self.now) event.now }
    {
        self.sensor_type == event.sensor_type
            && self.first_offset <= event.offset
            && event.offset <= self.last_offset
    }

    /// The number in the field's bits of a byte.
    pub(crate) fn value_in(&self, byte: u8) -> u8
        ensures { result ≡ value_in (said_by self.now) byte }
    {
        self.bits.of(byte)
    }
}
