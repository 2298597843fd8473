//! The words of sensor-specific events (IPMI v2.0, table 42-3).
ghost use Rattle.std.specs.Prelude.{◌≡◌, drop, map, option_map, take};
ghost use Rattle.ipmi_events.specs.Specific.{specific_tables, specific_words};
ghost use Rattle.ipmi_events.specs.Table.{table_from_one};

use crate::table::{RESERVED, table_from_one, words_at};

/// A sensor type without sensor-specific offsets.
const NO_WORDS: [&str; 0] = [];

/// Sensor type 05h: Physical Security (Chassis Intrusion).
const PHYSICAL_SECURITY: [&str; 7] = [
    "General Chassis Intrusion",
    "Drive Bay intrusion",
    "I/O Card area intrusion",
    "Processor area intrusion",
    "LAN Leash Lost (system is unplugged from LAN)",
    "Unauthorized dock",
    "FAN area intrusion",
];

/// Sensor type 06h: Platform Security Violation Attempt.
const PLATFORM_SECURITY: [&str; 6] = [
    "Secure Mode (Front Panel Lockout) Violation attempt",
    "Pre-boot Password Violation - user password",
    "Pre-boot Password Violation attempt - setup password",
    "Pre-boot Password Violation - network boot password",
    "Other pre-boot Password Violation",
    "Out-of-band Access Password Violation",
];

/// Sensor type 07h: Processor.
const PROCESSOR: [&str; 13] = [
    "IERR",
    "Thermal Trip",
    "FRB1/BIST failure",
    "FRB2/Hang in POST failure",
    "FRB3/Processor Startup/Initialization failure",
    "Configuration Error",
    "SM BIOS Uncorrectable CPU-complex Error",
    "Processor Presence detected",
    "Processor disabled",
    "Terminator Presence Detected",
    "Processor Automatically Throttled",
    "Machine Check Exception (Uncorrectable)",
    "Correctable Machine Check Error",
];

/// Sensor type 08h: Power Supply.
const POWER_SUPPLY: [&str; 8] = [
    "Presence detected",
    "Power Supply Failure detected",
    "Predictive Failure",
    "Power Supply input lost (AC/DC)",
    "Power Supply input lost or out-of-range",
    "Power Supply input out-of-range, but present",
    "Configuration error",
    "Power Supply Inactive",
];

/// Sensor type 09h: Power Unit.
const POWER_UNIT: [&str; 8] = [
    "Power Off / Power Down",
    "Power Cycle",
    "240VA Power Down",
    "Interlock Power Down",
    "AC lost / Power input lost",
    "Soft Power Control Failure",
    "Power Unit Failure detected",
    "Predictive Failure",
];

/// Sensor type 0Ch: Memory.
const MEMORY: [&str; 11] = [
    "Correctable ECC / other correctable memory error",
    "Uncorrectable ECC / other uncorrectable memory error",
    "Parity",
    "Memory Scrub Failed",
    "Memory Device Disabled",
    "Correctable ECC / other correctable memory error logging limit reached",
    "Presence detected",
    "Configuration error",
    "Spare",
    "Memory Automatically Throttled",
    "Critical Overtemperature",
];

/// Sensor type 0Dh: Drive Slot (Drive Bay).
const DRIVE_SLOT: [&str; 9] = [
    "Drive Presence",
    "Drive Fault",
    "Predictive Failure",
    "Hot Spare",
    "Consistency Check / Parity Check in progress",
    "In Critical Array",
    "In Failed Array",
    "Rebuild/Remap in progress",
    "Rebuild/Remap Aborted",
];

/// Sensor type 0Fh: System Firmware Progress.
const FIRMWARE_PROGRESS: [&str; 3] = [
    "System Firmware Error",
    "System Firmware Hang",
    "System Firmware Progress",
];

/// Sensor type 10h: Event Logging Disabled.
const EVENT_LOGGING_DISABLED: [&str; 7] = [
    "Correctable Memory Error Logging Disabled",
    "Event Type Logging Disabled",
    "Log Area Reset/Cleared",
    "All Event Logging Disabled",
    "SEL Full",
    "SEL Almost Full",
    "Correctable Machine Check Error Logging Disabled",
];

/// Sensor type 11h: Watchdog 1.
const WATCHDOG_1: [&str; 8] = [
    "BIOS Watchdog Reset",
    "OS Watchdog Reset",
    "OS Watchdog Shut Down",
    "OS Watchdog Power Down",
    "OS Watchdog Power Cycle",
    "OS Watchdog NMI / Diagnostic Interrupt",
    "OS Watchdog Expired, status only",
    "OS Watchdog pre-timeout Interrupt, non-NMI",
];

/// Sensor type 12h: System Event.
const SYSTEM_EVENT: [&str; 6] = [
    "System Reconfigured",
    "OEM System Boot Event",
    "Undetermined system hardware failure",
    "Entry added to Auxiliary Log",
    "PEF Action",
    "Timestamp Clock Synch",
];

/// Sensor type 13h: Critical Interrupt.
const CRITICAL_INTERRUPT: [&str; 12] = [
    "Front Panel NMI / Diagnostic Interrupt",
    "Bus Timeout",
    "I/O channel check NMI",
    "Software NMI",
    "PCI PERR",
    "PCI SERR",
    "EISA Fail Safe Timeout",
    "Bus Correctable Error",
    "Bus Uncorrectable Error",
    "Fatal NMI",
    "Bus Fatal Error",
    "Bus Degraded",
];

/// Sensor type 14h: Button / Switch.
const BUTTON: [&str; 5] = [
    "Power Button pressed",
    "Sleep Button pressed",
    "Reset Button pressed",
    "FRU latch open",
    "FRU service request button",
];

/// Sensor type 19h: Chip Set.
const CHIP_SET: [&str; 2] = ["Soft Power Control Failure", "Thermal Trip"];

/// Sensor type 1Bh: Cable / Interconnect.
const CABLE: [&str; 2] = [
    "Cable/Interconnect is connected",
    "Configuration Error - Incorrect cable connected / Incorrect interconnection",
];

/// Sensor type 1Dh: System Boot / Restart Initiated.
const BOOT_INITIATED: [&str; 8] = [
    "Initiated by power up",
    "Initiated by hard reset",
    "Initiated by warm reset",
    "User requested PXE boot",
    "Automatic boot to diagnostic",
    "OS / run-time software initiated hard reset",
    "OS / run-time software initiated warm reset",
    "System Restart",
];

/// Sensor type 1Eh: Boot Error.
const BOOT_ERROR: [&str; 5] = [
    "No bootable media",
    "Non-bootable diskette left in drive",
    "PXE Server not found",
    "Invalid boot sector",
    "Timeout waiting for user selection of boot source",
];

/// Sensor type 1Fh: Base OS Boot / Installation Status.
const OS_BOOT: [&str; 11] = [
    "A: boot completed",
    "C: boot completed",
    "PXE boot completed",
    "Diagnostic boot completed",
    "CD-ROM boot completed",
    "ROM boot completed",
    "boot completed - boot device not specified",
    "Base OS/Hypervisor Installation started",
    "Base OS/Hypervisor Installation completed",
    "Base OS/Hypervisor Installation aborted",
    "Base OS/Hypervisor Installation failed",
];

/// Sensor type 20h: OS Stop / Shutdown.
const OS_STOP: [&str; 6] = [
    "Critical stop during OS load / initialization",
    "Run-time Critical Stop",
    "OS Graceful Stop",
    "OS Graceful Shutdown",
    "Soft Shutdown initiated by PEF",
    "Agent Not Responding",
];

/// Sensor type 21h: Slot / Connector.
const SLOT: [&str; 10] = [
    "Fault Status asserted",
    "Identify Status asserted",
    "Slot / Connector Device installed/attached",
    "Slot / Connector Ready for Device Installation",
    "Slot / Connector Ready for Device Removal",
    "Slot Power is Off",
    "Slot / Connector Device Removal Request",
    "Interlock asserted",
    "Slot is Disabled",
    "Slot holds spare device",
];

/// A table of the System ACPI power states, followed by the given items.
macro_rules! acpi_states {
    ($($more:expr),*) => {
        [
            "S0 / G0 working",
            "S1 sleeping with system h/w & processor context maintained",
            "S2 sleeping, processor context lost",
            "S3 sleeping, processor & h/w context lost, memory retained",
            "S4 non-volatile sleep / suspend-to disk",
            "S5 / G2 soft-off",
            "S4 / S5 soft-off, particular S4 / S5 state cannot be determined",
            "G3 / Mechanical Off",
            "Sleeping in an S1, S2, or S3 state",
            "G1 sleeping",
            "S5 entered by override",
            "Legacy ON state",
            "Legacy OFF state",
            $($more),*
        ]
    };
}

/// System ACPI power states.
pub(crate) const ACPI_STATES: [&str; 13] = acpi_states!();

/// System ACPI power states, or unknown: the state when another state was requested.
pub(crate) const ACPI_STATES_OR_UNKNOWN: [&str; 14] = acpi_states!("unknown");

/// Sensor type 22h: System ACPI Power State.
const ACPI_POWER_STATE: [&str; 15] = acpi_states!(RESERVED, "Unknown");

/// Sensor type 23h: Watchdog 2.
const WATCHDOG_2: [&str; 9] = [
    "Timer expired, status only",
    "Hard Reset",
    "Power Down",
    "Power Cycle",
    RESERVED,
    RESERVED,
    RESERVED,
    RESERVED,
    "Timer interrupt",
];

/// Sensor type 24h: Platform Alert.
const PLATFORM_ALERT: [&str; 4] = [
    "platform generated page",
    "platform generated LAN alert",
    "Platform Event Trap generated",
    "platform generated SNMP trap, OEM format",
];

/// Sensor type 25h: Entity Presence.
const ENTITY_PRESENCE: [&str; 3] = ["Entity Present", "Entity Absent", "Entity Disabled"];

/// Sensor type 27h: LAN.
const LAN: [&str; 2] = ["LAN Heartbeat Lost", "LAN Heartbeat"];

/// Sensor type 28h: Management Subsystem Health.
const SUBSYSTEM_HEALTH: [&str; 6] = [
    "sensor access degraded or unavailable",
    "controller access degraded or unavailable",
    "management controller off-line",
    "management controller unavailable",
    "Sensor failure",
    "FRU failure",
];

/// Sensor type 29h: Battery.
const BATTERY: [&str; 3] = [
    "battery low (predictive failure)",
    "battery failed",
    "battery presence detected",
];

/// Sensor type 2Ah: Session Audit.
const SESSION_AUDIT: [&str; 4] = [
    "Session Activated",
    "Session Deactivated",
    "Invalid Username or Password",
    "Invalid password disable",
];

/// Sensor type 2Bh: Version Change.
const VERSION_CHANGE: [&str; 8] = [
    "Hardware change detected",
    "Firmware or software change detected",
    "Hardware incompatibility detected",
    "Firmware or software incompatibility detected",
    "Entity is of an invalid or unsupported hardware version",
    "Entity contains an invalid or unsupported firmware or software version",
    "Hardware Change detected was successful",
    "Software or F/W Change detected was successful",
];

/// Sensor type 2Ch: FRU State.
pub(crate) const FRU_STATE: [&str; 8] = [
    "FRU Not Installed",
    "FRU Inactive",
    "FRU Activation Requested",
    "FRU Activation In Progress",
    "FRU Active",
    "FRU Deactivation Requested",
    "FRU Deactivation In Progress",
    "FRU Communication Lost",
];

/// The tables of sensor types 01h to 0Fh.
const FROM_01: [&[&str]; 15] = [
    &NO_WORDS,
    &NO_WORDS,
    &NO_WORDS,
    &NO_WORDS,
    &PHYSICAL_SECURITY,
    &PLATFORM_SECURITY,
    &PROCESSOR,
    &POWER_SUPPLY,
    &POWER_UNIT,
    &NO_WORDS,
    &NO_WORDS,
    &MEMORY,
    &DRIVE_SLOT,
    &NO_WORDS,
    &FIRMWARE_PROGRESS,
];

/// The tables of sensor types 10h to 1Fh.
const FROM_10: [&[&str]; 16] = [
    &EVENT_LOGGING_DISABLED,
    &WATCHDOG_1,
    &SYSTEM_EVENT,
    &CRITICAL_INTERRUPT,
    &BUTTON,
    &NO_WORDS,
    &NO_WORDS,
    &NO_WORDS,
    &NO_WORDS,
    &CHIP_SET,
    &NO_WORDS,
    &CABLE,
    &NO_WORDS,
    &BOOT_INITIATED,
    &BOOT_ERROR,
    &OS_BOOT,
];

/// The tables of sensor types 20h to 2Ch.
const FROM_20: [&[&str]; 13] = [
    &OS_STOP,
    &SLOT,
    &ACPI_POWER_STATE,
    &WATCHDOG_2,
    &PLATFORM_ALERT,
    &ENTITY_PRESENCE,
    &NO_WORDS,
    &LAN,
    &SUBSYSTEM_HEALTH,
    &BATTERY,
    &SESSION_AUDIT,
    &VERSION_CHANGE,
    &FRU_STATE,
];

/// The tables of sensor types 01h to 0Fh.
fn tables_from_01() -> &'static [&'static [&'static str]]
    ensures { map (λ t. map (λ s. s.now) t.now) result.now ≡ take 15 specific_tables }
{
    &FROM_01
}

/// The tables of sensor types 10h to 1Fh.
fn tables_from_10() -> &'static [&'static [&'static str]]
    ensures { map (λ t. map (λ s. s.now) t.now) result.now ≡ take 16 (drop 15 specific_tables) }
{
    &FROM_10
}

/// The tables of sensor types 20h to 2Ch.
fn tables_from_20() -> &'static [&'static [&'static str]]
    ensures { map (λ t. map (λ s. s.now) t.now) result.now ≡ drop 31 specific_tables }
{
    &FROM_20
}

/// The table of a sensor type.
fn specific_table(sensor_type: u8) -> &'static [&'static str]
    ensures { map (λ s. s.now) result.now ≡ table_from_one specific_tables sensor_type }
{
    if sensor_type < 0x10 {
        table_from_one(tables_from_01(), sensor_type)
    } else if sensor_type < 0x20 {
        table_from_one(tables_from_10(), sensor_type - 0x0F)
    } else {
        table_from_one(tables_from_20(), sensor_type - 0x1F)
    }
}

/// The words of a sensor type at a sensor-specific offset.
pub(crate) fn specific_words(sensor_type: u8, offset: u8) -> Option<&'static str>
    ensures { option_map (λ s. s.now) result ≡ specific_words sensor_type offset }
{
    words_at(specific_table(sensor_type), offset)
}
