//! How bad a state or an event is.
//!
//! The standard gives severities to the offsets of types 01h and 07h only. Most of the others are FreeIPMI's defaults for asserted events;
//! docs/DECISIONS.md says which are not.
ghost use Rattle.std.specs.Prelude.{◌≡◌, map};
ghost use Rattle.ipmi_events.specs.Severity.{event_severity, generic_types, sensor_types, severities, severity_at, severity_column, severity_of, severity_word};

use crate::event_lines::OFFSET_BITS;
use crate::words::SENSOR_SPECIFIC;
use ipmi_records::EventEntry;

/// How bad a state or an event is.
#[derive(Clone, Copy, Debug, PartialEq, Eq)]
pub enum Severity {
    /// It is as it should be.
    Nominal,
    /// Someone should look at it.
    Warning,
    /// It needs help now.
    Critical,
}

impl Severity {
    /// Its word.
    pub fn as_str(self) -> &'static str
        ensures { result.now ≡ severity_word self }
    {
        match self {
            Severity::Nominal => "nominal",
            Severity::Warning => "warning",
            Severity::Critical => "critical",
        }
    }
}

/// The column of a severity: its word, or a dash if there is none.
pub(crate) fn severity_column(severity: Option<Severity>) -> &'static str
    ensures { result.now ≡ severity_column severity }
{
    match severity {
        Some(severity) => severity.as_str(),
        None => "-",
    }
}

const NOMINAL: Option<Severity> = Some(Severity::Nominal);

const WARNING: Option<Severity> = Some(Severity::Warning);

const CRITICAL: Option<Severity> = Some(Severity::Critical);

/// An offset that the standard reserves.
const RESERVED: Option<Severity> = None;

/// A type without offsets of its own.
const NONE: [Option<Severity>; 0] = [];

/// Type 01h: thresholds.
const THRESHOLDS: [Option<Severity>; 12] = [
    WARNING, // Lower Non-critical going low
    NOMINAL, // Lower Non-critical going high
    CRITICAL, // Lower Critical going low
    WARNING, // Lower Critical going high
    CRITICAL, // Lower Non-recoverable going low
    CRITICAL, // Lower Non-recoverable going high
    NOMINAL, // Upper Non-critical going low
    WARNING, // Upper Non-critical going high
    WARNING, // Upper Critical going low
    CRITICAL, // Upper Critical going high
    CRITICAL, // Upper Non-recoverable going low
    CRITICAL, // Upper Non-recoverable going high
];

/// Type 02h: usage states.
const USAGE_STATES: [Option<Severity>; 3] = [
    NOMINAL, // Transition to Idle
    NOMINAL, // Transition to Active
    NOMINAL, // Transition to Busy
];

/// Type 03h: digital states.
const DIGITAL_STATES: [Option<Severity>; 2] = [
    NOMINAL, // State Deasserted
    WARNING, // State Asserted
];

/// Type 04h: predictive failure.
const PREDICTIVE_FAILURE: [Option<Severity>; 2] = [
    NOMINAL, // Predictive Failure deasserted
    CRITICAL, // Predictive Failure asserted
];

/// Type 05h: limit exceeded.
const LIMIT: [Option<Severity>; 2] = [
    NOMINAL, // Limit Not Exceeded
    CRITICAL, // Limit Exceeded
];

/// Type 06h: performance.
const PERFORMANCE: [Option<Severity>; 2] = [
    NOMINAL, // Performance Met
    CRITICAL, // Performance Lags
];

/// Type 07h: severities.
const SEVERITIES: [Option<Severity>; 9] = [
    NOMINAL, // transition to OK
    WARNING, // transition to Non-Critical from OK
    CRITICAL, // transition to Critical from less severe
    CRITICAL, // transition to Non-recoverable from less severe
    WARNING, // transition to Non-Critical from more severe
    CRITICAL, // transition to Critical from Non-recoverable
    CRITICAL, // transition to Non-recoverable
    WARNING, // Monitor
    NOMINAL, // Informational
];

/// Type 08h: device presence.
const DEVICE_PRESENCE: [Option<Severity>; 2] = [
    CRITICAL, // Device Removed / Device Absent
    NOMINAL, // Device Inserted / Device Present
];

/// Type 09h: device enabled.
const DEVICE_ENABLED: [Option<Severity>; 2] = [
    WARNING, // Device Disabled
    NOMINAL, // Device Enabled
];

/// Type 0Ah: availability.
const AVAILABILITY: [Option<Severity>; 9] = [
    NOMINAL, // transition to Running
    WARNING, // transition to In Test
    WARNING, // transition to Power Off
    NOMINAL, // transition to On Line
    WARNING, // transition to Off Line
    WARNING, // transition to Off Duty
    CRITICAL, // transition to Degraded
    WARNING, // transition to Power Save
    CRITICAL, // Install Error
];

/// Type 0Bh: redundancy.
const REDUNDANCY: [Option<Severity>; 8] = [
    NOMINAL, // Fully Redundant
    CRITICAL, // Redundancy Lost
    WARNING, // Redundancy Degraded
    CRITICAL, // Non-redundant: Sufficient Resources from Redundant
    CRITICAL, // Non-redundant: Sufficient Resources from Insufficient Resources
    CRITICAL, // Non-redundant: Insufficient Resources
    WARNING, // Redundancy Degraded from Fully Redundant
    WARNING, // Redundancy Degraded from Non-redundant
];

/// Type 0Ch: ACPI device power states.
const DEVICE_POWER_STATES: [Option<Severity>; 4] = [
    NOMINAL, // D0 Power State
    NOMINAL, // D1 Power State
    NOMINAL, // D2 Power State
    NOMINAL, // D3 Power State
];

/// Sensor type 05h: Physical Security (Chassis Intrusion).
const PHYSICAL_SECURITY: [Option<Severity>; 7] = [
    CRITICAL, // General Chassis Intrusion
    CRITICAL, // Drive Bay intrusion
    CRITICAL, // I/O Card area intrusion
    CRITICAL, // Processor area intrusion
    CRITICAL, // LAN Leash Lost (system is unplugged from LAN)
    CRITICAL, // Unauthorized dock
    CRITICAL, // FAN area intrusion
];

/// Sensor type 06h: Platform Security Violation Attempt.
const PLATFORM_SECURITY: [Option<Severity>; 6] = [
    CRITICAL, // Secure Mode (Front Panel Lockout) Violation attempt
    CRITICAL, // Pre-boot Password Violation - user password
    CRITICAL, // Pre-boot Password Violation attempt - setup password
    CRITICAL, // Pre-boot Password Violation - network boot password
    CRITICAL, // Other pre-boot Password Violation
    CRITICAL, // Out-of-band Access Password Violation
];

/// Sensor type 07h: Processor.
const PROCESSOR: [Option<Severity>; 13] = [
    CRITICAL, // IERR
    CRITICAL, // Thermal Trip
    CRITICAL, // FRB1/BIST failure
    CRITICAL, // FRB2/Hang in POST failure
    CRITICAL, // FRB3/Processor Startup/Initialization failure
    CRITICAL, // Configuration Error
    CRITICAL, // SM BIOS Uncorrectable CPU-complex Error
    NOMINAL, // Processor Presence detected
    CRITICAL, // Processor disabled
    NOMINAL, // Terminator Presence Detected
    WARNING, // Processor Automatically Throttled
    CRITICAL, // Machine Check Exception (Uncorrectable)
    WARNING, // Correctable Machine Check Error
];

/// Sensor type 08h: Power Supply.
const POWER_SUPPLY: [Option<Severity>; 8] = [
    NOMINAL, // Presence detected
    CRITICAL, // Power Supply Failure detected
    CRITICAL, // Predictive Failure
    CRITICAL, // Power Supply input lost (AC/DC)
    CRITICAL, // Power Supply input lost or out-of-range
    CRITICAL, // Power Supply input out-of-range, but present
    CRITICAL, // Configuration error
    WARNING, // Power Supply Inactive
];

/// Sensor type 09h: Power Unit.
const POWER_UNIT: [Option<Severity>; 8] = [
    NOMINAL, // Power Off / Power Down
    NOMINAL, // Power Cycle
    WARNING, // 240VA Power Down
    WARNING, // Interlock Power Down
    CRITICAL, // AC lost / Power input lost
    CRITICAL, // Soft Power Control Failure
    CRITICAL, // Power Unit Failure detected
    CRITICAL, // Predictive Failure
];

/// Sensor type 0Ch: Memory.
const MEMORY: [Option<Severity>; 11] = [
    WARNING, // Correctable ECC / other correctable memory error
    CRITICAL, // Uncorrectable ECC / other uncorrectable memory error
    CRITICAL, // Parity
    CRITICAL, // Memory Scrub Failed
    CRITICAL, // Memory Device Disabled
    WARNING, // Correctable ECC / other correctable memory error logging limit reached
    NOMINAL, // Presence detected
    CRITICAL, // Configuration error
    NOMINAL, // Spare
    WARNING, // Memory Automatically Throttled
    CRITICAL, // Critical Overtemperature
];

/// Sensor type 0Dh: Drive Slot (Drive Bay).
const DRIVE_SLOT: [Option<Severity>; 9] = [
    NOMINAL, // Drive Presence
    CRITICAL, // Drive Fault
    CRITICAL, // Predictive Failure
    NOMINAL, // Hot Spare
    NOMINAL, // Consistency Check / Parity Check in progress
    CRITICAL, // In Critical Array
    CRITICAL, // In Failed Array
    NOMINAL, // Rebuild/Remap in progress
    CRITICAL, // Rebuild/Remap Aborted
];

/// Sensor type 0Fh: System Firmware Progress.
const FIRMWARE_PROGRESS: [Option<Severity>; 3] = [
    CRITICAL, // System Firmware Error
    CRITICAL, // System Firmware Hang
    NOMINAL, // System Firmware Progress
];

/// Sensor type 10h: Event Logging Disabled.
const EVENT_LOGGING_DISABLED: [Option<Severity>; 7] = [
    CRITICAL, // Correctable Memory Error Logging Disabled
    CRITICAL, // Event Type Logging Disabled
    NOMINAL, // Log Area Reset/Cleared
    CRITICAL, // All Event Logging Disabled
    CRITICAL, // SEL Full
    WARNING, // SEL Almost Full
    CRITICAL, // Correctable Machine Check Error Logging Disabled
];

/// Sensor type 11h: Watchdog 1.
const WATCHDOG_1: [Option<Severity>; 8] = [
    CRITICAL, // BIOS Watchdog Reset
    CRITICAL, // OS Watchdog Reset
    CRITICAL, // OS Watchdog Shut Down
    CRITICAL, // OS Watchdog Power Down
    CRITICAL, // OS Watchdog Power Cycle
    WARNING, // OS Watchdog NMI / Diagnostic Interrupt
    WARNING, // OS Watchdog Expired, status only
    WARNING, // OS Watchdog pre-timeout Interrupt, non-NMI
];

/// Sensor type 12h: System Event.
const SYSTEM_EVENT: [Option<Severity>; 6] = [
    WARNING, // System Reconfigured
    NOMINAL, // OEM System Boot Event
    CRITICAL, // Undetermined system hardware failure
    NOMINAL, // Entry added to Auxiliary Log
    NOMINAL, // PEF Action
    WARNING, // Timestamp Clock Synch
];

/// Sensor type 13h: Critical Interrupt.
const CRITICAL_INTERRUPT: [Option<Severity>; 12] = [
    CRITICAL, // Front Panel NMI / Diagnostic Interrupt
    CRITICAL, // Bus Timeout
    CRITICAL, // I/O channel check NMI
    WARNING, // Software NMI
    CRITICAL, // PCI PERR
    CRITICAL, // PCI SERR
    CRITICAL, // EISA Fail Safe Timeout
    WARNING, // Bus Correctable Error
    CRITICAL, // Bus Uncorrectable Error
    CRITICAL, // Fatal NMI
    CRITICAL, // Bus Fatal Error
    WARNING, // Bus Degraded
];

/// Sensor type 14h: Button / Switch.
const BUTTON: [Option<Severity>; 5] = [
    NOMINAL, // Power Button pressed
    NOMINAL, // Sleep Button pressed
    NOMINAL, // Reset Button pressed
    WARNING, // FRU latch open
    WARNING, // FRU service request button
];

/// Sensor type 19h: Chip Set.
const CHIP_SET: [Option<Severity>; 2] = [
    CRITICAL, // Soft Power Control Failure
    CRITICAL, // Thermal Trip
];

/// Sensor type 1Bh: Cable / Interconnect.
const CABLE: [Option<Severity>; 2] = [
    NOMINAL, // Cable/Interconnect is connected
    CRITICAL, // Configuration Error - Incorrect cable connected / Incorrect interconnection
];

/// Sensor type 1Dh: System Boot / Restart Initiated.
const BOOT_INITIATED: [Option<Severity>; 8] = [
    NOMINAL, // Initiated by power up
    NOMINAL, // Initiated by hard reset
    NOMINAL, // Initiated by warm reset
    NOMINAL, // User requested PXE boot
    NOMINAL, // Automatic boot to diagnostic
    WARNING, // OS / run-time software initiated hard reset
    WARNING, // OS / run-time software initiated warm reset
    NOMINAL, // System Restart
];

/// Sensor type 1Eh: Boot Error.
const BOOT_ERROR: [Option<Severity>; 5] = [
    CRITICAL, // No bootable media
    CRITICAL, // Non-bootable diskette left in drive
    CRITICAL, // PXE Server not found
    CRITICAL, // Invalid boot sector
    WARNING, // Timeout waiting for user selection of boot source
];

/// Sensor type 1Fh: Base OS Boot / Installation Status.
const OS_BOOT: [Option<Severity>; 11] = [
    NOMINAL, // A: boot completed
    NOMINAL, // C: boot completed
    NOMINAL, // PXE boot completed
    NOMINAL, // Diagnostic boot completed
    NOMINAL, // CD-ROM boot completed
    NOMINAL, // ROM boot completed
    WARNING, // boot completed - boot device not specified
    NOMINAL, // Base OS/Hypervisor Installation started
    NOMINAL, // Base OS/Hypervisor Installation completed
    WARNING, // Base OS/Hypervisor Installation aborted
    CRITICAL, // Base OS/Hypervisor Installation failed
];

/// Sensor type 20h: OS Stop / Shutdown.
const OS_STOP: [Option<Severity>; 6] = [
    CRITICAL, // Critical stop during OS load / initialization
    CRITICAL, // Run-time Critical Stop
    WARNING, // OS Graceful Stop
    WARNING, // OS Graceful Shutdown
    WARNING, // Soft Shutdown initiated by PEF
    CRITICAL, // Agent Not Responding
];

/// Sensor type 21h: Slot / Connector.
const SLOT: [Option<Severity>; 10] = [
    CRITICAL, // Fault Status asserted
    WARNING, // Identify Status asserted
    NOMINAL, // Slot / Connector Device installed/attached
    NOMINAL, // Slot / Connector Ready for Device Installation
    NOMINAL, // Slot / Connector Ready for Device Removal
    NOMINAL, // Slot Power is Off
    WARNING, // Slot / Connector Device Removal Request
    WARNING, // Interlock asserted
    WARNING, // Slot is Disabled
    NOMINAL, // Slot holds spare device
];

/// Sensor type 22h: System ACPI Power State.
const ACPI_POWER_STATE: [Option<Severity>; 15] = [
    NOMINAL, // S0 / G0 working
    NOMINAL, // S1 sleeping with system h/w & processor context maintained
    NOMINAL, // S2 sleeping, processor context lost
    NOMINAL, // S3 sleeping, processor & h/w context lost, memory retained
    NOMINAL, // S4 non-volatile sleep / suspend-to disk
    NOMINAL, // S5 / G2 soft-off
    NOMINAL, // S4 / S5 soft-off, particular S4 / S5 state cannot be determined
    NOMINAL, // G3 / Mechanical Off
    NOMINAL, // Sleeping in an S1, S2, or S3 state
    NOMINAL, // G1 sleeping
    NOMINAL, // S5 entered by override
    NOMINAL, // Legacy ON state
    NOMINAL, // Legacy OFF state
    RESERVED, // reserved
    CRITICAL, // Unknown
];

/// Sensor type 23h: Watchdog 2.
const WATCHDOG_2: [Option<Severity>; 9] = [
    WARNING, // Timer expired, status only
    CRITICAL, // Hard Reset
    CRITICAL, // Power Down
    CRITICAL, // Power Cycle
    RESERVED, // reserved
    RESERVED, // reserved
    RESERVED, // reserved
    RESERVED, // reserved
    WARNING, // Timer interrupt
];

/// Sensor type 24h: Platform Alert.
const PLATFORM_ALERT: [Option<Severity>; 4] = [
    NOMINAL, // platform generated page
    NOMINAL, // platform generated LAN alert
    NOMINAL, // Platform Event Trap generated
    NOMINAL, // platform generated SNMP trap, OEM format
];

/// Sensor type 25h: Entity Presence.
const ENTITY_PRESENCE: [Option<Severity>; 3] = [
    NOMINAL, // Entity Present
    CRITICAL, // Entity Absent
    CRITICAL, // Entity Disabled
];

/// Sensor type 27h: LAN.
const LAN: [Option<Severity>; 2] = [
    WARNING, // LAN Heartbeat Lost
    NOMINAL, // LAN Heartbeat
];

/// Sensor type 28h: Management Subsystem Health.
const SUBSYSTEM_HEALTH: [Option<Severity>; 6] = [
    CRITICAL, // sensor access degraded or unavailable
    CRITICAL, // controller access degraded or unavailable
    CRITICAL, // management controller off-line
    CRITICAL, // management controller unavailable
    CRITICAL, // Sensor failure
    CRITICAL, // FRU failure
];

/// Sensor type 29h: Battery.
const BATTERY: [Option<Severity>; 3] = [
    WARNING, // battery low (predictive failure)
    CRITICAL, // battery failed
    NOMINAL, // battery presence detected
];

/// Sensor type 2Ah: Session Audit.
const SESSION_AUDIT: [Option<Severity>; 4] = [
    NOMINAL, // Session Activated
    NOMINAL, // Session Deactivated
    WARNING, // Invalid Username or Password
    CRITICAL, // Invalid password disable
];

/// Sensor type 2Bh: Version Change.
const VERSION_CHANGE: [Option<Severity>; 8] = [
    WARNING, // Hardware change detected
    WARNING, // Firmware or software change detected
    CRITICAL, // Hardware incompatibility detected
    CRITICAL, // Firmware or software incompatibility detected
    CRITICAL, // Entity is of an invalid or unsupported hardware version
    CRITICAL, // Entity contains an invalid or unsupported firmware or software version
    NOMINAL, // Hardware Change detected was successful
    NOMINAL, // Software or F/W Change detected was successful
];

/// Sensor type 2Ch: FRU State.
const FRU_STATE: [Option<Severity>; 8] = [
    CRITICAL, // FRU Not Installed
    CRITICAL, // FRU Inactive
    WARNING, // FRU Activation Requested
    WARNING, // FRU Activation In Progress
    NOMINAL, // FRU Active
    WARNING, // FRU Deactivation Requested
    WARNING, // FRU Deactivation In Progress
    CRITICAL, // FRU Communication Lost
];

/// The generic types, starting at 01h (IPMI v2.0, table 42-2).
const GENERIC_TYPES: [&[Option<Severity>]; 12] = [
    &THRESHOLDS,
    &USAGE_STATES,
    &DIGITAL_STATES,
    &PREDICTIVE_FAILURE,
    &LIMIT,
    &PERFORMANCE,
    &SEVERITIES,
    &DEVICE_PRESENCE,
    &DEVICE_ENABLED,
    &AVAILABILITY,
    &REDUNDANCY,
    &DEVICE_POWER_STATES,
];

/// The sensor types, starting at 01h (IPMI v2.0, table 42-3).
const SENSOR_TYPES: [&[Option<Severity>]; 44] = [
    &NONE,
    &NONE,
    &NONE,
    &NONE,
    &PHYSICAL_SECURITY,
    &PLATFORM_SECURITY,
    &PROCESSOR,
    &POWER_SUPPLY,
    &POWER_UNIT,
    &NONE,
    &NONE,
    &MEMORY,
    &DRIVE_SLOT,
    &NONE,
    &FIRMWARE_PROGRESS,
    &EVENT_LOGGING_DISABLED,
    &WATCHDOG_1,
    &SYSTEM_EVENT,
    &CRITICAL_INTERRUPT,
    &BUTTON,
    &NONE,
    &NONE,
    &NONE,
    &NONE,
    &CHIP_SET,
    &NONE,
    &CABLE,
    &NONE,
    &BOOT_INITIATED,
    &BOOT_ERROR,
    &OS_BOOT,
    &OS_STOP,
    &SLOT,
    &ACPI_POWER_STATE,
    &WATCHDOG_2,
    &PLATFORM_ALERT,
    &ENTITY_PRESENCE,
    &NONE,
    &LAN,
    &SUBSYSTEM_HEALTH,
    &BATTERY,
    &SESSION_AUDIT,
    &VERSION_CHANGE,
    &FRU_STATE,
];

/// The severity at an offset, by tables that begin with code 1.
fn severity_at(tables: &[&'static [Option<Severity>]], code: u8, offset: u8) -> Option<Severity>
    ensures { result ≡ severity_at (map (λ t. t.now) tables.now) code offset }
{
    let at = usize::from(code).checked_sub(1)?;
    let table = tables.get(at).copied()?;
    table.get(usize::from(offset)).copied()?
}

/// The severity at an offset of a generic type.
fn generic_severity(event_type: u8, offset: u8) -> Option<Severity>
    ensures { result ≡ severity_at (severities generic_types) event_type offset }
{
    severity_at(&GENERIC_TYPES, event_type, offset)
}

/// The severity at an offset of a sensor type.
fn specific_severity(sensor_type: u8, offset: u8) -> Option<Severity>
    ensures { result ≡ severity_at (severities sensor_types) sensor_type offset }
{
    severity_at(&SENSOR_TYPES, sensor_type, offset)
}

/// The severity of a state at this offset: of event/reading type 6Fh by the sensor type, of 01h to 0Ch by itself. None where the standard
/// has no words for the offset.
#[tactic(auto, unfolding(crate::specs::Severity::severity_of))]
pub(crate) fn severity_of(event_type: u8, sensor_type: u8, offset: u8) -> Option<Severity>
    ensures { result ≡ severity_of event_type sensor_type offset }
{
    if event_type == SENSOR_SPECIFIC {
        specific_severity(sensor_type, offset)
    } else {
        generic_severity(event_type, offset)
    }
}

/// The severity of the state that an event reports: nominal if that state was deasserted. None where the standard has no words for it.
pub fn event_severity(event: &EventEntry<'_>) -> Option<Severity>
    ensures { result ≡ event_severity event.now }
{
    let offset = event.data_bytes()[0] & OFFSET_BITS;
    let severity = severity_of(event.event_type(), event.sensor_type(), offset)?;
    Some(if event.is_deasserted() {
        Severity::Nominal
    } else {
        severity
    })
}
