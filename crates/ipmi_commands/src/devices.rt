//! Prints the inventories of all devices, once the sensor data records are in memory.
ghost use Rattle.std.specs.Prelude.{◌≡◌, ◌+◌, ◌*◌, ◌≤◌, length};
ghost use Rattle.ipmi_commands.specs.Below.{AsksAtMost, IsHonest, IsStateOf, records_in, write_faults};
ghost use Rattle.ipmi_commands.specs.Named.{PrintsDevices, PrintsLocated, PrintsLocator};
ghost use Rattle.ipmi_commands.specs.declared.job.NameLookup.{NameLookup};
ghost use Rattle.ipmi_commands.specs.Prelude.{change, EndsNamed, inventory_call_bound, printed, RetriesParts};

use crate::format::Format;
use crate::inventory::locator_piece;
use crate::limits::RequestLimits;
use crate::named::RecordsEnd;
use crate::perform::{print_inventory, write_piece};
use crate::summary::Summary;
use ipmi_bus::Controller;
use ipmi_events::{device_name, split_record};
use ipmi_output::{Failure, Sink};
use ipmi_selection::Detail;
use std::alloc::Global;

/// Prints the inventory of the device that this sensor data record locates. Prints nothing for any
/// other record.
fn print_locator<'a, F: Format, C: Controller, O: Sink>(
    alloc: Global,
    ctl: &mut C,
    limits: RequestLimits,
    format: &F,
    bytes: &[u8],
    out: &mut O,
    summary: &mut Summary,
) -> Result<(), Failure<'a>>
    ensures faults { O.faults out.new ≡ O.faults out.old + write_faults result }
    ensures asked { AsksAtMost limits.part (C.seen ctl.old) (C.seen ctl.new) }
    ensures ends { EndsNamed NameLookup.Devices (C.seen ctl.new) result }
    ensures parts { IsHonest (C.seen ctl.old) → RetriesParts limits.tries (IsStateOf C.seen) (C.seen ctl.new) result }
    ensures calls { (C.seen ctl.new).calls ≤ (C.seen ctl.old).calls + inventory_call_bound limits.tries 65535 }
    ensures honest { IsHonest (C.seen ctl.old) → PrintsLocator (F.texts format.now) limits.tries bytes.now
        (change (C.seen ctl.old) (C.seen ctl.new) (printed (O.taken out.old) summary.old) (printed (O.taken out.new) summary.new)) result }
{
    let piece = locator_piece(alloc, ctl, limits, format, bytes)?;
    write_piece(piece.text.as_slice(), piece.has_fault, out, summary)
}

/// Prints the inventories of the devices that these concatenated sensor data records locate. Then ends
/// as the walk of the records did.
fn print_located<'a, F: Format, C: Controller, O: Sink>(
    alloc: Global,
    ctl: &mut C,
    limits: RequestLimits,
    format: &F,
    records: &[u8],
    walked: RecordsEnd,
    out: &mut O,
    summary: &mut Summary,
) -> Result<(), Failure<'a>>
    ensures faults { O.faults out.new ≡ O.faults out.old + write_faults result }
    ensures asked { AsksAtMost limits.part (C.seen ctl.old) (C.seen ctl.new) }
    ensures ends { EndsNamed NameLookup.Devices (C.seen ctl.new) result }
    ensures parts { IsHonest (C.seen ctl.old) → RetriesParts limits.tries (IsStateOf C.seen) (C.seen ctl.new) result }
    ensures calls { (C.seen ctl.new).calls ≤ (C.seen ctl.old).calls
        + length (records_in records.now) * inventory_call_bound limits.tries 65535 }
    ensures honest { IsHonest (C.seen ctl.old) → PrintsLocated (F.texts format.now) walked limits.tries (records_in records.now)
        (change (C.seen ctl.old) (C.seen ctl.new) (printed (O.taken out.old) summary.old) (printed (O.taken out.new) summary.new)) result }
{
    let mut rest = records;
    'records: while let Some((bytes, after)) = split_record(rest) {
        match print_locator(alloc, ctl, limits, format, bytes, out, summary) {
            Ok(()) => rest = after,
            Err(failure) => return Err(failure),
        }
    }
    walked.listed_end()
}

/// Prints the inventories of all devices: that of device 0 with its name in these concatenated sensor
/// data records, then those of the devices that the records locate. Then ends as the walk of the records did.
pub(crate) fn print_devices<'a, F: Format, C: Controller, O: Sink>(
    alloc: Global,
    ctl: &mut C,
    limits: RequestLimits,
    format: &F,
    records: &[u8],
    walked: RecordsEnd,
    out: &mut O,
    summary: &mut Summary,
) -> Result<(), Failure<'a>>
    ensures faults { O.faults out.new ≡ O.faults out.old + write_faults result }
    ensures asked { AsksAtMost limits.part (C.seen ctl.old) (C.seen ctl.new) }
    ensures ends { EndsNamed NameLookup.Devices (C.seen ctl.new) result }
    ensures parts { IsHonest (C.seen ctl.old) → RetriesParts limits.tries (IsStateOf C.seen) (C.seen ctl.new) result }
    ensures calls { (C.seen ctl.new).calls ≤ (C.seen ctl.old).calls
        + (length (records_in records.now) + 1) * inventory_call_bound limits.tries 65535 }
    ensures honest { IsHonest (C.seen ctl.old) → PrintsDevices (F.texts format.now) walked limits.tries (records_in records.now)
        (change (C.seen ctl.old) (C.seen ctl.new) (printed (O.taken out.old) summary.old) (printed (O.taken out.new) summary.new)) result }
{
    let name = device_name(alloc, records, 0)?;
    print_inventory(
        alloc,
        ctl,
        limits,
        format,
        Detail::Line,
        0,
        name.as_deref(),
        out,
        summary,
    )?;
    print_located(alloc, ctl, limits, format, records, walked, out, summary)
}
