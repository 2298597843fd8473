//! Calls of a controller, and their results as texts.
use ipmi_bus::{Code, Controller, Shelf};
use std::alloc::Global;
use std::process::Abort;

/// A call.
#[derive(Clone, Copy, Debug)]
pub enum Call {
    Reserve(Shelf),
    /// The offset and the number of bytes of record 1234h.
    Part(Shelf, u8, usize),
    Info(Shelf),
    Reading(u8, u8),
    FruSize(u8),
    /// The device and the number of bytes from offset 0102h on.
    FruPart(u8, usize),
}

/// The most bytes that a test asks for.
const ROOM: usize = 32;

/// The id of the next record, then bytes of a record.
fn part<C: Controller>(
    rt: &impl Abort,
    alloc: Global,
    ctl: &mut C,
    shelf: Shelf,
    offset: u8,
    len: usize,
) -> Result<String, Code> {
    let mut room = [0; ROOM];
    let into = room.get_mut(..len.clamp(1, ROOM)).expect(rt, "room");
    let part = ctl.part(shelf, 0x0102, 0x1234, offset, into)?;
    let digits = hex::encode(alloc, &into[..usize::from(part.got)]).expect(rt, "memory");
    Ok(format!(in alloc; "{:04x} {digits}", part.next).expect(rt, "memory"))
}

/// Bytes of an inventory.
fn fru_part<C: Controller>(
    rt: &impl Abort,
    alloc: Global,
    ctl: &mut C,
    id: u8,
    len: usize,
) -> Result<String, Code> {
    let mut room = [0; ROOM];
    let into = room.get_mut(..len.clamp(1, ROOM)).expect(rt, "room");
    let got = ctl.fru_part(id, 0x0102, into)?;
    Ok(hex::encode(alloc, &into[..usize::from(got)]).expect(rt, "memory"))
}

/// Makes the call, and returns its result as a text.
fn answer<C: Controller>(
    rt: &impl Abort,
    alloc: Global,
    ctl: &mut C,
    call: Call,
) -> Result<String, Code> {
    let text = match call {
        Call::Reserve(shelf) => {
            let number = ctl.reserve(shelf)?;
            format!(in alloc; "{number:04x}")
        }
        Call::Part(shelf, offset, len) => return part(rt, alloc, ctl, shelf, offset, len),
        Call::Info(shelf) => {
            let info = ctl.info(shelf)?;
            return Ok(hex::encode(alloc, &info).expect(rt, "memory"));
        }
        Call::Reading(lun, number) => {
            let reading = ctl.reading(lun, number)?;
            let bytes = [reading.raw, reading.flags, reading.status, reading.more];
            return Ok(hex::encode(alloc, &bytes).expect(rt, "memory"));
        }
        Call::FruSize(id) => {
            let size = ctl.fru_size(id)?;
            let unit = if size.words { "words" } else { "bytes" };
            format!(in alloc; "{:04x} by {unit}", size.size)
        }
        Call::FruPart(id, len) => return fru_part(rt, alloc, ctl, id, len),
    };
    Ok(text.expect(rt, "memory"))
}

/// Asserts the result of a call: numbers in hex, or `code` and the code.
pub fn assert_call<C: Controller>(
    rt: &impl Abort,
    alloc: Global,
    ctl: &mut C,
    call: Call,
    wanted: &str,
) {
    let got = match answer(rt, alloc, ctl, call) {
        Ok(text) => text,
        Err(Code(code)) => format!(in alloc; "code {code:02x}").expect(rt, "memory"),
    };
    assert!(rt;
        got.as_str() == wanted,
        "{call:?} gives {got}, not {wanted}"
    );
}
