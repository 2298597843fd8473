//! The replies of a controller over an image.
ghost use Rattle.ipmi_bus.specs.Seen.{IsHonest};
ghost use Rattle.ipmi_image.specs.Controllers.{seen_of};
ghost use Rattle.ipmi_raw.specs.Request.{IsRequest};
ghost use Rattle.ipmi_raw.specs.declared.reply.Reply.TheVariants as reply;
ghost use Rattle.ipmi_raw.specs.declared.request.Request.{Request};
ghost use Rattle.ipmi_raw.specs.declared.request.Request.TheVariants as request;
ghost use Rattle.ipmi_command_tests.specs.Replied.{CanBePrinted, IsReply};
ghost use Rattle.std.specs.Prelude.{◌≡◌, ◌+◌, ◌<◌, ◌≤◌, ◌++◌, List, ℕ, length};

use arrayvec::ArrayVec;
use ipmi_bus::{Code, Controller, LARGEST_PART, Shelf};
use ipmi_image::ImageController;
use ipmi_raw::{InventoryPart, RecordPart, Reply, ReplyBytes, Request};

/// What the controller says of itself: IPMI 2.0, and nothing else (IPMI v2.0, table 20-2).
const DEVICE_ID: [u8; 11] = [0x20, 0x01, 0x01, 0x00, 0x02, 0, 0, 0, 0, 0, 0];

/// The reply to Get Device ID.
fn device_id() -> Reply
    ensures printed { CanBePrinted result }
    ensures data { (bytes : List ℕ) × (result ≡ reply.Data bytes) }
{
    Reply::Data(ReplyBytes::new(&DEVICE_ID))
}

/// The reply to Reserve SDR Repository or Reserve SEL.
fn reserve(ctl: &mut ImageController, shelf: Shelf) -> Reply
    ensures printed { CanBePrinted result }
    ensures honest { IsHonest (seen_of ctl.old) → IsReply (request.Reserve shelf) result (seen_of ctl.old) (seen_of ctl.new) }
{
    match ctl.reserve(shelf) {
        Ok(number) => Reply::Data(ReplyBytes::new(&number.to_le_bytes())),
        Err(Code(code)) => Reply::Refused(code),
    }
}

/// The reply to Get SDR Repository Info or Get SEL Info.
fn info(ctl: &mut ImageController, shelf: Shelf) -> Reply
    ensures printed { CanBePrinted result }
    ensures honest { IsHonest (seen_of ctl.old) → IsReply (request.Info shelf) result (seen_of ctl.old) (seen_of ctl.new) }
{
    match ctl.info(shelf) {
        Ok(info) => Reply::Data(ReplyBytes::new(&info)),
        Err(Code(code)) => Reply::Refused(code),
    }
}

/// The reply to Get Sensor Reading.
fn reading(ctl: &mut ImageController, lun: u8, number: u8) -> Reply
    ensures printed { CanBePrinted result }
    ensures honest { IsHonest (seen_of ctl.old) → IsReply (request.Reading lun number) result (seen_of ctl.old) (seen_of ctl.new) }
{
    match ctl.reading(lun, number) {
        Ok(reading) => Reply::Data(ReplyBytes::new(&[
            reading.raw,
            reading.flags,
            reading.status,
            reading.more,
        ])),
        Err(Code(code)) => Reply::Refused(code),
    }
}

/// The reply to Get FRU Inventory Area Info.
fn inventory_size(ctl: &mut ImageController, id: u8) -> Reply
    ensures printed { CanBePrinted result }
    ensures honest { IsHonest (seen_of ctl.old) → IsReply (request.InventorySize id) result (seen_of ctl.old) (seen_of ctl.new) }
{
    match ctl.fru_size(id) {
        Ok(size) => {
            let [low, high] = size.size.to_le_bytes();
            Reply::Data(ReplyBytes::new(&[low, high, u8::from(size.words)]))
        }
        Err(Code(code)) => Reply::Refused(code),
    }
}

/// Bytes followed by others.
fn joined(front: &[u8], rest: &[u8]) -> ReplyBytes
    requires { length front.now + length rest.now ≤ 255 }
    ensures bytes { result ≡ front.now ++ rest.now }
    ensures printed { CanBePrinted (reply.Data result) }
{
    let mut bytes = ArrayVec::<u8, 255>::new();
    bytes.try_extend_from_slice(front).unwrap();
    bytes.try_extend_from_slice(rest).unwrap();
    ReplyBytes::new(bytes.as_slice())
}

/// The most bytes of a record in a reply. The id of the next record comes before them.
const LARGEST_RECORD_PART: u8 = 253;

/// The reply to Get SDR or Get SEL Entry, when its bytes fit.
fn part_that_fits(ctl: &mut ImageController, part: RecordPart) -> Reply
    requires some { 0 < part.count }
    requires fits { part.count ≤ 253 }
    ensures printed { CanBePrinted result }
    ensures honest { IsHonest (seen_of ctl.old) → IsReply (request.Get part) result (seen_of ctl.old) (seen_of ctl.new) }
{
    let mut room = [0; LARGEST_RECORD_PART as usize];
    let into = &mut room[..usize::from(part.count)];
    match ctl.part(part.shelf, part.reservation, part.id, part.offset, into) {
        Ok(found) => Reply::Data(joined(
            &found.next.to_le_bytes(),
            &into[..usize::from(found.got)],
        )),
        Err(Code(code)) => Reply::Refused(code),
    }
}

/// The reply to Get SDR or Get SEL Entry.
#[tactic(auto, using(crate::proofs::ReadLemmas::reply_least))]
fn part(ctl: &mut ImageController, part: RecordPart) -> Reply
    requires { IsRequest (request.Get part) }
    ensures printed { CanBePrinted result }
    ensures honest { IsHonest (seen_of ctl.old) → IsReply (request.Get part) result (seen_of ctl.old) (seen_of ctl.new) }
{
    let count = part.count.min(LARGEST_RECORD_PART);
    part_that_fits(ctl, RecordPart { count, ..part })
}

/// The reply to Read FRU Data.
fn inventory(ctl: &mut ImageController, part: InventoryPart) -> Reply
    requires { IsRequest (request.ReadInventory part) }
    ensures printed { CanBePrinted result }
    ensures honest { IsHonest (seen_of ctl.old) → IsReply (request.ReadInventory part) result (seen_of ctl.old) (seen_of ctl.new) }
{
    let mut room = [0; LARGEST_PART as usize];
    let into = &mut room[..usize::from(part.count)];
    match ctl.fru_part(part.id, part.offset, into) {
        Ok(got) => Reply::Data(joined(&[got], &into[..usize::from(got)])),
        Err(Code(code)) => Reply::Refused(code),
    }
}

/// The reply to a request.
pub fn answer(ctl: &mut ImageController, request: Request) -> Reply
    requires { IsRequest request }
    ensures printed { CanBePrinted result }
    ensures honest { IsHonest (seen_of ctl.old) → IsReply request result (seen_of ctl.old) (seen_of ctl.new) }
{
    match request {
        Request::DeviceId => device_id(),
        Request::Reserve(shelf) => reserve(ctl, shelf),
        Request::Get(asked) => part(ctl, asked),
        Request::Info(shelf) => info(ctl, shelf),
        Request::InventorySize(id) => inventory_size(ctl, id),
        Request::ReadInventory(asked) => inventory(ctl, asked),
        Request::Reading(lun, number) => reading(ctl, lun, number),
    }
}
