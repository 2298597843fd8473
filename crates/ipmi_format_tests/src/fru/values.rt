//! Reading values from an inventory without printing it: the values before an area's fields, and those of records.
use crate::cases::{assert_text, bytes_of};
use ipmi_fru::{
    AreaFault, AreaKind, AreaView, DcFields, Field, FruView, MultiView, RecordForm, access_text,
    form_of,
};
use ipmi_text::{ENGLISH, fru_text};
use std::alloc::{AllocError, Global};
use std::process::Abort;

/// A chassis, a board of 1996, a product in English, an output, a load, management access and a record of another type.
const MIXED: &str =
    "01000102040500f3010117c24142c1e10102000100008329dca6411201abc10e010119c0c100006401020de80801b0043c003c0078000000710202020d0ee1024a012c01590100000a0014000302033cbc016162c08201a6175a";

/// The values before the fields of each area.
const HEADS: &str = "chassis 23, language 0; board 1, language 0; product, language 25";

/// Three areas, whose fields have texts such as `CPN` and `BMF`, for the area and the field. Each area has one more field.
const NAMED: &str =
    "01000104090000f1010317c343504ec343534ec56578747261c10000000000f0010519010000c3424d46c3425052c342534ec342504ec3424649c56578747261c10000000000001a010519c3504d46c3505052c350504ec3505645c350534ec3504154c3504649c56578747261c1007f";

/// Manufacturer, product name, part number, serial number, version, asset tag and FRU file id of each area.
const NAMES: &str = "- - CPN CSN - - -
BMF BPR BPN BSN - - BFI
PMF PPR PPN PSN PVE PAT PFI
";

/// The values of the records.
const SAID: &str =
    "DcFields { number: 1, standby: false, nominal: Fixed(120000000000000000), low: Fixed(6000000000000000), \
    high: Fixed(6000000000000000), ripple: 120, least_current: 0, greatest_current: 625 }
DcFields { number: 2, standby: false, nominal: Fixed(33000000000000000), low: Fixed(30000000000000000), \
    high: Fixed(34500000000000000), ripple: 0, least_current: 10, greatest_current: 20 }
ab
other
";

fn head_of(alloc: Global, area: &AreaView<'_>) -> Result<String, AllocError> {
    let language = area.language();
    match area.kind() {
        AreaKind::Chassis => {
            let kind = area.chassis_type();
            format!(in alloc; "chassis {kind}, language {language}")
        }
        AreaKind::Board => {
            let minutes = area.minutes();
            format!(in alloc; "board {minutes}, language {language}")
        }
        AreaKind::Product => format!(in alloc; "product, language {language}"),
    }
}

/// The values before the fields of an area without a fault.
fn head(rt: &impl Abort, alloc: Global, area: Option<Result<AreaView<'_>, AreaFault>>) -> String {
    let area = area.expect(rt, "an area").expect(rt, "an area");
    head_of(alloc, &area).expect(rt, "memory")
}

/// The values of a record.
fn said(alloc: Global, record: &MultiView<'_>) -> Result<String, AllocError> {
    match form_of(record) {
        RecordForm::Dc(_) => {
            let fields = DcFields::of(record.bytes);
            format!(in alloc; "{fields:?}")
        }
        RecordForm::Access => access_text(alloc, record.bytes),
        RecordForm::Other => String::from_str(alloc, "other"),
    }
}

/// Appends the text of a field, or a dash if there is none, and then a space or a line feed.
fn push_field(
    alloc: Global,
    text: &mut String,
    field: Option<Field<'_>>,
    end: &str,
) -> Result<(), AllocError> {
    match field {
        Some(field) => text.push_str(&fru_text(alloc, field.code, ENGLISH, field.bytes)?)?,
        None => text.push_str("-")?,
    }
    text.push_str(end)
}

/// Appends the line of an area: its fields by their names.
fn push_named(alloc: Global, text: &mut String, area: &AreaView<'_>) -> Result<(), AllocError> {
    push_field(alloc, text, area.manufacturer(), " ")?;
    push_field(alloc, text, area.product_name(), " ")?;
    push_field(alloc, text, area.part_number(), " ")?;
    push_field(alloc, text, area.serial_number(), " ")?;
    push_field(alloc, text, area.version(), " ")?;
    push_field(alloc, text, area.asset_tag(), " ")?;
    push_field(alloc, text, area.fru_file_id(), "\n")
}

/// The line of an area without a fault.
fn named(rt: &impl Abort, alloc: Global, area: Option<Result<AreaView<'_>, AreaFault>>) -> String {
    let area = area.expect(rt, "an area").expect(rt, "an area");
    let mut text = String::new(alloc);
    push_named(alloc, &mut text, &area).expect(rt, "memory");
    text
}

#[test]
fn fields_have_names(rt: HostRuntime) {
    let alloc = rt.alloc();
    let bytes = bytes_of(&rt, alloc, NAMED);
    let inventory = FruView::read(&bytes).expect(&rt, "an inventory");
    let chassis = named(&rt, alloc, inventory.chassis());
    let board = named(&rt, alloc, inventory.board());
    let product = named(&rt, alloc, inventory.product());
    let names = format!(in alloc; "{chassis}{board}{product}");
    assert_text(&rt, names, NAMES, "fields");
}

#[test]
fn areas_have_their_heads(rt: HostRuntime) {
    let alloc = rt.alloc();
    let bytes = bytes_of(&rt, alloc, MIXED);
    let inventory = FruView::read(&bytes).expect(&rt, "an inventory");
    let chassis = head(&rt, alloc, inventory.chassis());
    let board = head(&rt, alloc, inventory.board());
    let product = head(&rt, alloc, inventory.product());
    let heads = format!(in alloc; "{chassis}; {board}; {product}");
    assert_text(&rt, heads, HEADS, "heads");
}

#[test]
fn records_say_their_fields(rt: HostRuntime) {
    let alloc = rt.alloc();
    let bytes = bytes_of(&rt, alloc, MIXED);
    let inventory = FruView::read(&bytes).expect(&rt, "an inventory");
    let mut text = String::new(alloc);
    for record in inventory.records() {
        let record = record.expect(&rt, "a record");
        let line = said(alloc, &record).expect(&rt, "memory");
        text.push_str(&line).expect(&rt, "memory");
        text.push_str("\n").expect(&rt, "memory");
    }
    assert_text(&rt, Ok(text), SAID, "records");
}
