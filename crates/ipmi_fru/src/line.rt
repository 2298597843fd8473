//! The line of a FRU device.
ghost use Rattle.std.specs.Prelude.{◌≡◌, IfOk, option_map, string_bytes};
ghost use Rattle.ipmi_fru.specs.Prelude.{IsFruLine, IsPresentLine, bare_line, elsewhere_line, field_of, identity_in, is_blank, language_of, or_dash, product_or_board, text_of, texts_of};

use crate::area::{AreaFault, AreaView};
use crate::field::Field;
use crate::header::FruView;
use ipmi_text::fru_text;
use std::alloc::{AllocError, Global};

/// The capacity for most lines.
const LINE_CAPACITY: usize = 96;

/// What a line shows of an area. A text is empty if there is no area, no such field, or a fault.
#[derive(Drop)]
struct Identity {
    /// The name of the product.
    name: String,
    /// The part number.
    part_number: String,
    /// The serial number.
    serial: String,
}

/// The text of a field of the area. Empty if there is no field.
fn text_of(alloc: Global, area: &AreaView, field: Option<Field>) -> Result<String, AllocError>
    ensures { IfOk result (λ text. string_bytes text ≡
        text_of (language_of area.now.kind area.now.bytes) (option_map field_of field.entry)) }
{
    match field {
        Some(field) => fru_text(alloc, field.code, area.language(), field.bytes),
        None => Ok(String::new(alloc)),
    }
}

/// What a line shows of a product or a board area.
fn identity_in(
    alloc: Global,
    found: &Option<Result<AreaView, AreaFault>>,
) -> Result<Identity, AllocError>
    ensures { IfOk result (λ identity. texts_of identity ≡ identity_in found.now) }
{
    let Some(Ok(area)) = found else {
        return Ok(Identity {
            name: String::new(alloc),
            part_number: String::new(alloc),
            serial: String::new(alloc),
        });
    };
    Ok(Identity {
        name: text_of(alloc, area, area.product_name())?,
        part_number: text_of(alloc, area, area.part_number())?,
        serial: text_of(alloc, area, area.serial_number())?,
    })
}

/// Whether there is nothing to show.
fn is_blank(identity: &Identity) -> bool
    ensures { result ≡ is_blank (texts_of identity.now) }
{
    identity.name.is_empty() && identity.part_number.is_empty() && identity.serial.is_empty()
}

/// What a line shows of a product area, or of a board area if there is nothing to show of the product area.
fn identity_of(
    alloc: Global,
    product: &Option<Result<AreaView, AreaFault>>,
    board: &Option<Result<AreaView, AreaFault>>,
) -> Result<Identity, AllocError>
    ensures { IfOk result (λ identity. texts_of identity ≡
        product_or_board (identity_in product.now) (identity_in board.now)) }
{
    let identity = identity_in(alloc, product)?;
    if is_blank(&identity) {
        return identity_in(alloc, board);
    }
    Ok(identity)
}

/// The text, or a dash if it is empty.
fn or_dash(text: &str) -> &str
    ensures { result.now ≡ or_dash text.now }
{
    if text.is_empty() { "-" } else { text }
}

/// The line of a device without a readable inventory.
fn bare_line(alloc: Global, id: u8, name: &str, state: &str) -> Result<String, AllocError>
    ensures { IfOk result (λ text. string_bytes text ≡ bare_line id name.now state.now) }
{
    let mut line = String::with_capacity(alloc, LINE_CAPACITY)?;
    write!(line, "{id} | {name} | {state} | - | - | -\n")?;
    Ok(line)
}

/// The line of a device with a readable inventory.
fn present_line(
    alloc: Global,
    id: u8,
    name: &str,
    inventory: &FruView,
) -> Result<String, AllocError>
    ensures { IfOk result (λ text. IsPresentLine id name.now inventory.now (string_bytes text)) }
{
    let found = inventory.product();
    let board = inventory.board();
    let identity = identity_of(alloc, &found, &board)?;
    let product = or_dash(&identity.name);
    let part_number = or_dash(&identity.part_number);
    let serial = or_dash(&identity.serial);
    let mut line = String::with_capacity(alloc, LINE_CAPACITY)?;
    write!(
        line,
        "{id} | {name} | present | {product} | {part_number} | {serial}\n"
    )?;
    Ok(line)
}

/// The line of a FRU device: its id, its name, its state, and the name, part number and serial number of the product,
/// joined by ` | `. The last three are of the product area, or of the board area if the product area has none of them.
/// A dash replaces an empty text. `inventory` holds the bytes of the inventory, and is None if the device is
/// not present. The state is `present`, `not present`, or `faulty` if `print_fru` reports a fault of the header.
pub fn fru_line(
    alloc: Global,
    id: u8,
    name: Option<&str>,
    inventory: Option<&[u8]>,
) -> Result<String, AllocError>
    ensures { IfOk result (λ text. IsFruLine id (option_map (λ name. name.now) name.entry)
        (option_map (λ bytes. bytes.now) inventory.entry) (string_bytes text)) }
{
    let name = or_dash(name.unwrap_or(""));
    let Some(bytes) = inventory else {
        return bare_line(alloc, id, name, "not present");
    };
    match FruView::read(bytes) {
        Ok(inventory) => present_line(alloc, id, name, &inventory),
        Err(_) => bare_line(alloc, id, name, "faulty"),
    }
}

/// The line of a FRU device that is reached elsewhere, and is therefore not read: its name and `elsewhere`. The id
/// and the columns of the product are dashes, and so is an empty name.
pub fn elsewhere_line(alloc: Global, name: &str) -> Result<String, AllocError>
    ensures { IfOk result (λ text. string_bytes text ≡ elsewhere_line name.now) }
{
    let name = or_dash(name);
    let mut line = String::with_capacity(alloc, LINE_CAPACITY)?;
    write!(line, "- | {name} | elsewhere | - | - | -\n")?;
    Ok(line)
}
