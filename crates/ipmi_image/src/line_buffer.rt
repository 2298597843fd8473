//! The line of a single record, written without allocation.
ghost use Rattle.std.specs.Prelude.{◌≡◌, ◌+◌, ◌*◌, ◌++◌, ◌≤◌, ◌∷◌, [], codes, length};
ghost use Rattle.hex.specs.Hex.{encode_lower};
ghost use Rattle.ipmi_image.specs.Below.{row_of_record};
ghost use Rattle.ipmi_image.specs.Prelude.{hex_of, record_line_of};

use arrayvec::ArrayVec;
use ipmi_bus::Record;

/// A buffer for the line of a record. The longest line has a word, two ids of four digits, 256 bytes in hex, three
/// spaces and a line feed.
pub type LineBuffer = ArrayVec<u8, 527>;

/// Appends bytes that fit.
fn push(line: &mut LineBuffer, bytes: &[u8])
    requires { length line.old.items + length bytes.now ≤ 527 }
    ensures items { line.new.items ≡ line.old.items ++ bytes.now }
    ensures len { length line.new.items ≡ length line.old.items + length bytes.now }
{
    line.try_extend_from_slice(bytes).unwrap();
}

/// The digits of an id.
#[inline(always)]
fn id_digits(id: u16) -> [u8; 4]
    ensures { result ≡ hex_of 2 id }
{
    let mut digits = [0; 4];
    hex::encode_to_slice(&id.to_be_bytes(), &mut digits).unwrap();
    digits
}

/// Appends `sdr ID NEXT `.
fn push_head(line: &mut LineBuffer, id: u16, next: u16)
    requires { length line.old.items + 14 ≤ 527 }
    ensures items { line.new.items ≡ line.old.items ++ (codes "sdr " ++ (hex_of 2 id ++ 32 ∷ (hex_of 2 next ++ 32 ∷ []))) }
    ensures len { length line.new.items ≡ length line.old.items + 14 }
{
    let [a, b, c, d] = id_digits(id);
    let [e, f, g, h] = id_digits(next);
    push(
        line,
        &[b's', b'd', b'r', b' ', a, b, c, d, b' ', e, f, g, h, b' '],
    );
}

/// Appends bytes in hex, by way of a buffer of N digits.
#[inline(always)]
fn push_digits<const N: usize>(line: &mut LineBuffer, bytes: &[u8])
    requires digits { (2 * length bytes.now ≤ N) × (N ≤ 512) }
    requires fits { length line.old.items + 2 * length bytes.now ≤ 527 }
    ensures items { line.new.items ≡ line.old.items ++ encode_lower bytes.now }
    ensures len { length line.new.items ≡ length line.old.items + 2 * length bytes.now }
{
    let mut digits = [0; N];
    let digits = &mut digits[..2 * bytes.len()];
    hex::encode_to_slice(bytes, digits).unwrap();
    push(line, digits);
}

/// Appends the bytes of a record in hex. Most records are short, and a short buffer costs less to clear.
fn push_hex(line: &mut LineBuffer, bytes: &[u8])
    requires record { length bytes.now ≤ 256 }
    requires fits { length line.old.items + 2 * length bytes.now ≤ 527 }
    ensures items { line.new.items ≡ line.old.items ++ encode_lower bytes.now }
    ensures len { length line.new.items ≡ length line.old.items + 2 * length bytes.now }
{
    if bytes.len() <= 64 {
        push_digits::<128>(line, bytes)
    } else {
        push_digits::<512>(line, bytes)
    }
}

/// Overwrites `line` with the line of a record as in an image of version 1: `sdr ID NEXT HEX` and a line feed, ids in
/// four hex digits, all hex in lower case. NEXT is never a dash, so the line is complete by itself. The line of a
/// record of at most 256 bytes fits, and nothing is allocated.
pub fn record_line(lent: &Record<'_>, line: &mut LineBuffer)
    requires { length lent.now.bytes.now ≤ 256 }
    ensures { line.new.items ≡ record_line_of (row_of_record lent.now) }
{
    line.clear();
    push_head(line, lent.id, lent.next);
    push_hex(line, lent.bytes);
    push(line, b"\n");
}
