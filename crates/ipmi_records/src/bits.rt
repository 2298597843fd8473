//! Single bits.
ghost use Rattle.std.specs.Prelude.{◌≡◌, ◌<◌};
ghost use Rattle.ipmi_records.specs.Prelude.{has_bit};

/// Whether a bit of a byte is set. Bit 0 is the lowest.
pub(crate) fn has_bit(byte: u8, bit: u32) -> bool
    requires { bit < 8 }
    ensures { result ≡ has_bit bit byte }
{
    (byte >> bit) & 1 == 1
}
