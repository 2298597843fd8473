//! The header of a sensor data record, and the record's length (IPMI v2.0, section 43).
ghost use Rattle.std.specs.Prelude.{◌≡◌, ◌≤◌, length};
ghost use Rattle.ipmi_text.specs.SdrHeader.{sdr_len};

/// The length of a sensor data record's header: record id, version, record type and record length.
pub const SDR_HEADER_LEN: usize = 5;

/// The offset of the record length, which counts the bytes after the header.
const RECORD_LENGTH: usize = 4;

/// The length of a sensor data record in bytes, including its header, computed from the record length in the header.
/// `bytes` begins with the header.
pub fn sdr_len(bytes: &[u8]) -> usize
    requires { 5 ≤ length bytes.now }
    ensures { result ≡ sdr_len bytes.now }
{
    SDR_HEADER_LEN + usize::from(bytes[RECORD_LENGTH])
}
