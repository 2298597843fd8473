//! The fields that only a FRU device locator has (IPMI v2.0, section 43.8). Bytes are counted from 0.
ghost use Rattle.std.specs.Prelude.{◌≡◌, ◌/◌, ◌%◌};
ghost use Rattle.ipmi_records.specs.Bytes.{byte_at, has_bit};
ghost use Rattle.ipmi_records.specs.Prelude.{fru_in};

use crate::bits::has_bit;
use crate::locator::FruLocator;
use crate::sdr::OWN_ADDRESS;

/// The offset of the FRU device id, or of the device's address on the bus.
const DEVICE_ID: usize = 6;

/// The offset of the byte with the logical bit, the LUN and the bus.
const ACCESS: usize = 7;

/// The bit of that byte for "the device is logical".
const LOGICAL: u32 = 7;

/// Bits 4:3 of that byte, shifted down: the LUN.
const LUN_BITS: u8 = 0x03;

impl<'a> FruLocator<'a> {
    /// The FRU device id. For a device that is not logical, its address on the bus.
    pub fn fru_id(&self) -> u8
        ensures { result ≡ byte_at 7 self.now }
    {
        self.bytes[DEVICE_ID]
    }

    /// Whether the device is logical: a management controller answers for it.
    pub fn is_logical(&self) -> bool
        ensures { result ≡ has_bit 7 (byte_at 8 self.now) }
    {
        has_bit(self.bytes[ACCESS], LOGICAL)
    }

    /// The LUN at which the device is reached.
    pub fn lun(&self) -> u8
        ensures { result ≡ byte_at 8 self.now / 8 % 4 }
    {
        self.bytes[ACCESS] >> 3 & LUN_BITS
    }

    /// The FRU device id, if the device is reached through the controller itself: it is logical, at the controller's
    /// address and LUN 0.
    pub(crate) fn fru_of(&self) -> Option<u8>
        ensures { result ≡ fru_in self.now }
    {
        if self.is_logical() && self.locator().address == OWN_ADDRESS && self.lun() == 0 {
            Some(self.fru_id())
        } else {
            None
        }
    }
}
