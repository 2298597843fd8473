//! The inventories and readings of an image.
ghost use Rattle.std.specs.Prelude.{◌≡◌};
ghost use Rattle.ipmi_image.specs.Prelude.{sensor_key};

use crate::table::TableItem;
use ipmi_text::Reading;

/// The inventory of a FRU device.
#[derive(Drop)]
pub(crate) struct StoredInventory {
    pub(crate) id: u8,
    pub(crate) bytes: Vec<u8>,
}

impl TableItem for StoredInventory {
    ghost key = { λ inventory. inventory.id };

    fn key(&self) -> u16 {
        u16::from(self.id)
    }
}

/// The reading of a sensor.
#[derive(Drop)]
pub(crate) struct StoredSensor {
    pub(crate) lun: u8,
    pub(crate) number: u8,
    pub(crate) reading: Reading,
}

impl TableItem for StoredSensor {
    ghost key = { λ sensor. sensor_key sensor.lun sensor.number };

    fn key(&self) -> u16 {
        sensor_key(self.lun, self.number)
    }
}

/// The key of a sensor: its LUN in the high byte, its number in the low byte.
pub(crate) fn sensor_key(lun: u8, number: u8) -> u16
    ensures { result ≡ sensor_key lun number }
{
    u16::from_be_bytes([lun, number])
}
