//! Reports the progress of a capture.

use ipmi_bus::Shelf;

/// Receives each item as it comes, for example to count it.
pub trait Progress {
    /// A record of the shelf was read; if the shelf is read again, its records are counted again.
    fn record(&mut self, shelf: Shelf);

    /// The reading of a sensor was read.
    fn reading(&mut self);

    /// An inventory was read.
    fn inventory(&mut self);
}
