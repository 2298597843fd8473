//! How much a command prints of each thing that it chooses.

/// How much a command prints of a record, an entry or a device. A form of output may have the same text for several.
#[derive(Clone, Copy, Debug, PartialEq, Eq)]
pub enum Detail {
    /// A line.
    Line,
    /// The longer line of `sdr elist`.
    Long,
    /// A block of lines.
    Block,
}
