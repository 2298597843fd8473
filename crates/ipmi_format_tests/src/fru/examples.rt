//! Inventories that several tests use.

/// A board of three fields.
pub(super) const BOARD: &str = "01000001000000fe0103000100008329dca642123bc441e90042c1000000004d";

/// A DC output.
pub(super) const OUTPUT: &str = "01000000000100fe01820d432d01b0043c003c007800000024f4";
