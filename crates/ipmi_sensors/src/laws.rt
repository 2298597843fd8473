//! A law of the blocks of found sensors. It is the contract of a function that does nothing.
ghost use Rattle.ipmi_sensors.specs.Sensors.{BlocksAreOfListing};

use ipmi_commands::Format;

/// What is printed of the sensors that one search for several names found along a walk is, for each of the names, what a
/// listing of this name prints of the walk. If nothing is counted, that listing fails as no record has the name.
pub fn blocks_are_of_a_listing<F: Format>(_format: &F)
    ensures { BlocksAreOfListing (F.texts _format.now) }
{}
