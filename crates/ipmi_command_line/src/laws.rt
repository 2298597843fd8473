//! Laws of command lines. Each law is the contract of a function that does nothing.
ghost use Rattle.ipmi_command_line.specs.Laws.{CommandsAreRequests};

/// A line that the reference program takes is the same request of `serdimko`.
pub fn a_command_is_a_request()
    ensures { CommandsAreRequests }
{}
