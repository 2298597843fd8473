//! Laws of captures: the contract of a function that does nothing.
ghost use Rattle.ipmi_capture.specs.Laws.{CapturesPrintTheSame, CapturesPrintWhatTheyHave};

use ipmi_commands::Format;

/// In any form of output, a command, with filters or without, has the same plan and texts over a capture as over the controller's store, if it
/// asks only for ids on walks and for devices that records name. The capture may lack items that the command does not ask for: `sel list` and
/// `sdr list fru` need no readings, and `fru print 1` needs no other inventory.
pub fn captures_print_the_same<F: Format>(_format: &F)
    ensures all { CapturesPrintTheSame (F.texts _format.now) }
    ensures part { CapturesPrintWhatTheyHave (F.texts _format.now) }
{
    ipmi_bus::laws::one_walk_has_an_end();
    ipmi_bus::laws::what_is_found_is_a_row();
}
