//! Moods at calls for the event log, at calls for absent items, and in sequence.
use super::moods::{assert_answers_after_moods, assert_answers_in_moods};

/// `mood|call|answer`.
const OF_THE_EVENT_LOG: &str = "cancel|reserve sel|code c5
cancel|part sel 0 1 0 1|code c5
cancel|info sel|code c5
busy|reserve sel|code c0
busy|part sel 0 1 0 1|code c0
busy|info sel|code c0
grant 2|part sel 0 1 0 3|ffff 02 0100ee
too_long|part sel 0 1 0 2|code ca
too_long|part sel 0 1 0 1|ffff 01 01
refuse d4|part sel 0 1 0 1|code d4
refuse cb|part sel 0 1 0 1|ffff 01 01
other|part sel 0 1 0 1|code cb
other|info sel|code cb";

#[test]
fn a_call_of_the_event_log_meets_a_mood(rt: HostRuntime) {
    assert_answers_in_moods(&rt, rt.alloc(), OF_THE_EVENT_LOG);
}

/// `mood|call|answer`. The mood decides before the absence of the item.
const ABSENT: &str = "cancel|part sdr 0 3 0 1|code c5
busy|reading 1 1|code c0
too_long|part sdr 0 3 0 2|code ca
too_long|part sdr 0 3 0 1|code cb
too_long|fru_part 1 0 2|code ca
refuse d4|fru_size 1|code d4
refuse cb|fru_size 1|code cb
refuse 0|fru_part 1 0 1|code cb
grant 1|part sdr 0 3 0 8|code cb
other|part sdr 0 2 0 8|code cb";

#[test]
fn a_mood_comes_before_what_is_absent(rt: HostRuntime) {
    assert_answers_in_moods(&rt, rt.alloc(), ABSENT);
}

/// `call|answer`. The image stays changed until the next change.
const CHANGED_TWICE: &str = "reading 0 1|2ec00001
part sdr 0 1 0 6|ffff 05 010051c000ee
info sel|510100000201000000ffffffff00
part sdr 0 1 0 6|0002 06 010051c001aa
reading 0 1|2dc00000";

#[test]
fn a_change_lasts_to_the_next_one(rt: HostRuntime) {
    assert_answers_after_moods(&rt, rt.alloc(), "other, grant fe, saved", CHANGED_TWICE);
}

/// `call|answer`. A failed reservation uses up no number, and the numbers continue after a change.
const NUMBERS: &str = "reserve sdr|code c0
reserve sdr|code c5
reserve sdr|code d4
reserve sdr|0001
reserve sdr|0002
part sdr 2 1 2 1|ffff 01 51
part sdr 1 1 2 1|code c5";

#[test]
fn a_failed_reservation_takes_no_number(rt: HostRuntime) {
    let moods = "busy, cancel, refuse d4, too_long, other";
    assert_answers_after_moods(&rt, rt.alloc(), moods, NUMBERS);
}

/// `call|answer` after the first byte, and with fewer bytes left than granted.
const GRANTED_LATER: &str = "reserve sdr|0001
part sdr 1 1 2 4|0002 02 51c0eeee
part sdr 1 1 5 4|0002 01 aaeeeeee
fru_part 0 3 3|02 c001ee
part sdr 1 1 6 1|code c9
part sdr 2 1 2 1|code c5";

#[test]
fn a_grant_counts_from_the_offset(rt: HostRuntime) {
    let moods = "grant 1, grant 2, grant 2, grant 2, grant 2, grant 2";
    assert_answers_after_moods(&rt, rt.alloc(), moods, GRANTED_LATER);
}
