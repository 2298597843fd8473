//! The effect of each mood on each call of a scripted controller.
use super::calls::{LineWords, assert_answer_of_case, assert_answers};
use super::images::{ANSWERS, OTHER, SAVED, image};
use crate::cases::parts;
use ipmi_bus::Code;
use ipmi_image::{Mood, Scripted};
use std::alloc::{AllocError, Global};
use std::process::Abort;

fn grant(rt: &impl Abort, words: &mut LineWords) -> Mood {
    Mood::Grant(words.next_byte(rt))
}

fn refuse(rt: &impl Abort, words: &mut LineWords) -> Mood {
    Mood::Refuse(Code(words.next_byte(rt)))
}

fn change(rt: &impl Abort, alloc: Global, text: &str) -> Mood {
    Mood::Change(image(rt, alloc, text))
}

fn append(rt: &impl Abort, alloc: Global, name: &str) -> Mood {
    let text = match name {
        "longer" => LONGER,
        "other" => OTHER,
        "same_log" => SAME_LOG,
        _ => SAVED,
    };
    Mood::Append(image(rt, alloc, text))
}

/// The mood of these words: `grant` with the most bytes, `refuse` with a code, `cancel`, `busy` or `too_long`, and
/// `saved` or `other` for a change to that image; `append` and `saved`, `longer`, `other` or `same_log` for that image appended.
fn mood(rt: &impl Abort, alloc: Global, text: &str) -> Mood {
    let mut words = LineWords::of(text);
    match words.next(rt) {
        "grant" => grant(rt, &mut words),
        "refuse" => refuse(rt, &mut words),
        "cancel" => Mood::Cancel,
        "busy" => Mood::Busy,
        "too_long" => Mood::TooLong,
        "saved" => change(rt, alloc, SAVED),
        "other" => change(rt, alloc, OTHER),
        "append" => append(rt, alloc, words.next(rt)),
        _ => panic!(rt; "{text} is no mood"),
    }
}

/// A controller over `SAVED`. Its first calls have these moods.
fn scripted(rt: &impl Abort, alloc: Global, moods: &str) -> Scripted {
    let mut list = Vec::new(alloc);
    for text in moods.split(", ") {
        list.push(mood(rt, alloc, text)).ok().expect(rt, "memory");
    }
    Scripted::new(image(rt, alloc, SAVED), list)
}

/// Asserts the answer to a call with a mood: `mood|call|answer`.
fn assert_answer_in_mood(rt: &impl Abort, alloc: Global, line: &str) {
    let (mood, rest) = parts(rt, line);
    let mut ctl = scripted(rt, alloc, mood);
    assert_answer_of_case(rt, &mut ctl, rest, line);
    drop(ctl);
}

/// The same for each line.
pub fn assert_answers_in_moods(rt: &impl Abort, alloc: Global, lines: &str) {
    for line in lines.lines() {
        assert_answer_in_mood(rt, alloc, line);
    }
}

/// Asserts the answers to the calls of these lines. The first calls have these moods.
pub fn assert_answers_after_moods(rt: &impl Abort, alloc: Global, moods: &str, lines: &str) {
    let mut ctl = scripted(rt, alloc, moods);
    assert_answers(rt, &mut ctl, lines);
    drop(ctl);
}

/// `mood|call|answer`.
const FAILED: &str = "cancel|reserve sdr|code c5
cancel|part sdr 0 1 0 8|code c5
cancel|info sdr|code c5
cancel|reading 0 1|code c5
cancel|fru_size 0|code c5
cancel|fru_part 0 0 8|code c5
busy|reserve sdr|code c0
busy|part sdr 0 1 0 8|code c0
busy|info sdr|code c0
busy|reading 0 1|code c0
busy|fru_size 0|code c0
busy|fru_part 0 0 8|code c0";

#[test]
fn a_cancelled_or_busy_call_is_answered_by_its_code(rt: HostRuntime) {
    assert_answers_in_moods(&rt, rt.alloc(), FAILED);
}

/// `mood|call|answer`. If no byte is granted, one byte is returned nevertheless.
const GRANTED: &str = "grant 0|reserve sdr|0001
grant 0|part sdr 0 1 0 8|0002 01 01eeeeeeeeeeeeee
grant 0|info sdr|510300000401000020ffffffff02
grant 0|reading 0 1|2dc00000
grant 0|fru_size 0|0006 00
grant 0|fru_part 0 0 8|01 01eeeeeeeeeeeeee
grant 1|reserve sdr|0001
grant 1|part sdr 0 1 0 8|0002 01 01eeeeeeeeeeeeee
grant 1|info sdr|510300000401000020ffffffff02
grant 1|reading 0 1|2dc00000
grant 1|fru_size 0|0006 00
grant 1|fru_part 0 0 8|01 01eeeeeeeeeeeeee
grant 2|reserve sdr|0001
grant 2|part sdr 0 1 0 8|0002 02 0100eeeeeeeeeeee
grant 2|info sdr|510300000401000020ffffffff02
grant 2|reading 0 1|2dc00000
grant 2|fru_size 0|0006 00
grant 2|fru_part 0 0 8|02 0100eeeeeeeeeeee
grant 5|reserve sdr|0001
grant 5|part sdr 0 1 0 8|0002 05 010051c001eeeeee
grant 5|info sdr|510300000401000020ffffffff02
grant 5|reading 0 1|2dc00000
grant 5|fru_size 0|0006 00
grant 5|fru_part 0 0 8|05 010051c001eeeeee
grant 6|reserve sdr|0001
grant 6|part sdr 0 1 0 8|0002 06 010051c001aaeeee
grant 6|info sdr|510300000401000020ffffffff02
grant 6|reading 0 1|2dc00000
grant 6|fru_size 0|0006 00
grant 6|fru_part 0 0 8|06 010051c001aaeeee
grant fe|reserve sdr|0001
grant fe|part sdr 0 1 0 8|0002 06 010051c001aaeeee
grant fe|info sdr|510300000401000020ffffffff02
grant fe|reading 0 1|2dc00000
grant fe|fru_size 0|0006 00
grant fe|fru_part 0 0 8|06 010051c001aaeeee";

#[test]
fn a_grant_limits_only_bytes(rt: HostRuntime) {
    assert_answers_in_moods(&rt, rt.alloc(), GRANTED);
}

/// `mood|call|answer`.
const TOO_LONG: &str = "too_long|reserve sdr|0001
too_long|part sdr 0 1 0 8|code ca
too_long|info sdr|510300000401000020ffffffff02
too_long|reading 0 1|2dc00000
too_long|fru_size 0|0006 00
too_long|fru_part 0 0 8|code ca";

/// `call|answer` of three calls, each in this mood.
const TOO_LONG_PARTS: &str = "part sdr 0 2 0 1|ffff 01 02
fru_part 0 4 1|01 01
fru_part 0 4 2|code ca";

#[test]
fn more_than_a_byte_may_be_too_long(rt: HostRuntime) {
    assert_answers_in_moods(&rt, rt.alloc(), TOO_LONG);
    assert_answers_after_moods(
        &rt,
        rt.alloc(),
        "too_long, too_long, too_long",
        TOO_LONG_PARTS,
    );
}

/// `mood|call|answer`.
const CHANGED: &str = "other|reserve sdr|0001
other|part sdr 0 1 0 8|ffff 05 010051c000eeeeee
other|info sdr|510100000501000020ffffffff02
other|reading 0 1|2ec00001
other|fru_size 0|0002 00
other|fru_part 0 0 8|02 0a0beeeeeeeeeeee";

#[test]
fn a_changed_image_answers_the_same_call(rt: HostRuntime) {
    assert_answers_in_moods(&rt, rt.alloc(), CHANGED);
}

/// Whether a caller can neither repeat the request nor continue after the code.
fn is_refusal(code: u8) -> bool {
    ![0x00, 0xC0, 0xC3, 0xC5, 0x81, 0xC7, 0xC8, 0xCA, 0xCB].contains(&code)
}

/// The case of a call with the mood to refuse with this code. The answer is the code if it is a refusal, otherwise the plain
/// answer of the line.
fn refusal_case(
    rt: &impl Abort,
    alloc: Global,
    code: u8,
    line: &str,
) -> Result<String, AllocError> {
    if !is_refusal(code) {
        return format!(in alloc; "refuse {code:x}|{line}");
    }
    let (call, _) = parts(rt, line);
    format!(in alloc; "refuse {code:x}|{call}|code {code:02x}")
}

/// Asserts the answer of that case.
fn assert_answer_to_refusal(rt: &impl Abort, alloc: Global, code: u8, line: &str) {
    let case = refusal_case(rt, alloc, code, line).expect(rt, "memory");
    assert_answer_in_mood(rt, alloc, &case);
}

/// The same for a call of each kind.
fn assert_answers_to_refusal(rt: &impl Abort, alloc: Global, code: u8) {
    for line in ANSWERS.lines() {
        assert_answer_to_refusal(rt, alloc, code, line);
    }
}

#[test]
fn a_call_is_refused_only_by_a_refusal(rt: HostRuntime) {
    for code in 0..=255 {
        assert_answers_to_refusal(&rt, rt.alloc(), code);
    }
}

/// `call|answer`, after reservation 1 of the sensor data records and 2 of the event log were given and cancelled.
const FORGOTTEN: &str = "part sdr 1 1 2 1|code c5
part sel 2 1 2 1|code c5
part sdr 1 1 0 1|0002 01 01
part sel 2 1 0 1|ffff 01 01";

/// `call|answer`, if both reservations are kept.
const KEPT: &str = "part sdr 1 1 2 1|0002 01 51
part sel 2 1 2 1|ffff 01 02";

/// Reserves both shelves, makes the call of `line` in this mood, and asserts its answer and those to the other lines.
fn assert_answers_after_reserving(
    rt: &impl Abort,
    alloc: Global,
    mood: &str,
    line: &str,
    lines: &str,
) {
    let moods = format!(in alloc; "grant fe, grant fe, {mood}").expect(rt, "memory");
    let calls = format!(in alloc; "reserve sdr|0001\nreserve sel|0002\n{line}\n{lines}");
    assert_answers_after_moods(rt, alloc, &moods, &calls.expect(rt, "memory"));
}

// After the first byte of a record, the last reservation is needed.
#[test]
fn cancelled_and_changed_reservations_are_forgotten(rt: HostRuntime) {
    let alloc = rt.alloc();
    assert_answers_after_reserving(&rt, alloc, "cancel", "reading 0 1|code c5", FORGOTTEN);
    assert_answers_after_reserving(&rt, alloc, "saved", "reading 0 1|2dc00000", FORGOTTEN);
    assert_answers_after_reserving(&rt, alloc, "saved", "part sdr 1 1 2 1|code c5", FORGOTTEN);
}

#[test]
fn other_moods_keep_the_reservations(rt: HostRuntime) {
    let alloc = rt.alloc();
    assert_answers_after_reserving(&rt, alloc, "grant 1", "reading 0 1|2dc00000", KEPT);
    assert_answers_after_reserving(&rt, alloc, "busy", "reading 0 1|code c0", KEPT);
    assert_answers_after_reserving(&rt, alloc, "too_long", "reading 0 1|2dc00000", KEPT);
    assert_answers_after_reserving(&rt, alloc, "refuse d4", "reading 0 1|code d4", KEPT);
}

/// Its shelves begin with the records of `SAVED`. The reading is another one.
const LONGER: &str = "ipmi-image 1
sdr 0001 0002 010051c001aa
sdr 0002 0003 020051c002bbcc
sdr 0003 ffff 030051c000
sel 0001 0002 01000201000020200004013001595f5a
sel 0002 ffff 02000200000020200004013081570000
reading 0 01 2ec00001
end
";

/// The event log of `SAVED`, with other sensor data records.
const SAME_LOG: &str = "ipmi-image 1
sdr 0001 ffff 010051c001ab
sel 0001 ffff 01000201000020200004013001595f5a
end
";

/// `call|answer`, if both reservations are kept and records were appended.
const GROWN: &str = "part sdr 1 1 2 1|0002 01 51
part sdr 1 2 2 8|0003 05 51c002bbcceeeeee
part sel 2 1 2 1|0002 01 02";

/// `call|answer`, if records were replaced or are gone.
const REPLACED: &str = "part sdr 1 1 2 1|code c5
part sel 2 1 2 1|code cb";

/// `call|answer`, if only sensor data records were replaced.
const LOG_KEPT: &str = "part sdr 1 1 2 1|code c5
part sel 2 1 2 1|ffff 01 02";

// A shelf that begins with its earlier records keeps its reservation.
#[test]
fn an_appended_image_may_keep_reservations(rt: HostRuntime) {
    let alloc = rt.alloc();
    assert_answers_after_reserving(&rt, alloc, "append saved", "reading 0 1|2dc00000", KEPT);
    assert_answers_after_reserving(&rt, alloc, "append longer", "reading 0 1|2ec00001", GROWN);
    assert_answers_after_reserving(&rt, alloc, "append other", "reading 0 1|2ec00001", REPLACED);
    assert_answers_after_reserving(
        &rt,
        alloc,
        "append same_log",
        "reading 0 1|code cb",
        LOG_KEPT,
    );
}

const SIX_REFUSALS: &str = "refuse d0, refuse d1, refuse d2, refuse d3, refuse d4, refuse d5";

/// `call|answer`.
const ONE_EACH: &str = "reserve sdr|code d0
part sdr 0 1 0 8|code d1
info sdr|code d2
reading 0 1|code d3
fru_size 0|code d4
fru_part 0 0 8|code d5
reserve sdr|0001
part sdr 0 1 0 8|0002 06 010051c001aaeeee
info sdr|510300000401000020ffffffff02
reading 0 1|2dc00000
fru_size 0|0006 00
fru_part 0 0 8|06 010051c001aaeeee";

// When the moods are used up, each call has its plain answer.
#[test]
fn each_call_uses_up_one_mood(rt: HostRuntime) {
    assert_answers_after_moods(&rt, rt.alloc(), SIX_REFUSALS, ONE_EACH);
}
