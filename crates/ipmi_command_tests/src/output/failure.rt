//! The message and the status of each failure, and the part of a message that failing or slow writers take.
use crate::writers::{Limited, assert_written_text};
use ipmi_bus::{Code, Ended, FruEnded};
use ipmi_image::ImageFault;
use ipmi_output::{
    Failure, MessageSink, RecordName, SinkFault, Written, write_failure, write_unreadable,
};
use std::alloc::Global;
use std::process::Abort;

/// A failure, its line and its status.
#[derive(Debug, Drop)]
struct Case {
    failure: Failure<'static>,
    line: &'static str,
    status: u8,
}

const REFUSED: Case = Case {
    failure: Failure::Ended(Ended::Refused(0x0002, Code(0xD4))),
    line: "record 0002h refused with code D4h\n",
    status: 1,
};

const TWICE: Case = Case {
    failure: Failure::Image(ImageFault::Twice(107)),
    line: "image line 107: twice\n",
    status: 3,
};

/// Asserts the line and the status of a failure.
fn assert_message(rt: &impl Abort, alloc: Global, case: &Case) {
    let mut err = Vec::new(alloc);
    let result = write_failure(&mut err, &case.failure);
    assert!(rt; result == Ok(()), "{case:?}: {result:?}");
    assert_written_text(rt, &err, case.line);
    let failure = &case.failure;
    let shown = format!(in alloc; "{failure}\n").expect(rt, "memory");
    assert!(rt; shown.as_str() == case.line, "{case:?}: shown as {shown:?}");
    let status = failure.status();
    assert!(rt; status == case.status, "{case:?}: status {status}");
}

/// The same for each failure.
fn assert_messages(rt: &impl Abort, alloc: Global, cases: &[Case]) {
    for case in cases {
        assert_message(rt, alloc, case);
    }
}

/// Asserts the line about a file that can't be read.
fn assert_unreadable_message(rt: &impl Abort, alloc: Global, name: &str, line: &str) {
    let mut err = Vec::new(alloc);
    let result = write_unreadable(&mut err, name);
    assert!(rt; result == Ok(()), "{name:?}: {result:?}");
    assert_written_text(rt, &err, line);
}

#[test]
fn a_file_that_cannot_be_read_is_named_in_one_line(rt: HostRuntime) {
    assert_unreadable_message(&rt, rt.alloc(), "FILE", "cannot read FILE\n");
    assert_unreadable_message(&rt, rt.alloc(), "", "cannot read \n");
    assert_unreadable_message(
        &rt,
        rt.alloc(),
        "\na\u{1f}\u{7f} \\x0A~\u{e9}\u{85}\t\u{0}",
        "cannot read \\x0Aa\\x1F\\x7F \\x0A~\u{e9}\u{85}\\x09\\x00\n",
    );
}

#[test]
fn a_name_that_no_record_has_is_said(rt: HostRuntime) {
    let case = Case {
        failure: Failure::NoName(RecordName::new("Foo")),
        line: "no record named Foo\n",
        status: 1,
    };
    assert_message(&rt, rt.alloc(), &case);
    drop(case);
}

const OF_RUNS: [Case; 9] = [
    Case {
        failure: Failure::Usage,
        line: "usage: ipmitool [--image FILE] [--from HEX4] [--part N] [--tries N] fru|sdr|sel WORDS\n",
        status: 2,
    },
    Case {
        failure: Failure::NoInfo,
        line: "info not present\n",
        status: 1,
    },
    Case {
        failure: Failure::Inventory(7, FruEnded::Refused(Code(0xD4))),
        line: "fru 7 refused with code D4h\n",
        status: 1,
    },
    Case {
        failure: Failure::Inventory(254, FruEnded::GaveUp),
        line: "fru 254 gave up\n",
        status: 1,
    },
    Case {
        failure: Failure::Inventory(0, FruEnded::Stalled),
        line: "fru 0 stalled\n",
        status: 1,
    },
    Case {
        failure: Failure::Inventory(0, FruEnded::Words),
        line: "fru 0 uses words\n",
        status: 1,
    },
    Case {
        failure: Failure::Inventory(0, FruEnded::Memory),
        line: "out of memory\n",
        status: 5,
    },
    Case {
        failure: Failure::WriteFault,
        line: "write fault\n",
        status: 4,
    },
    Case {
        failure: Failure::OutOfMemory,
        line: "out of memory\n",
        status: 5,
    },
];

#[test]
fn failures_of_runs_are_lines(rt: HostRuntime) {
    assert_messages(&rt, rt.alloc(), &OF_RUNS);
}

const OF_ENDED_LISTINGS: [Case; 8] = [
    Case {
        failure: Failure::Ended(Ended::Cycle(0x0007)),
        line: "cycle at 0007h\n",
        status: 1,
    },
    Case {
        failure: Failure::Ended(Ended::Missing(0x0009)),
        line: "record 0009h not present\n",
        status: 1,
    },
    Case {
        failure: Failure::Ended(Ended::Missing(0x1A2B)),
        line: "record 1A2Bh not present\n",
        status: 1,
    },
    REFUSED,
    Case {
        failure: Failure::Ended(Ended::Refused(0xC3FF, Code(0x0A))),
        line: "record C3FFh refused with code 0Ah\n",
        status: 1,
    },
    Case {
        failure: Failure::Ended(Ended::GaveUp(0x0000)),
        line: "gave up at 0000h\n",
        status: 1,
    },
    Case {
        failure: Failure::Ended(Ended::Stalled(0x0000)),
        line: "stalled at 0000h\n",
        status: 1,
    },
    Case {
        failure: Failure::Ended(Ended::Malformed(0xFFFE)),
        line: "malformed record FFFEh\n",
        status: 1,
    },
];

#[test]
fn ended_listings_name_the_record(rt: HostRuntime) {
    assert_messages(&rt, rt.alloc(), &OF_ENDED_LISTINGS);
}

const OF_IMAGE_FAULTS: [Case; 11] = [
    Case {
        failure: Failure::Image(ImageFault::Memory),
        line: "out of memory\n",
        status: 5,
    },
    Case {
        failure: Failure::Image(ImageFault::Header),
        line: "image: header\n",
        status: 3,
    },
    Case {
        failure: Failure::Image(ImageFault::Line(12)),
        line: "image line 12: not a line\n",
        status: 3,
    },
    Case {
        failure: Failure::Image(ImageFault::Hex(2)),
        line: "image line 2: hex\n",
        status: 3,
    },
    Case {
        failure: Failure::Image(ImageFault::Id(30)),
        line: "image line 30: id\n",
        status: 3,
    },
    TWICE,
    Case {
        failure: Failure::Image(ImageFault::Length(9)),
        line: "image line 9: length\n",
        status: 3,
    },
    Case {
        failure: Failure::Image(ImageFault::FirstId(10)),
        line: "image line 10: first id\n",
        status: 3,
    },
    Case {
        failure: Failure::Image(ImageFault::NoEnd),
        line: "image: no end\n",
        status: 3,
    },
    Case {
        failure: Failure::Image(ImageFault::AfterEnd(65536)),
        line: "image line 65536: after end\n",
        status: 3,
    },
    Case {
        failure: Failure::Image(ImageFault::TooMany(usize::MAX)),
        line: "image line 18446744073709551615: too many bytes\n",
        status: 3,
    },
];

#[test]
fn image_faults_name_the_line(rt: HostRuntime) {
    assert_messages(&rt, rt.alloc(), &OF_IMAGE_FAULTS);
}

#[test]
fn a_line_comes_after_the_last_one(rt: HostRuntime) {
    let mut err = Vec::new(rt.alloc());
    let result = write_failure(&mut err, &REFUSED.failure);
    assert!(rt; result == Ok(()), "the first line: {result:?}");
    let result = write_failure(&mut err, &Failure::OutOfMemory);
    assert!(rt; result == Ok(()), "the second line: {result:?}");
    assert_written_text(
        &rt,
        &err,
        "record 0002h refused with code D4h\nout of memory\n",
    );
}

/// Asserts that a writer that takes only `room` bytes has that much of the line.
fn assert_cut_message(rt: &impl Abort, alloc: Global, case: &Case, room: usize) {
    let mut err = Limited::failing_after(alloc, room);
    let result = write_failure(&mut err, &case.failure);
    assert!(rt; result == Err(SinkFault), "{room} bytes of {}", case.line);
    assert_written_text(
        rt,
        &err.got,
        case.line.get(..room).expect(rt, "so many bytes"),
    );
}

/// The same for each room below the length of the line.
fn assert_cut_messages(rt: &impl Abort, alloc: Global, case: &Case) {
    for room in 0..case.line.len() {
        assert_cut_message(rt, alloc, case, room);
    }
}

#[test]
fn a_writer_that_fails_holds_a_first_part_of_the_line(rt: HostRuntime) {
    assert_cut_messages(&rt, rt.alloc(), &REFUSED);
    assert_cut_messages(&rt, rt.alloc(), &TWICE);
}

/// The same for the line about a file that can't be read.
fn assert_cut_unreadable_message(rt: &impl Abort, alloc: Global, room: usize) {
    // first bytes before the line feed, and last ones after it
    let line = "cannot read a\\x0Ab\n";
    let mut err = Limited::failing_after(alloc, room);
    let result = write_unreadable(&mut err, "a\nb");
    assert!(rt; result == Err(SinkFault), "{room} bytes of {line}");
    assert_written_text(rt, &err.got, line.get(..room).expect(rt, "so many bytes"));
}

#[test]
fn a_writer_that_fails_holds_a_first_part_of_a_name(rt: HostRuntime) {
    for room in 0..19 {
        assert_cut_unreadable_message(&rt, rt.alloc(), room);
    }
}

#[test]
fn a_slow_writer_gets_the_whole_line(rt: HostRuntime) {
    let mut err = Limited::slow(rt.alloc(), 3);
    let result = write_failure(&mut err, &REFUSED.failure);
    assert!(rt; result == Ok(()), "{result:?}");
    assert_written_text(&rt, &err.got, REFUSED.line);
}

#[test]
fn a_writer_that_takes_nothing_is_at_fault(rt: HostRuntime) {
    let mut err = Limited::full_after(rt.alloc(), 0);
    let result = write_failure(&mut err, &REFUSED.failure);
    assert!(rt; result == Err(SinkFault), "{result:?}");
}

#[test]
fn a_sink_takes_messages_too(rt: HostRuntime) {
    let mut err = Written::new(Limited::slow(rt.alloc(), 3));
    let result = write_failure(&mut err, &TWICE.failure);
    assert!(rt; result == Ok(()), "the message: {result:?}");
    let result = err.offer(b"record");
    assert!(rt; result == Ok(3), "what is offered: {result:?}");
    assert_written_text(&rt, &err.into_inner().got, "image line 107: twice\nrec");
}
