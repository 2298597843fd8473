//! Times: of entries, in seconds, and of boards, in minutes.
use crate::cases::{assert_text, parts};
use ipmi_text::{minutes_text, utc_text};
use std::alloc::Global;
use std::process::Abort;

/// `seconds from 1970-01-01|text`.
const SECONDS: &str = "0|+0 s
1|+1 s
536870911|+536870911 s
536870912|+536870912 s
536870913|1987-01-05 18:48:33
2147483647|2038-01-19 03:14:07
2147483648|2038-01-19 03:14:08
4294967294|2106-02-07 06:28:14
4294967295|unspecified
573091200|1988-02-29 00:00:00
573177599|1988-02-29 23:59:59
573177600|1988-03-01 00:00:00
946684799|1999-12-31 23:59:59
946684800|2000-01-01 00:00:00
951782399|2000-02-28 23:59:59
951827696|2000-02-29 12:34:56
951868800|2000-03-01 00:00:00
983404799|2001-02-28 23:59:59
983404800|2001-03-01 00:00:00
1709168523|2024-02-29 01:02:03
1735689599|2024-12-31 23:59:59
4107542399|2100-02-28 23:59:59
4107542400|2100-03-01 00:00:00
1097313010|2004-10-09 09:10:10
536957312|1987-01-06 18:48:32
582703441|1988-06-19 06:04:01";

/// `minutes from 1996-01-01|text`.
const MINUTES: &str = "0|unspecified
1|1996-01-01 00:01
59|1996-01-01 00:59
60|1996-01-01 01:00
1439|1996-01-01 23:59
1440|1996-01-02 00:00
84959|1996-02-28 23:59
84960|1996-02-29 00:00
86400|1996-03-01 00:00
16777215|2027-11-24 20:15
16777214|2027-11-24 20:14
2103839|1999-12-31 23:59
2103840|2000-01-01 00:00
2190239|2000-02-29 23:59
2190240|2000-03-01 00:00
7629870|2010-07-04 12:30
14812207|2024-02-29 06:07";

fn assert_time_of_seconds(rt: &impl Abort, alloc: Global, line: &str) {
    let (seconds, wanted) = parts(rt, line);
    let seconds = seconds.parse::<u32>().expect(rt, line);
    assert_text(rt, utc_text(alloc, seconds), wanted, line);
}

fn assert_time_of_minutes(rt: &impl Abort, alloc: Global, line: &str) {
    let (minutes, wanted) = parts(rt, line);
    let minutes = minutes.parse::<u32>().expect(rt, line);
    assert!(rt; minutes <= 0xff_ffff, "{line}: too many");
    assert_text(rt, minutes_text(alloc, minutes), wanted, line);
}

#[test]
fn each_second_has_its_text(rt: HostRuntime) {
    for line in SECONDS.lines() {
        assert_time_of_seconds(&rt, rt.alloc(), line);
    }
}

#[test]
fn each_minute_has_its_text(rt: HostRuntime) {
    for line in MINUTES.lines() {
        assert_time_of_minutes(&rt, rt.alloc(), line);
    }
}
