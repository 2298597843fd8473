//! How sensors share a compact or an event-only record.
use super::examples::changed;
use crate::cases::{assert_text, parts};
use ipmi_records::{SdrView, Sharing};
use std::alloc::Global;
use std::process::Abort;

/// `changes of CPU_TEMP|sharing`. The first change makes a record of another type. Bytes 13, 14 and 25 are 01h.
const RECORDS: &str = "4=02|Some(Sharing { count: 0, modifier: Numeric, offset: 1 })
4=02,24=03,25=85|Some(Sharing { count: 3, modifier: Numeric, offset: 5 })
4=02,24=1f,25=1a|Some(Sharing { count: 15, modifier: Alpha, offset: 26 })
4=02,24=d4,25=80|Some(Sharing { count: 4, modifier: Alpha, offset: 0 })
4=02,24=e2,25=7f|Some(Sharing { count: 2, modifier: Reserved, offset: 127 })
4=02,24=f1|Some(Sharing { count: 1, modifier: Reserved, offset: 1 })
4=03|Some(Sharing { count: 1, modifier: Numeric, offset: 1 })
4=03,13=13,14=9a|Some(Sharing { count: 3, modifier: Alpha, offset: 26 })
4=03,13=c4,14=05|Some(Sharing { count: 4, modifier: Numeric, offset: 5 })
4=03,13=20,14=ff|Some(Sharing { count: 0, modifier: Reserved, offset: 127 })
|None
4=10|None
4=11|None
4=12|None
4=c0|None";

/// The sharing, by the view of the record's own kind.
fn own_sharing(view: &SdrView<'_>) -> Option<Sharing> {
    match view {
        SdrView::Compact(compact) => Some(compact.sharing()),
        SdrView::EventOnly(event) => Some(event.sharing()),
        _ => None,
    }
}

/// Asserts the sharing, by any view and by that of the record's own kind.
fn assert_sharing(rt: &impl Abort, alloc: Global, case: &str) {
    let (changes, wanted) = parts(rt, case);
    let bytes = changed(rt, changes);
    let view = SdrView::read(&bytes).expect(rt, case);
    assert_text(rt, format!(in alloc; "{:?}", view.sharing()), wanted, case);
    assert_text(
        rt,
        format!(in alloc; "{:?}", own_sharing(&view)),
        wanted,
        case,
    );
}

#[test]
fn each_record_says_how_it_is_shared(rt: HostRuntime) {
    for case in RECORDS.lines() {
        assert_sharing(&rt, rt.alloc(), case);
    }
}
