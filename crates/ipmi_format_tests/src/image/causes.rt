//! Why an image is faulty.
use super::faults::image_of;
use super::images::fault_of;
use crate::cases::parts;
use ipmi_image::{ImageFault, fault_cause};
use std::alloc::Global;
use std::process::Abort;

/// Asserts the cause of the fault of an image: the lines before, and those of the case.
fn assert_cause(rt: &impl Abort, alloc: Global, before: &str, case: &str) {
    let (lines, wanted) = parts(rt, case);
    let image = image_of(rt, alloc, before, lines);
    let fault = fault_of(alloc, &image).expect(rt, case);
    let cause = fault_cause(alloc, &image, fault)
        .expect(rt, "memory")
        .expect(rt, case);
    let got = format!(in alloc; "{cause:?}").expect(rt, "memory");
    assert!(rt; got.as_str() == wanted, "{case}: got {got}");
}

/// The same for each case.
fn assert_causes(rt: &impl Abort, alloc: Global, before: &str, cases: &str) {
    for case in cases.lines() {
        assert_cause(rt, alloc, before, case);
    }
}

/// `bytes|cause`. A tilde is FFh, a semicolon a line feed. Bytes begin as those of bzip2, zip and lz4, and then of a sensor
/// data record, of an event and of an inventory.
const BEGINNINGS: &str = "|Beginning(Empty)
BZh9|Beginning(Compressed)
PK\x03\x04|Beginning(Compressed)
PK\x03|Beginning(Header)
\x04\"M\x18|Beginning(Compressed)
\u{feff}ipmi-image 1;end;|Beginning(ByteOrderMark)
\0\0|Beginning(Header)
ipmi-image 1\r;end\r;|Beginning(CrLfText)
ipmi-image 2\r;end;|Beginning(CrLfText)
ipmi-image 1\rend\r|Beginning(CrText)
ipmi-image 2\rend\r|Beginning(CrText)
\x01\0Q\x01|Beginning(RawRecords)
\x02\0\x02|Beginning(RawRecords)
\x02\0\x03|Beginning(Header)
\x01\0\0\x01|Beginning(RawInventory)
ipmi-image 3;end;|Beginning(Header)
~|Beginning(Header)";

#[test]
fn no_image_at_all_is_told_by_its_first_bytes(rt: HostRuntime) {
    assert_causes(&rt, rt.alloc(), "", BEGINNINGS);
}

/// `lines after the first|cause`.
const LINES: &str = "end\r;|Line(CrLf)
sdr 0001 ffff 010051c000\r;end;|Line(CrLf)
sdr\t0001 ffff 010051c000;end;|Line(Tab)
fru 00 00\t;end;|Line(Tab)
;end;|Line(EmptyLine)
 end;|Line(LeadingSpace)
 ;end;|Line(LeadingSpace)
sdr 0001  ffff 010051c000;end;|Line(EmptyField)
end ;|Line(EndFields)
# a  comment;end;|Line(FirstWord)
fru 00 ;end;|Line(EmptyField)
SDR 0001 ffff 010051c000;end;|Line(FirstWord)
ends;|Line(FirstWord)
sdr;end;|Line(RowFields)
sel 0001 ffff;end;|Line(RowFields)
sdr 0001 ffff 010051c000 00;end;|Line(RowFields)
sdr 0001 - 010051c000;end;|Line(Dash)
sdr 001 ffff 010051c000;end;|Line(RowNumbers)
sel 0001 fff 00;end;|Line(RowNumbers)
fru;end;|Line(InventoryFields)
fru 00 00 00;end;|Line(InventoryFields)
fru 0 00;end;|Line(InventoryNumber)
reading 0 01;end;|Line(ReadingFields)
reading 00 01 2dc00000;end;|Line(ReadingNumbers)
reading 0 1 2dc00000;end;|Line(ReadingNumbers)
info;end;|Line(InfoFields)
info fru 00;end;|Line(InfoFields)
info sdr 00 00;end;|Line(InfoFields)
end x;|Line(EndFields)
sdr 0001 ffff 010051c00;end;|Line(OddDigits)
fru 00 0;end;|Line(OddDigits)
sdr 000g ffff 010051c000;end;|Line(NotHex)
reading 0 01 2dc0000x;end;|Line(NotHex)";

#[test]
fn a_line_that_is_none_has_a_cause(rt: HostRuntime) {
    assert_causes(&rt, rt.alloc(), "ipmi-image 1;", LINES);
}

/// `lines after the first of version 2|cause`.
const SECOND: &str = "sdr - - 010051c000;end;|Line(RowNumbers)
sdr 0001 - 010051c0;end;|Rule(SdrLen)";

#[test]
fn a_dash_in_version_2_is_no_cause(rt: HostRuntime) {
    assert_causes(&rt, rt.alloc(), "ipmi-image 2;", SECOND);
}

/// `lines after the first|cause`.
const RULES: &str = "sdr ffff ffff ffff51c000;end;|Rule(LastId)
sdr 0001 0000 010051c000;sdr 0000 ffff 000051c000;end;|Rule(ZeroId)
fru ff 00;end;|Rule(DeviceId)
reading 4 01 2dc00000;end;|Rule(Lun)
sdr 0001 ffff 010051c000;sdr 0001 ffff 010051c000;end;|Rule(RecordTwice)
reading 0 01 2dc00000;reading 0 01 2dc00000;end;|Rule(ReadingTwice)
info sel 510300000401000020ffffffff02;info sel 510300000401000020ffffffff02;end;|Rule(InfoTwice)
sdr 0001 ffff 010051c001;end;|Rule(SdrLen)
sel 0001 ffff 0100;end;|Rule(SelLen)
reading 0 01 2dc000;end;|Rule(ReadingLen)
info sdr 00;end;|Rule(InfoLen)
sdr 0002 ffff 010051c000;end;|Rule(FirstId)
end;x|Rule(AfterEnd)
end|Rule(CutEnd)
fru 00 00;fr|Rule(CutLine)
fru 00 00;|Rule(NoEnd)";

#[test]
fn a_rule_that_a_line_or_the_end_breaks_is_the_cause(rt: HostRuntime) {
    assert_causes(&rt, rt.alloc(), "ipmi-image 1;", RULES);
}

// The line `end` of an image without a fault can be read, and has no length.
#[test]
fn a_fault_that_the_image_does_not_have_has_no_cause(rt: HostRuntime) {
    let cause = fault_cause(rt.alloc(), b"ipmi-image 1\nend\n", ImageFault::Length(2));
    assert!(rt; matches!(cause, Ok(None)));
}
