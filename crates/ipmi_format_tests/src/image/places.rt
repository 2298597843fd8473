//! Each fault of each kind of line, at each position in the line.
use super::faults::assert_verdicts;

/// `records up to the end of the image|fault`. A semicolon is a line feed.
const RECORDS: &str = "sel;end;|line 2: not a line
sdr ;end;|line 2: not a line
sel 0001 ffff;end;|line 2: not a line
sel 0001 ffff ;end;|line 2: not a line
sel 001 ffff 01000201000020200004013001595f5a;end;|line 2: not a line
sel 00001 ffff 01000201000020200004013001595f5a;end;|line 2: not a line
sel 0001 fff 01000201000020200004013001595f5a;end;|line 2: not a line
sel 0001 ffff 01000201000020200004013001595f5a 00;end;|line 2: not a line
sel 0001 - 01000201000020200004013001595f5a;end;|line 2: not a line
sel 000g ffff 01000201000020200004013001595f5a;end;|line 2: hex
sel 0001 fffg 01000201000020200004013001595f5a;end;|line 2: hex
sel 0001 ffff 01000201000020200004013001595f5;end;|line 2: hex
sel 0001 ffff 01000201000020200004013001595fga;end;|line 2: hex
sel ffff ffff ffff0201000020200004013001595f5a;end;|line 2: id
sel 0001 ffff 01000201000020200004013001595f;end;|line 2: length
sel 0100 ffff 01000201000020200004013001595f5a;end;|line 2: first id
sdr 00001 ffff 010051c000;end;|line 2: not a line
sdr 0001 fff 010051c000;end;|line 2: not a line
sdr 0001 ffff 010051c000 00;end;|line 2: not a line
sdr 000g ffff 010051c000;end;|line 2: hex
sdr 0001 fffg 010051c000;end;|line 2: hex
sdr 0001 ffff 010051c0g0;end;|line 2: hex
sdr 0001 ffff 010051c000;sdr ffff ffff ffff51c000;end;|line 3: id
sdr 0001 0002 010051c000;sdr 0002 ffff 0200;end;|line 3: length
sdr 0001 0002 010051c000;sdr 0002 0003 020051c000;sdr 0001 ffff 010051c000;end;|line 4: twice
sdr 0001 0002 010051c000;sdr 0002 0003 020051c000;sdr 0002 ffff 020051c000;end;|line 4: twice
sdr 0001 ffff 010051c000;sel 0002 ffff 01000201000020200004013001595f5a;end;|line 3: first id
sdr 0001 ffff 010051c000;sel 0000 ffff 00000201000020200004013001595f5a;end;|read
sdr 0001 ffff 010051c000;fru 00 00;end;x|line 5: after end
sdr 0001 ffff 010051c000;fru 00 00;reading 0 01 2dc00000;frob;end;|line 5: not a line
sdr 0001 ffff 010051c000;sdr ffff ffff 0;end;|line 3: hex
sdr 0001 ffff 010051c000;sdr ffff ffff 00;end;|line 3: id
frob;sdr 0001 ffff 0g;end;|line 2: not a line";

#[test]
fn each_fault_of_a_record_is_found(rt: HostRuntime) {
    assert_verdicts(&rt, rt.alloc(), "ipmi-image 1;", RECORDS);
}

/// `inventories, readings and infos up to the end of the image|fault`.
const OTHERS: &str = "fru;end;|line 2: not a line
reading;end;|line 2: not a line
info;end;|line 2: not a line
fru 00;end;|line 2: not a line
fru 000 00;end;|line 2: not a line
fru 00  00;end;|line 2: not a line
fru 0g 00;end;|line 2: hex
fru 00 000;end;|line 2: hex
fru 00 0g;end;|line 2: hex
fru 00 00;fru ff 00;end;|line 3: id
reading 0 001 2dc00000;end;|line 2: not a line
reading 0 01 ;end;|line 2: not a line
reading  01 2dc00000;end;|line 2: not a line
reading 0 01 2dc00000 00;end;|line 2: not a line
reading g 01 2dc00000;end;|line 2: hex
reading 0 0g 2dc00000;end;|line 2: hex
reading 0 01 2dc0000;end;|line 2: hex
reading 0 01 2dc0000g;end;|line 2: hex
reading f 01 2dc00000;end;|line 2: id
reading 0 01 2dc00000;reading 0 02 2dc00000;reading 0 01 2dc00000;end;|line 4: twice
reading 0 01 2dc00000;reading 4 01 2dc00000;end;|line 3: id
reading 0 01 2dc00000;reading 0 02 2dc000;end;|line 3: length
info sdr ;end;|line 2: not a line
info SDR 510300000401000020ffffffff02;end;|line 2: not a line
info sdr 510300000401000020ffffffff02 00;end;|line 2: not a line
info sdr 510300000401000020ffffffff0;end;|line 2: hex
info sdr 510300000401000020ffffffff0g;end;|line 2: hex
info sel 510300000401000020ffffffff0;end;|line 2: hex
info sel 00;end;|line 2: length
info sel 510300000401000020ffffffff0200;end;|line 2: length
info sdr 510300000401000020ffffffff;end;|line 2: length
info sdr 510300000401000020ffffffff02;info sdr 00;end;|line 3: twice
info sel 510300000401000020ffffffff02;info sel 00;end;|line 3: twice
info sdr 510300000401000020ffffffff02;info sel 510300000401000020ffffffff02;info sdr 510300000401000020ffffffff02;end;|\
    line 4: twice
reading 4 0g 2dc00000;end;|line 2: hex
info fru 0g;end;|line 2: not a line";

#[test]
fn each_fault_of_another_line_is_found(rt: HostRuntime) {
    assert_verdicts(&rt, rt.alloc(), "ipmi-image 1;", OTHERS);
}

/// `image|fault`.
const WHOLE: &str = "ipmi-image 1;end|no end
ipmi-image 2|header
ipmi-image 2\r;end;|header
ipmi-image 12;end;|header
ipmi-image 0;end;|header
ipmi-image;end;|header
ipmi-image 1\0;end;|header
\u{feff}ipmi-image 1;end;|header
ipmi-image 2;|no end
ipmi-image 2;sel - ffff 01000201000020200004013001595f5a;end;|line 2: not a line
ipmi-image 2;sel 0001 -- 01000201000020200004013001595f5a;end;|line 2: not a line
ipmi-image 2;sel 0001 - -;end;|line 2: hex
ipmi-image 2;sdr 0001 -;end;|line 2: not a line
ipmi-image 2;sdr 0001 - ;end;|line 2: not a line
ipmi-image 2;sdr 0001 -000 010051c000;end;|line 2: hex
ipmi-image 2;fru - 00;end;|line 2: not a line
ipmi-image 2;fru 00 -;end;|line 2: hex
ipmi-image 2;reading - 01 2dc00000;end;|line 2: hex
ipmi-image 2;reading 0 - 2dc00000;end;|line 2: not a line
ipmi-image 2;info - 510300000401000020ffffffff02;end;|line 2: not a line
ipmi-image 2;sdr 0000 - 000051c000;sdr 0000 - 000051c000;end;|line 3: id
ipmi-image 2;sdr 0001 - 010051c000;sdr 0001 - 010051c000;end;|line 3: twice
ipmi-image 2;sdr 0002 - 010051c000;end;|line 2: first id
ipmi-image 2;sdr 0001 - 010051c0;end;|line 2: length
ipmi-image 2;end;x|line 3: after end";

#[test]
fn each_fault_of_version_2_is_found(rt: HostRuntime) {
    assert_verdicts(&rt, rt.alloc(), "", WHOLE);
}
