//! Saved images, each with a name.
use crate::cases::first_line;
use ipmi_fixtures::CPU_TEMP;
pub(crate) use ipmi_fixtures::THREE_ROWS;
use std::alloc::{AllocError, Global};
use std::process::Abort;

/// The lines of `THREE_ROWS`, of 27, 29 and 25 bytes.
pub(crate) const THREE_LINES: &str = "sdr 0001 0002 010051c001aa
sdr 0002 0003 020051c002bbcc
sdr 0003 ffff 030051c000
";

/// `THREE_ROWS` with another second record of the same length.
pub(super) const CHANGED_ROWS: &str = "ipmi-image 1
sdr 0001 0002 010051c001aa
sdr 0002 0003 020051c102ddee
sdr 0003 ffff 030051c000
end
";

/// The lines of `CHANGED_ROWS`.
pub(super) const CHANGED_LINES: &str = "sdr 0001 0002 010051c001aa
sdr 0002 0003 020051c102ddee
sdr 0003 ffff 030051c000
";

/// An image without a line.
pub(super) const EMPTY: &str = "ipmi-image 1
end
";

/// An image of one record, with a next id that no record has.
pub(super) const TO_NOWHERE: &str = "ipmi-image 1
sdr 0001 0009 010051c000
end
";

/// Each image comes after a line with its name and before a line of dashes. `CPU_TEMP` is replaced by the bytes of that
/// record, and the locators are for FRU devices. A `fault` is a full sensor record that is too short. In a `cycle` the next
/// id of each row is the id of the other row. In `to nowhere` a next id is one that no row has. `another ..` has the ids and
/// lengths of the image that it replaces.
const IMAGES: &str = "sensor
ipmi-image 1
sdr 0001 ffff CPU_TEMP
reading 0 01 2dc00000
end
--
warmer sensor
ipmi-image 1
sdr 0001 ffff CPU_TEMP
reading 0 01 2ec00000
end
--
sensor without reading
ipmi-image 1
sdr 0001 ffff CPU_TEMP
end
--
sensor and locator
ipmi-image 1
sdr 0001 0002 CPU_TEMP
sdr 0002 ffff 020051110f200180000000000a0100c450535531
reading 0 01 2dc00000
end
--
locator and sensor
ipmi-image 1
sdr 0001 0002 010051110f200180000000000a0100c450535531
sdr 0002 ffff \
    020051013320000103017f680101000000003838000100000100000000000000000000005f5a550000000202000000c84350552054656d70
reading 0 01 2dc00000
end
--
fault and locator
ipmi-image 1
sdr 0001 0002 0100510100
sdr 0002 ffff 020051110f200180000000000a0100c450535531
end
--
log
ipmi-image 1
sel 0001 0002 01000201000020200004013001595f5a
sel 0002 0003 02000200000020200004013081570000
sel 0003 ffff 0300c0ffffffff571300010203040506
info sel 510300000401000020ffffffff02
end
--
log to nowhere
ipmi-image 1
sel 0001 0002 01000201000020200004013001595f5a
sel 0002 0003 02000200000020200004013081570000
sel 0003 0009 0300c0ffffffff571300010203040506
end
--
log in a cycle
ipmi-image 1
sel 0007 0009 0700e000000000000000000000000000
sel 0009 0007 09000305060708090a0b0c0d0e0f1011
end
--
cycle
ipmi-image 1
sdr 0007 0009 070051c000
sdr 0009 0007 090051c000
end
--
cycle at zero
ipmi-image 1
sdr 0001 0000 010051c000
end
--
leading zeros and upper case
ipmi-image 1
sdr 0012 0345 120051c000
sdr 0345 ABCD 450351C000
sdr ABCD FFFF CDAB51C001EF
end
--
infos
ipmi-image 1
info sdr 510300000401000020ffffffff02
info sel 02ffffffff000000000000002082
end
--
sensor of another owner
ipmi-image 1
sdr 0001 ffff \
    010051013322000103017f680101000000003838000100000100000000000000000000005f5a550000000202000000c84350552054656d70
reading 0 01 2dc00000
end
--
nameless
ipmi-image 1
sdr 0001 0002 010051110b200180000000000a0100c0
sdr 0002 ffff 020051c000
end
--
twins
ipmi-image 1
sdr 0001 0002 010051110f200180000000000a0100c450535531
sdr 0002 ffff 020051110f200280000000000a0200c450535531
end
--
control bytes
ipmi-image 1
sdr 0001 ffff 010051110e200180000000000a0100c3610762
end
--
locator to nowhere
ipmi-image 1
sdr 0001 0009 010051110f200180000000000a0100c450535531
fru 01 01
end
--
another sensor and locator
ipmi-image 1
sdr 0001 0002 \
    010051013320000103017f68010100000000383800010000010000000000000000000000605b560000000202000000c84350552054656d70
sdr 0002 ffff 020051110f200380000000000a0300c450535531
reading 0 01 30c00000
end
--
one entry
ipmi-image 1
sel 0001 ffff 01000201000020200004013001595f5a
end
--
another log
ipmi-image 1
sel 0001 0002 0100e001010101010101010101010101
sel 0002 0003 0200e102020202020202020202020202
sel 0003 ffff 0300e203030303030303030303030303
info sel 02ffffffff000000000000002082
end
--
turned log
ipmi-image 1
sel 0001 0003 0100e001010101010101010101010101
sel 0003 0002 0300e203030303030303030303030303
sel 0002 ffff 0200e102020202020202020202020202
end
--
grown log
ipmi-image 1
sel 0001 0002 01000201000020200004013001595f5a
sel 0002 0003 02000200000020200004013081570000
sel 0003 0004 0300c0ffffffff571300010203040506
sel 0004 ffff 0400e004040404040404040404040404
end
--
inventory
ipmi-image 1
fru 00 01000100000000fe010117c100000026
end
--
inventory on three lines
ipmi-image 1
fru 00 01
fru 00 000100000000fe0101
fru fe 01
fru 00 17c100000026
end
--
another inventory
ipmi-image 1
fru 00 01000100000000fe010101c10000003c
end
--
short inventory
ipmi-image 1
fru 00 01000100000000fe
end
--
inventories
ipmi-image 1
sdr 0001 0002 CPU_TEMP
sdr 0002 ffff 020051110f200180000000000a0100c450535531
reading 0 01 2dc00000
fru 00 01000100000000fe010117c100000026
fru 01 01
end
--
one inventory
ipmi-image 1
sdr 0001 0002 CPU_TEMP
sdr 0002 ffff 020051110f200180000000000a0100c450535531
reading 0 01 2dc00000
fru 00 01000100000000fe010117c100000026
end
--
inventory elsewhere
ipmi-image 1
sdr 0001 0002 CPU_TEMP
sdr 0002 ffff 020051110f200100000000000a0100c450535531
reading 0 01 2dc00000
fru 00 01000100000000fe010117c100000026
fru 01 01
end
--
elsewhere in three ways
ipmi-image 1
sdr 0001 0002 010051110d220180000000000a0100c24142
sdr 0002 0003 020051110d200188000000000a0100c24344
sdr 0003 ffff 030051110d200100000000000a0100c24546
fru 01 01
end
--
locators of each sort
ipmi-image 1
sdr 0001 0002 010051110d200080000000000a0100c24142
sdr 0002 0003 020051110d200000000000000a0100c24344
sdr 0003 0004 030051110b200287000000000a0100c0
sdr 0004 0005 040051110d20ff80000000000a0100c24546
sdr 0005 0006 0500511100
sdr 0006 ffff 060051120b20000000000000070100c0
fru 00 01000100000000fe010117c100000026
fru 02 01
end
--
products
ipmi-image 1
sdr 0001 0002 010051110d200080000000000a0100c24142
sdr 0002 ffff 020051110f200180000000000a0100c450535531
fru 00 01000001040000fa0103000100008329dca642123bc441e90042c1000000004d
fru 00 010319c24142c0c25051c25631c25358c100000000000004
fru 01 01000000010000fe010219c24142c24344c1000000000095
end
--
two names of device 0
ipmi-image 1
sdr 0001 0002 0100511100
sdr 0002 0003 020051110d220080000000000a0100c24142
sdr 0003 0004 030051110d200080000000000a0100c24344
sdr 0004 ffff 040051110d200080000000000a0100c24546
fru 00 01
end
--
two locators
ipmi-image 1
sdr 0001 0002 010051110f200180000000000a0100c450535531
sdr 0002 ffff 020051110f200280000000000a0200c450535532
fru 00 01000100000000fe010117c100000026
fru 01 01
fru 02 01000100000000fe
end
--
two other locators
ipmi-image 1
sdr 0001 0002 010051110f200180000000000a0100c446414e31
sdr 0002 ffff 020051110f200280000000000a0200c446414e32
fru 00 01000100000000fe010101c10000003c
fru 01 02
fru 02 01000100000000ff
end
--
locators in a cycle
ipmi-image 1
sdr 0007 0009 070051110d200180000000000a0100c24142
sdr 0009 0007 090051110d200280000000000a0100c24344
end
--
names of each sort
ipmi-image 1
sdr 0001 0002 010051110d200180000000000a010043123b
sdr 0002 0003 020051110e200280000000000a02008429dca6
sdr 0003 0004 030051110d200380000000000a030002abcd
sdr 0004 0005 040051110e200480000000000a0400c341e907
sdr 0005 0006 050051110d200580000000000a05008429dc
sdr 0006 ffff 060051110e200680000000000a0600c3410042
end
--
";

/// The text of an image, if it has this name.
fn text_if_named<'a>(rt: &impl Abort, image: &'a str, name: &str) -> Option<&'a str> {
    let (first, text) = first_line(rt, image);
    if first == name { Some(text) } else { None }
}

/// The image with this name.
pub(super) fn image_in(rt: &impl Abort, images: &'static str, name: &str) -> &'static str {
    for image in images.split_terminator("--\n") {
        if let Some(text) = text_if_named(rt, image, name) {
            return text;
        }
    }
    panic!(rt; "no image {name}")
}

/// The text of an image in which `CPU_TEMP` is replaced by the bytes of that record.
pub(super) fn with_record(alloc: Global, image: &str) -> Result<String, AllocError> {
    let digits = hex::encode(alloc, &CPU_TEMP)?;
    image.replace(alloc, "CPU_TEMP", digits.as_str())
}

/// The image with this name: one of `IMAGES`, `three` or `empty`.
pub(super) fn image_named(rt: &impl Abort, name: &str) -> &'static str {
    match name {
        "three" => THREE_ROWS,
        "empty" => EMPTY,
        _ => image_in(rt, IMAGES, name),
    }
}
