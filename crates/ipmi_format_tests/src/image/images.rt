//! Images that several tests use, and the first answers of a controller over one.
use super::calls::assert_answers;
use ipmi_image::{Image, ImageController, ImageFault};
use std::alloc::Global;
use std::process::Abort;

/// Lines of each kind. The inventory is on two separate lines, and has the bytes of the first record.
pub const SAVED: &str = "ipmi-image 1
sdr 0001 0002 010051c001aa
fru 00 010051
sdr 0002 ffff 020051c002bbcc
sel 0001 ffff 01000201000020200004013001595f5a
reading 0 01 2dc00000
fru 00 c001aa
info sdr 510300000401000020ffffffff02
info sel 510100000201000000ffffffff00
end
";

/// `SAVED` in the one spelling of version 2.
pub const REWRITTEN: &str = "ipmi-image 2
sdr 0001 - 010051c001aa
sdr 0002 - 020051c002bbcc
sel 0001 - 01000201000020200004013001595f5a
fru 00 010051c001aa
reading 0 01 2dc00000
info sdr 510300000401000020ffffffff02
info sel 510100000201000000ffffffff00
end
";

/// An image with other answers to `ANSWERS` than `SAVED`, except for the first.
pub const OTHER: &str = "ipmi-image 1
sdr 0001 ffff 010051c000
fru 00 0a0b
reading 0 01 2ec00001
info sdr 510100000501000020ffffffff02
end
";

/// `call|answer` of a controller over `SAVED`: one call of each kind.
pub const ANSWERS: &str = "reserve sdr|0001
part sdr 0 1 0 8|0002 06 010051c001aaeeee
info sdr|510300000401000020ffffffff02
reading 0 1|2dc00000
fru_size 0|0006 00
fru_part 0 0 8|06 010051c001aaeeee";

pub fn image(rt: &impl Abort, alloc: Global, text: &str) -> Image {
    Image::read(alloc, text.as_bytes()).expect(rt, text)
}

/// A controller over the image of a text.
pub fn over(rt: &impl Abort, alloc: Global, text: &str) -> ImageController {
    ImageController::new(image(rt, alloc, text))
}

/// Asserts the answers of a controller over an image to the calls of these lines.
pub fn assert_answers_of_image(rt: &impl Abort, image: Image, lines: &str) {
    let mut ctl = ImageController::new(image);
    assert_answers(rt, &mut ctl, lines);
    drop(ctl);
}

/// The same over the image of a text.
pub fn assert_answers_of_text(rt: &impl Abort, alloc: Global, text: &str, lines: &str) {
    assert_answers_of_image(rt, image(rt, alloc, text), lines);
}

/// The fault of an image, if it has one.
pub fn fault_of(alloc: Global, image: &[u8]) -> Option<ImageFault> {
    Image::read(alloc, image).err()
}
