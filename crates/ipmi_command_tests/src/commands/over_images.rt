//! Controllers over saved images, without and with moods. Each mood is a letter.
use super::outcome::{Outcome, outcome_of_one};
use super::saved::{CHANGED_ROWS, EMPTY, with_record};
use crate::command_line::lines::command_of_case;
use crate::controllers::Counting;
use ipmi_bus::Code;
use ipmi_image::{Image, ImageController, Mood, Scripted};
use std::alloc::Global;
use std::process::Abort;

/// The image of a text, in which `CPU_TEMP` is replaced by the bytes of that record.
pub(crate) fn image_of(rt: &impl Abort, alloc: Global, text: &str) -> Image {
    let image = with_record(alloc, text).expect(rt, "memory");
    Image::read(alloc, image.as_bytes()).expect(rt, text)
}

pub(crate) fn over(rt: &impl Abort, alloc: Global, image: &str) -> Counting<ImageController> {
    Counting::new(ImageController::new(image_of(rt, alloc, image)))
}

/// A controller over the image that answers the call with this number with the code.
pub(crate) fn interrupting(
    rt: &impl Abort,
    alloc: Global,
    image: &str,
    call: u32,
    code: u8,
) -> Counting<ImageController> {
    let ctl = ImageController::new(image_of(rt, alloc, image));
    Counting::interrupting(ctl, call, code)
}

/// Two images. A controller over the first may change to the second.
#[derive(Clone, Copy)]
pub(crate) struct Two<'a> {
    pub first: &'a str,
    pub second: &'a str,
}

/// The mood of a letter. A dot grants all bytes, and `1` one byte. `x` changes to the second image, `y` to the first, `N`
/// to `CHANGED_ROWS`, and `E` to `EMPTY`. `a` appends the second image, `b` the first: a shelf that begins as before keeps its reservation.
fn mood(rt: &impl Abort, alloc: Global, images: Two<'_>, letter: u8) -> Mood {
    match letter {
        b'.' => Mood::Grant(254),
        b'1' => Mood::Grant(1),
        b'B' => Mood::Busy,
        b'C' => Mood::Cancel,
        b'L' => Mood::TooLong,
        b'R' => Mood::Refuse(Code(0xD4)),
        b'x' => Mood::Change(image_of(rt, alloc, images.second)),
        b'y' => Mood::Change(image_of(rt, alloc, images.first)),
        b'a' => Mood::Append(image_of(rt, alloc, images.second)),
        b'b' => Mood::Append(image_of(rt, alloc, images.first)),
        b'N' => Mood::Change(image_of(rt, alloc, CHANGED_ROWS)),
        b'E' => Mood::Change(image_of(rt, alloc, EMPTY)),
        _ => panic!(rt; "{letter} is no mood"),
    }
}

/// Appends the mood of a letter.
fn push(rt: &impl Abort, alloc: Global, moods: &mut Vec<Mood>, images: Two<'_>, letter: u8) {
    moods
        .push(mood(rt, alloc, images, letter))
        .ok()
        .expect(rt, "memory");
}

/// A controller over the first image. Its first calls have the moods of these letters.
pub(crate) fn changing(
    rt: &impl Abort,
    alloc: Global,
    images: Two<'_>,
    letters: &str,
) -> Counting<Scripted> {
    let mut moods = Vec::new(alloc);
    for letter in letters.as_bytes() {
        push(rt, alloc, &mut moods, images, *letter);
    }
    Counting::new(Scripted::new(image_of(rt, alloc, images.first), moods))
}

/// The same over one image.
pub(crate) fn scripted(
    rt: &impl Abort,
    alloc: Global,
    image: &str,
    letters: &str,
) -> Counting<Scripted> {
    let images = Two {
        first: image,
        second: image,
    };
    changing(rt, alloc, images, letters)
}

/// The outcome of a command over the image.
pub(super) fn outcome_over(rt: &impl Abort, alloc: Global, words: &str, image: &str) -> Outcome {
    let ctl = over(rt, alloc, image);
    outcome_of_one(alloc, ctl, command_of_case(rt, alloc, words))
}
